// The rules of the service, apart from the memory that it lies in: what comes of a step, and one
// definition for each of the fourteen steps and nine kinds of message.
#![tactic(auto)]

mod effect;

pub use effect::Effect;
