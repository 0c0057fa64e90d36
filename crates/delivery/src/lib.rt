// The step deliver: one message is taken from the table and does what its kind says.
#![tactic(auto)]

mod react;
mod step;

pub use step::{Effect, deliver};
