// Tells a scenario in words: each line as it was asked for, what came of it, with number and layer,
// and tables at the end.
#![tactic(auto)]

mod calls;
mod inputs;
mod outcomes;
mod sentences;
mod story;
mod tables;

pub use story::tell;
