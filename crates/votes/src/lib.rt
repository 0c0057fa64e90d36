// Vote rules: which sets of copies are enough to commit, and which to elect.
#![tactic(auto)]

mod every;
mod majority;
mod rule;
mod sets;

pub use every::EveryCopy;
pub use majority::Majority;
pub use rule::VoteRule;
pub use sets::{has, set_size, share_a_copy};
