// The copies' logs, all in one lent slice of entries, and what is asked of them.
#![tactic(auto)]

mod logs;
mod questions;
mod replicas;
mod shape;

pub use logs::{Counts, Logs};
pub use replicas::Replicas;
