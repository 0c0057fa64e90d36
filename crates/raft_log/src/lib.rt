// The replicated log: elect, append, copy, commit and the rise of a copy's known count. A refused
// call changes nothing.
#![tactic(auto)]

mod calls;
mod change;
mod fault;
mod vote;

pub use calls::{append, commit, copy, elect, rise};
pub use change::{entry_known, leader_of};
pub use fault::LogFault;
