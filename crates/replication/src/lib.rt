// The steps at the copies and the leader: elect, open, copy, commit and reply. Lent memory that is
// too small is refused first, and a refused step changes nothing.
#![tactic(auto)]

mod change;
mod session;

pub use change::{commit, copy, elect};
pub use session::{open, reply};
