// The leader's part: its session and last sequence number, the snapshot that it opens a session
// with, and what the leader and the copies do with the messages that reach them.
#![tactic(auto)]

mod corrections;
mod fault;
mod lead;
mod reads;
mod sessions;
mod votes_and_copies;

pub use corrections::{correction, installed, reply};
pub use fault::LeaderFault;
pub use lead::Lead;
pub use reads::{copy_read, leader_read};
pub use sessions::open_session;
pub use votes_and_copies::{commit, copy, elect};
