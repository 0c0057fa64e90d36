// The relay: it keeps one row for each zone and sends a reading to a copy that is known to be
// current, otherwise to the leader. It stands above the log and knows only stamps, sessions and sets.
#![tactic(auto)]

mod choice;
mod fault;
mod message;
mod replies;
mod requests;
mod rows;

pub use choice::choose;
pub use fault::RelayFault;
pub use message::{Body, Message, Outcome};
pub use rows::{Opened, Relay, Row, Settlement, Snapshot};
