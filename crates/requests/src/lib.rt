// The steps at the relay's switch, the clients and the message table: install, restart, read,
// correct, again, abandon, lose and double. A refused step changes nothing.
#![tactic(auto)]

mod ask;
mod repeat;
mod table;

pub use ask::{correct, read};
pub use repeat::{abandon, again};
pub use table::{double, install, lose, restart};
