// The service: the copies' logs, the leader's part, the snapshot, the relay and the clients in one
// plain struct, beside the memory that is lent to each step; the message table; and the number,
// layer and class of each refusal and drop.
#![tactic(auto)]

mod fault;
mod memory;
mod service;
mod shape;
mod table;

pub use fault::{Class, Layer, ServiceFault};
pub use memory::{blank_entry, blank_message, filled};
pub use service::{Service, Table};
pub use shape::{new_service, seats_fit};
