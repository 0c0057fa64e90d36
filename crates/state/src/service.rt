use client::Client;
use copies::Logs;
use leader::Lead;
use relay::{Relay, Snapshot};

// How many messages the table takes, and how many are under way: the first of the lent slice.
// The slice stays beside it, since memory is lent to each step and the service is a plain struct.
#[derive(Clone, Copy)]
pub struct Table {
    pub size: u16,
    pub count: u16,
}

// A service over any vote rule. Its entries, messages and kept values lie in memory that is lent to each step.
// Of the clients the first `seats` take part: an array, since the service is plain and has no heap.
#[derive(Clone, Copy)]
pub struct Service<R> {
    pub rule: R,
    pub logs: Logs,
    pub lead: Lead,
    pub snapshot: Option<Snapshot>,
    pub relay: Relay,
    pub clients: [Client; 8],
    pub seats: u8,
    pub table: Table,
}
