ghost use Rattle.std.specs.Prelude.{◌≡◌, ◌<◌, ◌≤◌, true, length, is_ok, OnOk, IfSome};
ghost use Rattle.copies.specs.Shape.{shaped, Shaped};
ghost use Rattle.state.specs.Memory.{table_fits, TableShaped, seats_fit, enough, occupied, seat_of};
ghost use Rattle.state.specs.Parts.{new_step};

use crate::fault::ServiceFault;
use crate::service::{Service, Table};
use client::Client;
use copies::Logs;
use entries::Entry;
use kinds::RecordKind;
use leader::Lead;
use relay::{Message, Relay};
use votes::VoteRule;

impl Table {
    // Whether the table's numbers are within bounds, and n places are enough for it.
    pub fn fits(&self, n: usize) -> bool
        ensures value { result ≡ table_fits self.now n }
        ensures means { result ≡ true → TableShaped self.now n }
    {
        (1..=256).contains(&self.size) & (self.count <= self.size) & (self.size as usize <= n)
    }
}

// Whether there are 1 to 8 clients, and n kept values are enough for them.
pub fn seats_fit(seats: u8, n: usize) -> bool
    ensures value { result ≡ seats_fit seats n }
    ensures means { result ≡ true → (seats ≤ 8) × (seats ≤ n) }
{
    (1..=8).contains(&seats) & (seats as usize <= n)
}

// Refuses where the lent memory is not enough.
fn enough(fits: bool) -> Result<(), ServiceFault>
    ensures { result ≡ enough fits }
{
    if fits {
        Ok(())
    } else {
        Err(ServiceFault::Memory)
    }
}

impl<R> Service<R> {
    // Refuses where the entries are too few for the logs, or a number of the logs is out of bounds.
    pub fn check_entries<V: RecordKind>(&self, entries: &[Entry<V>]) -> Result<(), ServiceFault>
        ensures value { result ≡ enough (shaped self.now.logs (length entries.now)) }
        ensures variant { is_ok result ≡ shaped self.now.logs (length entries.now) }
        ensures means { OnOk result (Shaped self.now.logs (length entries.now)) }
    {
        enough(self.logs.fits(entries.len()))
    }

    // Refuses where the messages are too few for the table, or a number of the table is out of bounds.
    pub fn check_messages<V: RecordKind>(&self, messages: &[Message<V>]) -> Result<(), ServiceFault>
        ensures value { result ≡ enough (table_fits self.now.table (length messages.now)) }
        ensures variant { is_ok result ≡ table_fits self.now.table (length messages.now) }
        ensures means { OnOk result (TableShaped self.now.table (length messages.now)) }
    {
        enough(self.table.fits(messages.len()))
    }

    // Refuses where the kept values are too few for the clients, or these are not 1 to 8.
    pub fn check_kept<V: RecordKind>(&self, kept: &[V]) -> Result<(), ServiceFault>
        ensures value { result ≡ enough (seats_fit self.now.seats (length kept.now)) }
        ensures variant { is_ok result ≡ seats_fit self.now.seats (length kept.now) }
        ensures means { OnOk result (self.now.seats ≤ length kept.now) }
    {
        enough(seats_fit(self.seats, kept.len()))
    }

    // The place, if there is a message at it.
    pub fn check_place(&self, place: u32) -> Result<u16, ServiceFault>
        ensures value { result ≡ occupied self.now.table place }
        ensures means { OnOk result (place < self.now.table.count) }
    {
        // Not `u16::try_from`: where it fails, the proof that such a place is beyond the count did not close.
        if place < u32::from(self.table.count) {
            Ok(place as u16)
        } else {
            Err(ServiceFault::NoSuch)
        }
    }

    // The client's seat, if it takes part.
    pub fn seat(&self, client: u8) -> Option<usize>
        ensures value { result ≡ seat_of self.now.seats client }
        ensures bound { IfSome result (λ k. (k < 8) × (k < self.now.seats)) }
    {
        ((client < self.seats) & (client < 8)).then_some(client as usize)
    }
}

// A new service for the rule's number of copies: logs of the given capacity, a table of the given
// size, and the given number of clients, over lent memory.
pub fn new_service<V: RecordKind, R: VoteRule>(
    rule: R,
    capacity: u16,
    size: u16,
    seats: u8,
    entries: &[Entry<V>],
    messages: &[Message<V>],
    kept: &[V],
) -> Result<Service<R>, ServiceFault>
    ensures { result ≡ new_step rule (R.VoteRule.count rule) capacity size seats (length entries.now) (length messages.now) (length kept.now) }
{
    let logs = Logs::new(rule.copies(), capacity);
    enough(logs.fits(entries.len()))?;
    let table = Table { size, count: 0 };
    enough(table.fits(messages.len()))?;
    enough(seats_fit(seats, kept.len()))?;
    Ok(Service {
        rule,
        logs,
        lead: Lead::default(),
        snapshot: None,
        relay: Relay::closed(0),
        clients: [Client::default(); 8],
        seats,
        table,
    })
}
