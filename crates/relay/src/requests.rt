ghost use Rattle.std.specs.Prelude.{◌≡◌};
ghost use Rattle.relay.specs.Delivery.{sent, read_request, correction_request};

use crate::choice::choose;
use crate::fault::RelayFault;
use crate::message::{Body, Message};
use crate::rows::{Relay, Row};
use entries::zone_of;
use kinds::RecordKind;

// The message goes on for the same client, number, star and value: a request under the relay's
// session, a reply under session 0.
pub fn forward<V: RecordKind>(m: &Message<V>, session: u32, body: Body) -> Message<V>
    ensures { result ≡ sent m.now session body }
{
    Message {
        session,
        body,
        ..*m
    }
}

impl Relay {
    // A reading goes to a copy if its zone is settled, otherwise to the leader.
    pub fn read_request<V: RecordKind>(
        &mut self,
        copies: u8,
        m: &Message<V>,
    ) -> Result<Message<V>, RelayFault>
        ensures { (self.new, result) ≡ read_request copies self.old m.now }
    {
        let session = self.session;
        let opened = self.opened.as_mut().ok_or(RelayFault::Closed)?;
        let row = opened.rows[zone_of(m.star) as usize];
        let Some(settlement) = row.settled else {
            return Ok(forward(m, session, Body::LeaderRead));
        };
        let Some(copy) = choose(copies, settlement.holders, opened.turn) else {
            return Ok(forward(m, session, Body::LeaderRead));
        };
        opened.turn = (copy + 1) % copies;
        let index = settlement.index;
        Ok(forward(m, session, Body::CopyRead { copy, index }))
    }

    // A correction gets the next sequence number, and its zone is unsettled.
    pub fn correction_request<V: RecordKind>(
        &mut self,
        m: &Message<V>,
    ) -> Result<Message<V>, RelayFault>
        ensures { (self.new, result) ≡ correction_request self.old m.now }
    {
        let opened = self.opened.as_mut().ok_or(RelayFault::Closed)?;
        // Not `checked_add`: where it refuses, the proof that the number is 65,535 did not close.
        if opened.sequence == u16::MAX {
            return Err(RelayFault::NumbersUsedUp);
        }
        opened.sequence += 1;
        let sequence = opened.sequence;
        opened.rows[zone_of(m.star) as usize] = Row {
            latest: sequence,
            settled: None,
        };
        Ok(forward(m, self.session, Body::Correction { sequence }))
    }
}
