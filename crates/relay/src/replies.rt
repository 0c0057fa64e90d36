ghost use Rattle.std.specs.Prelude.{◌≡◌};
ghost use Rattle.relay.specs.Delivery.{check_session, leader_reply, copy_reply, correction_reply};

use crate::fault::RelayFault;
use crate::message::{Body, Message, Outcome};
use crate::requests::forward;
use crate::rows::{Relay, Settlement};
use entries::{Stamp, zone_of};
use kinds::RecordKind;

// A reply is taken only in its own session.
fn check_session(own: u32, session: u32) -> Result<(), RelayFault>
    ensures { result ≡ check_session own session }
{
    if session != own {
        return Err(RelayFault::OtherSession);
    }
    Ok(())
}

impl Relay {
    // The leader's read reply goes to the client.
    pub fn leader_reply<V: RecordKind>(&self, m: &Message<V>) -> Result<Message<V>, RelayFault>
        ensures { result ≡ leader_reply self.now m.now }
    {
        self.opened.as_ref().ok_or(RelayFault::Closed)?;
        check_session(self.session, m.session)?;
        Ok(forward(m, 0, Body::ReadAnswer))
    }

    // A copy's read reply goes to the client if the zone is settled and the stamps are equal;
    // otherwise the leader is asked.
    pub fn copy_reply<V: RecordKind>(
        &self,
        m: &Message<V>,
        stamp: Stamp,
    ) -> Result<Message<V>, RelayFault>
        ensures { result ≡ copy_reply self.now m.now stamp }
    {
        let opened = self.opened.as_ref().ok_or(RelayFault::Closed)?;
        check_session(self.session, m.session)?;
        let row = opened.rows[zone_of(m.star) as usize];
        match row.settled {
            Some(settlement) if settlement.stamp == stamp => Ok(forward(m, 0, Body::ReadAnswer)),
            _ => Ok(Message {
                session: self.session,
                body: Body::LeaderRead,
                value: None,
                ..*m
            }),
        }
    }

    // A correction reply goes to the client. A fresh one with the row's latest number settles it.
    pub fn correction_reply<V: RecordKind>(
        &mut self,
        m: &Message<V>,
        sequence: u16,
        outcome: Outcome,
        settlement: Settlement,
    ) -> Result<Message<V>, RelayFault>
        ensures { (self.new, result) ≡ correction_reply self.old m.now sequence outcome settlement }
    {
        let opened = self.opened.as_mut().ok_or(RelayFault::Closed)?;
        check_session(self.session, m.session)?;
        let row = &mut opened.rows[zone_of(m.star) as usize];
        if outcome == Outcome::Fresh && sequence == row.latest {
            row.settled = Some(settlement);
        }
        let index = settlement.index;
        Ok(forward(m, 0, Body::CorrectionAnswer { outcome, index }))
    }
}
