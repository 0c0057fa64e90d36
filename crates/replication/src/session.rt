ghost use Rattle.std.specs.Prelude.{◌≡◌};
ghost use Rattle.replication.specs.Steps.{open_step, fresh_reply, reply_step};

use entries::Entry;
use kinds::RecordKind;
use relay::Message;
use state::{Service, ServiceFault};
use votes::VoteRule;

// Entries and messages stand apart from the service, in memory that is lent to each step.

// The leader opens its next session, and its snapshot is kept; the answer is the session.
pub fn open<V: RecordKind, R: VoteRule>(
    s: &mut Service<R>,
    entries: &[Entry<V>],
) -> Result<u32, ServiceFault>
    ensures { (s.new, result) ≡ open_step V.PartialEq.eq s.old entries.now }
{
    s.check_entries(entries)?;
    let snapshot = leader::open_session(&s.logs.over(entries), &mut s.lead)?;
    s.snapshot = Some(snapshot);
    Ok(snapshot.session)
}

// The fresh reply for the leader's entry i.
#[tactic(auto, unfolding(crate::specs::Steps::fresh_reply))]
fn fresh_reply<V: RecordKind, R: VoteRule>(
    s: &Service<R>,
    entries: &[Entry<V>],
    i: u32,
) -> Result<Message<V>, ServiceFault>
    ensures { result ≡ fresh_reply V.RecordKind.blank_value V.PartialEq.eq s.now entries.now i }
{
    s.check_entries(entries)?;
    Ok(leader::reply(&s.logs.over(entries), &s.lead, i)?)
}

// Puts a fresh reply for the leader's entry i, which is the answer.
pub fn reply<V: RecordKind, R: VoteRule>(
    s: &mut Service<R>,
    entries: &[Entry<V>],
    messages: &mut [Message<V>],
    i: u32,
) -> Result<u32, ServiceFault>
    ensures { (s.new, messages.new, result) ≡ reply_step V.RecordKind.blank_value V.PartialEq.eq s.old entries.now messages.old i }
{
    s.check_messages(messages)?;
    let m = fresh_reply(s, entries, i)?;
    s.table.post(messages, m)?;
    Ok(i)
}
