ghost use Rattle.std.specs.Prelude.{◌≡◌, length};
ghost use Rattle.copies.specs.Shape.{Shaped};
ghost use Rattle.leader.specs.Corrections.{told, lawful_value, correction_step, installed_step, reply_step};

use crate::fault::LeaderFault;
use crate::lead::Lead;
use crate::sessions::{present_leader, session_of};
use copies::{Logs, Replicas};
use entries::{Entry, Sought, Stamp};
use kinds::RecordKind;
use relay::{Body, Message, Outcome, Settlement};

// Where the logs change, struct and slice stand apart and must fit, as at the calls of raft_log.

// The reply to a correction that is not appended.
fn tell<V: RecordKind>(m: &Message<V>, sequence: u16, outcome: Outcome, index: u16) -> Message<V>
    ensures { result ≡ told m.now sequence outcome index }
{
    Message {
        body: Body::CorrectionReply {
            sequence,
            outcome,
            settlement: Settlement {
                index,
                ..Settlement::default()
            },
        },
        value: None,
        ..*m
    }
}

// The message's value, if it has a lawful one.
fn lawful_value<V: RecordKind>(m: &Message<V>) -> Option<V>
    ensures { result ≡ lawful_value V.RecordKind.lawful m.now.value }
{
    m.value.filter(|v| v.is_lawful())
}

// A correction is appended under the leader's session, unless it is unlawful or in the log already.
pub fn correction<V: RecordKind>(
    logs: &mut Logs,
    lead: &mut Lead,
    entries: &mut [Entry<V>],
    m: &Message<V>,
    sequence: u16,
) -> Result<Option<Message<V>>, LeaderFault>
    requires shape { Shaped logs.old (length entries.old) }
    ensures { (logs.new, lead.new, entries.new, result) ≡ correction_step V.RecordKind.lawful logs.old lead.old entries.old m.now sequence }
{
    let leader = present_leader(logs, lead, m.session)?;
    if sequence <= lead.last {
        return Err(LeaderFault::NumberNotAbove);
    }
    let Some(value) = lawful_value(m) else {
        return Ok(Some(tell(m, sequence, Outcome::Unlawful, 0)));
    };
    let sought = Sought::Request {
        client: m.client,
        number: m.number,
    };
    let log = logs.over(entries).log(leader);
    let index = entries::last_index(log, sought);
    let known = logs.counts[leader as usize].known;
    match index {
        Some(i) if i > known => return Err(LeaderFault::Uncommitted),
        Some(i) => return Ok(Some(tell(m, sequence, Outcome::KnownAlready, i))),
        None => {}
    }
    let e = Entry {
        term: logs.term,
        stamp: Stamp {
            session: m.session,
            number: sequence,
        },
        client: m.client,
        number: m.number,
        star: m.star,
        value,
    };
    raft_log::append(logs, entries, leader, e)?;
    lead.last = sequence;
    Ok(None)
}

// The first installed message of a term has an opening entry appended.
pub fn installed<V: RecordKind>(
    logs: &mut Logs,
    lead: &Lead,
    entries: &mut [Entry<V>],
    session: u32,
) -> Result<(), LeaderFault>
    requires shape { Shaped logs.old (length entries.old) }
    ensures { (logs.new, entries.new, result) ≡ installed_step V.RecordKind.blank_value logs.old lead.now entries.old session }
{
    let leader = present_leader(logs, lead, session)?;
    let begun = Sought::Term(logs.term);
    if entries::last_index(logs.over(entries).log(leader), begun).is_some() {
        return Err(LeaderFault::TermBegun);
    }
    let e = Entry {
        term: logs.term,
        stamp: Stamp { session, number: 0 },
        client: 0,
        number: 0,
        star: 0,
        value: V::blank(),
    };
    raft_log::append(logs, entries, leader, e)?;
    Ok(())
}

// The fresh reply for the leader's entry i, with the copies that hold i entries.
pub fn reply<V: RecordKind>(
    copies: &Replicas<V>,
    lead: &Lead,
    i: u32,
) -> Result<Message<V>, LeaderFault>
    ensures { result ≡ reply_step V.RecordKind.blank_value V.PartialEq.eq copies.now.logs.now lead.now copies.now.entries.now i }
{
    let logs = copies.logs;
    let leader = raft_log::leader_of(logs)?;
    let e = raft_log::entry_known(copies, leader, i)?;
    if (e.star == 0) | (e.stamp.session != session_of(logs.term, lead.part)) {
        return Err(LeaderFault::NoReply);
    }
    let index = i as u16;
    let holders = copies.holders(leader, index);
    Ok(Message {
        client: e.client,
        number: e.number,
        star: e.star,
        session: e.stamp.session,
        body: Body::CorrectionReply {
            sequence: e.stamp.number,
            outcome: Outcome::Fresh,
            settlement: Settlement {
                index,
                holders,
                stamp: e.stamp,
            },
        },
        value: None,
    })
}
