ghost use Rattle.std.specs.Prelude.{◌≡◌, length};
ghost use Rattle.copies.specs.Shape.{Shaped};
ghost use Rattle.delivery.specs.Kinds.{at_read_request, at_correction_request, at_copy_read, at_leader_read, at_correction, at_installed, at_leader_reply, at_copy_reply, at_correction_reply, at_answer};

use client::{Answer, ClientFault};
use entries::{Entry, Stamp};
use kinds::RecordKind;
use leader::LeaderFault;
use raft_log::LogFault;
use relay::{Message, Outcome, Settlement};
use state::{Service, ServiceFault};
use votes::VoteRule;

// Service and slice stand apart and must fit, as at the calls of raft_log: memory is lent to each step.

// What a delivered message brings about: a new message, an answer that its client takes, or nothing more.
#[derive(Drop)]
pub enum Reaction<V> {
    Sends(Message<V>),
    Answers(Answer<V>),
    Ends,
}

// A read request at the relay.
pub fn read_request<V: RecordKind, R: VoteRule>(
    s: &mut Service<R>,
    m: &Message<V>,
) -> Result<Reaction<V>, ServiceFault>
    ensures { (s.new, result) ≡ at_read_request s.old m.now }
{
    let copies = s.logs.copies;
    Ok(Reaction::Sends(s.relay.read_request(copies, m)?))
}

// A correction request at the relay.
pub fn correction_request<V: RecordKind, R: VoteRule>(
    s: &mut Service<R>,
    m: &Message<V>,
) -> Result<Reaction<V>, ServiceFault>
    ensures { (s.new, result) ≡ at_correction_request s.old m.now }
{
    Ok(Reaction::Sends(s.relay.correction_request(m)?))
}

// A copy read at its copy.
pub fn copy_read<V: RecordKind, R: VoteRule>(
    s: &mut Service<R>,
    entries: &[Entry<V>],
    m: &Message<V>,
    copy: u8,
    index: u16,
) -> Result<Reaction<V>, ServiceFault>
    requires shape { Shaped s.old.logs (length entries.now) }
    ensures { (s.new, result) ≡ at_copy_read V.PartialEq.eq s.old entries.now m.now copy index }
{
    if copy >= s.logs.copies {
        return Err(ServiceFault::Leader(LeaderFault::Log(LogFault::NotCommitted)));
    }
    Ok(Reaction::Sends(leader::copy_read(&mut s.logs, entries, m, copy, index)?))
}

// A leader read at the leader.
pub fn leader_read<V: RecordKind, R: VoteRule>(
    s: &Service<R>,
    entries: &[Entry<V>],
    m: &Message<V>,
) -> Result<Reaction<V>, ServiceFault>
    requires shape { Shaped s.now.logs (length entries.now) }
    ensures { result ≡ at_leader_read s.now entries.now m.now }
{
    Ok(Reaction::Sends(leader::leader_read(&s.logs.over(entries), &s.lead, m)?))
}

// A correction at the leader.
pub fn correction<V: RecordKind, R: VoteRule>(
    s: &mut Service<R>,
    entries: &mut [Entry<V>],
    m: &Message<V>,
    sequence: u16,
) -> Result<Reaction<V>, ServiceFault>
    requires shape { Shaped s.old.logs (length entries.old) }
    ensures { (s.new, entries.new, result) ≡ at_correction V.RecordKind.lawful s.old entries.old m.now sequence }
{
    let sent = leader::correction(&mut s.logs, &mut s.lead, entries, m, sequence)?;
    Ok(sent.map_or(Reaction::Ends, Reaction::Sends))
}

// An installed message at the leader.
pub fn installed<V: RecordKind, R: VoteRule>(
    s: &mut Service<R>,
    entries: &mut [Entry<V>],
    session: u32,
) -> Result<Reaction<V>, ServiceFault>
    requires shape { Shaped s.old.logs (length entries.old) }
    ensures { (s.new, entries.new, result) ≡ at_installed V.RecordKind.blank_value s.old entries.old session }
{
    leader::installed(&mut s.logs, &s.lead, entries, session)?;
    Ok(Reaction::Ends)
}

// The leader's read reply at the relay.
pub fn leader_reply<V: RecordKind, R: VoteRule>(
    s: &Service<R>,
    m: &Message<V>,
) -> Result<Reaction<V>, ServiceFault>
    ensures { result ≡ at_leader_reply s.now m.now }
{
    Ok(Reaction::Sends(s.relay.leader_reply(m)?))
}

// A copy's read reply at the relay.
pub fn copy_reply<V: RecordKind, R: VoteRule>(
    s: &Service<R>,
    m: &Message<V>,
    stamp: Stamp,
) -> Result<Reaction<V>, ServiceFault>
    ensures { result ≡ at_copy_reply s.now m.now stamp }
{
    Ok(Reaction::Sends(s.relay.copy_reply(m, stamp)?))
}

// A correction reply at the relay.
pub fn correction_reply<V: RecordKind, R: VoteRule>(
    s: &mut Service<R>,
    m: &Message<V>,
    sequence: u16,
    outcome: Outcome,
    settlement: Settlement,
) -> Result<Reaction<V>, ServiceFault>
    ensures { (s.new, result) ≡ at_correction_reply s.old m.now sequence outcome settlement }
{
    Ok(Reaction::Sends(s.relay.correction_reply(m, sequence, outcome, settlement)?))
}

// An answer at its client.
pub fn answer<V: RecordKind, R: VoteRule>(
    s: &mut Service<R>,
    client: u8,
    number: u16,
    told: Answer<V>,
) -> Result<Reaction<V>, ServiceFault>
    ensures { (s.new, result) ≡ at_answer s.old client number told }
{
    let seat = s.seat(client).ok_or(ClientFault::NotAwaited)?;
    Ok(Reaction::Answers(s.clients[seat].take(number, told)?))
}
