ghost use Rattle.std.specs.Prelude.{◌≡◌, length};
ghost use Rattle.copies.specs.Shape.{Shaped};
ghost use Rattle.delivery.specs.Deliver.{react as reaction_to, deliver_step};

use crate::react;
use crate::react::Reaction;
use client::Answer;
use entries::Entry;
use kinds::RecordKind;
use relay::{Body, Message};
use state::{Service, ServiceFault};
use votes::VoteRule;

// What came of a step that was not refused: it is done, with a number; the message was dropped; or
// a client took an answer.
#[derive(Drop)]
pub enum Effect<V> {
    Done(u32),
    Dropped(ServiceFault),
    Answered(Answer<V>),
}

// The message does what its kind says, and leaves the table as it is.
// One arm a kind: each reads fields of its own, so closures would have nothing in common.
// Service and slice stand apart and must fit, as at the calls of raft_log.
#[tactic(auto, unfolding(crate::specs::Deliver::react))]
fn react_to<V: RecordKind, R: VoteRule>(
    s: &mut Service<R>,
    entries: &mut [Entry<V>],
    m: &Message<V>,
) -> Result<Reaction<V>, ServiceFault>
    requires shape { Shaped s.old.logs (length entries.old) }
    ensures value { (s.new, entries.new, result) ≡ reaction_to V.RecordKind.blank_value V.RecordKind.lawful V.PartialEq.eq s.old entries.old m.now m.now.body }
    ensures table { s.new.table ≡ s.old.table }
{
    match m.body {
        Body::ReadRequest => react::read_request(s, m),
        Body::CorrectionRequest => react::correction_request(s, m),
        Body::CopyRead { copy, index } => react::copy_read(s, entries, m, copy, index),
        Body::LeaderRead => react::leader_read(s, entries, m),
        Body::Correction { sequence } => react::correction(s, entries, m, sequence),
        Body::Installed => react::installed(s, entries, m.session),
        Body::LeaderReply => react::leader_reply(s, m),
        Body::CopyReply { copy: _, stamp } => react::copy_reply(s, m, stamp),
        Body::CorrectionReply {
            sequence,
            outcome,
            settlement,
        } => { react::correction_reply(s, m, sequence, outcome, settlement) }
        Body::ReadAnswer => react::answer(s, m.client, m.number, Answer::Reading(m.value)),
        Body::CorrectionAnswer { outcome, index } => {
            react::answer(s, m.client, m.number, Answer::Correction { outcome, index })
        }
    }
}

// Delivers the message at the place. If it is dropped, its place is freed and nothing else changes.
pub fn deliver<V: RecordKind, R: VoteRule>(
    s: &mut Service<R>,
    entries: &mut [Entry<V>],
    messages: &mut [Message<V>],
    place: u32,
) -> Result<Effect<V>, ServiceFault>
    ensures { (s.new, entries.new, messages.new, result) ≡ deliver_step V.RecordKind.blank_value V.RecordKind.lawful V.PartialEq.eq s.old entries.old messages.old place }
{
    s.check_entries(entries)?;
    s.check_messages(messages)?;
    let place = s.check_place(place)?;
    let m = s.table.take(messages, place);
    match react_to(s, entries, &m) {
        Ok(Reaction::Sends(sent)) => {
            s.table.put(messages, sent);
            Ok(Effect::Done(0))
        }
        Ok(Reaction::Answers(answer)) => Ok(Effect::Answered(answer)),
        Ok(Reaction::Ends) => Ok(Effect::Done(0)),
        Err(fault) => Ok(Effect::Dropped(fault)),
    }
}
