ghost use Rattle.std.specs.Prelude.{◌≡◌};
ghost use Rattle.service.specs.Perform.{perform_step};

use crate::call::Call;
use delivery::Effect;
use entries::Entry;
use kinds::RecordKind;
use relay::Message;
use state::{Service, ServiceFault};
use votes::VoteRule;

// Carries the call out. A refused call changes nothing.
// Memory is lent to each step, beside a service held by value, so the four stand apart.
// One arm a step: each takes arguments and memory of its own, so closures would have nothing in common.
#[tactic(auto, unfolding(crate::specs::Perform::perform_step))]
pub fn perform<V: RecordKind, R: VoteRule>(
    s: &mut Service<R>,
    entries: &mut [Entry<V>],
    messages: &mut [Message<V>],
    kept: &mut [V],
    call: Call<V>,
) -> Result<Effect<V>, ServiceFault>
    ensures { (s.new, entries.new, messages.new, kept.new, result) ≡ perform_step V.RecordKind.blank_value V.RecordKind.well_formed V.RecordKind.lawful V.PartialEq.eq R.VoteRule.commits R.VoteRule.elects s.old entries.old messages.old kept.old call }
{
    let n = match call {
        Call::Elect { copy, voters } => u32::from(replication::elect(s, entries, copy, voters)?),
        Call::Open => replication::open(s, entries)?,
        Call::Install => requests::install(s, messages)?,
        Call::Restart => {
            requests::restart(s);
            0
        }
        Call::Read { client, star } => u32::from(requests::read(s, messages, client, star)?),
        Call::Correct {
            client,
            star,
            value,
        } => u32::from(requests::correct(s, messages, kept, client, star, value)?),
        Call::Again { client } => u32::from(requests::again(s, messages, kept, client)?),
        Call::Abandon { client } => {
            requests::abandon(s, client)?;
            0
        }
        Call::Deliver { place } => return delivery::deliver(s, entries, messages, place),
        Call::Lose { place } => {
            requests::lose(s, messages, place)?;
            0
        }
        Call::Double { place } => u32::from(requests::double(s, messages, place)?),
        Call::Copy { copy } => u32::from(replication::copy(s, entries, copy)?),
        Call::Commit { count } => replication::commit(s, entries, count)?,
        Call::Reply { index } => replication::reply(s, entries, messages, index)?,
    };
    Ok(Effect::Done(n))
}
