ghost use Rattle.std.specs.Prelude.{◌≡◌};
ghost use Rattle.rehearsal.specs.Answer.{code_of, answer_step};

use crate::reading::decode;
use crate::writing::{encode, fault_record};
use entries::Entry;
use kinds::RecordKind;
use relay::Message;
use state::{Service, ServiceFault};
use std::alloc::{AllocError, Global};
use votes::{Majority, VoteRule};

// Entries, messages and kept values stand apart from the service, in memory that is lent to each step.

// The code that the answer begins with: that of the record, 0 of a short one.
fn code_of(bytes: &[u8]) -> u8
    ensures { result ≡ code_of bytes.now }
{
    if bytes.len() == 24 { bytes[0] } else { 0 }
}

// Carries a record out, and answers it.
pub fn answer<V: RecordKind, R: VoteRule>(
    s: &mut Service<R>,
    entries: &mut [Entry<V>],
    messages: &mut [Message<V>],
    kept: &mut [V],
    bytes: &[u8],
) -> [u8; 24]
    ensures { (s.new, entries.new, messages.new, kept.new, result) ≡ answer_step V.RecordKind.blank_value V.RecordKind.well_formed V.RecordKind.lawful V.RecordKind.bytes V.RecordKind.parsed V.PartialEq.eq R.VoteRule.commits R.VoteRule.elects s.old entries.old messages.old kept.old bytes.now }
{
    let code = code_of(bytes);
    match decode(bytes) {
        Some(call) => encode(code, service::perform(s, entries, messages, kept, call)),
        None => fault_record(code, ServiceFault::Malformed),
    }
}

// Carries all records out in their order, and answers each.
pub fn rehearse<V: RecordKind, R: VoteRule>(
    heap: Global,
    s: &mut Service<R>,
    entries: &mut [Entry<V>],
    messages: &mut [Message<V>],
    kept: &mut [V],
    input: &[u8],
) -> Result<Vec<u8>, AllocError> {
    let mut out = Vec::with_capacity(heap, input.len().div_ceil(24) * 24)?;
    for record in input.chunks(24) {
        out.extend_from_slice(&answer(s, entries, messages, kept, record))?;
    }
    Ok(out)
}

// Rehearses the whole input on a new service of 3 copies, majority, 64 entries, 32 messages and 4
// clients.
pub fn rehearse_input<V: RecordKind>(heap: Global, input: &[u8]) -> Result<Vec<u8>, AllocError> {
    let mut entries = state::filled(heap, state::blank_entry::<V>(), 192)?;
    let mut messages = state::filled(heap, state::blank_message::<V>(), 32)?;
    let mut kept = state::filled(heap, V::blank(), 4)?;
    let made = state::new_service(Majority::new(3), 64, 32, 4, &entries, &messages, &kept);
    // These sizes are never refused.
    let Ok(mut s) = made else {
        return Ok(Vec::new(heap));
    };
    rehearse(heap, &mut s, &mut entries, &mut messages, &mut kept, input)
}
