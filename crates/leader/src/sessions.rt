ghost use Rattle.std.specs.Prelude.{◌≡◌, ℕ, ◌<◌, IfOk, Some};
ghost use Rattle.leader.specs.Sessions.{session_of, present, zone_row, zone_rows, open_step};

use crate::fault::LeaderFault;
use crate::lead::Lead;
use copies::{Logs, Replicas};
use entries::Sought;
use kinds::RecordKind;
use relay::{Row, Settlement, Snapshot};
use std::array;

// A session is its term and its part, as one number.
pub fn session_of(term: u16, part: u16) -> u32
    ensures { result ≡ session_of term part }
{
    u32::from(term) * 65536 + u32::from(part)
}

// The leader, if the session is its present one.
pub fn present_leader(logs: &Logs, lead: &Lead, session: u32) -> Result<u8, LeaderFault>
    requires { (a : ℕ) → logs.now.leader ≡ Some a → a < logs.now.copies }
    ensures value { result ≡ present logs.now lead.now session logs.now.leader }
    ensures bound { IfOk result (λ a. a < logs.now.copies) }
{
    let leader = logs.leader.ok_or(LeaderFault::OtherSession)?;
    if session != session_of(logs.term, lead.part) {
        return Err(LeaderFault::OtherSession);
    }
    Ok(leader)
}

// The zone's row in a snapshot: settled if no entry of the zone lies beyond the known count.
fn zone_row<V: RecordKind>(copies: &Replicas<V>, leader: u8, holders: u8, zone: u8) -> Row
    requires { leader < copies.now.logs.now.copies }
    ensures { result ≡ zone_row copies.now.logs.now copies.now.entries.now leader holders zone }
{
    let known = copies.logs.counts[leader as usize].known;
    let last = entries::last_index(copies.log(leader), Sought::Zone(zone));
    if last.is_some_and(|i| i > known) {
        return Row::default();
    }
    Row {
        latest: 0,
        settled: Some(Settlement {
            index: known,
            holders,
            stamp: entries::zone_stamp(copies.known_log(leader), zone),
        }),
    }
}

fn zone_rows<V: RecordKind>(copies: &Replicas<V>, leader: u8, holders: u8) -> [Row; 16]
    requires { leader < copies.now.logs.now.copies }
    ensures { result ≡ zone_rows copies.now.logs.now copies.now.entries.now leader holders }
{
    array::from_fn(|zone| zone_row(copies, leader, holders, zone as u8))
}

// The leader opens its next session; the answer is the session's snapshot.
pub fn open_session<V: RecordKind>(
    copies: &Replicas<V>,
    lead: &mut Lead,
) -> Result<Snapshot, LeaderFault>
    ensures { (lead.new, result) ≡ open_step V.PartialEq.eq copies.now.logs.now lead.old copies.now.entries.now }
{
    let logs = copies.logs;
    let leader = raft_log::leader_of(logs)?;
    let part = lead.part.checked_add(1).ok_or(LeaderFault::PartsUsedUp)?;
    let holders = copies.holders(leader, logs.counts[leader as usize].known);
    let rows = zone_rows(copies, leader, holders);
    *lead = Lead { part, last: 0 };
    let session = session_of(logs.term, part);
    Ok(Snapshot {
        session,
        leader,
        rows,
    })
}
