ghost use Rattle.std.specs.Prelude.{◌≡◌, ◌<◌, length};
ghost use Rattle.copies.specs.Shape.{Shaped};
ghost use Rattle.leader.specs.Steps.{elect_step, copy_step, commit_step};

use crate::fault::LeaderFault;
use crate::lead::Lead;
use copies::Logs;
use entries::Entry;
use kinds::RecordKind;
use votes::VoteRule;

// Where the logs change, struct and slice stand apart and must fit, as at the calls of raft_log.

// A new leader begins without a session.
pub fn elect<V: RecordKind, R: VoteRule>(
    rule: R,
    logs: &mut Logs,
    lead: &mut Lead,
    entries: &[Entry<V>],
    candidate: u8,
    voters: u8,
) -> Result<u16, LeaderFault>
    requires shape { Shaped logs.old (length entries.now) }
    requires copy { candidate < logs.old.copies }
    ensures { (logs.new, lead.new, result) ≡ elect_step (R.VoteRule.elects rule) logs.old lead.old entries.now candidate voters }
{
    let term = raft_log::elect(rule, logs, entries, candidate, voters)?;
    lead.part = 0;
    Ok(term)
}

// Only passes the log's fault up inside the leader's.
pub fn copy<V: RecordKind>(
    logs: &mut Logs,
    entries: &mut [Entry<V>],
    r: u8,
) -> Result<u16, LeaderFault>
    requires shape { Shaped logs.old (length entries.old) }
    requires copy { r < logs.old.copies }
    ensures { (logs.new, entries.new, result) ≡ copy_step V.RecordKind.blank_value logs.old entries.old r }
{
    Ok(raft_log::copy(logs, entries, r)?)
}

// Only passes the log's fault up inside the leader's.
pub fn commit<V: RecordKind, R: VoteRule>(
    rule: R,
    logs: &mut Logs,
    entries: &[Entry<V>],
    n: u32,
) -> Result<u32, LeaderFault>
    requires shape { Shaped logs.old (length entries.now) }
    ensures { (logs.new, result) ≡ commit_step V.PartialEq.eq (R.VoteRule.commits rule) logs.old entries.now n }
{
    Ok(raft_log::commit(rule, logs, entries, n)?)
}
