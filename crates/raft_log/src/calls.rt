ghost use Rattle.std.specs.Prelude.{◌≡◌, ℕ, ◌<◌, length};
ghost use Rattle.copies.specs.Shape.{Shaped};
ghost use Rattle.copies.specs.View.{view_of};
ghost use Rattle.raft_log.specs.Calls.{elect_step, append_step, copy_step, commit_step, rise_step};
ghost use Rattle.raft_log.specs.Moves.{elect_move, append_move, copy_move, commit_move, rise_move};

use crate::change::{append_step, copy_step, rise_step};
use crate::fault::LogFault;
use crate::vote::{commit_step, elect_step};
use copies::Logs;
use entries::Entry;
use kinds::RecordKind;
use votes::VoteRule;

// The calls of the log. Each says exactly what struct and slice are after it, and what that means of
// the logs, known counts, term and leader.
// Struct and slice stand apart and must fit: `copy` may end a log below its known count, so no type keeps the fact.
// Each wraps a step, so that what it means is proved at one return.

// Makes the candidate leader of the next term, which is the answer.
pub fn elect<V: RecordKind, R: VoteRule>(
    rule: R,
    logs: &mut Logs,
    entries: &[Entry<V>],
    candidate: u8,
    voters: u8,
) -> Result<u16, LogFault>
    requires shape { Shaped logs.old (length entries.now) }
    requires copy { candidate < logs.old.copies }
    ensures value { (logs.new, result) ≡ elect_step (R.VoteRule.elects rule) logs.old entries.now candidate voters }
    ensures means { (view_of logs.new entries.now, result) ≡ elect_move (R.VoteRule.elects rule) (view_of logs.old entries.now) candidate voters }
{
    elect_step(rule, logs, entries, candidate, voters)
}

// One entry more at the end of copy a's log; the answer is its index.
pub fn append<V: RecordKind>(
    logs: &mut Logs,
    entries: &mut [Entry<V>],
    a: u8,
    e: Entry<V>,
) -> Result<u16, LogFault>
    requires shape { Shaped logs.old (length entries.old) }
    requires copy { a < logs.old.copies }
    ensures value { (logs.new, entries.new, result) ≡ append_step logs.old entries.old a e }
    ensures means { (view_of logs.new entries.new, result) ≡ append_move (view_of logs.old entries.old) a e }
{
    append_step(logs, entries, a, e)
}

// The leader's entry goes to copy r where r's log ends or has another term, and r's log then ends
// there; the answer is its length.
pub fn copy<V: RecordKind>(
    logs: &mut Logs,
    entries: &mut [Entry<V>],
    r: u8,
) -> Result<u16, LogFault>
    requires shape { Shaped logs.old (length entries.old) }
    requires copy { r < logs.old.copies }
    ensures value { (logs.new, entries.new, result) ≡ copy_step V.RecordKind.blank_value logs.old entries.old r }
    ensures means { (view_of logs.new entries.new, result) ≡ copy_move (view_of logs.old entries.old) r }
{
    copy_step(logs, entries, r)
}

// Raises the leader's known count to n, which is the answer.
pub fn commit<V: RecordKind, R: VoteRule>(
    rule: R,
    logs: &mut Logs,
    entries: &[Entry<V>],
    n: u32,
) -> Result<u32, LogFault>
    requires shape { Shaped logs.old (length entries.now) }
    ensures value { (logs.new, result) ≡ commit_step V.PartialEq.eq (R.VoteRule.commits rule) logs.old entries.now n }
    ensures means { (view_of logs.new entries.now, result) ≡ commit_move V.PartialEq.eq (R.VoteRule.commits rule) (view_of logs.old entries.now) n }
{
    commit_step(rule, logs, entries, n)
}

// Copy r's known count rises to n, if lower, where its first n entries are the committed log's.
pub fn rise<V: RecordKind>(
    logs: &mut Logs,
    entries: &[Entry<V>],
    r: u8,
    n: u16,
) -> Result<(), LogFault>
    requires shape { Shaped logs.old (length entries.now) }
    requires copy { r < logs.old.copies }
    ensures value { (logs.new, result) ≡ rise_step V.PartialEq.eq logs.old entries.now r n }
    ensures means { (view_of logs.new entries.now, result) ≡ rise_move V.PartialEq.eq (view_of logs.old entries.now) r n }
    ensures shape { Shaped logs.new (length entries.now) }
{
    rise_step(logs, entries, r, n)
}
