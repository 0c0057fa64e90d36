ghost use Rattle.std.specs.Prelude.{◌≡◌};
ghost use Rattle.replication.specs.Steps.{elect_step, copy_step, commit_step};

use entries::Entry;
use kinds::RecordKind;
use state::{Service, ServiceFault};
use votes::VoteRule;

// Entries stand apart from the service, in memory that is lent to each step.

// Makes a copy leader of the next term by the votes of a set of copies; the answer is the term.
pub fn elect<V: RecordKind, R: VoteRule>(
    s: &mut Service<R>,
    entries: &[Entry<V>],
    copy: u8,
    voters: u8,
) -> Result<u16, ServiceFault>
    ensures { (s.new, result) ≡ elect_step R.VoteRule.elects s.old entries.now copy voters }
{
    s.check_entries(entries)?;
    if copy >= s.logs.copies || voters >> s.logs.copies > 0 {
        return Err(ServiceFault::NoSuch);
    }
    let rule = s.rule;
    Ok(leader::elect(rule, &mut s.logs, &mut s.lead, entries, copy, voters)?)
}

// Copies one entry of the leader's log to another copy; the answer is the length of its log.
pub fn copy<V: RecordKind, R: VoteRule>(
    s: &mut Service<R>,
    entries: &mut [Entry<V>],
    copy: u8,
) -> Result<u16, ServiceFault>
    ensures { (s.new, entries.new, result) ≡ copy_step V.RecordKind.blank_value s.old entries.old copy }
{
    s.check_entries(entries)?;
    if copy >= s.logs.copies {
        return Err(ServiceFault::NoSuch);
    }
    Ok(leader::copy(&mut s.logs, entries, copy)?)
}

// Raises the leader's known count to n, which is the answer.
pub fn commit<V: RecordKind, R: VoteRule>(
    s: &mut Service<R>,
    entries: &[Entry<V>],
    n: u32,
) -> Result<u32, ServiceFault>
    ensures { (s.new, result) ≡ commit_step V.PartialEq.eq R.VoteRule.commits s.old entries.now n }
{
    s.check_entries(entries)?;
    let rule = s.rule;
    Ok(leader::commit(rule, &mut s.logs, entries, n)?)
}
