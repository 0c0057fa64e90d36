ghost use Rattle.std.specs.Prelude.{◌≡◌, ℕ, ◌<◌, length};
ghost use Rattle.copies.specs.Shape.{Shaped};
ghost use Rattle.raft_log.specs.Calls.{elect_step, commit_step};

use crate::change::leader_of;
use crate::fault::LogFault;
use copies::Logs;
use entries::Entry;
use kinds::RecordKind;
use votes::VoteRule;

// Struct and slice stand apart and must fit, as at the calls in calls.rt.

// Makes the candidate leader of the next term, which is the answer.
pub fn elect_step<V: RecordKind, R: VoteRule>(
    rule: R,
    logs: &mut Logs,
    entries: &[Entry<V>],
    candidate: u8,
    voters: u8,
) -> Result<u16, LogFault>
    requires shape { Shaped logs.old (length entries.now) }
    requires copy { candidate < logs.old.copies }
    ensures { (logs.new, result) ≡ elect_step (R.VoteRule.elects rule) logs.old entries.now candidate voters }
{
    if !rule.enough_to_elect(voters) {
        return Err(LogFault::VotersNotEnough);
    }
    if !logs.over(entries).none_newer(candidate, voters) {
        return Err(LogFault::VoterNewer);
    }
    let term = logs.term.checked_add(1).ok_or(LogFault::TermsUsedUp)?;
    logs.term = term;
    logs.leader = Some(candidate);
    Ok(term)
}

// Raises the leader's known count to n, which is the answer.
pub fn commit_step<V: RecordKind, R: VoteRule>(
    rule: R,
    logs: &mut Logs,
    entries: &[Entry<V>],
    n: u32,
) -> Result<u32, LogFault>
    requires shape { Shaped logs.old (length entries.now) }
    ensures { (logs.new, result) ≡ commit_step V.PartialEq.eq (R.VoteRule.commits rule) logs.old entries.now n }
{
    let leader = leader_of(logs)?;
    let counts = logs.counts[leader as usize];
    if n <= u32::from(counts.known) || n > u32::from(counts.length) {
        return Err(LogFault::CountOutOfRange);
    }
    let count = n as u16;
    let log = logs.over(entries).log(leader);
    if entries::last_term(entries::front(log, count)) != logs.term {
        return Err(LogFault::OtherTerm);
    }
    if !rule.enough_to_commit(logs.over(entries).holders(leader, count)) {
        return Err(LogFault::HoldersNotEnough);
    }
    logs.counts[leader as usize].known = count;
    Ok(n)
}
