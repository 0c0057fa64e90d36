// The log is safe: what was committed stays, in every run.
#![tactic(auto)]

ghost use Rattle.votes.specs.Sets.{Admitted};
ghost use Rattle.safety.specs.Example.{CommitsTwice};
ghost use Rattle.safety.specs.Runs.{Stays};

use kinds::RecordKind;
use votes::VoteRule;

// For every record kind and every vote rule: however elections, appends, copies, commits and rises
// of known counts follow one another, the committed log only grows, every copy keeps what it holds
// of it, and a leader has all of it.
pub fn committed_stays<V: RecordKind, R: VoteRule>(rule: R)
    ensures { Admitted (R.VoteRule.count rule) → Stays V.PartialEq.eq (R.VoteRule.commits rule) (R.VoteRule.elects rule) (R.VoteRule.count rule) }
{}

// A run that commits under one leader and then under another, whose entry takes the place of one
// that was not committed.
pub fn commits_twice()
    ensures { CommitsTwice }
{}
