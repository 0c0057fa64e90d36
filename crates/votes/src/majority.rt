ghost use Rattle.std.specs.Prelude.{◌≡◌};
ghost use Rattle.votes.specs.Rules.{majority};
ghost use Rattle.votes.specs.Quorum.{majority_share, majority_all, majority_local};

use crate::rule::VoteRule;
use crate::sets::set_size;

// More than half of the copies are enough to commit, and to elect.
// Each rule is a type, made alike: what rules share is the trait, which can have no field.
#[derive(Clone, Copy)]
pub struct Majority {
    copies: u8,
}

impl Majority {
    // The rule for any number of copies; a service admits three to seven.
    pub fn new(copies: u8) -> Majority
        ensures { result.copies ≡ copies }
    {
        Majority { copies }
    }
}

impl VoteRule for Majority {
    ghost count = { λ m. m.copies };

    ghost commits = { λ m set. majority m.copies set };

    ghost elects = { λ m set. majority m.copies set };

    ghost share = { λ r n a b p q. majority_share r.copies a b p q };

    ghost all = { λ r n. let m = majority_all r.copies n in (m, m) };

    ghost local = { λ r n a b s. let e = majority_local r.copies a b s in (e, e) };

    fn copies(self) -> u8 {
        self.copies
    }

    fn enough_to_commit(self, set: u8) -> bool {
        set_size(self.copies, set) > self.copies / 2
    }

    fn enough_to_elect(self, set: u8) -> bool {
        self.enough_to_commit(set)
    }
}
