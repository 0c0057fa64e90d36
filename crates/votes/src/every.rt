ghost use Rattle.std.specs.Prelude.{◌≡◌};
ghost use Rattle.votes.specs.Rules.{every_copy, any_copy};
ghost use Rattle.votes.specs.Quorum.{every_share, every_all, every_local};

use crate::rule::VoteRule;
use crate::sets::set_size;

// It takes every copy to commit, and any one copy to elect.
// Each rule is a type, made alike: what rules share is the trait, which can have no field.
#[derive(Clone, Copy)]
pub struct EveryCopy {
    copies: u8,
}

impl EveryCopy {
    // The rule for any number of copies; a service admits three to seven.
    pub fn new(copies: u8) -> EveryCopy
        ensures { result.copies ≡ copies }
    {
        EveryCopy { copies }
    }
}

impl VoteRule for EveryCopy {
    ghost count = { λ m. m.copies };

    ghost commits = { λ m set. every_copy m.copies set };

    ghost elects = { λ m set. any_copy m.copies set };

    ghost share = { λ r n a b p q. every_share r.copies a b p q };

    ghost all = { λ r n. every_all r.copies n };

    ghost local = { λ r n a b s. every_local r.copies a b s };

    fn copies(self) -> u8 {
        self.copies
    }

    fn enough_to_commit(self, set: u8) -> bool {
        set_size(self.copies, set) == self.copies
    }

    fn enough_to_elect(self, set: u8) -> bool {
        set_size(self.copies, set) > 0
    }
}
