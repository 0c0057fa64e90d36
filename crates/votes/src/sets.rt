ghost use Rattle.std.specs.Prelude.{◌≡◌, true, ◌&&◌};
ghost use Rattle.votes.specs.Sets.{has, size, Shared, Admitted};

use crate::rule::VoteRule;

// Whether the set has the copy; a byte has none past copy 7.
pub fn has(set: u8, copy: u8) -> bool
    ensures { result ≡ has set copy }
{
    copy < 8 && (set >> copy) & 1 == 1
}

// How many of the first copies the set has.
pub fn set_size(copies: u8, set: u8) -> u8
    ensures { result ≡ size copies set }
{
    (0..copies).filter(|copy| has(set, *copy)).count() as u8
}

// Whether the one set is enough to commit and the other to elect: they then share a copy.
pub fn share_a_copy<R: VoteRule>(rule: R, a: u8, b: u8) -> bool
    ensures value { result ≡ (R.VoteRule.commits rule a && R.VoteRule.elects rule b) }
    ensures shared { result ≡ true → Admitted (R.VoteRule.count rule) → Shared (R.VoteRule.count rule) a b }
{
    rule.enough_to_commit(a) && rule.enough_to_elect(b)
}
