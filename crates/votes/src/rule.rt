ghost use Rattle.std.specs.Prelude.{◌≡◌, ℕ, Bool, T};
ghost use Rattle.votes.specs.Sets.{Shared, SameCopies, Admitted, everyone};

// A vote rule: made for a number of copies, it says which sets of them are enough to commit and
// which are enough to elect. A set is a byte, with the bit of value 2^r for copy r.
pub trait VoteRule: Copy {
    // The number of copies that the rule was made for.
    ghost count: { Self → ℕ };

    ghost commits: { Self → ℕ → Bool };

    ghost elects: { Self → ℕ → Bool };

    fn copies(self) -> u8
        ensures { result ≡ count self };

    fn enough_to_commit(self, set: u8) -> bool
        ensures { result ≡ commits self set };

    fn enough_to_elect(self, set: u8) -> bool
        ensures { result ≡ elects self set };

    // A set enough to commit and a set enough to elect share a copy.
    ghost share: { (r : Self) → Admitted (count r) → (a b : ℕ) → T (commits r a) → T (elects r b) → Shared (count r) a b };

    // The set of all copies is enough for both.
    ghost all: { (r : Self) → Admitted (count r) → T (commits r (everyone (count r))) × T (elects r (everyone (count r))) };

    // The answers depend on the set's copies alone: a bit for no copy counts nothing.
    ghost local: { (r : Self) → Admitted (count r) → (a b : ℕ) → SameCopies (count r) a b → (commits r a ≡ commits r b) × (elects r a ≡ elects r b) };
}
