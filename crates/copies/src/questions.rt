ghost use Rattle.std.specs.Prelude.{◌≡◌, ℕ, ◌<◌, ◌≤◌, length};
ghost use Rattle.copies.specs.Shape.{length_of, known_of};
ghost use Rattle.copies.specs.View.{log_of};
ghost use Rattle.copies.specs.Questions.{greatest, objects_to, none_newer, known_log, ready, holds_of, holders, holds_committed};
ghost use Rattle.copies.specs.Seen.{seen};

use crate::logs::Logs;
use crate::replicas::Replicas;
use entries::Entry;
use kinds::RecordKind;

impl Logs {
    // The lowest copy whose known count is greatest.
    pub fn best_known(&self) -> u8
        requires { self.now.copies ≤ 7 }
        ensures value { result ≡ greatest (known_of self.now) self.now.copies }
        ensures bound { 0 < self.now.copies → result < self.now.copies }
    {
        // A loop, which shows that the lowest of equal counts is kept: `max_by_key` keeps the last.
        let mut best = 0;
        for r in 0..self.copies {
            if self.counts[best as usize].known < self.counts[r as usize].known {
                best = r;
            }
        }
        best
    }
}

impl<'a, V: RecordKind> Replicas<'_, 'a, V> {
    // Copy r's log.
    pub fn log(&self, r: u8) -> &'a [Entry<V>]
        requires { r < self.now.logs.now.copies }
        ensures value { result.now ≡ log_of self.now.logs.now self.now.entries.now r }
        ensures len { length result.now ≡ length_of self.now.logs.now r }
        ensures bound { length result.now ≤ 4096 }
    {
        let at = r as usize * self.logs.capacity as usize;
        let n = self.logs.counts[r as usize].length as usize;
        &self.entries[at..at + n]
    }

    // Whether copy r votes, and its log is newer than the candidate's.
    fn objects(&self, candidate: u8, voters: u8, r: u8) -> bool
        requires copy { candidate < self.now.logs.now.copies }
        requires voter { r < self.now.logs.now.copies }
        ensures { result ≡ objects_to (seen self.now) candidate voters r }
    {
        let newer = entries::is_newer(self.log(r), self.log(candidate));
        votes::has(voters, r) && newer
    }

    // Whether no voter's log is newer than the candidate's.
    pub fn none_newer(&self, candidate: u8, voters: u8) -> bool
        requires { candidate < self.now.logs.now.copies }
        ensures { result ≡ none_newer (seen self.now) candidate voters }
    {
        !(0..self.logs.copies).any(|r| self.objects(candidate, voters, r))
    }

    // The entries of copy r that it knows to be committed.
    pub fn known_log(&self, r: u8) -> &'a [Entry<V>]
        requires { r < self.now.logs.now.copies }
        ensures value { result.now ≡ known_log (seen self.now) r }
        ensures bound { length result.now ≤ 4096 }
    {
        entries::front(self.log(r), self.logs.counts[r as usize].known)
    }

    // Whether the last entry within the leader's known count has the present term.
    pub fn ready(&self, leader: u8) -> bool
        requires { leader < self.now.logs.now.copies }
        ensures { result ≡ ready (seen self.now) leader }
    {
        let term = entries::last_term(self.known_log(leader));
        self.logs.counts[leader as usize].known > 0 && term == self.logs.term
    }

    // Whether copy r holds the first n entries of copy a.
    fn holds(&self, a: u8, n: u16, r: u8) -> bool
        requires copy { a < self.now.logs.now.copies }
        requires other { r < self.now.logs.now.copies }
        requires within { n ≤ length_of self.now.logs.now a }
        ensures { result ≡ holds_of V.PartialEq.eq (seen self.now) a n r }
    {
        entries::holds(self.log(a), self.log(r), n)
    }

    // The copies that hold the leader's first n entries.
    pub fn holders(&self, leader: u8, n: u16) -> u8
        requires copy { leader < self.now.logs.now.copies }
        requires within { n ≤ length_of self.now.logs.now leader }
        ensures { result ≡ holders V.PartialEq.eq (seen self.now) leader n }
    {
        // A set is a byte, to which each copy adds its bit.
        let mut found = 0u8;
        for r in 0..self.logs.copies {
            if self.holds(leader, n, r) {
                found += 1 << r;
            }
        }
        found
    }

    // Whether copy r's first n entries are the committed log's.
    pub fn holds_committed(&self, r: u8, n: u16) -> bool
        requires { r < self.now.logs.now.copies }
        ensures { result ≡ holds_committed V.PartialEq.eq (seen self.now) r n }
    {
        let best = self.logs.best_known();
        if n > self.logs.counts[best as usize].known {
            return false;
        }
        self.holds(best, n, r)
    }
}
