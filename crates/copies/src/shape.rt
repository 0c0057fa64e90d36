ghost use Rattle.std.specs.Prelude.{◌≡◌, ℕ, ◌+◌, ◌*◌, ◌<◌, ◌≤◌, true, length, slice_index};
ghost use Rattle.copies.specs.Below.{all_below};
ghost use Rattle.copies.specs.Shape.{new_logs, count_fits, led_within, shaped, SevenPlaces, Shaped};

use crate::logs::{Counts, Logs};
use crate::replicas::Replicas;
use entries::Entry;
use kinds::RecordKind;

impl Logs {
    // Empty logs of the given number and capacity, without a leader.
    pub fn new(copies: u8, capacity: u16) -> Logs
        ensures { result ≡ new_logs copies capacity }
    {
        Logs {
            copies,
            capacity,
            counts: [Counts::default(); 7],
            term: 0,
            leader: None,
        }
    }

    // Whether copy k knows at most its log, and its log does not pass the capacity.
    fn count_fits(&self, k: u8) -> bool
        requires { k < 7 }
        ensures value { result ≡ count_fits self.now k }
        ensures places { SevenPlaces self.now }
    {
        let counts = self.counts[k as usize];
        counts.length <= self.capacity && counts.known <= counts.length
    }

    fn counts_fit(&self) -> bool
        requires some { 3 ≤ self.now.copies }
        requires few { self.now.copies ≤ 7 }
        ensures value { result ≡ all_below (count_fits self.now) self.now.copies }
        ensures places { result ≡ true → SevenPlaces self.now }
    {
        (0..self.copies).all(|k| self.count_fits(k))
    }

    // Whether the leader, if there is one, is a copy.
    fn leader_fits(&self) -> bool
        ensures { result ≡ led_within self.now.leader self.now.copies }
    {
        self.leader.is_none_or(|leader| leader < self.copies)
    }

    // Whether the sizes are within bounds, the counts fit them, and n entries are enough for all logs.
    pub fn fits(&self, n: usize) -> bool
        ensures value { result ≡ shaped self.now n }
        ensures means { result ≡ true → Shaped self.now n }
    {
        if self.copies < 3 || self.copies > 7 {
            return false;
        }
        if self.capacity < 1 || self.capacity > 4096 {
            return false;
        }
        if self.copies as usize * self.capacity as usize > n {
            return false;
        }
        if !self.leader_fits() {
            return false;
        }
        self.counts_fit()
    }

    // The logs with the slice that they lie in, for all that only reads them.
    pub fn over<'l, 'a, V: RecordKind>(&'l self, entries: &'a [Entry<V>]) -> Replicas<'l, 'a, V>
        requires { Shaped self.now (length entries.now) }
        ensures logs { result.logs.now ≡ self.now }
        ensures entries { result.entries.now ≡ entries.now }
    {
        Replicas {
            logs: self,
            entries,
        }
    }

    // Where entry i of copy r lies, counted from 0. It serves the calls that change the logs, as at raft_log's.
    pub fn place(&self, n: usize, r: u8, i: usize) -> usize
        requires shape { Shaped self.now n }
        requires copy { r < self.now.copies }
        requires within { i < self.now.capacity }
        ensures value { result ≡ r * self.now.capacity + i }
        ensures bound { result < n }
    {
        r as usize * self.capacity as usize + i
    }
}
