ghost use Rattle.std.specs.Prelude.{◌≡◌, ℕ, ◌<◌, ◌≤◌, length, take};
ghost use Rattle.entries.specs.Fronts.{holds_first, last_term, newer, gap};

use crate::compare::same_entries;
use crate::entry::Entry;
use kinds::RecordKind;

// The first n entries of a log.
pub fn front<V: RecordKind>(log: &[Entry<V>], n: u16) -> &[Entry<V>]
    requires { n ≤ length log.now }
    ensures value { result.now ≡ take n log.now }
    ensures len { length result.now ≡ n }
{
    &log[..n as usize]
}

// Whether the log holds the first n entries of the leader's.
pub fn holds<V: RecordKind>(led: &[Entry<V>], log: &[Entry<V>], n: u16) -> bool
    requires { n ≤ length led.now }
    ensures { result ≡ holds_first V.PartialEq.eq n led.now log.now }
{
    n as usize <= log.len() && same_entries(front(log, n), front(led, n))
}

// The term of the last entry. An empty log has 0, below every term: the rules compare terms as numbers.
pub fn last_term<V: RecordKind>(log: &[Entry<V>]) -> u16
    ensures { result ≡ last_term log.now }
{
    log.last().map_or(0, |e| e.term)
}

// Whether the first log is newer: its last term is greater, or equal and it is longer.
pub fn is_newer<V: RecordKind>(a: &[Entry<V>], b: &[Entry<V>]) -> bool
    ensures { result ≡ newer a.now b.now }
{
    (last_term(a), a.len()) > (last_term(b), b.len())
}

// The first place of the leader's log where the other ends or has another term, else its length.
pub fn first_gap<V: RecordKind>(led: &[Entry<V>], log: &[Entry<V>]) -> usize
    ensures value { result ≡ gap led.now log.now }
    ensures bound { result ≤ length led.now }
    ensures within { result ≤ length log.now }
{
    led.iter()
        .zip(log)
        .take_while(|(a, b)| a.term == b.term)
        .count()
}
