ghost use Rattle.std.specs.Prelude.{◌≡◌, ℕ, ◌<◌, ◌≤◌, length, IfSome};
ghost use Rattle.std.specs.Option.{option_map};
ghost use Rattle.entries.specs.Search.{zone_of, matches, last_of, last_value, zone_stamp};

use crate::entry::{Entry, Sought, Stamp};
use kinds::RecordKind;

// The zone of a star is its number divided by 4,096.
pub fn zone_of(star: u16) -> u8
    ensures value { result ≡ zone_of star }
    ensures bound { result < 16 }
{
    (star / 4096) as u8
}

// Whether the entry is one that is sought. An opening entry, of star 0, lies in no zone.
fn is_sought<V: RecordKind>(e: &Entry<V>, sought: Sought) -> bool
    ensures { result ≡ matches sought e.now }
{
    match sought {
        Sought::Star(star) => e.star == star,
        Sought::Zone(zone) => e.star != 0 && zone_of(e.star) == zone,
        Sought::Request { client, number } => e.client == client && e.number == number,
        Sought::Term(term) => e.term == term,
    }
}

// The last entry that is sought, with its index counted from 1.
// The bound stands at each search, since a log is a plain slice and any part of one can be searched.
pub fn last_of<V: RecordKind>(log: &[Entry<V>], sought: Sought) -> Option<(u16, Entry<V>)>
    requires { length log.now ≤ 4096 }
    ensures value { result ≡ last_of sought log.now }
    ensures bound { IfSome result (λ p. (1 ≤ p.0) × (p.0 ≤ length log.now)) }
{
    let i = log.iter().rposition(|e| is_sought(e, sought))?;
    Some((i as u16 + 1, log[i]))
}

// The index of the last entry that is sought, counted from 1.
pub fn last_index<V: RecordKind>(log: &[Entry<V>], sought: Sought) -> Option<u16>
    requires { length log.now ≤ 4096 }
    ensures value { result ≡ option_map (λ p. p.0) (last_of sought log.now) }
    ensures bound { IfSome result (λ i. (1 ≤ i) × (i ≤ length log.now)) }
{
    last_of(log, sought).map(|(i, _)| i)
}

// The value of the star's last entry.
pub fn last_value<V: RecordKind>(log: &[Entry<V>], star: u16) -> Option<V>
    requires { length log.now ≤ 4096 }
    ensures { result ≡ last_value star log.now }
{
    last_of(log, Sought::Star(star)).map(|(_, e)| e.value)
}

// The stamp of the zone's last entry, or zeros: stamps are compared and written so, and therefore it is no Option.
pub fn zone_stamp<V: RecordKind>(log: &[Entry<V>], zone: u8) -> Stamp
    requires { length log.now ≤ 4096 }
    ensures { result ≡ zone_stamp zone log.now }
{
    last_of(log, Sought::Zone(zone))
        .map(|(_, e)| e.stamp)
        .unwrap_or_default()
}
