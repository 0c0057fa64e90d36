// Entries of a log, and what is asked of lent slices of them, written once for every record kind:
// the last entry that is sought, whether two logs begin alike, which is newer, where they part.
#![tactic(auto)]

mod compare;
mod entry;
mod fronts;
mod search;

pub use compare::{same_entries, same_entry};
pub use entry::{Entry, Sought, Stamp};
pub use fronts::{first_gap, front, holds, is_newer, last_term};
pub use search::{last_index, last_of, last_value, zone_of, zone_stamp};
