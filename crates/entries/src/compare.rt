ghost use Rattle.std.specs.Prelude.{◌≡◌};
ghost use Rattle.entries.specs.Compare.{entry_alike, all_alike};

use crate::entry::Entry;
use kinds::RecordKind;

// Whether two entries are the same in every field.
pub fn same_entry<V: RecordKind>(a: &Entry<V>, b: &Entry<V>) -> bool
    ensures { result ≡ entry_alike V.PartialEq.eq a.now b.now }
{
    a == b
}

// Whether two runs of entries are the same.
pub fn same_entries<V: RecordKind>(xs: &[Entry<V>], ys: &[Entry<V>]) -> bool
    ensures { result ≡ all_alike V.PartialEq.eq xs.now ys.now }
{
    xs == ys
}
