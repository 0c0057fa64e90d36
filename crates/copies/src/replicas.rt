ghost use Rattle.std.specs.Prelude.{length};
ghost use Rattle.copies.specs.Shape.{Shaped};

use crate::logs::Logs;
use entries::Entry;

// The copies' logs as they can be read: the numbers with the lent slice, which is long enough for them.
#[derive(Drop)]
pub struct Replicas<'l, 'a, V> {
    pub logs: &'l Logs,
    pub entries: &'a [Entry<V>],
    pub ghost shaped: { Shaped logs.now (length entries.now) },
}
