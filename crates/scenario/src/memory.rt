ghost use Rattle.std.specs.Prelude.{◌≡◌, ◌*◌, min, IfOk, vec_len};

use crate::sizes::Sizes;
use entries::Entry;
use kinds::{Place, RecordKind};
use relay::Message;
use std::alloc::{AllocError, Global};

// The memory that is lent to each step.
#[derive(Drop)]
pub struct Memory {
    pub entries: Vec<Entry<Place>>,
    pub messages: Vec<Message<Place>>,
    pub kept: Vec<Place>,
}

impl Memory {
    // As much as the sizes need, but no more than any service may have.
    pub fn new(heap: Global, sizes: &Sizes) -> Result<Memory, AllocError>
        ensures entries { IfOk result (λ m. vec_len m.entries ≡ min sizes.now.copies 7 * min sizes.now.log 4096) }
        ensures messages { IfOk result (λ m. vec_len m.messages ≡ min sizes.now.messages 256) }
        ensures kept { IfOk result (λ m. vec_len m.kept ≡ min sizes.now.clients 8) }
    {
        let room = sizes.copies.min(7) as usize * sizes.log.min(4096) as usize;
        let places = sizes.messages.min(256) as usize;
        let seats = sizes.clients.min(8) as usize;
        Ok(Memory {
            entries: state::filled(heap, state::blank_entry(), room)?,
            messages: state::filled(heap, state::blank_message(), places)?,
            kept: state::filled(heap, Place::blank(), seats)?,
        })
    }

    // The message at a place, if one of the `count` messages under way stands there.
    pub fn message(&self, count: u16, place: u32) -> Option<Message<Place>> {
        let under_way = self.messages.iter().take(count as usize);
        under_way.copied().nth(place as usize)
    }
}
