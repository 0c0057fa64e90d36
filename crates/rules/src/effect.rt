use client::Answer;
use state::ServiceFault;

// What came of a step that was not refused: it is done, with a number; the message was dropped; or
// a client took the answer to its request of the number.
// Not delivery's `Effect`: there the client and the number stand in the message that was delivered.
#[derive(Drop)]
pub enum Effect<V> {
    Done(u32),
    Dropped(ServiceFault),
    Answered {
        client: u8,
        number: u16,
        answer: Answer<V>,
    },
}
