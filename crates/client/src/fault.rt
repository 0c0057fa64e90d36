// Why a client's request is refused, or an answer dropped.
#[derive(Clone, Copy)]
pub enum ClientFault {
    // The client waits for an answer already.
    Busy,
    // The client waits for nothing.
    Idle,
    // The client's numbers are used up.
    NumbersUsedUp,
    // The answer is not the one that the client waits for.
    NotAwaited,
}
