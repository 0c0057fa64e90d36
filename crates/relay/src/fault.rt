// Why the relay refuses a snapshot, or drops a message.
#[derive(Clone, Copy)]
pub enum RelayFault {
    // There is no snapshot above the highest installed session.
    NothingToInstall,
    Closed,
    // The message is of another session than the relay's.
    OtherSession,
    // The session's sequence numbers are used up.
    NumbersUsedUp,
}
