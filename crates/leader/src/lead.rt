// The part of the leader's session, and the last sequence number that it has appended under it.
#[derive(Clone, Copy, Default)]
pub struct Lead {
    pub part: u16,
    pub last: u16,
}
