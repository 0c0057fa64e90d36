// How many entries a copy's log has, and how many of them the copy knows to be committed.
#[derive(Clone, Copy, Default)]
pub struct Counts {
    pub length: u16,
    pub known: u16,
}

// Each copy's counts, with the present term and leader. Copy r's log lies in the lent slice from
// r * capacity on.
// An array of seven with a number beside it: the struct is plain, so that a contract can compare it whole.
#[derive(Clone, Copy)]
pub struct Logs {
    pub copies: u8,
    pub capacity: u16,
    pub counts: [Counts; 7],
    pub term: u16,
    pub leader: Option<u8>,
}
