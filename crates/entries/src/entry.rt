// A stamp says which correction of which session wrote an entry. It is kept as a pair everywhere.
// Zeros, the default, stand for no stamp.
#[derive(Clone, Copy, PartialEq, Eq, Default)]
pub struct Stamp {
    pub session: u32,
    pub number: u16,
}

// One entry of a log. An opening entry has star 0 and the blank value.
#[derive(Clone, Copy, PartialEq, Eq)]
pub struct Entry<V> {
    pub term: u16,
    pub stamp: Stamp,
    pub client: u8,
    pub number: u16,
    pub star: u16,
    pub value: V,
}

// What an entry is sought by.
// An enum and no closure: definitions and contracts name what is sought.
#[derive(Clone, Copy)]
pub enum Sought {
    Star(u16),
    Zone(u8),
    Request { client: u8, number: u16 },
    Term(u16),
}
