// A step with its arguments, in the order of the steps' codes.
#[derive(Clone, Copy)]
pub enum Call<V> {
    Elect { copy: u8, voters: u8 },
    Open,
    Install,
    Restart,
    Read { client: u8, star: u32 },
    Correct { client: u8, star: u32, value: V },
    Again { client: u8 },
    Abandon { client: u8 },
    Deliver { place: u32 },
    Lose { place: u32 },
    Double { place: u32 },
    Copy { copy: u8 },
    Commit { count: u32 },
    Reply { index: u32 },
}
