use crate::rows::Settlement;
use entries::Stamp;

// What came of a correction.
#[derive(Clone, Copy, PartialEq, Eq)]
pub enum Outcome {
    Fresh,
    KnownAlready,
    Unlawful,
}

// What a message is, with what only its kind carries.
#[derive(Clone, Copy)]
pub enum Body {
    ReadRequest,
    CorrectionRequest,
    CopyRead {
        copy: u8,
        index: u16,
    },
    LeaderRead,
    Correction {
        sequence: u16,
    },
    Installed,
    // A read reply of the leader.
    LeaderReply,
    // A read reply of a copy, with the stamp of the zone's last entry there.
    CopyReply {
        copy: u8,
        stamp: Stamp,
    },
    CorrectionReply {
        sequence: u16,
        outcome: Outcome,
        // A reply of a known correction has its index alone, one of an unlawful correction nothing.
        // Not in the outcome: an answer has the outcome with its index alone, and would need a second enum.
        settlement: Settlement,
    },
    ReadAnswer,
    CorrectionAnswer {
        outcome: Outcome,
        index: u16,
    },
}

// A message on its way. Requests and answers have session 0; an installed message has no client,
// number or star. The value is that of a correction, or the one that a reading found.
#[derive(Clone, Copy)]
pub struct Message<V> {
    pub client: u8,
    pub number: u16,
    pub star: u16,
    pub session: u32,
    pub body: Body,
    pub value: Option<V>,
}
