// What the service holds, in words: sessions, stamps, sets, places, entries, rows, clients and messages.
// Each text is a type of its own, so that words for people stand here and not beside the proofs below.
#![tactic(auto)]

mod messages;
mod texts;

pub use messages::{BriefText, MessageText, OutcomeText};
pub use texts::{
    ClientText, EntriesText, EntryText, PlaceText, RowText, SessionText, SetText, StampText,
    ValueText,
};
