// Record kinds: what a value is, which values are well formed and lawful, and the sixteen bytes
// that stand for each.
#![tactic(auto)]

mod brightness;
mod kind;
mod place;
mod round;
mod year;

pub use brightness::Brightness;
pub use kind::RecordKind;
pub use place::Place;
pub use round::{reread, rewritten};
