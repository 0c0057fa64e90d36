// A scenario: a text with one step a line, read from any bytes. `Name::form` has the form of each
// line; `#` begins a comment, and one that stands alone is narration. With the sizes that a scenario
// may choose comes the memory that its service is lent.
#![tactic(auto)]

mod bytes;
mod line;
mod memory;
mod numbers;
mod sizes;
mod steps;
mod words;

pub use bytes::Lines;
pub use line::{Line, read_line};
pub use memory::Memory;
pub use sizes::{Rule, Sizes};
pub use steps::Name;
