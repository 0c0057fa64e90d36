// The rehearsal of a service: each record of 24 bytes is a step, and is answered by 24 bytes.
#![tactic(auto)]

mod reading;
mod records;
mod writing;

pub use reading::decode;
pub use records::{answer, rehearse, rehearse_input};
pub use writing::{encode, fault_record};
