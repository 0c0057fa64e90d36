// One call for all fourteen steps: what is asked, carried out over lent memory, and what came of it.
#![tactic(auto)]

mod call;
mod run;

pub use call::Call;
pub use run::perform;
