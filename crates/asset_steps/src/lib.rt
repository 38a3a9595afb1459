//! The door to the tables, for whoever keeps a history: a step is answered, applied, or kept as pending. `answer` and
//! `step_at_once` find the refusals themselves.
#![tactic(auto)]

mod answering;
mod applying;
mod stepping;

pub use answering::answer;
pub use applying::{apply, wait};
pub use stepping::step_at_once;
