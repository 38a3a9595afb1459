//! What stands when a script has ended: the facility with its pending requests, and the report of who waits for whom.
//! Bytes come and go through devices, as when a script is run.
#![tactic(auto)]

mod laws;
mod reporting;
mod standing;
mod steps;

pub use laws::waits_end_as_runs;
pub use reporting::waits_script;
pub use standing::{Stood, stand};
