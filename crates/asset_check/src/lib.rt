//! Says why lines of scripts are bad, and checks whole scripts without running them.
#![tactic(auto)]

mod checker;
mod checking;
mod laws;
mod lines;
mod texts;

pub use checker::Checker;
pub use checking::{check_script, first_of};
pub use laws::checks_end_as_runs;
pub use lines::said_of;
pub use texts::push_mistake;
