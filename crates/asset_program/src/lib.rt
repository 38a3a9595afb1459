//! The program `asset` over any reader and writers: from what the arguments ask for to the exit status. Jobs are handed back.
#![tactic(auto)]

mod conversing;
mod doing;
mod exit;
mod program;

pub use conversing::converse;
pub use doing::{Next, do_asked};
pub use exit::{status_of_answer, status_of_run};
pub use program::{run_check, run_program};
