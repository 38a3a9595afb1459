//! The steps of a run of jobs: their script is read, each is added to a plan, the plan is run, and how all ended is written. The
//! caller boxes the bodies.
#![tactic(auto)]

mod jobs_end;
mod jobs_run;

pub use jobs_end::{JobsStop, end_jobs};
pub use jobs_run::{Begun, add_job, begin_jobs, finish_jobs};
