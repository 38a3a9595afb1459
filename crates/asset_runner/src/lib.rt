//! Plans of jobs: each job is a transaction with a boxed body, and workers run them, one in the calling thread and each of
//! the others in a thread of its own. Each job that was accepted has its end or is handed back, once, whatever bodies do.
#![tactic(auto)]

mod arrival;
mod firsts;
mod gate;
mod job;
mod order;
mod plan;
mod report;
mod returned;
mod rooms;
mod runtime;

pub use asset_bodies::{Body, ChildEnd, Finished, JobEnd, Tx, job_end};
pub use gate::{Gate, OpenGate};
pub use plan::{Cause, InitFault, Plan};
pub use report::{Job, Report, RunCause, RunFault};
pub use runtime::Runtime;
