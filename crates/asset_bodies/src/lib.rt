//! Transactions on which boxed bodies work: a body asks steps of its own transaction, runs children on its thread, and
//! ends it.
#![tactic(auto)]

mod agent;
mod child;
mod ends;
mod tx;

pub use agent::{Agent, is_done};
pub use child::{Body, ChildEnd};
pub use ends::{JobEnd, job_end};
pub use tx::{Finished, Tx};
