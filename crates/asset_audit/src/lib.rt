//! The audit: whether what sessions were told agrees with a history. It does not allocate.
#![tactic(auto)]

mod auditing;
mod calls;
mod checking;
mod finding;
mod marking;

pub use auditing::{AuditFault, audit};
pub use calls::Calls;
