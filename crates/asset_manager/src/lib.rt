//! A facility for many threads: it lies under one lock, each thread asks it by a session, which lists what it was told,
//! and anybody reads the published counts without the lock. When it is closed, the lists are audited against its
//! history.
#![tactic(auto)]

mod book;
mod manager;
mod session;

pub use asset_audit::{AuditFault, Calls};
pub use asset_core::{Counts, History, OpenFault};
pub use asset_counts::{Watch, WatchPass};
pub use book::{Book, Closed};
pub use manager::Manager;
pub use session::Session;

/// The audit of lists of calls against a history.
pub mod laws {
    pub use asset_audit::audit;
}
