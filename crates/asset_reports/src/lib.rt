//! Reports on a history as text: the script that is left without its dead groups, its groups, those who committed, one
//! after another, and the sources of what was read. The one fault is that memory runs out; a part of the text may have been
//! appended then.
#![tactic(auto)]

mod groups_report;
mod history_report;
mod serial_report;
mod sources_report;

pub use groups_report::push_groups;
pub use history_report::push_pruned;
pub use serial_report::push_serial;
pub use sources_report::push_sources;
