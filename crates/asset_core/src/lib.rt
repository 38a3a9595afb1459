//! The facility for one caller: a history of answered steps that is always legal, and the step that appends the
//! one answer to it.
#![tactic(auto)]

mod facility;
mod open_fault;

pub use asset_ends::NameSet;
pub use asset_history::History;
pub use asset_names::Counts;
pub use facility::Core;
pub use open_fault::OpenFault;
