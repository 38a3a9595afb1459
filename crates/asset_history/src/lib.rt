//! A history as it is kept: the opening and the entries of answered steps, and the groups of those on whom the steps act. Their room is
//! taken when it is opened.
#![tactic(auto)]

mod committing;
mod history;
mod joining;
mod labelling;
mod links;
mod noting;
mod users;

pub use committing::committed_at;
pub use history::History;
