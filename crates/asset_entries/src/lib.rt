//! The entries of a history as they are stored: the opening and the answered steps, in room that is taken at the opening.
#![tactic(auto)]

mod committing;
mod entries;
mod knowing;
mod operating;
mod recording;
mod reply_tag;
mod stored;
mod stored_set;
mod stored_sets;

pub use entries::Entries;
