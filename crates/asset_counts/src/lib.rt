//! The counts of a history in one word, which one publisher writes and anybody reads by one atomic load. A pass knows
//! how far it has seen them, and no read by it goes back.
#![tactic(auto)]

mod rule;
mod watch;

pub use watch::{Publisher, Watch, WatchPass};
