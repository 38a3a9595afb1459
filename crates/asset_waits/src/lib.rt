//! Who waits for whom at the end of a script, as text: each live transaction with those for whom it waits, and each
//! deadlock. The one fault is that memory runs out; a part of the text may have been appended then.
#![tactic(auto)]

mod arrows;
mod commits;
mod deadlocks;
mod laws;
mod listing;
mod live;
mod report;
mod requests;
mod waiters;
mod waiting;

pub use laws::{deadlocks_are_cycles_of_waits, waits_are_explained};
pub use report::push_waits;
