//! Those who committed, one after another in the order of their commits: whether they shared nothing, and the history
//! in which they run alone. The one fault is that memory runs out.
#![tactic(auto)]

mod blocks;
mod committing;
mod copying;
mod serializing;
mod sharing;

pub use serializing::serial;
pub use sharing::committed_share_nothing;
