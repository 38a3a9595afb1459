//! Which nodes lie on cycles of arrows, such as transactions that wait for one another. The one fault is that memory
//! runs out.
#![tactic(auto)]

mod adjacency;
mod cycles;
mod graph;
mod labelling;
mod laws;
mod trimming;

pub use cycles::Cycles;
pub use laws::{label_is_least, labels_are_cycles, members_have_their_label};
