//! Where the values come from that a history's reads were answered. A history is replayed on tables with the numbers of
//! its entries in place of values, so that the value of an object is the number of its source; an add adds 0 there, since it is
//! the source of nothing. The calls fail only if memory runs out.
#![tactic(auto)]

mod finding;
mod renumbering;
mod source_walk;
mod sourced;
mod trace;
mod walking;

pub use finding::{source, sources};
pub use source_walk::SourceWalk;
pub use sourced::Source;
pub use trace::Trace;
