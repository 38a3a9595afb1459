//! Indices in buckets by their numbers, in time that is in proportion to the indices and the buckets. The one fault is
//! that memory runs out.
#![tactic(auto)]

mod buckets;

pub use buckets::Buckets;
