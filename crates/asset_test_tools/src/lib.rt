//! What the crates of tests lend one another: short words for steps, sets of objects, drawn numbers, plain tables, a script,
//! and a reader and a writer that take no memory. No test stands here, so that what is lent is proved once.
#![tactic(auto)]

mod devices;
mod drawing;
mod examples;
mod many_permits;
mod plain_labels;
mod sets;
mod steps;

pub use devices::{
    Reader, Writer, after_comment, by_pieces, endless, failing, taking, taking_pieces, whole,
};
pub use drawing::{kind_of, next, op_of, ops_of};
pub use examples::DEADLOCK;
pub use many_permits::{END, FIRST, ONE, Side, pair};
pub use plain_labels::{join_in, label_in};
pub use sets::listed;
pub use steps::{
    abort, add, begin, commit, complete, delegate, depend, initiate, permit, permit_any,
    permit_ops, read, wait, write,
};
