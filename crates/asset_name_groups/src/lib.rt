//! Names in groups, which are joined two at a time. Each group has a label, its first node, and may be flagged. Only
//! `NameGroups::with_room` takes memory.
#![tactic(auto)]

mod groups;
mod index;
mod links;
mod trees;

pub use groups::{MOST_NAMES, NameGroups};
