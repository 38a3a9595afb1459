//! Keys in lists, which stand beside a slab. A key is in one list at most, in one of its three parts, and is taken out of
//! it in constant time. The keys of a part are in no order that a caller may rely on.
#![tactic(auto)]

mod moves;
mod part;
mod room;
mod rows;
mod table;

pub use part::{Part, Section};
pub use table::KeyLists;
