//! Marks on the nodes of a search, and the search along arrows between them. Nodes are numbers from 0 on, such as the
//! seats of transactions. Only `Marks::add` takes memory.
#![tactic(auto)]

mod along;
mod marks;
mod search;

pub use along::{Pick, Way, expand_along, leads_out};
pub use marks::Marks;
pub use search::{Arrows, is_linked, is_linked_either_way, spread};
