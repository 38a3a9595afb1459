//! Seats of transactions: small numbers, each given again once it is left, so that what is kept by seat grows with
//! those who are seated at one time. Beside them, room in chains and in rows and columns for what is to be
//! added.
#![tactic(auto)]

mod buckets;
mod room;
mod seats;
mod sitter;

pub use room::{add_chains, add_keys, add_lines, reserve_item};
pub use seats::Seats;
pub use sitter::Sitter;
