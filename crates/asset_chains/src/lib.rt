//! Keys in doubly linked chains, which stand beside a slab. A key is in one chain at most, and is taken out of it in
//! constant time. Of `Chains` only `add_key` and `add_chain` can run out of memory, and of `Crossed`, which keeps items in
//! rows and columns, only `add` and `reserve`.
#![tactic(auto)]

mod changing;
mod crossed;
mod heads;
mod lines;
mod links;
mod side;
mod slots;
mod table;
mod writes;

pub use crossed::Crossed;
pub use side::Side;
pub use table::Chains;
