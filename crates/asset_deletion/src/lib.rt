//! Groups of a history, which are transactions that shared something or asked to, and the history without dead ones. The
//! one fault is that memory runs out.
#![tactic(auto)]

mod deleting;
mod going;
mod grouped;
mod grouping;
mod reading;

pub use deleting::{without, without_dead};
pub use grouped::Groups;
pub use grouping::groups;
