//! The table of locks: who holds which object by which operations, and who waits for it.
//!
//! The locks themselves are kept in a `LockStore`, in the crate below. `SeatedLocks` keeps beside it who is enrolled, in
//! order of enrolment, and what each waits for; it is asked by seat, and `Locks` by name. Only room for a seat or for an
//! object, or by name an enrolment, the first grant to a transaction on an object, and what lists names or objects take memory.
#![tactic(auto)]

mod asked;
mod locks;
mod naming;
mod room;
mod seating;
mod table;

pub use asked::Asked;
pub use asset_lock_store::{Allows, HeldObjects, LockState, NameSet};
pub use locks::Locks;
pub use table::SeatedLocks;
