//! The locks themselves: each in the list of its object and in the chain of its owner's seat.
//!
//! Locks lie in a slab. Each is in the chain of its owner, in order of first grant or move, and in the list of its object,
//! where those that only read and those that only add are apart from the others, which conflict with each lock. `LockStore`
//! looks at them, grants, suspends, hands over and releases them, by seat, and knows nothing of who is enrolled or waits.
//! Only room for a seat or for an object, the first grant to a seat on an object, and what lists names or objects take memory.
#![tactic(auto)]

mod allows;
mod blocking;
mod granting;
mod handing;
mod lock;
mod looking;
mod release;
mod searching;
mod state;
mod store;
mod suspending;

pub use allows::Allows;
pub use blocking::NameSet;
pub use lock::{Lock, Request};
pub use looking::Look;
pub use searching::HeldObjects;
pub use state::LockState;
pub use store::LockStore;
