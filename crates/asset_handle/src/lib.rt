//! The facility behind a handle of a fixed size, for callers in other languages.
#![tactic(auto)]

mod asked;
mod calls;
mod codes;
mod handle;
mod opening;
mod parts;
mod plain;
mod told;

pub use codes::Code;
pub use handle::{Handle, Held};
pub use plain::{ALL, PlainAnswer, PlainObject, PlainStep, PlainWaiter, SLOTS};
