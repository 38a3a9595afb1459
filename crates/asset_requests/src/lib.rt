//! What can be asked of the program, within which limits, and what it answers if it runs no script.
#![tactic(auto)]

mod answers;
mod limits;
mod requests;

pub use answers::{Answer, ArgumentsFault};
pub use limits::{JobsRequest, Limits, capacity_or_default, limits_of};
pub use requests::{Asked, Request, Task};
