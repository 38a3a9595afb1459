//! Extended transaction models, made of the facility's steps.
#![tactic(auto)]

mod asking;
mod calls;
mod clients;
mod cooperation;
mod ending;
mod handing;
mod nesting;
mod parts;
mod sagas;
mod single;
mod together;

pub use calls::Asset;
pub use clients::Client;
pub use cooperation::cooperating;
pub use handing::{join, split};
pub use nesting::nested;
pub use parts::{Act, ModelEnd, Part};
pub use sagas::saga;
pub use single::{atomic, contingent};
pub use together::distributed;
