//! The tables together: objects, locks, permits, transactions and dependencies. Each call that does a step takes tables that
//! show a history to tables that show it with that step, and one that waits leaves them showing it. A call for one kind of
//! step requires that no refusal of it applies; `asset_steps` finds the refusals.
#![tactic(auto)]

mod asking;
mod delegating;
mod depending;
mod ending;
mod parts;
mod seating;
mod tables;
mod updating;
mod waiting;
mod working;

pub use asset_locks::NameSet;
pub use ending::Tried;
pub use tables::Tables;
pub use updating::Update;
