//! The table of permits: who lets whom do what on which objects, and who allows whom by them. Each permit is in the
//! row of its giver and in the column of its taker, so that an end costs its own permits alone. `SeatedPermits` is asked by
//! seat, and `Permits` by name.
#![tactic(auto)]

mod allowers;
mod copying;
mod dropping;
mod finding;
mod giving;
mod laws;
mod opening;
mod permit;
mod permit_objects;
mod permits;
mod search;
mod seating;
mod table;

pub use laws::allowed_is_chain;
pub use permits::Permits;
pub use table::SeatedPermits;
