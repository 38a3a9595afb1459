//! The table of dependencies: who depends on whom and how, the classes that group commits make, and whom an end takes with
//! it. Each dependency is in the row of its source and in the column of its dependent, so that an end costs its own
//! dependencies alone. `SeatedDeps` is asked by seat, and `Deps` by name.
#![tactic(auto)]

mod asking;
mod deps;
mod finding;
mod kinds;
mod link;
mod marking;
mod outside;
mod search;
mod table;

pub use deps::Deps;
pub use table::SeatedDeps;
