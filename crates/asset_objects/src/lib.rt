//! The table of objects: the current values, and the update records by which writes and adds are undone. A table is
//! opened with the objects that exist. `write` and `add` use room that `reserve_write` reserved before; `undo` and
//! `settle` do not allocate, and touch only the records of the transaction and those beside them; an undo looks at the adds
//! over them too, and mends the next write. `hand_over` makes updates
//! another transaction's, and does not allocate either. `SeatedObjects` is asked by seat, and `Objects` by name.
#![tactic(auto)]

mod ending;
mod handing;
mod objects;
mod placed;
mod seated;
mod seating;

pub use objects::Objects;
pub use seated::{ObjectsFault, SeatedObjects};
