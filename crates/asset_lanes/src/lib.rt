//! The lanes of a history, as values: a lane for each transaction, the marks of operations in them, and the arrows between
//! them; and a summary of each transaction, for a table. `asset_picture` draws them. The one fault is that memory runs out.
#![tactic(auto)]

mod asking;
mod laws;
mod marking;
mod pointing;
mod rows;
mod spanning;
mod summing;
mod walking;

pub use laws::pictures_mark_operations;
pub use marking::{Mark, marks};
pub use pointing::{Arrow, ArrowKind, arrows};
pub use rows::lane_names;
pub use spanning::{Lane, Span, lanes};
pub use summing::{Summary, summaries};
