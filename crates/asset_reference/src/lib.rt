//! The answers of the facility, found by going over the entries of a history again and again. It is slow and
//! short: tests compare the facility with it.
#![tactic(auto)]

mod allowing;
mod answers;
mod depending;
mod endings;
mod freedom;
mod holding;
mod openers;
mod openings;
mod operating;
mod refusals;
mod tracks;
mod values;

pub use answers::{answer, value_if_any};
pub use tracks::status_after;
