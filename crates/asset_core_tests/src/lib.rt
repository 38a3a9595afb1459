//! The tests of the facility and of the history that it records, through their public calls. The calls that the tests of
//! histories make too are public.
#![tactic(auto)]

mod again;
mod opening;
mod script;

pub use again::{ask, opened};
pub use opening::{ROOM, THREE};
pub use script::{first_other_entry, first_wrong_line, parsed, reads};

#[cfg(test)]
mod delegations;
#[cfg(test)]
mod dependencies;
#[cfg(test)]
mod facility;
#[cfg(test)]
mod facility_depending;
#[cfg(test)]
mod history;
#[cfg(test)]
mod reference;
#[cfg(test)]
mod sizes;
