//! The tests of the locked manager: of its sessions and its book, of the word of counts, and of the audit, through
//! their public calls.
#![tactic(auto)]

mod again;
mod closing;
mod script;

pub use again::{ROOM, THREE, call, is_answered, opened, reserved, shown};
pub use closing::{close_one, close_two, hand_in, room_for};
pub use script::{first_wrong_line, is_replayed};

#[cfg(test)]
mod asserts;
#[cfg(test)]
mod audit;
#[cfg(test)]
mod audit_rows;
#[cfg(test)]
mod audit_sizes;
#[cfg(test)]
mod book;
#[cfg(test)]
mod crowd;
#[cfg(test)]
mod sessions;
#[cfg(test)]
mod sharing;
#[cfg(test)]
mod sizes;
#[cfg(test)]
mod told;
#[cfg(test)]
mod waiting;
#[cfg(test)]
mod watching;
