//! The update records of the writes and adds that stand: each in the row of its object, and in the column of its owner. Taking
//! a record of a transaction back touches that record, those beside it and the adds over it; making it stand for good touches the
//! records that go and those beside them. Records of one transaction become another's where they are, which needs no memory. `push`
//! uses the memory that `reserve` reserved; nothing else but `add_object` and `make_room` allocates. Owners are asked for by
//! their seats, which are kept elsewhere.
#![tactic(auto)]

mod dropping;
mod handing;
mod layers;
mod mending;
mod records;
mod settling;

pub use handing::Picks;
pub use mending::Mend;
pub use records::{Change, Record, Records, Settled, Undone};
