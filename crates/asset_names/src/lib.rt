//! The vocabulary of the facility: names of transactions and objects, operations, sets of objects, the steps
//! that clients ask for and the replies that they get. `specs/` defines what a history of answered steps means.
//! No call of this crate allocates.
#![tactic(auto)]

mod acting;
mod counts;
mod doubles;
mod names;
mod operations;
mod outcomes;
mod refusals;
mod replies;
mod sets;
mod statuses;
mod steps;

pub use acting::{actor, partner};
pub use counts::Counts;
pub use doubles::{NamesObject, least_double};
pub use names::{Ob, Txn};
pub use operations::{Op, Ops};
pub use outcomes::{commit_outcome, takes_effect, wait_outcome};
pub use refusals::{
    refusal_between, refusal_to_abort, refusal_to_begin, refusal_to_depend, refusal_to_find,
    refusal_to_initiate, refusal_to_open, refusal_to_operate, refusal_to_work,
};
pub use replies::{Fault, NoMemory, Outcome, Refusal, Reply};
pub use sets::{MOST_OBJECTS, ObList, ObSet, SetFault};
pub use statuses::{End, Status};
pub use steps::{Kind, Step, value_asked};
