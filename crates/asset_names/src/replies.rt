//! The answers of the facility.

use crate::names::{Ob, Txn};
use thiserror::Error;

/// Why a step was refused. A refusal is a reply: it is recorded, and changes nothing else.
#[derive(Clone, Copy, Debug, PartialEq, Eq)]
pub enum Refusal {
    /// No transaction of this name was initiated.
    Unknown(Txn),
    /// The transaction has committed or aborted.
    Ended(Txn),
    /// The transaction is not Running.
    NotRunning(Txn),
    /// The name was initiated before.
    Taken(Txn),
    /// The transaction has begun already.
    Begun(Txn),
    /// There is no such object.
    NoObject(Ob),
    /// Two transactions that have to differ are one.
    Same,
    /// The dependency would close a cycle.
    Cycle,
    /// The transaction has committed, so it is too late to abort it.
    TooLate(Txn),
}

/// A reply to a step, which is recorded in the history.
#[derive(Clone, Copy, Debug, PartialEq, Eq)]
pub enum Reply {
    /// The step took effect, or the transaction that was waited for has completed.
    Done,
    /// The value that was read.
    Value(i64),
    /// The transaction has committed.
    Committed,
    /// The transaction has aborted.
    Aborted,
    /// The step was refused.
    Refused(Refusal),
}

/// The outcome of a step that met no fault: a reply, which is recorded, or a wait, which is not.
#[derive(Clone, Copy, Debug, PartialEq, Eq)]
pub enum Outcome {
    /// The reply, which is an entry of the history.
    Answer(Reply),
    /// Not yet: the client may ask again later.
    Wait,
}

/// Why a step got no answer. A fault is not recorded, and nothing changes.
#[derive(Clone, Copy, Debug, PartialEq, Eq, Error)]
pub enum Fault {
    /// The history has no room for the entry together with those that live transactions are owed after it.
    #[error("the history has no room")]
    Full,
    /// Memory ran out.
    #[error("no memory")]
    NoMemory,
}

/// Memory ran out. The call says what may have changed.
#[derive(Clone, Copy, Debug, PartialEq, Eq, Error)]
#[error("no memory")]
pub struct NoMemory;
