//! The steps that clients ask for.

ghost use Rattle.std.specs.Prelude.{◌≡◌};
ghost use Rattle.asset_names.specs.Steps.{value_asked};

use crate::names::{Ob, Txn};
use crate::operations::Ops;
use crate::sets::{ObList, ObSet};

/// A kind of dependency between two transactions.
#[derive(Clone, Copy, Debug, PartialEq, Eq)]
pub enum Kind {
    /// Commit dependency: the dependent transaction commits only after its source has ended.
    Cd,
    /// Abort dependency: the same, and an abort of the source aborts the dependent transaction.
    Ad,
    /// Group commit: both commit, or neither does.
    Gc,
}

/// A step that a client asks for.
#[derive(Clone, Copy, Debug, PartialEq, Eq)]
pub enum Step {
    /// Registers the transaction `t`. The parent is recorded and never looked up.
    Initiate {
        t: Txn,
        parent: Option<Txn>,
    },
    /// Starts `t`.
    Begin {
        t: Txn,
    },
    /// Locks `x` for reading and reads it.
    Read {
        t: Txn,
        x: Ob,
    },
    /// Locks `x` for writing and writes `v` to it.
    Write {
        t: Txn,
        x: Ob,
        v: i64,
    },
    /// Locks `x` for adding and adds `d` to it; the sum wraps.
    Add {
        t: Txn,
        x: Ob,
        d: i64,
    },
    /// Says that `t` has done its work.
    Complete {
        t: Txn,
    },
    /// Lets the taker do the operations on the objects although they conflict with the giver's own.
    Permit {
        giver: Txn,
        taker: Txn,
        obs: ObSet,
        ops: Ops,
    },
    /// Lets anybody do the operations on the objects although they conflict with the giver's own.
    PermitAny {
        giver: Txn,
        obs: ObList,
        ops: Ops,
    },
    /// Hands over to the taker what the giver did on the objects: from then on the taker is responsible for
    /// it. The taker also gets a copy of the giver's permits on each object so handed over.
    Delegate {
        giver: Txn,
        taker: Txn,
        obs: ObSet,
    },
    /// Makes a dependency of this kind between two transactions: `b` depends on its source `a`, and by a group
    /// commit each depends on the other.
    Depend {
        kind: Kind,
        a: Txn,
        b: Txn,
    },
    /// Commits `t`, with its whole class.
    Commit {
        t: Txn,
    },
    /// Aborts `t`, with its whole class and all that an abort dependency draws in.
    Abort {
        t: Txn,
    },
    /// Asks whether `t` has completed or ended.
    WaitFor {
        t: Txn,
    },
}

/// Returns the value that a write asks for or that an add adds, and 0 for any other step. A signed number from a step is passed on
/// as the result of a call, so that the proof knows its range.
#[tactic(auto, unfolding(crate::specs::Steps::value_asked))]
pub fn value_asked(step: &Step) -> i64
    ensures { result ≡ value_asked step.now }
{
    match *step {
        Step::Write { v, .. } => v,
        Step::Add { d, .. } => d,
        _ => 0,
    }
}
