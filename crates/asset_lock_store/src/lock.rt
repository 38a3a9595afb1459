//! One lock, and a request for one.

ghost use Rattle.std.specs.Prelude.{◌≡◌};
ghost use Rattle.asset_lock_store.specs.LockRules.{both_conflict, excludes, one_conflicts};

use crate::state::LockState;
use asset_names::{Ob, Op, Ops};
use asset_seats::Sitter;

/// A lock: the object that it is on, the operations that it carries, and whether it is granted.
#[derive(Clone, Copy)]
pub struct Lock {
    /// The object that it is on.
    pub object: Ob,
    /// The operations that it carries.
    pub ops: Ops,
    /// Whether it is granted. Otherwise it is suspended.
    pub granted: bool,
}

/// What a transaction asks for: an operation on an object.
#[derive(Clone, Copy)]
pub struct Request {
    /// Who asks.
    pub asker: Sitter,
    /// The object.
    pub x: Ob,
    /// The operation.
    pub op: Op,
}

/// Returns whether any of the operations conflicts with `op`.
#[tactic(auto, unfolding(crate::specs::LockRules::one_conflicts))]
pub(crate) fn one_conflicts(ops: Ops, op: Op) -> bool
    ensures { result ≡ one_conflicts ops op }
{
    (ops.has(Op::Read) && Op::Read.conflicts_with(op))
        || (ops.has(Op::Write) && Op::Write.conflicts_with(op))
        || (ops.has(Op::Add) && Op::Add.conflicts_with(op))
}

/// Returns whether any of the operations conflicts with any of the others.
#[tactic(auto, unfolding(crate::specs::LockRules::both_conflict))]
pub(crate) fn both_conflict(ops: Ops, others: Ops) -> bool
    ensures { result ≡ both_conflict ops others }
{
    (others.has(Op::Read) && one_conflicts(ops, Op::Read))
        || (others.has(Op::Write) && one_conflicts(ops, Op::Write))
        || (others.has(Op::Add) && one_conflicts(ops, Op::Add))
}

/// Returns whether the operations conflict with each operation: they write, or read and add.
#[tactic(auto, unfolding(crate::specs::LockRules::excludes))]
pub(crate) fn excludes(ops: Ops) -> bool
    ensures { result ≡ excludes ops }
{
    ops.has(Op::Write) || (ops.has(Op::Read) && ops.has(Op::Add))
}

impl Lock {
    ghost use Rattle.std.specs.Prelude.{◌≡◌, ◌&&◌};
    ghost use Rattle.asset_names.specs.OpSets.{has_op};
    ghost use Rattle.asset_lock_store.specs.LockRules.{state_of};

    /// Returns whether the lock is granted and carries the operation.
    pub(crate) fn has(&self, op: Op) -> bool
        ensures { result ≡ (self.now.granted && has_op self.now.ops op) }
    {
        self.granted && self.ops.has(op)
    }

    /// Returns the state of the lock.
    #[tactic(auto, unfolding(crate::specs::LockRules::state_of))]
    pub fn state(&self) -> LockState
        ensures { result ≡ state_of self.now }
    {
        if self.granted {
            LockState::Granted
        } else {
            LockState::Suspended
        }
    }
}
