//! Operations on objects, and sets of them.

ghost use Rattle.std.specs.Prelude.{◌≡◌, ◌||◌, ◌↔◌, false, true, IsSome, IfSome, IsNone};

use std::marker::Model;

/// What a transaction does to an object: it reads or writes the whole value, or adds to it. Two reads do not conflict,
/// nor do two adds; any other two operations do.
#[derive(Clone, Copy, Debug, PartialEq, Eq)]
pub enum Op {
    /// Reads the value.
    Read,
    /// Replaces the value.
    Write,
    /// Adds to the value; the sum wraps.
    Add,
}

impl Op {
    ghost use Rattle.std.specs.Prelude.{◌≡◌};
    ghost use Rattle.asset_names.specs.Operations.{conflict};

    /// Returns whether the two operations conflict.
    #[tactic(auto, unfolding(crate::specs::Operations::conflict))]
    pub fn conflicts_with(self, other: Op) -> bool
        ensures { result ≡ conflict self other }
    {
        self == Op::Write || self != other
    }
}

/// A set of operations, which is never empty. Contracts see it as an `OpSet`.
#[derive(Clone, Copy, Debug, PartialEq, Eq)]
pub struct Ops {
    read: bool,
    write: bool,
    add: bool,
}

impl Model for Ops {
    ghost use Rattle.std.specs.Prelude.{◌||◌, IsTrue};
    ghost use Rattle.asset_names.specs.OpSets.{OpSet};

    ghost Value = { OpSet };

    ghost view = { λ ops. record { read = ops.read; write = ops.write; add = ops.add } };

    ghost invariant = { λ ops. IsTrue (ops.read || ops.write || ops.add) };

    ghost inverse = { λ shown. record { read = shown.read; write = shown.write; add = shown.add } };
}

impl Ops {
    ghost use Rattle.asset_names.specs.OpSets.{has_op, only_op, op_set, with_op};

    /// Returns the set of the operations whose flag is true, and `None` if both are false.
    pub fn new(read: bool, write: bool) -> Option<Ops>
        ensures some { IfSome result (λ ops. ops ≡ op_set read write false) }
        ensures none { IsNone result ↔ ((read || write) ≡ false) }
    {
        if read || write {
            Some(Ops {
                read,
                write,
                add: false,
            })
        } else {
            None
        }
    }

    /// Returns the set of Add and of the operations whose flag is true.
    pub fn with_add(read: bool, write: bool) -> Ops
        ensures { result ≡ op_set read write true }
    {
        Ops {
            read,
            write,
            add: true,
        }
    }

    /// Returns the set of one operation.
    #[tactic(auto, unfolding(crate::specs::OpSets::only_op))]
    pub fn only(op: Op) -> Ops
        ensures { result ≡ only_op op }
    {
        Ops {
            read: op == Op::Read,
            write: op == Op::Write,
            add: op == Op::Add,
        }
    }

    /// Returns the set with one more operation.
    #[tactic(auto, unfolding(crate::specs::OpSets::with_op))]
    pub fn with(self, op: Op) -> Ops
        ensures { result ≡ with_op op self }
    {
        Ops {
            read: self.read || op == Op::Read,
            write: self.write || op == Op::Write,
            add: self.add || op == Op::Add,
        }
    }

    /// Returns whether the operation is in the set.
    pub fn has(self, op: Op) -> bool
        ensures { result ≡ has_op self op }
    {
        match op {
            Op::Read => self.read,
            Op::Write => self.write,
            Op::Add => self.add,
        }
    }

    /// Says what holds of all sets, for proofs. It does nothing.
    pub fn laws(self)
        ensures { (self.read || self.write || self.add) ≡ true }
    {
        let _ = self.read;
    }
}
