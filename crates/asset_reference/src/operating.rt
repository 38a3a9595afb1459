//! The operations of the entries, each with the one who is responsible for it after all of them.

ghost use Rattle.std.specs.Prelude.{◌≡◌, ◌<◌, ◌+◌, ◌+ℤ◌, ◌++◌, [], length, map};
ghost use Rattle.std.specs.Int.{w64, int_wrap};
ghost use Rattle.asset_names.specs.Operations.{operated};
ghost use Rattle.asset_reference.specs.Owners.{handed_at, responsible, owned_now, operated_within, listed};

use asset_names::{Ob, Op, Reply, Step, Txn, takes_effect};

/// What an operation does to its object.
#[derive(Clone, Copy)]
pub enum Used {
    /// It reads the value.
    Reads,
    /// It writes this value.
    Writes(i64),
    /// It adds this to the value.
    Adds(i64),
}

/// Returns the sum of two values, which wraps.
#[tactic(auto, using(std::proofs::lemmas::Int::wrapping_add_is))]
fn sum(a: i64, b: i64) -> i64
    ensures { result ≡ int_wrap w64 (a +ℤ b) }
{
    a.wrapping_add(b)
}

impl Used {
    ghost use Rattle.std.specs.Prelude.{◌≡◌};
    ghost use Rattle.asset_names.specs.Operations.{op_of, after_use};
    ghost use Rattle.asset_reference.specs.Owners.{use_by};

    /// Returns the kind of the operation.
    #[tactic(auto, unfolding(asset_names::specs::Operations::op_of, crate::specs::Owners::use_by))]
    pub fn op(self) -> Op
        ensures { result ≡ op_of (use_by self) }
    {
        match self {
            Used::Reads => Op::Read,
            Used::Writes(_) => Op::Write,
            Used::Adds(_) => Op::Add,
        }
    }

    /// Returns the value that the operation leaves, over the value before it.
    #[tactic(auto, unfolding(asset_names::specs::Operations::after_use, crate::specs::Owners::use_by))]
    pub fn after(self, before: i64) -> i64
        ensures { result ≡ after_use (use_by self) before }
    {
        match self {
            Used::Reads => before,
            Used::Writes(v) => v,
            Used::Adds(d) => sum(before, d),
        }
    }
}

/// An operation.
#[derive(Clone, Copy)]
pub struct Operated {
    /// The transaction that is responsible for it.
    pub owner: Txn,
    /// The object.
    pub x: Ob,
    /// What it does to the object.
    pub used: Used,
}

/// Returns who is responsible after one more entry for an operation on `x` that was `owner`'s.
#[tactic(auto, unfolding(crate::specs::Owners::handed_at, crate::specs::Owners::handed_by))]
fn handed_at(entry: &(Step, Reply), owner: Txn, x: Ob) -> Txn
    ensures { result.0 ≡ handed_at entry.now owner.0 x.0 }
{
    match entry.0 {
        Step::Delegate { giver, taker, obs }
            if owner == giver && obs.has(x) && takes_effect(&entry.0, entry.1) => taker,
        _ => owner,
    }
}

/// Returns who is responsible after these later entries for an operation on `x` that was `owner`'s.
fn responsible(later: &[(Step, Reply)], owner: Txn, x: Ob) -> Txn
    ensures { result.0 ≡ responsible later.now owner.0 x.0 }
{
    let mut now = owner;
    'later: for entry in later {
        now = handed_at(entry, now, x);
    }
    now
}

/// Returns the operation that a step is, if it is one and took effect before these later entries.
#[tactic(auto, unfolding(asset_names::specs::Operations::operated, crate::specs::Owners::listed, crate::specs::Owners::operation_of, crate::specs::Owners::use_by, crate::specs::Owners::owned_now))]
fn operation_of(step: &Step, later: &[(Step, Reply)]) -> Option<Operated>
    ensures { listed result ≡ map (owned_now later.now) (operated step.now []) }
{
    match *step {
        Step::Read { t, x } => Some(Operated {
            owner: responsible(later, t, x),
            x,
            used: Used::Reads,
        }),
        Step::Write { t, x, v } => Some(Operated {
            owner: responsible(later, t, x),
            x,
            used: Used::Writes(v),
        }),
        Step::Add { t, x, d } => Some(Operated {
            owner: responsible(later, t, x),
            x,
            used: Used::Adds(d),
        }),
        _ => None,
    }
}

/// Returns the operation of the entry of this index, if it has one.
pub fn operation_at(entries: &[(Step, Reply)], index: usize) -> Option<Operated>
    requires { index < length entries.now }
    ensures { operated_within entries.now (index + 1) ≡ listed result ++ operated_within entries.now index }
{
    let (step, reply) = &entries[index];
    if takes_effect(step, *reply) {
        operation_of(step, &entries[index + 1..])
    } else {
        None
    }
}
