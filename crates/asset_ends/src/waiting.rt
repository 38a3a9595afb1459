//! Because of whom a transaction waits: who blocks a request, and who keeps a class from a commit.

ghost use Rattle.std.specs.Prelude.{◌≡◌, ◌&&◌, ◌||◌, ◌==◌, ℕ, IfOk, OnOk};
ghost use Rattle.asset_names.specs.Arrows.{lists};
ghost use Rattle.asset_names.specs.Numbered.{number_in};
ghost use Rattle.asset_locks.specs.Blocking.{is_blocker_in, request_in};
ghost use Rattle.asset_locks.specs.LockTable.{carries};
ghost use Rattle.asset_locks.specs.Tied.{rows_in, IsTied};
ghost use Rattle.asset_permits.specs.Valid.{permits_in, IsTied as ArePermitsTied};
ghost use Rattle.asset_deps.specs.Valid.{IsTied as AreDepsTied};
ghost use Rattle.asset_trans.specs.TransRows.{status_in};
ghost use Rattle.asset_ends.specs.Ended.{marked_by};
ghost use Rattle.asset_ends.specs.Standing.{LiveAreSeated, AreEnrolled, allows_in};
ghost use Rattle.asset_ends.specs.Waits.{is_sought};

use crate::asking::NoPermits;
use crate::parts::Parts;
use crate::seating::sitter_of;
use crate::tables::Tables;
use asset_locks::{NameSet, SeatedLocks};
use asset_names::{NoMemory, Ob, Op, Status, Txn};
use asset_seats::{Seats, Sitter};
use asset_trans::Trans;
use std::alloc::Global;
use std::collections::BTreeSet;

/// Who is looked for among the transactions that are marked.
#[derive(Clone, Copy)]
pub(crate) enum Who {
    /// All of them.
    All,
    /// Those that have not completed.
    Unfinished,
}

/// Returns whether one of this status is among those who are looked for.
#[tactic(auto, unfolding(crate::specs::Waits::is_sought))]
fn is_sought(who: Who, status: Status) -> bool
    ensures { result ≡ is_sought who status }
{
    match who {
        Who::All => true,
        Who::Unfinished => !status.is_completed(),
    }
}

/// Adds the transaction to the set, unless memory runs out.
fn add(found: &mut NameSet, t: Txn) -> Result<(), NoMemory>
    ensures { OnOk result ((u : ℕ) → lists found.new.keys u ≡ (t.0 == u || lists found.old.keys u)) }
{
    match found.insert(t.0) {
        Ok(_) => Ok(()),
        Err(_) => Err(NoMemory),
    }
}

/// Adds the transaction to the set if it is looked for, unless memory runs out.
fn add_sought(found: &mut NameSet, trans: &Trans, t: Txn, who: Who) -> Result<(), NoMemory>
    ensures { OnOk result ((u : ℕ) → lists found.new.keys u ≡ (t.0 == u && is_sought who (status_in trans.now t.0) || lists found.old.keys u)) }
{
    if is_sought(who, trans.status(t)) {
        add(found, t)
    } else {
        Ok(())
    }
}

/// Returns those who are marked and looked for. If memory runs out, the answer is `NoMemory`.
fn marked(alloc: Global, parts: &Parts, who: Who) -> Result<NameSet, NoMemory>
    requires { AreDepsTied parts.now.deps parts.now.seats }
    ensures { IfOk result (λ found. (u : ℕ) → lists found.keys u ≡ (lists (marked_by parts.now) u && is_sought who (status_in parts.now.trans u))) }
{
    let mut found = BTreeSet::new(alloc);
    'marked: for index in 0..parts.deps.marked_count() {
        if let Some(t) = parts.deps.marked_name(&parts.seats, index) {
            add_sought(&mut found, &parts.trans, t, who)?;
        }
    }
    Ok(found)
}

/// Returns who blocks `t` from `op` on `x`, by the tables. If memory runs out, the answer is `NoMemory`.
fn blockers(alloc: Global, parts: &mut Parts, t: Txn, x: Ob, op: Op) -> Result<NameSet, NoMemory>
    requires seated { LiveAreSeated parts.old.trans parts.old.seats }
    requires locks { IsTied parts.old.locks parts.old.seats }
    requires numbers { parts.old.locks.store.objects ≡ parts.old.objects.objects }
    requires permits { ArePermitsTied parts.old.permits parts.old.seats }
    ensures named { IfOk result (λ found. (u : ℕ) → lists found.keys u ≡ is_blocker_in (rows_in parts.old.seats parts.old.locks) (λ n. allows_in parts.old.trans (permits_in parts.old.permits) n t.0 x.0 op) t.0 x.0 op u) }
    ensures same { parts.new ≡ parts.old }
{
    let number = parts.objects.number(x);
    match sitter_of(&parts.trans, &parts.seats, t) {
        Some(one) => parts.locks.blockers(
            alloc,
            &parts.seats,
            one,
            number,
            x,
            op,
            &mut parts.permits,
        ),
        None => {
            let one = Sitter { t, at: 0 };
            parts
                .locks
                .blockers(alloc, &parts.seats, one, number, x, op, &mut NoPermits)
        }
    }
}

/// Returns whether a lock of `t` on `x`, whose number is given if it exists, carries `op`, by the tables.
fn carries(
    trans: &Trans,
    seats: &Seats,
    locks: &SeatedLocks,
    t: Txn,
    number: Option<usize>,
    x: Ob,
    op: Op,
) -> bool
    requires seated { LiveAreSeated trans.now seats.now }
    requires locks { IsTied locks.now seats.now }
    requires number { number ≡ number_in locks.now.store.objects x.0 }
    requires enrolled { AreEnrolled trans.now (rows_in seats.now locks.now) }
    ensures { result ≡ carries (rows_in seats.now locks.now) t.0 x.0 op }
{
    match sitter_of(trans, seats, t) {
        Some(one) => locks.carries(seats, one, number, x, op),
        None => false,
    }
}

/// Returns the request of `t` that waits, if there is one, by the tables.
fn pending(trans: &Trans, seats: &Seats, locks: &SeatedLocks, t: Txn) -> Option<(Ob, Op)>
    requires seated { LiveAreSeated trans.now seats.now }
    requires locks { IsTied locks.now seats.now }
    requires enrolled { AreEnrolled trans.now (rows_in seats.now locks.now) }
    ensures { result ≡ request_in (rows_in seats.now locks.now) t.0 }
{
    match sitter_of(trans, seats, t) {
        Some(one) => locks.pending(seats, one),
        None => None,
    }
}

impl Tables {
    ghost use Rattle.std.specs.Prelude.{◌≡◌, ℕ, IfOk};
    ghost use Rattle.asset_names.specs.Arrows.{lists};
    ghost use Rattle.asset_locks.specs.Blocking.{request_in};
    ghost use Rattle.asset_locks.specs.LockTable.{carries};
    ghost use Rattle.asset_names.specs.Operations.{holds};
    ghost use Rattle.asset_ends.specs.Shown.{ForShown};
    ghost use Rattle.asset_ends.specs.Waits.{is_blocker, is_unfinished, is_outside_source};

    /// Returns the request of `t` that waits, if there is one. Its cost is constant.
    pub fn pending(&self, t: Txn) -> Option<(Ob, Op)>
        ensures { result ≡ request_in self.now.locks t.0 }
    {
        pending(&self.parts.trans, &self.parts.seats, &self.parts.locks, t)
    }

    /// Returns whether `t` is live and holds `x` by `op`. It looks at the locks of `t` or at those on `x`, whichever are
    /// fewer.
    pub fn holds(&self, t: Txn, x: Ob, op: Op) -> bool
        ensures carried { result ≡ carries self.now.locks t.0 x.0 op }
        ensures shown { ForShown self.now (λ opening steps. result ≡ holds steps t.0 x.0 op) }
    {
        let number = self.parts.objects.number(x);
        carries(
            &self.parts.trans,
            &self.parts.seats,
            &self.parts.locks,
            t,
            number,
            x,
            op,
        )
    }

    /// Returns who blocks `t` from `op` on `x`, and nobody else: each other transaction that holds `x` by an operation in
    /// conflict and does not allow `t`. It looks at the locks on `x` that may conflict, and marks all who allow `t` once; if open
    /// permits were given, it searches for a permit from each holder in conflict.
    ///
    /// If memory runs out, the answer is `NoMemory`. Nothing changes: a search marks what it met, and no call shows that.
    pub fn blockers(&mut self, t: Txn, x: Ob, op: Op) -> Result<NameSet, NoMemory>
        ensures shown { IfOk result (λ found. ForShown self.old (λ opening steps. (u : ℕ) → lists found.keys u ≡ is_blocker steps t.0 x.0 op u)) }
        ensures same { self.new ≡ self.old }
    {
        blockers(self.alloc, &mut self.parts, t, x, op)
    }

    /// Returns the members of the class of `t` that have not completed, and nobody if `t` is not live. It looks at the class
    /// and its dependencies.
    ///
    /// If memory runs out, the answer is `NoMemory`. Nothing changes: a search marks what it met, and no call shows that.
    pub fn unfinished(&mut self, t: Txn) -> Result<NameSet, NoMemory>
        ensures shown { IfOk result (λ found. ForShown self.old (λ opening steps. (u : ℕ) → lists found.keys u ≡ is_unfinished steps t.0 u)) }
        ensures same { self.new ≡ self.old }
    {
        match sitter_of(&self.parts.trans, &self.parts.seats, t) {
            Some(one) => {
                self.parts.deps.mark_class(&self.parts.seats, one);
                marked(self.alloc, &self.parts, Who::Unfinished)
            }
            None => Ok(BTreeSet::new(self.alloc)),
        }
    }

    /// Returns the live transactions outside the class of `t` on which a member depends by a commit or an abort dependency,
    /// and nobody if `t` is not live. It looks at the class and its dependencies.
    ///
    /// If memory runs out, the answer is `NoMemory`. Nothing changes: a search marks what it met, and no call shows that.
    pub fn outside_sources(&mut self, t: Txn) -> Result<NameSet, NoMemory>
        ensures shown { IfOk result (λ found. ForShown self.old (λ opening steps. (u : ℕ) → lists found.keys u ≡ is_outside_source steps t.0 u)) }
        ensures same { self.new ≡ self.old }
    {
        match sitter_of(&self.parts.trans, &self.parts.seats, t) {
            Some(one) => {
                self.parts.deps.mark_outside_sources(&self.parts.seats, one);
                marked(self.alloc, &self.parts, Who::All)
            }
            None => Ok(BTreeSet::new(self.alloc)),
        }
    }
}
