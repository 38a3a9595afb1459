//! The table of locks by name, and its calls.

use crate::asked::Asked;
use crate::naming::{number_for, number_of, number_of_only};
use crate::seating::{seat_for, sitter_in};
use crate::table::SeatedLocks;
use asset_lock_store::{HeldObjects, LockState};
use asset_names::{NoMemory, Ob, ObSet, Op, Txn};
use asset_permits::Permits;
use asset_seats::{Seats, Sitter};
use indexmap::IndexSet;
use smallvec::SmallVec;
use std::alloc::Global;
use std::marker::Model;

/// The locks on objects, and the enrolled transactions with what each holds and waits for. Contracts see a row for each
/// enrolled transaction, in order of enrolment; nobody sees in which order locks were granted on an object. Exactly those
/// who are enrolled have a seat, and each object that ever had a lock has a number, by which the table is asked.
pub struct Locks {
    seats: Seats,
    objects: IndexSet<Ob>,
    table: SeatedLocks,
}

impl Drop for Locks {
    fn drop(self) {
        let Locks {
            seats,
            objects,
            table,
        } = self;
        drop(seats);
        drop(objects);
        drop(table);
    }
}

impl Model for Locks {
    ghost use Rattle.std.specs.Prelude.{◌≡◌};
    ghost use Rattle.asset_locks.specs.LockTable.{LockTable};
    ghost use Rattle.asset_locks.specs.Tied.{rows_in, IsTied, SittersAreEnrolled};

    ghost Value = { LockTable };

    ghost view = { λ l. rows_in l.seats l.table };

    ghost invariant = { λ l. IsTied l.table l.seats × SittersAreEnrolled l.seats (rows_in l.seats l.table) × (l.table.store.objects ≡ l.objects.keys) };
}

impl Locks {
    ghost use Rattle.std.specs.Prelude.{◌≡◌, ℕ, ◌==◌, true, [], None, is_some, slice_get, filter, IfOk, IsOk, IsErr, OnOk, OnErr};
    ghost use Rattle.asset_permits.specs.Descriptors.{allows_by};
    ghost use Rattle.asset_names.specs.InSet.{in_set};
    ghost use Rattle.asset_locks.specs.LockTable.{enrol_in, release_in, hand_over_in, enrolled_in, is_free_in, lock_in, status_in, held_in, waiters_in};
    ghost use Rattle.asset_locks.specs.Valid.{answer_where, after_ask, IsValid};

    /// Returns a table in which nobody is enrolled. It does not allocate.
    pub fn new(alloc: Global) -> Locks
        ensures { result ≡ [] }
    {
        Locks {
            seats: Seats::new(alloc),
            objects: IndexSet::new(alloc),
            table: SeatedLocks::new(alloc),
        }
    }

    /// Enrols `t`: it comes last, holds nothing and waits for nothing. If `t` is enrolled already, nothing changes and
    /// the answer is Ok.
    ///
    /// If memory runs out, nothing changes. The cost is that of a push to a vector, whoever else is enrolled.
    pub fn enrol(&mut self, t: Txn) -> Result<(), NoMemory>
        ensures valid { IsValid self.old }
        ensures done { OnOk result (enrolled_in self.old t.0 ≡ None → self.new ≡ enrol_in t.0 self.old) }
        ensures again { is_some (enrolled_in self.old t.0) ≡ true → IsOk result × (self.new ≡ self.old) }
        ensures enrolled { OnOk result (is_some (enrolled_in self.new t.0) ≡ true) }
        ensures unchanged { OnErr result (self.new ≡ self.old) }
    {
        self.table.laws(&self.seats);
        let sitter = seat_for(&mut self.seats, &mut self.table, t)?;
        self.table.enrol(&self.seats, sitter);
        Ok(())
    }

    /// Returns whether `x` is free for `t` to do `op`: each lock on `x` that conflicts with `op`, granted or suspended,
    /// is its own or belongs to a transaction that allows it. It does not look at locks on `x` that only read if
    /// `op` is a read, nor at those that only add if it is an add.
    pub fn is_free(&self, t: Txn, x: Ob, op: Op, permits: &mut Permits) -> bool
        ensures free { result ≡ is_free_in self.now (λ u. allows_by permits.old u t.0 x.0 op) t.0 x.0 op }
        ensures valid { IsValid self.now }
        ensures permits { permits.new ≡ permits.old }
    {
        // Permits by name look at nobody's seat, so one without a seat may ask.
        let asker = Sitter { t, at: 0 };
        let number = number_of(&self.objects, x);
        self.table
            .is_free(&self.seats, asker, number, x, op, permits)
    }

    /// Asks for `op` on `x` for `t`, which is enrolled. If `x` is free for it, `t` is granted a lock that carries `op`
    /// besides what it carried, each conflicting lock of another is suspended, and `t` has no pending request. Otherwise
    /// the request becomes the pending request of `t`.
    ///
    /// Only the first grant to `t` on `x` can answer `NoMemory`, and then nothing changes. It looks at the locks at which
    /// `is_free` looks, and again only to suspend some. If a read or an add meets no lock of `t` among them, it
    /// searches for one among those of `t` or those on `x` at which it did not look, whichever are fewer.
    pub fn ask(&mut self, t: Txn, x: Ob, op: Op, permits: &mut Permits) -> Result<Asked, NoMemory>
        requires enrolled { is_some (enrolled_in self.old t.0) ≡ true }
        ensures answer { IfOk result (λ asked. asked ≡ answer_where (is_free_in self.old (λ u. allows_by permits.old u t.0 x.0 op) t.0 x.0 op)) }
        ensures done { OnOk result (self.new ≡ after_ask (is_free_in self.old (λ u. allows_by permits.old u t.0 x.0 op) t.0 x.0 op) t.0 x op self.old) }
        ensures valid { IsValid self.old }
        ensures memory { IsErr result → is_free_in self.old (λ u. allows_by permits.old u t.0 x.0 op) t.0 x.0 op ≡ true }
        ensures first { IsErr result → lock_in self.old t.0 x.0 ≡ None }
        ensures unchanged { OnErr result (self.new ≡ self.old) }
        ensures permits { permits.new ≡ permits.old }
    {
        self.table.laws(&self.seats);
        self.table.unnumbered(&self.seats, x);
        let number = number_for(&mut self.objects, &mut self.table, x)?;
        let asker = sitter_in(&self.seats, &self.table, t);
        self.table.ask(&self.seats, asker, number, x, op, permits)
    }

    /// Returns the state of the lock that `t` has on `x`, if it has one. It looks at the locks of `t` or at those on `x`,
    /// whichever are fewer.
    pub fn status(&self, t: Txn, x: Ob) -> Option<LockState>
        ensures status { result ≡ status_in self.now t.0 x.0 }
        ensures valid { IsValid self.now }
    {
        self.table.laws(&self.seats);
        let at = self.seats.seat_of(t)?;
        let number = number_of(&self.objects, x);
        self.table.status(&self.seats, Sitter { t, at }, number, x)
    }

    /// Returns the object at the index among those on which `t` has a lock, from 0 in order of first grant or move, and
    /// `None` past the end. It looks at the locks of `t` up to it.
    pub fn held_by(&self, t: Txn, n: usize) -> Option<Ob>
        ensures held { result ≡ slice_get (held_in self.now t.0) n }
        ensures valid { IsValid self.now }
    {
        self.table.laws(&self.seats);
        let at = self.seats.seat_of(t)?;
        self.table.held_by(&self.seats, Sitter { t, at }, n)
    }

    /// Returns the objects of the set on which `t` has a lock, in the order of `held_by`. It looks at the locks of `t` once;
    /// for a set that lists one object it looks for the lock on it, at those of `t` or those on the object, whichever are fewer.
    ///
    /// If memory runs out, the answer is `NoMemory`. Up to eight objects take no memory.
    pub fn held_among(
        &self,
        alloc: Global,
        t: Txn,
        objects: &ObSet,
    ) -> Result<HeldObjects, NoMemory>
        ensures held { IfOk result (λ held. held.items ≡ filter (λ (x : Ob). in_set objects.now x.0) (held_in self.now t.0)) }
        ensures valid { IsValid self.now }
    {
        self.table.laws(&self.seats);
        match self.seats.seat_of(t) {
            Some(at) => {
                let holder = Sitter { t, at };
                let only = number_of_only(&self.objects, objects);
                self.table
                    .held_among(alloc, &self.seats, holder, objects, only)
            }
            None => Ok(SmallVec::new(alloc)),
        }
    }

    /// Returns the waiter at the index among those whose pending request is on `x`, in order of enrolment from 0, with
    /// the operation that it asked for, and `None` past the end. It looks at the transactions enrolled up to it.
    pub fn waiters(&self, x: Ob, n: usize) -> Option<(Txn, Op)>
        ensures { result ≡ slice_get (waiters_in self.now x.0) n }
    {
        self.table.waiters(&self.seats, x, n)
    }

    /// Ends the enrolment of `t`, with its locks and its pending request. If `t` is not enrolled, nothing changes. The
    /// cost is that of its own locks.
    pub fn release(&mut self, t: Txn)
        ensures { self.new ≡ release_in (λ n. n == t.0) self.old }
    {
        self.table.laws(&self.seats);
        let Some(at) = self.seats.seat_of(t) else {
            return;
        };
        self.table.release(&self.seats, Sitter { t, at });
        self.seats.leave(at);
    }

    /// Makes the locks of `giver` on objects of the set those of `taker`; both are enrolled. If `taker` has no lock on an
    /// object, the lock keeps its operations and its state, and comes at the end of those of `taker`, in the order of
    /// `giver`. If it has one, the two become one in its place, with the operations of both, which is suspended. Pending
    /// requests stay. If both are one, nothing changes.
    ///
    /// It takes no memory. It looks at each lock of `giver`, or, for a set that lists one object, for the lock on it at those
    /// of `giver` or those on the object, whichever are fewer. For each lock that moves it looks so for that of `taker`.
    pub fn hand_over(&mut self, giver: Txn, taker: Txn, objects: &ObSet)
        requires giver { is_some (enrolled_in self.old giver.0) ≡ true }
        requires taker { is_some (enrolled_in self.old taker.0) ≡ true }
        ensures done { self.new ≡ hand_over_in giver.0 taker.0 objects.now self.old }
        ensures valid { IsValid self.old }
    {
        let from = sitter_in(&self.seats, &self.table, giver);
        let to = sitter_in(&self.seats, &self.table, taker);
        let only = number_of_only(&self.objects, objects);
        self.table.hand_over(&self.seats, from, to, objects, only);
    }
}
