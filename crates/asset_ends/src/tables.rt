//! The tables, and what they show.

use crate::asking::is_free;
use crate::parts::Parts;
use asset_deps::SeatedDeps;
use asset_locks::SeatedLocks;
use asset_names::{End, NoMemory, Ob, ObSet, Op, Status, Txn};
use asset_objects::{ObjectsFault, SeatedObjects};
use asset_permits::SeatedPermits;
use asset_seats::{Seats, Sitter};
use asset_trans::Trans;
use std::alloc::Global;
use std::marker::Model;

/// The tables of objects, locks, permits, transactions and dependencies. Contracts see what each holds; which history
/// they show, `Shows` says. Exactly the live transactions are enrolled for locks, and exactly they have seats, by which
/// objects, locks, permits and dependencies are asked.
pub struct Tables {
    pub(crate) alloc: Global,
    pub(crate) parts: Parts,
}

/// It is proved here, once for all crates that drop tables.
impl Drop for Tables {
    fn drop(self) {
        let Tables { alloc: _, parts } = self;
        drop(parts);
    }
}

impl Model for Tables {
    ghost use Rattle.asset_objects.specs.Placed.{objects_in};
    ghost use Rattle.asset_permits.specs.Valid.{permits_in};
    ghost use Rattle.asset_deps.specs.Valid.{dependencies_in};
    ghost use Rattle.asset_ends.specs.Standing.{Standing};
    ghost use Rattle.asset_ends.specs.Ended.{locks_of};
    ghost use Rattle.asset_ends.specs.Tied.{PartsAreValid};

    ghost Value = { Standing };

    ghost view = { λ t. record { trans = t.parts.trans; objects = objects_in t.parts.objects; locks = locks_of t.parts; permits = permits_in t.parts.permits; deps = dependencies_in t.parts.deps } };

    ghost invariant = { λ t. PartsAreValid t.parts };
}

impl Tables {
    ghost use Rattle.std.specs.Prelude.{◌≡◌, ℕ, ℤ, slice_get, [], None, Some, is_some, map, OnOk, IfOk, IfErr};
    ghost use Rattle.asset_names.specs.declared.names.Ob.{Ob as Object};
    ghost use Rattle.asset_names.specs.declared.operations.Op.{Op as Operation};
    ghost use Rattle.asset_names.specs.InSet.{only_in};
    ghost use Rattle.asset_names.specs.Numbered.{number_in};
    ghost use Rattle.asset_names.specs.Steps.{Opening, objects_of};
    ghost use Rattle.asset_names.specs.Orderly.{IsOrderly};
    ghost use Rattle.asset_names.specs.Endings.{status};
    ghost use Rattle.asset_names.specs.Room.{owed};
    ghost use Rattle.asset_names.specs.Operations.{allows, free, value_if_any};
    ghost use Rattle.asset_names.specs.Sets.{HasNoDouble};
    ghost use Rattle.asset_objects.specs.Faults.{IsObjectsFault};
    ghost use Rattle.asset_objects.specs.Cells.{cells, number_of, has_object, value_in, opened};
    ghost use Rattle.asset_objects.specs.Placed.{objects_in, IsTied};
    ghost use Rattle.asset_seats.specs.Seated.{Seated, seat};
    ghost use Rattle.asset_locks.specs.LockTable.{waiters_in};
    ghost use Rattle.asset_trans.specs.TransRows.{status_in, seat_in, owed_in, ended_in};
    ghost use Rattle.asset_names.specs.Counted.{ended_count};
    ghost use Rattle.asset_ends.specs.Shown.{ForShown};
    ghost use Rattle.asset_ends.specs.Shows.{Shows};
    ghost use Rattle.asset_ends.specs.Standing.{values_of, allows_in, is_free_for};

    /// Returns the tables of an opening, before the first step. The objects are numbered in the order of the opening.
    ///
    /// It answers `DoubleObject` with the least object that is given twice; otherwise `NoMemory` if memory runs out.
    pub fn open(alloc: Global, opening: &[(Ob, i64)]) -> Result<Tables, ObjectsFault>
        ensures shows { IfOk result (λ tables. Shows opening.now [] (values_of tables)) }
        ensures locks { IfOk result (λ tables. tables.locks ≡ []) }
        ensures numbers { IfOk result (λ tables. (x : ℕ) → number_of tables.objects x ≡ number_in (map (λ (pair : Object × ℤ). pair.0) opening.now) x) }
        ensures different { OnOk result (HasNoDouble (objects_of opening.now)) }
        ensures fault { IfErr result (λ fault. IsObjectsFault opening.now fault) }
    {
        match Tables::over(alloc, SeatedObjects::open(alloc, opening)?) {
            Ok(tables) => Ok(tables),
            Err(NoMemory) => Err(ObjectsFault::NoMemory),
        }
    }

    /// Returns the tables of an opening that gives no object twice, before the first step. The objects are numbered in the
    /// order of the opening. It fails only if memory runs out.
    pub fn open_distinct(alloc: Global, opening: &[(Ob, i64)]) -> Result<Tables, NoMemory>
        requires distinct { HasNoDouble (objects_of opening.now) }
        ensures shows { IfOk result (λ tables. Shows opening.now [] (values_of tables)) }
        ensures locks { IfOk result (λ tables. tables.locks ≡ []) }
        ensures numbers { IfOk result (λ tables. (x : ℕ) → number_of tables.objects x ≡ number_in (map (λ (pair : Object × ℤ). pair.0) opening.now) x) }
    {
        Tables::over(alloc, SeatedObjects::open_distinct(alloc, opening)?)
    }

    /// Returns the tables over objects at their opening values. It fails only if memory runs out.
    fn over(alloc: Global, objects: SeatedObjects) -> Result<Tables, NoMemory>
        requires { (seats : Seated) → ((c : ℕ) → seat seats c ≡ None) → IsTied objects seats }
        ensures shows { IfOk result (λ tables. (opening : Opening) → cells (objects_in objects) ≡ opened opening → Shows opening [] (values_of tables)) }
        ensures locks { IfOk result (λ tables. tables.locks ≡ []) }
        ensures numbers { IfOk result (λ tables. (x : ℕ) → number_of tables.objects x ≡ number_in objects.objects x) }
    {
        let mut locks = SeatedLocks::new(alloc);
        locks.add_objects(objects.objects())?;
        let parts = Parts {
            seats: Seats::new(alloc),
            objects,
            locks,
            permits: SeatedPermits::new(alloc),
            trans: Trans::new(alloc),
            deps: SeatedDeps::new(alloc),
        };
        Ok(Tables { alloc, parts })
    }

    /// Returns the status of a transaction: Unknown if it was never initiated.
    pub fn status(&self, t: Txn) -> Status
        ensures row { result ≡ status_in self.now.trans t.0 }
        ensures shown { ForShown self.now (λ opening steps. result ≡ status steps t.0) }
    {
        self.parts.trans.status(t)
    }

    /// Returns the status of a transaction, and the transaction with the seat that its row says. If it was never initiated,
    /// these are Unknown and seat 0. It looks for the row once. The calls that take a seat, such as `read_at`, take it from here.
    #[inline(always)]
    pub fn find(&self, t: Txn) -> (Status, Sitter)
        ensures status { result.0 ≡ status_in self.now.trans t.0 }
        ensures name { result.1.t ≡ t }
        ensures seat { result.1.at ≡ seat_in self.now.trans t.0 }
    {
        match self.parts.trans.find(t) {
            Some(row) => (row.status, Sitter { t, at: row.seat }),
            None => (Status::Unknown, Sitter { t, at: 0 }),
        }
    }

    /// Returns how many entries all live transactions are owed.
    pub fn owed(&self) -> usize
        ensures counted { result ≡ owed_in self.now.trans }
        ensures shown { ForShown self.now (λ opening steps. IsOrderly steps → result ≡ owed steps) }
    {
        self.parts.trans.owed()
    }

    /// Returns how many transactions have ended in this way. It is a counter: no row is looked at.
    pub fn ended(&self, how: End) -> usize
        ensures counted { result ≡ ended_in how self.now.trans }
        ensures shown { ForShown self.now (λ opening steps. IsOrderly steps → result ≡ ended_count how steps) }
    {
        self.parts.trans.ended(how)
    }

    /// Returns the number of an object, by which objects and locks are asked: its index in the order of the opening. It is `None`
    /// if there is no such object. The calls that take a number, such as `read_at`, take it from here.
    #[inline(always)]
    pub fn number(&self, x: Ob) -> Option<usize>
        ensures number { result ≡ number_of self.now.objects x.0 }
        ensures exists { is_some result ≡ has_object (cells self.now.objects) x.0 }
    {
        self.parts.objects.number(x)
    }

    /// Returns the number of the one object that the set lists. It is `None` if the set is not of one object, and if there is no
    /// such object.
    #[inline(always)]
    pub fn number_of_only(&self, set: &ObSet) -> Option<usize>
        ensures number { (x : Object) → only_in set.now ≡ Some x → result ≡ number_of self.now.objects x.0 }
        ensures none { only_in set.now ≡ None → result ≡ None }
    {
        self.parts.objects.number_of_only(set)
    }

    /// Returns the value of an object, and `None` if there is no such object.
    pub fn value(&self, x: Ob) -> Option<i64>
        ensures cell { result ≡ value_in (cells self.now.objects) x.0 }
        ensures shown { ForShown self.now (λ opening steps. result ≡ value_if_any opening steps x.0) }
    {
        self.parts.objects.value(x)
    }

    /// Returns the waiter of this index for `x`, in order of initiation from 0, with the operation that it asked for,
    /// and `None` past the end.
    pub fn waiters(&self, x: Ob, index: usize) -> Option<(Txn, Op)>
        ensures { result ≡ slice_get (waiters_in self.now.locks x.0) index }
    {
        self.parts.locks.waiters(&self.parts.seats, x, index)
    }

    /// Returns whether `x` is free for `t` to do `op`. Nothing changes: a search for permits marks what it met, and no
    /// call shows that. It also says, for proofs, who allows whom: the tables say the same as each history that they
    /// show.
    pub fn is_free(&mut self, t: Txn, x: Ob, op: Op) -> bool
        ensures free { result ≡ is_free_for self.old t.0 x.0 op }
        ensures shown { ForShown self.old (λ opening steps. result ≡ free steps t.0 x.0 op) }
        ensures allowed { ForShown self.old (λ opening steps. (u v y : ℕ) (o : Operation) → allows_in self.old.trans self.old.permits u v y o ≡ allows steps u v y o) }
        ensures same { self.new ≡ self.old }
    {
        let number = self.parts.objects.number(x);
        is_free(
            &self.parts.trans,
            &self.parts.seats,
            &self.parts.locks,
            &mut self.parts.permits,
            t,
            number,
            x,
            op,
        )
    }
}
