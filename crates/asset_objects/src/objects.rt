//! The table of objects by name, and its calls.

use crate::seated::{ObjectsFault, SeatedObjects};
use crate::seating::{add_seats, seat_for, writer};
use asset_names::{NoMemory, Ob, ObSet, Txn};
use asset_seats::Seats;
use std::alloc::Global;
use std::marker::Model;

/// The objects with their values, and an update record of each write and add that may still be undone, asked by name. Contracts
/// see each object as its base and the updates that stand over it, newest first. Its value is the base with the updates in
/// order.
///
/// Each transaction with an update has a seat, by which the table is asked. Once there is a record, there are more seats than
/// records, so that a hand-over finds one for the taker.
pub struct Objects {
    seats: Seats,
    table: SeatedObjects,
}

impl Drop for Objects {
    fn drop(self) {
        let Objects { seats, table } = self;
        drop(seats);
        drop(table);
    }
}

impl Model for Objects {
    ghost use Rattle.asset_objects.specs.Cells.{ObjectTable};
    ghost use Rattle.asset_objects.specs.Placed.{objects_in, IsSpared};

    ghost Value = { ObjectTable };

    ghost view = { λ o. objects_in o.table };

    ghost invariant = { λ o. IsSpared o.table o.seats };
}

impl Objects {
    ghost use Rattle.std.specs.Prelude.{◌≡◌, ℕ, ◌==◌, ◌≤◌, ◌+◌, ◌*◌, true, false, Some, is_some, length, IfOk, IfErr, IsOk, OnOk, OnErr};
    ghost use Rattle.asset_names.specs.Sets.{HasNoDouble};
    ghost use Rattle.asset_names.specs.InSet.{in_set};
    ghost use Rattle.asset_objects.specs.Cells.{Cell, cells, opened, value_in, has_object, has_update, written, increased, undone, settled, handed_cell, change_at, change_each, change_where, updates_by, standing};
    ghost use Rattle.asset_objects.specs.Faults.{IsObjectsFault};
    ghost use Rattle.asset_names.specs.Steps.{objects_of};

    /// Returns the objects at their opening values, with no update yet.
    ///
    /// It answers `DoubleObject` with the least object that is given twice; otherwise `NoMemory` if memory runs out.
    pub fn open(alloc: Global, opening: &[(Ob, i64)]) -> Result<Objects, ObjectsFault>
        ensures opened { IfOk result (λ objects. cells objects ≡ opened opening.now) }
        ensures visits { IfOk result (λ objects. objects.visits ≡ 0) }
        ensures different { OnOk result (HasNoDouble (objects_of opening.now)) }
        ensures fault { IfErr result (λ fault. IsObjectsFault opening.now fault) }
    {
        let table = SeatedObjects::open(alloc, opening)?;
        let seats = Seats::new(alloc);
        Ok(Objects { seats, table })
    }

    /// Returns the objects at their opening values, with no update yet, for a caller who knows that none is given
    /// twice. If memory runs out, it answers at once, while `open` first compares each pair of objects.
    pub fn open_distinct(alloc: Global, opening: &[(Ob, i64)]) -> Result<Objects, NoMemory>
        requires distinct { HasNoDouble (objects_of opening.now) }
        ensures opened { IfOk result (λ objects. cells objects ≡ opened opening.now) }
        ensures visits { IfOk result (λ objects. objects.visits ≡ 0) }
    {
        let table = SeatedObjects::open_distinct(alloc, opening)?;
        let seats = Seats::new(alloc);
        Ok(Objects { seats, table })
    }

    /// Returns the value of an object, and `None` if there is no such object.
    pub fn value(&self, x: Ob) -> Option<i64>
        ensures value { result ≡ value_in (cells self.now) x.0 }
        ensures exists { is_some result ≡ has_object (cells self.now) x.0 }
    {
        self.table.value(x)
    }

    /// Reserves the memory for one more write or add. The reservation stands until then.
    ///
    /// If memory runs out, nothing changes. A reservation that stands already is answered Ok.
    pub fn reserve_write(&mut self) -> Result<(), NoMemory>
        ensures cells { cells self.new ≡ cells self.old }
        ensures reserved { OnOk result (self.new.reserved ≡ true) }
        ensures standing { self.old.reserved ≡ true → IsOk result }
        ensures unchanged { OnErr result (self.new ≡ self.old) }
        ensures visits { self.new.visits ≡ self.old.visits }
    {
        add_seats(&mut self.seats, &mut self.table)?;
        self.table.reserve_write()
    }

    /// Writes the value to the object, which exists. It uses the memory that `reserve_write` reserved. Other
    /// objects do not change.
    pub fn write(&mut self, t: Txn, x: Ob, v: i64)
        requires exists { has_object (cells self.old) x.0 ≡ true }
        requires reserved { self.old.reserved ≡ true }
        ensures cells { cells self.new ≡ change_at x.0 (written t.0 v) (cells self.old) }
        ensures reserved { self.new.reserved ≡ false }
        ensures visits { self.new.visits ≡ self.old.visits }
    {
        let owner = seat_for(&mut self.seats, &self.table, t);
        let number = self.table.number(x).unwrap();
        self.table.write(&self.seats, owner, number, v);
    }

    /// Adds the amount to the object, which exists: its value is the sum, which wraps to 64 bits. It uses the memory that
    /// `reserve_write` reserved. Other objects do not change.
    pub fn add(&mut self, t: Txn, x: Ob, amount: i64)
        requires exists { has_object (cells self.old) x.0 ≡ true }
        requires reserved { self.old.reserved ≡ true }
        ensures cells { cells self.new ≡ change_at x.0 (increased t.0 amount) (cells self.old) }
        ensures reserved { self.new.reserved ≡ false }
        ensures visits { self.new.visits ≡ self.old.visits }
    {
        let owner = seat_for(&mut self.seats, &self.table, t);
        let number = self.table.number(x).unwrap();
        self.table.add(&self.seats, owner, number, amount);
    }

    /// Takes back the updates of the transaction: each object is as it would be without them. It touches the records of the
    /// transaction and those beside them, and looks at the adds over them.
    pub fn undo(&mut self, t: Txn)
        ensures cells { cells self.new ≡ change_each (undone (λ n. n == t.0)) (cells self.old) }
        ensures visits { self.new.visits ≤ 4 * updates_by (λ n. n == t.0) self.old.rows }
        ensures reserved { self.old.reserved ≡ true → self.new.reserved ≡ true }
    {
        match writer(&self.seats, &self.table, t) {
            Some(one) => {
                self.table.undo(&self.seats, one);
                self.seats.leave(one.at);
            }
            None => self.table.pass_over(&self.seats, t),
        }
    }

    /// Makes the updates of the transaction final: on each object the newest write becomes the base, and its record is dropped
    /// together with all before it; an add after it becomes part of the base, or an update of nobody over a write that may still
    /// go. It touches the records of the transaction and those beside them.
    pub fn settle(&mut self, t: Txn)
        ensures cells { cells self.new ≡ change_each (settled (λ n. n == t.0)) (cells self.old) }
        ensures visits { self.new.visits + 4 * standing self.new.rows ≤ 4 * standing self.old.rows }
        ensures reserved { self.old.reserved ≡ true → self.new.reserved ≡ true }
    {
        match writer(&self.seats, &self.table, t) {
            Some(one) => {
                self.table.settle(&self.seats, one);
                self.seats.leave(one.at);
            }
            None => self.table.pass_over(&self.seats, t),
        }
    }

    /// Makes the giver's updates on the objects of the set the taker's. No value changes, and nothing else does. Both may be
    /// one, which changes nothing.
    ///
    /// It takes no memory. It looks at the giver's records, and at those beside the ones that change; for a set that lists
    /// one object, at the records on it if they are fewer. It looks at each seat if the taker has none and none is free.
    pub fn hand_over(&mut self, giver: Txn, taker: Txn, objects: &ObSet)
        ensures cells { cells self.new ≡ change_where (in_set objects.now) (handed_cell giver.0 taker.0) (cells self.old) }
        ensures counted { (taker.0 == giver.0) ≡ false → (x : ℕ) (cell : Cell) → cells self.old x ≡ Some cell → in_set objects.now x ≡ true → has_update giver.0 cell ≡ true → 1 ≤ self.new.visits }
        ensures visits { self.new.visits ≤ 4 * updates_by (λ n. n == giver.0) self.old.rows }
        ensures reserved { self.old.reserved ≡ true → self.new.reserved ≡ true }
    {
        match writer(&self.seats, &self.table, giver) {
            Some(from) => {
                self.table.few_seats();
                let to = seat_for(&mut self.seats, &self.table, taker);
                let only = self.table.number_of_only(objects);
                self.table.hand_over(&self.seats, from, to, objects, only);
            }
            None => self.table.pass_over(&self.seats, giver),
        }
    }

    /// Returns how many records the last `undo`, `settle` or `hand_over` visited: each one of somebody that went or changed
    /// owner or that a hand-over looked at, and each time those beside it among the records of its object and of its owner. Adds
    /// that are passed on the way to the next write are not counted, nor adds of nobody that go. It is 0 before the first.
    pub fn visits(&self) -> usize
        ensures { result ≡ self.now.visits }
    {
        self.table.visits()
    }
}
