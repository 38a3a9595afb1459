//! The table of objects by seat, and its calls.

use crate::placed::{Placed, place_all};
use crate::{ending, handing};
use asset_names::{NoMemory, Ob, ObSet, Txn, least_double};
use asset_records::Change;
use asset_seats::{Seats, Sitter};
use std::alloc::Global;
use std::marker::Model;
use thiserror::Error;

/// The objects with their values, and an update record of each write and add that may still be undone, asked by seat. The seats
/// are kept elsewhere: each call about a transaction takes them, and requires that the table is tied to them. `objects_in` says
/// which objects are shown: each as its base and the updates that stand over it, newest first. Its value is the base with the
/// updates in order.
pub struct SeatedObjects {
    placed: Placed,
    reserved: bool,
    visits: usize,
}

impl Drop for SeatedObjects {
    fn drop(self) {
        let SeatedObjects {
            placed,
            reserved: _,
            visits: _,
        } = self;
        drop(placed);
    }
}

impl Model for SeatedObjects {
    ghost use Rattle.asset_objects.specs.Placed.{ObjectParts, IsPlaced};

    ghost Value = { ObjectParts };

    ghost view = { λ o. record { objects = o.placed.objects.keys; values = o.placed.values.items; records = o.placed.records; reserved = o.reserved; visits = o.visits } };

    ghost invariant = { λ o. IsPlaced (record { objects = o.placed.objects.keys; values = o.placed.values.items; records = o.placed.records; reserved = o.reserved; visits = o.visits }) };
}

/// Why a table was not opened.
#[derive(Clone, Copy, Debug, PartialEq, Eq, Error)]
pub enum ObjectsFault {
    /// An object was given twice; this is the least such object.
    #[error("object {} was given twice", .0.0)]
    DoubleObject(Ob),
    /// Memory ran out.
    #[error("no memory")]
    NoMemory,
}

impl SeatedObjects {
    ghost use Rattle.std.specs.Prelude.{◌≡◌, ℕ, ℤ, ◌==◌, ◌<◌, ◌≤◌, ◌+◌, ◌*◌, Bool, true, false, cond, None, Some, is_some, is_none, length, map, IfOk, IfErr, IsOk, OnOk, OnErr};
    ghost use Rattle.slab.specs.Slab.{slab_len};
    ghost use Rattle.asset_chains.specs.Chained.{chain_of, first_of};
    ghost use Rattle.asset_names.specs.declared.names.Txn.{Txn as Name};
    ghost use Rattle.asset_names.specs.declared.names.Ob.{Ob as Object};
    ghost use Rattle.asset_names.specs.declared.statuses.End.{End};
    ghost use Rattle.asset_names.specs.Steps.{Opening, objects_of};
    ghost use Rattle.asset_names.specs.Sets.{HasNoDouble};
    ghost use Rattle.asset_names.specs.InSet.{in_set, only_in};
    ghost use Rattle.asset_names.specs.Numbered.{number_in};
    ghost use Rattle.asset_seats.specs.Seated.{Seated, seat, HasSeat};
    ghost use Rattle.asset_records.specs.Listed.{lists_in, seat_column, HasNone, IsNoMore};
    ghost use Rattle.asset_objects.specs.Cells.{Cell, cells, opened, value_in, has_object, has_update, written, increased, ended, undone, settled, handed_cell, change_at, change_each, change_where, updates_by, standing};
    ghost use Rattle.asset_objects.specs.Placed.{objects_in, IsOpened, IsTied, HasRoom};
    ghost use Rattle.asset_objects.specs.Faults.{IsObjectsFault};

    /// Returns the objects at their opening values, in the order of the opening, with no update yet.
    ///
    /// It answers `DoubleObject` with the least object that is given twice; otherwise `NoMemory` if memory runs out.
    pub fn open(alloc: Global, opening: &[(Ob, i64)]) -> Result<SeatedObjects, ObjectsFault>
        ensures opened { IfOk result (λ objects. cells (objects_in objects) ≡ opened opening.now) }
        ensures visits { IfOk result (λ objects. objects.visits ≡ 0) }
        ensures tied { IfOk result (λ objects. (seats : Seated) → ((c : ℕ) → seat seats c ≡ None) → IsTied objects seats) }
        ensures empty { IfOk result (λ objects. (objects.reserved ≡ false) × (slab_len objects.records.items ≡ 0)) }
        ensures order { IfOk result (λ objects. objects.objects ≡ map (λ (pair : Object × ℤ). pair.0) opening.now) }
        ensures different { OnOk result (HasNoDouble (objects_of opening.now)) }
        ensures fault { IfErr result (λ fault. IsObjectsFault opening.now fault) }
    {
        match place_all(alloc, opening) {
            Some(placed) => Ok(SeatedObjects::over(placed)),
            None => Err(fault_of(opening)),
        }
    }

    /// Returns the objects at their opening values, in the order of the opening, with no update yet, for a caller who knows that none is given
    /// twice. If memory runs out, it answers at once, while `open` first compares each pair of objects.
    pub fn open_distinct(alloc: Global, opening: &[(Ob, i64)]) -> Result<SeatedObjects, NoMemory>
        requires distinct { HasNoDouble (objects_of opening.now) }
        ensures opened { IfOk result (λ objects. cells (objects_in objects) ≡ opened opening.now) }
        ensures visits { IfOk result (λ objects. objects.visits ≡ 0) }
        ensures tied { IfOk result (λ objects. (seats : Seated) → ((c : ℕ) → seat seats c ≡ None) → IsTied objects seats) }
        ensures empty { IfOk result (λ objects. (objects.reserved ≡ false) × (slab_len objects.records.items ≡ 0)) }
        ensures order { IfOk result (λ objects. objects.objects ≡ map (λ (pair : Object × ℤ). pair.0) opening.now) }
    {
        let Some(placed) = place_all(alloc, opening) else {
            return Err(NoMemory);
        };
        Ok(SeatedObjects::over(placed))
    }

    /// Returns the table of these objects, of which none has a record.
    fn over(placed: Placed) -> SeatedObjects
        requires values { length placed.values.items ≡ length placed.objects.keys }
        requires lists { length (lists_in placed.records) ≡ length placed.objects.keys }
        ensures cells { (opening : Opening) → IsOpened opening placed.objects.keys placed.values.items (lists_in placed.records) → cells (objects_in result) ≡ opened opening }
        ensures objects { result.objects ≡ placed.objects.keys }
        ensures records { result.records ≡ placed.records }
        ensures reserved { result.reserved ≡ false }
        ensures visits { result.visits ≡ 0 }
    {
        SeatedObjects {
            placed,
            reserved: false,
            visits: 0,
        }
    }

    /// Makes room for the updates of the one who is given the seat. If memory runs out, nothing that callers see changes.
    pub fn make_room(&mut self, c: usize) -> Result<(), NoMemory>
        ensures room { OnOk result (HasRoom self.new c) }
        ensures shown { objects_in self.new ≡ objects_in self.old }
        ensures objects { self.new.objects ≡ self.old.objects }
        ensures few { IsNoMore self.old.records self.new.records }
        ensures tied { (seats : Seated) → IsTied self.old seats → IsTied self.new seats }
    {
        self.placed.records.make_room(c)
    }

    /// Returns the objects, in the order of the opening.
    pub fn objects(&self) -> &[Ob]
        ensures { result.now ≡ self.now.objects }
    {
        self.placed.objects.as_slice()
    }

    /// Returns the number of an object, by which the table is asked: its index in the order of the opening. It is `None` if there
    /// is no such object.
    pub fn number(&self, x: Ob) -> Option<usize>
        ensures number { result ≡ number_in self.now.objects x.0 }
        ensures exists { is_some result ≡ has_object (cells (objects_in self.now)) x.0 }
    {
        self.placed.objects.get_index_of(&x)
    }

    /// Returns the number of the one object that the set lists. It is `None` if the set is not of one object, and if there is no
    /// such object.
    pub fn number_of_only(&self, set: &ObSet) -> Option<usize>
        ensures number { (x : Object) → only_in set.now ≡ Some x → result ≡ number_in self.now.objects x.0 }
        ensures none { only_in set.now ≡ None → result ≡ None }
    {
        self.number(set.only()?)
    }

    /// Returns the value of the object of this number.
    pub fn value_at(&self, number: usize) -> i64
        requires { number < length self.now.objects }
        ensures { (x : ℕ) → number_in self.now.objects x ≡ Some number → value_in (cells (objects_in self.now)) x ≡ Some result }
    {
        self.placed.values[number]
    }

    /// Returns the value of an object, and `None` if there is no such object.
    pub fn value(&self, x: Ob) -> Option<i64>
        ensures value { result ≡ value_in (cells (objects_in self.now)) x.0 }
        ensures exists { is_some result ≡ has_object (cells (objects_in self.now)) x.0 }
    {
        let number = self.number(x)?;
        Some(self.value_at(number))
    }

    /// Reserves the memory for one more write or add. The reservation stands until then.
    ///
    /// If memory runs out, nothing that callers see changes. A reservation that stands already is answered Ok.
    #[inline(always)]
    pub fn reserve_write(&mut self) -> Result<(), NoMemory>
        ensures cells { cells (objects_in self.new) ≡ cells (objects_in self.old) }
        ensures reserved { OnOk result (self.new.reserved ≡ true) }
        ensures standing { self.old.reserved ≡ true → IsOk result }
        ensures unchanged { OnErr result (objects_in self.new ≡ objects_in self.old) }
        ensures visits { self.new.visits ≡ self.old.visits }
        ensures objects { self.new.objects ≡ self.old.objects }
        ensures few { IsNoMore self.old.records self.new.records }
        ensures tied { (seats : Seated) → IsTied self.old seats → IsTied self.new seats }
    {
        if !self.reserved {
            self.placed.records.reserve()?;
            self.reserved = true;
        }
        Ok(())
    }

    /// Writes the value to the object of this number. It uses the memory that `reserve_write` reserved. Other
    /// objects do not change.
    pub fn write(&mut self, seats: &Seats, owner: Sitter, number: usize, v: i64)
        requires tied { IsTied self.old seats.now }
        requires sits { HasSeat seats.now owner }
        requires exists { number < length self.old.objects }
        requires reserved { self.old.reserved ≡ true }
        ensures tied { IsTied self.new seats.now }
        ensures cells { (x : ℕ) → number_in self.old.objects x ≡ Some number → cells (objects_in self.new) ≡ change_at x (written owner.t.0 v) (cells (objects_in self.old)) }
        ensures objects { self.new.objects ≡ self.old.objects }
        ensures len { slab_len self.new.records.items ≡ slab_len self.old.records.items + 1 }
        ensures columns { length self.new.records.columns.chains ≡ length self.old.records.columns.chains }
        ensures visits { self.new.visits ≡ self.old.visits }
        ensures reserved { self.new.reserved ≡ false }
    {
        let before = self.placed.values[number];
        self.placed.values[number] = v;
        let change = Change::Wrote { before };
        self.placed.records.push(seats, owner, number, change);
        self.reserved = false;
    }

    /// Adds the amount to the object of this number: its value is the sum, which wraps to 64 bits. It uses the memory that
    /// `reserve_write` reserved. Other objects do not change.
    pub fn add(&mut self, seats: &Seats, owner: Sitter, number: usize, amount: i64)
        requires tied { IsTied self.old seats.now }
        requires sits { HasSeat seats.now owner }
        requires exists { number < length self.old.objects }
        requires reserved { self.old.reserved ≡ true }
        ensures tied { IsTied self.new seats.now }
        ensures cells { (x : ℕ) → number_in self.old.objects x ≡ Some number → cells (objects_in self.new) ≡ change_at x (increased owner.t.0 amount) (cells (objects_in self.old)) }
        ensures objects { self.new.objects ≡ self.old.objects }
        ensures len { slab_len self.new.records.items ≡ slab_len self.old.records.items + 1 }
        ensures columns { length self.new.records.columns.chains ≡ length self.old.records.columns.chains }
        ensures visits { self.new.visits ≡ self.old.visits }
        ensures reserved { self.new.reserved ≡ false }
    {
        let before = self.placed.values[number];
        self.placed.values[number] = before.wrapping_add(amount);
        let change = Change::Added { amount };
        self.placed.records.push(seats, owner, number, change);
        self.reserved = false;
    }

    /// Takes back the updates of the transaction: each object is as it would be without them. It touches the records of the
    /// transaction and those beside them, and looks at the adds over them. The transaction may leave its seat then.
    pub fn undo(&mut self, seats: &Seats, t: Sitter)
        requires tied { IsTied self.old seats.now }
        requires sits { HasSeat seats.now t }
        ensures tied { IsTied self.new seats.now }
        ensures leaves { (left : Seated) → ((c : ℕ) → seat left c ≡ cond (c == t.at) None (seat seats.now c)) → IsTied self.new left }
        ensures cells { cells (objects_in self.new) ≡ change_each (undone (λ n. n == t.t.0)) (cells (objects_in self.old)) }
        ensures visits { self.new.visits ≤ 4 * updates_by (λ n. n == t.t.0) (objects_in self.old).rows }
        ensures reserved { self.new.reserved ≡ self.old.reserved }
        ensures objects { self.new.objects ≡ self.old.objects }
        ensures few { IsNoMore self.old.records self.new.records }
    {
        let placed = &mut self.placed;
        self.visits = ending::undo(&mut placed.values, &mut placed.records, seats, t);
        self.placed.records.may_leave(seats, t);
    }

    /// Makes the updates of the transaction final: on each object the newest write becomes the base, and its record is dropped
    /// together with all before it; an add after it becomes part of the base, or an update of nobody over a write that may still
    /// go. It touches the records of the transaction and those beside them. The transaction may leave its seat then.
    pub fn settle(&mut self, seats: &Seats, t: Sitter)
        requires tied { IsTied self.old seats.now }
        requires sits { HasSeat seats.now t }
        ensures tied { IsTied self.new seats.now }
        ensures leaves { (left : Seated) → ((c : ℕ) → seat left c ≡ cond (c == t.at) None (seat seats.now c)) → IsTied self.new left }
        ensures cells { cells (objects_in self.new) ≡ change_each (settled (λ n. n == t.t.0)) (cells (objects_in self.old)) }
        ensures visits { self.new.visits + 4 * standing (objects_in self.new).rows ≤ 4 * standing (objects_in self.old).rows }
        ensures reserved { self.new.reserved ≡ self.old.reserved }
        ensures objects { self.new.objects ≡ self.old.objects }
        ensures few { IsNoMore self.old.records self.new.records }
    {
        let placed = &mut self.placed;
        self.visits = ending::settle(&placed.values, &mut placed.records, seats, t);
        self.placed.records.may_leave(seats, t);
    }

    /// Makes the giver's updates on the objects of the set the taker's. No value changes, and nothing else does. Both may be
    /// one, which changes nothing.
    ///
    /// It takes no memory. It looks at the giver's records, and at those beside the ones that change; for a set that lists
    /// one object, whose number is given if it exists, at the records on it if they are fewer.
    pub fn hand_over(
        &mut self,
        seats: &Seats,
        giver: Sitter,
        taker: Sitter,
        objects: &ObSet,
        only: Option<usize>,
    )
        requires tied { IsTied self.old seats.now }
        requires giver { HasSeat seats.now giver }
        requires taker { HasSeat seats.now taker }
        requires only { (x : Object) → only_in objects.now ≡ Some x → only ≡ number_in self.old.objects x.0 }
        ensures tied { IsTied self.new seats.now }
        ensures cells { cells (objects_in self.new) ≡ change_where (in_set objects.now) (handed_cell giver.t.0 taker.t.0) (cells (objects_in self.old)) }
        ensures counted { (taker.t.0 == giver.t.0) ≡ false → (x : ℕ) (cell : Cell) → cells (objects_in self.old) x ≡ Some cell → in_set objects.now x ≡ true → has_update giver.t.0 cell ≡ true → 1 ≤ self.new.visits }
        ensures visits { self.new.visits ≤ 4 * updates_by (λ n. n == giver.t.0) (objects_in self.old).rows }
        ensures reserved { self.new.reserved ≡ self.old.reserved }
        ensures objects { self.new.objects ≡ self.old.objects }
        ensures few { IsNoMore self.old.records self.new.records }
    {
        let placed = &mut self.placed;
        let records = &mut placed.records;
        self.visits = handing::hand_over(
            &placed.objects,
            records,
            seats,
            giver,
            taker,
            objects,
            only,
        );
    }

    /// Passes over a transaction that has no update: an end or a hand-over of it changes nothing, and visits no record.
    pub(crate) fn pass_over(&mut self, seats: &Seats, t: Txn)
        requires tied { IsTied self.old seats.now }
        requires none { (c : ℕ) → seat seats.now c ≡ Some t → first_of (chain_of self.old.records.columns (seat_column c)) ≡ None }
        ensures records { self.new.records ≡ self.old.records }
        ensures undone { cells (objects_in self.new) ≡ change_each (undone (λ n. n == t.0)) (cells (objects_in self.old)) }
        ensures settled { cells (objects_in self.new) ≡ change_each (settled (λ n. n == t.0)) (cells (objects_in self.old)) }
        ensures handed { (test : ℕ → Bool) (taker : ℕ) → cells (objects_in self.new) ≡ change_where test (handed_cell t.0 taker) (cells (objects_in self.old)) }
        ensures standing { standing (objects_in self.new).rows ≡ standing (objects_in self.old).rows }
        ensures nothing { (x : ℕ) (cell : Cell) → cells (objects_in self.old) x ≡ Some cell → has_update t.0 cell ≡ false }
        ensures reserved { self.new.reserved ≡ self.old.reserved }
        ensures visits { self.new.visits ≡ 0 }
    {
        self.placed.records.has_none(seats, t);
        self.visits = 0;
    }

    /// Says that no more transactions have an update than there are records, for proofs. It does nothing.
    pub(crate) fn few_seats(&self)
        ensures some { (c : ℕ) → is_none (first_of (chain_of self.now.records.columns (seat_column c))) ≡ false → 1 ≤ slab_len self.now.records.items }
        ensures few { (n : ℕ) → ((c : ℕ) → c < n → is_none (first_of (chain_of self.now.records.columns (seat_column c))) ≡ false) → n ≤ slab_len self.now.records.items }
    {
        self.placed.records.few_columns();
    }

    /// Says that one who has no update may leave its seat, for proofs. It does nothing.
    pub(crate) fn may_clear(&self, seats: &Seats)
        requires { IsTied self.now seats.now }
        ensures left { (left : Seated) (at : ℕ) → is_none (first_of (chain_of self.now.records.columns (seat_column at))) ≡ true → ((c : ℕ) → seat left c ≡ cond (c == at) None (seat seats.now c)) → IsTied self.now left }
    {
        self.placed.records.may_clear(seats);
    }

    /// Says that a seat that is free and has room may be given, for proofs. It does nothing.
    pub fn may_sit(&self, seats: &Seats)
        requires { IsTied self.now seats.now }
        ensures sits { (given : Seated) (at : ℕ) (t : Name) → seat seats.now at ≡ None → HasRoom self.now at → ((c : ℕ) → seat given c ≡ cond (c == at) (Some t) (seat seats.now c)) → IsTied self.now given }
    {
        self.placed.records.may_sit(seats);
    }

    /// Says that an end of nobody changes nothing, for proofs. It does nothing.
    pub fn laws(&self)
        ensures { (how : End) → change_each (ended how (λ n. false)) (cells (objects_in self.now)) ≡ cells (objects_in self.now) }
    {
        let _ = &self.placed;
    }

    /// Returns how many records the last `undo`, `settle` or `hand_over` visited: each one of somebody that went or changed
    /// owner or that a hand-over looked at, and each time those beside it among the records of its object and of its owner. Adds
    /// that are passed on the way to the next write are not counted, nor adds of nobody that go. It is 0 before the first.
    pub fn visits(&self) -> usize
        ensures { result ≡ self.now.visits }
    {
        self.visits
    }

    /// Returns how many records stand.
    pub(crate) fn len(&self) -> usize
        ensures { result ≡ slab_len self.now.records.items }
    {
        self.placed.records.len()
    }

    /// Returns whether the one who has the seat, if anybody has it, has no update.
    pub(crate) fn is_unused(&self, c: usize) -> bool
        ensures { result ≡ is_none (first_of (chain_of self.now.records.columns (seat_column c))) }
    {
        self.placed.records.is_unused(c)
    }
}

ghost use Rattle.std.specs.Prelude.{◌≡◌};
ghost use Rattle.asset_objects.specs.Faults.{IsObjectsFault};

/// Returns why there is no table of these objects: one is given twice, or else memory ran out. It compares each
/// pair.
fn fault_of(opening: &[(Ob, i64)]) -> ObjectsFault
    ensures { IsObjectsFault opening.now result }
{
    match least_double(opening) {
        Some(x) => ObjectsFault::DoubleObject(x),
        None => ObjectsFault::NoMemory,
    }
}
