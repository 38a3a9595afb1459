//! Writes and adds: the steps that change an object.

ghost use Rattle.std.specs.Prelude.{◌≡◌, ℕ, ◌<◌, true, Some, length};
ghost use Rattle.asset_names.specs.Numbered.{number_in};
ghost use Rattle.asset_objects.specs.Cells.{cells, updated, change_at};
ghost use Rattle.asset_objects.specs.Placed.{objects_in, IsTied};
ghost use Rattle.asset_seats.specs.Seated.{HasSeat};
ghost use Rattle.asset_ends.specs.Updates.{op_of, effect_of};

use crate::tables::Tables;
use asset_names::{NoMemory, Ob, Op, Txn};
use asset_objects::SeatedObjects;
use asset_seats::{Seats, Sitter};

/// What a step does to the object that it changes.
#[derive(Clone, Copy)]
pub enum Update {
    /// Writes a value.
    Write,
    /// Adds an amount; the sum wraps to 64 bits.
    Add,
}

impl Update {
    /// Returns the operation that it is.
    #[tactic(auto, unfolding(crate::specs::Updates::op_of))]
    pub fn op(self) -> Op
        ensures { result ≡ op_of self }
    {
        match self {
            Update::Write => Op::Write,
            Update::Add => Op::Add,
        }
    }
}

/// Changes the object of this number with the memory that is reserved.
#[inline(always)]
#[tactic(auto, unfolding(crate::specs::Updates::effect_of))]
fn change(
    objects: &mut SeatedObjects,
    seats: &Seats,
    one: Sitter,
    number: usize,
    update: Update,
    v: i64,
)
    requires tied { IsTied objects.old seats.now }
    requires sits { HasSeat seats.now one }
    requires exists { number < length objects.old.objects }
    requires reserved { objects.old.reserved ≡ true }
    ensures tied { IsTied objects.new seats.now }
    ensures cells { (x : ℕ) → number_in objects.old.objects x ≡ Some number → cells (objects_in objects.new) ≡ change_at x (updated (Some one.t.0) (effect_of update v)) (cells (objects_in objects.old)) }
    ensures objects { objects.new.objects ≡ objects.old.objects }
{
    match update {
        Update::Write => objects.write(seats, one, number, v),
        Update::Add => objects.add(seats, one, number, v),
    }
}

impl Tables {
    ghost use Rattle.std.specs.Prelude.{◌≡◌, cond, true, false, Some, OnOk, OnErr, IfOk, IsErr};
    ghost use Rattle.asset_names.specs.declared.steps.Step.{Step};
    ghost use Rattle.asset_names.specs.declared.operations.Op.{Op as Operation};
    ghost use Rattle.asset_names.specs.declared.statuses.Status.{Status};
    ghost use Rattle.asset_objects.specs.Cells.{cells, number_of, has_object, change_at, updated};
    ghost use Rattle.asset_locks.specs.Valid.{after_ask};
    ghost use Rattle.asset_trans.specs.TransRows.{status_in, seat_in};
    ghost use Rattle.asset_ends.specs.Shown.{ShowsWithIf};
    ghost use Rattle.asset_ends.specs.Standing.{is_free_for, SameView};
    ghost use Rattle.asset_ends.specs.Updates.{step_of, op_of, effect_of};

    /// Writes an object for a transaction that runs, which holds it by a write from then on. If the object is not free,
    /// the answer is false, and the request is pending. That does not fail; if memory runs out for the lock or for the
    /// record, nothing that any call shows has changed.
    #[tactic(auto, unfolding(crate::specs::Updates::step_of, crate::specs::Updates::op_of))]
    pub fn write(&mut self, t: Txn, x: Ob, v: i64) -> Result<bool, NoMemory>
        requires runs { status_in self.old.trans t.0 ≡ Status.Running }
        requires exists { has_object (cells self.old.objects) x.0 ≡ true }
        ensures answer { IfOk result (λ written. written ≡ is_free_for self.old t.0 x.0 Operation.Write) }
        ensures stand { OnOk result (ShowsWithIf self.old (is_free_for self.old t.0 x.0 Operation.Write) (Step.Write t x v) self.new) }
        ensures locks { OnOk result (self.new.locks ≡ after_ask (is_free_for self.old t.0 x.0 Operation.Write) t.0 x Operation.Write self.old.locks) }
        ensures memory { IsErr result → is_free_for self.old t.0 x.0 Operation.Write ≡ true }
        ensures unchanged { OnErr result (SameView self.new self.old) }
    {
        let (_, one) = self.find(t);
        let number = self.number(x).unwrap();
        self.update_at(one, number, x, Update::Write, v)
    }

    /// Adds the amount to an object for a transaction that runs, which holds it by an add from then on; the sum wraps to 64
    /// bits. If the object is not free, the answer is false, and the request is pending. That does not fail; if memory runs out
    /// for the lock or for the record, nothing that any call shows has changed.
    #[tactic(auto, unfolding(crate::specs::Updates::step_of, crate::specs::Updates::op_of))]
    pub fn add(&mut self, t: Txn, x: Ob, d: i64) -> Result<bool, NoMemory>
        requires runs { status_in self.old.trans t.0 ≡ Status.Running }
        requires exists { has_object (cells self.old.objects) x.0 ≡ true }
        ensures answer { IfOk result (λ added. added ≡ is_free_for self.old t.0 x.0 Operation.Add) }
        ensures stand { OnOk result (ShowsWithIf self.old (is_free_for self.old t.0 x.0 Operation.Add) (Step.Add t x d) self.new) }
        ensures locks { OnOk result (self.new.locks ≡ after_ask (is_free_for self.old t.0 x.0 Operation.Add) t.0 x Operation.Add self.old.locks) }
        ensures memory { IsErr result → is_free_for self.old t.0 x.0 Operation.Add ≡ true }
        ensures unchanged { OnErr result (SameView self.new self.old) }
    {
        let (_, one) = self.find(t);
        let number = self.number(x).unwrap();
        self.update_at(one, number, x, Update::Add, d)
    }

    /// Does what `write` or `add` does, for a transaction whose seat is found and an object whose number is. The transaction runs,
    /// and the seat is that of its row. If memory runs out for the lock or for the record of an update that is granted, the answer is
    /// `NoMemory`, and nothing that any call shows has changed.
    #[inline(always)]
    pub fn update_at(
        &mut self,
        one: Sitter,
        number: usize,
        x: Ob,
        update: Update,
        v: i64,
    ) -> Result<bool, NoMemory>
        requires runs { status_in self.old.trans one.t.0 ≡ Status.Running }
        requires seat { one.at ≡ seat_in self.old.trans one.t.0 }
        requires number { number_of self.old.objects x.0 ≡ Some number }
        ensures answer { IfOk result (λ updated. updated ≡ is_free_for self.old one.t.0 x.0 (op_of update)) }
        ensures stand { OnOk result (ShowsWithIf self.old (is_free_for self.old one.t.0 x.0 (op_of update)) (step_of update one.t x v) self.new) }
        ensures locks { OnOk result (self.new.locks ≡ after_ask (is_free_for self.old one.t.0 x.0 (op_of update)) one.t.0 x (op_of update) self.old.locks) }
        ensures memory { IsErr result → is_free_for self.old one.t.0 x.0 (op_of update) ≡ true }
        ensures unchanged { OnErr result (SameView self.new self.old) }
    {
        match self.parts.objects.reserve_write() {
            Ok(()) => self.update_reserved(one, number, x, update, v),
            Err(fault) => self.wait_unless_free(one, number, x, update.op(), fault),
        }
    }

    /// Changes an object with the memory for the record, which is reserved. If the object is not free, the request is
    /// pending. If memory runs out for the lock, nothing changes.
    fn update_reserved(
        &mut self,
        one: Sitter,
        number: usize,
        x: Ob,
        update: Update,
        v: i64,
    ) -> Result<bool, NoMemory>
        requires runs { status_in self.old.trans one.t.0 ≡ Status.Running }
        requires seat { one.at ≡ seat_in self.old.trans one.t.0 }
        requires number { number_of self.old.objects x.0 ≡ Some number }
        requires reserved { self.old.objects.reserved ≡ true }
        ensures answer { IfOk result (λ updated. updated ≡ is_free_for self.old one.t.0 x.0 (op_of update)) }
        ensures rows { self.new.trans ≡ self.old.trans }
        ensures permits { self.new.permits ≡ self.old.permits }
        ensures deps { self.new.deps ≡ self.old.deps }
        ensures objects { OnOk result (cells self.new.objects ≡ cond (is_free_for self.old one.t.0 x.0 (op_of update)) (change_at x.0 (updated (Some one.t.0) (effect_of update v)) (cells self.old.objects)) (cells self.old.objects)) }
        ensures locks { OnOk result (self.new.locks ≡ after_ask (is_free_for self.old one.t.0 x.0 (op_of update)) one.t.0 x (op_of update) self.old.locks) }
        ensures memory { IsErr result → is_free_for self.old one.t.0 x.0 (op_of update) ≡ true }
        ensures unchanged { OnErr result (self.new ≡ self.old) }
    {
        if self.hold(one, number, x, update.op())? {
            let parts = &mut self.parts;
            change(&mut parts.objects, &parts.seats, one, number, update, v);
            Ok(true)
        } else {
            Ok(false)
        }
    }

    /// Makes a request pending if its object is not free, and answers the fault if it is, when there is no memory for its
    /// record.
    fn wait_unless_free(
        &mut self,
        one: Sitter,
        number: usize,
        x: Ob,
        op: Op,
        fault: NoMemory,
    ) -> Result<bool, NoMemory>
        requires runs { status_in self.old.trans one.t.0 ≡ Status.Running }
        requires seat { one.at ≡ seat_in self.old.trans one.t.0 }
        requires number { number_of self.old.objects x.0 ≡ Some number }
        ensures answer { IfOk result (λ updated. updated ≡ is_free_for self.old one.t.0 x.0 op) }
        ensures blocked { OnOk result (is_free_for self.old one.t.0 x.0 op ≡ false) }
        ensures rows { self.new.trans ≡ self.old.trans }
        ensures permits { self.new.permits ≡ self.old.permits }
        ensures deps { self.new.deps ≡ self.old.deps }
        ensures objects { self.new.objects ≡ self.old.objects }
        ensures locks { OnOk result (self.new.locks ≡ after_ask (is_free_for self.old one.t.0 x.0 op) one.t.0 x op self.old.locks) }
        ensures memory { IsErr result → is_free_for self.old one.t.0 x.0 op ≡ true }
        ensures unchanged { OnErr result (self.new ≡ self.old) }
    {
        if self.is_free(one.t, x, op) {
            return Err(fault);
        }
        self.hold(one, number, x, op)
    }
}
