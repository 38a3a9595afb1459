//! The steps of transactions that go on.

use crate::seating::make_room;
use crate::tables::Tables;
use asset_locks::Asked;
use asset_names::{NoMemory, Ob, ObList, ObSet, Op, Ops, Txn};
use asset_seats::Sitter;

impl Tables {
    ghost use Rattle.std.specs.Prelude.{◌≡◌, cond, is_some, true, false, None, Some, OnOk, OnErr, IfOk, IsErr};
    ghost use Rattle.asset_names.specs.declared.steps.Step.{Step};
    ghost use Rattle.asset_names.specs.declared.operations.Op.{Op as Operation};
    ghost use Rattle.asset_names.specs.declared.statuses.Status.{Status};
    ghost use Rattle.asset_names.specs.Endings.{is_live_status};
    ghost use Rattle.asset_objects.specs.Cells.{cells, number_of, has_object, value_in};
    ghost use Rattle.asset_locks.specs.LockTable.{enrol_in, enrolled_in};
    ghost use Rattle.asset_locks.specs.Valid.{after_ask};
    ghost use Rattle.asset_trans.specs.TransRows.{status_in, seat_in};
    ghost use Rattle.asset_ends.specs.Shown.{ShowsOrderly, ShowsWith, ShowsWithIf};
    ghost use Rattle.asset_ends.specs.Standing.{is_free_for, SameView};

    /// Initiates a transaction that never was, which has a seat from then on until it ends. If memory runs out, nothing that
    /// any call shows has changed.
    pub fn initiate(&mut self, t: Txn, parent: Option<Txn>) -> Result<(), NoMemory>
        requires new { status_in self.old.trans t.0 ≡ Status.Unknown }
        ensures stand { OnOk result (ShowsOrderly self.old (Step.Initiate t parent) self.new) }
        ensures locks { OnOk result (self.new.locks ≡ enrol_in t.0 self.old.locks) }
        ensures unchanged { OnErr result (SameView self.new self.old) }
    {
        let seat = make_room(
            &mut self.parts.seats,
            &mut self.parts.objects,
            &mut self.parts.locks,
            &mut self.parts.permits,
            &mut self.parts.deps,
        )?;
        self.parts.trans.initiate_at(t, parent, seat)?;
        self.parts.locks.laws(&self.parts.seats);
        self.parts.objects.may_sit(&self.parts.seats);
        let at = self.parts.seats.sit(t);
        self.parts.locks.enrol(&self.parts.seats, Sitter { t, at });
        Ok(())
    }

    /// Starts a transaction that was initiated and has not begun.
    pub fn begin(&mut self, t: Txn)
        requires initiated { status_in self.old.trans t.0 ≡ Status.Initiated }
        ensures stand { ShowsWith self.old (Step.Begin t) self.new }
        ensures locks { self.new.locks ≡ self.old.locks }
    {
        self.parts.trans.begin(t);
    }

    /// Asks the locks for an object, whose number is given, for a transaction that runs and has this seat: returns whether it
    /// holds the object by the operation from then on. If the object is not free, the request is pending, which takes no memory.
    /// If memory runs out for the lock, nothing changes.
    #[inline(always)]
    pub(crate) fn hold(
        &mut self,
        one: Sitter,
        number: usize,
        x: Ob,
        op: Op,
    ) -> Result<bool, NoMemory>
        requires runs { status_in self.old.trans one.t.0 ≡ Status.Running }
        requires seat { one.at ≡ seat_in self.old.trans one.t.0 }
        requires number { number_of self.old.objects x.0 ≡ Some number }
        ensures enrolled { is_some (enrolled_in self.old.locks one.t.0) ≡ true }
        ensures granted { IfOk result (λ granted. granted ≡ is_free_for self.old one.t.0 x.0 op) }
        ensures rows { self.new.trans ≡ self.old.trans }
        ensures objects { self.new.objects ≡ self.old.objects }
        ensures permits { self.new.permits ≡ self.old.permits }
        ensures deps { self.new.deps ≡ self.old.deps }
        ensures locks { OnOk result (self.new.locks ≡ after_ask (is_free_for self.old one.t.0 x.0 op) one.t.0 x op self.old.locks) }
        ensures memory { IsErr result → is_free_for self.old one.t.0 x.0 op ≡ true }
        ensures unchanged { OnErr result (self.new ≡ self.old) }
    {
        let parts = &mut self.parts;
        match parts
            .locks
            .ask(&parts.seats, one, number, x, op, &mut parts.permits)?
        {
            Asked::Granted => Ok(true),
            Asked::Pending => Ok(false),
        }
    }

    /// Reads an object, which exists, for a transaction that runs, which holds it by a read from then on. If the object is not
    /// free, the answer is `None`, and the request is pending. That takes no memory; if memory runs out for the lock, nothing
    /// changes.
    pub fn read(&mut self, t: Txn, x: Ob) -> Result<Option<i64>, NoMemory>
        requires runs { status_in self.old.trans t.0 ≡ Status.Running }
        requires exists { has_object (cells self.old.objects) x.0 ≡ true }
        ensures answer { IfOk result (λ read. read ≡ cond (is_free_for self.old t.0 x.0 Operation.Read) (value_in (cells self.old.objects) x.0) None) }
        ensures stand { OnOk result (ShowsWithIf self.old (is_free_for self.old t.0 x.0 Operation.Read) (Step.Read t x) self.new) }
        ensures locks { OnOk result (self.new.locks ≡ after_ask (is_free_for self.old t.0 x.0 Operation.Read) t.0 x Operation.Read self.old.locks) }
        ensures memory { IsErr result → is_free_for self.old t.0 x.0 Operation.Read ≡ true }
        ensures unchanged { OnErr result (SameView self.new self.old) }
    {
        let (_, one) = self.find(t);
        let number = self.number(x).unwrap();
        self.read_at(one, number, x)
    }

    /// Does what `read` does, for a transaction whose seat is found and an object whose number is. The transaction runs, and the
    /// seat is that of its row. If memory runs out for the lock, the answer is `NoMemory`, and nothing changes.
    #[inline(always)]
    pub fn read_at(&mut self, one: Sitter, number: usize, x: Ob) -> Result<Option<i64>, NoMemory>
        requires runs { status_in self.old.trans one.t.0 ≡ Status.Running }
        requires seat { one.at ≡ seat_in self.old.trans one.t.0 }
        requires number { number_of self.old.objects x.0 ≡ Some number }
        ensures answer { IfOk result (λ read. read ≡ cond (is_free_for self.old one.t.0 x.0 Operation.Read) (value_in (cells self.old.objects) x.0) None) }
        ensures stand { OnOk result (ShowsWithIf self.old (is_free_for self.old one.t.0 x.0 Operation.Read) (Step.Read one.t x) self.new) }
        ensures locks { OnOk result (self.new.locks ≡ after_ask (is_free_for self.old one.t.0 x.0 Operation.Read) one.t.0 x Operation.Read self.old.locks) }
        ensures memory { IsErr result → is_free_for self.old one.t.0 x.0 Operation.Read ≡ true }
        ensures unchanged { OnErr result (SameView self.new self.old) }
    {
        if !self.hold(one, number, x, Op::Read)? {
            return Ok(None);
        }
        Ok(Some(self.parts.objects.value_at(number)))
    }

    /// Completes a transaction that runs.
    pub fn complete(&mut self, t: Txn)
        requires runs { status_in self.old.trans t.0 ≡ Status.Running }
        ensures stand { ShowsWith self.old (Step.Complete t) self.new }
        ensures locks { self.new.locks ≡ self.old.locks }
    {
        self.parts.trans.complete(t);
    }

    /// Lets the taker do the operations on the objects although they conflict with the giver's. Both are live. If memory
    /// runs out, nothing changes.
    pub fn permit(&mut self, giver: Txn, taker: Txn, obs: ObSet, ops: Ops) -> Result<(), NoMemory>
        requires giver { is_live_status (status_in self.old.trans giver.0) ≡ true }
        requires taker { is_live_status (status_in self.old.trans taker.0) ≡ true }
        ensures stand { OnOk result (ShowsWith self.old (Step.Permit giver taker obs ops) self.new) }
        ensures locks { self.new.locks ≡ self.old.locks }
        ensures unchanged { OnErr result (SameView self.new self.old) }
    {
        let (_, from) = self.find(giver);
        let (_, to) = self.find(taker);
        self.permit_at(from, to, obs, ops)
    }

    /// Does what `permit` does, for transactions whose seats are found. Both are live, and the seats are those of their rows.
    /// If memory runs out, the answer is `NoMemory`, and nothing changes.
    #[inline(always)]
    pub fn permit_at(
        &mut self,
        from: Sitter,
        to: Sitter,
        obs: ObSet,
        ops: Ops,
    ) -> Result<(), NoMemory>
        requires giver { is_live_status (status_in self.old.trans from.t.0) ≡ true }
        requires taker { is_live_status (status_in self.old.trans to.t.0) ≡ true }
        requires giver_seat { from.at ≡ seat_in self.old.trans from.t.0 }
        requires taker_seat { to.at ≡ seat_in self.old.trans to.t.0 }
        ensures stand { OnOk result (ShowsWith self.old (Step.Permit from.t to.t obs ops) self.new) }
        ensures locks { self.new.locks ≡ self.old.locks }
        ensures unchanged { OnErr result (SameView self.new self.old) }
    {
        self.parts
            .permits
            .add(&self.parts.seats, from, to, obs, ops)
    }

    /// Lets anybody do the operations on the objects although they conflict with the giver's. The giver is live. If memory
    /// runs out, nothing changes.
    pub fn permit_any(&mut self, giver: Txn, obs: ObList, ops: Ops) -> Result<(), NoMemory>
        requires giver { is_live_status (status_in self.old.trans giver.0) ≡ true }
        ensures stand { OnOk result (ShowsWith self.old (Step.PermitAny giver obs ops) self.new) }
        ensures locks { self.new.locks ≡ self.old.locks }
        ensures unchanged { OnErr result (SameView self.new self.old) }
    {
        let (_, from) = self.find(giver);
        self.permit_any_at(from, obs, ops)
    }

    /// Does what `permit_any` does, for a transaction whose seat is found. It is live, and the seat is that of its row. If
    /// memory runs out, the answer is `NoMemory`, and nothing changes.
    pub fn permit_any_at(&mut self, from: Sitter, obs: ObList, ops: Ops) -> Result<(), NoMemory>
        requires giver { is_live_status (status_in self.old.trans from.t.0) ≡ true }
        requires seat { from.at ≡ seat_in self.old.trans from.t.0 }
        ensures stand { OnOk result (ShowsWith self.old (Step.PermitAny from.t obs ops) self.new) }
        ensures locks { self.new.locks ≡ self.old.locks }
        ensures unchanged { OnErr result (SameView self.new self.old) }
    {
        self.parts
            .permits
            .add_any(&self.parts.seats, from, obs, ops)
    }
}
