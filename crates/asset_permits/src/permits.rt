//! The table of permits by name, and its calls.

use crate::seating::{seat_both, seat_for};
use crate::table::SeatedPermits;
use asset_names::{NoMemory, Ob, ObList, ObSet, Op, Ops, Txn};
use asset_seats::{Seats, Sitter};
use std::alloc::Global;
use std::marker::Model;

/// The permits that stand. Contracts see them as descriptors, none of which stands twice; their order means
/// nothing. Exactly those who give or take something have a seat, by which the table is asked.
pub struct Permits {
    seats: Seats,
    table: SeatedPermits,
}

impl Drop for Permits {
    fn drop(self) {
        let Permits { seats, table } = self;
        drop(seats);
        drop(table);
    }
}

impl Model for Permits {
    ghost use Rattle.std.specs.Prelude.{List};
    ghost use Rattle.asset_permits.specs.Descriptors.{Descriptor};
    ghost use Rattle.asset_permits.specs.Valid.{permits_in, IsTied, IsUsed};

    ghost Value = { List Descriptor };

    ghost view = { λ p. permits_in p.table };

    ghost invariant = { λ p. IsTied p.table p.seats × IsUsed p.table.permits p.seats };
}

impl Permits {
    ghost use Rattle.std.specs.Prelude.{◌≡◌, ℕ, ◌==◌, ◌&&◌, ◌||◌, not, [], OnOk, OnErr, IsOk, true, false};
    ghost use Rattle.asset_names.specs.declared.operations.Op.{Op};
    ghost use Rattle.asset_names.specs.Arrows.{lists};
    ghost use Rattle.asset_names.specs.Sets.{numbers};
    ghost use Rattle.asset_names.specs.declared.sets.ObSet.TheVariants.{Listed};
    ghost use Rattle.asset_names.specs.InSet.{in_set};
    ghost use Rattle.asset_names.specs.OpSets.{has_op};
    ghost use Rattle.asset_permits.specs.Copies.{copies};
    ghost use Rattle.asset_permits.specs.Descriptors.{Descriptor, named_permit, open_permit, same_descriptor, stands, one_covers, opens, allows_by, gives, AreDifferent};

    /// Returns a table without permits. It does not allocate.
    pub fn new(alloc: Global) -> Permits
        ensures { result ≡ [] }
    {
        Permits {
            seats: Seats::new(alloc),
            table: SeatedPermits::new(alloc),
        }
    }

    /// Lets the taker do the operations on the objects, until one of the two is dropped by `drop_all`. A permit
    /// that stands already is not added again. It is looked for among the permits of the giver, or among those for
    /// the taker if there are fewer.
    ///
    /// If memory runs out, nothing changes.
    pub fn add(&mut self, giver: Txn, taker: Txn, objects: ObSet, ops: Ops) -> Result<(), NoMemory>
        ensures stands { OnOk result ((e : Descriptor) → stands self.new e ≡ (stands self.old e || same_descriptor (named_permit giver.0 taker.0 objects ops) e)) }
        ensures covers { OnOk result ((u t x : ℕ) (op : Op) → one_covers self.new u t x op ≡ (one_covers self.old u t x op || (u == giver.0 && t == taker.0 && in_set objects x && has_op ops op))) }
        ensures opens { OnOk result ((u x : ℕ) (op : Op) → opens self.new u x op ≡ opens self.old u x op) }
        ensures unchanged { OnErr result (self.new ≡ self.old) }
        ensures again { stands self.old (named_permit giver.0 taker.0 objects ops) ≡ true → IsOk result × (self.new ≡ self.old) }
    {
        self.table.laws();
        let (from, to) = seat_both(&mut self.seats, &mut self.table, giver, taker)?;
        self.seats.laws();
        let added = self.table.add(&self.seats, from, to, objects, ops);
        self.table.laws();
        self.table.leave_if_unused(&mut self.seats, from.at);
        self.table.leave_if_unused(&mut self.seats, to.at);
        added
    }

    /// Lets anybody do the operations on the objects, until the giver is dropped by `drop_all`. A permit that stands already
    /// is not added again. It is looked for among the permits of the giver, or among those that it takes if there are fewer.
    ///
    /// If memory runs out, nothing changes.
    pub fn add_any(&mut self, giver: Txn, objects: ObList, ops: Ops) -> Result<(), NoMemory>
        ensures stands { OnOk result ((e : Descriptor) → stands self.new e ≡ (stands self.old e || same_descriptor (open_permit giver.0 (Listed objects) ops) e)) }
        ensures covers { OnOk result ((u t x : ℕ) (op : Op) → one_covers self.new u t x op ≡ one_covers self.old u t x op) }
        ensures opens { OnOk result ((u x : ℕ) (op : Op) → opens self.new u x op ≡ (opens self.old u x op || (u == giver.0 && in_set (Listed objects) x && has_op ops op))) }
        ensures unchanged { OnErr result (self.new ≡ self.old) }
        ensures again { stands self.old (open_permit giver.0 (Listed objects) ops) ≡ true → IsOk result × (self.new ≡ self.old) }
    {
        self.table.laws();
        let from = seat_for(&mut self.seats, &mut self.table, giver)?;
        self.seats.laws();
        let added = self.table.add_any(&self.seats, from, objects, ops);
        self.table.laws();
        self.table.leave_if_unused(&mut self.seats, from.at);
        added
    }

    /// Returns whether the giver allows the taker to do `op` on `x`: they are one transaction, or a chain of permits
    /// leads from the one to the other, or from the one to an opener, each of which covers the operation on the object.
    /// No permit changes. It also says, for proofs, that no permit stands twice.
    ///
    /// It searches from the giver, or from the taker if fewer permits are for the taker than the giver gives, and
    /// looks only at the permits of the transactions that it meets. If open permits were given, it may search from the giver
    /// once more. It takes no memory.
    pub fn allows(&mut self, giver: Txn, taker: Txn, x: Ob, op: Op) -> bool
        ensures allowed { result ≡ allows_by self.old giver.0 taker.0 x.0 op }
        ensures different { AreDifferent self.old }
        ensures same { self.new ≡ self.old }
    {
        let _ = &self.table;
        giver == taker || self.leads(giver, taker, x, op)
    }

    /// Returns whether the giver allows the taker, which is another, to do `op` on `x`. No permit changes.
    fn leads(&mut self, giver: Txn, taker: Txn, x: Ob, op: Op) -> bool
        requires { (giver.0 == taker.0) ≡ false }
        ensures leads { result ≡ allows_by self.old giver.0 taker.0 x.0 op }
        ensures same { self.new ≡ self.old }
    {
        let Some(from) = self.seats.seat_of(giver) else {
            return false;
        };
        let giver = Sitter { t: giver, at: from };
        let Some(to) = self.seats.seat_of(taker) else {
            return self.table.reaches_opener(&self.seats, giver, x, op);
        };
        let taker = Sitter { t: taker, at: to };
        self.table.allows(&self.seats, giver, taker, x, op)
    }

    /// Drops the permits that `t` has given, and those that were given to it. It looks at no others.
    pub fn drop_all(&mut self, t: Txn)
        ensures stands { (e : Descriptor) → stands self.new e ≡ (stands self.old e && not (e.giver == t.0) && not (e.taker == t.0)) }
        ensures covers { (u v x : ℕ) (op : Op) → one_covers self.new u v x op ≡ (one_covers self.old u v x op && not (u == t.0) && not (v == t.0)) }
        ensures opens { (u x : ℕ) (op : Op) → opens self.new u x op ≡ (opens self.old u x op && not (u == t.0)) }
    {
        let Some(at) = self.seats.seat_of(t) else {
            return;
        };
        self.table.drop_and_leave(&mut self.seats, Sitter { t, at });
    }

    /// Gives the receiver a copy of each permit that the giver gives on one of the objects, cut to that object. The copy of an
    /// open permit is open. A copy that stands already is not added again, and the giver keeps its permits.
    ///
    /// If memory runs out, no permit has changed. It looks at the giver's permits once for each of the objects.
    pub fn copy_for(&mut self, giver: Txn, receiver: Txn, moved: &[Ob]) -> Result<(), NoMemory>
        ensures stands { OnOk result ((e : Descriptor) → stands self.new e ≡ (stands self.old e || stands (copies giver.0 receiver.0 self.old moved.now) e)) }
        ensures covers { OnOk result ((u t x : ℕ) (op : Op) → one_covers self.new u t x op ≡ (one_covers self.old u t x op || (u == receiver.0 && lists (numbers moved.now) x && one_covers self.old giver.0 t x op))) }
        ensures opens { OnOk result ((u x : ℕ) (op : Op) → opens self.new u x op ≡ (opens self.old u x op || (u == receiver.0 && lists (numbers moved.now) x && opens self.old giver.0 x op))) }
        ensures unchanged { OnErr result ((e : Descriptor) → stands self.new e ≡ stands self.old e) }
        ensures covered { OnErr result ((u t x : ℕ) (op : Op) → one_covers self.new u t x op ≡ one_covers self.old u t x op) }
        ensures opened { OnErr result ((u x : ℕ) (op : Op) → opens self.new u x op ≡ opens self.old u x op) }
    {
        let Some(from) = self.seats.seat_of(giver) else {
            return Ok(());
        };
        self.table.laws();
        let to = seat_for(&mut self.seats, &mut self.table, receiver)?;
        self.seats.laws();
        let giver = Sitter { t: giver, at: from };
        let copied = self.table.copy_for(&self.seats, giver, to, moved);
        self.table.laws();
        self.table.leave_if_unused(&mut self.seats, to.at);
        copied
    }

    /// Returns whether the transaction gives a permit. The cost is constant.
    pub fn gives(&self, giver: Txn) -> bool
        ensures { result ≡ gives giver.0 self.now }
    {
        match self.seats.seat_of(giver) {
            Some(at) => self.table.gives(&self.seats, Sitter { t: giver, at }),
            None => false,
        }
    }
}
