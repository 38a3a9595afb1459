//! The table of permits by seat, and its calls.

use crate::allowers::{Question, mark_allowers};
use crate::dropping::drop_along;
use crate::finding::find;
use crate::permit::{Permit, Sought};
use crate::search::{Covered, Search};
use crate::seating::leave_if_unused;
use asset_chains::{Crossed, Side};
use asset_marks::{Marks, is_linked};
use asset_names::{NoMemory, Ob, ObSet, Op, Ops};
use asset_seats::{Seats, Sitter, add_lines, reserve_item};
use std::alloc::Global;
use std::marker::Model;

/// The permits that stand, asked by seat. Each permit is in the row of its giver's seat and in the column of its taker's,
/// and the seats are kept elsewhere: each call about a transaction takes them, and requires that the table is tied to them.
/// None stands twice; their order means nothing.
///
/// `marked` is the question that the marks answer, if they answer one. It is `None` once a permit changes, room is made, or
/// another search has used the marks. `may_open` is set once an open permit comes; until then nobody looks for one.
pub struct SeatedPermits {
    pub(crate) permits: Crossed<Permit>,
    pub(crate) marks: Marks,
    pub(crate) marked: Option<Question>,
    pub(crate) may_open: bool,
    pub(crate) alloc: Global,
}

impl Drop for SeatedPermits {
    fn drop(self) {
        let SeatedPermits {
            permits,
            marks,
            marked: _,
            may_open: _,
            alloc: _,
        } = self;
        drop(permits);
        drop(marks);
    }
}

impl Model for SeatedPermits {
    ghost use Rattle.asset_permits.specs.Valid.{PermitTable};
    ghost use Rattle.asset_permits.specs.Marked.{HasMarked};
    ghost use Rattle.asset_permits.specs.Stored.{AreNoted};

    ghost Value = { PermitTable };

    ghost view = { λ p. record { permits = p.permits; size = p.marks.size } };

    ghost invariant = { λ p. HasMarked p.permits p.marks.nodes p.marked × AreNoted p.may_open p.permits };
}

impl SeatedPermits {
    ghost use Rattle.std.specs.Prelude.{◌≡◌, ℕ, ◌==◌, ◌&&◌, ◌||◌, not, cond, [], None, OnOk, OnErr, IsOk, true, false};
    ghost use Rattle.asset_names.specs.declared.operations.Op.{Op};
    ghost use Rattle.asset_names.specs.InSet.{in_set};
    ghost use Rattle.asset_names.specs.OpSets.{has_op};
    ghost use Rattle.asset_chains.specs.Crossed.{IsCrossed};
    ghost use Rattle.asset_seats.specs.Seated.{Seated, seat, HasSeat};
    ghost use Rattle.asset_permits.specs.Stored.{asked, HaveSeats, IsOwn};
    ghost use Rattle.asset_permits.specs.Valid.{permits_in, used_in, IsTied, IsUsed, HasRoom};
    ghost use Rattle.asset_permits.specs.Descriptors.{Descriptor, named_permit, same_descriptor, stands, lets, lets_all, one_covers, opens, leads_by, reaches_opener, allows_by, AreDifferent};

    /// Returns a table without permits. It does not allocate.
    pub fn new(alloc: Global) -> SeatedPermits
        ensures permits { permits_in result ≡ [] }
        ensures used { (c : ℕ) → used_in result c ≡ false }
        ensures tied { (seats : Seated) → ((c : ℕ) → seat seats c ≡ None) → IsTied result seats }
    {
        SeatedPermits {
            permits: Crossed::new(alloc),
            marks: Marks::new(alloc),
            marked: None,
            may_open: false,
            alloc,
        }
    }

    /// Adds rows, columns and marks until the seat has them. If memory runs out, some may have been added, and no permit
    /// has changed.
    pub fn make_room(&mut self, c: usize) -> Result<(), NoMemory>
        ensures room { OnOk result (HasRoom self.new c) }
        ensures permits { permits_in self.new ≡ permits_in self.old }
        ensures used { (d : ℕ) → used_in self.new d ≡ used_in self.old d }
        ensures tied { (seats : Seated) → IsTied self.old seats → IsTied self.new seats }
    {
        self.marked = None;
        add_lines(&mut self.permits, Side::Row, c)?;
        add_lines(&mut self.permits, Side::Column, c)?;
        self.marks.add(c)
    }

    /// Lets the taker do the operations on the objects, until one of the two is dropped by `drop_all`. A permit
    /// that stands already is not added again. It is looked for among the permits of the giver, or among those for
    /// the taker if there are fewer.
    ///
    /// If memory runs out, no permit changes.
    pub fn add(
        &mut self,
        seats: &Seats,
        giver: Sitter,
        taker: Sitter,
        objects: ObSet,
        ops: Ops,
    ) -> Result<(), NoMemory>
        requires tied { IsTied self.old seats.now }
        requires giver { HasSeat seats.now giver }
        requires taker { HasSeat seats.now taker }
        ensures tied { IsTied self.new seats.now }
        ensures stands { OnOk result ((e : Descriptor) → stands (permits_in self.new) e ≡ (stands (permits_in self.old) e || same_descriptor (named_permit giver.t.0 taker.t.0 objects ops) e)) }
        ensures covers { OnOk result ((u t x : ℕ) (op : Op) → one_covers (permits_in self.new) u t x op ≡ (one_covers (permits_in self.old) u t x op || (u == giver.t.0 && t == taker.t.0 && in_set objects x && has_op ops op))) }
        ensures opens { OnOk result ((u x : ℕ) (op : Op) → opens (permits_in self.new) u x op ≡ opens (permits_in self.old) u x op) }
        ensures unchanged { OnErr result (permits_in self.new ≡ permits_in self.old) }
        ensures again { stands (permits_in self.old) (named_permit giver.t.0 taker.t.0 objects ops) ≡ true → IsOk result × (permits_in self.new ≡ permits_in self.old) }
    {
        self.add_permit(
            seats,
            &Sought {
                giver,
                taker,
                objects,
                ops,
                is_open: false,
            },
        )
    }

    /// Adds the permit, unless it stands already. If memory runs out, no permit changes.
    pub(crate) fn add_permit(&mut self, seats: &Seats, sought: &Sought) -> Result<(), NoMemory>
        requires tied { IsTied self.old seats.now }
        requires sit { HaveSeats seats.now sought.now }
        requires own { IsOwn (asked sought.now) }
        ensures tied { IsTied self.new seats.now }
        ensures stands { OnOk result ((e : Descriptor) → stands (permits_in self.new) e ≡ (stands (permits_in self.old) e || same_descriptor (asked sought.now) e)) }
        ensures covers { OnOk result ((u t x : ℕ) (op : Op) → one_covers (permits_in self.new) u t x op ≡ (one_covers (permits_in self.old) u t x op || lets u t x op (asked sought.now))) }
        ensures opens { OnOk result ((u x : ℕ) (op : Op) → opens (permits_in self.new) u x op ≡ (opens (permits_in self.old) u x op || lets_all u x op (asked sought.now))) }
        ensures unchanged { OnErr result (permits_in self.new ≡ permits_in self.old) }
        ensures again { stands (permits_in self.old) (asked sought.now) ≡ true → IsOk result × (permits_in self.new ≡ permits_in self.old) }
    {
        if self.has(seats, sought) {
            return Ok(());
        }
        self.marked = None;
        reserve_item(&mut self.permits)?;
        let permit = Permit::of(sought, self.alloc)?;
        self.may_open = self.may_open | sought.is_open;
        self.permits
            .insert(sought.giver.at, sought.taker.at, permit);
        self.permits.laws();
        Ok(())
    }

    /// Returns whether the giver allows the taker to do `op` on `x`: they are one transaction, or a chain of permits
    /// leads from the one to the other, or from the one to an opener, each of which covers the operation on the object.
    /// No permit changes. It also says, for proofs, that no permit stands twice.
    ///
    /// It searches from the giver, or from the taker if fewer permits are for the taker than the giver gives, and
    /// looks only at the permits of the transactions that it meets. If open permits were given, it may search from the giver
    /// once more. It takes no memory.
    pub fn allows(&mut self, seats: &Seats, giver: Sitter, taker: Sitter, x: Ob, op: Op) -> bool
        requires tied { IsTied self.old seats.now }
        requires giver { HasSeat seats.now giver }
        requires taker { HasSeat seats.now taker }
        ensures allowed { result ≡ allows_by (permits_in self.old) giver.t.0 taker.t.0 x.0 op }
        ensures different { AreDifferent (permits_in self.old) }
        ensures same { self.new ≡ self.old }
    {
        let _ = &self.permits;
        giver.t == taker.t || self.allows_another(seats, giver, taker, x, op)
    }

    /// Returns whether the giver allows the taker, which is another. No permit changes.
    fn allows_another(&mut self, seats: &Seats, giver: Sitter, taker: Sitter, x: Ob, op: Op) -> bool
        requires tied { IsTied self.old seats.now }
        requires giver { HasSeat seats.now giver }
        requires taker { HasSeat seats.now taker }
        requires another { (giver.t.0 == taker.t.0) ≡ false }
        ensures allowed { result ≡ allows_by (permits_in self.old) giver.t.0 taker.t.0 x.0 op }
        ensures same { self.new ≡ self.old }
    {
        self.leads(seats, giver, taker, x, op) || self.reaches_opener(seats, giver, x, op)
    }

    /// Returns whether the giver allows the taker to do `op` on `x`, as `allows` does. No permit changes.
    ///
    /// It marks all who allow the taker. The next such calls for the same taker, object and operation look at a mark alone,
    /// until a call of another kind changes a permit, makes room or searches. So it is for callers who ask about several
    /// givers in a row. If open permits were given, it searches as `allows` does. It takes no memory.
    pub fn is_allower(&mut self, seats: &Seats, giver: Sitter, taker: Sitter, x: Ob, op: Op) -> bool
        requires tied { IsTied self.old seats.now }
        requires giver { HasSeat seats.now giver }
        requires taker { HasSeat seats.now taker }
        ensures allowed { result ≡ allows_by (permits_in self.old) giver.t.0 taker.t.0 x.0 op }
        ensures same { self.new ≡ self.old }
    {
        if self.may_open {
            return self.allows(seats, giver, taker, x, op);
        }
        self.is_marked(seats, giver, taker, x, op)
    }

    /// Returns whether a chain of permits that cover `op` on `x` leads from the giver to the taker, or they are one. It marks
    /// all from whom such a chain leads to the taker, unless they are marked. No permit changes.
    fn is_marked(&mut self, seats: &Seats, giver: Sitter, taker: Sitter, x: Ob, op: Op) -> bool
        requires tied { IsTied self.old seats.now }
        requires giver { HasSeat seats.now giver }
        requires taker { HasSeat seats.now taker }
        ensures leads { result ≡ leads_by (permits_in self.old) giver.t.0 taker.t.0 x.0 op }
        ensures same { self.new ≡ self.old }
    {
        seats.laws();
        self.permits.laws();
        let question = Question {
            taker: taker.at,
            covered: Covered { x, op },
        };
        mark_allowers(&self.permits, &mut self.marks, &mut self.marked, question);
        self.marks.has(giver.at)
    }

    /// Returns whether the permit stands.
    pub(crate) fn has(&self, seats: &Seats, sought: &Sought) -> bool
        requires tied { IsTied self.now seats.now }
        requires sit { HaveSeats seats.now sought.now }
        ensures { result ≡ stands (permits_in self.now) (asked sought.now) }
    {
        seats.laws();
        let (from, to) = (sought.giver.at, sought.taker.at);
        if self.permits.len(Side::Row, from) <= self.permits.len(Side::Column, to) {
            find(&self.permits, Side::Row, from, sought).is_some()
        } else {
            find(&self.permits, Side::Column, to, sought).is_some()
        }
    }

    /// Returns whether a chain of permits that cover `op` on `x` leads from the giver to the taker, which is another. No
    /// permit changes.
    fn leads(&mut self, seats: &Seats, giver: Sitter, taker: Sitter, x: Ob, op: Op) -> bool
        requires tied { IsTied self.old seats.now }
        requires giver { HasSeat seats.now giver }
        requires taker { HasSeat seats.now taker }
        requires another { (giver.t.0 == taker.t.0) ≡ false }
        ensures leads { result ≡ leads_by (permits_in self.old) giver.t.0 taker.t.0 x.0 op }
        ensures same { self.new ≡ self.old }
    {
        seats.laws();
        self.permits.laws();
        self.marked = None;
        let (from, to) = (giver.at, taker.at);
        if self.permits.len(Side::Row, from) <= self.permits.len(Side::Column, to) {
            let search = Search {
                permits: &self.permits,
                side: Side::Row,
                covered: Covered { x, op },
            };
            is_linked(&search, from, to, &mut self.marks)
        } else {
            let search = Search {
                permits: &self.permits,
                side: Side::Column,
                covered: Covered { x, op },
            };
            is_linked(&search, to, from, &mut self.marks)
        }
    }

    /// Drops the permits that `t` has given, and those that were given to it, so that it may leave its seat. It looks at no
    /// others.
    pub fn drop_all(&mut self, seats: &Seats, t: Sitter)
        requires tied { IsTied self.old seats.now }
        requires sits { HasSeat seats.now t }
        ensures tied { IsTied self.new seats.now }
        ensures leaves { (left : Seated) → ((c : ℕ) → seat left c ≡ cond (c == t.at) None (seat seats.now c)) → IsTied self.new left }
        ensures stands { (e : Descriptor) → stands (permits_in self.new) e ≡ (stands (permits_in self.old) e && not (e.giver == t.t.0) && not (e.taker == t.t.0)) }
        ensures covers { (u v x : ℕ) (op : Op) → one_covers (permits_in self.new) u v x op ≡ (one_covers (permits_in self.old) u v x op && not (u == t.t.0) && not (v == t.t.0)) }
        ensures opens { (u x : ℕ) (op : Op) → opens (permits_in self.new) u x op ≡ (opens (permits_in self.old) u x op && not (u == t.t.0)) }
    {
        seats.laws();
        self.permits.laws();
        self.marked = None;
        self.permits.clear(Side::Row, t.at);
        self.permits.laws();
        self.permits.clear(Side::Column, t.at);
        self.permits.laws();
    }

    /// Drops the permits that `drop_all` drops. Who has no other permit leaves its seat.
    pub(crate) fn drop_and_leave(&mut self, seats: &mut Seats, t: Sitter)
        requires tied { IsTied self.old seats.old }
        requires used { IsUsed self.old.permits seats.old }
        requires sits { HasSeat seats.old t }
        ensures tied { IsTied self.new seats.new }
        ensures used { IsUsed self.new.permits seats.new }
        ensures stands { (e : Descriptor) → stands (permits_in self.new) e ≡ (stands (permits_in self.old) e && not (e.giver == t.t.0) && not (e.taker == t.t.0)) }
        ensures covers { (u v x : ℕ) (op : Op) → one_covers (permits_in self.new) u v x op ≡ (one_covers (permits_in self.old) u v x op && not (u == t.t.0) && not (v == t.t.0)) }
        ensures opens { (u x : ℕ) (op : Op) → opens (permits_in self.new) u x op ≡ (opens (permits_in self.old) u x op && not (u == t.t.0)) }
    {
        seats.laws();
        self.marked = None;
        drop_along(&mut self.permits, seats, Side::Row, t.at);
        drop_along(&mut self.permits, seats, Side::Column, t.at);
        self.permits.laws();
    }

    /// Takes the seat from whoever has it, if no permit is in its row or column.
    pub(crate) fn leave_if_unused(&self, seats: &mut Seats, c: usize)
        ensures { (d : ℕ) → seat seats.new d ≡ cond (d == c && not (used_in self.now d)) None (seat seats.old d) }
    {
        leave_if_unused(&self.permits, seats, c);
    }

    /// Says what holds of all tables, for proofs. It does nothing.
    pub(crate) fn laws(&self)
        ensures { IsCrossed self.now.permits }
    {
        self.permits.laws();
    }
}
