//! Permits to anybody, and the search for those who give them.

ghost use Rattle.std.specs.Prelude.{◌≡◌, ℕ, true, false, Some};
ghost use Rattle.slab.specs.Slab.{get};
ghost use Rattle.asset_names.specs.Arrows.{lists};
ghost use Rattle.asset_chains.specs.Chained.{home_of};
ghost use Rattle.asset_permits.specs.Descriptors.{Descriptor, opens_on};
ghost use Rattle.asset_permits.specs.Stored.{OpensAt};

use crate::permit::{Permit, Sought};
use crate::search::{Covered, Search};
use crate::table::SeatedPermits;
use asset_chains::{Crossed, Side};
use asset_marks::{Marks, spread};
use asset_names::{NoMemory, Ob, ObList, ObSet, Op, Ops};
use asset_seats::{Seats, Sitter};

/// Returns whether the permit at the key is open, and has the object and the operation.
fn is_open_at(permits: &Crossed<Permit>, key: usize, covered: Covered) -> bool
    ensures opens { result ≡ true → (d : Descriptor) × (get permits.now.items key ≡ Some d) × (opens_on covered.x.0 covered.op d ≡ true) }
    ensures closed { result ≡ false → (d : Descriptor) → get permits.now.items key ≡ Some d → opens_on covered.x.0 covered.op d ≡ false }
{
    match permits.get(key) {
        Some(permit) => permit.opens(covered.x, covered.op),
        None => false,
    }
}

/// Returns whether an open permit in the row of the seat has the object and the operation.
fn opens_at(permits: &Crossed<Permit>, seat: usize, covered: Covered) -> bool
    ensures opens { result ≡ true → OpensAt permits.now covered.x.0 covered.op seat }
    ensures closed { result ≡ false → (k : ℕ) (d : Descriptor) → home_of permits.now.rows k ≡ Some seat → get permits.now.items k ≡ Some d → opens_on covered.x.0 covered.op d ≡ false }
{
    permits.laws();
    let mut next = permits.first(Side::Row, seat);
    'keys: while let Some(key) = next {
        if is_open_at(permits, key, covered) {
            return true;
        }
        next = permits.next(Side::Row, key);
    }
    false
}

/// Returns whether an open permit in the row of a seat that is met has the object and the operation.
fn met_opens(permits: &Crossed<Permit>, marks: &Marks, covered: Covered) -> bool
    ensures opens { result ≡ true → (c : ℕ) × (lists marks.now.nodes c ≡ true) × OpensAt permits.now covered.x.0 covered.op c }
    ensures closed { result ≡ false → (c k : ℕ) (d : Descriptor) → lists marks.now.nodes c ≡ true → home_of permits.now.rows k ≡ Some c → get permits.now.items k ≡ Some d → opens_on covered.x.0 covered.op d ≡ false }
{
    let mut next = 0;
    'met: while next < marks.len() {
        if opens_at(permits, marks.node(next), covered) {
            return true;
        }
        next += 1;
    }
    false
}

impl SeatedPermits {
    ghost use Rattle.std.specs.Prelude.{◌≡◌, ℕ, ◌==◌, ◌&&◌, ◌||◌, OnOk, OnErr, IsOk, true};
    ghost use Rattle.asset_names.specs.declared.operations.Op.{Op};
    ghost use Rattle.asset_names.specs.declared.sets.ObSet.TheVariants.{Listed};
    ghost use Rattle.asset_names.specs.InSet.{in_set};
    ghost use Rattle.asset_names.specs.OpSets.{has_op};
    ghost use Rattle.asset_seats.specs.Seated.{HasSeat};
    ghost use Rattle.asset_permits.specs.Descriptors.{Descriptor, open_permit, same_descriptor, stands, one_covers, opens, reaches_opener};
    ghost use Rattle.asset_permits.specs.Valid.{permits_in, IsTied};

    /// Lets anybody do the operations on the objects, until the giver is dropped by `drop_all`. A permit that stands already
    /// is not added again. It is looked for among the permits of the giver, or among those that it takes if there are fewer.
    ///
    /// If memory runs out, no permit changes.
    pub fn add_any(
        &mut self,
        seats: &Seats,
        giver: Sitter,
        objects: ObList,
        ops: Ops,
    ) -> Result<(), NoMemory>
        requires tied { IsTied self.old seats.now }
        requires giver { HasSeat seats.now giver }
        ensures tied { IsTied self.new seats.now }
        ensures stands { OnOk result ((e : Descriptor) → stands (permits_in self.new) e ≡ (stands (permits_in self.old) e || same_descriptor (open_permit giver.t.0 (Listed objects) ops) e)) }
        ensures covers { OnOk result ((u t x : ℕ) (op : Op) → one_covers (permits_in self.new) u t x op ≡ one_covers (permits_in self.old) u t x op) }
        ensures opens { OnOk result ((u x : ℕ) (op : Op) → opens (permits_in self.new) u x op ≡ (opens (permits_in self.old) u x op || (u == giver.t.0 && in_set (Listed objects) x && has_op ops op))) }
        ensures unchanged { OnErr result (permits_in self.new ≡ permits_in self.old) }
        ensures again { stands (permits_in self.old) (open_permit giver.t.0 (Listed objects) ops) ≡ true → IsOk result × (permits_in self.new ≡ permits_in self.old) }
    {
        self.add_permit(
            seats,
            &Sought {
                giver,
                taker: giver,
                objects: ObSet::Listed(objects),
                ops,
                is_open: true,
            },
        )
    }

    /// Returns whether a chain of permits leads from the giver to an opener, each of which covers `op` on `x`: then the giver
    /// allows anybody to do it. The giver may be the opener itself. No permit changes.
    ///
    /// While no open permit was given, the cost is constant. It takes no memory.
    pub(crate) fn reaches_opener(&mut self, seats: &Seats, giver: Sitter, x: Ob, op: Op) -> bool
        requires tied { IsTied self.old seats.now }
        requires giver { HasSeat seats.now giver }
        ensures reaches { result ≡ reaches_opener (permits_in self.old) giver.t.0 x.0 op }
        ensures same { self.new ≡ self.old }
    {
        if !self.may_open {
            return false;
        }
        self.spreads_to_opener(seats, giver, Covered { x, op })
    }

    /// Returns whether such a chain leads from the giver to an opener, as it is found by a search from the giver.
    fn spreads_to_opener(&mut self, seats: &Seats, giver: Sitter, covered: Covered) -> bool
        requires tied { IsTied self.old seats.now }
        requires giver { HasSeat seats.now giver }
        ensures reaches { result ≡ reaches_opener (permits_in self.old) giver.t.0 covered.x.0 covered.op }
        ensures same { self.new ≡ self.old }
    {
        seats.laws();
        self.permits.laws();
        self.marked = None;
        let search = Search {
            permits: &self.permits,
            side: Side::Row,
            covered,
        };
        spread(&search, giver.at, &mut self.marks);
        met_opens(&self.permits, &self.marks, covered)
    }
}
