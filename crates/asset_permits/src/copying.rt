//! A transaction gets copies of another's permits, each cut to one object.

ghost use Rattle.std.specs.Prelude.{◌≡◌, ◌⊎◌, ℕ, Bool, true, cond, Some, OnOk};
ghost use Rattle.asset_seats.specs.Seated.{seat, HasSeat};
ghost use Rattle.asset_permits.specs.Stored.{asked, HaveSeats, IsOwn};
ghost use Rattle.std.specs.List.{list_any};
ghost use Rattle.slab.specs.Slab.{get};
ghost use Rattle.asset_names.specs.InSet.{in_set};
ghost use Rattle.asset_chains.specs.Chained.{home_of};
ghost use Rattle.asset_permits.specs.declared.copying.Cut.{Cut as Copied};
ghost use Rattle.asset_permits.specs.Descriptors.{Descriptor};
ghost use Rattle.asset_permits.specs.Copies.{cut_of, copy_of};

use crate::finding::find;
use crate::permit::{Permit, Sought};
use crate::table::SeatedPermits;
use asset_chains::{Crossed, Side};
use asset_names::{NoMemory, Ob, ObList, ObSet, Ops, Txn};
use asset_seats::{Seats, Sitter};

/// What is copied of a permit: for whom it is, on which one of its objects, and by which operations. The copy of an open permit
/// is open, whoever stands in the taker's place.
#[derive(Clone, Copy)]
pub(crate) struct Cut {
    pub taker: Txn,
    pub x: Ob,
    pub ops: Ops,
    pub is_open: bool,
}

/// Appends what is copied on `x` of the permit at the key, if it has the object. If memory runs out, nothing is appended.
fn cut_at(permits: &Crossed<Permit>, key: usize, x: Ob, cuts: &mut Vec<Cut>) -> Result<(), NoMemory>
    ensures kept { (test : Copied → Bool) → list_any test cuts.old.items ≡ true → list_any test cuts.new.items ≡ true }
    ensures made { (test : Copied → Bool) → list_any test cuts.new.items ≡ true → (list_any test cuts.old.items ≡ true) ⊎ ((d : Descriptor) × (get permits.now.items key ≡ Some d) × (in_set d.objects x.0 ≡ true) × (test (cut_of x d) ≡ true)) }
    ensures all { OnOk result ((test : Copied → Bool) (d : Descriptor) → get permits.now.items key ≡ Some d → in_set d.objects x.0 ≡ true → test (cut_of x d) ≡ true → list_any test cuts.new.items ≡ true) }
{
    let Some(permit) = permits.get(key) else {
        return Ok(());
    };
    let Some(cut) = permit.cut(x) else {
        return Ok(());
    };
    match cuts.push(cut) {
        Ok(()) => Ok(()),
        Err(_) => Err(NoMemory),
    }
}

/// Appends what is copied on `x` of each permit in the row of the seat. If memory runs out, some may have been appended.
fn cut_along(
    permits: &Crossed<Permit>,
    seat: usize,
    x: Ob,
    cuts: &mut Vec<Cut>,
) -> Result<(), NoMemory>
    ensures kept { (test : Copied → Bool) → list_any test cuts.old.items ≡ true → list_any test cuts.new.items ≡ true }
    ensures made { (test : Copied → Bool) → list_any test cuts.new.items ≡ true → (list_any test cuts.old.items ≡ true) ⊎ ((k : ℕ) × (d : Descriptor) × (home_of permits.now.rows k ≡ Some seat) × (get permits.now.items k ≡ Some d) × (in_set d.objects x.0 ≡ true) × (test (cut_of x d) ≡ true)) }
    ensures all { OnOk result ((test : Copied → Bool) (k : ℕ) (d : Descriptor) → home_of permits.now.rows k ≡ Some seat → get permits.now.items k ≡ Some d → in_set d.objects x.0 ≡ true → test (cut_of x d) ≡ true → list_any test cuts.new.items ≡ true) }
{
    permits.laws();
    let mut next = permits.first(Side::Row, seat);
    'keys: while let Some(key) = next {
        cut_at(permits, key, x, cuts)?;
        next = permits.next(Side::Row, key);
    }
    Ok(())
}

/// Returns the permit that the receiver gives by this copy, with the seats of its ends.
#[tactic(auto, unfolding(crate::specs::Copies::copy_of))]
fn sought_by(seats: &Seats, receiver: Sitter, cut: &Cut) -> Sought
    requires receiver { HasSeat seats.now receiver }
    requires taker { (c : ℕ) × (seat seats.now c ≡ Some cut.now.taker) }
    ensures asked { asked result ≡ copy_of receiver.t.0 cut.now }
    ensures sit { HaveSeats seats.now result }
    ensures own { IsOwn (asked result) }
{
    Sought {
        giver: receiver,
        taker: taker_by(seats, receiver, cut),
        objects: ObSet::Listed(ObList::one(cut.x)),
        ops: cut.ops,
        is_open: cut.is_open,
    }
}

/// Returns who stands in the taker's place in the permit that the receiver gives by this copy, with its seat.
fn taker_by(seats: &Seats, receiver: Sitter, cut: &Cut) -> Sitter
    requires receiver { HasSeat seats.now receiver }
    requires taker { (c : ℕ) × (seat seats.now c ≡ Some cut.now.taker) }
    ensures taker { result.t.0 ≡ cond cut.now.is_open receiver.t.0 cut.now.taker.0 }
    ensures sits { HasSeat seats.now result }
{
    if cut.is_open {
        return receiver;
    }
    let Some(at) = seats.seat_of(cut.taker) else {
        unreachable!();
    };
    Sitter { t: cut.taker, at }
}

impl SeatedPermits {
    ghost use Rattle.std.specs.Prelude.{◌≡◌, ℕ, Bool, List, [], ◌∷◌, ◌++◌, ◌==◌, ◌&&◌, ◌||◌, not, true, false, Some, IfOk, OnOk, OnErr};
    ghost use Rattle.std.specs.List.{list_any};
    ghost use Rattle.asset_names.specs.declared.operations.Op.{Op};
    ghost use Rattle.asset_names.specs.Arrows.{lists};
    ghost use Rattle.asset_names.specs.Sets.{numbers};
    ghost use Rattle.asset_seats.specs.Seated.{seat, HasSeat};
    ghost use Rattle.asset_permits.specs.declared.copying.Cut.{Cut as Copied};
    ghost use Rattle.asset_permits.specs.Descriptors.{Descriptor, same_descriptor, stands, one_covers, opens};
    ghost use Rattle.asset_permits.specs.Stored.{asked, HaveSeats, IsOwn};
    ghost use Rattle.asset_permits.specs.Valid.{permits_in, IsTied};
    ghost use Rattle.asset_permits.specs.Copies.{copies, copy_of, cuts_in, given_by, AddsCuts, TakersSit};

    /// Gives the receiver a copy of each permit that the giver gives on one of the objects, cut to that object. The copy of an
    /// open permit is open. A copy that stands already is not added again, and the giver keeps its permits.
    ///
    /// If memory runs out, no permit has changed. It looks at the giver's permits once for each of the objects.
    pub fn copy_for(
        &mut self,
        seats: &Seats,
        giver: Sitter,
        receiver: Sitter,
        moved: &[Ob],
    ) -> Result<(), NoMemory>
        requires tied { IsTied self.old seats.now }
        requires giver { HasSeat seats.now giver }
        requires receiver { HasSeat seats.now receiver }
        ensures tied { IsTied self.new seats.now }
        ensures stands { OnOk result ((e : Descriptor) → stands (permits_in self.new) e ≡ (stands (permits_in self.old) e || stands (copies giver.t.0 receiver.t.0 (permits_in self.old) moved.now) e)) }
        ensures covers { OnOk result ((u t x : ℕ) (op : Op) → one_covers (permits_in self.new) u t x op ≡ (one_covers (permits_in self.old) u t x op || (u == receiver.t.0 && lists (numbers moved.now) x && one_covers (permits_in self.old) giver.t.0 t x op))) }
        ensures opens { OnOk result ((u x : ℕ) (op : Op) → opens (permits_in self.new) u x op ≡ (opens (permits_in self.old) u x op || (u == receiver.t.0 && lists (numbers moved.now) x && opens (permits_in self.old) giver.t.0 x op))) }
        ensures unchanged { OnErr result ((e : Descriptor) → stands (permits_in self.new) e ≡ stands (permits_in self.old) e) }
        ensures covered { OnErr result ((u t x : ℕ) (op : Op) → one_covers (permits_in self.new) u t x op ≡ one_covers (permits_in self.old) u t x op) }
        ensures opened { OnErr result ((u x : ℕ) (op : Op) → opens (permits_in self.new) u x op ≡ opens (permits_in self.old) u x op) }
    {
        let cuts = self.cuts_of(seats, giver, moved)?;
        self.add_cuts(seats, receiver, &cuts)
    }

    /// Returns what is copied of the giver's permits on each of the objects. It fails only if memory runs out.
    fn cuts_of(&self, seats: &Seats, giver: Sitter, moved: &[Ob]) -> Result<Vec<Cut>, NoMemory>
        requires tied { IsTied self.now seats.now }
        requires giver { HasSeat seats.now giver }
        ensures cuts { IfOk result (λ cuts. (test : Copied → Bool) → list_any test cuts.items ≡ list_any test (cuts_in giver.t.0 (permits_in self.now) moved.now)) }
        ensures seated { IfOk result (λ cuts. TakersSit seats.now cuts.items) }
    {
        seats.laws();
        let mut cuts = Vec::new(self.alloc);
        'moved: for &x in moved {
            cut_along(&self.permits, giver.at, x, &mut cuts)?;
        }
        Ok(cuts)
    }

    /// Adds the permits that the receiver gives by these copies. If memory runs out, those that came are gone again.
    fn add_cuts(&mut self, seats: &Seats, receiver: Sitter, cuts: &[Cut]) -> Result<(), NoMemory>
        requires tied { IsTied self.old seats.now }
        requires receiver { HasSeat seats.now receiver }
        requires seated { TakersSit seats.now cuts.now }
        ensures tied { IsTied self.new seats.now }
        ensures stands { OnOk result ((e : Descriptor) → stands (permits_in self.new) e ≡ (stands (permits_in self.old) e || stands (given_by receiver.t.0 cuts.now) e)) }
        ensures unchanged { OnErr result ((e : Descriptor) → stands (permits_in self.new) e ≡ stands (permits_in self.old) e) }
    {
        let mut added = Vec::new(self.alloc);
        'cuts: for cut in cuts {
            match self.add_new(seats, receiver, cut, &mut added) {
                Ok(()) => {}
                Err(fault) => {
                    self.remove_all(seats, receiver, &added);
                    return Err(fault);
                }
            }
        }
        Ok(())
    }

    /// Adds the permit that the receiver gives by this copy, and notes it, unless it stands. If memory runs out, no
    /// permit changes, and nothing is noted.
    fn add_new(
        &mut self,
        seats: &Seats,
        receiver: Sitter,
        cut: &Cut,
        added: &mut Vec<Cut>,
    ) -> Result<(), NoMemory>
        requires tied { IsTied self.old seats.now }
        requires receiver { HasSeat seats.now receiver }
        requires taker { (c : ℕ) × (seat seats.now c ≡ Some cut.now.taker) }
        ensures tied { IsTied self.new seats.now }
        ensures stands { OnOk result ((e : Descriptor) → stands (permits_in self.new) e ≡ (stands (permits_in self.old) e || same_descriptor (copy_of receiver.t.0 cut.now) e)) }
        ensures added { OnOk result ((first : List Descriptor) → AddsCuts receiver.t.0 added.old.items first (permits_in self.old) → AddsCuts receiver.t.0 added.new.items first (permits_in self.new)) }
        ensures seated { TakersSit seats.now added.old.items → TakersSit seats.now added.new.items }
        ensures unchanged { OnErr result (permits_in self.new ≡ permits_in self.old) }
        ensures same { OnErr result (added.new.items ≡ added.old.items) }
    {
        let sought = sought_by(seats, receiver, cut);
        self.add_noted(seats, &sought, cut, added)
    }

    /// Adds the permit, which the copy gives, and notes the copy, unless the permit stands. If memory runs out, no permit
    /// changes, and nothing is noted.
    fn add_noted(
        &mut self,
        seats: &Seats,
        sought: &Sought,
        cut: &Cut,
        added: &mut Vec<Cut>,
    ) -> Result<(), NoMemory>
        requires tied { IsTied self.old seats.now }
        requires sit { HaveSeats seats.now sought.now }
        requires own { IsOwn (asked sought.now) }
        ensures tied { IsTied self.new seats.now }
        ensures stands { OnOk result ((e : Descriptor) → stands (permits_in self.new) e ≡ (stands (permits_in self.old) e || same_descriptor (asked sought.now) e)) }
        ensures again { OnOk result (stands (permits_in self.old) (asked sought.now) ≡ true → (permits_in self.new ≡ permits_in self.old) × (added.new.items ≡ added.old.items)) }
        ensures noted { OnOk result (stands (permits_in self.old) (asked sought.now) ≡ false → added.new.items ≡ added.old.items ++ cut.now ∷ []) }
        ensures unchanged { OnErr result (permits_in self.new ≡ permits_in self.old) }
        ensures same { OnErr result (added.new.items ≡ added.old.items) }
    {
        if self.has(seats, sought) {
            return Ok(());
        }
        if added.reserve(1).is_err() {
            return Err(NoMemory);
        }
        self.add_permit(seats, sought)?;
        added.push_reserved(*cut);
        Ok(())
    }

    /// Removes the permits that the receiver gives by these copies.
    fn remove_all(&mut self, seats: &Seats, receiver: Sitter, added: &[Cut])
        requires tied { IsTied self.old seats.now }
        requires receiver { HasSeat seats.now receiver }
        requires seated { TakersSit seats.now added.now }
        ensures tied { IsTied self.new seats.now }
        ensures stands { (e : Descriptor) → stands (permits_in self.new) e ≡ (stands (permits_in self.old) e && not (stands (given_by receiver.t.0 added.now) e)) }
    {
        'added: for cut in added {
            self.remove(seats, &sought_by(seats, receiver, cut));
        }
    }

    /// Removes the permit, if it stands.
    fn remove(&mut self, seats: &Seats, sought: &Sought)
        requires tied { IsTied self.old seats.now }
        requires sit { HaveSeats seats.now sought.now }
        ensures tied { IsTied self.new seats.now }
        ensures stands { (e : Descriptor) → stands (permits_in self.new) e ≡ (stands (permits_in self.old) e && not (same_descriptor (asked sought.now) e)) }
    {
        seats.laws();
        let Some(key) = find(&self.permits, Side::Row, sought.giver.at, sought) else {
            return;
        };
        self.permits.laws();
        self.marked = None;
        self.permits.remove(key);
        self.permits.laws();
    }
}
