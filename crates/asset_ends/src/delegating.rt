//! A transaction hands over what it did.

ghost use Rattle.std.specs.Prelude.{◌≡◌, ℕ, ◌==◌, ◌&&◌, ◌||◌, Some, filter, OnOk, OnErr};
ghost use Rattle.asset_names.specs.declared.names.Ob.{Ob as Object};
ghost use Rattle.asset_names.specs.declared.operations.Op.{Op};
ghost use Rattle.asset_names.specs.Arrows.{lists};
ghost use Rattle.asset_names.specs.InSet.{in_set, only_in};
ghost use Rattle.asset_names.specs.Numbered.{number_in};
ghost use Rattle.asset_names.specs.Sets.{numbers};
ghost use Rattle.asset_locks.specs.LockTable.{held_in};
ghost use Rattle.asset_locks.specs.Tied.{rows_in, IsTied};
ghost use Rattle.asset_permits.specs.Descriptors.{one_covers, opens};
ghost use Rattle.asset_permits.specs.Valid.{permits_in, IsTied as ArePermitsTied};
ghost use Rattle.asset_seats.specs.Seated.{HasSeat};

use crate::tables::Tables;
use asset_locks::SeatedLocks;
use asset_names::{NoMemory, ObSet, Txn};
use asset_permits::SeatedPermits;
use asset_seats::{Seats, Sitter};
use std::alloc::Global;

/// Gives the taker a copy of each of the giver's permits on each of the objects on which the giver has a lock. Nothing is
/// listed if the giver permits nobody anything. If the set lists one object, its number is given, if it exists. If memory runs
/// out, no permit has changed.
fn copy_permits(
    alloc: Global,
    seats: &Seats,
    locks: &SeatedLocks,
    permits: &mut SeatedPermits,
    giver: Sitter,
    taker: Sitter,
    obs: &ObSet,
    only: Option<usize>,
) -> Result<(), NoMemory>
    requires locks { IsTied locks.now seats.now }
    requires only { (x : Object) → only_in obs.now ≡ Some x → only ≡ number_in locks.now.store.objects x.0 }
    requires permits { ArePermitsTied permits.old seats.now }
    requires giver { HasSeat seats.now giver }
    requires taker { HasSeat seats.now taker }
    ensures tied { ArePermitsTied permits.new seats.now }
    ensures covers { OnOk result ((u t x : ℕ) (op : Op) → one_covers (permits_in permits.new) u t x op ≡ (one_covers (permits_in permits.old) u t x op || (u == taker.t.0 && lists (numbers (filter (λ (x : Object). in_set obs.now x.0) (held_in (rows_in seats.now locks.now) giver.t.0))) x && one_covers (permits_in permits.old) giver.t.0 t x op))) }
    ensures opens { OnOk result ((u x : ℕ) (op : Op) → opens (permits_in permits.new) u x op ≡ (opens (permits_in permits.old) u x op || (u == taker.t.0 && lists (numbers (filter (λ (x : Object). in_set obs.now x.0) (held_in (rows_in seats.now locks.now) giver.t.0))) x && opens (permits_in permits.old) giver.t.0 x op))) }
    ensures covered { OnErr result ((u t x : ℕ) (op : Op) → one_covers (permits_in permits.new) u t x op ≡ one_covers (permits_in permits.old) u t x op) }
    ensures opened { OnErr result ((u x : ℕ) (op : Op) → opens (permits_in permits.new) u x op ≡ opens (permits_in permits.old) u x op) }
{
    if !permits.gives(seats, giver) {
        return Ok(());
    }
    let moved = locks.held_among(alloc, seats, giver, obs, only)?;
    permits.copy_for(seats, giver, taker, &moved)
}

impl Tables {
    ghost use Rattle.std.specs.Prelude.{◌≡◌, true, Some, OnOk, OnErr};
    ghost use Rattle.asset_names.specs.declared.names.Ob.{Ob};
    ghost use Rattle.asset_names.specs.InSet.{only_in};
    ghost use Rattle.asset_objects.specs.Cells.{number_of};
    ghost use Rattle.asset_names.specs.declared.steps.Step.{Step};
    ghost use Rattle.asset_names.specs.Endings.{is_live_status};
    ghost use Rattle.asset_locks.specs.LockTable.{hand_over_in};
    ghost use Rattle.asset_trans.specs.TransRows.{status_in, seat_in};
    ghost use Rattle.asset_ends.specs.Shown.{ShowsWith};
    ghost use Rattle.asset_ends.specs.Standing.{SameViewInAnyOrder};

    /// Hands over to the taker what the giver did on the objects: its updates and its locks there are the taker's, and the
    /// taker gives a copy of each of the giver's permits on each object on which a lock moved. Both are live.
    ///
    /// If memory runs out, nothing that any call shows has changed. The cost is that of the giver's locks and update
    /// records, of a search for a lock of the taker for each lock that moves, and of the giver's permits for each of these.
    pub fn delegate(&mut self, giver: Txn, taker: Txn, obs: &ObSet) -> Result<(), NoMemory>
        requires giver { is_live_status (status_in self.old.trans giver.0) ≡ true }
        requires taker { is_live_status (status_in self.old.trans taker.0) ≡ true }
        ensures stand { OnOk result (ShowsWith self.old (Step.Delegate giver taker obs.now) self.new) }
        ensures locks { OnOk result (self.new.locks ≡ hand_over_in giver.0 taker.0 obs.now self.old.locks) }
        ensures unchanged { OnErr result (SameViewInAnyOrder self.new self.old) }
    {
        let (_, from) = self.find(giver);
        let (_, to) = self.find(taker);
        let only = self.number_of_only(obs);
        self.delegate_at(from, to, obs, only)
    }

    /// Does what `delegate` does, for transactions whose seats are found. Both are live, and the seats are those of their
    /// rows. If the set lists one object, its number is given, if it exists. If memory runs out, the answer is `NoMemory`,
    /// and nothing that any call shows has changed.
    #[inline(always)]
    pub fn delegate_at(
        &mut self,
        from: Sitter,
        to: Sitter,
        obs: &ObSet,
        only: Option<usize>,
    ) -> Result<(), NoMemory>
        requires giver { is_live_status (status_in self.old.trans from.t.0) ≡ true }
        requires taker { is_live_status (status_in self.old.trans to.t.0) ≡ true }
        requires giver_seat { from.at ≡ seat_in self.old.trans from.t.0 }
        requires taker_seat { to.at ≡ seat_in self.old.trans to.t.0 }
        requires only { (x : Ob) → only_in obs.now ≡ Some x → only ≡ number_of self.old.objects x.0 }
        ensures stand { OnOk result (ShowsWith self.old (Step.Delegate from.t to.t obs.now) self.new) }
        ensures locks { OnOk result (self.new.locks ≡ hand_over_in from.t.0 to.t.0 obs.now self.old.locks) }
        ensures unchanged { OnErr result (SameViewInAnyOrder self.new self.old) }
    {
        copy_permits(
            self.alloc,
            &self.parts.seats,
            &self.parts.locks,
            &mut self.parts.permits,
            from,
            to,
            obs,
            only,
        )?;
        let parts = &mut self.parts;
        let seats = &parts.seats;
        parts.locks.hand_over(seats, from, to, obs, only);
        parts.objects.hand_over(seats, from, to, obs, only);
        Ok(())
    }
}
