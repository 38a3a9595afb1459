//! The seats of live transactions, which their rows say.

ghost use Rattle.std.specs.Prelude.{◌≡◌, ◌≢◌, ℕ, true, Some, IfSome, IfNone, IfOk};
ghost use Rattle.asset_seats.specs.Seated.{seat, HasSeat};
ghost use Rattle.asset_objects.specs.Placed.{objects_in};
ghost use Rattle.asset_permits.specs.Valid.{permits_in};
ghost use Rattle.asset_deps.specs.Valid.{dependencies_in};
ghost use Rattle.asset_ends.specs.Standing.{LiveAreSeated};
ghost use Rattle.asset_locks.specs.Tied.{rows_in};
ghost use Rattle.asset_ends.specs.Tied.{HasRoom, AreTied};

use asset_deps::SeatedDeps;
use asset_locks::SeatedLocks;
use asset_names::{NoMemory, Txn};
use asset_objects::SeatedObjects;
use asset_permits::SeatedPermits;
use asset_seats::{Seats, Sitter};
use asset_trans::Trans;

/// Returns a live transaction with its seat, and `None` for any other. It looks at one row.
pub(crate) fn sitter_of(trans: &Trans, seats: &Seats, t: Txn) -> Option<Sitter>
    requires { LiveAreSeated trans.now seats.now }
    ensures sits { IfSome result (λ one. HasSeat seats.now one × (one.t ≡ t)) }
    ensures absent { IfNone result ((c : ℕ) → seat seats.now c ≢ Some t) }
{
    let _ = seats;
    match trans.find(t) {
        Some(row) => {
            if row.status.is_live() {
                Some(Sitter { t, at: row.seat })
            } else {
                None
            }
        }
        None => None,
    }
}

/// Reserves a seat, makes room for it in the tables, and returns it: it is given next. If memory runs out, nobody's seat
/// has changed, and no object, lock, permit or dependency that any call shows.
pub(crate) fn make_room(
    seats: &mut Seats,
    objects: &mut SeatedObjects,
    locks: &mut SeatedLocks,
    permits: &mut SeatedPermits,
    deps: &mut SeatedDeps,
) -> Result<usize, NoMemory>
    requires tied { AreTied objects.old locks.old permits.old deps.old seats.old }
    ensures room { IfOk result (λ c. (seats.new.vacant ≡ c) × (seats.new.has_room ≡ true) × HasRoom objects.new locks.new permits.new deps.new c) }
    ensures seats { (c : ℕ) → seat seats.new c ≡ seat seats.old c }
    ensures objects { objects_in objects.new ≡ objects_in objects.old }
    ensures locks { rows_in seats.new locks.new ≡ rows_in seats.old locks.old }
    ensures permits { permits_in permits.new ≡ permits_in permits.old }
    ensures dependencies { dependencies_in deps.new ≡ dependencies_in deps.old }
    ensures tied { AreTied objects.new locks.new permits.new deps.new seats.new }
{
    seats.reserve()?;
    let vacant = seats.vacant();
    objects.make_room(vacant)?;
    locks.make_room(vacant)?;
    permits.make_room(vacant)?;
    deps.make_room(vacant)?;
    Ok(vacant)
}
