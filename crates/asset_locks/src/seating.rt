//! Seats for those who are enrolled, by name.

ghost use Rattle.std.specs.Prelude.{◌≡◌, ◌⊎◌, ℕ, Some, true, is_some, IfOk, IsOk, OnErr};
ghost use Rattle.asset_names.specs.declared.names.Txn.{Txn as Name};
ghost use Rattle.asset_seats.specs.Seated.{seat, HasSeat};
ghost use Rattle.asset_locks.specs.LockTable.{enrolled_in};
ghost use Rattle.asset_locks.specs.Tied.{rows_in, IsTied};

use crate::table::SeatedLocks;
use asset_names::{NoMemory, Txn};
use asset_seats::{Seats, Sitter};

/// Returns the seat of a transaction, which is given one if it has none. No row changes. If memory runs out, nobody is
/// given a seat.
pub(crate) fn seat_for(
    seats: &mut Seats,
    table: &mut SeatedLocks,
    t: Txn,
) -> Result<Sitter, NoMemory>
    requires { IsTied table.old seats.old }
    ensures tied { IsTied table.new seats.new }
    ensures rows { rows_in seats.new table.new ≡ rows_in seats.old table.old }
    ensures objects { table.new.store.objects ≡ table.old.store.objects }
    ensures name { IfOk result (λ sitter. sitter.t ≡ t) }
    ensures sits { IfOk result (λ sitter. HasSeat seats.new sitter) }
    ensures others { IfOk result (λ sitter. (c : ℕ) (u : Name) → seat seats.new c ≡ Some u → (seat seats.old c ≡ Some u) ⊎ (u ≡ t)) }
    ensures standing { (c : ℕ) → seat seats.old c ≡ Some t → IsOk result }
    ensures unchanged { OnErr result ((c : ℕ) → seat seats.new c ≡ seat seats.old c) }
{
    table.laws(seats);
    if let Some(at) = seats.seat_of(t) {
        return Ok(Sitter { t, at });
    }
    seats.reserve()?;
    let vacant = seats.vacant();
    table.make_room(vacant)?;
    table.laws(seats);
    let at = seats.sit(t);
    Ok(Sitter { t, at })
}

/// Returns a transaction that is enrolled, with its seat.
pub(crate) fn sitter_in(seats: &Seats, table: &SeatedLocks, t: Txn) -> Sitter
    requires tied { IsTied table.now seats.now }
    requires enrolled { is_some (enrolled_in (rows_in seats.now table.now) t.0) ≡ true }
    ensures sits { HasSeat seats.now result }
    ensures name { result.t ≡ t }
{
    table.laws(seats);
    let Some(at) = seats.seat_of(t) else {
        unreachable!();
    };
    Sitter { t, at }
}
