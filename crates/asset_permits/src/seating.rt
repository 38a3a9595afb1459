//! Seats for those who give and take, by name.

ghost use Rattle.std.specs.Prelude.{◌≡◌, ℕ, ◌==◌, ◌&&◌, not, cond, None, Some, IfOk, IsOk, OnErr};
ghost use Rattle.asset_seats.specs.Seated.{seat};
ghost use Rattle.asset_permits.specs.Valid.{permits_in, is_used, used_in, IsUsed, IsTied};
ghost use Rattle.asset_permits.specs.Changes.{Sits, BothSit};

use crate::permit::Permit;
use crate::table::SeatedPermits;
use asset_chains::{Crossed, Side};
use asset_names::{NoMemory, Txn};
use asset_seats::{Seats, Sitter};

/// Returns whether a permit is in the row or in the column of the seat.
#[tactic(auto, unfolding(crate::specs::Valid::is_used))]
fn is_used(permits: &Crossed<Permit>, c: usize) -> bool
    ensures { result ≡ is_used permits.now.rows permits.now.columns c }
{
    permits.first(Side::Row, c).is_some() || permits.first(Side::Column, c).is_some()
}

/// Takes the seat from whoever has it, if no permit is in its row or column.
pub(crate) fn leave_if_unused(permits: &Crossed<Permit>, seats: &mut Seats, c: usize)
    ensures { (d : ℕ) → seat seats.new d ≡ cond (d == c && not (is_used permits.now.rows permits.now.columns d)) None (seat seats.old d) }
{
    if !is_used(permits, c) {
        seats.leave(c);
    }
}

/// Returns the seat of a transaction, which is given one if it has none. If memory runs out, nobody's seat changes.
pub(crate) fn seat_for(
    seats: &mut Seats,
    table: &mut SeatedPermits,
    t: Txn,
) -> Result<Sitter, NoMemory>
    requires { IsTied table.old seats.old }
    ensures tied { IsTied table.new seats.new }
    ensures permits { permits_in table.new ≡ permits_in table.old }
    ensures used { (c : ℕ) → used_in table.new c ≡ used_in table.old c }
    ensures name { IfOk result (λ s. s.t ≡ t) }
    ensures sits { IfOk result (λ s. Sits t s.at seats.old seats.new) }
    ensures standing { (c : ℕ) → seat seats.old c ≡ Some t → IsOk result }
    ensures unchanged { OnErr result ((c : ℕ) → seat seats.new c ≡ seat seats.old c) }
{
    if let Some(at) = seats.seat_of(t) {
        return Ok(Sitter { t, at });
    }
    seats.reserve()?;
    let vacant = seats.vacant();
    table.make_room(vacant)?;
    let at = seats.sit(t);
    Ok(Sitter { t, at })
}

/// Returns the seats of two transactions, each of which is given one if it has none. If memory runs out, nobody's seat
/// changes.
pub(crate) fn seat_both(
    seats: &mut Seats,
    table: &mut SeatedPermits,
    giver: Txn,
    taker: Txn,
) -> Result<(Sitter, Sitter), NoMemory>
    requires tied { IsTied table.old seats.old }
    requires used { IsUsed table.old.permits seats.old }
    ensures tied { IsTied table.new seats.new }
    ensures permits { permits_in table.new ≡ permits_in table.old }
    ensures used { (c : ℕ) → used_in table.new c ≡ used_in table.old c }
    ensures names { IfOk result (λ both. (both.0.t ≡ giver) × (both.1.t ≡ taker)) }
    ensures sit { IfOk result (λ both. BothSit giver taker both.0.at both.1.at seats.old seats.new) }
    ensures standing { (c d : ℕ) → seat seats.old c ≡ Some giver → seat seats.old d ≡ Some taker → IsOk result }
    ensures unchanged { OnErr result ((c : ℕ) → seat seats.new c ≡ seat seats.old c) }
{
    let from = seat_for(seats, table, giver)?;
    match seat_for(seats, table, taker) {
        Ok(to) => Ok((from, to)),
        Err(NoMemory) => {
            table.laws();
            table.leave_if_unused(seats, from.at);
            Err(NoMemory)
        }
    }
}
