//! Seats for those who write or add, by name.

ghost use Rattle.std.specs.Prelude.{◌≡◌, ℕ, ◌+◌, ◌<◌, ◌≤◌, true, false, None, Some, is_none, length, IfSome, IfNone, IsOk, OnOk};
ghost use Rattle.slab.specs.Slab.{slab_len};
ghost use Rattle.asset_names.specs.declared.names.Txn.{Txn as Name};
ghost use Rattle.asset_chains.specs.Chained.{chain_of, first_of};
ghost use Rattle.asset_seats.specs.Seated.{seat, HasSeat};
ghost use Rattle.asset_records.specs.Listed.{seat_column, IsNoMore};
ghost use Rattle.asset_objects.specs.Placed.{objects_in, IsTied, HasRoom};

use crate::seated::SeatedObjects;
use asset_names::{NoMemory, Txn};
use asset_seats::{Seats, Sitter};

/// Returns the transaction with its seat if it has an update, and `None` otherwise.
pub(crate) fn writer(seats: &Seats, table: &SeatedObjects, t: Txn) -> Option<Sitter>
    ensures found { IfSome result (λ one. HasSeat seats.now one × (one.t ≡ t) × (is_none (first_of (chain_of table.now.records.columns (seat_column one.at))) ≡ false)) }
    ensures none { IfNone result ((c : ℕ) → seat seats.now c ≡ Some t → first_of (chain_of table.now.records.columns (seat_column c)) ≡ None) }
{
    let at = seats.seat_of(t)?;
    if table.is_unused(at) {
        None
    } else {
        Some(Sitter { t, at })
    }
}

/// Returns the first seat in whose column there is no record, of more seats than there are records.
fn first_unused(table: &SeatedObjects, seats: usize) -> usize
    requires { slab_len table.now.records.items < seats }
    ensures within { result < seats }
    ensures unused { is_none (first_of (chain_of table.now.records.columns (seat_column result))) ≡ true }
{
    table.few_seats();
    'seats: for c in 0..seats {
        if table.is_unused(c) {
            return c;
        }
    }
    unreachable!()
}

/// Returns a seat in whose column there is no record, of more seats than there are records. If a seat is free, the one that is
/// given next will do.
fn unused(seats: &Seats, table: &SeatedObjects) -> usize
    requires { slab_len table.now.records.items < length seats.now.slots }
    ensures within { result < length seats.now.slots }
    ensures unused { is_none (first_of (chain_of table.now.records.columns (seat_column result))) ≡ true }
{
    let next = seats.vacant();
    if next < seats.seats() && table.is_unused(next) {
        return next;
    }
    first_unused(table, seats.seats())
}

/// Makes sure that a seat is free: if none is, one whose transaction has no update any more leaves its seat.
fn free_seat(seats: &mut Seats, table: &SeatedObjects)
    requires tied { IsTied table.now seats.old }
    requires spare { slab_len table.now.records.items < length seats.old.slots }
    ensures tied { IsTied table.now seats.new }
    ensures room { seats.new.has_room ≡ true }
    ensures nobody { (c : ℕ) (t : Name) → seat seats.new c ≡ Some t → seat seats.old c ≡ Some t }
    ensures kept { (c : ℕ) → is_none (first_of (chain_of table.now.records.columns (seat_column c))) ≡ false → seat seats.new c ≡ seat seats.old c }
    ensures slots { length seats.new.slots ≡ length seats.old.slots }
{
    let c = unused(seats, table);
    table.may_clear(seats);
    seats.leave(c);
    seats.laws();
}

/// Returns the transaction with its seat, which it is given if it has none. It takes no memory, and looks at each seat if no
/// seat is free.
pub(crate) fn seat_for(seats: &mut Seats, table: &SeatedObjects, t: Txn) -> Sitter
    requires tied { IsTied table.now seats.old }
    requires spare { slab_len table.now.records.items < length seats.old.slots }
    requires columns { (c : ℕ) → c < length seats.old.slots → HasRoom table.now c }
    ensures tied { IsTied table.now seats.new }
    ensures sits { HasSeat seats.new result × (result.t ≡ t) }
    ensures kept { (c : ℕ) (u : Name) → is_none (first_of (chain_of table.now.records.columns (seat_column c))) ≡ false → seat seats.old c ≡ Some u → seat seats.new c ≡ Some u }
    ensures slots { length seats.new.slots ≡ length seats.old.slots }
{
    if let Some(at) = seats.seat_of(t) {
        return Sitter { t, at };
    }
    free_seat(seats, table);
    table.may_sit(seats);
    seats.laws();
    let at = seats.sit(t);
    Sitter { t, at }
}

/// Returns whether there are fewer than `records + 2` seats.
fn are_too_few(seats: usize, records: usize) -> bool
    ensures few { result ≡ true → seats < records + 2 }
    ensures enough { result ≡ false → records + 1 < seats }
{
    seats < 2 || seats - 2 < records
}

/// Makes sure that there are two seats more than records, each with its column. If memory runs out, nothing that callers see
/// changes, and nobody loses a seat.
pub(crate) fn add_seats(seats: &mut Seats, table: &mut SeatedObjects) -> Result<(), NoMemory>
    requires tied { IsTied table.old seats.old }
    requires columns { (c : ℕ) → c < length seats.old.slots → HasRoom table.old c }
    ensures tied { IsTied table.new seats.new }
    ensures columns { (c : ℕ) → c < length seats.new.slots → HasRoom table.new c }
    ensures shown { objects_in table.new ≡ objects_in table.old }
    ensures few { IsNoMore table.old.records table.new.records }
    ensures slots { length seats.old.slots ≤ length seats.new.slots }
    ensures enough { OnOk result (slab_len table.new.records.items + 1 < length seats.new.slots) }
    ensures standing { slab_len table.old.records.items + 1 < length seats.old.slots → IsOk result }
{
    'seats: while are_too_few(seats.seats(), table.len()) {
        table.make_room(seats.seats())?;
        seats.add_seat()?;
    }
    Ok(())
}
