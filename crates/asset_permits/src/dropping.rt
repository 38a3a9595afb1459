//! Permits go, and with them the seats of those who have no other.

ghost use Rattle.std.specs.Prelude.{◌≡◌, ◌≢◌, ℕ, ◌<◌, true, None, Some, is_some};
ghost use Rattle.slab.specs.Slab.{get, slab_len};
ghost use Rattle.asset_chains.specs.Chained.{home_of};
ghost use Rattle.asset_chains.specs.Crossed.{lines};
ghost use Rattle.asset_permits.specs.Valid.{IsUsed};
ghost use Rattle.asset_permits.specs.Changes.{Shrinks, NoSeatComes};

use crate::permit::Permit;
use crate::seating::leave_if_unused;
use asset_chains::{Crossed, Side};
use asset_seats::Seats;

/// Takes the permit at `key` out. Who has no other permit leaves its seat.
pub(crate) fn drop_at(permits: &mut Crossed<Permit>, seats: &mut Seats, key: usize)
    requires used { IsUsed permits.old seats.old }
    requires there { is_some (get permits.old.items key) ≡ true }
    ensures used { IsUsed permits.new seats.new }
    ensures shrinks { Shrinks permits.old permits.new }
    ensures left { NoSeatComes seats.old seats.new }
    ensures others { (k : ℕ) → k ≢ key → get permits.new.items k ≡ get permits.old.items k }
    ensures gone { get permits.new.items key ≡ None }
    ensures fewer { slab_len permits.new.items < slab_len permits.old.items }
{
    permits.laws();
    if let Some(from) = permits.home(Side::Row, key) {
        if let Some(to) = permits.home(Side::Column, key) {
            permits.remove(key);
            permits.laws();
            leave_if_unused(permits, seats, from);
            leave_if_unused(permits, seats, to);
        }
    }
}

/// Drops the permits in the row or column of the seat.
pub(crate) fn drop_along(permits: &mut Crossed<Permit>, seats: &mut Seats, side: Side, seat: usize)
    requires { IsUsed permits.old seats.old }
    ensures used { IsUsed permits.new seats.new }
    ensures shrinks { Shrinks permits.old permits.new }
    ensures left { NoSeatComes seats.old seats.new }
    ensures gone { (k : ℕ) → home_of (lines side permits.new) k ≢ Some seat }
    ensures kept { (k : ℕ) → home_of (lines side permits.old) k ≢ Some seat → get permits.new.items k ≡ get permits.old.items k }
{
    permits.laws();
    'first: while let Some(key) = permits.first(side, seat) {
        drop_at(permits, seats, key);
        permits.laws();
    }
}
