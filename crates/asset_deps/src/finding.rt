//! The dependency that is asked for, in a row or a column, and the seat of a transaction that is enrolled.

ghost use Rattle.std.specs.Prelude.{◌≡◌, ◌≢◌, ℕ, ◌==◌, true, false, Some};
ghost use Rattle.asset_names.specs.declared.steps.Kind.TheVariants.{Gc};
ghost use Rattle.slab.specs.Slab.{get};
ghost use Rattle.asset_names.specs.Arrows.{lists};
ghost use Rattle.asset_chains.specs.Chained.{home_of};
ghost use Rattle.asset_chains.specs.Crossed.{lines};
ghost use Rattle.asset_seats.specs.Seated.{HasSeat};
ghost use Rattle.asset_deps.specs.Valid.{names_of};

use crate::link::Link;
use asset_chains::{Crossed, Side};
use asset_names::{Kind, Txn};
use asset_seats::{Seats, Sitter};

/// Returns whether the dependency that is asked for is in the row or column of the seat, or there at all.
pub(crate) fn is_there(links: &Crossed<Link>, side: Side, seat: usize, sought: &Link) -> bool
    ensures found { result ≡ true → (k : ℕ) × (get links.now.items k ≡ Some sought.now) }
    ensures absent { result ≡ false → (k : ℕ) → home_of (lines side links.now) k ≡ Some seat → get links.now.items k ≢ Some sought.now }
{
    links.laws();
    let mut next = links.first(side, seat);
    'keys: while let Some(key) = next {
        if is_at(links, key, sought) {
            return true;
        }
        next = links.next(side, key);
    }
    false
}

/// Returns whether the dependency at the key is the one that is asked for.
fn is_at(links: &Crossed<Link>, key: usize, sought: &Link) -> bool
    ensures found { result ≡ true → get links.now.items key ≡ Some sought.now }
    ensures absent { result ≡ false → get links.now.items key ≢ Some sought.now }
{
    match links.get(key) {
        Some(link) => link.is_same(sought),
        None => false,
    }
}

/// Returns a transaction that is enrolled, with its seat.
pub(crate) fn sitter_in(seats: &Seats, t: Txn) -> Sitter
    requires { lists (names_of seats.now) t.0 ≡ true }
    ensures sits { HasSeat seats.now result }
    ensures name { result.t ≡ t }
{
    let at = seats.seat_of(t).unwrap();
    Sitter { t, at }
}

/// Returns whether a dependency between two of which one has no seat would close a cycle: it does so if it is one of a
/// transaction on itself, by a commit or an abort.
pub(crate) fn is_loop(kind: Kind, a: Txn, b: Txn) -> bool
    ensures group { kind ≡ Gc → result ≡ false }
    ensures order { kind ≢ Gc → result ≡ (a.0 == b.0) }
{
    match kind {
        Kind::Gc => false,
        Kind::Cd => a == b,
        Kind::Ad => a == b,
    }
}
