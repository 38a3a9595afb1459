//! Transactions with the seats that they have.

ghost use Rattle.std.specs.Prelude.{IfSome};
ghost use Rattle.asset_seats.specs.Seated.{HasSeat};

use asset_names::Txn;
use asset_seats::{Seats, Sitter};

/// Returns a transaction with its seat, if it has one.
pub fn sitter(seats: &Seats, t: u64) -> Option<Sitter>
    ensures { IfSome result (λ s. HasSeat seats.now s) }
{
    let at = seats.seat_of(Txn(t))?;
    Some(Sitter { t: Txn(t), at })
}
