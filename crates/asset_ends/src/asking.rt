//! Whether an object is free for a transaction, which may have no seat.

ghost use Rattle.std.specs.Prelude.{◌≡◌};
ghost use Rattle.asset_names.specs.Numbered.{number_in};
ghost use Rattle.asset_locks.specs.LockTable.{is_free_in};
ghost use Rattle.asset_locks.specs.Tied.{rows_in, IsTied};
ghost use Rattle.asset_permits.specs.Valid.{permits_in, IsTied as ArePermitsTied};
ghost use Rattle.asset_ends.specs.Standing.{LiveAreSeated, allows_in};

use crate::seating::sitter_of;
use asset_locks::{Allows, SeatedLocks};
use asset_names::{Ob, Op, Txn};
use asset_permits::SeatedPermits;
use asset_seats::{Seats, Sitter};
use asset_trans::Trans;

/// The permits, as one without a seat asks them: it is not live, so each allows itself alone.
#[derive(Drop)]
pub(crate) struct NoPermits;

impl Allows for NoPermits {
    ghost use Rattle.std.specs.Prelude.{⊤, ◌==◌};

    ghost can_ask = { λ _ _ _. ⊤ };

    ghost allows = { λ _ u t _ _. u == t };

    fn allows(
        &mut self,
        _seats: &Seats,
        holder: Sitter,
        asker: Sitter,
        _x: Ob,
        _op: Op,
        _again: bool,
    ) -> bool {
        holder.t == asker.t
    }
}

/// Returns whether `x`, whose number is given if it exists, is free for `t` to do `op`. Nothing changes.
pub(crate) fn is_free(
    trans: &Trans,
    seats: &Seats,
    locks: &SeatedLocks,
    permits: &mut SeatedPermits,
    t: Txn,
    number: Option<usize>,
    x: Ob,
    op: Op,
) -> bool
    requires seated { LiveAreSeated trans.now seats.now }
    requires locks { IsTied locks.now seats.now }
    requires number { number ≡ number_in locks.now.store.objects x.0 }
    requires permits { ArePermitsTied permits.old seats.now }
    ensures free { result ≡ is_free_in (rows_in seats.now locks.now) (λ u. allows_in trans.now (permits_in permits.old) u t.0 x.0 op) t.0 x.0 op }
    ensures permits { permits.new ≡ permits.old }
{
    match sitter_of(trans, seats, t) {
        Some(one) => locks.is_free(seats, one, number, x, op, permits),
        None => {
            let one = Sitter { t, at: 0 };
            locks.is_free(seats, one, number, x, op, &mut NoPermits)
        }
    }
}
