//! The permit that is asked for, in a row or a column.

ghost use Rattle.std.specs.Prelude.{◌≡◌, ◌≢◌, ℕ, true, false, Some, IfSome, IfNone};
ghost use Rattle.slab.specs.Slab.{get};
ghost use Rattle.asset_chains.specs.Chained.{home_of};
ghost use Rattle.asset_chains.specs.Crossed.{lines};
ghost use Rattle.asset_permits.specs.Stored.{asked};

use crate::permit::{Permit, Sought};
use asset_chains::{Crossed, Side};

/// Returns the key of the permit that is asked for, if it is in the row or column of the seat.
pub(crate) fn find(
    permits: &Crossed<Permit>,
    side: Side,
    seat: usize,
    sought: &Sought,
) -> Option<usize>
    ensures found { IfSome result (λ k. get permits.now.items k ≡ Some (asked sought.now)) }
    ensures absent { IfNone result ((k : ℕ) → home_of (lines side permits.now) k ≡ Some seat → get permits.now.items k ≢ Some (asked sought.now)) }
{
    permits.laws();
    let mut next = permits.first(side, seat);
    'keys: while let Some(key) = next {
        if is_at(permits, key, sought) {
            return Some(key);
        }
        next = permits.next(side, key);
    }
    None
}

/// Returns whether the permit at the key is the one that is asked for.
fn is_at(permits: &Crossed<Permit>, key: usize, sought: &Sought) -> bool
    ensures found { result ≡ true → get permits.now.items key ≡ Some (asked sought.now) }
    ensures absent { result ≡ false → get permits.now.items key ≢ Some (asked sought.now) }
{
    match permits.get(key) {
        Some(permit) => permit.is_same(sought),
        None => false,
    }
}
