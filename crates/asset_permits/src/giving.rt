//! Who gives permits.

use crate::table::SeatedPermits;
use asset_chains::Side;
use asset_seats::{Seats, Sitter};

impl SeatedPermits {
    ghost use Rattle.std.specs.Prelude.{◌≡◌};
    ghost use Rattle.asset_seats.specs.Seated.{HasSeat};
    ghost use Rattle.asset_permits.specs.Descriptors.{gives};
    ghost use Rattle.asset_permits.specs.Valid.{permits_in, IsTied};

    /// Returns whether the transaction gives a permit. The cost is constant.
    pub fn gives(&self, seats: &Seats, giver: Sitter) -> bool
        requires tied { IsTied self.now seats.now }
        requires giver { HasSeat seats.now giver }
        ensures { result ≡ gives giver.t.0 (permits_in self.now) }
    {
        seats.laws();
        self.permits.laws();
        self.permits.first(Side::Row, giver.at).is_some()
    }
}
