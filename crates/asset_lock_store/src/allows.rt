//! Who allows whom, as a look at locks asks it of the permits.

ghost use Rattle.std.specs.Prelude.{◌≡◌};
ghost use Rattle.asset_seats.specs.Seated.{HasSeat};

use asset_names::{Ob, Op};
use asset_permits::{Permits, SeatedPermits};
use asset_seats::{Seats, Sitter};

/// Permits, by name or by seat, as a look at locks asks them.
pub trait Allows {
    ghost use Rattle.std.specs.Prelude.{ℕ, Bool};
    ghost use Rattle.asset_names.specs.declared.operations.Op.{Op};
    ghost use Rattle.asset_seats.specs.Seated.{Seated};
    ghost use Rattle.asset_seats.specs.declared.sitter.Sitter.{Sitter};

    /// Whether this one may ask, with these seats.
    ghost can_ask: { Self → Seated → Sitter → Type 0 };

    /// Whether the first allows the second to do the operation on the object.
    ghost allows: { Self → ℕ → ℕ → ℕ → Op → Bool };

    /// Returns whether the holder, who has a seat, allows the asker to do `op` on `x`. Nothing changes.
    ///
    /// `again` says that other holders are asked about for the same request too, so that it may be worth finding all who
    /// allow the asker at once. The answer is the same.
    fn allows(
        &mut self,
        seats: &Seats,
        holder: Sitter,
        asker: Sitter,
        x: Ob,
        op: Op,
        again: bool,
    ) -> bool
        requires asker { can_ask self.old seats.now asker }
        requires holder { HasSeat seats.now holder }
        ensures allowed { result ≡ allows self.old holder.t.0 asker.t.0 x.0 op }
        ensures same { self.new ≡ self.old };
}

/// Permits by name look at nobody's seat, and search for each holder.
impl Allows for Permits {
    ghost use Rattle.std.specs.Prelude.{⊤};
    ghost use Rattle.asset_permits.specs.Descriptors.{allows_by};

    ghost can_ask = { λ _ _ _. ⊤ };

    ghost allows = { λ permits u t x op. allows_by permits u t x op };

    fn allows(
        &mut self,
        _seats: &Seats,
        holder: Sitter,
        asker: Sitter,
        x: Ob,
        op: Op,
        _again: bool,
    ) -> bool {
        self.allows(holder.t, asker.t, x, op)
    }
}

/// Permits by seat are tied to the seats, and the asker has one of them.
impl Allows for SeatedPermits {
    ghost use Rattle.asset_seats.specs.Seated.{HasSeat};
    ghost use Rattle.asset_permits.specs.Descriptors.{allows_by};
    ghost use Rattle.asset_permits.specs.Valid.{permits_in, IsTied};

    ghost can_ask = { λ table seats asker. IsTied table seats × HasSeat seats asker };

    ghost allows = { λ table u t x op. allows_by (permits_in table) u t x op };

    fn allows(
        &mut self,
        seats: &Seats,
        holder: Sitter,
        asker: Sitter,
        x: Ob,
        op: Op,
        again: bool,
    ) -> bool {
        if again {
            self.is_allower(seats, holder, asker, x, op)
        } else {
            self.allows(seats, holder, asker, x, op)
        }
    }
}
