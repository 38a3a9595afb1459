//! The law of marks and arrows.

ghost use Rattle.std.specs.Prelude.{◌≡◌, ℕ, true, false, List, reverse, slice_get, Contains, None, Some};
ghost use Rattle.asset_names.specs.Steps.{Entry};
ghost use Rattle.asset_sources.specs.declared.sourced.Source.TheVariants as Source';
ghost use Rattle.asset_sources.specs.Sourced.{source_at};
ghost use Rattle.asset_lanes.specs.declared.pointing.Arrow.{Arrow};
ghost use Rattle.asset_lanes.specs.declared.pointing.ArrowKind.TheVariants.{Source};
ghost use Rattle.asset_lanes.specs.Promised.{picture_arrows, operates, HasOneMark, HasNoMark, GoesToSource, HasSourceArrow};

/// A picture has one mark for each read, each write and each add that took effect, in its transaction's lane, which shows
/// what was read, written or added, and no other. Each arrow of a read goes from the lane of who read to the entry that is
/// its source, in the lane of who wrote it; and each read whose source is an entry has such an arrow.
pub fn pictures_mark_operations()
    ensures marked { (entries : List Entry) (number : ℕ) (entry : Entry) → slice_get (reverse entries) number ≡ Some entry → operates entry ≡ true → HasOneMark entries number entry }
    ensures unmarked { (entries : List Entry) (number : ℕ) (entry : Entry) → slice_get (reverse entries) number ≡ Some entry → operates entry ≡ false → HasNoMark entries number }
    ensures past { (entries : List Entry) (number : ℕ) → slice_get (reverse entries) number ≡ None → HasNoMark entries number }
    ensures sources { (entries : List Entry) (arrow : Arrow) → Contains (picture_arrows entries) arrow → arrow.kind ≡ Source → GoesToSource entries arrow }
    ensures drawn { (entries : List Entry) (number to : ℕ) → source_at entries number ≡ Some (Source'.Entry to) → HasSourceArrow entries number to }
{}
