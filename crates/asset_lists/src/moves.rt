//! Two keys of a list change places.

ghost use Rattle.std.specs.Prelude.{◌≡◌, ◌==◌, ℕ, ◌<◌, ◌^◌, cond, length};
ghost use Rattle.asset_lists.specs.Parted.{IsAt};
ghost use Rattle.asset_lists.specs.Placed.{place_at, swapped, IsSwapped};

use crate::rows::Place;

/// Writes the position of a key.
fn set_position(places: &mut Vec<Place>, key: usize, position: u32)
    requires { key < length places.old.items }
    ensures size { length places.new.items ≡ length places.old.items }
    ensures places { (k : ℕ) → place_at places.new.items k ≡ cond (k == key) (record (place_at places.old.items k) { position = position }) (place_at places.old.items k) }
{
    let place = &mut places[key];
    place.position = position;
}

/// Swaps the keys at two positions of a list, and mends their places. If the positions are the same, nothing changes.
pub(crate) fn swap(keys: &mut [u32], places: &mut Vec<Place>, p: usize, q: usize)
    requires first { p < length keys.old }
    requires second { q < length keys.old }
    requires few { length keys.old < 2 ^ 32 }
    requires within { (i k : ℕ) → IsAt keys.old i k → k < length places.old.items }
    requires positions { (i k : ℕ) → IsAt keys.old i k → (place_at places.old.items k).position ≡ i }
    ensures size { length places.new.items ≡ length places.old.items }
    ensures swapped { IsSwapped p q keys.old keys.new }
    ensures moved { (i k : ℕ) → IsAt keys.old i k → place_at places.new.items k ≡ record (place_at places.old.items k) { position = swapped p q i } }
    ensures others { (k : ℕ) → ((i : ℕ) → IsAt keys.old i k → ⊥) → place_at places.new.items k ≡ place_at places.old.items k }
{
    if p == q {
        return;
    }
    let first = keys[p] as usize;
    let second = keys[q] as usize;
    set_position(places, first, q as u32);
    set_position(places, second, p as u32);
    keys.swap(p, q);
}
