//! The updates of one transaction become another's.

ghost use Rattle.std.specs.Prelude.{◌≡◌, ℕ, ◌==◌, ◌≤◌, ◌*◌, cond, true, false, List, length, map, Some};
ghost use Rattle.std.specs.List.{list_any};
ghost use Rattle.asset_names.specs.declared.names.Ob.{Ob as Object};
ghost use Rattle.asset_names.specs.InSet.{in_set, only_in};
ghost use Rattle.asset_chains.specs.Crossed.{has_room};
ghost use Rattle.asset_seats.specs.Seated.{HasSeat};
ghost use Rattle.asset_records.specs.Listed.{lists_in, on, is_of, records_by, IsTied, IsNoMore};
ghost use Rattle.asset_records.specs.Handed.{renamed};
ghost use Rattle.asset_names.specs.Numbered.{number_in};

use asset_names::{Ob, ObSet};
use asset_records::{Picks, Records};
use asset_seats::{Seats, Sitter};
use indexmap::IndexSet;

/// The objects of a set, by their indexes.
#[derive(Clone, Copy)]
struct Among<'a> {
    objects: &'a IndexSet<Ob>,
    set: &'a ObSet,
}

impl<'a> Picks for Among<'a> {
    ghost use Rattle.asset_objects.specs.Placed.{is_among};

    ghost picks = { λ among i. is_among among.objects.now.keys among.set.now i };

    fn picks(&self, object: usize) -> bool {
        match self.objects.get_index(object) {
            Some(x) => self.set.has(*x),
            None => false,
        }
    }

    fn only(&self) -> Option<usize> {
        None
    }
}

/// Makes the giver's records on the object of this number the taker's. If there is no such object, nothing changes. Returns how
/// many records were visited.
fn hand_over_one(
    records: &mut Records,
    seats: &Seats,
    giver: Sitter,
    taker: Sitter,
    number: Option<usize>,
) -> usize
    requires tied { IsTied records.old seats.now }
    requires giver { HasSeat seats.now giver }
    requires taker { HasSeat seats.now taker }
    ensures tied { IsTied records.new seats.now }
    ensures few { IsNoMore records.old records.new }
    ensures many { length (lists_in records.new) ≡ length (lists_in records.old) }
    ensures lists { (objects : List Object) (x y i : ℕ) → number ≡ number_in objects x → number_in objects y ≡ Some i → on (lists_in records.new) i ≡ cond (x == y) (map (renamed giver.t.0 taker.t.0) (on (lists_in records.old) i)) (on (lists_in records.old) i) }
    ensures counted { (taker.t.0 == giver.t.0) ≡ false → (i : ℕ) → number ≡ Some i → list_any (is_of giver.t.0) (on (lists_in records.old) i) ≡ true → 1 ≤ result }
    ensures visits { result ≤ 4 * records_by (λ n. n == giver.t.0) (lists_in records.old) }
    ensures reserved { has_room records.old ≡ true → has_room records.new ≡ true }
{
    match number {
        Some(number) => records.hand_over_on(seats, giver, taker, number),
        None => 0,
    }
}

/// Makes the giver's records on the objects of the set the taker's. If the set lists one object, its number is given. Returns
/// how many records were visited.
pub(crate) fn hand_over(
    objects: &IndexSet<Ob>,
    records: &mut Records,
    seats: &Seats,
    giver: Sitter,
    taker: Sitter,
    set: &ObSet,
    only: Option<usize>,
) -> usize
    requires tied { IsTied records.old seats.now }
    requires giver { HasSeat seats.now giver }
    requires taker { HasSeat seats.now taker }
    requires only { (x : Object) → only_in set.now ≡ Some x → only ≡ number_in objects.now.keys x.0 }
    ensures tied { IsTied records.new seats.now }
    ensures few { IsNoMore records.old records.new }
    ensures many { length (lists_in records.new) ≡ length (lists_in records.old) }
    ensures lists { (y i : ℕ) → number_in objects.now.keys y ≡ Some i → on (lists_in records.new) i ≡ cond (in_set set.now y) (map (renamed giver.t.0 taker.t.0) (on (lists_in records.old) i)) (on (lists_in records.old) i) }
    ensures counted { (taker.t.0 == giver.t.0) ≡ false → (y i : ℕ) → number_in objects.now.keys y ≡ Some i → in_set set.now y ≡ true → list_any (is_of giver.t.0) (on (lists_in records.old) i) ≡ true → 1 ≤ result }
    ensures visits { result ≤ 4 * records_by (λ n. n == giver.t.0) (lists_in records.old) }
    ensures reserved { has_room records.old ≡ true → has_room records.new ≡ true }
{
    match set.only() {
        Some(_) => hand_over_one(records, seats, giver, taker, only),
        None => records.hand_over(seats, giver, taker, &Among { objects, set }),
    }
}
