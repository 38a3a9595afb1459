//! The value of an object, by going over the entries from the oldest on.

ghost use Rattle.std.specs.Prelude.{◌≡◌, ◌<◌, ◌+◌, ℤ, length, reverse};
ghost use Rattle.asset_names.specs.Steps.{applied};
ghost use Rattle.asset_names.specs.Operations.{operations, stands, value_after};
ghost use Rattle.asset_reference.specs.Owners.{operated_within, operation_of};
ghost use Rattle.asset_reference.specs.Scans.{value_past};

use crate::operating::{Operated, operation_at};
use crate::tracks::was_aborted;
use asset_names::{Ob, Reply, Step};

/// Returns the value of the object after the operation, over the value before it: the same, unless the operation is on the object
/// and stands.
#[tactic(auto, unfolding(crate::specs::Scans::value_past, crate::specs::Owners::operation_of, asset_names::specs::Operations::stands))]
fn value_past(entries: &[(Step, Reply)], o: Operated, x: Ob, before: i64) -> i64
    ensures { result ≡ value_past (stands (applied (reverse entries.now))) (operation_of o) x.0 before }
{
    if o.x == x && !was_aborted(entries, o.owner) {
        o.used.after(before)
    } else {
        before
    }
}

/// Returns the value of the object after the entry of this index, over the value before it.
#[tactic(auto, unfolding(crate::specs::Owners::listed), using(crate::proofs::ScanLemmas::value_of_more))]
fn value_at(entries: &[(Step, Reply)], index: usize, x: Ob, before: i64) -> i64
    requires { index < length entries.now }
    ensures { (first : ℤ) → before ≡ value_after (stands (applied (reverse entries.now))) x.0 first (operated_within entries.now index)
        → result ≡ value_after (stands (applied (reverse entries.now))) x.0 first (operated_within entries.now (index + 1)) }
{
    match operation_at(entries, index) {
        Some(o) => value_past(entries, o, x, before),
        None => before,
    }
}

/// Returns the value of the object after the entries, over its first value.
pub fn value_over(entries: &[(Step, Reply)], x: Ob, first: i64) -> i64
    ensures { result ≡ value_after (stands (applied (reverse entries.now))) x.0 first (operations (applied (reverse entries.now))) }
{
    let mut now = first;
    'entries: for index in 0..entries.len() {
        now = value_at(entries, index, x, now);
    }
    now
}
