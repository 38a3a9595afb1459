//! Who holds an object, by going over the entries.

ghost use Rattle.std.specs.Prelude.{◌≡◌, ◌<◌, ◌+◌, ◌||◌, length, reverse};
ghost use Rattle.std.specs.List.{list_any};
ghost use Rattle.asset_names.specs.Steps.{applied};
ghost use Rattle.asset_names.specs.Operations.{operations, holds_object};
ghost use Rattle.asset_reference.specs.Owners.{operated_within};
ghost use Rattle.asset_reference.specs.Scans.{is_on};

use crate::operating::operation_at;
use crate::tracks::is_live;
use asset_names::{Ob, Reply, Step, Txn};

/// Returns whether the entry of this index is an operation on `x` for which `t` is responsible.
#[tactic(auto, unfolding(crate::specs::Owners::listed, crate::specs::Owners::operation_of, crate::specs::Scans::is_on))]
fn entry_is_on(entries: &[(Step, Reply)], index: usize, t: Txn, x: Ob) -> bool
    requires { index < length entries.now }
    ensures { list_any (is_on t.0 x.0) (operated_within entries.now (index + 1)) ≡ (result || list_any (is_on t.0 x.0) (operated_within entries.now index)) }
{
    match operation_at(entries, index) {
        Some(o) => o.owner == t && o.x == x,
        None => false,
    }
}

/// Returns whether `t` is responsible for an operation on `x`.
fn has_operated(entries: &[(Step, Reply)], t: Txn, x: Ob) -> bool
    ensures { result ≡ list_any (is_on t.0 x.0) (operations (applied (reverse entries.now))) }
{
    let mut found = false;
    'entries: for index in 0..entries.len() {
        found = entry_is_on(entries, index, t, x) || found;
    }
    found
}

/// Returns whether `t` holds `x`: it is live, and responsible for an operation on `x`.
#[tactic(auto, unfolding(asset_names::specs::Operations::holds_object, crate::specs::Scans::is_on))]
pub fn holds_object(entries: &[(Step, Reply)], t: Txn, x: Ob) -> bool
    ensures { result ≡ holds_object (applied (reverse entries.now)) t.0 x.0 }
{
    is_live(entries, t) && has_operated(entries, t, x)
}
