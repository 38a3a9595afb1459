//! Whether an object is free, by going over the entries.

ghost use Rattle.std.specs.Prelude.{◌≡◌, ◌<◌, ◌+◌, ◌||◌, ◌&&◌, ◌==◌, not, length, reverse};
ghost use Rattle.std.specs.List.{list_any};
ghost use Rattle.asset_names.specs.Steps.{applied};
ghost use Rattle.asset_names.specs.Endings.{live};
ghost use Rattle.asset_names.specs.Operations.{blocks, free, allows};
ghost use Rattle.asset_reference.specs.Owners.{operated_within, operation_of};

use crate::allowing::allows;
use crate::operating::{Operated, operation_at};
use crate::tracks::is_live;
use asset_names::{Ob, Op, Reply, Step, Txn};

/// Returns whether an operation of this owner blocks `t` from doing `op` on `x`: the owner is another live
/// transaction that does not allow it.
#[tactic(auto)]
fn owner_blocks(entries: &[(Step, Reply)], owner: Txn, t: Txn, x: Ob, op: Op) -> bool
    ensures { result ≡ (not (owner.0 == t.0) && live (applied (reverse entries.now)) owner.0 && not (allows (applied (reverse entries.now)) owner.0 t.0 x.0 op)) }
{
    owner != t && is_live(entries, owner) && !allows(entries, owner, t, x, op)
}

/// Returns whether the operation blocks `t` from doing `op` on `x`.
#[tactic(auto, unfolding(asset_names::specs::Operations::blocks, crate::specs::Owners::operation_of))]
fn blocks(entries: &[(Step, Reply)], o: Operated, t: Txn, x: Ob, op: Op) -> bool
    ensures { result ≡ blocks (applied (reverse entries.now)) t.0 x.0 op (operation_of o) }
{
    o.x == x && o.used.op().conflicts_with(op) && owner_blocks(entries, o.owner, t, x, op)
}

/// Returns whether the entry of this index is an operation that blocks `t` from doing `op` on `x`.
#[tactic(auto, unfolding(crate::specs::Owners::listed))]
fn entry_blocks(entries: &[(Step, Reply)], index: usize, t: Txn, x: Ob, op: Op) -> bool
    requires { index < length entries.now }
    ensures { list_any (blocks (applied (reverse entries.now)) t.0 x.0 op) (operated_within entries.now (index + 1))
        ≡ (result || list_any (blocks (applied (reverse entries.now)) t.0 x.0 op) (operated_within entries.now index)) }
{
    match operation_at(entries, index) {
        Some(o) => blocks(entries, o, t, x, op),
        None => false,
    }
}

/// Returns whether the object is free for `t` to do `op`.
pub fn is_free(entries: &[(Step, Reply)], t: Txn, x: Ob, op: Op) -> bool
    ensures { result ≡ free (applied (reverse entries.now)) t.0 x.0 op }
{
    let mut blocked = false;
    'entries: for index in 0..entries.len() {
        blocked = entry_blocks(entries, index, t, x, op) || blocked;
    }
    !blocked
}
