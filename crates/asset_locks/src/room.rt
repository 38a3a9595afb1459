//! Room for one more seat.

ghost use Rattle.std.specs.Prelude.{◌≡◌, ℕ, ◌<◌, ◌≤◌, length, OnOk};
ghost use Rattle.asset_chains.specs.Chained.{chain_of, home_of};
ghost use Rattle.asset_locks.specs.Tied.{pending_at};

use asset_chains::Chains;
use asset_names::{NoMemory, Ob, Op};
use asset_seats::{add_chains, add_keys};

/// Adds places for pending requests, with none in them, until the seat has one. If memory runs out, some may have been
/// added.
pub(crate) fn add_pending(pending: &mut Vec<Option<(Ob, Op)>>, c: usize) -> Result<(), NoMemory>
    ensures there { OnOk result (c < length pending.new.items) }
    ensures more { length pending.old.items ≤ length pending.new.items }
    ensures same { (d : ℕ) → pending_at pending.new.items d ≡ pending_at pending.old.items d }
{
    'places: while pending.len() <= c {
        match pending.push(None) {
            Ok(()) => {}
            Err(_) => return Err(NoMemory),
        }
    }
    Ok(())
}

/// Adds chains and keys to the order of enrolment, until the seat has a key in it. If memory runs out, some may have been
/// added.
pub(crate) fn add_to_order(order: &mut Chains, c: usize) -> Result<(), NoMemory>
    ensures chain { OnOk result (0 < length order.new.chains) }
    ensures key { OnOk result (c < length order.new.homes) }
    ensures chains { (d : ℕ) → chain_of order.new d ≡ chain_of order.old d }
    ensures homes { (k : ℕ) → home_of order.new k ≡ home_of order.old k }
    ensures many { length order.old.chains ≤ length order.new.chains }
    ensures keys { length order.old.homes ≤ length order.new.homes }
{
    add_chains(order, 0)?;
    add_keys(order, c)
}
