//! Who permits an operation to anybody, by going over the entries from the newest on.

ghost use Rattle.std.specs.Prelude.{◌≡◌, ◌≤◌, ◌||◌, ◌++◌, List, ℕ, ◌∷◌, length, reverse, take};
ghost use Rattle.asset_names.specs.Arrows.{lists};
ghost use Rattle.asset_names.specs.Steps.{applied};
ghost use Rattle.asset_names.specs.Operations.{openers, opened_by};
ghost use Rattle.asset_reference.specs.Openers.{opened_names};

use crate::holding::holds_object;
use asset_names::{Ob, Op, Reply, Step, Txn, takes_effect};

/// Whom an entry adds to those who permit an operation to anybody.
#[derive(Clone, Copy)]
pub enum Opened {
    Nobody,
    /// The giver of an open permit.
    Giver(Txn),
    /// The second transaction, to which the first hands the object over, if the first is an opener of it.
    Taker(Txn, Txn),
}

/// Returns whom a step that takes effect after these entries adds to those who permit `op` on `x` to anybody.
#[tactic(auto, unfolding(crate::specs::Openers::opened_names, asset_names::specs::Operations::opened_by, asset_names::specs::InSet::in_set))]
fn opened_by(older: &[(Step, Reply)], step: &Step, x: Ob, op: Op) -> Opened
    ensures { (names : List ℕ) → opened_names result names ≡ opened_by step.now (applied (reverse older.now)) names x.0 op }
{
    match *step {
        Step::PermitAny { giver, obs, ops } if obs.has(x) && ops.has(op) => Opened::Giver(giver),
        Step::Delegate { giver, taker, obs } if obs.has(x) && holds_object(older, giver, x) => {
            Opened::Taker(giver, taker)
        }
        _ => Opened::Nobody,
    }
}

/// Returns whom an entry adds to those who permit `op` on `x` to anybody by the entries before it.
#[tactic(auto, unfolding(crate::specs::Openers::opened_names), using(crate::proofs::ScanLemmas::openers_at_entry))]
pub fn opened_at(older: &[(Step, Reply)], entry: &(Step, Reply), x: Ob, op: Op) -> Opened
    ensures { openers (applied (entry.now ∷ reverse older.now)) x.0 op
        ≡ opened_names result (openers (applied (reverse older.now)) x.0 op) ++ openers (applied (reverse older.now)) x.0 op }
{
    if takes_effect(&entry.0, entry.1) {
        opened_by(older, &entry.0, x, op)
    } else {
        Opened::Nobody
    }
}

/// Returns whether `n` permits `op` on `x` to anybody by the first `count` entries.
#[cycle(opening)]
pub fn opens_within(entries: &[(Step, Reply)], count: usize, n: Txn, x: Ob, op: Op) -> bool
    requires { count ≤ length entries.now }
    ensures { result ≡ lists (openers (applied (reverse (take count entries.now))) x.0 op) n.0 }
{
    if count == 0 {
        return false;
    }
    let last = count - 1;
    let opened = opened_at(&entries[..last], &entries[last], x, op);
    opens_by(entries, last, opened, n, x, op) || opens_within(entries, last, n, x, op)
}

/// Returns whether `n` is whom the next entry adds to those who permit `op` on `x` to anybody by the first `count`
/// entries.
#[cycle(opening)]
#[tactic(auto, unfolding(crate::specs::Openers::opened_names, asset_names::specs::Arrows::lists))]
fn opens_by(entries: &[(Step, Reply)], count: usize, opened: Opened, n: Txn, x: Ob, op: Op) -> bool
    requires { count ≤ length entries.now }
    ensures { result ≡ lists (opened_names opened (openers (applied (reverse (take count entries.now))) x.0 op)) n.0 }
{
    match opened {
        Opened::Nobody => false,
        Opened::Giver(giver) => giver == n,
        Opened::Taker(giver, taker) => taker == n && opens_within(entries, count, giver, x, op),
    }
}
