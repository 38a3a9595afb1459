//! Who allows whom, by going over the entries from the newest on.

ghost use Rattle.std.specs.Prelude.{◌≡◌, ◌<◌, ◌≤◌, ◌+◌, ◌||◌, ◌&&◌, ◌++◌, List, ◌∷◌, length, reverse, take};
ghost use Rattle.asset_names.specs.Arrows.{Arrow, among, linked};
ghost use Rattle.asset_names.specs.Steps.{applied};
ghost use Rattle.asset_names.specs.Endings.{live};
ghost use Rattle.asset_names.specs.Operations.{permits, permitted_by, openers, permits_along, reaches_opener, allows};
ghost use Rattle.asset_reference.specs.Allowing.{added_arrows, goes_along, leads_on, leads_by};
ghost use Rattle.asset_reference.specs.Openers.{opened_names, reached};

use crate::holding::holds_object;
use crate::openers::{Opened, opened_at, opens_within};
use crate::tracks::is_live;
use asset_names::{Ob, Op, Reply, Step, Txn, takes_effect};

/// The permits that an entry adds.
#[derive(Clone, Copy)]
enum Added {
    Nothing,
    /// One of the first transaction for the second.
    One(Txn, Txn),
    /// A copy of each permit of the first transaction, given by the second.
    Copies(Txn, Txn),
}

/// Returns the permits of `op` on `x` that a step adds which takes effect after these entries.
#[tactic(auto, unfolding(crate::specs::Allowing::added_arrows, asset_names::specs::Operations::permitted_by))]
fn added_by(older: &[(Step, Reply)], step: &Step, x: Ob, op: Op) -> Added
    ensures { (arrows : List Arrow) → added_arrows result arrows ≡ permitted_by step.now (applied (reverse older.now)) arrows x.0 op }
{
    match *step {
        Step::Permit {
            giver,
            taker,
            obs,
            ops,
        } if obs.has(x) && ops.has(op) => Added::One(giver, taker),
        Step::Delegate { giver, taker, obs } if obs.has(x) && holds_object(older, giver, x) => {
            Added::Copies(giver, taker)
        }
        _ => Added::Nothing,
    }
}

/// Returns the permits of `op` on `x` that an entry adds to those of the entries before it.
#[tactic(auto, unfolding(crate::specs::Allowing::added_arrows), using(crate::proofs::ScanLemmas::permits_at_entry))]
fn added_at(older: &[(Step, Reply)], entry: &(Step, Reply), x: Ob, op: Op) -> Added
    ensures { permits (applied (entry.now ∷ reverse older.now)) x.0 op
        ≡ added_arrows result (permits (applied (reverse older.now)) x.0 op) ++ permits (applied (reverse older.now)) x.0 op }
{
    if takes_effect(&entry.0, entry.1) {
        added_by(older, &entry.0, x, op)
    } else {
        Added::Nothing
    }
}

/// Returns whether the first of the two transactions allows the second by the permits among the first `count`
/// entries: without those that the newest of them adds, or by going along one of those once.
#[cycle(allowing)]
fn allows_within(entries: &[(Step, Reply)], count: usize, ends: (Txn, Txn), x: Ob, op: Op) -> bool
    requires { count ≤ length entries.now }
    ensures { result ≡ linked (among (live (applied (reverse entries.now))) (permits (applied (reverse (take count entries.now))) x.0 op)) ends.0.0 ends.1.0 }
{
    if count == 0 {
        return ends.0 == ends.1;
    }
    let last = count - 1;
    let added = added_at(&entries[..last], &entries[last], x, op);
    allows_within(entries, last, ends, x, op) || goes_along(entries, last, added, ends, x, op)
}

/// Returns whether the first of the two transactions allows the second by going once along one of the permits
/// that are added to those among the first `count` entries.
#[cycle(allowing)]
#[tactic(auto, unfolding(crate::specs::Allowing::goes_along))]
fn goes_along(
    entries: &[(Step, Reply)],
    count: usize,
    added: Added,
    ends: (Txn, Txn),
    x: Ob,
    op: Op,
) -> bool
    requires { count ≤ length entries.now }
    ensures { result ≡ goes_along (live (applied (reverse entries.now))) added (permits (applied (reverse (take count entries.now))) x.0 op) ends.0.0 ends.1.0 }
{
    match added {
        Added::Nothing => false,
        Added::One(giver, taker) => {
            is_live(entries, giver)
                && is_live(entries, taker)
                && allows_within(entries, count, (ends.0, giver), x, op)
                && allows_within(entries, count, (taker, ends.1), x, op)
        }
        Added::Copies(giver, taker) => {
            is_live(entries, taker)
                && allows_within(entries, count, (ends.0, taker), x, op)
                && leads_on(entries, (count, count), (giver, ends.1), x, op)
        }
    }
}

/// Returns whether a permit of the first of the two transactions, among the first `counts.0` entries, is for a live
/// transaction that allows the second by the permits among the first `counts.1` entries.
#[cycle(allowing)]
fn leads_on(
    entries: &[(Step, Reply)],
    counts: (usize, usize),
    ends: (Txn, Txn),
    x: Ob,
    op: Op,
) -> bool
    requires first { counts.0 ≤ length entries.now }
    requires second { counts.1 ≤ length entries.now }
    ensures { result ≡ leads_on (live (applied (reverse entries.now))) (permits (applied (reverse (take counts.1 entries.now))) x.0 op)
        (permits (applied (reverse (take counts.0 entries.now))) x.0 op) ends.0.0 ends.1.0 }
{
    let (count, within) = counts;
    if count == 0 {
        return false;
    }
    let last = count - 1;
    let added = added_at(&entries[..last], &entries[last], x, op);
    leads_on(entries, (last, within), ends, x, op)
        || leads_by(entries, (last, within), added, ends, x, op)
}

/// Returns the same of the permits that are added to those among the first `counts.0` entries.
#[cycle(allowing)]
#[tactic(auto, unfolding(crate::specs::Allowing::leads_by))]
fn leads_by(
    entries: &[(Step, Reply)],
    counts: (usize, usize),
    added: Added,
    ends: (Txn, Txn),
    x: Ob,
    op: Op,
) -> bool
    requires first { counts.0 ≤ length entries.now }
    requires second { counts.1 ≤ length entries.now }
    ensures { result ≡ leads_by (live (applied (reverse entries.now))) (permits (applied (reverse (take counts.1 entries.now))) x.0 op) added
        (permits (applied (reverse (take counts.0 entries.now))) x.0 op) ends.0.0 ends.1.0 }
{
    match added {
        Added::Nothing => false,
        Added::One(giver, taker) => {
            giver == ends.0
                && is_live(entries, taker)
                && allows_within(entries, counts.1, (taker, ends.1), x, op)
        }
        Added::Copies(giver, taker) => {
            taker == ends.0 && leads_on(entries, counts, (giver, ends.1), x, op)
        }
    }
}

/// Returns whether permits to named transactions lead from `u` to `t` between live ones, or they are one.
#[tactic(auto, unfolding(asset_names::specs::Operations::permits_along))]
fn permits_along(entries: &[(Step, Reply)], u: Txn, t: Txn, x: Ob, op: Op) -> bool
    ensures { result ≡ permits_along (applied (reverse entries.now)) u.0 t.0 x.0 op }
{
    allows_within(entries, entries.len(), (u, t), x, op)
}

/// Returns whether `a` is live and permits lead from `u` to it.
#[tactic(auto)]
fn leads_to(entries: &[(Step, Reply)], u: Txn, a: Txn, x: Ob, op: Op) -> bool
    ensures { result ≡ (live (applied (reverse entries.now)) a.0 && permits_along (applied (reverse entries.now)) u.0 a.0 x.0 op) }
{
    is_live(entries, a) && permits_along(entries, u, a, x, op)
}

/// Returns whether permits lead from `u` to whom the next entry adds to those who permit `op` on `x` to anybody by the
/// first `count` entries.
#[tactic(auto, unfolding(crate::specs::Openers::opened_names, crate::specs::Openers::reached))]
fn reaches_by(
    entries: &[(Step, Reply)],
    count: usize,
    opened: Opened,
    u: Txn,
    x: Ob,
    op: Op,
) -> bool
    requires { count ≤ length entries.now }
    ensures { result ≡ reached (applied (reverse entries.now)) u.0 x.0 op (opened_names opened (openers (applied (reverse (take count entries.now))) x.0 op)) }
{
    match opened {
        Opened::Nobody => false,
        Opened::Giver(giver) => leads_to(entries, u, giver, x, op),
        Opened::Taker(giver, taker) => {
            opens_within(entries, count, giver, x, op) && leads_to(entries, u, taker, x, op)
        }
    }
}

/// Returns whether permits lead from `u` to whom the entry of this index adds to those who permit `op` on `x` to anybody.
fn reaches_at(entries: &[(Step, Reply)], index: usize, u: Txn, x: Ob, op: Op) -> bool
    requires { index < length entries.now }
    ensures { reached (applied (reverse entries.now)) u.0 x.0 op (openers (applied (reverse (take (index + 1) entries.now))) x.0 op)
        ≡ (result || reached (applied (reverse entries.now)) u.0 x.0 op (openers (applied (reverse (take index entries.now))) x.0 op)) }
{
    let opened = opened_at(&entries[..index], &entries[index], x, op);
    reaches_by(entries, index, opened, u, x, op)
}

/// Returns whether permits lead from `u` to one who permits `op` on `x` to anybody.
fn reaches_opener(entries: &[(Step, Reply)], u: Txn, x: Ob, op: Op) -> bool
    ensures { result ≡ reaches_opener (applied (reverse entries.now)) u.0 x.0 op }
{
    let mut reached = false;
    'entries: for index in 0..entries.len() {
        reached = reaches_at(entries, index, u, x, op) || reached;
    }
    reached
}

/// Returns whether `u` allows `t` to do `op` on `x`.
#[tactic(auto, unfolding(asset_names::specs::Operations::allows))]
pub fn allows(entries: &[(Step, Reply)], u: Txn, t: Txn, x: Ob, op: Op) -> bool
    ensures { result ≡ allows (applied (reverse entries.now)) u.0 t.0 x.0 op }
{
    permits_along(entries, u, t, x, op) || is_live(entries, t) && reaches_opener(entries, u, x, op)
}
