//! How transactions ended, by going over the entries: who is joined with whom, and whom an abort takes along.

ghost use Rattle.std.specs.Prelude.{◌≡◌, ◌≤◌, ◌<◌, ◌+◌, ◌||◌, length, reverse, take};
ghost use Rattle.asset_names.specs.Arrows.{among, linked};
ghost use Rattle.asset_names.specs.Steps.{applied};
ghost use Rattle.asset_names.specs.Endings.{live, end_of};
ghost use Rattle.asset_reference.specs.Ways.{ways, way_of, way_at, way_arrows, goes_by, leaves, enters};
ghost use Rattle.asset_reference.specs.Ends.{ends_by, takes_along};

use crate::tracks::initiated_within;
use asset_names::{End, Kind, Reply, Step, Txn, takes_effect};

/// The arrows along which one looks.
#[derive(Clone, Copy)]
pub enum Along {
    /// Those that make classes: group commits, both ways.
    Classes,
    /// Those along which an abort spreads: over a class, and to those with an abort dependency.
    Aborts,
    /// Those of paths: over a class, and from a source to a dependent.
    Paths,
}

/// The arrows that a dependency adds to those along which one looks.
#[derive(Clone, Copy)]
pub enum Way {
    Nowhere,
    /// From the first transaction to the second.
    Forth(Txn, Txn),
    /// Between the two.
    Both(Txn, Txn),
}

/// Returns the arrows that a dependency adds.
#[tactic(auto, unfolding(crate::specs::Ways::way_of, crate::specs::Ways::way_arrows))]
fn way_of(along: Along, kind: Kind, a: Txn, b: Txn) -> Way
    ensures { way_arrows result ≡ way_of along kind a.0 b.0 }
{
    match (along, kind) {
        (_, Kind::Gc) => Way::Both(a, b),
        (Along::Paths, _) => Way::Forth(a, b),
        (Along::Aborts, Kind::Ad) => Way::Forth(a, b),
        _ => Way::Nowhere,
    }
}

/// Returns the arrows that an entry adds to those of the entries before it.
#[tactic(auto, unfolding(crate::specs::Ways::way_at, crate::specs::Ways::way_by, crate::specs::Ways::way_arrows))]
fn way_at(entry: &(Step, Reply), along: Along) -> Way
    ensures { way_arrows result ≡ way_at along entry.now }
{
    match entry.0 {
        Step::Depend { kind, a, b } if takes_effect(&entry.0, entry.1) => way_of(along, kind, a, b),
        _ => Way::Nowhere,
    }
}

/// Returns whether one of the arrows leads away from `u`.
#[tactic(auto, unfolding(crate::specs::Ways::leaves, crate::specs::Ways::way_arrows))]
fn way_leaves(way: Way, u: Txn) -> bool
    ensures { result ≡ leaves (way_arrows way) u.0 }
{
    match way {
        Way::Nowhere => false,
        Way::Forth(a, _) => a == u,
        Way::Both(a, b) => a == u || b == u,
    }
}

/// Returns whether one of the arrows leads to `t`.
#[tactic(auto, unfolding(crate::specs::Ways::enters, crate::specs::Ways::way_arrows))]
fn way_enters(way: Way, t: Txn) -> bool
    ensures { result ≡ enters (way_arrows way) t.0 }
{
    match way {
        Way::Nowhere => false,
        Way::Forth(_, b) => b == t,
        Way::Both(a, b) => b == t || a == t,
    }
}

/// Returns whether an arrow of the entry of this index leads away from `u`.
fn entry_leaves(entries: &[(Step, Reply)], index: usize, along: Along, u: Txn) -> bool
    requires { index < length entries.now }
    ensures { leaves (ways along (applied (reverse (take (index + 1) entries.now)))) u.0 ≡ (result || leaves (ways along (applied (reverse (take index entries.now)))) u.0) }
{
    let way = way_at(&entries[index], along);
    way_leaves(way, u)
}

/// Returns whether an arrow of the first `count` entries leads away from `u`.
fn leaves(entries: &[(Step, Reply)], count: usize, along: Along, u: Txn) -> bool
    requires { count ≤ length entries.now }
    ensures { result ≡ leaves (ways along (applied (reverse (take count entries.now)))) u.0 }
{
    let mut found = false;
    'entries: for index in 0..count {
        found = entry_leaves(entries, index, along, u) || found;
    }
    found
}

/// Returns whether an arrow of the entry of this index leads to `t`.
fn entry_enters(entries: &[(Step, Reply)], index: usize, along: Along, t: Txn) -> bool
    requires { index < length entries.now }
    ensures { enters (ways along (applied (reverse (take (index + 1) entries.now)))) t.0 ≡ (result || enters (ways along (applied (reverse (take index entries.now)))) t.0) }
{
    let way = way_at(&entries[index], along);
    way_enters(way, t)
}

/// Returns whether an arrow of the first `count` entries leads to `t`.
fn enters(entries: &[(Step, Reply)], count: usize, along: Along, t: Txn) -> bool
    requires { count ≤ length entries.now }
    ensures { result ≡ enters (ways along (applied (reverse (take count entries.now)))) t.0 }
{
    let mut found = false;
    'entries: for index in 0..count {
        found = entry_enters(entries, index, along, t) || found;
    }
    found
}

/// Returns whether the transaction was live after the first `count` entries.
#[cycle(ending)]
#[tactic(auto, unfolding(asset_names::specs::Endings::live))]
pub fn live_within(entries: &[(Step, Reply)], count: usize, t: Txn) -> bool
    requires { count ≤ length entries.now }
    ensures { result ≡ live (applied (reverse (take count entries.now))) t.0 }
{
    initiated_within(entries, count, t) && end_within(entries, count, t).is_none()
}

/// Returns how the transaction ended by the first `count` entries, if it did.
#[cycle(ending)]
pub fn end_within(entries: &[(Step, Reply)], count: usize, t: Txn) -> Option<End>
    requires { count ≤ length entries.now }
    ensures { result ≡ end_of (applied (reverse (take count entries.now))) t.0 }
{
    if count == 0 {
        return None;
    }
    let last = count - 1;
    let (step, reply) = &entries[last];
    match end_within(entries, last, t) {
        Some(end) => Some(end),
        None if takes_effect(step, *reply) => ended_by(entries, last, step, t),
        None => None,
    }
}

/// Returns how the step ends `t` after the first `count` entries, if it does: by a commit of its class, or by an abort
/// that spreads to it.
#[cycle(ending)]
#[tactic(auto, unfolding(crate::specs::Ends::ends_by))]
fn ended_by(entries: &[(Step, Reply)], count: usize, step: &Step, t: Txn) -> Option<End>
    requires { count ≤ length entries.now }
    ensures { result ≡ ends_by step.now (applied (reverse (take count entries.now))) t.0 }
{
    match *step {
        Step::Commit { t: u } if takes(entries, count, Along::Classes, u, t) => Some(
            End::Committed,
        ),
        Step::Abort { t: u } if takes(entries, count, Along::Aborts, u, t) => Some(End::Aborted),
        _ => None,
    }
}

/// Returns whether an end of `u` after the first `count` entries takes `t`: it is linked with `u`, which is live.
#[cycle(ending)]
#[tactic(auto, unfolding(crate::specs::Ends::takes_along))]
fn takes(entries: &[(Step, Reply)], count: usize, along: Along, u: Txn, t: Txn) -> bool
    requires { count ≤ length entries.now }
    ensures { result ≡ takes_along (applied (reverse (take count entries.now))) along u.0 t.0 }
{
    linked_within(entries, (count, count), along, u, t) && live_within(entries, count, u)
}

/// Returns whether `t` is reached from `u` along what the first `counts.1` entries say, between those who were live after
/// the first `counts.0`.
#[cycle(ending)]
pub fn linked_within(
    entries: &[(Step, Reply)],
    counts: (usize, usize),
    along: Along,
    u: Txn,
    t: Txn,
) -> bool
    requires first { counts.0 ≤ length entries.now }
    requires second { counts.1 ≤ length entries.now }
    ensures { result ≡ linked (among (live (applied (reverse (take counts.0 entries.now)))) (ways along (applied (reverse (take counts.1 entries.now))))) u.0 t.0 }
{
    let (among, count) = counts;
    if u == t {
        return true;
    }
    if !leaves(entries, count, along, u) {
        return false;
    }
    if !enters(entries, count, along, t) {
        return false;
    }
    if count == 0 {
        return false;
    }
    let last = count - 1;
    let way = way_at(&entries[last], along);
    linked_within(entries, (among, last), along, u, t)
        || goes_by(entries, (among, last), (along, way), u, t)
}

/// Returns whether `t` is reached from `u` by the way, and else along what the first `counts.1` entries say.
#[cycle(ending)]
#[tactic(auto, unfolding(crate::specs::Ways::goes_by))]
fn goes_by(
    entries: &[(Step, Reply)],
    counts: (usize, usize),
    by: (Along, Way),
    u: Txn,
    t: Txn,
) -> bool
    requires first { counts.0 ≤ length entries.now }
    requires second { counts.1 ≤ length entries.now }
    ensures { result ≡ goes_by (live (applied (reverse (take counts.0 entries.now)))) by.1 (ways by.0 (applied (reverse (take counts.1 entries.now)))) u.0 t.0 }
{
    let (along, way) = by;
    match way {
        Way::Nowhere => false,
        Way::Forth(a, b) => {
            live_within(entries, counts.0, a)
                && live_within(entries, counts.0, b)
                && linked_within(entries, counts, along, u, a)
                && linked_within(entries, counts, along, b, t)
        }
        Way::Both(a, b) => {
            live_within(entries, counts.0, a)
                && live_within(entries, counts.0, b)
                && (linked_within(entries, counts, along, u, a)
                    || linked_within(entries, counts, along, u, b))
                && (linked_within(entries, counts, along, a, t)
                    || linked_within(entries, counts, along, b, t))
        }
    }
}
