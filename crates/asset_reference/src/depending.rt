//! Classes, their outside sources, and cycles of dependencies, by going over the entries.

ghost use Rattle.std.specs.Prelude.{◌≡◌, ◌<◌, ◌+◌, ◌||◌, ◌&&◌, not, length, reverse, take};
ghost use Rattle.std.specs.List.{list_all};
ghost use Rattle.asset_names.specs.Steps.{applied, initiated, initiated_by};
ghost use Rattle.asset_names.specs.Endings.{has_outside_source, same_class, would_cycle, live};
ghost use Rattle.asset_names.specs.Answers.{class_completed, may_commit};
ghost use Rattle.asset_names.specs.Arrows.{among, linked};
ghost use Rattle.asset_reference.specs.Ways.{ways};
ghost use Rattle.asset_reference.specs.Sources.{completes, outside_within, outside_by, opens_outside};

use crate::endings::{Along, linked_within};
use crate::tracks::{is_live, status_after};
use asset_names::{Kind, Reply, Step, Txn, takes_effect};

/// Returns whether `b` is reached from `a` between live transactions.
#[tactic(auto, using(std::proofs::lemmas::List::take_all))]
fn is_linked(entries: &[(Step, Reply)], along: Along, a: Txn, b: Txn) -> bool
    ensures { result ≡ linked (among (live (applied (reverse entries.now))) (ways along (applied (reverse entries.now)))) a.0 b.0 }
{
    linked_within(entries, (entries.len(), entries.len()), along, a, b)
}

/// Returns whether two live transactions are of one class.
#[tactic(auto, unfolding(asset_names::specs::Endings::same_class), using(crate::proofs::WayLemmas::classes_are))]
fn same_class(entries: &[(Step, Reply)], a: Txn, b: Txn) -> bool
    ensures { result ≡ same_class (applied (reverse entries.now)) a.0 b.0 }
{
    is_linked(entries, Along::Classes, a, b)
}

/// Returns whether `n` has completed, or is not of the class of `t`.
#[tactic(auto, unfolding(crate::specs::Sources::completes))]
fn completes(entries: &[(Step, Reply)], t: Txn, n: Txn) -> bool
    ensures { result ≡ completes (applied (reverse entries.now)) t.0 n.0 }
{
    !same_class(entries, t, n) || status_after(entries, n).is_completed()
}

/// Returns whether a step initiates nobody, or one who has completed or is not of the class of `t`.
#[tactic(auto, unfolding(asset_names::specs::Steps::initiated_by))]
fn step_completes(entries: &[(Step, Reply)], step: &Step, t: Txn) -> bool
    ensures { result ≡ list_all (completes (applied (reverse entries.now)) t.0) (initiated_by step.now) }
{
    match *step {
        Step::Initiate { t: n, .. } => completes(entries, t, n),
        _ => true,
    }
}

/// Returns the same of the entry of this index, whose step may have taken no effect.
fn entry_completes(entries: &[(Step, Reply)], index: usize, t: Txn) -> bool
    requires { index < length entries.now }
    ensures { list_all (completes (applied (reverse entries.now)) t.0) (initiated (applied (reverse (take (index + 1) entries.now))))
        ≡ (result && list_all (completes (applied (reverse entries.now)) t.0) (initiated (applied (reverse (take index entries.now))))) }
{
    let (step, reply) = &entries[index];
    !takes_effect(step, *reply) || step_completes(entries, step, t)
}

/// Returns whether each member of the class of `t` has completed.
pub fn class_completed(entries: &[(Step, Reply)], t: Txn) -> bool
    ensures { result ≡ class_completed (applied (reverse entries.now)) t.0 }
{
    let mut all = true;
    'entries: for index in 0..entries.len() {
        all = entry_completes(entries, index, t) && all;
    }
    all
}

/// Returns whether a source outside the class of `t` has a dependent in it, by a dependency of `b` on `a`.
#[tactic(auto, unfolding(crate::specs::Sources::outside_by))]
fn is_outside(entries: &[(Step, Reply)], t: Txn, a: Txn, b: Txn) -> bool
    ensures { result ≡ outside_by (applied (reverse entries.now)) t.0 a.0 b.0 }
{
    is_live(entries, a)
        && is_live(entries, b)
        && same_class(entries, t, b)
        && !same_class(entries, t, a)
}

/// Returns whether a step makes a commit or an abort dependency on a source outside the class of `t`.
#[tactic(auto, unfolding(crate::specs::Sources::opens_outside))]
fn step_is_outside(entries: &[(Step, Reply)], step: &Step, t: Txn) -> bool
    ensures { result ≡ opens_outside (applied (reverse entries.now)) t.0 step.now }
{
    match *step {
        Step::Depend { kind, a, b } => match kind {
            Kind::Cd => is_outside(entries, t, a, b),
            Kind::Ad => is_outside(entries, t, a, b),
            Kind::Gc => false,
        },
        _ => false,
    }
}

/// Returns the same of the entry of this index, whose step may have taken no effect.
fn entry_is_outside(entries: &[(Step, Reply)], index: usize, t: Txn) -> bool
    requires { index < length entries.now }
    ensures { outside_within (applied (reverse entries.now)) t.0 (applied (reverse (take (index + 1) entries.now)))
        ≡ (result || outside_within (applied (reverse entries.now)) t.0 (applied (reverse (take index entries.now)))) }
{
    let (step, reply) = &entries[index];
    takes_effect(step, *reply) && step_is_outside(entries, step, t)
}

/// Returns whether a live transaction outside the class of `t` is a source of a member.
pub fn has_outside_source(entries: &[(Step, Reply)], t: Txn) -> bool
    ensures { result ≡ has_outside_source (applied (reverse entries.now)) t.0 }
{
    let mut outside = false;
    'entries: for index in 0..entries.len() {
        outside = entry_is_outside(entries, index, t) || outside;
    }
    outside
}

/// Returns whether a dependency of this kind of `b` on `a` would close a cycle.
#[tactic(auto, unfolding(asset_names::specs::Endings::would_cycle, asset_names::specs::Paths::closes_cycle), using(crate::proofs::WayLemmas::classes_are, crate::proofs::WayLemmas::paths_are))]
pub fn would_cycle(entries: &[(Step, Reply)], kind: Kind, a: Txn, b: Txn) -> bool
    ensures { result ≡ would_cycle (applied (reverse entries.now)) kind a.0 b.0 }
{
    match kind {
        Kind::Gc => {
            !is_linked(entries, Along::Classes, a, b)
                && (is_linked(entries, Along::Paths, a, b)
                    || is_linked(entries, Along::Paths, b, a))
        }
        Kind::Cd => is_linked(entries, Along::Paths, b, a),
        Kind::Ad => is_linked(entries, Along::Paths, b, a),
    }
}
