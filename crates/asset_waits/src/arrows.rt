//! Arrows of waits between the places of live transactions.

ghost use Rattle.std.specs.Prelude.{◌≡◌, ◌++◌, ◌<◌, length, map, slice_index, IfOk, OnOk};
ghost use Rattle.asset_names.specs.Steps.{applied};
ghost use Rattle.asset_cycles.specs.Cyclic.{AreBelow};
ghost use Rattle.asset_waits.specs.Waiting.{live_names};
ghost use Rattle.asset_waits.specs.Deadlocks.{place_of, arrow_to, arrows_from, arrows_before, wait_arrows};

use crate::waiting::waits_for;
use asset_core::Core;
use asset_names::{NoMemory, Txn};
use indexmap::IndexSet;
use std::alloc::{AllocError, Global};

/// Returns the place of a name, from 0, and 0 if it has none.
#[tactic(auto, unfolding(crate::specs::Deadlocks::place_of))]
fn place_of(names: &IndexSet<u64>, n: u64) -> usize
    ensures { result ≡ place_of names.now.keys n }
{
    match names.get_index_of(&n) {
        Some(place) => place,
        None => 0,
    }
}

/// Appends an arrow from the place to the place of each of those for whom the transaction there waits.
fn push_arrows_to(
    arrows: &mut Vec<(usize, usize)>,
    names: &IndexSet<u64>,
    from: usize,
    waited: &[u64],
) -> Result<(), AllocError>
    ensures { OnOk result (arrows.new.items ≡ arrows.old.items ++ map (arrow_to names.now.keys from) waited.now) }
{
    'waited: for u in waited {
        arrows.push((from, place_of(names, *u)))?;
    }
    Ok(())
}

/// Appends the arrows from the place, or answers `NoMemory` if memory runs out.
fn push_arrows_from(
    alloc: Global,
    core: &mut Core,
    arrows: &mut Vec<(usize, usize)>,
    names: &IndexSet<u64>,
    from: usize,
) -> Result<(), NoMemory>
    requires { from < length names.now.keys }
    ensures arrows { OnOk result (arrows.new.items ≡ arrows.old.items ++ arrows_from (applied core.old.history.entries) core.old.pending names.now.keys from) }
    ensures same { core.new ≡ core.old }
{
    let t = Txn(names.as_slice()[from]);
    let waited = waits_for(alloc, core, t)?;
    match push_arrows_to(arrows, names, from, &waited) {
        Ok(()) => Ok(()),
        Err(_) => Err(NoMemory),
    }
}

/// Appends the arrows from all places, or answers `NoMemory` if memory runs out.
fn push_all(
    alloc: Global,
    core: &mut Core,
    arrows: &mut Vec<(usize, usize)>,
    names: &IndexSet<u64>,
) -> Result<(), NoMemory>
    ensures arrows { OnOk result (arrows.new.items ≡ arrows.old.items ++ arrows_before (applied core.old.history.entries) core.old.pending names.now.keys (length names.now.keys)) }
    ensures same { core.new ≡ core.old }
{
    'places: for place in 0..names.len() {
        push_arrows_from(alloc, core, arrows, names, place)?;
    }
    Ok(())
}

/// Returns an arrow for each wait, between the places of the two among the live transactions, or `NoMemory` if memory runs
/// out.
#[tactic(auto, unfolding(crate::specs::Deadlocks::wait_arrows))]
pub(crate) fn wait_arrows(
    alloc: Global,
    core: &mut Core,
    names: &IndexSet<u64>,
) -> Result<Vec<(usize, usize)>, NoMemory>
    requires { names.now.keys ≡ live_names (applied core.old.history.entries) }
    ensures arrows { IfOk result (λ arrows. arrows.items ≡ wait_arrows (applied core.old.history.entries) core.old.pending) }
    ensures below { IfOk result (λ arrows. AreBelow arrows.items (length names.now.keys)) }
    ensures same { core.new ≡ core.old }
{
    let mut arrows = Vec::new(alloc);
    match push_all(alloc, core, &mut arrows, names) {
        Ok(()) => Ok(arrows),
        Err(_) => Err(NoMemory),
    }
}
