//! The live transactions.

ghost use Rattle.std.specs.Prelude.{◌≡◌, [], reverse, slice_get, Some, IfOk, OnOk};
ghost use Rattle.asset_names.specs.Steps.{Entry, applied};
ghost use Rattle.asset_names.specs.Endings.{live};
ghost use Rattle.asset_waits.specs.Live.{initiated_if, initiated_in, with_live};
ghost use Rattle.asset_names.specs.Arrows.{with_name};
ghost use Rattle.asset_waits.specs.Waiting.{live_names};

use asset_core::Core;
use asset_names::{NoMemory, Step, Txn, takes_effect};
use indexmap::IndexSet;
use std::alloc::Global;

/// Returns the transaction that the step initiates, if it takes effect.
#[tactic(auto, unfolding(crate::specs::Live::initiated_if))]
fn initiated_if(effect: bool, step: &Step) -> Option<Txn>
    ensures { result ≡ initiated_if effect step.now }
{
    match *step {
        Step::Initiate { t, .. } if effect => Some(t),
        _ => None,
    }
}

/// Adds a name, unless it is there. If memory runs out, the names are of no more use.
fn add_name(names: &mut IndexSet<u64>, n: u64) -> Result<(), NoMemory>
    ensures { OnOk result (names.new.keys ≡ with_name names.old.keys n) }
{
    match names.insert(n) {
        Ok(_) => Ok(()),
        Err(_) => Err(NoMemory),
    }
}

/// Returns whether the transaction is live.
fn is_live(core: &Core, t: Txn) -> bool
    ensures { result ≡ live (applied core.now.history.entries) t.0 }
{
    core.status(t).is_live()
}

/// Adds the transaction that was initiated, if there is one and it is live. If memory runs out, the names are of no more use.
#[tactic(auto, unfolding(crate::specs::Live::with_live))]
fn add_live(core: &Core, names: &mut IndexSet<u64>, initiated: Option<Txn>) -> Result<(), NoMemory>
    ensures { OnOk result (names.new.keys ≡ with_live (applied core.now.history.entries) names.old.keys initiated) }
{
    match initiated {
        Some(t) => {
            if is_live(core, t) {
                add_name(names, t.0)
            } else {
                Ok(())
            }
        }
        None => Ok(()),
    }
}

/// Adds the transaction that the entry at the index initiated, if it did and it is live. The step is read into the slot. If
/// memory runs out, the names are of no more use.
fn add_entry(
    core: &Core,
    names: &mut IndexSet<u64>,
    index: usize,
    step: &mut Step,
) -> Result<(), NoMemory>
    ensures { OnOk result ((entry : Entry) → slice_get (reverse core.now.history.entries) index ≡ Some entry →
        names.new.keys ≡ with_live (applied core.now.history.entries) names.old.keys (initiated_in entry)) }
{
    match core.history().entry_into(index, step) {
        Some(reply) => {
            let initiated = initiated_if(takes_effect(step, reply), step);
            add_live(core, names, initiated)
        }
        None => Ok(()),
    }
}

/// Adds the live transactions in order of initiation. If memory runs out, the names are of no more use.
fn add_all(core: &Core, names: &mut IndexSet<u64>) -> Result<(), NoMemory>
    requires { names.old.keys ≡ [] }
    ensures { OnOk result (names.new.keys ≡ live_names (applied core.now.history.entries)) }
{
    let mut step = Step::Commit { t: Txn(0) };
    'entries: for i in 0..core.history().len() {
        add_entry(core, names, i, &mut step)?;
    }
    Ok(())
}

/// Returns the live transactions in order of initiation, or `NoMemory` if memory runs out. It goes over the entries once.
pub(crate) fn live_names(alloc: Global, core: &Core) -> Result<IndexSet<u64>, NoMemory>
    ensures { IfOk result (λ names. names.keys ≡ live_names (applied core.now.history.entries)) }
{
    let mut names = IndexSet::new(alloc);
    match add_all(core, &mut names) {
        Ok(()) => Ok(names),
        Err(_) => Err(NoMemory),
    }
}
