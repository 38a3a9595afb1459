//! The entries whose steps each transaction asked for.

ghost use Rattle.std.specs.Prelude.{◌≡◌, [], reverse, slice_get, Some, IfOk, OnOk};
ghost use Rattle.asset_names.specs.Steps.{Entry};
ghost use Rattle.asset_names.specs.Arrows.{with_name};
ghost use Rattle.asset_lanes.specs.Uses.{with_names, index_in, asker_of, askers, uses, uses_of};

use asset_buckets::Buckets;
use asset_history::History;
use asset_names::{NoMemory, Txn};
use indexmap::IndexSet;
use std::alloc::{AllocError, Global};

/// Adds a name, unless it is there. If memory runs out, the names are of no more use.
fn add_name(names: &mut IndexSet<u64>, n: u64) -> Result<(), NoMemory>
    ensures { OnOk result (names.new.keys ≡ with_name names.old.keys n) }
{
    match names.insert(n) {
        Ok(_) => Ok(()),
        Err(_) => Err(NoMemory),
    }
}

/// Adds names, each once. If memory runs out, the names are of no more use.
fn add_all(names: &mut IndexSet<u64>, rows: &[u64]) -> Result<(), NoMemory>
    ensures { OnOk result (names.new.keys ≡ with_names names.old.keys rows.now) }
{
    'rows: for n in rows {
        add_name(names, *n)?;
    }
    Ok(())
}

/// Returns the names of the rows, each once and in order, or `NoMemory` if memory runs out.
pub(crate) fn row_names(alloc: Global, rows: &[u64]) -> Result<IndexSet<u64>, NoMemory>
    ensures { IfOk result (λ names. names.keys ≡ with_names [] rows.now) }
{
    let mut names = IndexSet::new(alloc);
    match add_all(&mut names, rows) {
        Ok(()) => Ok(names),
        Err(_) => Err(NoMemory),
    }
}

/// Returns the index of the transaction among the names, and how many there are if it is none of them.
#[tactic(auto, unfolding(crate::specs::Uses::index_in))]
fn index_in(names: &IndexSet<u64>, t: Txn) -> usize
    ensures { result ≡ index_in names.now.keys t.0 }
{
    match names.get_index_of(&t.0) {
        Some(index) => index,
        None => names.len(),
    }
}

/// Returns the index of the transaction that asked for the entry at the index.
fn asker_at(history: &History, index: usize, names: &IndexSet<u64>) -> usize
    ensures { (entry : Entry) → slice_get (reverse history.now.entries) index ≡ Some entry → result ≡ asker_of names.now.keys entry }
{
    match history.acted_on(index) {
        Some((t, _)) => index_in(names, t),
        None => 0,
    }
}

/// Returns the indices of those who asked for the entries, oldest first, or `AllocError` if memory runs out.
fn askers(alloc: Global, history: &History, names: &IndexSet<u64>) -> Result<Vec<usize>, AllocError>
    ensures { IfOk result (λ found. found.items ≡ askers names.now.keys history.now.entries) }
{
    let mut found = Vec::new(alloc);
    'entries: for i in 0..history.len() {
        found.push(asker_at(history, i, names))?;
    }
    Ok(found)
}

/// Returns for each name the numbers of the entries that it asked for, or `NoMemory` if memory runs out. It takes time that is
/// nearly in proportion to the entries.
#[tactic(auto, unfolding(crate::specs::Uses::uses))]
pub(crate) fn uses(
    alloc: Global,
    history: &History,
    names: &IndexSet<u64>,
) -> Result<Buckets, NoMemory>
    ensures { IfOk result (λ used. used ≡ uses names.now.keys history.now.entries) }
{
    match askers(alloc, history, names) {
        Ok(found) => match Buckets::of(alloc, &found, names.len()) {
            Ok(used) => Ok(used),
            Err(_) => Err(NoMemory),
        },
        Err(_) => Err(NoMemory),
    }
}

/// Returns the numbers of the entries that the transaction asked for, rising, in what `uses` returned for the same names. It is
/// empty if the transaction is not among the names.
#[tactic(auto, unfolding(crate::specs::Uses::uses_of))]
pub(crate) fn uses_of<'a>(names: &IndexSet<u64>, used: &'a Buckets, t: Txn) -> &'a [usize]
    ensures { result.now ≡ uses_of names.now.keys used.now t.0 }
{
    used.bucket(index_in(names, t))
}
