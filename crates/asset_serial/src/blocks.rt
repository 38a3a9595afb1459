//! The entries of each of those who are named, as indices.

ghost use Rattle.std.specs.Prelude.{◌≡◌, ◌≤◌, nat_eq, length, reverse, slice_get, Some, IfOk};
ghost use Rattle.std.specs.List.{position_or_len};
ghost use Rattle.asset_names.specs.Steps.{Entry};
ghost use Rattle.asset_names.specs.Answers.{IsLegal};
ghost use Rattle.asset_serial.specs.Answered.{number_of, numbers_of, blocks_of};

use asset_buckets::Buckets;
use asset_history::History;
use asset_names::{NoMemory, Txn};
use indexmap::IndexSet;
use std::alloc::{AllocError, Global};

/// Returns the index of the transaction among the names, and the number of names if it is not there.
fn index_of(names: &IndexSet<u64>, t: Txn) -> usize
    ensures { result ≡ position_or_len (nat_eq t.0) names.now.keys }
{
    match names.get_index_of(&t.0) {
        Some(index) => index,
        None => names.len(),
    }
}

/// Returns the index among the names of the transaction that the entry at the index acts on.
fn number_at(history: &History, index: usize, names: &IndexSet<u64>) -> usize
    ensures { (entry : Entry) → slice_get (reverse history.now.entries) index ≡ Some entry → result ≡ number_of names.now.keys entry }
{
    match history.acted_on(index) {
        Some((t, _)) => index_of(names, t),
        None => 0,
    }
}

/// Returns for each entry, oldest first, the index of its transaction among the names, or `AllocError` if memory runs
/// out.
fn numbers(
    alloc: Global,
    history: &History,
    names: &IndexSet<u64>,
) -> Result<Vec<usize>, AllocError>
    ensures numbers { IfOk result (λ numbers. numbers.items ≡ numbers_of names.now.keys history.now.entries) }
    ensures legal { IsLegal history.now.opening history.now.entries }
    ensures within { length history.now.entries ≤ history.now.capacity }
{
    let mut numbers = Vec::new(alloc);
    'entries: for i in 0..history.len() {
        numbers.push(number_at(history, i, names))?;
    }
    Ok(numbers)
}

/// Returns for each name in order the indices of its entries, or `AllocError` if memory runs out.
fn buckets(alloc: Global, history: &History, names: &IndexSet<u64>) -> Result<Buckets, AllocError>
    ensures blocks { IfOk result (λ blocks. blocks ≡ blocks_of names.now.keys history.now.entries) }
    ensures legal { IsLegal history.now.opening history.now.entries }
    ensures within { length history.now.entries ≤ history.now.capacity }
{
    let numbers = numbers(alloc, history, names)?;
    Buckets::of(alloc, &numbers, names.len())
}

/// Returns for each name in order the indices of its entries, or `NoMemory` if memory runs out.
pub(crate) fn blocks(
    alloc: Global,
    history: &History,
    names: &IndexSet<u64>,
) -> Result<Buckets, NoMemory>
    ensures blocks { IfOk result (λ blocks. blocks ≡ blocks_of names.now.keys history.now.entries) }
    ensures legal { IsLegal history.now.opening history.now.entries }
    ensures within { length history.now.entries ≤ history.now.capacity }
{
    match buckets(alloc, history, names) {
        Ok(blocks) => Ok(blocks),
        Err(_) => Err(NoMemory),
    }
}
