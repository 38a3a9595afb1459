//! A history without dead groups.

ghost use Rattle.std.specs.Prelude.{◌≡◌, true, length, map, reverse, slice_get, Some, IfOk};
ghost use Rattle.asset_names.specs.declared.names.Txn.{Txn as Name};
ghost use Rattle.asset_names.specs.Steps.{Entry};
ghost use Rattle.asset_names.specs.Groups.{actor, kept, without};
ghost use Rattle.asset_names.specs.Answers.{IsLegal};
ghost use Rattle.asset_entries.specs.Recorded.{opened};
ghost use Rattle.asset_history.specs.Named.{names_of};
ghost use Rattle.asset_deletion.specs.Going.{keeps, AreNumbersBelow, SaysWhoStays};

use crate::going::{dead_groups, going_with};
use crate::grouped::Groups;
use crate::grouping::groups;
use asset_history::History;
use asset_names::{NoMemory, Txn};
use std::alloc::Global;

/// Returns the history without the entries of the dead groups that have a chosen transaction. What is left is in order,
/// with the same replies, and legal. A chosen transaction that does not occur, or whose group is not dead, changes
/// nothing. It answers `NoMemory` if memory runs out, and takes time that is nearly in proportion to the entries and the
/// chosen transactions.
pub fn without(alloc: Global, history: &History, chosen: &[Txn]) -> Result<History, NoMemory>
    ensures exact { IfOk result (λ left. left.entries ≡ without history.now.entries (map (λ (t : Name). t.0) chosen.now)) }
    ensures opening { IfOk result (λ left. left.opening ≡ history.now.opening) }
    ensures room { IfOk result (λ left. left.capacity ≡ history.now.capacity) }
    ensures legal { IfOk result (λ left. IsLegal left.opening left.entries) }
{
    let groups = groups(alloc, history)?;
    let going = going_with(alloc, &groups, chosen)?;
    left_by(history, &groups, &going)
}

/// Returns the history without the entries of all dead groups. What is left is in order, with the same replies, and
/// legal. It answers `NoMemory` if memory runs out, and takes time that is nearly in proportion to the entries.
pub fn without_dead(alloc: Global, history: &History) -> Result<History, NoMemory>
    ensures exact { IfOk result (λ left. left.entries ≡ without history.now.entries (names_of history.now.entries)) }
    ensures opening { IfOk result (λ left. left.opening ≡ history.now.opening) }
    ensures room { IfOk result (λ left. left.capacity ≡ history.now.capacity) }
    ensures legal { IfOk result (λ left. IsLegal left.opening left.entries) }
{
    let groups = groups(alloc, history)?;
    left_by(history, &groups, dead_groups(&groups))
}

/// Returns the history without the entries of the groups that are marked.
fn left_by(history: &History, groups: &Groups, going: &Vec<bool>) -> Result<History, NoMemory>
    requires below { AreNumbersBelow groups.now (length going.now.items) }
    requires says { SaysWhoStays history.now.entries groups.now going.now.items }
    ensures { IfOk result (λ left. left ≡ record history.now { entries = kept (keeps groups.now going.now.items) history.now.entries }) }
{
    let mut left = history.empty_like()?;
    copy_staying(history, groups, going, &mut left);
    Ok(left)
}

/// Appends the entries of the groups that are not marked to an empty history like this one.
fn copy_staying(history: &History, groups: &Groups, going: &Vec<bool>, left: &mut History)
    requires below { AreNumbersBelow groups.now (length going.now.items) }
    requires says { SaysWhoStays history.now.entries groups.now going.now.items }
    requires empty { left.old ≡ opened history.now.opening history.now.capacity }
    ensures { left.new ≡ record history.now { entries = kept (keeps groups.now going.now.items) history.now.entries } }
{
    'entries: for i in 0..history.len() {
        if stays_at(history, i, groups, going) {
            left.append_from(history, i);
        }
    }
}

/// Returns whether the entry at the index is of a group that is not marked.
fn stays_at(history: &History, index: usize, groups: &Groups, going: &Vec<bool>) -> bool
    requires { AreNumbersBelow groups.now (length going.now.items) }
    ensures { (entry : Entry) → slice_get (reverse history.now.entries) index ≡ Some entry → result ≡ keeps groups.now going.now.items (actor entry.0).0 }
{
    match history.acted_on(index) {
        Some((t, _)) => stays(groups, going, t),
        None => true,
    }
}

/// Returns whether the transaction's group is not marked.
fn stays(groups: &Groups, going: &Vec<bool>, t: Txn) -> bool
    requires { AreNumbersBelow groups.now (length going.now.items) }
    ensures { result ≡ keeps groups.now going.now.items t.0 }
{
    match groups.of(t) {
        Some(number) => !going[number],
        None => true,
    }
}
