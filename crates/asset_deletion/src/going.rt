//! The marks of the groups that go.

ghost use Rattle.std.specs.Prelude.{◌≡◌, ℕ, ◌<◌, false, not, ◌||◌, length, slice_index_or, IfOk};
ghost use Rattle.asset_names.specs.declared.names.Txn.{Txn as Name};
ghost use Rattle.asset_deletion.specs.Grouping.{dead_in};
ghost use Rattle.asset_deletion.specs.Going.{takes_along, goes, keeps, AreNumbersBelow};

use crate::grouped::Groups;
use asset_names::{NoMemory, Txn};
use std::alloc::Global;

/// Marks the group of a chosen transaction if it is dead. A transaction that is not named marks nothing.
fn mark_going(groups: &Groups, going: &mut Vec<bool>, t: Txn)
    requires { AreNumbersBelow groups.now (length going.old.items) }
    ensures size { length going.new.items ≡ length going.old.items }
    ensures marked { (g : ℕ) → slice_index_or going.new.items g false ≡ (slice_index_or going.old.items g false || takes_along groups.now g t) }
{
    if groups.is_dead(t) {
        if let Some(number) = groups.of(t) {
            going[number] = true;
        }
    }
}

/// Marks the group of the chosen transaction at the index if it is dead.
fn mark_at(groups: &Groups, going: &mut Vec<bool>, chosen: &[Txn], index: usize)
    requires below { AreNumbersBelow groups.now (length going.old.items) }
    requires there { index < length chosen.now }
    ensures size { length going.new.items ≡ length going.old.items }
    ensures marked { (g : ℕ) (t : Name) → slice_index_or going.new.items g false ≡ (slice_index_or going.old.items g false || takes_along groups.now g (slice_index_or chosen.now index t)) }
{
    mark_going(groups, going, chosen[index]);
}

/// Marks the dead groups that have a chosen transaction.
fn mark_chosen(groups: &Groups, going: &mut Vec<bool>, chosen: &[Txn])
    requires below { AreNumbersBelow groups.now (length going.old.items) }
    requires none { (g : ℕ) → slice_index_or going.old.items g false ≡ false }
    ensures size { length going.new.items ≡ length going.old.items }
    ensures marked { (g : ℕ) → slice_index_or going.new.items g false ≡ goes groups.now chosen.now g }
{
    'chosen: for i in 0..chosen.len() {
        mark_at(groups, going, chosen, i);
    }
}

/// Returns a mark for each group that says whether it is dead and has a chosen transaction, or `NoMemory` if memory runs
/// out.
pub(crate) fn going_with(
    alloc: Global,
    groups: &Groups,
    chosen: &[Txn],
) -> Result<Vec<bool>, NoMemory>
    requires { AreNumbersBelow groups.now groups.now.count }
    ensures size { IfOk result (λ going. length going.items ≡ groups.now.count) }
    ensures marked { IfOk result (λ going. (g : ℕ) → slice_index_or going.items g false ≡ goes groups.now chosen.now g) }
{
    match vec![in alloc; false; groups.count()] {
        Ok(mut going) => {
            mark_chosen(groups, &mut going, chosen);
            Ok(going)
        }
        Err(_) => Err(NoMemory),
    }
}

/// Returns the marks of all dead groups.
pub(crate) fn dead_groups(groups: &Groups) -> &Vec<bool>
    ensures size { length result.now.items ≡ groups.now.count }
    ensures dead { (n : ℕ) → keeps groups.now result.now.items n ≡ not (dead_in groups.now n) }
{
    &groups.is_dead
}
