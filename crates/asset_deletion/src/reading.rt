//! Reads the groups of a history from the labels that it keeps.

ghost use Rattle.std.specs.Prelude.{◌≡◌, ◌+◌, ◌<◌, [], length, take, OnOk, IfOk};
ghost use Rattle.asset_name_groups.specs.NamesInGroups.{IsConsistent};
ghost use Rattle.asset_deletion.specs.Numbered.{number_of, AreCounted, AreNumbered};

use asset_name_groups::NameGroups;
use indexmap::IndexSet;
use std::alloc::AllocError;

/// Returns the number of the next node's group. The first node of a group takes the next number, and notes whether the group is
/// dead; any other node has the number of that one.
fn next_number(
    numbers: &Vec<usize>,
    is_dead: &mut Vec<bool>,
    kept: &NameGroups,
    node: usize,
) -> Result<usize, AllocError>
    requires node { node < length kept.now.names }
    requires numbered { AreNumbered kept.now numbers.now.items node }
    requires counted { AreCounted kept.now is_dead.old.items node }
    ensures number { IfOk result (λ number. number ≡ number_of kept.now node) }
    ensures counted { OnOk result (AreCounted kept.now is_dead.new.items (node + 1)) }
{
    kept.laws();
    let label = kept.label(node);
    if label < node {
        return Ok(numbers[label]);
    }
    let number = is_dead.len();
    is_dead.push(!kept.is_flagged(node))?;
    Ok(number)
}

/// Adds the name of the next node, and the number of its group.
fn read_name(
    names: &mut IndexSet<u64>,
    numbers: &mut Vec<usize>,
    is_dead: &mut Vec<bool>,
    kept: &NameGroups,
    node: usize,
) -> Result<(), AllocError>
    requires node { node < length kept.now.names }
    requires names { names.old.keys ≡ take node kept.now.names }
    requires numbered { AreNumbered kept.now numbers.old.items node }
    requires counted { AreCounted kept.now is_dead.old.items node }
    ensures names { OnOk result (names.new.keys ≡ take (node + 1) kept.now.names) }
    ensures numbered { OnOk result (AreNumbered kept.now numbers.new.items (node + 1)) }
    ensures counted { OnOk result (AreCounted kept.now is_dead.new.items (node + 1)) }
{
    let number = next_number(numbers, is_dead, kept, node)?;
    numbers.push(number)?;
    kept.laws();
    names.insert(kept.name(node))?;
    Ok(())
}

/// Adds all names in their order, the number of each name's group, and whether each group is dead. If memory runs out, they are of no
/// more use.
pub(crate) fn read_names(
    names: &mut IndexSet<u64>,
    numbers: &mut Vec<usize>,
    is_dead: &mut Vec<bool>,
    kept: &NameGroups,
) -> Result<(), AllocError>
    requires names { names.old.keys ≡ [] }
    requires numbers { numbers.old.items ≡ [] }
    requires dead { is_dead.old.items ≡ [] }
    ensures names { OnOk result (names.new.keys ≡ kept.now.names) }
    ensures numbered { OnOk result (AreNumbered kept.now numbers.new.items (length kept.now.names)) }
    ensures counted { OnOk result (AreCounted kept.now is_dead.new.items (length kept.now.names)) }
    ensures sound { IsConsistent kept.now }
{
    kept.laws();
    'names: for node in 0..kept.len() {
        read_name(names, numbers, is_dead, kept, node)?;
    }
    Ok(())
}
