//! The call that gives the groups of a history.

ghost use Rattle.std.specs.Prelude.{◌≡◌, IfOk};
ghost use Rattle.asset_deletion.specs.Grouping.{grouping_of};
ghost use Rattle.asset_deletion.specs.Grouped.{AreGroups};

use crate::grouped::Groups;
use crate::reading::read_names;
use asset_history::History;
use asset_names::NoMemory;
use indexmap::IndexSet;
use std::alloc::Global;

/// Returns the groups of a history, or `NoMemory` if memory runs out: the names that its steps act on, each once, in order
/// of first use, and groups that are numbered from 0 in order of their first names. It goes over the names that the history keeps,
/// and takes time that is nearly in proportion to them.
pub fn groups(alloc: Global, history: &History) -> Result<Groups, NoMemory>
    ensures exact { IfOk result (λ g. g ≡ grouping_of history.now.entries) }
    ensures means { IfOk result (λ g. AreGroups history.now.entries g) }
{
    let mut names = IndexSet::new(alloc);
    let mut numbers = Vec::new(alloc);
    let mut is_dead = Vec::new(alloc);
    match read_names(&mut names, &mut numbers, &mut is_dead, history.groups()) {
        Ok(()) => Ok(Groups {
            names,
            numbers,
            is_dead,
        }),
        Err(_) => Err(NoMemory),
    }
}
