//! The names in a set, as a list.

ghost use Rattle.std.specs.Prelude.{◌≡◌, IfOk};
ghost use Rattle.std.specs.Ordering.{nat_cmp};
ghost use Rattle.std.specs.List.Sorted.{IsStrictlySortedBy};

use asset_core::NameSet;
use asset_names::NoMemory;
use std::alloc::Global;

/// Returns the names in the set, rising, or `NoMemory` if memory runs out.
pub(crate) fn names_in(alloc: Global, found: &NameSet) -> Result<Vec<u64>, NoMemory>
    ensures items { IfOk result (λ names. names.items ≡ found.now.keys) }
    ensures rising { IsStrictlySortedBy nat_cmp found.now.keys }
{
    let mut names = Vec::new(alloc);
    match names.extend(found.iter().copied()) {
        Ok(()) => Ok(names),
        Err(_) => Err(NoMemory),
    }
}
