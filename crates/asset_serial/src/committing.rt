//! The transactions whose commits were answered, in the order of these.

ghost use Rattle.std.specs.Prelude.{◌≡◌, [], OnOk, IfOk};
ghost use Rattle.asset_names.specs.Arrows.{with_name};
ghost use Rattle.asset_serial.specs.Answered.{answered_names};

use asset_history::{History, committed_at};
use asset_names::{NoMemory, Txn};
use indexmap::IndexSet;
use std::alloc::Global;

/// Adds the transaction's name, unless it is there. If memory runs out, the names are of no more use.
fn add_name(names: &mut IndexSet<u64>, t: Txn) -> Result<(), NoMemory>
    ensures { OnOk result (names.new.keys ≡ with_name names.old.keys t.0) }
{
    match names.insert(t.0) {
        Ok(_) => Ok(()),
        Err(_) => Err(NoMemory),
    }
}

/// Adds those whose commits were answered with `Committed`, in the order of their first such commits. If memory runs
/// out, the names are of no more use.
fn add_committed(history: &History, names: &mut IndexSet<u64>) -> Result<(), NoMemory>
    requires { names.old.keys ≡ [] }
    ensures { OnOk result (names.new.keys ≡ answered_names history.now.entries) }
{
    'entries: for i in 0..history.len() {
        if let Some(t) = committed_at(history, i) {
            add_name(names, t)?;
        }
    }
    Ok(())
}

/// Returns those whose commits were answered with `Committed`, in the order of their first such commits, or `NoMemory`
/// if memory runs out.
pub(crate) fn committed_names(alloc: Global, history: &History) -> Result<IndexSet<u64>, NoMemory>
    ensures { IfOk result (λ names. names.keys ≡ answered_names history.now.entries) }
{
    let mut names = IndexSet::new(alloc);
    add_committed(history, &mut names)?;
    Ok(names)
}
