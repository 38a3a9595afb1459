//! The walk over a history on tables that show it.

ghost use Rattle.std.specs.Prelude.{◌+◌, ◌<◌, length, IfOk, OnOk};
ghost use Rattle.asset_names.specs.Steps.{applied};
ghost use Rattle.asset_ends.specs.Shows.{Shows};
ghost use Rattle.asset_ends.specs.Standing.{values_of};
ghost use Rattle.asset_lanes.specs.Walked.{ShowsFirst};

use asset_ends::Tables;
use asset_history::History;
use asset_names::NoMemory;
use asset_steps::apply;
use std::alloc::Global;

/// Returns tables before the first entry. It answers `NoMemory` if memory runs out.
pub(crate) fn tables_before(alloc: Global, history: &History) -> Result<Tables, NoMemory>
    ensures { IfOk result (λ tables. ShowsFirst history.now 0 tables) }
{
    Tables::open_distinct(alloc, history.opening())
}

/// Takes tables past the entry at the index. It answers `NoMemory` if memory runs out, and the tables are of no more use.
pub(crate) fn pass(history: &History, index: usize, tables: &mut Tables) -> Result<(), NoMemory>
    requires there { index < length history.now.entries }
    requires stand { ShowsFirst history.now index tables.old }
    ensures { OnOk result (ShowsFirst history.now (index + 1) tables.new) }
{
    match history.entry(index) {
        Some((step, reply)) => apply(tables, &step, reply),
        None => Ok(()),
    }
}

/// Takes tables past all entries.
fn pass_all(history: &History, tables: &mut Tables) -> Result<(), NoMemory>
    requires stand { ShowsFirst history.now 0 tables.old }
    ensures { OnOk result (Shows history.now.opening (applied history.now.entries) (values_of tables.new)) }
{
    'entries: for i in 0..history.len() {
        pass(history, i, tables)?;
    }
    Ok(())
}

/// Returns tables that show a history once all its entries are applied, or `NoMemory` if memory runs out.
pub(crate) fn tables_after(alloc: Global, history: &History) -> Result<Tables, NoMemory>
    ensures { IfOk result (λ tables. Shows history.now.opening (applied history.now.entries) (values_of tables)) }
{
    let mut tables = tables_before(alloc, history)?;
    pass_all(history, &mut tables)?;
    Ok(tables)
}
