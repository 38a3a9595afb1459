//! The calls that find sources.

ghost use Rattle.std.specs.Prelude.{◌≡◌, ◌<◌, ◌≤◌, ◌^◌, ℕ, ℤ, List, ◌∷◌, ◌++◌, length, slice_get, Some, IfOk, OnOk};
ghost use Rattle.asset_names.specs.declared.names.Txn.{Txn};
ghost use Rattle.asset_names.specs.declared.names.Ob.{Ob};
ghost use Rattle.asset_names.specs.declared.steps.Step.TheVariants.{Read};
ghost use Rattle.asset_names.specs.declared.replies.Reply.TheVariants.{Value};
ghost use Rattle.asset_names.specs.Steps.{Entry};
ghost use Rattle.asset_names.specs.Sources.{added, IsAlone, IsOwnOrCommitted, AreOwnOrCommitted};
ghost use Rattle.asset_names.specs.Sources.{source as last_write};
ghost use Rattle.asset_sources.specs.Sourced.{source_from, source_at, sources_of};
ghost use Rattle.asset_sources.specs.Walked.{ShowsFirstNumbered};

use crate::sourced::Source;
use crate::walking::{pass_for_source, tables_before};
use asset_ends::Tables;
use asset_history::History;
use asset_names::{NoMemory, Step, Txn};
use std::alloc::Global;

/// Returns where the value comes from that the entry at the index read, counted from 0; `None` if the entry is no read, if
/// its read was not answered by a value, or past the end. Who is alone in its group reads opening values, its own writes
/// and adds and committed ones. It answers `NoMemory` if memory runs out, and goes over the entries before that one.
pub fn source(alloc: Global, history: &History, index: usize) -> Result<Option<Source>, NoMemory>
    ensures exact { IfOk result (λ found. found ≡ source_at history.now.entries index) }
    ensures alone { (newer older : List Entry) (t : Txn) (x : Ob) (v : ℤ) → history.now.entries ≡ newer ++ (Read t x, Value v) ∷ older → index ≡ length older → IsAlone history.now.entries t.0 →
        IfOk result (λ found. (found ≡ Some (source_from (last_write older x.0))) × IsOwnOrCommitted older t x (last_write older x.0) × AreOwnOrCommitted older t x (added older x.0)) }
{
    if index >= history.len() {
        return Ok(None);
    }
    let mut tables = tables_before(alloc, history)?;
    let found = source_after(history, index, &mut tables);
    drop(tables);
    found
}

/// Returns the source of the entry at the index, by tables that are taken there from the first entry.
fn source_after(
    history: &History,
    index: usize,
    tables: &mut Tables,
) -> Result<Option<Source>, NoMemory>
    requires there { index < length history.now.entries }
    requires small { length history.now.entries < 2 ^ 63 }
    requires stand { ShowsFirstNumbered history.now 0 tables.old }
    ensures { IfOk result (λ found. found ≡ source_at history.now.entries index) }
{
    let mut step = Step::Commit { t: Txn(0) };
    pass_all(history, index, &mut step, tables)?;
    pass_for_source(history, index, &mut step, tables)
}

/// Takes tables past the first `count` entries, whose steps are read into the slot. If memory runs out, the tables are of no
/// more use.
fn pass_all(
    history: &History,
    count: usize,
    step: &mut Step,
    tables: &mut Tables,
) -> Result<(), NoMemory>
    requires there { count ≤ length history.now.entries }
    requires small { length history.now.entries < 2 ^ 63 }
    requires stand { ShowsFirstNumbered history.now 0 tables.old }
    ensures { OnOk result (ShowsFirstNumbered history.now count tables.new) }
{
    'entries: for i in 0..count {
        pass_for_source(history, i, step, tables)?;
    }
    Ok(())
}

/// Returns the sources of all entries, oldest first, each as `source` does. It answers `NoMemory` if memory runs out, and
/// goes over the entries once.
pub fn sources(alloc: Global, history: &History) -> Result<Vec<Option<Source>>, NoMemory>
    ensures exact { IfOk result (λ found. found.items ≡ sources_of history.now.entries) }
    ensures long { IfOk result (λ found. length found.items ≡ length history.now.entries) }
    ensures each { IfOk result (λ found. (i : ℕ) → i < length history.now.entries → slice_get found.items i ≡ Some (source_at history.now.entries i)) }
{
    let mut tables = tables_before(alloc, history)?;
    let found = find_all(alloc, history, &mut tables);
    drop(tables);
    found
}

/// Returns the sources of all entries, by tables that are taken past each.
fn find_all(
    alloc: Global,
    history: &History,
    tables: &mut Tables,
) -> Result<Vec<Option<Source>>, NoMemory>
    requires stand { ShowsFirstNumbered history.now 0 tables.old }
    ensures { IfOk result (λ found. found.items ≡ sources_of history.now.entries) }
{
    let Ok(mut found) = Vec::with_capacity(alloc, history.len()) else {
        return Err(NoMemory);
    };
    let mut step = Step::Commit { t: Txn(0) };
    'entries: for i in 0..history.len() {
        found.push_reserved(pass_for_source(history, i, &mut step, tables)?);
    }
    Ok(found)
}
