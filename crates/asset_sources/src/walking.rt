//! The walk over a history on tables that show it with the numbers of entries in place of values.

ghost use Rattle.std.specs.Prelude.{◌≡◌, ◌+◌, ◌<◌, ◌^◌, true, List, ◌∷◌, length, reverse, slice_get, Some, IfOk, OnOk};
ghost use Rattle.asset_names.specs.declared.steps.Step.{Step as Asked};
ghost use Rattle.asset_names.specs.Steps.{Opening, Entry, takes_effect, applied};
ghost use Rattle.asset_names.specs.Answers.{IsLegal};
ghost use Rattle.asset_laws.specs.Renumbered.{writing, renumbered, zeroed};
ghost use Rattle.asset_ends.specs.Shows.{Shows};
ghost use Rattle.asset_ends.specs.Standing.{values_of};
ghost use Rattle.asset_ends.specs.Shown.{ShowsEntry};
ghost use Rattle.asset_steps.specs.Ready.{IsReady};
ghost use Rattle.asset_sources.specs.Sourced.{source_of, source_at, read_of, read_with};
ghost use Rattle.asset_sources.specs.Walked.{first_entries, ShowsFirstNumbered};

use crate::renumbering::{renumber, source_numbered, zeroed};
use crate::sourced::Source;
use asset_ends::Tables;
use asset_history::History;
use asset_names::{NoMemory, Reply, Step};
use asset_steps::apply;
use std::alloc::Global;

/// Returns tables with the history's objects, each with the value 0, before the first entry. It answers `NoMemory` if
/// memory runs out.
pub(crate) fn tables_before(alloc: Global, history: &History) -> Result<Tables, NoMemory>
    ensures { IfOk result (λ tables. ShowsFirstNumbered history.now 0 tables) }
{
    let opening = zeroed(alloc, history.opening())?;
    Tables::open_distinct(alloc, &opening)
}

/// Returns the source of the value that a step read, by tables that show the older entries; `None` if it is no read, or
/// was not answered by a value.
fn source_read(step: &Step, reply: &Reply, tables: &Tables) -> Option<Source>
    ensures { (opening : Opening) (older : List Entry) → length older + 1 < 2 ^ 63 → Shows (zeroed opening) (applied (renumbered older)) (values_of tables.now) → IsLegal opening ((step.now, reply.now) ∷ older) →
        result ≡ source_of older step.now reply.now }
{
    match step {
        Step::Read { x, .. } => match reply {
            Reply::Value(_) => Some(source_numbered(tables.value(*x))),
            _ => None,
        },
        _ => None,
    }
}

/// Returns the value of a reply with its source, if it has both.
#[inline(always)]
#[tactic(auto, unfolding(crate::specs::Sourced::read_of, crate::specs::Sourced::read_with))]
pub(crate) fn with_source(reply: Reply, source: Option<Source>) -> Option<(i64, Source)>
    ensures { (step : Asked) → read_with step result ≡ read_of step reply source }
{
    match reply {
        Reply::Value(v) => match source {
            Some(source) => Some((v, source)),
            None => None,
        },
        _ => None,
    }
}

/// Applies the answered step of the entry at the index to tables, with the number of the entry in place of a value, and
/// returns what `source_read` says before. The slot has the step with that number afterwards. It answers `NoMemory` if memory
/// runs out, and the tables are of no more use.
fn apply_renumbered(
    index: usize,
    step: &mut Step,
    reply: Reply,
    tables: &mut Tables,
) -> Result<Option<Source>, NoMemory>
    requires small { index + 1 < 2 ^ 63 }
    requires ready { takes_effect step.old reply ≡ true → IsReady (writing index step.old) tables.old }
    ensures step { step.new ≡ writing index step.old }
    ensures stand { OnOk result (ShowsEntry tables.old (writing index step.old, reply) tables.new) }
    ensures source { (opening : Opening) (older : List Entry) → length older + 1 < 2 ^ 63 → Shows (zeroed opening) (applied (renumbered older)) (values_of tables.old) → IsLegal opening ((step.old, reply) ∷ older) →
        IfOk result (λ found. found ≡ source_of older step.old reply) }
{
    let found = source_read(step, &reply, tables);
    renumber(index, step);
    apply(tables, step, reply)?;
    Ok(found)
}

/// Takes tables past the entry at the index, whose step is read into the slot, and returns the value that it read with the source
/// of that value. The slot has the read afterwards. It returns `None` if the entry is no read, or was not answered by a value, and
/// then what the slot has means nothing. It answers `NoMemory` if memory runs out, and the tables are of no more use.
pub(crate) fn pass(
    history: &History,
    index: usize,
    step: &mut Step,
    tables: &mut Tables,
) -> Result<Option<(i64, Source)>, NoMemory>
    requires there { index < length history.now.entries }
    requires small { length history.now.entries < 2 ^ 63 }
    requires stand { ShowsFirstNumbered history.now index tables.old }
    ensures stand { OnOk result (ShowsFirstNumbered history.now (index + 1) tables.new) }
    ensures read { (entry : Entry) → slice_get (reverse history.now.entries) index ≡ Some entry → IfOk result (λ found. read_with step.new found ≡ read_of entry.0 entry.1 (source_at history.now.entries index)) }
{
    match history.entry_into(index, step) {
        Some(reply) => {
            let source = apply_renumbered(index, step, reply, tables)?;
            Ok(with_source(reply, source))
        }
        None => Ok(None),
    }
}

/// Takes tables past the entry at the index, as `pass` does, and returns the source alone.
pub(crate) fn pass_for_source(
    history: &History,
    index: usize,
    step: &mut Step,
    tables: &mut Tables,
) -> Result<Option<Source>, NoMemory>
    requires there { index < length history.now.entries }
    requires small { length history.now.entries < 2 ^ 63 }
    requires stand { ShowsFirstNumbered history.now index tables.old }
    ensures stand { OnOk result (ShowsFirstNumbered history.now (index + 1) tables.new) }
    ensures source { (entry : Entry) → slice_get (reverse history.now.entries) index ≡ Some entry → IfOk result (λ found. found ≡ source_of (first_entries history.now index) entry.0 entry.1) }
{
    match pass(history, index, step, tables)? {
        Some(found) => Ok(Some(found.1)),
        None => Ok(None),
    }
}
