//! A walk over a history that finds the sources of what was read.

ghost use Rattle.std.specs.Prelude.{◌≡◌};

use crate::sourced::Source;
use crate::walking::{pass, tables_before};
use asset_ends::Tables;
use asset_history::History;
use asset_names::{NoMemory, Step};
use std::alloc::Global;
use std::marker::Model;

/// A walk over the entries of a history, oldest first, which finds the source of what each of them read. It keeps no sources.
/// Contracts see the history, and how many of its entries were passed.
#[derive(Drop)]
pub struct SourceWalk {
    history: History,
    // How many entries were passed.
    passed: usize,
    // They show the entries that were passed, unless a call met that memory ran out.
    tables: Tables,
    // Whether memory ran out in a call; then the tables are of no more use.
    is_lost: bool,
}

impl Model for SourceWalk {
    ghost use Rattle.std.specs.Prelude.{◌≡◌, ◌≤◌, false, length};
    ghost use Rattle.asset_sources.specs.Sourced.{Passing};
    ghost use Rattle.asset_sources.specs.Walked.{ShowsFirstNumbered};

    ghost Value = { Passing };

    ghost view = { λ w. record { history = w.history; passed = w.passed } };

    ghost invariant = { λ w. (w.passed ≤ length w.history.entries) × (w.is_lost ≡ false → ShowsFirstNumbered w.history w.passed w.tables) };
}

impl SourceWalk {
    ghost use Rattle.std.specs.Prelude.{◌≡◌, ◌+◌, ◌<◌, ◌≤◌, ℤ, None, Some, Ok, List, ◌∷◌, ◌++◌, reverse, length, slice_get, IfOk, OnOk, OnErr};
    ghost use Rattle.asset_names.specs.declared.names.Txn.{Txn};
    ghost use Rattle.asset_names.specs.declared.names.Ob.{Ob};
    ghost use Rattle.asset_names.specs.declared.steps.Step.TheVariants.{Read};
    ghost use Rattle.asset_names.specs.declared.replies.Reply.TheVariants.{Value};
    ghost use Rattle.asset_names.specs.Steps.{Entry};
    ghost use Rattle.asset_names.specs.Sources.{added, IsAlone, IsOwnOrCommitted, AreOwnOrCommitted};
    ghost use Rattle.asset_names.specs.Sources.{source as last_write};
    ghost use Rattle.asset_sources.specs.Sourced.{source_from, source_at, read_of, read_with};

    /// Returns a walk that has passed no entry. It answers `NoMemory` if memory runs out, and then the history is dropped.
    pub fn of(alloc: Global, history: History) -> Result<SourceWalk, NoMemory>
        ensures { IfOk result (λ walk. (walk.history ≡ history) × (walk.passed ≡ 0)) }
    {
        let tables = tables_before(alloc, &history)?;
        Ok(SourceWalk {
            history,
            passed: 0,
            tables,
            is_lost: false,
        })
    }

    /// Returns how many entries the history has.
    pub fn len(&self) -> usize
        ensures { result ≡ length self.now.history.entries }
    {
        self.history.len()
    }

    /// Passes the next entry, whose step is read into the slot. Returns the value that it read with the source of that value, and
    /// then the slot has the read; `None` if the entry is no read, if its read was not answered by a value, or at the end, and then
    /// what the slot has means nothing. Who is alone in its group reads opening values, its own writes and adds and committed ones.
    /// It answers `NoMemory` if memory runs out, and does not pass an entry any more.
    pub fn pass(&mut self, step: &mut Step) -> Result<Option<(i64, Source)>, NoMemory>
        ensures history { self.new.history ≡ self.old.history }
        ensures past { length self.old.history.entries ≤ self.old.passed → (result ≡ Ok None) × (self.new.passed ≡ self.old.passed) }
        ensures fault { OnErr result (self.new.passed ≡ self.old.passed) }
        ensures passed { self.old.passed < length self.old.history.entries → OnOk result (self.new.passed ≡ self.old.passed + 1) }
        ensures read { (entry : Entry) → slice_get (reverse self.old.history.entries) self.old.passed ≡ Some entry → IfOk result (λ found. read_with step.new found ≡ read_of entry.0 entry.1 (source_at self.old.history.entries self.old.passed)) }
        ensures alone { (newer older : List Entry) (t : Txn) (x : Ob) (v : ℤ) → self.old.history.entries ≡ newer ++ (Read t x, Value v) ∷ older → self.old.passed ≡ length older → IsAlone self.old.history.entries t.0 →
            IfOk result (λ found. (read_with step.new found ≡ Some (Read t x, v, source_from (last_write older x.0))) × IsOwnOrCommitted older t x (last_write older x.0) × AreOwnOrCommitted older t x (added older x.0)) }
    {
        if self.history.len() <= self.passed {
            return Ok(None);
        }
        if self.is_lost {
            return Err(NoMemory);
        }
        self.is_lost = true;
        let found = pass(&self.history, self.passed, step, &mut self.tables)?;
        self.passed += 1;
        self.is_lost = false;
        Ok(found)
    }
}
