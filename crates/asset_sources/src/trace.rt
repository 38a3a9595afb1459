//! A history with the sources of what was read in it.

ghost use Rattle.std.specs.Prelude.{◌≡◌};

use crate::finding::sources;
use crate::sourced::Source;
use crate::walking::with_source;
use asset_history::History;
use asset_names::{NoMemory, Ob, Step, Txn};
use std::alloc::Global;
use std::marker::Model;

/// A history with the sources of what was read in it. Contracts see the history.
#[derive(Drop)]
pub struct Trace {
    history: History,
    // The source of what each entry read, oldest first.
    sources: Vec<Option<Source>>,
}

impl Model for Trace {
    ghost use Rattle.std.specs.Prelude.{◌≡◌};
    ghost use Rattle.asset_entries.specs.Recorded.{Recorded};
    ghost use Rattle.asset_sources.specs.Sourced.{sources_of};

    ghost Value = { Recorded };

    ghost view = { λ t. t.history };

    ghost invariant = { λ t. t.sources.items ≡ sources_of t.history.entries };
}

impl Trace {
    ghost use Rattle.std.specs.Prelude.{◌≡◌, ◌≤◌, ℤ, None, Some, List, ◌∷◌, ◌++◌, length, reverse, slice_get, IfOk};
    ghost use Rattle.asset_names.specs.declared.names.Txn.{Txn};
    ghost use Rattle.asset_names.specs.declared.names.Ob.{Ob};
    ghost use Rattle.asset_names.specs.declared.steps.Step.TheVariants.{Read};
    ghost use Rattle.asset_names.specs.declared.replies.Reply.TheVariants.{Value};
    ghost use Rattle.asset_names.specs.Steps.{Entry};
    ghost use Rattle.asset_names.specs.Sources.{added, IsAlone, IsOwnOrCommitted, AreOwnOrCommitted};
    ghost use Rattle.asset_names.specs.Sources.{source as last_write};
    ghost use Rattle.asset_sources.specs.Sourced.{source_from, source_at, read_of, read_with};

    /// Returns the history with the sources of what was read in it. It goes over the entries once, and answers `NoMemory` if
    /// memory runs out; then the history is dropped.
    pub fn of(alloc: Global, history: History) -> Result<Trace, NoMemory>
        ensures { IfOk result (λ trace. trace ≡ history) }
    {
        let sources = sources(alloc, &history)?;
        Ok(Trace { history, sources })
    }

    /// Returns the number of entries.
    pub fn len(&self) -> usize
        ensures { result ≡ length self.now.entries }
    {
        self.history.len()
    }

    /// Returns the read of the entry at the index, oldest first from 0, with the value that it got and the source of that
    /// value; `None` if the entry is no read, if its read was not answered by a value, or past the end. Who is alone in its
    /// group reads opening values, its own writes and adds and committed ones.
    #[inline(always)]
    pub fn read(&self, index: usize) -> Option<(Step, i64, Source)>
        ensures past { length self.now.entries ≤ index → result ≡ None }
        ensures read { (entry : Entry) → slice_get (reverse self.now.entries) index ≡ Some entry → result ≡ read_of entry.0 entry.1 (source_at self.now.entries index) }
        ensures alone { (newer older : List Entry) (t : Txn) (x : Ob) (v : ℤ) → self.now.entries ≡ newer ++ (Read t x, Value v) ∷ older → index ≡ length older → IsAlone self.now.entries t.0 →
            (result ≡ Some (Read t x, v, source_from (last_write older x.0))) × IsOwnOrCommitted older t x (last_write older x.0) × AreOwnOrCommitted older t x (added older x.0) }
    {
        let (step, reply) = self.history.entry(index)?;
        let (v, source) = with_source(reply, self.sources[index])?;
        Some((step, v, source))
    }
}
