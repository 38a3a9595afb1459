//! Dependencies between transactions.

use crate::seating::sitter_of;
use crate::tables::Tables;
use asset_names::{Kind, NoMemory, Txn};
use asset_seats::Sitter;

impl Tables {
    ghost use Rattle.std.specs.Prelude.{◌≡◌, true, false, OnOk, OnErr};
    ghost use Rattle.asset_names.specs.declared.steps.Step.{Step};
    ghost use Rattle.asset_names.specs.Endings.{is_live_status, would_cycle};
    ghost use Rattle.asset_deps.specs.Dependencies.{would_cycle_in};
    ghost use Rattle.asset_trans.specs.TransRows.{status_in, seat_in};
    ghost use Rattle.asset_ends.specs.Shown.{ForShown, ShowsWith};
    ghost use Rattle.asset_ends.specs.Standing.{SameView};

    /// Returns whether a dependency of this kind of `b` on `a` would close a cycle among the classes of live transactions.
    /// Nothing changes: a search marks what it met, and no call shows that. It takes no memory, and looks only at the
    /// dependencies of those whom it meets.
    pub fn would_cycle(&mut self, kind: Kind, a: Txn, b: Txn) -> bool
        ensures cycle { result ≡ would_cycle_in self.old.deps kind a.0 b.0 }
        ensures shown { ForShown self.old (λ opening steps. result ≡ would_cycle steps kind a.0 b.0) }
        ensures same { self.new ≡ self.old }
    {
        let Some(source) = sitter_of(&self.parts.trans, &self.parts.seats, a) else {
            return self
                .parts
                .deps
                .would_cycle_apart(&self.parts.seats, kind, a, b);
        };
        let Some(dependent) = sitter_of(&self.parts.trans, &self.parts.seats, b) else {
            return self
                .parts
                .deps
                .would_cycle_apart(&self.parts.seats, kind, a, b);
        };
        self.parts
            .deps
            .would_cycle(&self.parts.seats, kind, source, dependent)
    }

    /// Makes `b` depend on `a`, both of which are live; a group commit joins their classes. The caller has made sure
    /// that it closes no cycle. If memory runs out, nothing that any call shows has changed.
    pub fn depend(&mut self, kind: Kind, a: Txn, b: Txn) -> Result<(), NoMemory>
        requires source { is_live_status (status_in self.old.trans a.0) ≡ true }
        requires dependent { is_live_status (status_in self.old.trans b.0) ≡ true }
        requires open { would_cycle_in self.old.deps kind a.0 b.0 ≡ false }
        ensures stand { OnOk result (ShowsWith self.old (Step.Depend kind a b) self.new) }
        ensures locks { self.new.locks ≡ self.old.locks }
        ensures unchanged { OnErr result (SameView self.new self.old) }
    {
        let (_, source) = self.find(a);
        let (_, dependent) = self.find(b);
        self.depend_at(kind, source, dependent)
    }

    /// Does what `depend` does, for transactions whose seats are found. Both are live, the seats are those of their rows, and
    /// the dependency closes no cycle. If memory runs out, the answer is `NoMemory`, and nothing that any call shows has
    /// changed.
    #[inline(always)]
    pub fn depend_at(
        &mut self,
        kind: Kind,
        source: Sitter,
        dependent: Sitter,
    ) -> Result<(), NoMemory>
        requires source { is_live_status (status_in self.old.trans source.t.0) ≡ true }
        requires dependent { is_live_status (status_in self.old.trans dependent.t.0) ≡ true }
        requires source_seat { source.at ≡ seat_in self.old.trans source.t.0 }
        requires dependent_seat { dependent.at ≡ seat_in self.old.trans dependent.t.0 }
        requires open { would_cycle_in self.old.deps kind source.t.0 dependent.t.0 ≡ false }
        ensures stand { OnOk result (ShowsWith self.old (Step.Depend kind source.t dependent.t) self.new) }
        ensures locks { self.new.locks ≡ self.old.locks }
        ensures unchanged { OnErr result (SameView self.new self.old) }
    {
        self.parts
            .deps
            .add(&self.parts.seats, kind, source, dependent)
    }
}
