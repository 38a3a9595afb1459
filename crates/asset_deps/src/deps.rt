//! The table of dependencies by name: who is enrolled, and its calls.

use crate::finding::sitter_in;
use crate::table::SeatedDeps;
use asset_names::{Kind, NoMemory, Txn};
use asset_seats::{Seats, Sitter};
use std::alloc::Global;
use std::marker::Model;

/// The dependencies that stand between enrolled transactions, and which of these transactions are marked. Exactly those
/// who are enrolled have a seat, by which the table is asked.
///
/// A transaction that never depends on another nor is depended on needs no place here.
pub struct Deps {
    seats: Seats,
    table: SeatedDeps,
}

impl Drop for Deps {
    fn drop(self) {
        let Deps { seats, table } = self;
        drop(seats);
        drop(table);
    }
}

impl Model for Deps {
    ghost use Rattle.asset_deps.specs.Dependencies.{DepTable};
    ghost use Rattle.asset_deps.specs.Valid.{names_of, dependencies_in, marked_in, IsTied};

    ghost Value = { DepTable };

    ghost view = { λ p. record { names = names_of p.seats; dependencies = dependencies_in p.table; marked = marked_in p.seats p.table } };

    ghost invariant = { λ p. IsTied p.table p.seats };
}

impl Deps {
    ghost use Rattle.std.specs.Prelude.{◌≡◌, ℕ, ◌+◌, ◌==◌, ◌&&◌, ◌||◌, not, cond, length, nat_eq, [], ◌∷◌, ◌++◌, true, false, slice_get, option_map, IfSome, IfNone, IsOk, OnOk, OnErr};
    ghost use Rattle.std.specs.List.{IsDistinct};
    ghost use Rattle.asset_names.specs.declared.names.Txn.{Txn};
    ghost use Rattle.asset_names.specs.declared.steps.Kind.{Kind};
    ghost use Rattle.asset_names.specs.Arrows.{lists, has_arrow};
    ghost use Rattle.asset_names.specs.Paths.{same_kind};
    ghost use Rattle.asset_deps.specs.Dependencies.{same_dependency, arrows_of, class_in, doomed_in, would_cycle_in, outside_source_in};

    /// Returns a table without transactions. It does not allocate.
    pub fn new(alloc: Global) -> Deps
        ensures { result ≡ record { names = []; dependencies = []; marked = [] } }
    {
        Deps {
            seats: Seats::new(alloc),
            table: SeatedDeps::new(alloc),
        }
    }

    /// Returns whether the transaction is enrolled. One that is not depends on nobody, and nobody on it.
    pub fn is_enrolled(&self, t: Txn) -> bool
        ensures enrolled { result ≡ lists self.now.names t.0 }
        ensures alone { result ≡ false → (n : ℕ) → (class_in self.now.dependencies t.0 n ≡ (t.0 == n)) × (doomed_in self.now.dependencies t.0 n ≡ (t.0 == n)) }
        ensures no_source { result ≡ false → outside_source_in self.now.dependencies t.0 ≡ false }
    {
        self.seats.seat_of(t).is_some()
    }

    /// Enrols a transaction. If it is enrolled already, nothing changes.
    ///
    /// If memory runs out, nothing changes.
    pub fn enrol(&mut self, t: Txn) -> Result<(), NoMemory>
        ensures names { OnOk result ((n : ℕ) → lists self.new.names n ≡ (lists self.old.names n || n == t.0)) }
        ensures dependencies { self.new.dependencies ≡ self.old.dependencies }
        ensures marked { self.new.marked ≡ self.old.marked }
        ensures unchanged { OnErr result (self.new ≡ self.old) }
        ensures again { lists self.old.names t.0 ≡ true → IsOk result × (self.new ≡ self.old) }
    {
        if self.is_enrolled(t) {
            return Ok(());
        }
        self.seats.reserve()?;
        let vacant = self.seats.vacant();
        self.table.make_room(vacant)?;
        self.seats.sit(t);
        Ok(())
    }

    /// Makes `b` depend on `a`, until one of the two is dropped by `end`. A dependency that stands already is not added
    /// again. It is looked for among those of which `a` is the source, or among those of the dependent `b` if there are
    /// fewer.
    ///
    /// If memory runs out, nothing changes.
    pub fn add(&mut self, kind: Kind, a: Txn, b: Txn) -> Result<(), NoMemory>
        requires source { lists self.old.names a.0 ≡ true }
        requires dependent { lists self.old.names b.0 ≡ true }
        requires no_cycle { would_cycle_in self.old.dependencies kind a.0 b.0 ≡ false }
        ensures added { OnOk result ((k : Kind) (u v : ℕ) → has_arrow (arrows_of k self.new.dependencies) u v ≡ (has_arrow (arrows_of k self.old.dependencies) u v || same_kind k kind && u == a.0 && v == b.0)) }
        ensures once { OnOk result (length self.new.dependencies ≡ length self.old.dependencies + cond (has_arrow (arrows_of kind self.old.dependencies) a.0 b.0) 0 1) }
        ensures names { self.new.names ≡ self.old.names }
        ensures marked { self.new.marked ≡ self.old.marked }
        ensures unchanged { OnErr result (self.new ≡ self.old) }
        ensures again { has_arrow (arrows_of kind self.old.dependencies) a.0 b.0 ≡ true → IsOk result × (self.new ≡ self.old) }
    {
        let source = sitter_in(&self.seats, a);
        let dependent = sitter_in(&self.seats, b);
        self.table.add(&self.seats, kind, source, dependent)
    }

    /// Drops the dependencies of the transaction and those on it, and its mark. It is not enrolled from then on. If it
    /// is not enrolled, nothing changes. It looks at no other dependencies.
    pub fn end(&mut self, t: Txn)
        ensures names { (n : ℕ) → lists self.new.names n ≡ (lists self.old.names n && not (n == t.0)) }
        ensures dependencies { (k : Kind) (u v : ℕ) → has_arrow (arrows_of k self.new.dependencies) u v ≡ (has_arrow (arrows_of k self.old.dependencies) u v && not (u == t.0) && not (v == t.0)) }
        ensures marked { (n : ℕ) → lists self.new.marked n ≡ (lists self.old.marked n && not (n == t.0)) }
        ensures unmarked { lists self.old.marked t.0 ≡ false → self.new.marked ≡ self.old.marked }
    {
        let Some(at) = self.seats.seat_of(t) else {
            return;
        };
        self.table.end(&self.seats, Sitter { t, at });
        self.seats.leave(at);
    }

    /// Returns whether a dependency of `b` on `a` would close a cycle of classes. Nothing changes.
    ///
    /// It searches from both ends in turn, first from the one that has fewer dependencies, until one of the two searches knows, and
    /// looks only at those of the transactions that it meets. It takes no memory.
    pub fn would_cycle(&mut self, kind: Kind, a: Txn, b: Txn) -> bool
        ensures would_cycle { result ≡ would_cycle_in self.old.dependencies kind a.0 b.0 }
        ensures same { self.new ≡ self.old }
    {
        let Some(from) = self.seats.seat_of(a) else {
            return self.table.would_cycle_apart(&self.seats, kind, a, b);
        };
        let Some(to) = self.seats.seat_of(b) else {
            return self.table.would_cycle_apart(&self.seats, kind, a, b);
        };
        let source = Sitter { t: a, at: from };
        let dependent = Sitter { t: b, at: to };
        self.table.would_cycle(&self.seats, kind, source, dependent)
    }

    /// Returns whether the two are in one class. Nothing changes.
    pub fn same_class(&mut self, a: Txn, b: Txn) -> bool
        ensures same_class { result ≡ class_in self.old.dependencies a.0 b.0 }
        ensures same { self.new ≡ self.old }
    {
        let Some(from) = self.seats.seat_of(a) else {
            return a == b;
        };
        let Some(to) = self.seats.seat_of(b) else {
            return a == b;
        };
        let first = Sitter { t: a, at: from };
        let second = Sitter { t: b, at: to };
        self.table.same_class(&self.seats, first, second)
    }

    /// Returns whether a member of the transaction's class depends on a source outside it, by a commit or an abort
    /// dependency. Nothing changes. It looks only at the dependencies of the class.
    pub fn has_outside_source(&mut self, t: Txn) -> bool
        ensures outside { result ≡ outside_source_in self.old.dependencies t.0 }
        ensures same { self.new ≡ self.old }
    {
        let Some(at) = self.seats.seat_of(t) else {
            return false;
        };
        self.table.has_outside_source(&self.seats, Sitter { t, at })
    }

    /// Marks the transaction's class, and nobody else. The marks stay through `would_cycle`, `same_class` and
    /// `has_outside_source`.
    pub fn mark_class(&mut self, t: Txn)
        requires { lists self.old.names t.0 ≡ true }
        ensures marked { (n : ℕ) → lists self.new.marked n ≡ class_in self.old.dependencies t.0 n }
        ensures names { self.new.names ≡ self.old.names }
        ensures dependencies { self.new.dependencies ≡ self.old.dependencies }
    {
        let one = sitter_in(&self.seats, t);
        self.table.mark_class(&self.seats, one);
    }

    /// Marks whom an abort of the transaction aborts, and nobody else. The marks stay through `would_cycle`,
    /// `same_class` and `has_outside_source`.
    pub fn mark_doomed(&mut self, t: Txn)
        requires { lists self.old.names t.0 ≡ true }
        ensures marked { (n : ℕ) → lists self.new.marked n ≡ doomed_in self.old.dependencies t.0 n }
        ensures names { self.new.names ≡ self.old.names }
        ensures dependencies { self.new.dependencies ≡ self.old.dependencies }
    {
        let one = sitter_in(&self.seats, t);
        self.table.mark_doomed(&self.seats, one);
    }

    /// Returns whether the transaction is marked.
    pub fn is_doomed(&self, u: Txn) -> bool
        ensures { result ≡ lists self.now.marked u.0 }
    {
        let Some(at) = self.seats.seat_of(u) else {
            return false;
        };
        self.table.is_doomed(&self.seats, Sitter { t: u, at })
    }

    /// Returns the marked transaction at the index, from 0. It returns `None` past the end.
    pub fn marked(&self, index: usize) -> Option<Txn>
        ensures { option_map (λ (t : Txn). t.0) result ≡ slice_get self.now.marked index }
    {
        self.table.marked_name(&self.seats, index)
    }

    /// Returns how many transactions are marked.
    pub fn marked_count(&self) -> usize
        ensures { result ≡ length self.now.marked }
    {
        self.table.marked_count()
    }

    /// Returns the transaction that is marked last, if one is marked, and takes its mark from it.
    pub fn next_marked(&mut self) -> Option<Txn>
        ensures last { IfSome result (λ u. (self.old.marked ≡ self.new.marked ++ u.0 ∷ []) × (lists self.new.marked u.0 ≡ false)) }
        ensures none { IfNone result ((self.old.marked ≡ []) × (self.new ≡ self.old)) }
        ensures names { self.new.names ≡ self.old.names }
        ensures dependencies { self.new.dependencies ≡ self.old.dependencies }
    {
        let one = self.table.next_marked_sitter(&self.seats)?;
        Some(one.t)
    }

    /// Says what holds of all dependencies, for proofs. It does nothing.
    pub fn laws(&self)
        ensures enrolled { (k : Kind) (u v : ℕ) → has_arrow (arrows_of k self.now.dependencies) u v ≡ true → (lists self.now.names u ≡ true) × (lists self.now.names v ≡ true) }
        ensures marked { (n : ℕ) → lists self.now.marked n ≡ true → lists self.now.names n ≡ true }
        ensures once { IsDistinct nat_eq self.now.marked }
        ensures different { IsDistinct same_dependency self.now.dependencies }
    {
        self.seats.laws();
        self.table.laws();
    }
}
