//! The table of dependencies by seat: what comes and goes.

use crate::finding::is_there;
use crate::link::Link;
use asset_chains::{Crossed, Side};
use asset_marks::Marks;
use asset_names::{Kind, NoMemory};
use asset_seats::{Seats, Sitter, add_lines, reserve_item};
use std::alloc::Global;
use std::marker::Model;

/// The dependencies that stand, asked by seat, and the marks of those who end together or were asked for. Each dependency is in
/// the row of its source's seat and in the column of its dependent's. The seats are kept elsewhere: each call about a transaction
/// takes them, and requires that the table is tied to them.
pub struct SeatedDeps {
    pub(crate) links: Crossed<Link>,
    pub(crate) marks: Marks,
    pub(crate) marked: Marks,
}

impl Drop for SeatedDeps {
    fn drop(self) {
        let SeatedDeps {
            links,
            marks,
            marked,
        } = self;
        drop(links);
        drop(marks);
        drop(marked);
    }
}

impl Model for SeatedDeps {
    ghost use Rattle.asset_deps.specs.Valid.{LinkTable};

    ghost Value = { LinkTable };

    ghost view = { λ p. record { links = p.links; size = p.marks.size; marked = p.marked } };
}

impl SeatedDeps {
    ghost use Rattle.std.specs.Prelude.{◌≡◌, ℕ, ◌+◌, ◌==◌, ◌&&◌, ◌||◌, not, cond, length, nat_eq, [], true, false, None, IsOk, OnOk, OnErr};
    ghost use Rattle.std.specs.List.{IsDistinct};
    ghost use Rattle.asset_names.specs.declared.steps.Kind.{Kind};
    ghost use Rattle.asset_names.specs.Arrows.{lists, has_arrow};
    ghost use Rattle.asset_names.specs.Paths.{same_kind};
    ghost use Rattle.asset_seats.specs.Seated.{Seated, seat, HasSeat};
    ghost use Rattle.asset_deps.specs.Dependencies.{arrows_of, would_cycle_in};
    ghost use Rattle.asset_deps.specs.Valid.{dependencies_in, marked_in, IsTied, HasRoom};

    /// Returns a table without dependencies. It does not allocate.
    pub fn new(alloc: Global) -> SeatedDeps
        ensures dependencies { dependencies_in result ≡ [] }
        ensures marked { result.marked.nodes ≡ [] }
        ensures tied { (seats : Seated) → ((c : ℕ) → seat seats c ≡ None) → IsTied result seats }
    {
        SeatedDeps {
            links: Crossed::new(alloc),
            marks: Marks::new(alloc),
            marked: Marks::new(alloc),
        }
    }

    /// Adds rows, columns and marks until the seat has them. If memory runs out, some may have been added, and nothing else
    /// has changed.
    pub fn make_room(&mut self, c: usize) -> Result<(), NoMemory>
        ensures room { OnOk result (HasRoom self.new c) }
        ensures dependencies { dependencies_in self.new ≡ dependencies_in self.old }
        ensures marked { self.new.marked.nodes ≡ self.old.marked.nodes }
        ensures tied { (seats : Seated) → IsTied self.old seats → IsTied self.new seats }
    {
        add_lines(&mut self.links, Side::Row, c)?;
        add_lines(&mut self.links, Side::Column, c)?;
        self.marks.add(c)?;
        self.marked.add(c)
    }

    /// Makes `b` depend on `a`, until one of the two is dropped by `end`. A dependency that stands already is not added
    /// again. It is looked for among those of which `a` is the source, or among those of the dependent `b` if there are
    /// fewer.
    ///
    /// If memory runs out, nothing changes.
    pub fn add(&mut self, seats: &Seats, kind: Kind, a: Sitter, b: Sitter) -> Result<(), NoMemory>
        requires tied { IsTied self.old seats.now }
        requires source { HasSeat seats.now a }
        requires dependent { HasSeat seats.now b }
        requires no_cycle { would_cycle_in (dependencies_in self.old) kind a.t.0 b.t.0 ≡ false }
        ensures tied { IsTied self.new seats.now }
        ensures added { OnOk result ((k : Kind) (u v : ℕ) → has_arrow (arrows_of k (dependencies_in self.new)) u v ≡ (has_arrow (arrows_of k (dependencies_in self.old)) u v || same_kind k kind && u == a.t.0 && v == b.t.0)) }
        ensures once { OnOk result (length (dependencies_in self.new) ≡ length (dependencies_in self.old) + cond (has_arrow (arrows_of kind (dependencies_in self.old)) a.t.0 b.t.0) 0 1) }
        ensures marked { self.new.marked ≡ self.old.marked }
        ensures unchanged { OnErr result (dependencies_in self.new ≡ dependencies_in self.old) }
        ensures again { has_arrow (arrows_of kind (dependencies_in self.old)) a.t.0 b.t.0 ≡ true → IsOk result × (dependencies_in self.new ≡ dependencies_in self.old) }
    {
        if self.has(seats, kind, a, b) {
            return Ok(());
        }
        reserve_item(&mut self.links)?;
        self.links.insert(a.at, b.at, Link::of(kind, a.t, b.t));
        self.links.laws();
        Ok(())
    }

    /// Returns whether the dependency stands.
    fn has(&self, seats: &Seats, kind: Kind, a: Sitter, b: Sitter) -> bool
        requires tied { IsTied self.now seats.now }
        requires source { HasSeat seats.now a }
        requires dependent { HasSeat seats.now b }
        ensures { result ≡ has_arrow (arrows_of kind (dependencies_in self.now)) a.t.0 b.t.0 }
    {
        seats.laws();
        let sought = Link::of(kind, a.t, b.t);
        if self.links.len(Side::Row, a.at) <= self.links.len(Side::Column, b.at) {
            is_there(&self.links, Side::Row, a.at, &sought)
        } else {
            is_there(&self.links, Side::Column, b.at, &sought)
        }
    }

    /// Drops the dependencies of the transaction and those on it, and its mark, so that it may leave its seat. It looks at no
    /// other dependencies.
    pub fn end(&mut self, seats: &Seats, t: Sitter)
        requires tied { IsTied self.old seats.now }
        requires sits { HasSeat seats.now t }
        ensures tied { IsTied self.new seats.now }
        ensures leaves { (left : Seated) → ((c : ℕ) → seat left c ≡ cond (c == t.at) None (seat seats.now c)) → IsTied self.new left }
        ensures dependencies { (k : Kind) (u v : ℕ) → has_arrow (arrows_of k (dependencies_in self.new)) u v ≡ (has_arrow (arrows_of k (dependencies_in self.old)) u v && not (u == t.t.0) && not (v == t.t.0)) }
        ensures marked { (n : ℕ) → lists (marked_in seats.now self.new) n ≡ (lists (marked_in seats.now self.old) n && not (n == t.t.0)) }
        ensures unmarked { lists (marked_in seats.now self.old) t.t.0 ≡ false → self.new.marked ≡ self.old.marked }
    {
        seats.laws();
        self.links.laws();
        self.links.clear(Side::Row, t.at);
        self.links.laws();
        self.links.clear(Side::Column, t.at);
        self.links.laws();
        self.marked.forget(t.at);
    }

    /// Says what holds of the marks of all tables, for proofs. It does nothing.
    pub fn laws(&self)
        ensures { IsDistinct nat_eq self.now.marked.nodes }
    {
        self.marked.laws();
    }
}
