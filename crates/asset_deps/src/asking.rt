//! What callers ask of the dependencies: classes, sources outside of them, and cycles.

ghost use Rattle.std.specs.Prelude.{◌≡◌, length, max};
ghost use Rattle.asset_chains.specs.Chained.{chain_of};

use crate::finding::is_loop;
use crate::kinds::Kinds;
use crate::link::Link;
use crate::outside::leads_outside;
use crate::search::Search;
use crate::table::SeatedDeps;
use asset_chains::{Crossed, Side};
use asset_marks::{Way, is_linked_either_way, spread};
use asset_names::{Kind, Txn};
use asset_seats::{Seats, Sitter};

/// Returns how many dependencies lead from the seat, or how many lead to it if those are more.
fn most_on(links: &Crossed<Link>, seat: usize) -> usize
    ensures { result ≡ max (length (chain_of links.now.rows seat)) (length (chain_of links.now.columns seat)) }
{
    links
        .len(Side::Row, seat)
        .max(links.len(Side::Column, seat))
}

impl SeatedDeps {
    ghost use Rattle.std.specs.Prelude.{◌≡◌, ◌≢◌, ℕ, ◌==◌, ◌⊎◌, false, Some};
    ghost use Rattle.asset_names.specs.Arrows.{linked};
    ghost use Rattle.asset_names.specs.Paths.{leads};
    ghost use Rattle.asset_seats.specs.Seated.{seat, HasSeat};
    ghost use Rattle.asset_deps.specs.Dependencies.{class_ways, order_ways, class_in, doomed_in, would_cycle_in, outside_source_in, is_linked_in};
    ghost use Rattle.asset_deps.specs.Reached.{ways_in};
    ghost use Rattle.asset_deps.specs.Valid.{dependencies_in, IsTied};

    /// Returns whether a dependency of `b` on `a` would close a cycle of classes. Nothing changes.
    ///
    /// It searches from both ends in turn, first from the one that has fewer dependencies, until one of the two searches knows, and
    /// looks only at those of the transactions that it meets. It takes no memory.
    pub fn would_cycle(&mut self, seats: &Seats, kind: Kind, a: Sitter, b: Sitter) -> bool
        requires tied { IsTied self.old seats.now }
        requires source { HasSeat seats.now a }
        requires dependent { HasSeat seats.now b }
        ensures would_cycle { result ≡ would_cycle_in (dependencies_in self.old) kind a.t.0 b.t.0 }
        ensures same { self.new ≡ self.old }
    {
        match kind {
            Kind::Gc => {
                if self.same_class(seats, a, b) {
                    return false;
                }
                self.leads(seats, a, b) || self.leads(seats, b, a)
            }
            Kind::Cd => self.leads(seats, b, a),
            Kind::Ad => self.leads(seats, b, a),
        }
    }

    /// Returns what `would_cycle` says if one of the two has no seat: a dependency between them closes a cycle only if it is one of a
    /// transaction on itself, by a commit or an abort. No dependency is looked at.
    pub fn would_cycle_apart(&self, seats: &Seats, kind: Kind, a: Txn, b: Txn) -> bool
        requires tied { IsTied self.now seats.now }
        requires apart { ((c : ℕ) → seat seats.now c ≢ Some a) ⊎ ((c : ℕ) → seat seats.now c ≢ Some b) }
        ensures { result ≡ would_cycle_in (dependencies_in self.now) kind a.0 b.0 }
    {
        is_loop(kind, a, b)
    }

    /// Returns whether a dependency leads from the transaction or to it. One that has none is a class of its own, and depends
    /// on no source. Its row and its column are looked at, and no dependency.
    pub fn is_linked(&self, seats: &Seats, t: Sitter) -> bool
        requires tied { IsTied self.now seats.now }
        requires sits { HasSeat seats.now t }
        ensures linked { result ≡ is_linked_in (dependencies_in self.now) t.t.0 }
        ensures alone { result ≡ false → (n : ℕ) → (class_in (dependencies_in self.now) t.t.0 n ≡ (t.t.0 == n)) × (doomed_in (dependencies_in self.now) t.t.0 n ≡ (t.t.0 == n)) }
        ensures no_source { result ≡ false → outside_source_in (dependencies_in self.now) t.t.0 ≡ false }
    {
        seats.laws();
        self.links.laws();
        let row = self.links.first(Side::Row, t.at).is_some();
        let column = self.links.first(Side::Column, t.at).is_some();
        row | column
    }

    /// Returns whether the two are in one class. Nothing changes.
    pub fn same_class(&mut self, seats: &Seats, a: Sitter, b: Sitter) -> bool
        requires tied { IsTied self.old seats.now }
        requires source { HasSeat seats.now a }
        requires dependent { HasSeat seats.now b }
        ensures same_class { result ≡ class_in (dependencies_in self.old) a.t.0 b.t.0 }
        ensures same { self.new ≡ self.old }
    {
        self.is_reached(seats, Kinds::Class, a, b)
    }

    /// Returns whether a path leads from the class of the one to that of the other. Nothing changes.
    fn leads(&mut self, seats: &Seats, a: Sitter, b: Sitter) -> bool
        requires tied { IsTied self.old seats.now }
        requires source { HasSeat seats.now a }
        requires dependent { HasSeat seats.now b }
        ensures leads { result ≡ leads (class_ways (dependencies_in self.old)) (order_ways (dependencies_in self.old)) a.t.0 b.t.0 }
        ensures same { self.new ≡ self.old }
    {
        self.is_reached(seats, Kinds::All, a, b)
    }

    /// Returns whether a member of the transaction's class depends on a source outside it, by a commit or an abort
    /// dependency. Nothing changes. It looks only at the dependencies of the class.
    pub fn has_outside_source(&mut self, seats: &Seats, t: Sitter) -> bool
        requires tied { IsTied self.old seats.now }
        requires sits { HasSeat seats.now t }
        ensures outside { result ≡ outside_source_in (dependencies_in self.old) t.t.0 }
        ensures same { self.new ≡ self.old }
    {
        seats.laws();
        let search = Search {
            links: &self.links,
            side: Side::Row,
            kinds: Kinds::Class,
        };
        spread(&search, t.at, &mut self.marks);
        let back = Way {
            items: &self.links,
            side: Side::Column,
        };
        leads_outside(&back, &self.marks)
    }

    /// Returns whether dependencies lead from the one to the other: those of these kinds from source to dependent, and all
    /// group commits back. Nothing changes.
    fn is_reached(&mut self, seats: &Seats, kinds: Kinds, a: Sitter, b: Sitter) -> bool
        requires tied { IsTied self.old seats.now }
        requires source { HasSeat seats.now a }
        requires dependent { HasSeat seats.now b }
        ensures reached { result ≡ linked (ways_in kinds (dependencies_in self.old)) a.t.0 b.t.0 }
        ensures same { self.new ≡ self.old }
    {
        let _ = &self.links;
        a.t == b.t || self.is_another_reached(seats, kinds, a, b)
    }

    /// Returns the same for two transactions that differ.
    fn is_another_reached(&mut self, seats: &Seats, kinds: Kinds, a: Sitter, b: Sitter) -> bool
        requires tied { IsTied self.old seats.now }
        requires source { HasSeat seats.now a }
        requires dependent { HasSeat seats.now b }
        requires another { (a.t.0 == b.t.0) ≡ false }
        ensures reached { result ≡ linked (ways_in kinds (dependencies_in self.old)) a.t.0 b.t.0 }
        ensures same { self.new ≡ self.old }
    {
        seats.laws();
        let (from, to) = (a.at, b.at);
        let forth = Search {
            links: &self.links,
            side: Side::Row,
            kinds,
        };
        let back = Search {
            links: &self.links,
            side: Side::Column,
            kinds,
        };
        let (at_from, at_to) = (most_on(&self.links, from), most_on(&self.links, to));
        let first = at_from.max(at_to);
        if at_from <= at_to {
            is_linked_either_way(&forth, from, &back, to, first, &mut self.marks)
        } else {
            is_linked_either_way(&back, to, &forth, from, first, &mut self.marks)
        }
    }
}
