//! Marks on the transactions that end together.

use crate::kinds::Kinds;
use crate::outside::leads_outside;
use crate::search::Search;
use crate::table::SeatedDeps;
use asset_chains::Side;
use asset_marks::{Way, spread};
use asset_names::Txn;
use asset_seats::{Seats, Sitter};

impl SeatedDeps {
    ghost use Rattle.std.specs.Prelude.{◌≡◌, ℕ, false, [], ◌∷◌, ◌++◌, length, slice_get, option_map, IfSome, IfNone};
    ghost use Rattle.asset_names.specs.declared.names.Txn.{Txn};
    ghost use Rattle.asset_names.specs.Arrows.{lists, linked};
    ghost use Rattle.asset_seats.specs.Seated.{Seated, HasSeat};
    ghost use Rattle.asset_deps.specs.Dependencies.{class_in, doomed_in, outside_source_in};
    ghost use Rattle.asset_deps.specs.Reached.{ways_in};
    ghost use Rattle.asset_deps.specs.Valid.{dependencies_in, marked_in, IsTied};

    /// Marks the transaction's class, and nobody else. The marks stay through `would_cycle`, `same_class` and
    /// `has_outside_source`.
    pub fn mark_class(&mut self, seats: &Seats, t: Sitter)
        requires tied { IsTied self.old seats.now }
        requires sits { HasSeat seats.now t }
        ensures tied { IsTied self.new seats.now }
        ensures marked { (n : ℕ) → lists (marked_in seats.now self.new) n ≡ class_in (dependencies_in self.old) t.t.0 n }
        ensures dependencies { dependencies_in self.new ≡ dependencies_in self.old }
    {
        self.mark(seats, Kinds::Class, t);
    }

    /// Marks whom an abort of the transaction aborts, and nobody else. The marks stay through `would_cycle`,
    /// `same_class` and `has_outside_source`.
    pub fn mark_doomed(&mut self, seats: &Seats, t: Sitter)
        requires tied { IsTied self.old seats.now }
        requires sits { HasSeat seats.now t }
        ensures tied { IsTied self.new seats.now }
        ensures marked { (n : ℕ) → lists (marked_in seats.now self.new) n ≡ doomed_in (dependencies_in self.old) t.t.0 n }
        ensures dependencies { dependencies_in self.new ≡ dependencies_in self.old }
    {
        self.mark(seats, Kinds::Dooming, t);
    }

    /// Marks those to whom dependencies lead from the transaction, and nobody else: those of these kinds from source to
    /// dependent, and all group commits back. The transaction is marked too.
    fn mark(&mut self, seats: &Seats, kinds: Kinds, t: Sitter)
        requires tied { IsTied self.old seats.now }
        requires sits { HasSeat seats.now t }
        ensures tied { IsTied self.new seats.now }
        ensures marked { (n : ℕ) → lists (marked_in seats.now self.new) n ≡ linked (ways_in kinds (dependencies_in self.old)) t.t.0 n }
        ensures dependencies { dependencies_in self.new ≡ dependencies_in self.old }
    {
        seats.laws();
        let search = Search {
            links: &self.links,
            side: Side::Row,
            kinds,
        };
        spread(&search, t.at, &mut self.marked);
    }

    /// Returns whether the transaction is marked.
    pub fn is_doomed(&self, seats: &Seats, u: Sitter) -> bool
        requires tied { IsTied self.now seats.now }
        requires sits { HasSeat seats.now u }
        ensures { result ≡ lists (marked_in seats.now self.now) u.t.0 }
    {
        seats.laws();
        self.marked.has(u.at)
    }

    /// Returns, if a class is marked, whether a member depends on a source outside it, by a commit or an abort dependency, as
    /// `has_outside_source` does. It searches for nobody, and looks only at the dependencies that lead to the marked.
    pub fn marked_have_outside_source(&self, seats: &Seats) -> bool
        requires { IsTied self.now seats.now }
        ensures { (t : ℕ) → ((n : ℕ) → lists (marked_in seats.now self.now) n ≡ class_in (dependencies_in self.now) t n) → result ≡ outside_source_in (dependencies_in self.now) t }
    {
        seats.laws();
        let back = Way {
            items: &self.links,
            side: Side::Column,
        };
        leads_outside(&back, &self.marked)
    }

    /// Returns the seat that is marked at the index, from 0. It returns `None` past the end.
    pub fn marked(&self, index: usize) -> Option<usize>
        ensures { result ≡ slice_get self.now.marked.nodes index }
    {
        if index < self.marked.len() {
            Some(self.marked.node(index))
        } else {
            None
        }
    }

    /// Returns how many transactions are marked.
    pub fn marked_count(&self) -> usize
        ensures { result ≡ length self.now.marked.nodes }
    {
        self.marked.len()
    }

    /// Returns the marked transaction at the index, from 0. It returns `None` past the end.
    pub fn marked_name(&self, seats: &Seats, index: usize) -> Option<Txn>
        requires { IsTied self.now seats.now }
        ensures { option_map (λ (t : Txn). t.0) result ≡ slice_get (marked_in seats.now self.now) index }
    {
        let seat = self.marked(index)?;
        seats.name_at(seat)
    }

    /// Returns the transaction that is marked last, with its seat, if one is marked, and takes its mark from it.
    pub fn next_marked_sitter(&mut self, seats: &Seats) -> Option<Sitter>
        requires tied { IsTied self.old seats.now }
        ensures tied { IsTied self.new seats.now }
        ensures sits { IfSome result (λ one. HasSeat seats.now one) }
        ensures last { IfSome result (λ one. (marked_in seats.now self.old ≡ marked_in seats.now self.new ++ one.t.0 ∷ []) × (lists (marked_in seats.now self.new) one.t.0 ≡ false)) }
        ensures none { IfNone result ((marked_in seats.now self.old ≡ []) × (self.new ≡ self.old)) }
        ensures dependencies { dependencies_in self.new ≡ dependencies_in self.old }
    {
        seats.laws();
        let at = self.next_marked()?;
        match seats.name_at(at) {
            Some(t) => Some(Sitter { t, at }),
            None => unreachable!(),
        }
    }

    /// Returns the seat that is marked last, if one is marked, and takes its mark from it.
    pub fn next_marked(&mut self) -> Option<usize>
        ensures last { IfSome result (λ c. (self.old.marked.nodes ≡ self.new.marked.nodes ++ c ∷ []) × (lists self.new.marked.nodes c ≡ false)) }
        ensures none { IfNone result ((self.old.marked.nodes ≡ []) × (self.new ≡ self.old)) }
        ensures tied { (seats : Seated) → IsTied self.old seats → IsTied self.new seats }
        ensures dependencies { dependencies_in self.new ≡ dependencies_in self.old }
    {
        self.marked.laws();
        self.marked.pop()
    }
}
