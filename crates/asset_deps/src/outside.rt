//! Sources outside of what a search has met, and outside of a class.

ghost use Rattle.std.specs.Prelude.{◌≡◌, ℕ, ◌<◌, ◌&&◌, not, true, false, []};
ghost use Rattle.asset_names.specs.Arrows.{lists, has_arrow};
ghost use Rattle.asset_chains.specs.Crossed.{lines, other_side};
ghost use Rattle.asset_marks.specs.Searched.{arrows_along, AreWithin};
ghost use Rattle.asset_deps.specs.declared.kinds.Kinds.TheVariants.{Order};
ghost use Rattle.asset_deps.specs.Reached.{of_kinds};

use crate::kinds::Kinds;
use crate::link::Link;
use crate::search::Search;
use crate::table::SeatedDeps;
use asset_chains::Side;
use asset_marks::{Marks, Way, expand_along, leads_out, spread};
use asset_seats::{Seats, Sitter};

/// Returns whether a commit or an abort dependency leads this way from a node that is met to one that is not.
pub(crate) fn leads_outside(way: &Way<Link>, marks: &Marks) -> bool
    requires { AreWithin (arrows_along (of_kinds Order) way.now.items.now.items (lines way.now.side way.now.items.now) (lines (other_side way.now.side) way.now.items.now)) marks.now.size }
    ensures leads { result ≡ true → (u t : ℕ) × (lists marks.now.nodes u ≡ true) × (has_arrow (arrows_along (of_kinds Order) way.now.items.now.items (lines way.now.side way.now.items.now) (lines (other_side way.now.side) way.now.items.now)) u t ≡ true) × (lists marks.now.nodes t ≡ false) }
    ensures met { result ≡ false → (u t : ℕ) → lists marks.now.nodes u ≡ true → has_arrow (arrows_along (of_kinds Order) way.now.items.now.items (lines way.now.side way.now.items.now) (lines (other_side way.now.side) way.now.items.now)) u t ≡ true → lists marks.now.nodes t ≡ true }
{
    let mut next = 0;
    'met: while next < marks.len() {
        if leads_out(way, &Kinds::Order, marks.node(next), marks) {
            return true;
        }
        next += 1;
    }
    false
}

/// Meets the nodes to which a commit or an abort dependency leads this way from one that is met in the class. None was met
/// before.
fn meet_ends(way: &Way<Link>, class: &Marks, found: &mut Marks)
    requires within { AreWithin (arrows_along (of_kinds Order) way.now.items.now.items (lines way.now.side way.now.items.now) (lines (other_side way.now.side) way.now.items.now)) found.old.size }
    requires none { found.old.nodes ≡ [] }
    ensures size { found.new.size ≡ found.old.size }
    ensures met { (t : ℕ) → lists found.new.nodes t ≡ true → (u : ℕ) × (lists class.now.nodes u ≡ true) × (has_arrow (arrows_along (of_kinds Order) way.now.items.now.items (lines way.now.side way.now.items.now) (lines (other_side way.now.side) way.now.items.now)) u t ≡ true) }
    ensures all { (u t : ℕ) → lists class.now.nodes u ≡ true → has_arrow (arrows_along (of_kinds Order) way.now.items.now.items (lines way.now.side way.now.items.now) (lines (other_side way.now.side) way.now.items.now)) u t ≡ true → lists found.new.nodes t ≡ true }
{
    let mut next = 0;
    'members: while next < class.len() {
        expand_along(way, &Kinds::Order, class.node(next), found);
        next += 1;
    }
}

/// Forgets the nodes that are met in the class.
fn forget_members(class: &Marks, found: &mut Marks)
    requires { (n : ℕ) → lists class.now.nodes n ≡ true → n < found.old.size }
    ensures size { found.new.size ≡ found.old.size }
    ensures left { (n : ℕ) → lists found.new.nodes n ≡ (lists found.old.nodes n && not (lists class.now.nodes n)) }
{
    let mut next = 0;
    'members: while next < class.len() {
        found.forget(class.node(next));
        next += 1;
    }
}

/// Meets exactly the nodes outside the class to which a commit or an abort dependency leads this way from one that is met
/// in it.
pub(crate) fn meet_outside(way: &Way<Link>, class: &Marks, found: &mut Marks)
    requires within { AreWithin (arrows_along (of_kinds Order) way.now.items.now.items (lines way.now.side way.now.items.now) (lines (other_side way.now.side) way.now.items.now)) found.old.size }
    requires members { (n : ℕ) → lists class.now.nodes n ≡ true → n < found.old.size }
    ensures size { found.new.size ≡ found.old.size }
    ensures met { (t : ℕ) → lists found.new.nodes t ≡ true → (u : ℕ) × (lists class.now.nodes u ≡ true) × (has_arrow (arrows_along (of_kinds Order) way.now.items.now.items (lines way.now.side way.now.items.now) (lines (other_side way.now.side) way.now.items.now)) u t ≡ true) × (lists class.now.nodes t ≡ false) }
    ensures all { (u t : ℕ) → lists class.now.nodes u ≡ true → has_arrow (arrows_along (of_kinds Order) way.now.items.now.items (lines way.now.side way.now.items.now) (lines (other_side way.now.side) way.now.items.now)) u t ≡ true → lists class.now.nodes t ≡ false → lists found.new.nodes t ≡ true }
{
    found.clear();
    meet_ends(way, class, found);
    forget_members(class, found);
}

impl SeatedDeps {
    ghost use Rattle.std.specs.Prelude.{◌≡◌, ℕ};
    ghost use Rattle.asset_names.specs.Arrows.{lists};
    ghost use Rattle.asset_seats.specs.Seated.{HasSeat};
    ghost use Rattle.asset_deps.specs.Dependencies.{is_outside_source_in};
    ghost use Rattle.asset_deps.specs.Valid.{dependencies_in, marked_in, IsTied};

    /// Marks the sources outside the transaction's class on which a member depends by a commit or an abort dependency, and
    /// nobody else. It looks only at the dependencies of the class.
    pub fn mark_outside_sources(&mut self, seats: &Seats, t: Sitter)
        requires tied { IsTied self.old seats.now }
        requires sits { HasSeat seats.now t }
        ensures tied { IsTied self.new seats.now }
        ensures marked { (n : ℕ) → lists (marked_in seats.now self.new) n ≡ is_outside_source_in (dependencies_in self.old) t.t.0 n }
        ensures dependencies { dependencies_in self.new ≡ dependencies_in self.old }
    {
        seats.laws();
        let class = Search {
            links: &self.links,
            side: Side::Row,
            kinds: Kinds::Class,
        };
        spread(&class, t.at, &mut self.marks);
        let back = Way {
            items: &self.links,
            side: Side::Column,
        };
        meet_outside(&back, &self.marks, &mut self.marked);
    }
}
