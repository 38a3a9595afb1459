//! Arrows of items that are each in a row and in a column: each leads from the one to the other, or back.

ghost use Rattle.std.specs.Prelude.{◌≡◌, ℕ, ◌<◌, true, false, Some};
ghost use Rattle.slab.specs.Slab.{get};
ghost use Rattle.asset_names.specs.Arrows.{lists, has_arrow};
ghost use Rattle.asset_chains.specs.Chained.{home_of};
ghost use Rattle.asset_chains.specs.Crossed.{lines, other_side};
ghost use Rattle.asset_marks.specs.Searched.{arrows_along, leads_to, AreWithin, Expands};

use crate::marks::Marks;
use asset_chains::{Crossed, Side};

/// A test of items: along those that pass it a search goes.
pub trait Pick<T> {
    ghost use Rattle.std.specs.Prelude.{◌≡◌, Bool};

    ghost passes: { Self → T → Bool };

    /// Returns whether the item passes.
    fn passes(&self, item: &T) -> bool
        ensures { result ≡ passes self.now item.now };
}

/// Items, and the side along which a search goes.
#[derive(Clone, Copy)]
pub struct Way<'a, T> {
    /// The items.
    pub items: &'a Crossed<T>,
    /// The side along whose rows or columns the search goes. Items lead to the other side.
    pub side: Side,
}

/// Returns the node to which the item at the key leads, if it is there and passes.
fn across_from<T, P: Pick<T>>(way: &Way<T>, pick: &P, key: usize) -> Option<usize>
    ensures { result ≡ leads_to (P.passes pick.now) (get way.now.items.now.items key) (home_of (lines (other_side way.now.side) way.now.items.now) key) }
{
    match way.items.get(key) {
        Some(item) => {
            if pick.passes(item) {
                way.items.home(way.side.other(), key)
            } else {
                None
            }
        }
        None => None,
    }
}

/// Meets the nodes to which those items in the node's chain lead that pass the test.
pub fn expand_along<T, P: Pick<T>>(way: &Way<T>, pick: &P, node: usize, marks: &mut Marks)
    requires { AreWithin (arrows_along (P.passes pick.now) way.now.items.now.items (lines way.now.side way.now.items.now) (lines (other_side way.now.side) way.now.items.now)) marks.old.size }
    ensures size { marks.new.size ≡ marks.old.size }
    ensures expanded { Expands (arrows_along (P.passes pick.now) way.now.items.now.items (lines way.now.side way.now.items.now) (lines (other_side way.now.side) way.now.items.now)) node marks.old.nodes marks.new.nodes }
{
    way.items.laws();
    let mut next = way.items.first(way.side, node);
    'keys: while let Some(key) = next {
        if let Some(other) = across_from(way, pick, key) {
            marks.meet(other);
        }
        next = way.items.next(way.side, key);
    }
}

/// Returns whether some item in the node's chain passes the test and leads to a node that is not met.
pub fn leads_out<T, P: Pick<T>>(way: &Way<T>, pick: &P, node: usize, marks: &Marks) -> bool
    requires { AreWithin (arrows_along (P.passes pick.now) way.now.items.now.items (lines way.now.side way.now.items.now) (lines (other_side way.now.side) way.now.items.now)) marks.now.size }
    ensures leads { result ≡ true → (t : ℕ) × (has_arrow (arrows_along (P.passes pick.now) way.now.items.now.items (lines way.now.side way.now.items.now) (lines (other_side way.now.side) way.now.items.now)) node t ≡ true) × (lists marks.now.nodes t ≡ false) }
    ensures met { result ≡ false → (t : ℕ) → has_arrow (arrows_along (P.passes pick.now) way.now.items.now.items (lines way.now.side way.now.items.now) (lines (other_side way.now.side) way.now.items.now)) node t ≡ true → lists marks.now.nodes t ≡ true }
{
    way.items.laws();
    let mut next = way.items.first(way.side, node);
    'keys: while let Some(key) = next {
        if let Some(other) = across_from(way, pick, key) {
            if !marks.has(other) {
                return true;
            }
        }
        next = way.items.next(way.side, key);
    }
    false
}
