//! The search along arrows.

ghost use Rattle.std.specs.Prelude.{◌≡◌, ℕ, ◌<◌, ◌==◌, false, IfNone, IfSome};
ghost use Rattle.asset_names.specs.Arrows.{lists, linked};
ghost use Rattle.asset_marks.specs.Searched.{AreWithin};

use crate::marks::Marks;

/// Arrows between nodes, along which a search goes.
pub trait Arrows {
    ghost use Rattle.std.specs.Prelude.{◌≡◌, List};
    ghost use Rattle.asset_names.specs.Arrows.{Arrow};
    ghost use Rattle.asset_marks.specs.Searched.{AreWithin, Expands};

    ghost arrows: { Self → List Arrow };

    /// Meets the nodes to which an arrow leads from this one.
    fn expand(&self, node: usize, marks: &mut Marks)
        requires { AreWithin (arrows self.now) marks.old.size }
        ensures size { marks.new.size ≡ marks.old.size }
        ensures expanded { Expands (arrows self.now) node marks.old.nodes marks.new.nodes };
}

/// Returns whether the arrows lead from a node to another, if that is known once `most` nodes are expanded beside the first, and
/// `None` if it is not. All nodes are always enough.
fn is_linked_within<A: Arrows>(
    way: &A,
    from: usize,
    to: usize,
    most: usize,
    marks: &mut Marks,
) -> Option<bool>
    requires within { AreWithin (A.arrows way.now) marks.old.size }
    requires to { to < marks.old.size }
    requires another { (from == to) ≡ false }
    ensures size { marks.new.size ≡ marks.old.size }
    ensures is_linked { IfSome result (λ found. found ≡ linked (A.arrows way.now) from to) }
    ensures more { IfNone result (most < marks.old.size) }
{
    marks.clear();
    way.expand(from, marks);
    let mut next = 0;
    'met: while next < marks.len() {
        if marks.has(to) {
            return Some(true);
        }
        if next == most {
            return None;
        }
        let node = marks.node(next);
        way.expand(node, marks);
        next += 1;
    }
    Some(false)
}

/// Returns whether the arrows lead from a node to another. It expands only the first node and those that it meets, and
/// stops once it has met the second node. What was met before is forgotten; what is met afterwards means nothing.
pub fn is_linked<A: Arrows>(way: &A, from: usize, to: usize, marks: &mut Marks) -> bool
    requires within { AreWithin (A.arrows way.now) marks.old.size }
    requires to { to < marks.old.size }
    requires another { (from == to) ≡ false }
    ensures size { marks.new.size ≡ marks.old.size }
    ensures is_linked { result ≡ linked (A.arrows way.now) from to }
{
    let all = marks.size();
    let Some(found) = is_linked_within(way, from, to, all, marks) else {
        unreachable!();
    };
    found
}

/// Returns what `is_linked` does, by two searches in turn: one from the first node, and one from the second along
/// arrows that lead back. Both expand `first` nodes, and then twice as many each time, until one of the two knows. A
/// node is expanded anew each time, so `first` should be about as many as the busier of the two has arrows. What was
/// met before is forgotten; what is met afterwards means nothing.
pub fn is_linked_either_way<A: Arrows>(
    forth: &A,
    from: usize,
    back: &A,
    to: usize,
    first: usize,
    marks: &mut Marks,
) -> bool
    requires within { AreWithin (A.arrows forth.now) marks.old.size }
    requires back_within { AreWithin (A.arrows back.now) marks.old.size }
    requires from { from < marks.old.size }
    requires to { to < marks.old.size }
    requires another { (from == to) ≡ false }
    requires back { linked (A.arrows back.now) to from ≡ linked (A.arrows forth.now) from to }
    ensures size { marks.new.size ≡ marks.old.size }
    ensures is_linked { result ≡ linked (A.arrows forth.now) from to }
{
    let all = marks.size();
    let mut most = first.max(1);
    'rounds: while most < all {
        if let Some(found) = is_linked_within(forth, from, to, most, marks) {
            return found;
        }
        if let Some(found) = is_linked_within(back, to, from, most, marks) {
            return found;
        }
        most = most.saturating_mul(2);
    }
    is_linked(forth, from, to, marks)
}

/// Meets exactly the nodes to which the arrows lead from this one, itself among them. It expands only nodes that it meets.
pub fn spread<A: Arrows>(way: &A, from: usize, marks: &mut Marks)
    requires within { AreWithin (A.arrows way.now) marks.old.size }
    requires from { from < marks.old.size }
    ensures size { marks.new.size ≡ marks.old.size }
    ensures met { (n : ℕ) → lists marks.new.nodes n ≡ linked (A.arrows way.now) from n }
{
    marks.clear();
    marks.meet(from);
    let mut next = 0;
    'met: while next < marks.len() {
        let node = marks.node(next);
        way.expand(node, marks);
        next += 1;
    }
}
