//! The search along dependencies, from sources to dependents or the other way.

use crate::kinds::Kinds;
use crate::link::Link;
use asset_chains::{Crossed, Side};
use asset_marks::{Arrows, Marks, Way, expand_along};

/// Dependencies of some kinds, along which a search goes from the one end to the other, and all group commits, along which it
/// goes back. The nodes are the seats.
#[derive(Clone, Copy)]
pub(crate) struct Search<'a> {
    pub links: &'a Crossed<Link>,
    pub side: Side,
    pub kinds: Kinds,
}

impl<'a> Arrows for Search<'a> {
    ghost use Rattle.asset_chains.specs.Crossed.{lines, other_side};
    ghost use Rattle.asset_deps.specs.Reached.{seat_ways};

    ghost arrows = { λ s. seat_ways s.kinds s.links.now.items (lines s.side s.links.now) (lines (other_side s.side) s.links.now) };

    fn expand(&self, node: usize, marks: &mut Marks) {
        let on = Way {
            items: self.links,
            side: self.side,
        };
        expand_along(&on, &self.kinds, node, marks);
        let back = Way {
            items: self.links,
            side: self.side.other(),
        };
        expand_along(&back, &Kinds::Class, node, marks);
    }
}
