//! The search along permits, from givers to takers or the other way.

use crate::permit::Permit;
use asset_chains::{Crossed, Side};
use asset_marks::{Arrows, Marks, Pick, Way, expand_along};
use asset_names::{Ob, Op};

/// An object and an operation, which a permit covers or not.
#[derive(Clone, Copy, PartialEq, Eq)]
pub(crate) struct Covered {
    pub x: Ob,
    pub op: Op,
}

impl Pick<Permit> for Covered {
    ghost use Rattle.asset_permits.specs.Descriptors.{covers};

    ghost passes = { λ c d. covers c.x.0 c.op d };

    fn passes(&self, permit: &Permit) -> bool {
        permit.covers(self.x, self.op)
    }
}

/// The permits that cover an operation on an object, and the side along which a search goes. The nodes are the seats.
#[derive(Clone, Copy)]
pub(crate) struct Search<'a> {
    pub permits: &'a Crossed<Permit>,
    pub side: Side,
    pub covered: Covered,
}

impl<'a> Arrows for Search<'a> {
    ghost use Rattle.asset_chains.specs.Crossed.{lines, other_side};
    ghost use Rattle.asset_marks.specs.Searched.{arrows_along};
    ghost use Rattle.asset_permits.specs.Descriptors.{covers};

    ghost arrows = { λ s. arrows_along (covers s.covered.x.0 s.covered.op) s.permits.now.items (lines s.side s.permits.now) (lines (other_side s.side) s.permits.now) };

    fn expand(&self, node: usize, marks: &mut Marks) {
        let way = Way {
            items: self.permits,
            side: self.side,
        };
        expand_along(&way, &self.covered, node, marks);
    }
}
