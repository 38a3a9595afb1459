//! A graph along whose arrows a search can go both ways.

ghost use Rattle.std.specs.Prelude.{◌≡◌, length, IfOk};
ghost use Rattle.asset_cycles.specs.Cyclic.{turned};

use crate::adjacency::Adjacency;
use asset_marks::Marks;
use asset_names::NoMemory;
use std::alloc::{AllocError, Global};

/// The arrows of a graph, and the same arrows turned round.
#[derive(Drop)]
pub(crate) struct Graph {
    pub(crate) forward: Adjacency,
    pub(crate) backward: Adjacency,
    ghost turned_round: { backward.arrows.items ≡ turned forward.arrows.items },
    ghost same_count: { length backward.leaving ≡ length forward.leaving },
}

/// Returns the arrows, each turned round.
pub(crate) fn turned(
    alloc: Global,
    arrows: &[(usize, usize)],
) -> Result<Vec<(usize, usize)>, AllocError>
    ensures { IfOk result (λ back. back.items ≡ turned arrows.now) }
{
    let mut back = Vec::new(alloc);
    'arrows: for arrow in arrows {
        back.push((arrow.1, arrow.0))?;
    }
    Ok(back)
}

impl Graph {
    ghost use Rattle.std.specs.Prelude.{◌≡◌, [], length, IfOk};
    ghost use Rattle.asset_cycles.specs.Cyclic.{AreBelow};

    /// Returns the graph of the arrows between the nodes below the count.
    pub(crate) fn of(
        alloc: Global,
        count: usize,
        arrows: Vec<(usize, usize)>,
    ) -> Result<Graph, AllocError>
        requires { AreBelow arrows.items count }
        ensures arrows { IfOk result (λ graph. graph.forward.arrows.items ≡ arrows.items) }
        ensures count { IfOk result (λ graph. length graph.forward.leaving ≡ count) }
    {
        let back = turned(alloc, &arrows)?;
        let forward = Adjacency::of(alloc, count, arrows)?;
        let backward = Adjacency::of(alloc, count, back)?;
        Ok(Graph { forward, backward })
    }

    /// Returns marks on the nodes, none of which is met.
    pub(crate) fn marks(&self, alloc: Global) -> Result<Marks, AllocError>
        ensures size { IfOk result (λ marks. marks.size ≡ length self.now.forward.leaving) }
        ensures nodes { IfOk result (λ marks. marks.nodes ≡ []) }
    {
        let mut marks = Marks::new(alloc);
        let count = self.forward.leaving.count();
        if count > 0 {
            if let Err(NoMemory) = marks.add(count - 1) {
                return Err(AllocError);
            }
        }
        Ok(marks)
    }
}
