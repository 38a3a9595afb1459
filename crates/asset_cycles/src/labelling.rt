//! The labels of nodes, found cycle by cycle.

ghost use Rattle.std.specs.Prelude.{◌≡◌, ℕ, ◌<◌, ◌&&◌, Option, Some, None, cond, length, replicate, slice_index_or, IfOk};
ghost use Rattle.asset_names.specs.Arrows.{lists};
ghost use Rattle.asset_cycles.specs.Cyclic.{AreBelow, on_one_cycle, cycle_labels};

use crate::graph::Graph;
use asset_marks::{Marks, spread};
use std::alloc::{AllocError, Global};

/// A graph, and the nodes that a search forward and one backward have met.
#[derive(Drop)]
struct Search {
    graph: Graph,
    ahead: Marks,
    behind: Marks,
    ghost ahead_size: { ahead.size ≡ length graph.forward.leaving },
    ghost behind_size: { behind.size ≡ length graph.forward.leaving },
}

/// Labels those nodes that are met ahead and behind, and leaves the labels of the others.
fn label_met(ahead: &Marks, behind: &Marks, label: usize, labels: &mut [Option<usize>])
    requires ahead { ahead.now.size ≡ length labels.old }
    requires behind { behind.now.size ≡ length labels.old }
    ensures { (n : ℕ) → n < length labels.old → slice_index_or labels.new n None
        ≡ cond (lists ahead.now.nodes n && lists behind.now.nodes n) (Some label) (slice_index_or labels.old n None) }
{
    'ahead: for k in 0..ahead.len() {
        let node = ahead.node(k);
        if behind.has(node) {
            labels[node] = Some(label);
        }
    }
}

impl Search {
    ghost use Rattle.std.specs.Prelude.{◌≡◌, ℕ, ◌<◌, Option, Some, None, cond, length, slice_index_or, IfOk};
    ghost use Rattle.asset_cycles.specs.Cyclic.{AreBelow, on_one_cycle};

    /// Returns a search along the arrows between the nodes below the count.
    fn of(alloc: Global, count: usize, arrows: Vec<(usize, usize)>) -> Result<Search, AllocError>
        requires { AreBelow arrows.items count }
        ensures arrows { IfOk result (λ search. search.graph.forward.arrows.items ≡ arrows.items) }
        ensures count { IfOk result (λ search. length search.graph.forward.leaving ≡ count) }
    {
        let graph = Graph::of(alloc, count, arrows)?;
        let ahead = graph.marks(alloc)?;
        let behind = graph.marks(alloc)?;
        Ok(Search {
            graph,
            ahead,
            behind,
        })
    }

    /// Labels the nodes that are on one cycle with this one, and leaves the labels of the others.
    fn label_cycle(&mut self, node: usize, labels: &mut [Option<usize>])
        requires node { node < length self.old.graph.forward.leaving }
        requires labels { length labels.old ≡ length self.old.graph.forward.leaving }
        ensures graph { self.new.graph ≡ self.old.graph }
        ensures labels { (n : ℕ) → n < length labels.old → slice_index_or labels.new n None
            ≡ cond (on_one_cycle self.old.graph.forward.arrows.items node n) (Some node) (slice_index_or labels.old n None) }
    {
        let graph = &self.graph;
        spread(&graph.backward, node, &mut self.behind);
        if graph.forward.leads_to_met(node, &self.behind) {
            spread(&graph.forward, node, &mut self.ahead);
            label_met(&self.ahead, &self.behind, node, labels);
        }
    }
}

/// Returns no label for each of `count` nodes.
fn no_labels(alloc: Global, count: usize) -> Result<Vec<Option<usize>>, AllocError>
    ensures { IfOk result (λ labels. labels.items ≡ replicate count None) }
{
    vec![in alloc; None; count]
}

/// Returns the label of each node below the count, or `AllocError` if memory runs out.
pub(crate) fn labels(
    alloc: Global,
    count: usize,
    arrows: Vec<(usize, usize)>,
) -> Result<Vec<Option<usize>>, AllocError>
    requires { AreBelow arrows.items count }
    ensures { IfOk result (λ labels. labels.items ≡ cycle_labels arrows.items count) }
{
    let mut search = Search::of(alloc, count, arrows)?;
    let mut labels = no_labels(alloc, count)?;
    'nodes: for node in 0..count {
        if labels[node].is_none() {
            search.label_cycle(node, &mut labels);
        }
    }
    Ok(labels)
}
