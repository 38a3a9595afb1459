//! The arrows of a graph by the nodes from which they lead.

ghost use Rattle.std.specs.Prelude.{◌≡◌, List, ◌≤◌, length, map, IfOk};
ghost use Rattle.asset_names.specs.Arrows.{Arrow};
ghost use Rattle.asset_buckets.specs.Bucketed.{buckets_of};
ghost use Rattle.asset_cycles.specs.Cyclic.{AreBelow};

use asset_buckets::Buckets;
use asset_marks::{Arrows, Marks};
use std::alloc::{AllocError, Global};

/// The arrows of a graph, and for each node the indices of the arrows that lead from it.
#[derive(Drop)]
pub(crate) struct Adjacency {
    pub(crate) arrows: Vec<(usize, usize)>,
    pub(crate) leaving: Buckets,
    ghost by_start: { leaving ≡ buckets_of (map (λ (arrow : Arrow). arrow.0) arrows.items) (length leaving) },
    ghost below: { AreBelow arrows.items (length leaving) },
}

/// Returns the node from which each arrow leads.
fn starts(alloc: Global, arrows: &[(usize, usize)]) -> Result<Vec<usize>, AllocError>
    ensures { IfOk result (λ starts. starts.items ≡ map (λ (arrow : Arrow). arrow.0) arrows.now) }
{
    let mut starts = Vec::new(alloc);
    'arrows: for arrow in arrows {
        starts.push(arrow.0)?;
    }
    Ok(starts)
}

impl Adjacency {
    ghost use Rattle.std.specs.Prelude.{◌≡◌, ℕ, ◌<◌, ◌==◌, ◌&&◌, true, [], length, slice_index_or, IfOk};
    ghost use Rattle.std.specs.List.{list_any};
    ghost use Rattle.asset_names.specs.Arrows.{Arrow, lists, has_arrow};
    ghost use Rattle.asset_cycles.specs.Cyclic.{AreBelow};
    ghost use Rattle.asset_cycles.specs.Leaving.{end_at};

    /// Puts the arrows in order of the nodes from which they lead. The nodes are those below the count.
    pub(crate) fn of(
        alloc: Global,
        count: usize,
        arrows: Vec<(usize, usize)>,
    ) -> Result<Adjacency, AllocError>
        requires { AreBelow arrows.items count }
        ensures arrows { IfOk result (λ made. made.arrows.items ≡ arrows.items) }
        ensures count { IfOk result (λ made. length made.leaving ≡ count) }
    {
        let starts = starts(alloc, &arrows)?;
        let leaving = Buckets::of(alloc, &starts, count)?;
        Ok(Adjacency { arrows, leaving })
    }

    /// Returns how many arrows lead from the node.
    pub(crate) fn degree(&self, node: usize) -> usize
        ensures { result ≡ length (slice_index_or self.now.leaving node []) }
    {
        self.leaving.bucket(node).len()
    }

    /// Returns the node to which the arrow at the index leads, among the arrows from the node.
    pub(crate) fn end(&self, node: usize, index: usize) -> usize
        requires index { index < length (slice_index_or self.now.leaving node []) }
        ensures end { result ≡ end_at self.now.arrows.items self.now.leaving node index }
        ensures arrow { has_arrow self.now.arrows.items node result ≡ true }
        ensures below { result < length self.now.leaving }
    {
        self.arrows[self.leaving.bucket(node)[index]].1
    }

    /// Returns the index of the first arrow from the node that leads to a node that is not met, and how many arrows there
    /// are if all lead to nodes that are met. Those before `from` are known to do so.
    pub(crate) fn first_unmet(&self, node: usize, from: usize, marks: &Marks) -> usize
        requires size { marks.now.size ≡ length self.now.leaving }
        requires met { (i : ℕ) → i < from → lists marks.now.nodes (end_at self.now.arrows.items self.now.leaving node i) ≡ true }
        ensures { (i : ℕ) → i < result → lists marks.now.nodes (end_at self.now.arrows.items self.now.leaving node i) ≡ true }
    {
        let mut index = from;
        'arrows: while index < self.degree(node) && marks.has(self.end(node, index)) {
            index += 1;
        }
        index
    }

    /// Returns whether an arrow leads from the node to one that is met.
    pub(crate) fn leads_to_met(&self, node: usize, marks: &Marks) -> bool
        requires size { marks.now.size ≡ length self.now.leaving }
        ensures { result ≡ list_any (λ (arrow : Arrow). arrow.0 == node && lists marks.now.nodes arrow.1) self.now.arrows.items }
    {
        'arrows: for index in 0..self.degree(node) {
            if marks.has(self.end(node, index)) {
                return true;
            }
        }
        false
    }
}

impl Arrows for Adjacency {
    ghost arrows = { λ adjacency. adjacency.arrows.items };

    fn expand(&self, node: usize, marks: &mut Marks) {
        'arrows: for index in 0..self.degree(node) {
            marks.meet(self.end(node, index));
        }
    }
}
