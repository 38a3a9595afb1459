//! Nodes that are on no cycle are taken away first, so that no search visits them.

ghost use Rattle.std.specs.Prelude.{◌≡◌, ◌<◌, ◌&&◌, length, not, IfOk};
ghost use Rattle.asset_names.specs.Arrows.{lists, among};
ghost use Rattle.asset_cycles.specs.Cyclic.{AreBelow, cycle_labels};
ghost use Rattle.asset_cycles.specs.Trimmed.{IsTrimmed, ArePassed};

use crate::graph::{Graph, turned};
use asset_marks::Marks;
use std::alloc::{AllocError, Global};

/// A graph, and the nodes that are taken away so far. When a node is taken away, all arrows from it lead to nodes that
/// were taken away before it.
///
/// `passed` says for each node how many of its arrows are known to lead to nodes that are taken away.
#[derive(Drop)]
struct Trim {
    graph: Graph,
    taken: Marks,
    passed: Vec<usize>,
    ghost taken_size: { taken.size ≡ length graph.forward.leaving },
    ghost passed_size: { length passed.items ≡ length graph.forward.leaving },
    ghost trimmed: { IsTrimmed graph.forward.arrows.items taken.nodes },
    ghost passed_taken: { ArePassed graph.forward.arrows.items graph.forward.leaving taken.nodes passed.items },
}

/// Returns whether neither end of the arrow is taken away.
fn is_left(taken: &Marks, arrow: (usize, usize)) -> bool
    requires start { arrow.0 < taken.now.size }
    requires end { arrow.1 < taken.now.size }
    ensures { result ≡ (not (lists taken.now.nodes arrow.0) && not (lists taken.now.nodes arrow.1)) }
{
    !taken.has(arrow.0) && !taken.has(arrow.1)
}

/// Returns those of the arrows of which neither end is taken away.
fn left(
    alloc: Global,
    arrows: &[(usize, usize)],
    taken: &Marks,
) -> Result<Vec<(usize, usize)>, AllocError>
    requires { AreBelow arrows.now taken.now.size }
    ensures { IfOk result (λ left. left.items ≡ among (λ n. not (lists taken.now.nodes n)) arrows.now) }
{
    let mut left = Vec::new(alloc);
    'arrows: for arrow in arrows {
        if is_left(taken, *arrow) {
            left.push(*arrow)?;
        }
    }
    Ok(left)
}

impl Trim {
    ghost use Rattle.std.specs.Prelude.{◌≡◌, ℕ, ◌<◌, length, IfOk};
    ghost use Rattle.asset_cycles.specs.Cyclic.{AreBelow};

    /// Returns the graph of the arrows between the nodes below the count, of which none is taken away.
    fn of(alloc: Global, count: usize, arrows: Vec<(usize, usize)>) -> Result<Trim, AllocError>
        requires { AreBelow arrows.items count }
        ensures arrows { IfOk result (λ trim. trim.graph.forward.arrows.items ≡ arrows.items) }
        ensures count { IfOk result (λ trim. length trim.graph.forward.leaving ≡ count) }
    {
        let graph = Graph::of(alloc, count, arrows)?;
        let taken = graph.marks(alloc)?;
        let passed = vec![in alloc; 0usize; count]?;
        Ok(Trim {
            graph,
            taken,
            passed,
        })
    }

    /// Takes the node away if all arrows from it lead to nodes that are taken away.
    fn take(&mut self, node: usize)
        requires { node < length self.old.graph.forward.leaving }
        ensures { self.new.graph ≡ self.old.graph }
    {
        let graph = &self.graph;
        let from = self.passed[node];
        let passed = graph.forward.first_unmet(node, from, &self.taken);
        self.passed[node] = passed;
        if passed == graph.forward.degree(node) {
            self.taken.meet(node);
        }
    }

    /// Looks at each node from which an arrow leads to this one, and takes it away if all its arrows lead to nodes that are
    /// taken away.
    fn take_before(&mut self, node: usize)
        requires { node < length self.old.graph.forward.leaving }
        ensures { self.new.graph ≡ self.old.graph }
    {
        'arrows: for index in 0..self.graph.backward.degree(node) {
            let before = self.graph.backward.end(node, index);
            self.take(before);
        }
    }
}

/// Returns those of the arrows that are left once nodes are taken away, again and again, from which no arrow leads to a
/// node that is left. Nodes keep their labels.
fn trimmed(
    alloc: Global,
    count: usize,
    arrows: Vec<(usize, usize)>,
) -> Result<Vec<(usize, usize)>, AllocError>
    requires { AreBelow arrows.items count }
    ensures below { IfOk result (λ left. AreBelow left.items count) }
    ensures labels { IfOk result (λ left. cycle_labels left.items count ≡ cycle_labels arrows.items count) }
{
    let mut trim = Trim::of(alloc, count, arrows)?;
    'nodes: for node in 0..count {
        trim.take(node);
    }
    let mut next = 0;
    'taken: while next < trim.taken.len() {
        let node = trim.taken.node(next);
        trim.take_before(node);
        next += 1;
    }
    left(alloc, &trim.graph.forward.arrows, &trim.taken)
}

/// Returns those of the arrows that are left once nodes are taken away, again and again, from which no arrow leads to a
/// node that is left, and then those to which no arrow leads from a node that is left. Nodes keep their labels. The arrows
/// come turned round: each leads from its second node to its first.
pub(crate) fn trimmed_both_ways(
    alloc: Global,
    count: usize,
    arrows: &[(usize, usize)],
) -> Result<Vec<(usize, usize)>, AllocError>
    requires { AreBelow arrows.now count }
    ensures below { IfOk result (λ left. AreBelow left.items count) }
    ensures labels { IfOk result (λ left. cycle_labels left.items count ≡ cycle_labels arrows.now count) }
{
    let left = trimmed(alloc, count, Vec::from_slice(alloc, arrows)?)?;
    let back = turned(alloc, &left)?;
    trimmed(alloc, count, back)
}
