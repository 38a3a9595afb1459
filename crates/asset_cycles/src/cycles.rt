//! The cycles and their calls.

ghost use Rattle.std.specs.Prelude.{◌≡◌, IfOk};
ghost use Rattle.asset_cycles.specs.Members.{own_labels, label_numbers};

use crate::labelling::labels;
use crate::trimming::trimmed_both_ways;
use asset_buckets::Buckets;
use std::alloc::{AllocError, Global};
use std::marker::Model;

/// The cycles of a graph, whose nodes are numbered from 0 on. Two nodes are on one cycle if arrows lead from each to
/// the other, that is, if they are in one strongly connected component. A node is on a cycle if arrows lead from it
/// back to it. The label of a node is the least node that is on one cycle with it. Contracts see the label of each
/// node, in order.
///
/// `own` has the labels once each, rising, and `members` has the nodes in buckets by their labels.
#[derive(Drop)]
pub struct Cycles {
    labels: Vec<Option<usize>>,
    own: Vec<usize>,
    members: Buckets,
}

impl Model for Cycles {
    ghost use Rattle.std.specs.Prelude.{List, ℕ, Option};
    ghost use Rattle.asset_cycles.specs.Members.{IsValid};

    ghost Value = { List (Option ℕ) };

    ghost view = { λ cycles. cycles.labels.items };

    ghost invariant = { λ cycles. IsValid cycles.labels.items cycles.own.items cycles.members };
}

impl Cycles {
    ghost use Rattle.std.specs.Prelude.{◌≡◌, ◌↔◌, None, length, slice_index_or, IsTrue, IfOk};
    ghost use Rattle.asset_cycles.specs.Cyclic.{AreBelow, cycle_labels};
    ghost use Rattle.asset_cycles.specs.Members.{members_of, own_labels};

    /// Finds the cycles of the nodes below the count. Each arrow leads from its first node to its second; an arrow that is
    /// listed twice counts once. `are_below` says whether all arrows are between nodes below the count.
    ///
    /// It answers `AllocError` if memory runs out. Nodes that lead to no cycle, and those to which no cycle leads, take
    /// time in proportion to their arrows. Each cycle, and each node between two cycles, takes a search among the arrows
    /// that are left.
    pub fn of(alloc: Global, count: usize, arrows: &[(usize, usize)]) -> Result<Cycles, AllocError>
        requires { AreBelow arrows.now count }
        ensures { IfOk result (λ cycles. cycles ≡ cycle_labels arrows.now count) }
    {
        let left = trimmed_both_ways(alloc, count, arrows)?;
        let labels = labels(alloc, count, left)?;
        let own = own_labels(alloc, &labels)?;
        let numbers = label_numbers(alloc, &labels)?;
        let members = Buckets::of(alloc, &numbers, labels.len())?;
        Ok(Cycles {
            labels,
            own,
            members,
        })
    }

    /// Returns whether both ends of each arrow are below the count.
    pub fn are_below(count: usize, arrows: &[(usize, usize)]) -> bool
        ensures { IsTrue result ↔ AreBelow arrows.now count }
    {
        'arrows: for arrow in arrows {
            if arrow.0 >= count || arrow.1 >= count {
                return false;
            }
        }
        true
    }

    /// Returns how many nodes there are.
    pub fn count(&self) -> usize
        ensures { result ≡ length self.now }
    {
        self.labels.len()
    }

    /// Returns the label of the node. `None` if the node is on no cycle, and past the last node.
    pub fn label(&self, node: usize) -> Option<usize>
        ensures { result ≡ slice_index_or self.now node None }
    {
        match self.labels.get(node) {
            Some(label) => *label,
            None => None,
        }
    }

    /// Returns the labels, each once, rising. They are the nodes that are their own labels.
    pub fn labels(&self) -> &[usize]
        ensures { result.now ≡ own_labels self.now }
    {
        &self.own
    }

    /// Returns the nodes with the label, rising. There are none if it is no label.
    pub fn members(&self, label: usize) -> &[usize]
        ensures { result.now ≡ members_of self.now label }
    {
        self.members.bucket(label)
    }
}

/// Returns the nodes that are their own labels, rising.
fn own_labels(alloc: Global, labels: &[Option<usize>]) -> Result<Vec<usize>, AllocError>
    ensures { IfOk result (λ own. own.items ≡ own_labels labels.now) }
{
    let mut own = Vec::new(alloc);
    'nodes: for node in 0..labels.len() {
        if labels[node] == Some(node) {
            own.push(node)?;
        }
    }
    Ok(own)
}

/// Returns a number for each node: its label, or how many nodes there are if it has none.
fn label_numbers(alloc: Global, labels: &[Option<usize>]) -> Result<Vec<usize>, AllocError>
    ensures { IfOk result (λ numbers. numbers.items ≡ label_numbers labels.now) }
{
    let mut numbers = Vec::new(alloc);
    'nodes: for label in labels {
        numbers.push(label.unwrap_or(labels.len()))?;
    }
    Ok(numbers)
}
