//! The nodes that a search has met.

use asset_names::NoMemory;
use std::alloc::Global;
use std::marker::Model;

/// Marks on the nodes below a number, for a search that does not allocate. They are cleared by setting one
/// counter to 0. Contracts see how many nodes there are, and those that are met, in order of meeting until one is forgotten.
///
/// `order` has each node once, those that are met first, and `position` says where each node stands in it.
pub struct Marks {
    order: Vec<usize>,
    position: Vec<usize>,
    met: usize,
}

impl Drop for Marks {
    fn drop(self) {
        let Marks {
            order,
            position,
            met: _,
        } = self;
        drop(order);
        drop(position);
    }
}

impl Model for Marks {
    ghost use Rattle.std.specs.Prelude.{length, take};
    ghost use Rattle.asset_marks.specs.Marked.{Met, IsValid};

    ghost Value = { Met };

    ghost view = { λ m. record { size = length m.order.items; nodes = take m.met m.order.items } };

    ghost invariant = { λ m. IsValid m.order.items m.position.items m.met };
}

impl Marks {
    ghost use Rattle.std.specs.Prelude.{◌≡◌, ℕ, ◌+◌, ◌<◌, ◌≤◌, ◌==◌, ◌&&◌, not, max, nat_eq, true, false, cond, [], ◌∷◌, ◌++◌, length, slice_index, IfSome, IfNone, IsOk, OnOk, OnErr};
    ghost use Rattle.std.specs.List.{IsDistinct};
    ghost use Rattle.asset_names.specs.Arrows.{lists};

    /// Returns marks without a node. It does not allocate.
    pub fn new(alloc: Global) -> Marks
        ensures size { result.size ≡ 0 }
        ensures nodes { result.nodes ≡ [] }
    {
        Marks {
            order: Vec::new(alloc),
            position: Vec::new(alloc),
            met: 0,
        }
    }

    /// Adds a node, which is not met. If memory runs out, nothing changes.
    fn grow(&mut self) -> Result<(), NoMemory>
        ensures size { OnOk result (self.new.size ≡ self.old.size + 1) }
        ensures nodes { self.new.nodes ≡ self.old.nodes }
        ensures unchanged { OnErr result (self.new ≡ self.old) }
    {
        if self.order.reserve(1).is_err() || self.position.reserve(1).is_err() {
            return Err(NoMemory);
        }
        let node = self.order.len();
        self.order.push_reserved(node);
        self.position.push_reserved(node);
        Ok(())
    }

    /// Adds nodes, which are not met, until the node is there, and no more. If memory runs out, some may have been added.
    pub fn add(&mut self, node: usize) -> Result<(), NoMemory>
        ensures there { OnOk result (node < self.new.size) }
        ensures standing { node < self.old.size → IsOk result }
        ensures more { self.old.size ≤ self.new.size }
        ensures no_more { self.new.size ≤ max self.old.size (node + 1) }
        ensures nodes { self.new.nodes ≡ self.old.nodes }
    {
        'nodes: while self.size() <= node {
            self.grow()?;
        }
        Ok(())
    }

    /// Returns how many nodes there are.
    pub(crate) fn size(&self) -> usize
        ensures { result ≡ self.now.size }
    {
        self.order.len()
    }

    /// Returns how many nodes are met.
    pub fn len(&self) -> usize
        ensures len { result ≡ length self.now.nodes }
        ensures within { length self.now.nodes ≤ self.now.size }
    {
        self.met
    }

    /// Returns the node at the index among those that are met, from 0.
    pub fn node(&self, index: usize) -> usize
        requires { index < length self.now.nodes }
        ensures node { result ≡ slice_index self.now.nodes index }
        ensures within { result < self.now.size }
    {
        self.order[index]
    }

    /// Forgets which nodes are met.
    pub fn clear(&mut self)
        ensures size { self.new.size ≡ self.old.size }
        ensures nodes { self.new.nodes ≡ [] }
    {
        self.met = 0;
    }

    /// Returns whether the node is met.
    pub fn has(&self, node: usize) -> bool
        requires { node < self.now.size }
        ensures { result ≡ lists self.now.nodes node }
    {
        self.position[node] < self.met
    }

    /// Meets the node. If it is met already, nothing changes.
    pub fn meet(&mut self, node: usize)
        requires { node < self.old.size }
        ensures size { self.new.size ≡ self.old.size }
        ensures nodes { self.new.nodes ≡ cond (lists self.old.nodes node) self.old.nodes (self.old.nodes ++ node ∷ []) }
    {
        let at = self.position[node];
        if at >= self.met {
            let other = self.order[self.met];
            self.order[at] = other;
            self.position[other] = at;
            self.order[self.met] = node;
            self.position[node] = self.met;
            self.met += 1;
        }
    }

    /// Forgets the node. If it is not met, nothing changes; the order of the others may change otherwise.
    pub fn forget(&mut self, node: usize)
        requires { node < self.old.size }
        ensures size { self.new.size ≡ self.old.size }
        ensures nodes { (n : ℕ) → lists self.new.nodes n ≡ (lists self.old.nodes n && not (n == node)) }
        ensures unchanged { lists self.old.nodes node ≡ false → self.new ≡ self.old }
    {
        let at = self.position[node];
        if at < self.met {
            let last = self.met - 1;
            let other = self.order[last];
            self.order[at] = other;
            self.position[other] = at;
            self.order[last] = node;
            self.position[node] = last;
            self.met = last;
        }
    }

    /// Forgets the node that was met last, and returns it, if one is met.
    pub fn pop(&mut self) -> Option<usize>
        ensures size { self.new.size ≡ self.old.size }
        ensures last { IfSome result (λ n. (n < self.old.size) × (self.old.nodes ≡ self.new.nodes ++ n ∷ []) × (lists self.new.nodes n ≡ false)) }
        ensures none { IfNone result ((self.old.nodes ≡ []) × (self.new ≡ self.old)) }
    {
        if self.met == 0 {
            return None;
        }
        self.met -= 1;
        Some(self.order[self.met])
    }

    /// Says what holds of all marks, for proofs. It does nothing.
    pub fn laws(&self)
        ensures within { (n : ℕ) → lists self.now.nodes n ≡ true → n < self.now.size }
        ensures once { IsDistinct nat_eq self.now.nodes }
    {
        let _ = &self.order;
    }
}
