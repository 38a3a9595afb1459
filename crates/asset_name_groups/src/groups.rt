//! The groups and their calls.

use crate::index::{add_name, find_name};
use crate::links::Link;
use crate::trees::{add_node, flag_root, join_roots, tree_of};
use std::alloc::{AllocError, Global};
use std::marker::Model;

/// The most names that there can be room for: a node and 1 take 32 bits.
pub const MOST_NAMES: usize = 0xFFFF_FFFE;

/// How many names there are for each bucket, if all names that there is room for are there.
const NAMES_A_BUCKET: usize = 4;

/// Names in groups. The node of a name is its index in the order in which names came. Contracts see the names, the label of each
/// node, which is the first node of its group, whether its group is flagged, and how many names there is room for.
///
/// A call looks at the names of one bucket, and walks to a root in at most log2 of the group's nodes steps. No contract says so.
pub struct NameGroups {
    names: Vec<u64>,
    /// For each node 1 and the one before it in its bucket, or 0 if there is none.
    before: Vec<u32>,
    /// For each bucket 1 and its last node, or 0 if it is empty.
    last: Vec<u32>,
    links: Vec<Link>,
    room: usize,
}

impl Drop for NameGroups {
    fn drop(self) {
        let NameGroups {
            names,
            before,
            last,
            links,
            room: _,
        } = self;
        drop(names);
        drop(before);
        drop(last);
        drop(links);
    }
}

impl Model for NameGroups {
    ghost use Rattle.std.specs.Prelude.{vec_capacity};
    ghost use Rattle.asset_name_groups.specs.NamesInGroups.{NamesInGroups};
    ghost use Rattle.asset_name_groups.specs.Trees.{labels_in, flags_in};
    ghost use Rattle.asset_name_groups.specs.Valid.{IsValid};

    ghost Value = { NamesInGroups };

    ghost view = { λ groups. record { names = groups.names.items; labels = labels_in groups.links.items; flags = flags_in groups.links.items; room = groups.room } };

    ghost invariant = { λ groups. IsValid groups.names.items groups.before.items groups.last.items groups.links.items groups.room (vec_capacity groups.names) (vec_capacity groups.before) (vec_capacity groups.links) };
}

impl NameGroups {
    ghost use Rattle.std.specs.Prelude.{◌≡◌, ◌+◌, ◌<◌, ◌≤◌, ◌^◌, false, length, slice_index, IfOk, IfSome, IfNone};
    ghost use Rattle.asset_name_groups.specs.NamesInGroups.{flag_at, has_name, none_named, one_more, with_flag, with_join, with_node, IsConsistent};

    /// Returns groups of no names, with room for `room` names. It takes 21 bytes for each name and 4 more, and fails if memory runs
    /// out or `room` is above `MOST_NAMES`.
    pub fn with_room(alloc: Global, room: usize) -> Result<NameGroups, AllocError>
        ensures { IfOk result (λ groups. groups ≡ none_named room) }
    {
        if room > MOST_NAMES {
            return Err(AllocError);
        }
        NameGroups::reserved(alloc, room)
    }

    /// Does what `with_room` does, for at most `MOST_NAMES` names.
    fn reserved(alloc: Global, room: usize) -> Result<NameGroups, AllocError>
        requires { room + 1 < 2 ^ 32 }
        ensures { IfOk result (λ groups. groups ≡ none_named room) }
    {
        Ok(NameGroups {
            names: Vec::with_capacity(alloc, room)?,
            before: Vec::with_capacity(alloc, room)?,
            last: vec![in alloc; 0; room / NAMES_A_BUCKET + 1]?,
            links: Vec::with_capacity(alloc, room)?,
            room,
        })
    }

    /// Returns how many names there are.
    pub fn len(&self) -> usize
        ensures { result ≡ length self.now.names }
    {
        self.names.len()
    }

    /// Returns how many names there is room for in all.
    pub fn room(&self) -> usize
        ensures { result ≡ self.now.room }
    {
        self.room
    }

    /// Returns the node of a name, if the name is there.
    pub fn find(&self, t: u64) -> Option<usize>
        ensures found { IfSome result (λ k. (k < length self.now.names) × (slice_index self.now.names k ≡ t)) }
        ensures absent { IfNone result (has_name self.now.names t ≡ false) }
    {
        find_name(&self.names, &self.before, &self.last, t)
    }

    /// Returns the name of a node.
    pub fn name(&self, node: usize) -> u64
        requires { node < length self.now.names }
        ensures { result ≡ slice_index self.now.names node }
    {
        self.names[node]
    }

    /// Returns the node of a name, which is added if it is new, as a group by itself without a flag. It does not allocate.
    #[inline(always)]
    pub fn node_of(&mut self, t: u64) -> usize
        requires { has_name self.old.names t ≡ false → length self.old.names < self.old.room }
        ensures named { self.new ≡ with_node self.old t }
        ensures node { (result < length self.new.names) × (slice_index self.new.names result ≡ t) }
    {
        match self.find(t) {
            Some(node) => node,
            None => self.add_new(t),
        }
    }

    /// Adds a name that is not there, and returns its node.
    fn add_new(&mut self, t: u64) -> usize
        requires new { has_name self.old.names t ≡ false }
        requires room { length self.old.names < self.old.room }
        ensures added { self.new ≡ one_more self.old t }
        ensures node { result ≡ length self.old.names }
    {
        let node = self.names.len();
        add_name(&mut self.names, &mut self.before, &mut self.last, t);
        add_node(&mut self.links);
        node
    }

    /// Returns the label of a node: the first node of its group.
    pub fn label(&self, node: usize) -> usize
        requires { node < length self.now.names }
        ensures label { result ≡ slice_index self.now.labels node }
        ensures least { result ≤ node }
    {
        tree_of(&self.links, node).label as usize
    }

    /// Returns whether the node's group is flagged.
    pub fn is_flagged(&self, node: usize) -> bool
        requires { node < length self.now.names }
        ensures { result ≡ flag_at self.now.flags node }
    {
        tree_of(&self.links, node).is_flagged
    }

    /// Makes one group of those of two nodes. It has the lesser label, and is flagged if one of them was. If they are one group
    /// already, nothing changes.
    pub fn join(&mut self, i: usize, j: usize)
        requires first { i < length self.old.names }
        requires second { j < length self.old.names }
        ensures { self.new ≡ with_join self.old i j }
    {
        let a = tree_of(&self.links, i);
        let b = tree_of(&self.links, j);
        if a.root != b.root {
            join_roots(&mut self.links, a, b);
        }
    }

    /// Flags the group of a node.
    pub fn flag(&mut self, node: usize)
        requires { node < length self.old.names }
        ensures { self.new ≡ with_flag self.old node }
    {
        let tree = tree_of(&self.links, node);
        flag_root(&mut self.links, tree);
    }

    /// Says what holds of all groups, for proofs. It does nothing.
    pub fn laws(&self)
        ensures { IsConsistent self.now }
    {
        let _ = &self.names;
    }
}
