//! The groups of a history, and what they tell.

use asset_names::Txn;
use indexmap::IndexSet;
use std::marker::Model;

/// The transactions of a history in groups, and which groups are dead. Groups are numbered from 0 on, in order of their
/// first names.
#[derive(Drop)]
pub struct Groups {
    pub(crate) names: IndexSet<u64>,
    pub(crate) numbers: Vec<usize>,
    pub(crate) is_dead: Vec<bool>,
}

impl Model for Groups {
    ghost use Rattle.std.specs.Prelude.{◌≡◌, ℕ, ◌<◌, false, length, map, slice_index, slice_index_or};
    ghost use Rattle.asset_deletion.specs.Grouping.{Grouping};

    ghost Value = { Grouping };

    ghost view = { λ g. record {
      names = g.names.keys;
      numbers = g.numbers.items;
      count = length g.is_dead.items;
      dead = map (λ k. slice_index_or g.is_dead.items k false) g.numbers.items;
    } };

    ghost invariant = { λ g. (length g.numbers.items ≡ length g.names.keys)
        × ((k : ℕ) → k < length g.names.keys → slice_index g.numbers.items k < length g.is_dead.items) };
}

impl Groups {
    ghost use Rattle.std.specs.Prelude.{◌≡◌, ◌&&◌, List, slice_get, is_some};
    ghost use Rattle.std.specs.Option.{option_map};
    ghost use Rattle.asset_names.specs.Arrows.{lists};
    ghost use Rattle.asset_names.specs.Steps.{Entry};
    ghost use Rattle.asset_names.specs.Groups.{same_group, dead};
    ghost use Rattle.asset_history.specs.Named.{names_of};
    ghost use Rattle.asset_history.specs.Sharing.{named};
    ghost use Rattle.asset_deletion.specs.Grouping.{grouping_of, number_in, same_number, dead_in};

    /// Returns how many groups there are.
    pub fn count(&self) -> usize
        ensures { result ≡ self.now.count }
    {
        self.is_dead.len()
    }

    /// Returns the transaction at the index, in order of first use, and `None` past the end. Of a step on two, the first
    /// comes before the second.
    pub fn name(&self, index: usize) -> Option<Txn>
        ensures { result ≡ option_map named (slice_get self.now.names index) }
    {
        match self.names.get_index(index) {
            Some(name) => Some(Txn(*name)),
            None => None,
        }
    }

    /// Returns the number of each name's group, in the order of the names.
    pub fn numbers(&self) -> &[usize]
        ensures { result.now ≡ self.now.numbers }
    {
        self.numbers.as_slice()
    }

    /// Returns the number of the transaction's group, and `None` if no step acts on the transaction.
    pub fn of(&self, t: Txn) -> Option<usize>
        ensures number { result ≡ number_in self.now t.0 }
        ensures named { (entries : List Entry) → self.now ≡ grouping_of entries → is_some result ≡ lists (names_of entries) t.0 }
    {
        match self.names.get_index_of(&t.0) {
            Some(node) => Some(self.numbers[node]),
            None => None,
        }
    }

    /// Returns whether the two transactions are of one group. This is false if no step acts on one of them.
    pub fn same(&self, t: Txn, u: Txn) -> bool
        ensures same { result ≡ same_number (number_in self.now t.0) (number_in self.now u.0) }
        ensures group { (entries : List Entry) → self.now ≡ grouping_of entries →
            result ≡ ((lists (names_of entries) t.0 && lists (names_of entries) u.0) && same_group entries t.0 u.0) }
    {
        match self.of(t) {
            Some(first) => match self.of(u) {
                Some(second) => first == second,
                None => false,
            },
            None => false,
        }
    }

    /// Returns whether the transaction's group is dead: nobody in it has committed. This is false if no step acts on
    /// the transaction.
    pub fn is_dead(&self, t: Txn) -> bool
        ensures dead { result ≡ dead_in self.now t.0 }
        ensures group { (entries : List Entry) → self.now ≡ grouping_of entries → result ≡ (lists (names_of entries) t.0 && dead entries t.0) }
    {
        match self.names.get_index_of(&t.0) {
            Some(node) => self.is_dead[self.numbers[node]],
            None => false,
        }
    }
}
