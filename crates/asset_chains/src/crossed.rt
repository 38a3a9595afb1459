//! Items that are each in a row and in a column.

use crate::heads::{Head, head_in};
use crate::side::Side;
use crate::slots::{Slot, link};
use crate::writes::decoded;
use slab::Slab;
use std::alloc::{AllocError, Global};
use std::marker::Model;

/// Items under keys that it picks, each in one row and in one column. Rows and columns are numbers from 0 on. Contracts
/// see the items by key, and the keys of each row and of each column in order.
///
/// An item takes 24 bytes beside its own, for its links, and a row or a column 12. Each call takes constant time unless
/// it says more; `add` and `reserve`, which alone take memory, take the time of a push to a vector.
pub struct Crossed<T> {
    pub(crate) slots: Slab<Slot<T>>,
    pub(crate) rows: Vec<Head>,
    pub(crate) columns: Vec<Head>,
}

impl<T: Drop> Drop for Crossed<T> {
    fn drop(self) {
        let Crossed {
            slots,
            rows,
            columns,
        } = self;
        drop(slots);
        drop(rows);
        drop(columns);
    }
}

impl<T> Model for Crossed<T> {
    ghost use Rattle.asset_chains.specs.Crossed.{Crossed as Items, crossed_code};

    ghost Value = { Items T };

    ghost coded = { crossed_code T.code };

    ghost use Rattle.asset_chains.specs.Slots.{crossed, AreCrossed};

    ghost view = { λ c. crossed c.slots c.rows.items c.columns.items };

    ghost invariant = { λ c. AreCrossed c.slots c.rows.items c.columns.items };
}

impl<T> Crossed<T> {
    ghost use Rattle.std.specs.Prelude.{◌≡◌, ℕ, ◌<◌, ◌≤◌, ◌^◌, [], length, None, Some, true, is_some, cond, ◌==◌, option_copied, IsOk, OnOk, OnErr};
    ghost use Rattle.slab.specs.Slab.{get, slab_len, Updates};
    ghost use Rattle.asset_chains.specs.Chained.{chain_of, home_of, first_of, last_of, behind, ahead, pushed, unlinked, one_chain_more};
    ghost use Rattle.asset_chains.specs.declared.side.Side.{Side as Side'};
    ghost use Rattle.asset_chains.specs.Linked.{head_of};
    ghost use Rattle.asset_chains.specs.Crossed.{lines, other_side, has_room, Joins, Leaves, IsCrossed};

    /// Returns no items, no rows and no columns. It does not allocate.
    pub fn new(alloc: Global) -> Crossed<T>
        ensures items { result.items.slots ≡ [] }
        ensures rows { result.rows.chains ≡ [] }
        ensures columns { result.columns.chains ≡ [] }
        ensures crossed { IsCrossed result }
    {
        Crossed {
            slots: Slab::new(alloc),
            rows: Vec::new(alloc),
            columns: Vec::new(alloc),
        }
    }

    /// Returns the item at the key, if there is one.
    pub fn get(&self, key: usize) -> Option<&T>
        ensures { option_copied result ≡ get self.now.items key }
    {
        match self.slots.get(key) {
            Some(slot) => Some(&slot.item),
            None => None,
        }
    }

    /// Returns how many items there are.
    pub fn items(&self) -> usize
        ensures { result ≡ slab_len self.now.items }
    {
        self.slots.len()
    }

    /// Returns how many rows or columns there are.
    pub fn count(&self, side: Side) -> usize
        ensures { result ≡ length (lines side self.now).chains }
    {
        match side {
            Side::Row => self.rows.len(),
            Side::Column => self.columns.len(),
        }
    }

    /// Returns the head of a row or a column: one without keys, past the last.
    fn head(&self, side: Side, line: usize) -> Head
        ensures { result ≡ head_of (chain_of (lines side self.now) line) }
    {
        match side {
            Side::Row => head_in(&self.rows, line),
            Side::Column => head_in(&self.columns, line),
        }
    }

    /// Returns the first key of the row or column, if there is one.
    pub fn first(&self, side: Side, line: usize) -> Option<usize>
        ensures { result ≡ first_of (chain_of (lines side self.now) line) }
    {
        decoded(self.head(side, line).first)
    }

    /// Returns the last key of the row or column, if there is one.
    pub fn last(&self, side: Side, line: usize) -> Option<usize>
        ensures { result ≡ last_of (chain_of (lines side self.now) line) }
    {
        decoded(self.head(side, line).last)
    }

    /// Returns how many keys the row or column has: 0 past the last.
    pub fn len(&self, side: Side, line: usize) -> usize
        ensures { result ≡ length (chain_of (lines side self.now) line) }
    {
        self.head(side, line).count as usize
    }

    /// Returns the row or the column of the key, if there is an item at it.
    pub fn home(&self, side: Side, key: usize) -> Option<usize>
        ensures { result ≡ home_of (lines side self.now) key }
    {
        decoded(link(&self.slots, side, key).home)
    }

    /// Returns the key after this one in its row or column. It is `None` for the last one, and if there is no item at the
    /// key.
    pub fn next(&self, side: Side, key: usize) -> Option<usize>
        ensures next { (c : ℕ) → home_of (lines side self.now) key ≡ Some c → result ≡ first_of (behind key (chain_of (lines side self.now) c)) }
        ensures none { home_of (lines side self.now) key ≡ None → result ≡ None }
    {
        decoded(link(&self.slots, side, key).after)
    }

    /// Returns the key before this one in its row or column. It is `None` for the first one, and if there is no item at
    /// the key.
    pub fn previous(&self, side: Side, key: usize) -> Option<usize>
        ensures previous { (c : ℕ) → home_of (lines side self.now) key ≡ Some c → result ≡ last_of (ahead key (chain_of (lines side self.now) c)) }
        ensures none { home_of (lines side self.now) key ≡ None → result ≡ None }
    {
        decoded(link(&self.slots, side, key).before)
    }

    /// Says what holds of all items, for proofs. It does nothing.
    pub fn laws(&self)
        ensures crossed { IsCrossed self.now }
        ensures few { (side : Side') → length (lines side self.now).chains < 2 ^ 32 }
        ensures short { (side : Side') (c : ℕ) → length (chain_of (lines side self.now) c) ≤ 2 ^ 32 }
    {
        let _ = &self.slots;
    }
}
