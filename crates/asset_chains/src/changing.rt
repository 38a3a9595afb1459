//! What changes the items of a `Crossed`.

ghost use Rattle.std.specs.Prelude.{◌≡◌, ◌++◌, ◌∷◌, [], ◌<◌, ◌^◌, length, OnOk, OnErr};
ghost use Rattle.asset_chains.specs.Linked.{no_head};

use crate::crossed::Crossed;
use crate::heads::Head;
use crate::lines::{join, leave, shift};
use crate::links::Link;
use crate::side::Side;
use crate::slots::{Slot, replace_item};
use std::alloc::AllocError;

/// Adds the head of a chain without keys. If memory runs out, or there are 2^32 - 1, nothing changes.
fn add_head(heads: &mut Vec<Head>) -> Result<(), AllocError>
    ensures added { OnOk result (heads.new.items ≡ heads.old.items ++ no_head ∷ []) }
    ensures few { OnOk result (length heads.new.items < 2 ^ 32) }
    ensures unchanged { OnErr result (heads.new.items ≡ heads.old.items) }
{
    if heads.len() >= u32::MAX as usize || heads.push(Head::NONE).is_err() {
        return Err(AllocError);
    }
    Ok(())
}

impl<T> Crossed<T> {
    ghost use Rattle.std.specs.Prelude.{◌≡◌, ℕ, ◌+◌, ◌<◌, length, None, Some, true, is_some, IsOk, OnOk, OnErr};
    ghost use Rattle.slab.specs.Slab.{get, slab_len, with_value, Updates};
    ghost use Rattle.asset_chains.specs.Chained.{pushed, unlinked, one_chain_more};
    ghost use Rattle.asset_chains.specs.declared.side.Side.{Side as Side'};
    ghost use Rattle.asset_chains.specs.Crossed.{lines, other_side, has_room, Joins, Leaves};

    /// Adds a row or a column without items. Its number is how many there were.
    ///
    /// If memory runs out, or the number is above 2^32 - 2, nothing changes. The cost is that of a push to a vector.
    pub fn add(&mut self, side: Side) -> Result<(), AllocError>
        ensures added { OnOk result (lines side self.new ≡ one_chain_more (lines side self.old)) }
        ensures others { lines (other_side side) self.new ≡ lines (other_side side) self.old }
        ensures items { self.new.items ≡ self.old.items }
        ensures unchanged { OnErr result (self.new ≡ self.old) }
    {
        match side {
            Side::Row => add_head(&mut self.rows),
            Side::Column => add_head(&mut self.columns),
        }
    }

    /// Reserves the memory for one more item. If memory runs out, or there are 2^32 - 1 items, no item changes.
    pub fn reserve(&mut self) -> Result<(), AllocError>
        ensures room { OnOk result (has_room self.new ≡ true) }
        ensures standing { has_room self.old ≡ true → IsOk result }
        ensures slots { self.new.items.slots ≡ self.old.items.slots }
        ensures rows { self.new.rows ≡ self.old.rows }
        ensures columns { self.new.columns ≡ self.old.columns }
    {
        self.slots.reserve(1)?;
        if self.slots.vacant_key() >= u32::MAX as usize {
            return Err(AllocError);
        }
        Ok(())
    }

    /// Adds an item at the ends of the row and of the column, and returns its key. It uses the memory that `reserve`
    /// reserved.
    pub fn insert(&mut self, row: usize, column: usize, item: T) -> usize
        requires room { has_room self.old ≡ true }
        requires row { row < length self.old.rows.chains }
        requires column { column < length self.old.columns.chains }
        ensures vacant { get self.old.items result ≡ None }
        ensures items { Updates self.old.items self.new.items result (Some item) }
        ensures rows { Joins row result self.old.rows self.new.rows }
        ensures columns { Joins column result self.old.columns self.new.columns }
        ensures len { slab_len self.new.items ≡ slab_len self.old.items + 1 }
    {
        let key = self.slots.insert_reserved(Slot {
            item,
            row: Link::NONE,
            column: Link::NONE,
        });
        join(&mut self.slots, &mut self.rows, Side::Row, row, key);
        join(
            &mut self.slots,
            &mut self.columns,
            Side::Column,
            column,
            key,
        );
        key
    }

    /// Takes the item at the key out, and returns it. There is room for one more item afterwards.
    pub fn remove(&mut self, key: usize) -> T
        requires { is_some (get self.old.items key) ≡ true }
        ensures value { get self.old.items key ≡ Some result }
        ensures items { Updates self.old.items self.new.items key None }
        ensures lines { (side : Side') → Leaves key (lines side self.old) (lines side self.new) }
        ensures len { slab_len self.new.items + 1 ≡ slab_len self.old.items }
        ensures room { has_room self.new ≡ true }
    {
        leave(&mut self.slots, &mut self.rows, Side::Row, key);
        leave(&mut self.slots, &mut self.columns, Side::Column, key);
        match self.slots.try_remove(key) {
            Some(slot) => slot.item,
            None => unreachable!(),
        }
    }

    /// Moves the item at the key to the end of another row or column, which may be its own. Its column or row stays.
    pub fn move_to(&mut self, side: Side, key: usize, line: usize)
        requires there { is_some (get self.old.items key) ≡ true }
        requires line { line < length (lines side self.old).chains }
        ensures moved { lines side self.new ≡ pushed line key (unlinked key (lines side self.old)) }
        ensures others { lines (other_side side) self.new ≡ lines (other_side side) self.old }
        ensures items { self.new.items ≡ self.old.items }
    {
        match side {
            Side::Row => shift(&mut self.slots, &mut self.rows, Side::Row, key, line),
            Side::Column => shift(&mut self.slots, &mut self.columns, Side::Column, key, line),
        }
    }

    /// Puts another item in the place of the one at the key, which it returns.
    pub fn replace(&mut self, key: usize, item: T) -> T
        requires { is_some (get self.old.items key) ≡ true }
        ensures value { get self.old.items key ≡ Some result }
        ensures items { self.new.items ≡ with_value self.old.items key item }
        ensures rows { self.new.rows ≡ self.old.rows }
        ensures columns { self.new.columns ≡ self.old.columns }
    {
        replace_item(&mut self.slots, key, item)
    }
}

impl<T: Drop> Crossed<T> {
    ghost use Rattle.asset_chains.specs.Chained.{chain_of};
    ghost use Rattle.asset_chains.specs.Crossed.{lines, Loses};

    /// Takes all items out of the row or the column. The cost is that of those items.
    pub fn clear(&mut self, side: Side, line: usize)
        ensures { Loses (chain_of (lines side self.old) line) self.old self.new }
    {
        self.laws();
        'first: while let Some(key) = self.first(side, line) {
            self.remove(key);
            self.laws();
        }
    }
}
