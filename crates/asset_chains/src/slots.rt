//! What is stored of each item of a `Crossed`, and what changes in its links.

ghost use Rattle.std.specs.Prelude.{◌≡◌, ℕ, ◌-◌, ◌<◌, true, Some, is_some, slice_set};
ghost use Rattle.slab.specs.Slab.{get, with_value};
ghost use Rattle.asset_chains.specs.declared.side.Side.{Side as Side'};
ghost use Rattle.asset_chains.specs.Crossed.{other_side};
ghost use Rattle.asset_chains.specs.Linked.{link_at, with_after, with_before};
ghost use Rattle.asset_chains.specs.Slots.{links_of, values_of};

use crate::links::Link;
use crate::side::Side;
use slab::Slab;
use std::mem;

/// An item, and its links in its row and in its column.
#[derive(Drop)]
pub(crate) struct Slot<T> {
    pub item: T,
    pub row: Link,
    pub column: Link,
}

/// Returns the link of the key on the side: an empty one, if there is no item at the key.
#[inline(always)]
pub(crate) fn link<T>(slots: &Slab<Slot<T>>, side: Side, key: usize) -> Link
    ensures { result ≡ link_at (links_of side slots.now) key }
{
    match slots.get(key) {
        Some(slot) => match side {
            Side::Row => slot.row,
            Side::Column => slot.column,
        },
        None => Link::NONE,
    }
}

/// Changes the link of the item at the key on the side.
#[inline(always)]
pub(crate) fn set_link<T>(slots: &mut Slab<Slot<T>>, side: Side, key: usize, link: Link)
    requires { is_some (get slots.old key) ≡ true }
    ensures links { links_of side slots.new ≡ slice_set (links_of side slots.old) key link }
    ensures others { links_of (other_side side) slots.new ≡ links_of (other_side side) slots.old }
    ensures values { values_of slots.new ≡ values_of slots.old }
{
    if let Some(slot) = slots.get_mut(key) {
        match side {
            Side::Row => slot.row = link,
            Side::Column => slot.column = link,
        }
    }
}

/// Makes `after` what follows the key that is stored as `at`, if there is one.
#[inline(always)]
pub(crate) fn set_after<T>(slots: &mut Slab<Slot<T>>, side: Side, at: u32, after: u32)
    requires { 0 < at → is_some (get slots.old (at - 1)) ≡ true }
    ensures linked { (k : ℕ) → link_at (links_of side slots.new) k ≡ with_after at after (link_at (links_of side slots.old)) k }
    ensures others { links_of (other_side side) slots.new ≡ links_of (other_side side) slots.old }
    ensures values { values_of slots.new ≡ values_of slots.old }
{
    if at > 0 {
        let key = at as usize - 1;
        let was = link(slots, side, key);
        set_link(slots, side, key, Link { after, ..was });
    }
}

/// Makes `before` what precedes the key that is stored as `at`, if there is one.
#[inline(always)]
pub(crate) fn set_before<T>(slots: &mut Slab<Slot<T>>, side: Side, at: u32, before: u32)
    requires { 0 < at → is_some (get slots.old (at - 1)) ≡ true }
    ensures linked { (k : ℕ) → link_at (links_of side slots.new) k ≡ with_before at before (link_at (links_of side slots.old)) k }
    ensures others { links_of (other_side side) slots.new ≡ links_of (other_side side) slots.old }
    ensures values { values_of slots.new ≡ values_of slots.old }
{
    if at > 0 {
        let key = at as usize - 1;
        let was = link(slots, side, key);
        set_link(slots, side, key, Link { before, ..was });
    }
}

/// Puts another item in the place of the one at the key, which it returns.
pub(crate) fn replace_item<T>(slots: &mut Slab<Slot<T>>, key: usize, item: T) -> T
    requires { is_some (get slots.old key) ≡ true }
    ensures value { get (values_of slots.old) key ≡ Some result }
    ensures values { values_of slots.new ≡ with_value (values_of slots.old) key item }
    ensures links { (side : Side') → links_of side slots.new ≡ links_of side slots.old }
    ensures there { (k : ℕ) → is_some (get slots.new k) ≡ is_some (get slots.old k) }
{
    match slots.get_mut(key) {
        Some(slot) => mem::replace(&mut slot.item, item),
        None => unreachable!(),
    }
}
