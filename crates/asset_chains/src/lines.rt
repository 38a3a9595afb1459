//! A key joins a chain of slots on one side, or leaves it.

ghost use Rattle.std.specs.Prelude.{◌≡◌, ℕ, ◌+◌, ◌<◌, ◌^◌, true, None, length, is_some};
ghost use Rattle.slab.specs.Slab.{get};
ghost use Rattle.asset_chains.specs.Chained.{home_of, pushed, unlinked};
ghost use Rattle.asset_chains.specs.Crossed.{other_side};
ghost use Rattle.asset_chains.specs.Linked.{seen};
ghost use Rattle.asset_chains.specs.Slots.{links_of, values_of, IsLined};

use crate::heads::Head;
use crate::links::Link;
use crate::side::Side;
use crate::slots::{Slot, link, set_after, set_before, set_link};
use crate::writes::{with_last, without_key};
use slab::Slab;

/// Puts the key of an item that is in no chain of the side at the end of the chain.
#[inline(always)]
pub(crate) fn join<T>(
    slots: &mut Slab<Slot<T>>,
    heads: &mut Vec<Head>,
    side: Side,
    chain: usize,
    key: usize,
)
    requires lined { IsLined side slots.old heads.old.items }
    requires chain { chain < length heads.old.items }
    requires there { is_some (get slots.old key) ≡ true }
    requires few { (k : ℕ) → is_some (get slots.old k) ≡ true → k + 1 < 2 ^ 32 }
    requires free { home_of (seen (links_of side slots.old) heads.old.items) key ≡ None }
    ensures lined { IsLined side slots.new heads.new.items }
    ensures pushed { seen (links_of side slots.new) heads.new.items ≡ pushed chain key (seen (links_of side slots.old) heads.old.items) }
    ensures others { links_of (other_side side) slots.new ≡ links_of (other_side side) slots.old }
    ensures values { values_of slots.new ≡ values_of slots.old }
    ensures many { length heads.new.items ≡ length heads.old.items }
{
    let head = heads[chain];
    let stored = key as u32 + 1;
    set_after(slots, side, head.last, stored);
    let link = Link {
        home: chain as u32 + 1,
        before: head.last,
        after: 0,
    };
    set_link(slots, side, key, link);
    heads[chain] = with_last(head, stored);
}

/// Takes the key of an item out of its chain of the side.
#[inline(always)]
pub(crate) fn leave<T>(slots: &mut Slab<Slot<T>>, heads: &mut Vec<Head>, side: Side, key: usize)
    requires lined { IsLined side slots.old heads.old.items }
    requires there { is_some (home_of (seen (links_of side slots.old) heads.old.items) key) ≡ true }
    ensures lined { IsLined side slots.new heads.new.items }
    ensures unlinked { seen (links_of side slots.new) heads.new.items ≡ unlinked key (seen (links_of side slots.old) heads.old.items) }
    ensures others { links_of (other_side side) slots.new ≡ links_of (other_side side) slots.old }
    ensures values { values_of slots.new ≡ values_of slots.old }
    ensures many { length heads.new.items ≡ length heads.old.items }
{
    let was = link(slots, side, key);
    let chain = was.home as usize - 1;
    let head = heads[chain];
    set_after(slots, side, was.before, was.after);
    set_before(slots, side, was.after, was.before);
    set_link(slots, side, key, Link::NONE);
    heads[chain] = without_key(head, was);
}

/// Moves the key of an item from its chain of the side to the end of another, which may be its own.
pub(crate) fn shift<T>(
    slots: &mut Slab<Slot<T>>,
    heads: &mut Vec<Head>,
    side: Side,
    key: usize,
    chain: usize,
)
    requires lined { IsLined side slots.old heads.old.items }
    requires chain { chain < length heads.old.items }
    requires there { is_some (home_of (seen (links_of side slots.old) heads.old.items) key) ≡ true }
    requires few { (k : ℕ) → is_some (get slots.old k) ≡ true → k + 1 < 2 ^ 32 }
    ensures lined { IsLined side slots.new heads.new.items }
    ensures moved { seen (links_of side slots.new) heads.new.items ≡ pushed chain key (unlinked key (seen (links_of side slots.old) heads.old.items)) }
    ensures others { links_of (other_side side) slots.new ≡ links_of (other_side side) slots.old }
    ensures values { values_of slots.new ≡ values_of slots.old }
    ensures many { length heads.new.items ≡ length heads.old.items }
{
    leave(slots, heads, side, key);
    join(slots, heads, side, chain, key);
}
