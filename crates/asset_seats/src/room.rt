//! Room for keys, chains, rows and columns of known numbers, and for one more item.

ghost use Rattle.std.specs.Prelude.{◌≡◌, ℕ, ◌+◌, ◌<◌, ◌≤◌, max, length, true, IsOk, OnOk};
ghost use Rattle.asset_chains.specs.Chained.{chain_of, home_of};
ghost use Rattle.asset_chains.specs.Crossed.{lines, other_side, has_room, IsGrown};

use asset_chains::{Chains, Crossed, Side};
use asset_names::NoMemory;

/// Adds keys, in no chain, until the key is there, and no more. If memory or the numbers run out, some may have been
/// added.
pub fn add_keys(chains: &mut Chains, key: usize) -> Result<(), NoMemory>
    ensures there { OnOk result (key < length chains.new.homes) }
    ensures standing { key < length chains.old.homes → IsOk result }
    ensures more { length chains.old.homes ≤ length chains.new.homes }
    ensures no_more { length chains.new.homes ≤ max (length chains.old.homes) (key + 1) }
    ensures chains { chains.new.chains ≡ chains.old.chains }
    ensures homes { (k : ℕ) → home_of chains.new k ≡ home_of chains.old k }
{
    'keys: while chains.keys() <= key {
        match chains.add_key() {
            Ok(()) => {}
            Err(_) => return Err(NoMemory),
        }
    }
    Ok(())
}

/// Adds chains, without keys, until the chain is there, and no more. If memory or the numbers run out, some may have
/// been added.
pub fn add_chains(chains: &mut Chains, chain: usize) -> Result<(), NoMemory>
    ensures there { OnOk result (chain < length chains.new.chains) }
    ensures standing { chain < length chains.old.chains → IsOk result }
    ensures more { length chains.old.chains ≤ length chains.new.chains }
    ensures no_more { length chains.new.chains ≤ max (length chains.old.chains) (chain + 1) }
    ensures chains { (c : ℕ) → chain_of chains.new c ≡ chain_of chains.old c }
    ensures homes { chains.new.homes ≡ chains.old.homes }
{
    'chains: while chains.chains() <= chain {
        match chains.add_chain() {
            Ok(()) => {}
            Err(_) => return Err(NoMemory),
        }
    }
    Ok(())
}

/// Reserves the memory for one more item. If memory or the numbers run out, no item changes.
pub fn reserve_item<T>(items: &mut Crossed<T>) -> Result<(), NoMemory>
    ensures room { OnOk result (has_room items.new ≡ true) }
    ensures standing { has_room items.old ≡ true → IsOk result }
    ensures rows { items.new.rows ≡ items.old.rows }
    ensures columns { items.new.columns ≡ items.old.columns }
    ensures grown { IsGrown items.old items.new }
{
    match items.reserve() {
        Ok(()) => Ok(()),
        Err(_) => Err(NoMemory),
    }
}

/// Adds rows or columns, without items, until the one of this number is there, and no more. If memory or the numbers
/// run out, some may have been added.
pub fn add_lines<T>(items: &mut Crossed<T>, side: Side, line: usize) -> Result<(), NoMemory>
    ensures there { OnOk result (line < length (lines side items.new).chains) }
    ensures standing { line < length (lines side items.old).chains → IsOk result }
    ensures no_more { length (lines side items.new).chains ≤ max (length (lines side items.old).chains) (line + 1) }
    ensures others { lines (other_side side) items.new ≡ lines (other_side side) items.old }
    ensures items { items.new.items ≡ items.old.items }
    ensures grown { IsGrown items.old items.new }
{
    'lines: while items.count(side) <= line {
        match items.add(side) {
            Ok(()) => {}
            Err(_) => return Err(NoMemory),
        }
    }
    Ok(())
}
