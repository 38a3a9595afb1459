//! Chains on worked values, beside plain lists that do the same by scanning, and what is left if memory runs out.

use asset_chains::Chains;
use asset_test_tools::next;
use std::alloc::{AllocError, Global};
use std::test::Fail;

/// How many keys and chains there are at most beside plain lists, and how many calls are drawn.
const KEYS: usize = 16;

const CHAINS: usize = 4;

const CALLS: usize = 3_000;

/// How many keys a long chain has, and how many are left without each third.
const LONG: usize = 1_000;

const LEFT: usize = 666;

/// How many keys and chains are added if memory runs out once.
const GROWN: usize = 20;

/// Returns what the first chain shows, and how many chains and keys there are.
fn shown(table: &Chains) -> (usize, usize, usize, Option<usize>, Option<usize>) {
    (
        table.keys(),
        table.chains(),
        table.len(0),
        table.first(0),
        table.last(0),
    )
}

/// Adds a key. If memory runs out, nothing has changed, and the same call is made again.
fn add_key(table: &mut Chains) -> Result<(), AllocError> {
    let before = shown(table);
    match table.add_key() {
        Err(AllocError) if shown(table) == before => table.add_key(),
        added => added,
    }
}

/// Adds a chain as `add_key` adds a key.
fn add_chain(table: &mut Chains) -> Result<(), AllocError> {
    let before = shown(table);
    match table.add_chain() {
        Err(AllocError) if shown(table) == before => table.add_chain(),
        added => added,
    }
}

/// Adds this many chains and keys.
fn grow(table: &mut Chains, chains: usize, keys: usize) -> Result<(), AllocError> {
    for _ in 0..chains {
        add_chain(table)?;
    }
    for _ in 0..keys {
        add_key(table)?;
    }
    Ok(())
}

/// Adds this many chains and keys, and asks for each of them once.
fn grow_once(table: &mut Chains, chains: usize, keys: usize) -> Result<(), AllocError> {
    for _ in 0..chains {
        table.add_chain()?;
    }
    for _ in 0..keys {
        table.add_key()?;
    }
    Ok(())
}

/// Puts the key at the end of the chain if both are there and the key is in no chain, and returns whether it was.
fn push(table: &mut Chains, chain: usize, key: usize) -> bool {
    if chain < table.chains() && key < table.keys() && table.home(key) == None {
        table.push(chain, key);
        true
    } else {
        false
    }
}

/// Takes the key out of its chain if it is there, and returns whether it was.
fn unlink(table: &mut Chains, key: usize) -> bool {
    if key < table.keys() {
        table.unlink(key);
        true
    } else {
        false
    }
}

/// Returns whether the chain has the key, with this one before it.
fn follows(table: &Chains, chain: usize, before: Option<usize>, key: usize) -> bool {
    table.home(key) == Some(chain) && table.previous(key) == before
}

/// Returns whether the chain has these keys, by its ends, its count, and the neighbours of each key.
fn has_keys(table: &Chains, chain: usize, keys: &[usize]) -> bool {
    let mut at = table.first(chain);
    let mut before = None;
    for key in keys {
        if at != Some(*key) || !follows(table, chain, before, *key) {
            return false;
        }
        before = at;
        at = table.next(*key);
    }
    at == None && table.last(chain) == before && table.len(chain) == keys.len()
}

/// Returns whether the key is in no chain.
fn is_free(table: &Chains, key: usize) -> bool {
    table.home(key) == None && table.next(key) == None && table.previous(key) == None
}

/// Puts these keys at the ends of these chains. Returns the first that could not be put.
fn first_not_pushed(table: &mut Chains, pushes: &[(usize, usize)]) -> Option<usize> {
    for (chain, key) in pushes {
        if !push(table, *chain, *key) {
            return Some(*key);
        }
    }
    None
}

/// Returns whether two chains show what is pushed, and that nothing is past the last chain and the last key.
fn pushes_are_shown(table: &mut Chains) -> bool {
    let unpushed = first_not_pushed(table, &[(0, 2), (0, 0), (0, 3), (1, 1)]);
    for (chain, keys) in [(0, &[2, 0, 3][..]), (1, &[1]), (2, &[])] {
        if !has_keys(table, chain, keys) {
            return false;
        }
    }
    unpushed == None
        && (table.chains(), table.keys()) == (2, 5)
        && is_free(table, 4)
        && is_free(table, 5)
}

/// Returns the first row whose key is not unlinked, or whose chain does not have the row's keys then.
fn first_wrong_unlink(table: &mut Chains, rows: &[(usize, usize, &[usize])]) -> Option<usize> {
    for (row, (key, chain, left)) in rows.iter().enumerate() {
        if !(unlink(table, *key) && has_keys(table, *chain, left) && is_free(table, *key)) {
            return Some(row);
        }
    }
    None
}

/// Returns whether chains show what is left of them as their keys are unlinked: the middle, the same again, the first, the
/// only and the last one.
fn unlinks_are_shown(table: &mut Chains) -> bool {
    let first = [(0, 0, &[2, 3][..]), (0, 0, &[2, 3]), (2, 0, &[3])];
    let last = [(3, 0, &[][..]), (2, 1, &[1])];
    let begun = first_wrong_unlink(table, &first) == None;
    let moved = push(table, 1, 2) && has_keys(table, 1, &[1, 2]);
    begun && moved && first_wrong_unlink(table, &last) == None
}

#[test]
fn chains_show_their_keys(rt: HostRuntime) -> Result<(), Fail> {
    let mut table = Chains::new(rt.alloc());
    let grown = grow(&mut table, 2, 5);
    let shown = pushes_are_shown(&mut table) && unlinks_are_shown(&mut table);
    drop(table);
    assert_eq!(rt; grown, Ok(()));
    assert!(rt; shown);
    Ok(())
}

/// Puts `LONG` keys into the chain, and takes each third of them out again. Returns whether each was put and taken.
fn thin_out(table: &mut Chains, chain: usize) -> bool {
    let mut done = true;
    for key in 0..LONG {
        done = push(table, chain, key) && done;
    }
    for key in 0..LONG {
        if key % 3 == 0 {
            done = unlink(table, key) && done;
        }
    }
    done
}

/// Returns whether the other keys are left in order, in both directions.
fn others_are_left(table: &Chains, chain: usize) -> bool {
    let mut left = [0; LEFT];
    for (i, key) in left.iter_mut().enumerate() {
        *key = i / 2 * 3 + 1 + i % 2;
    }
    has_keys(table, chain, &left) && is_free(table, 0) && is_free(table, LONG - 1)
}

#[test]
fn long_chain_is_mended(rt: HostRuntime) {
    let mut table = Chains::new(rt.alloc());
    let grown = grow_once(&mut table, 300, LONG);
    let thinned = thin_out(&mut table, 1);
    let left = others_are_left(&table, 1) && has_keys(&table, 0, &[]) && has_keys(&table, 2, &[]);
    drop(table);
    assert_eq!(rt; grown, Ok(()));
    assert!(rt; thinned && left);
}

/// Returns whether the key is at home in the list that has it, or in none.
fn has_home(table: &Chains, lists: &[Vec<usize>], key: usize) -> bool {
    let home = lists.iter().position(|keys| keys.contains(&key));
    table.home(key) == home && (home.is_some() || is_free(table, key))
}

/// Returns whether the chains have the keys of the lists, and no others.
fn agrees(table: &Chains, lists: &[Vec<usize>], keys: usize) -> bool {
    for (chain, list) in lists.iter().enumerate() {
        if !has_keys(table, chain, list) {
            return false;
        }
    }
    for key in 0..keys {
        if !has_home(table, lists, key) {
            return false;
        }
    }
    (table.chains(), table.keys()) == (lists.len(), keys)
}

/// Adds a chain, and a list beside it.
fn add_both(table: &mut Chains, lists: &mut Vec<Vec<usize>>, alloc: Global) -> Result<(), Fail> {
    lists.push(Vec::new(alloc))?;
    add_chain(table)?;
    Ok(())
}

/// Puts the key into the chain and its list, if it is there and in no chain.
fn push_both(
    table: &mut Chains,
    lists: &mut Vec<Vec<usize>>,
    chain: usize,
    key: usize,
) -> Result<(), Fail> {
    if push(table, chain, key)
        && let Some(keys) = lists.get_mut(chain)
    {
        keys.push(key)?;
    }
    Ok(())
}

/// Takes the key out of its chain and its list.
fn unlink_both(table: &mut Chains, lists: &mut Vec<Vec<usize>>, key: usize) {
    if unlink(table, key) {
        for keys in lists.iter_mut() {
            keys.retain(|k| *k != key);
        }
    }
}

/// Makes the call that a number stands for, on chains and lists.
fn call(
    table: &mut Chains,
    lists: &mut Vec<Vec<usize>>,
    alloc: Global,
    number: u64,
) -> Result<(), Fail> {
    let chain = (number >> 40) as usize % CHAINS;
    let key = (number >> 30) as usize % KEYS;
    match (number >> 50) % 16 {
        0 if table.keys() < KEYS => add_key(table)?,
        1 if table.chains() < CHAINS => add_both(table, lists, alloc)?,
        2..=8 => push_both(table, lists, chain, key)?,
        _ => unlink_both(table, lists, key),
    }
    Ok(())
}

/// Draws calls, and returns the first after which chains and lists differ.
fn first_difference(
    table: &mut Chains,
    lists: &mut Vec<Vec<usize>>,
    alloc: Global,
) -> Result<Option<usize>, Fail> {
    let mut number = 1;
    for i in 0..CALLS {
        number = next(number);
        call(table, lists, alloc, number)?;
        let keys = table.keys();
        if !agrees(table, lists, keys) {
            return Ok(Some(i));
        }
    }
    Ok(None)
}

#[test]
fn chains_agree_with_plain_lists(rt: HostRuntime) -> Result<(), Fail> {
    let alloc = rt.alloc();
    let mut table = Chains::new(alloc);
    let mut lists = Vec::new(alloc);
    let difference = first_difference(&mut table, &mut lists, alloc);
    let full = (table.chains(), table.keys()) == (CHAINS, KEYS);
    drop(table);
    drop(lists);
    assert_eq!(rt; difference?, None);
    assert!(rt; full);
    Ok(())
}

/// Returns whether growing leaves two keys in the first chain as they were, also if memory runs out once.
fn growing_leaves_keys(table: &mut Chains) -> bool {
    let mut left = push(table, 0, 1) && push(table, 0, 0);
    for _ in 0..GROWN {
        left = add_key(table) == Ok(()) && has_keys(table, 0, &[1, 0]) && left;
        left = add_chain(table) == Ok(()) && has_keys(table, 0, &[1, 0]) && left;
    }
    left && (table.chains(), table.keys()) == (1 + GROWN, 2 + GROWN)
}

#[test]
fn out_of_memory_changes_nothing(rt: HostRuntime) {
    let mut table = Chains::new(rt.alloc());
    let grown = grow(&mut table, 1, 2);
    let left = growing_leaves_keys(&mut table);
    drop(table);
    assert_eq!(rt; grown, Ok(()));
    assert!(rt; left);
}
