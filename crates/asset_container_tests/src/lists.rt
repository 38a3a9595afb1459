//! Lists of keys beside a plain table of their parts, past the keys that lie in a list itself.

use asset_lists::{KeyLists, Part, Section};
use asset_test_tools::next;
use std::alloc::AllocError;

/// How many keys and lists there are at most, and how many calls are drawn.
const KEYS: usize = 40;

const LISTS: usize = 3;

const CALLS: usize = 3_000;

/// The parts of a list.
const SECTIONS: [Section; 3] = [Section::Front, Section::Middle, Section::Back];

/// Where a key is in the plain table: its list, and the number of its part there.
type Place = Option<(usize, usize)>;

/// Returns the number of a part of a list.
fn number_of(section: Section) -> usize {
    match section {
        Section::Front => 0,
        Section::Middle => 1,
        Section::Back => 2,
    }
}

/// Returns whether the plain table has the key in the part.
fn is_in(places: &[Place], key: usize, part: Part) -> bool {
    match places.get(key) {
        Some(Some((list, section))) => *list == part.list && *section == number_of(part.section),
        _ => false,
    }
}

/// Returns whether the part shows the keys that the plain table has in it, each once.
fn has_keys(table: &KeyLists, places: &[Place], part: Part) -> bool {
    let keys = table.keys(part);
    for (i, key) in keys.iter().enumerate() {
        if !is_in(places, *key as usize, part) || keys[..i].contains(key) {
            return false;
        }
    }
    for key in 0..places.len() {
        if is_in(places, key, part) && !keys.iter().any(|k| *k as usize == key) {
            return false;
        }
    }
    true
}

/// Returns whether the plain table has the key in the part, or in one before it in its list.
fn is_up_to(places: &[Place], key: usize, last: Part) -> bool {
    match places.get(key) {
        Some(Some((list, section))) => *list == last.list && *section <= number_of(last.section),
        _ => false,
    }
}

/// Returns whether the part and those before it show the keys that the plain table has in them, each once.
fn has_keys_up_to(table: &KeyLists, places: &[Place], last: Part) -> bool {
    let keys = table.keys_up_to(last);
    for (i, key) in keys.iter().enumerate() {
        if !is_up_to(places, *key as usize, last) || keys[..i].contains(key) {
            return false;
        }
    }
    for key in 0..places.len() {
        if is_up_to(places, key, last) && !keys.iter().any(|k| *k as usize == key) {
            return false;
        }
    }
    true
}

/// Returns whether lists and plain table agree, also past the last list and the last key.
fn agrees(table: &KeyLists, places: &[Place]) -> bool {
    for list in 0..=LISTS {
        for section in SECTIONS {
            let part = Part { list, section };
            if !has_keys(table, places, part) || !has_keys_up_to(table, places, part) {
                return false;
            }
        }
    }
    for key in 0..=KEYS {
        let same = match table.part(key) {
            Some(part) => is_in(places, key, part),
            None => matches!(places.get(key), None | Some(None)),
        };
        if !same {
            return false;
        }
    }
    true
}

/// Writes where the key is in the plain table.
fn set(places: &mut [Place], key: usize, place: Place) {
    if let Some(at) = places.get_mut(key) {
        *at = place;
    }
}

/// Puts the key into the part, if both are there and the key is in none. It asks again if memory runs out.
fn push(
    table: &mut KeyLists,
    places: &mut [Place],
    part: Part,
    key: usize,
) -> Result<(), AllocError> {
    if part.list >= table.list_count() || key >= table.key_count() || table.part(key).is_some() {
        return Ok(());
    }
    match table.push(part, key) {
        Err(AllocError) if agrees(table, places) => table.push(part, key)?,
        pushed => pushed?,
    }
    set(places, key, Some((part.list, number_of(part.section))));
    Ok(())
}

/// Moves the key to the front part of its list.
fn advance(table: &mut KeyLists, places: &mut [Place], key: usize) {
    table.advance(key);
    if let Some(Some((list, _))) = places.get(key).copied() {
        set(places, key, Some((list, number_of(Section::Front))));
    }
}

/// Takes the key out of its list.
fn remove(table: &mut KeyLists, places: &mut [Place], key: usize) {
    table.remove(key);
    set(places, key, None);
}

/// Adds a key. If memory runs out, nothing has changed, and the same call is made again.
fn add_key(table: &mut KeyLists, places: &[Place]) -> Result<(), AllocError> {
    match table.add_key() {
        Err(AllocError) if agrees(table, places) => table.add_key(),
        added => added,
    }
}

/// Adds a list as `add_key` adds a key.
fn add_list(table: &mut KeyLists, places: &[Place]) -> Result<(), AllocError> {
    match table.add_list() {
        Err(AllocError) if agrees(table, places) => table.add_list(),
        added => added,
    }
}

/// Makes the call that a number stands for, on lists and plain table.
fn call(table: &mut KeyLists, places: &mut [Place], number: u64) -> Result<(), AllocError> {
    let list = (number >> 40) as usize % LISTS;
    let key = (number >> 30) as usize % KEYS;
    let section = SECTIONS[(number >> 45) as usize % SECTIONS.len()];
    match (number >> 50) % 16 {
        0 | 1 if table.key_count() < KEYS => add_key(table, places)?,
        2 if table.list_count() < LISTS => add_list(table, places)?,
        3..=10 => push(table, places, Part { list, section }, key)?,
        11 | 12 => advance(table, places, key),
        _ => remove(table, places, key),
    }
    Ok(())
}

/// Draws calls, and returns the first after which lists and plain table differ.
fn first_difference(
    table: &mut KeyLists,
    places: &mut [Place],
) -> Result<Option<usize>, AllocError> {
    let mut number = 1;
    for i in 0..CALLS {
        number = next(number);
        call(table, places, number)?;
        if !agrees(table, places) {
            return Ok(Some(i));
        }
    }
    Ok(None)
}

#[test]
fn lists_agree_with_a_plain_table(rt: HostRuntime) {
    let mut table = KeyLists::new(rt.alloc());
    let mut places = [None; KEYS];
    let difference = first_difference(&mut table, &mut places);
    let full = (table.list_count(), table.key_count()) == (LISTS, KEYS);
    drop(table);
    assert_eq!(rt; difference, Ok(None));
    assert!(rt; full);
}

/// Puts all keys into the first list, by turns into its three parts, and takes them out again.
fn fill_and_empty(table: &mut KeyLists, places: &mut [Place]) -> Result<bool, AllocError> {
    table.add_lists(0)?;
    table.add_keys(KEYS - 1)?;
    for key in 0..KEYS {
        let section = SECTIONS[key % SECTIONS.len()];
        push(table, places, Part { list: 0, section }, key)?;
    }
    let filled = agrees(table, places);
    for key in 0..KEYS {
        remove(table, places, key);
    }
    Ok(filled && agrees(table, places))
}

#[test]
fn long_list_is_filled_and_emptied(rt: HostRuntime) {
    let mut table = KeyLists::new(rt.alloc());
    let mut places = [None; KEYS];
    let agreed = fill_and_empty(&mut table, &mut places);
    let counts = (table.list_count(), table.key_count());
    drop(table);
    assert_eq!(rt; agreed, Ok(true));
    assert_eq!(rt; counts, (1, KEYS));
}
