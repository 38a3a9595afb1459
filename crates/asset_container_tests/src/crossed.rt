//! Items in rows and columns beside plain lists of the keys that joined them, and what is left if memory runs out.

use asset_chains::{Crossed, Side};
use asset_test_tools::next;
use std::alloc::{AllocError, Global};
use std::test::Fail;

/// How many rows and columns there are, how many items at most, and how many calls are drawn.
const LINES: usize = 5;

const ITEMS: usize = 300;

const CALLS: usize = 4_000;

/// What joined a row or a column: which one, the key, and the item.
type Joined = (usize, usize, u64);

/// Returns whether the item is at the key, in this row or column.
fn has_item(table: &Crossed<u64>, side: Side, (line, key, item): Joined) -> bool {
    table.home(side, key) == Some(line) && table.get(key).copied() == Some(item)
}

/// Returns whether the row or column has the keys and items of its list, each after the one before it and before the one after.
fn has_line(table: &Crossed<u64>, side: Side, line: usize, joined: &[Joined]) -> bool {
    let mut at = table.first(side, line);
    let mut before = None;
    let mut count: usize = 0;
    for one in joined {
        if one.0 == line {
            if at != Some(one.1) || !has_item(table, side, *one) {
                return false;
            }
            if table.previous(side, one.1) != before {
                return false;
            }
            before = at;
            at = table.next(side, one.1);
            count = count.saturating_add(1);
        }
    }
    at == None && table.last(side, line) == before && table.len(side, line) == count
}

/// Returns whether the rows and columns have the items of their lists.
fn agrees(table: &Crossed<u64>, rows: &[Joined], columns: &[Joined]) -> bool {
    for line in 0..=LINES {
        if !(has_line(table, Side::Row, line, rows)
            && has_line(table, Side::Column, line, columns))
        {
            return false;
        }
    }
    table.items() == rows.len()
        && (table.count(Side::Row), table.count(Side::Column)) == (LINES, LINES)
}

/// Adds the rows and the columns. A call that runs out of memory is made again, once.
fn lined(alloc: Global) -> Result<Crossed<u64>, AllocError> {
    let mut table = Crossed::new(alloc);
    for _ in 0..LINES {
        for side in [Side::Row, Side::Column] {
            match table.add(side) {
                Ok(()) => {}
                Err(AllocError) => table.add(side)?,
            }
        }
    }
    Ok(table)
}

/// Adds an item if its row and its column are there, and returns its key. If memory runs out, it asks again, once.
fn inserted(
    table: &mut Crossed<u64>,
    (row, column, item): Joined,
) -> Result<Option<usize>, AllocError> {
    match table.reserve() {
        Ok(()) => {}
        Err(AllocError) => table.reserve()?,
    }
    if row >= table.count(Side::Row) || column >= table.count(Side::Column) {
        return Ok(None);
    }
    Ok(Some(table.insert(row, column, item)))
}

/// Adds an item, and notes it.
fn insert(
    table: &mut Crossed<u64>,
    rows: &mut Vec<Joined>,
    columns: &mut Vec<Joined>,
    joined: Joined,
) -> Result<(), AllocError> {
    if let Some(key) = inserted(table, joined)? {
        rows.push((joined.0, key, joined.2))?;
        columns.push((joined.1, key, joined.2))?;
    }
    Ok(())
}

/// Takes the item at the key out, if there is one.
fn remove(table: &mut Crossed<u64>, rows: &mut Vec<Joined>, columns: &mut Vec<Joined>, key: usize) {
    if table.get(key).is_some() {
        let gone = table.remove(key);
        rows.retain(|one| (one.1, one.2) != (key, gone));
        columns.retain(|one| (one.1, one.2) != (key, gone));
    }
}

/// Moves the item at the key to another row or column, if both are there, and notes it in the list of that side.
fn shift(
    table: &mut Crossed<u64>,
    side: Side,
    joined: &mut Vec<Joined>,
    key: usize,
    line: usize,
) -> Result<(), AllocError> {
    if let Some(item) = table.get(key)
        && line < table.count(side)
    {
        let item = *item;
        table.move_to(side, key, line);
        joined.retain(|one| one.1 != key);
        joined.push((line, key, item))?;
    }
    Ok(())
}

/// Takes all items out of a row or a column, and notes it in the list of that side and in that of the other.
fn clear(
    table: &mut Crossed<u64>,
    side: Side,
    joined: &mut Vec<Joined>,
    others: &mut Vec<Joined>,
    line: usize,
) {
    table.clear(side, line);
    others.retain(|one| !joined.iter().any(|gone| gone.0 == line && gone.1 == one.1));
    joined.retain(|one| one.0 != line);
}

/// Writes another item at the key in a list.
fn rewrite(joined: &mut Vec<Joined>, key: usize, item: u64) {
    for one in joined.iter_mut() {
        if one.1 == key {
            one.2 = item;
        }
    }
}

/// Puts another item in the place of the one at the key, if there is one.
fn replace(
    table: &mut Crossed<u64>,
    rows: &mut Vec<Joined>,
    columns: &mut Vec<Joined>,
    key: usize,
    item: u64,
) {
    if table.get(key).is_some() {
        table.replace(key, item);
        rewrite(rows, key, item);
        rewrite(columns, key, item);
    }
}

/// Makes the call that a number stands for, on the items and the lists.
fn call(
    table: &mut Crossed<u64>,
    rows: &mut Vec<Joined>,
    columns: &mut Vec<Joined>,
    number: u64,
) -> Result<(), AllocError> {
    let line = (number >> 40) as usize % LINES;
    let key = (number >> 30) as usize % ITEMS;
    match (number >> 50) % 64 {
        0..=30 if rows.len() < ITEMS => {
            let column = (number >> 20) as usize % LINES;
            insert(table, rows, columns, (line, column, number))?;
        }
        31..=35 => shift(table, Side::Row, rows, key, line)?,
        36..=40 => shift(table, Side::Column, columns, key, line)?,
        41..=46 => replace(table, rows, columns, key, number),
        47 => clear(table, Side::Column, columns, rows, line),
        48 => clear(table, Side::Row, rows, columns, line),
        _ => remove(table, rows, columns, key),
    }
    Ok(())
}

/// Draws calls, and returns the first after which the items are not those of the lists.
fn first_difference(table: &mut Crossed<u64>, alloc: Global) -> Result<Option<usize>, AllocError> {
    let mut rows = Vec::new(alloc);
    let mut columns = Vec::new(alloc);
    let mut number = 1;
    for i in 0..CALLS {
        number = next(number);
        call(table, &mut rows, &mut columns, number)?;
        if !agrees(table, &rows, &columns) {
            return Ok(Some(i));
        }
    }
    Ok(None)
}

#[test]
fn items_are_in_their_rows_and_columns(rt: HostRuntime) -> Result<(), Fail> {
    let mut table = lined(rt.alloc())?;
    let difference = first_difference(&mut table, rt.alloc());
    drop(table);
    assert_eq!(rt; difference?, None);
    Ok(())
}
