//! Histories of 200 entries, which are drawn, and of more, which are tables.
use crate::drawing::{parts, picture_of, played};
use asset_core::Core;
use asset_core_tests::ask;
use asset_names::NoMemory;
use asset_test_tools::{begin, initiate, read, write};
use std::alloc::Global;
use std::test::Fail;

/// Plays two steps that start 7, a write, and reads of it, so many steps in all. Returns the first that met a fault.
fn play_reads(core: &mut Core, steps: u64) -> Option<u64> {
    if ask(core, &initiate(7)).is_err()
        || ask(core, &begin(7)).is_err()
        || ask(core, &write(7, 1, 11)).is_err()
    {
        return Some(0);
    }
    for i in 3..steps {
        if ask(core, &read(7, 1)).is_err() {
            return Some(i);
        }
    }
    None
}

/// Returns how many times the text has the word.
pub(crate) fn count(text: &str, word: &str) -> usize {
    text.matches(word).count()
}

/// The table of 201 entries of one transaction.
const TABLE: &str = "\
<text class='key' x='20' y='28'>201 entries</text>
<text class='row' y='50'><tspan class='object' x='20'>transaction</tspan><tspan class='object' x='190'>group</tspan>\
<tspan class='object' x='270'>the group is</tspan><tspan class='object' x='380'>status</tspan>\
<tspan class='object' x='470'>steps</tspan><tspan class='object' x='550'>first</tspan><tspan class='object' x='630'>last</tspan>
<tspan x='20' dy='20'>7</tspan><tspan x='190'>0</tspan><tspan x='270'>dead</tspan><tspan x='380'>live</tspan>\
<tspan x='470'>201</tspan><tspan x='550'>0</tspan><tspan x='630'>200</tspan>
</text>
</svg>
";

/// Returns what is counted in a picture: numbers of entries, writes, reads, and arrows to sources.
fn counted(picture: &Result<String, NoMemory>) -> Option<[usize; 4]> {
    match picture {
        Ok(picture) => {
            let (_, shapes) = parts(picture)?;
            Some([
                count(shapes, "<text class='step'"),
                count(shapes, "<g class='write dead'"),
                count(shapes, "<g class='read dead'"),
                count(shapes, "<path class='arrow source dead'"),
            ])
        }
        Err(NoMemory) => None,
    }
}

#[test]
fn two_hundred_entries_are_drawn(rt: HostRuntime) -> Result<(), Fail> {
    let (history, fault) = played(rt.alloc(), |core: &mut Core| play_reads(core, 200))?;
    let picture = picture_of(rt.alloc(), &history);
    drop(history);
    let found = counted(&picture);
    drop(picture);
    assert_eq!(rt; fault, None);
    assert_eq!(rt; found, Some([200, 1, 197, 197]));
    Ok(())
}

/// Returns whether the picture ends with the table.
fn is_table(picture: &Result<String, NoMemory>) -> bool {
    match picture {
        Ok(picture) => picture.as_str().ends_with(TABLE) && parts(picture) == None,
        Err(NoMemory) => false,
    }
}

#[test]
fn more_entries_are_a_table(rt: HostRuntime) -> Result<(), Fail> {
    let (history, fault) = played(rt.alloc(), |core: &mut Core| play_reads(core, 201))?;
    let picture = picture_of(rt.alloc(), &history);
    drop(history);
    let found = is_table(&picture);
    drop(picture);
    assert_eq!(rt; fault, None);
    assert!(rt; found);
    Ok(())
}
