//! Entries that are copied from one history to another, and entries that are read into one slot.

use crate::deletion::left_undead;
use crate::histories::left_by;
use asset_core_tests::{first_other_entry, parsed, reads};
use asset_history::History;
use asset_names::{NoMemory, Outcome, Step, Txn};
use std::alloc::Global;
use std::test::Fail;

/// The permit of 7 has the first set. Nobody of its group commits, so the sets of what is left have other indices there. One
/// refusal is about the second object of its set, and one about the second transaction.
const SCRIPT: &str = "\
    initiate 7: ok\nbegin 7: ok\npermit 7 8 r 1: refused unknown 8\n\
    initiate 9: ok\nbegin 9: ok\ninitiate 10: ok\npermit 9 10 rw 2,5: refused no object 5\n\
    delegate 9 55 3: refused unknown 55\npermit 9 10 w 1,3: ok\npermit 9 10 r all: ok\n\
    write 9 1 -5: ok\nread 9 1: -5\ndepend cd 9 10: ok\ndelegate 9 10 2: ok\nabort 7: aborted\n\
    complete 9: ok\ncommit 9: committed\nbegin 10: ok\ncomplete 10: ok\ncommit 10: committed\n";

/// What is left without the group of 7.
const LEFT: &str = "\
    initiate 9: ok\nbegin 9: ok\ninitiate 10: ok\npermit 9 10 rw 2,5: refused no object 5\n\
    delegate 9 55 3: refused unknown 55\npermit 9 10 w 1,3: ok\npermit 9 10 r all: ok\n\
    write 9 1 -5: ok\nread 9 1: -5\ndepend cd 9 10: ok\ndelegate 9 10 2: ok\n\
    complete 9: ok\ncommit 9: committed\nbegin 10: ok\ncomplete 10: ok\ncommit 10: committed\n";

/// Returns the first line that is not what is left of the history without its dead groups.
fn first_other_left(
    alloc: Global,
    history: &History,
    script: &str,
) -> Result<Option<usize>, NoMemory> {
    let left = left_undead(alloc, history)?;
    let other = first_other_entry(alloc, &left, script);
    drop(left);
    Ok(other)
}

/// Returns whether the entry at the index is read into the slot as what a line says.
fn is_read(alloc: Global, history: &History, index: usize, step: &mut Step, line: &str) -> bool {
    match (history.entry_into(index, step), parsed(line)) {
        (Some(reply), Some((asked, expected))) => {
            *step == asked && reads(alloc, Ok(Outcome::Answer(reply)), expected)
        }
        _ => false,
    }
}

/// Returns the index of the first entry that is not read as its line says, and whether none is read past the end.
fn read_by_slot(alloc: Global, history: &History, script: &str) -> (Option<usize>, bool) {
    let mut step = Step::Commit { t: Txn(0) };
    for (index, line) in script.lines().enumerate() {
        if !is_read(alloc, history, index, &mut step, line) {
            return (Some(index), false);
        }
    }
    (None, history.entry_into(history.len(), &mut step).is_none())
}

/// Four of 20 entries go with the group of 7, and the others are copied whole.
#[test]
fn copied_entries_keep_their_sets_and_replies(rt: HostRuntime) -> Result<(), Fail> {
    let (history, wrong) = left_by(rt.alloc(), SCRIPT)?;
    let other = first_other_left(rt.alloc(), &history, LEFT);
    let len = history.len();
    drop(history);
    assert_eq!(rt; wrong, None);
    assert_eq!(rt; len, 20);
    assert_eq!(rt; other?, None);
    Ok(())
}

/// One slot takes the steps of all entries, one after another.
#[test]
fn entries_are_read_into_one_slot(rt: HostRuntime) -> Result<(), Fail> {
    let (history, wrong) = left_by(rt.alloc(), SCRIPT)?;
    let read = read_by_slot(rt.alloc(), &history, SCRIPT);
    drop(history);
    assert_eq!(rt; wrong, None);
    assert_eq!(rt; read, (None, true));
    Ok(())
}
