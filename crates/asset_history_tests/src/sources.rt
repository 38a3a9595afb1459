//! Sources of what was read, on worked values and beside the values themselves.

use crate::histories::{left_by, played};
use asset_core::Core;
use asset_core_tests::{ask, opened};
use asset_history::History;
use asset_names::{NoMemory, Ob, Reply, Step};
use asset_sources::{Source, source, sources};
use asset_test_tools::{
    abort, add, begin, commit, complete, delegate, initiate, next, ops_of, permit, permit_any,
    read, write,
};
use std::alloc::Global;
use std::test::Fail;

/// How many steps are drawn, how many of them the same three transactions ask, and room for all.
pub(crate) const DRAWN: u32 = 900;

const LIFE: u32 = 30;

pub(crate) const DRAWN_ROOM: usize = 1_000;

/// Each drawn write writes its own multiple of this, which no object has at first. All drawn adds together add less.
const SPAN: i64 = 1_000_000;

/// Returns the sources of all entries. If memory runs out once, they are looked for again.
pub(crate) fn all_sources(
    alloc: Global,
    history: &History,
) -> Result<Vec<Option<Source>>, NoMemory> {
    match sources(alloc, history) {
        Ok(found) => Ok(found),
        Err(NoMemory) => sources(alloc, history),
    }
}

/// Returns the source at the index. If memory runs out once, it is looked for again.
fn one_source(alloc: Global, history: &History, index: usize) -> Result<Option<Source>, NoMemory> {
    match source(alloc, history, index) {
        Ok(found) => Ok(found),
        Err(NoMemory) => source(alloc, history, index),
    }
}

/// Returns the source that the rows say of an entry: an entry that is in no row has none.
fn source_in(rows: &[(usize, Source)], index: usize) -> Option<Source> {
    for (entry, source) in rows {
        if *entry == index {
            return Some(*source);
        }
    }
    None
}

/// Returns the first entry whose source, asked with all others, is not the one of the rows.
fn first_other_of_all(
    alloc: Global,
    history: &History,
    rows: &[(usize, Source)],
) -> Result<Option<usize>, NoMemory> {
    let found = all_sources(alloc, history)?;
    let other = first_other(&found, history, rows);
    drop(found);
    Ok(other)
}

/// Returns the first entry whose source in the list is not the one of the rows, or the number of entries if the list has
/// another length.
fn first_other(
    found: &[Option<Source>],
    history: &History,
    rows: &[(usize, Source)],
) -> Option<usize> {
    for index in 0..history.len() {
        if found.get(index) != Some(&source_in(rows, index)) {
            return Some(index);
        }
    }
    if found.len() == history.len() {
        None
    } else {
        Some(history.len())
    }
}

/// Returns the first entry whose source, asked alone, is not the one of the rows. There is none past the end.
fn first_other_alone(
    alloc: Global,
    history: &History,
    rows: &[(usize, Source)],
) -> Result<Option<usize>, NoMemory> {
    for index in 0..=history.len() {
        if one_source(alloc, history, index)? != source_in(rows, index) {
            return Ok(Some(index));
        }
    }
    Ok(None)
}

/// Plays a script. Returns the first line that has another outcome, how many entries it leaves, and the first of them whose
/// source is not the one of the rows, asked with all others and alone.
fn wrong_sources(
    alloc: Global,
    script: &str,
    rows: &[(usize, Source)],
) -> Result<(Option<usize>, usize, [Option<usize>; 2]), Fail> {
    let (history, wrong) = left_by(alloc, script)?;
    let together = first_other_of_all(alloc, &history, rows);
    let alone = first_other_alone(alloc, &history, rows);
    let len = history.len();
    drop(history);
    Ok((wrong, len, [together?, alone?]))
}

/// A write is delegated before its transaction aborts. The first read of it waits.
const DELEGATED: &str = "\
    initiate 7: ok\nbegin 7: ok\ninitiate 8: ok\nbegin 8: ok\ninitiate 9: ok\nbegin 9: ok\n\
    write 7 1 50: ok\ndelegate 7 8 1: ok\nabort 7: aborted\nread 9 1: wait\ncomplete 8: ok\n\
    commit 8: committed\nread 9 1: 50\n";

#[test]
fn source_of_a_delegated_write_is_its_entry(rt: HostRuntime) -> Result<(), Fail> {
    let rows = [(11, Source::Entry(6))];
    let wrong = wrong_sources(rt.alloc(), DELEGATED, &rows)?;
    assert_eq!(rt; wrong, (None, 12, [None; 2]));
    Ok(())
}

/// Three transactions share nothing: 7 aborts, 8 does not end, and 9 commits.
const NOTHING_SHARED: &str = "\
    initiate 7: ok\nbegin 7: ok\ninitiate 8: ok\nbegin 8: ok\ninitiate 9: ok\nbegin 9: ok\n\
    write 7 1 11: ok\nwrite 8 2 22: ok\nread 9 3: 300\nwrite 9 3 33: ok\nabort 7: aborted\n\
    read 9 1: 100\ncomplete 9: ok\ncommit 9: committed\n";

#[test]
fn source_before_each_write_is_the_opening(rt: HostRuntime) -> Result<(), Fail> {
    let rows = [(8, Source::Opening), (11, Source::Opening)];
    let wrong = wrong_sources(rt.alloc(), NOTHING_SHARED, &rows)?;
    assert_eq!(rt; wrong, (None, 14, [None; 2]));
    Ok(())
}

/// A transaction reads its own write, another reads after its abort, and then the second of two of its own.
const OWN_WRITES: &str = "\
    initiate 7: ok\nbegin 7: ok\nwrite 7 1 50: ok\nread 7 1: 50\ninitiate 8: ok\nbegin 8: ok\n\
    read 8 1: wait\nabort 7: aborted\nread 8 1: 100\nwrite 8 1 60: ok\nwrite 8 1 61: ok\n\
    read 8 1: 61\nread 8 2: 200\n";

#[test]
fn source_is_the_last_write_that_stands(rt: HostRuntime) -> Result<(), Fail> {
    let rows = [
        (3, Source::Entry(2)),
        (7, Source::Opening),
        (10, Source::Entry(9)),
        (11, Source::Opening),
    ];
    let wrong = wrong_sources(rt.alloc(), OWN_WRITES, &rows)?;
    assert_eq!(rt; wrong, (None, 12, [None; 2]));
    Ok(())
}

/// A write over another by its permit stands as the other is undone, and is then undone too.
const PERMITTED_WRITE: &str = "\
    initiate 7: ok\nbegin 7: ok\ninitiate 8: ok\nbegin 8: ok\ninitiate 9: ok\nbegin 9: ok\n\
    write 7 1 50: ok\npermit 7 8 rw 1: ok\nwrite 8 1 60: ok\nabort 7: aborted\nread 8 1: 60\n\
    abort 8: aborted\nread 9 1: 100\n";

#[test]
fn source_is_a_permitted_write_that_stands(rt: HostRuntime) -> Result<(), Fail> {
    let rows = [(10, Source::Entry(8)), (12, Source::Opening)];
    let wrong = wrong_sources(rt.alloc(), PERMITTED_WRITE, &rows)?;
    assert_eq!(rt; wrong, (None, 13, [None; 2]));
    Ok(())
}

/// A write over another by its permit is undone before the other.
const UNDONE_WRITE: &str = "\
    initiate 7: ok\nbegin 7: ok\ninitiate 8: ok\nbegin 8: ok\ninitiate 9: ok\nbegin 9: ok\n\
    write 7 1 50: ok\npermit 7 8 rw 1: ok\nwrite 8 1 60: ok\nread 7 1: wait\n\
    abort 8: aborted\nread 7 1: 50\nabort 7: aborted\nread 9 1: 100\n";

#[test]
fn source_is_the_write_under_one_that_was_undone(rt: HostRuntime) -> Result<(), Fail> {
    let rows = [(10, Source::Entry(6)), (12, Source::Opening)];
    let wrong = wrong_sources(rt.alloc(), UNDONE_WRITE, &rows)?;
    assert_eq!(rt; wrong, (None, 13, [None; 2]));
    Ok(())
}

/// A write over another by its permit is committed before the other is undone.
const COMMITTED_WRITE: &str = "\
    initiate 7: ok\nbegin 7: ok\ninitiate 8: ok\nbegin 8: ok\ninitiate 9: ok\nbegin 9: ok\n\
    write 7 1 50: ok\npermit 7 8 rw 1: ok\nwrite 8 1 60: ok\ncomplete 8: ok\n\
    commit 8: committed\nabort 7: aborted\nread 9 1: 60\n";

#[test]
fn source_is_a_committed_write_over_an_aborted_one(rt: HostRuntime) -> Result<(), Fail> {
    let rows = [(12, Source::Entry(8))];
    let wrong = wrong_sources(rt.alloc(), COMMITTED_WRITE, &rows)?;
    assert_eq!(rt; wrong, (None, 13, [None; 2]));
    Ok(())
}

/// A write is refused before its transaction begins, and reads are refused: of no object, and of one who has ended.
const REFUSED: &str = "\
    initiate 7: ok\nwrite 7 1 50: refused not running 7\nbegin 7: ok\nread 7 1: 100\n\
    read 7 4: refused no object 4\ncomplete 7: ok\ncommit 7: committed\n\
    read 7 1: refused ended 7\n";

#[test]
fn refused_writes_are_no_sources_and_refused_reads_have_none(rt: HostRuntime) -> Result<(), Fail> {
    let rows = [(3, Source::Opening)];
    let wrong = wrong_sources(rt.alloc(), REFUSED, &rows)?;
    assert_eq!(rt; wrong, (None, 8, [None; 2]));
    Ok(())
}

#[test]
fn history_without_entries_has_no_sources(rt: HostRuntime) -> Result<(), Fail> {
    let wrong = wrong_sources(rt.alloc(), "", &[])?;
    assert_eq!(rt; wrong, (None, 0, [None; 2]));
    Ok(())
}

/// Returns the step that `t` asks amid its life, as a number says. Each draw that writes has a value of its own.
fn drawn(t: u64, draw: u32, number: u64) -> Step {
    let x = 1 + (number >> 20) % 3;
    match (number >> 50) % 15 {
        0 => abort(t),
        1 => delegate(t, t / 3 * 3, &[Ob(x)]),
        2 => permit(t, t / 3 * 3, &[Ob(x)], (true, true)),
        3 | 4 | 5 | 6 => write(t, x, SPAN * (i64::from(draw) + 1)),
        12 | 13 => add(t, x, 1),
        14 => permit_any(t, &[Ob(x)], ops_of(number)),
        _ => read(t, x),
    }
}

/// Returns the step of a draw: three transactions begin together, then each asks drawn steps, and they complete and commit.
pub(crate) fn step_of(draw: u32, number: u64) -> Step {
    let t = u64::from(draw / LIFE * 3 + draw % 3);
    match draw % LIFE / 3 {
        0 => initiate(t),
        1 => begin(t),
        8 => complete(t),
        9 => commit(t),
        _ => drawn(t, draw, number),
    }
}

/// Plays drawn steps. Some wait, and some are refused. Returns the first number that met a fault.
fn steps_are_drawn(core: &mut Core) -> Option<u64> {
    let mut number = 7;
    for draw in 0..DRAWN {
        number = next(number);
        if ask(core, &step_of(draw, number)).is_err() {
            return Some(number);
        }
    }
    None
}

/// Returns the entry that wrote the value below the adds in it, or the opening if none did.
fn writer_of(history: &History, value: i64) -> Source {
    for i in 0..history.len() {
        if let Some((Step::Write { v, .. }, Reply::Done)) = history.entry(i) {
            if v / SPAN == value / SPAN {
                return Source::Entry(i);
            }
        }
    }
    Source::Opening
}

/// Returns the source of the entry by the value that it read, as no two entries write the same multiple.
fn source_by_value(history: &History, index: usize) -> Option<Source> {
    match history.entry(index) {
        Some((Step::Read { .. }, Reply::Value(v))) => Some(writer_of(history, v)),
        _ => None,
    }
}

/// Returns the first entry whose source is not that of the value that was read, and how many sources are entries.
fn first_other_by_value(found: &[Option<Source>], history: &History) -> (Option<usize>, usize) {
    let mut written: usize = 0;
    for index in 0..history.len() {
        let expected = source_by_value(history, index);
        if found.get(index) != Some(&expected) {
            return (Some(index), written);
        }
        if let Some(Source::Entry(_)) = expected {
            written = written.saturating_add(1);
        }
    }
    (None, written)
}

/// Returns the first entry of the history whose source, asked with all others, is not that of the value that was read, how
/// many sources are entries, and how many sources there are.
fn by_value(alloc: Global, history: &History) -> Result<(Option<usize>, usize, usize), NoMemory> {
    let found = all_sources(alloc, history)?;
    let (other, written) = first_other_by_value(&found, history);
    let len = found.len();
    drop(found);
    Ok((other, written, len))
}

#[test]
fn sources_of_drawn_steps_agree_with_their_values(rt: HostRuntime) -> Result<(), Fail> {
    let (history, fault) = played(rt.alloc(), DRAWN_ROOM, steps_are_drawn)?;
    let compared = by_value(rt.alloc(), &history);
    let entries = history.len();
    drop(history);
    let (other, written, len) = compared?;
    assert_eq!(rt; fault, None);
    assert_eq!(rt; (other, len), (None, entries));
    assert!(rt; written > 100 && entries > 500);
    Ok(())
}

/// How many objects each of a row of transactions reads and then writes.
const MANY: usize = 300;

/// How many entries each of them has: four for its life, and two for each object.
const ROUND: usize = 604;

/// How many entries they have in all.
const ENTRIES: usize = 4_832;

/// How many entries lie between a write and the read of the same object by the next transaction.
const FROM_WRITE: usize = 304;

/// Returns the step at this place in the life of `t`, which reads each of many objects and then writes the same value to
/// each.
fn step_at(t: u64, place: u64) -> Step {
    match place {
        0 => initiate(t),
        1 => begin(t),
        602 => complete(t),
        603 => commit(t),
        _ => {
            if place < 302 {
                read(t, place - 2)
            } else {
                write(t, place - 302, 5)
            }
        }
    }
}

/// Plays the lives of transactions that come one after another. Returns the first step that is not answered.
fn first_unanswered(core: &mut Core) -> Option<usize> {
    for i in 0..ENTRIES {
        let step = step_at((i / ROUND) as u64, (i % ROUND) as u64);
        if ask(core, &step).is_err() {
            return Some(i);
        }
    }
    None
}

/// Returns the source of the entry at the index: the first transaction reads the opening, and each other one what the one
/// before it wrote.
fn source_in_rounds(index: usize) -> Option<Source> {
    if index % ROUND < 2 || index % ROUND >= 302 {
        None
    } else if index < ROUND {
        Some(Source::Opening)
    } else {
        Some(Source::Entry(index - FROM_WRITE))
    }
}

/// Returns the first entry whose source is another one.
fn first_other_source(found: &[Option<Source>]) -> Option<usize> {
    for i in 0..ENTRIES {
        if found.get(i) != Some(&source_in_rounds(i)) {
            return Some(i);
        }
    }
    None
}

/// Returns how many sources the rounds have, and the first that is another one.
fn sources_of_rounds(alloc: Global, history: &History) -> Result<(usize, Option<usize>), NoMemory> {
    let found = all_sources(alloc, history)?;
    let shown = (found.len(), first_other_source(&found));
    drop(found);
    Ok(shown)
}

/// Returns the sources of one entry in the first round and of one in the last.
fn two_sources(alloc: Global, history: &History) -> Result<[Option<Source>; 2], NoMemory> {
    Ok([
        one_source(alloc, history, 2)?,
        one_source(alloc, history, 4_529)?,
    ])
}

/// Returns the history of the rounds over many objects, and the first step that is not answered.
fn history_of_rounds(alloc: Global) -> Result<(History, Option<usize>), Fail> {
    let mut opening = [(Ob(0), 5); MANY];
    for (x, pair) in opening.iter_mut().enumerate() {
        *pair = (Ob(x as u64), 5);
    }
    let mut core = opened(alloc, &opening, ENTRIES)?;
    let unanswered = first_unanswered(&mut core);
    Ok((core.into_history(), unanswered))
}

#[test]
fn sources_of_many_objects_are_found(rt: HostRuntime) -> Result<(), Fail> {
    let (history, unanswered) = history_of_rounds(rt.alloc())?;
    let all = sources_of_rounds(rt.alloc(), &history);
    let two = two_sources(rt.alloc(), &history);
    let entries = history.len();
    drop(history);
    assert_eq!(rt; (unanswered, entries), (None, ENTRIES));
    assert_eq!(rt; all, Ok((ENTRIES, None)));
    assert!(rt; two == Ok([Some(Source::Opening), Some(Source::Entry(4_225))]));
    Ok(())
}
