//! Histories without dead groups, on worked values and on drawn steps.

use crate::histories::{first_other_replay, left_by, played};
use asset_core::Core;
use asset_core_tests::ask;
use asset_deletion::{without, without_dead};
use asset_history::History;
use asset_names::{Kind, NoMemory, Ob, ObSet, Ops, Step, Txn};
use asset_test_tools::{
    abort, add, begin, commit, complete, delegate, depend, initiate, next, read, write,
};
use std::alloc::Global;
use std::test::Fail;

/// How many transactions there are among drawn steps, how many steps are drawn, and room for all of them.
const NAMES: u64 = 24;

const DRAWN: usize = 300;

pub(crate) const DRAWN_ROOM: usize = 500;

/// How many trios of transactions there are. Drawn steps join only transactions of one trio.
const TRIOS: usize = 8;

/// Returns what is left without the chosen transactions' dead groups. If memory runs out once, it is asked again.
fn left_without(alloc: Global, history: &History, chosen: &[Txn]) -> Result<History, NoMemory> {
    match without(alloc, history, chosen) {
        Ok(left) => Ok(left),
        Err(NoMemory) => without(alloc, history, chosen),
    }
}

/// Returns what is left without all dead groups. If memory runs out once, it is asked again.
pub(crate) fn left_undead(alloc: Global, history: &History) -> Result<History, NoMemory> {
    match without_dead(alloc, history) {
        Ok(left) => Ok(left),
        Err(NoMemory) => without_dead(alloc, history),
    }
}

/// Returns the first entry that is left without the chosen transactions' dead groups and that a fresh facility answers
/// otherwise, and how many are left.
fn first_other_without(
    alloc: Global,
    history: &History,
    chosen: &[Txn],
) -> Result<(Option<usize>, usize), NoMemory> {
    let left = left_without(alloc, history, chosen)?;
    let other = first_other_replay(alloc, &left);
    let len = left.len();
    drop(left);
    Ok((other?, len))
}

/// Returns the first entry that is left without all dead groups and that a fresh facility answers otherwise, and how many
/// are left.
fn first_other_undead(
    alloc: Global,
    history: &History,
) -> Result<(Option<usize>, usize), NoMemory> {
    let left = left_undead(alloc, history)?;
    let other = first_other_replay(alloc, &left);
    let len = left.len();
    drop(left);
    Ok((other?, len))
}

/// Three transactions share nothing: 7 aborts, 8 does not end, and 9 commits.
const THREE_GROUPS: &str = "\
    initiate 7: ok\nbegin 7: ok\ninitiate 8: ok\nbegin 8: ok\ninitiate 9: ok\nbegin 9: ok\n\
    write 7 1 11: ok\nwrite 8 2 22: ok\nread 9 3: 300\nwrite 9 3 33: ok\nabort 7: aborted\n\
    read 9 1: 100\ncomplete 9: ok\ncommit 9: committed\n";

/// Four entries go with 7, seven with all dead groups, and none with 9, which has committed.
#[test]
fn dead_groups_are_deleted(rt: HostRuntime) -> Result<(), Fail> {
    let (history, wrong) = left_by(rt.alloc(), THREE_GROUPS)?;
    let some = first_other_without(rt.alloc(), &history, &[Txn(7), Txn(9), Txn(55)]);
    let none = first_other_without(rt.alloc(), &history, &[Txn(9), Txn(55)]);
    let all = first_other_undead(rt.alloc(), &history);
    drop(history);
    assert_eq!(rt; wrong, None);
    assert_eq!(rt; some?, (None, 10));
    assert_eq!(rt; none?, (None, 14));
    assert_eq!(rt; all?, (None, 7));
    Ok(())
}

/// Returns the step that a number stands for.
fn drawn(number: u64) -> Step {
    let t = (number >> 40) % NAMES;
    let u = t / 3 * 3 + (number >> 30) % 3;
    let x = 1 + (number >> 20) % 3;
    match (number >> 50) % 12 {
        0 => initiate(u),
        1 => commit(t),
        2 => read(t, x),
        3 => write(t, x, (number >> 44) as i64),
        10 | 11 => add(t, x, (number >> 44) as i64),
        4 => complete(t),
        5 => commit(t),
        6 => abort(t),
        7 => depend(Kind::Ad, t, u),
        8 => Step::Permit {
            giver: Txn(t),
            taker: Txn(u),
            obs: ObSet::All,
            ops: Ops::with_add(false, number % 2 == 0),
        },
        _ => delegate(t, u, &[]),
    }
}

/// Begins all transactions, and plays drawn steps, which join them by threes. Some wait, and some are refused. Returns the
/// first number that met a fault.
pub(crate) fn steps_are_drawn(core: &mut Core) -> Option<u64> {
    for t in 0..NAMES {
        if ask(core, &initiate(t)).is_err() || ask(core, &begin(t)).is_err() {
            return Some(t);
        }
    }
    let mut number = 7;
    for _ in 0..DRAWN {
        number = next(number);
        if ask(core, &drawn(number)).is_err() {
            return Some(number);
        }
    }
    None
}

/// Returns a transaction of each trio whose bit is set, and one that does not occur for the others.
fn chosen(bits: u64) -> [Txn; TRIOS] {
    let mut chosen = [Txn(NAMES); TRIOS];
    for k in 0..TRIOS {
        if (bits >> k) % 2 == 1 {
            chosen[k] = Txn(3 * k as u64);
        }
    }
    chosen
}

/// Returns the first choice of trios, by its bits, without whose dead groups an entry is answered otherwise, and that entry.
fn first_other_choice(alloc: Global, history: &History) -> Result<Option<(u64, usize)>, NoMemory> {
    for bits in 0..1 << TRIOS {
        let (other, _) = first_other_without(alloc, history, &chosen(bits))?;
        if let Some(index) = other {
            return Ok(Some((bits, index)));
        }
    }
    Ok(None)
}

/// Some of the entries are left without all dead groups, and not all.
#[test]
fn what_is_left_of_drawn_steps_is_answered_alike(rt: HostRuntime) -> Result<(), Fail> {
    let (history, fault) = played(rt.alloc(), DRAWN_ROOM, steps_are_drawn)?;
    let undead = first_other_undead(rt.alloc(), &history);
    let choice = first_other_choice(rt.alloc(), &history);
    let len = history.len();
    drop(history);
    let (other, left) = undead?;
    assert_eq!(rt; fault, None);
    assert_eq!(rt; (other, choice?), (None, None));
    assert!(rt; 0 < left && left < len);
    Ok(())
}
