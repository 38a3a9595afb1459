//! Worked rows of the models over a `Core` with objects 1, 2 and 3, which have 100, 200 and 300. If memory runs out in a row,
//! its history has no more than its first lines, and the row is made again.

use crate::asserts::same;
use crate::counting::Counting;
use crate::parts::part;
use crate::rows_of::{Row, row_of};
use asset_core::OpenFault;
use asset_core_tests::{ROOM, THREE, first_wrong_line, opened};
use asset_models::{
    Act, Asset, ModelEnd, atomic, contingent, cooperating, distributed, join, nested, saga, split,
};
use asset_names::{Fault, Ob, Status, Txn};
use asset_test_tools::{initiate, listed, write};
use std::alloc::Global;
use std::test::Fail;

/// The row of a parent and its child.
pub(crate) const NESTED: &str =
    "initiate 7: ok\nbegin 7: ok\nwrite 7 1 50: ok\ninitiate 8 7: ok\npermit 7 8 rwa all: ok\nbegin 8: ok\nread 8 1: 50\nwrite 8 2 80: ok\ncomplete 8: ok\ndelegate 8 7 all: ok\ncommit 8: committed\ncomplete 7: ok\ncommit 7: committed\n";

/// The row of a saga of two pairs, whose second transaction gives up.
pub(crate) const SAGA: &str =
    "initiate 7: ok\nbegin 7: ok\nwrite 7 1 50: ok\ncomplete 7: ok\ncommit 7: committed\ninitiate 8: ok\nbegin 8: ok\nabort 8: aborted\ninitiate 17: ok\nbegin 17: ok\nwrite 17 1 100: ok\ncomplete 17: ok\ncommit 17: committed\n";

/// The row of two parts that commit together, of which the second gives up.
pub(crate) const DISTRIBUTED: &str =
    "initiate 7: ok\nbegin 7: ok\ninitiate 8: ok\nbegin 8: ok\ndepend gc 7 8: ok\nwrite 7 1 50: ok\nabort 8: aborted\n";

/// The row of two transactions that write object 1 in turn.
pub(crate) const COOPERATING: &str =
    "initiate 7: ok\nbegin 7: ok\ninitiate 8: ok\nbegin 8: ok\npermit 7 8 rwa 1: ok\npermit 8 7 rwa 1: ok\ndepend gc 7 8: ok\nwrite 7 1 50: ok\nwrite 8 1 60: ok\nread 7 1: 60\ncomplete 7: ok\ncomplete 8: ok\ncommit 7: committed\n";

/// Returns whether memory ran out in a row, whose history then has the first of the lines.
pub(crate) fn ran_out(row: &Row) -> bool {
    row.end == Err(Fault::NoMemory) && row.missing.is_some()
}

/// Runs a parent and its child.
pub(crate) fn run_nested<A: Asset>(alloc: Global, asset: &mut A) -> Result<ModelEnd, Fault> {
    let parent = part(alloc, 7, &[Act::Write(Ob(1), 50)]);
    let child = part(alloc, 8, &[Act::Read(Ob(1)), Act::Write(Ob(2), 80)]);
    nested(asset, &parent, &[child], 2)
}

/// Runs a parent and its child over a facility.
fn nested_row(alloc: Global) -> Result<Row, OpenFault> {
    let mut core = opened(alloc, &THREE, ROOM)?;
    let end = run_nested(alloc, &mut core);
    Ok(row_of(alloc, core, end, NESTED, [7, 8, 9]))
}

#[test]
fn child_reads_and_hands_over_to_its_parent(rt: HostRuntime) -> Result<(), Fail> {
    let alloc: Global = rt.alloc();
    let mut row = nested_row(alloc)?;
    if ran_out(&row) {
        row = nested_row(alloc)?;
    }
    same(
        &rt,
        (row.end, row.missing),
        (Ok(ModelEnd::Committed), Some(0)),
    );
    same(&rt, row.values, [Some(50), Some(80), Some(300)]);
    Ok(())
}

/// Runs one transaction that adds.
fn atomic_add_row(alloc: Global) -> Result<Row, OpenFault> {
    let mut core = opened(alloc, &THREE, ROOM)?;
    let only = part(alloc, 7, &[Act::Add(Ob(1), 5)]);
    let end = atomic(&mut core, &only, 2);
    let lines = "initiate 7: ok\nbegin 7: ok\nadd 7 1 5: ok\ncomplete 7: ok\ncommit 7: committed\n";
    Ok(row_of(alloc, core, end, lines, [7, 8, 9]))
}

#[test]
fn one_transaction_adds(rt: HostRuntime) -> Result<(), Fail> {
    let alloc: Global = rt.alloc();
    let mut row = atomic_add_row(alloc)?;
    if ran_out(&row) {
        row = atomic_add_row(alloc)?;
    }
    same(
        &rt,
        (row.end, row.missing),
        (Ok(ModelEnd::Committed), Some(0)),
    );
    same(&rt, row.values[0], Some(105));
    Ok(())
}

/// Runs a parent that writes and its child, which adds to what it wrote.
fn nested_add_row(alloc: Global) -> Result<Row, OpenFault> {
    let mut core = opened(alloc, &THREE, ROOM)?;
    let parent = part(alloc, 7, &[Act::Write(Ob(1), 50)]);
    let child = part(alloc, 8, &[Act::Add(Ob(1), 5)]);
    let end = nested(&mut core, &parent, &[child], 2);
    let lines =
        "initiate 7: ok\nbegin 7: ok\nwrite 7 1 50: ok\ninitiate 8 7: ok\npermit 7 8 rwa all: ok\nbegin 8: ok\nadd 8 1 5: ok\ncomplete 8: ok\ndelegate 8 7 all: ok\ncommit 8: committed\ncomplete 7: ok\ncommit 7: committed\n";
    Ok(row_of(alloc, core, end, lines, [7, 8, 9]))
}

#[test]
fn child_adds_to_what_its_parent_wrote(rt: HostRuntime) -> Result<(), Fail> {
    let alloc: Global = rt.alloc();
    let mut row = nested_add_row(alloc)?;
    if ran_out(&row) {
        row = nested_add_row(alloc)?;
    }
    same(
        &rt,
        (row.end, row.missing),
        (Ok(ModelEnd::Committed), Some(0)),
    );
    same(&rt, row.values[0], Some(55));
    Ok(())
}

/// Runs three alternatives, of which the first gives up.
fn contingent_row(alloc: Global) -> Result<Row, OpenFault> {
    let mut core = opened(alloc, &THREE, ROOM)?;
    let first = part(alloc, 7, &[Act::GiveUp]);
    let second = part(alloc, 8, &[Act::Write(Ob(1), 60)]);
    let third = part(alloc, 9, &[Act::Write(Ob(1), 70)]);
    let end = contingent(&mut core, &[first, second, third], 2);
    let lines =
        "initiate 7: ok\nbegin 7: ok\nabort 7: aborted\ninitiate 8: ok\nbegin 8: ok\nwrite 8 1 60: ok\ncomplete 8: ok\ncommit 8: committed\n";
    Ok(row_of(alloc, core, end, lines, [7, 8, 9]))
}

#[test]
fn second_alternative_commits(rt: HostRuntime) -> Result<(), Fail> {
    let alloc: Global = rt.alloc();
    let mut row = contingent_row(alloc)?;
    if ran_out(&row) {
        row = contingent_row(alloc)?;
    }
    same(
        &rt,
        (row.end, row.missing),
        (Ok(ModelEnd::Committed), Some(0)),
    );
    same(&rt, row.values[0], Some(60));
    same(
        &rt,
        row.statuses,
        [Status::Aborted, Status::Committed, Status::Unknown],
    );
    Ok(())
}

/// Runs two parts that commit together, of which the second gives up.
pub(crate) fn run_distributed<A: Asset>(alloc: Global, asset: &mut A) -> Result<ModelEnd, Fault> {
    let first = part(alloc, 7, &[Act::Write(Ob(1), 50)]);
    let second = part(alloc, 8, &[Act::GiveUp]);
    distributed(asset, &[first, second], 2)
}

/// Runs two parts, of which the second gives up, over a facility.
fn distributed_row(alloc: Global) -> Result<Row, OpenFault> {
    let mut core = opened(alloc, &THREE, ROOM)?;
    let end = run_distributed(alloc, &mut core);
    Ok(row_of(alloc, core, end, DISTRIBUTED, [7, 8, 9]))
}

#[test]
fn part_that_gives_up_aborts_all(rt: HostRuntime) -> Result<(), Fail> {
    let alloc: Global = rt.alloc();
    let mut row = distributed_row(alloc)?;
    if ran_out(&row) {
        row = distributed_row(alloc)?;
    }
    same(
        &rt,
        (row.end, row.missing),
        (Ok(ModelEnd::Aborted), Some(0)),
    );
    same(&rt, row.values[0], Some(100));
    same(
        &rt,
        row.statuses,
        [Status::Aborted, Status::Aborted, Status::Unknown],
    );
    Ok(())
}

/// Runs a saga of two pairs, whose second transaction gives up.
fn saga_row(alloc: Global) -> Result<Row, OpenFault> {
    let mut core = opened(alloc, &THREE, ROOM)?;
    let first = part(alloc, 7, &[Act::Write(Ob(1), 50)]);
    let undo_first = part(alloc, 17, &[Act::Write(Ob(1), 100)]);
    let second = part(alloc, 8, &[Act::GiveUp]);
    let undo_second = part(alloc, 18, &[]);
    let pairs = [(first, undo_first), (second, undo_second)];
    let end = saga(&mut core, &pairs, 2);
    Ok(row_of(alloc, core, end, SAGA, [8, 17, 18]))
}

#[test]
fn saga_is_undone(rt: HostRuntime) -> Result<(), Fail> {
    let alloc: Global = rt.alloc();
    let mut row = saga_row(alloc)?;
    if ran_out(&row) {
        row = saga_row(alloc)?;
    }
    same(&rt, (row.end, row.missing), (Ok(ModelEnd::Undone), Some(0)));
    same(&rt, row.values[0], Some(100));
    same(
        &rt,
        row.statuses,
        [Status::Aborted, Status::Committed, Status::Unknown],
    );
    Ok(())
}

/// Splits off what a running transaction wrote to object 1, and then aborts it.
fn split_row(alloc: Global) -> Result<Row, OpenFault> {
    let mut core = opened(alloc, &THREE, ROOM)?;
    let before = "initiate 7: ok\nbegin 7: ok\nwrite 7 1 50: ok\nwrite 7 2 60: ok\n";
    let _played = first_wrong_line(alloc, &mut core, before);
    let end = split(&mut core, Txn(7), Txn(8), listed(&[Ob(1)]), 2);
    let _aborted = first_wrong_line(alloc, &mut core, "abort 7: aborted");
    let lines =
        "initiate 7: ok\nbegin 7: ok\nwrite 7 1 50: ok\nwrite 7 2 60: ok\ninitiate 8: ok\nbegin 8: ok\ndelegate 7 8 1: ok\ncomplete 8: ok\ncommit 8: committed\nabort 7: aborted\n";
    Ok(row_of(alloc, core, end, lines, [7, 8, 9]))
}

#[test]
fn split_write_stands_after_an_abort(rt: HostRuntime) -> Result<(), Fail> {
    let alloc: Global = rt.alloc();
    let mut row = split_row(alloc)?;
    if row.end == Err(Fault::NoMemory) {
        row = split_row(alloc)?;
    }
    same(
        &rt,
        (row.end, row.missing),
        (Ok(ModelEnd::Committed), Some(0)),
    );
    same(&rt, row.values, [Some(50), Some(200), Some(300)]);
    Ok(())
}

/// Joins a running transaction to another, and then aborts that one.
fn join_row(alloc: Global) -> Result<Row, OpenFault> {
    let mut core = opened(alloc, &THREE, ROOM)?;
    let before = "initiate 7: ok\nbegin 7: ok\ninitiate 8: ok\nbegin 8: ok\nwrite 7 1 50: ok\n";
    let _played = first_wrong_line(alloc, &mut core, before);
    let end = join(&mut core, Txn(7), Txn(8), 2);
    let _aborted = first_wrong_line(alloc, &mut core, "abort 8: aborted");
    let lines =
        "initiate 7: ok\nbegin 7: ok\ninitiate 8: ok\nbegin 8: ok\nwrite 7 1 50: ok\ndelegate 7 8 all: ok\ncomplete 7: ok\ncommit 7: committed\nabort 8: aborted\n";
    Ok(row_of(alloc, core, end, lines, [7, 8, 9]))
}

#[test]
fn joined_write_falls_with_its_taker(rt: HostRuntime) -> Result<(), Fail> {
    let alloc: Global = rt.alloc();
    let mut row = join_row(alloc)?;
    if row.end == Err(Fault::NoMemory) {
        row = join_row(alloc)?;
    }
    same(
        &rt,
        (row.end, row.missing),
        (Ok(ModelEnd::Committed), Some(0)),
    );
    same(&rt, row.values[0], Some(100));
    Ok(())
}

/// Runs two transactions that write object 1 in turn.
pub(crate) fn run_cooperating<A: Asset>(alloc: Global, asset: &mut A) -> Result<ModelEnd, Fault> {
    let first = part(alloc, 7, &[Act::Write(Ob(1), 50), Act::Read(Ob(1))]);
    let second = part(alloc, 8, &[Act::Write(Ob(1), 60)]);
    cooperating(asset, &first, &second, listed(&[Ob(1)]), 2)
}

/// Runs two transactions that write object 1 in turn over a facility.
fn cooperating_row(alloc: Global) -> Result<Row, OpenFault> {
    let mut core = opened(alloc, &THREE, ROOM)?;
    let end = run_cooperating(alloc, &mut core);
    Ok(row_of(alloc, core, end, COOPERATING, [7, 8, 9]))
}

#[test]
fn one_reads_what_the_other_wrote(rt: HostRuntime) -> Result<(), Fail> {
    let alloc: Global = rt.alloc();
    let mut row = cooperating_row(alloc)?;
    if ran_out(&row) {
        row = cooperating_row(alloc)?;
    }
    same(
        &rt,
        (row.end, row.missing),
        (Ok(ModelEnd::Committed), Some(0)),
    );
    same(&rt, row.values[0], Some(60));
    same(
        &rt,
        row.statuses,
        [Status::Committed, Status::Committed, Status::Unknown],
    );
    Ok(())
}

/// Runs a part whose write waits for another transaction, and returns also how often the write was asked.
fn waiting_row(alloc: Global) -> Result<(Row, u32), OpenFault> {
    let mut core = opened(alloc, &THREE, ROOM)?;
    let before = "initiate 6: ok\nbegin 6: ok\nwrite 6 1 5: ok\n";
    let _played = first_wrong_line(alloc, &mut core, before);
    let waits = part(alloc, 7, &[Act::Write(Ob(1), 9)]);
    let mut counting = Counting::new(core);
    let end = atomic(&mut counting, &waits, 2);
    let Counting {
        core,
        asks,
        answers: _,
        last: _,
    } = counting;
    let lines = "initiate 6: ok\nbegin 6: ok\nwrite 6 1 5: ok\ninitiate 7: ok\nbegin 7: ok\n";
    Ok((row_of(alloc, core, end, lines, [6, 7, 8]), asks))
}

#[test]
fn write_that_waits_is_asked_three_times(rt: HostRuntime) -> Result<(), Fail> {
    let alloc: Global = rt.alloc();
    let (mut row, mut asks) = waiting_row(alloc)?;
    if row.end == Err(Fault::NoMemory) {
        (row, asks) = waiting_row(alloc)?;
    }
    let stopped = Ok(ModelEnd::Stopped(write(7, 1, 9)));
    same(&rt, (row.end, row.missing), (stopped, Some(0)));
    // The initiate and the begin are asked once each.
    same(&rt, asks, 5);
    same(&rt, row.statuses[1], Status::Running);
    Ok(())
}

/// Runs a part twice, and returns how it ended the first time, and what the second left.
fn again_row(alloc: Global) -> Result<(Result<ModelEnd, Fault>, Row), OpenFault> {
    let mut core = opened(alloc, &THREE, ROOM)?;
    let once = part(alloc, 7, &[Act::Write(Ob(1), 50)]);
    let first = atomic(&mut core, &once, 2);
    let end = atomic(&mut core, &once, 2);
    let lines =
        "initiate 7: ok\nbegin 7: ok\nwrite 7 1 50: ok\ncomplete 7: ok\ncommit 7: committed\ninitiate 7: refused taken 7\n";
    Ok((first, row_of(alloc, core, end, lines, [7, 8, 9])))
}

#[test]
fn name_that_was_used_is_refused(rt: HostRuntime) -> Result<(), Fail> {
    let alloc: Global = rt.alloc();
    let (mut first, mut row) = again_row(alloc)?;
    if first == Err(Fault::NoMemory) {
        (first, row) = again_row(alloc)?;
    }
    same(&rt, first, Ok(ModelEnd::Committed));
    same(
        &rt,
        (row.end, row.missing),
        (Ok(ModelEnd::Refused(initiate(7))), Some(0)),
    );
    Ok(())
}
