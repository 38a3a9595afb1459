//! Whole scripts with dependencies, with the text that answers each and how its run ends.
use crate::memory::{expect, expect_with_room};
use asset_scripts::RunEnd;
use std::test::Fail;

/// An abort takes its abort dependents, and their classes.
#[test]
fn abort_spreads(rt: HostRuntime) -> Result<(), Fail> {
    let script =
        b"object 1 100\nobject 2 200\nobject 3 300\ninitiate 7\nbegin 7\ninitiate 8\nbegin 8\n\
        initiate 9\nbegin 9\ndepend ad 7 8\ndepend gc 8 9\nabort 7\ncommit 9\ncommit 8\nbegin 9\n";
    let text = "ok\nok\nok\nok\nok\nok\nok\nok\naborted\naborted\naborted\nrefused ended 9\n";
    expect(&rt, script, text, RunEnd::Finished)
}

/// A commit waits for its source, and any end of the source will do.
#[test]
fn commit_dependency(rt: HostRuntime) -> Result<(), Fail> {
    let script =
        b"object 1 100\nobject 2 200\nobject 3 300\ninitiate 7\nbegin 7\ninitiate 8\nbegin 8\n\
        depend cd 7 8\ncomplete 8\ncommit 8\nabort 7\ncommit 8\n";
    let text = "ok\nok\nok\nok\nok\nok\nwait\naborted\ncommitted\n";
    expect(&rt, script, text, RunEnd::Finished)
}

/// A class commits at once, when all its members have completed.
#[test]
fn group_commit(rt: HostRuntime) -> Result<(), Fail> {
    let script =
        b"object 1 100\nobject 2 200\nobject 3 300\ninitiate 7\nbegin 7\ninitiate 8\nbegin 8\n\
        depend gc 7 8\ncommit 7\ncomplete 7\ncommit 7\ncomplete 8\ncommit 7\ncommit 8\nabort 8\n\
        wait 8\n";
    let text = "ok\nok\nok\nok\nok\nwait\nok\nwait\nok\ncommitted\ncommitted\n\
        refused too late 8\ncommitted\n";
    expect(&rt, script, text, RunEnd::Finished)
}

/// A dependency that would close a cycle is refused, and one that stands is done again.
#[test]
fn dependency_cycles(rt: HostRuntime) -> Result<(), Fail> {
    let script =
        b"object 1 100\nobject 2 200\nobject 3 300\ninitiate 7\nbegin 7\ninitiate 8\nbegin 8\n\
        depend cd 7 8\ndepend gc 7 8\ndepend ad 8 7\ndepend cd 7 7\ndepend cd 7 8\n";
    let text = "ok\nok\nok\nok\nok\nrefused cycle\nrefused cycle\nrefused same\nok\n";
    expect(&rt, script, text, RunEnd::Finished)
}

/// Which refusal of a dependency comes first. One that is refused ties nobody.
#[test]
fn dependencies_are_refused_in_order(rt: HostRuntime) -> Result<(), Fail> {
    let script = b"initiate 7\nbegin 7\ndepend cd 5 5\ndepend cd 5 4\ndepend ad 7 5\n\
        depend gc 5 7\ninitiate 8\ninitiate 9\nabort 8\ndepend cd 8 5\ndepend cd 5 8\n\
        depend cd 8 8\ndepend ad 8 7\ndepend ad 7 8\nbegin 9\ncomplete 9\ncommit 9\n\
        depend gc 8 9\ndepend gc 9 8\ninitiate 6\ndepend cd 7 6\ndepend ad 6 7\ndepend gc 6 6\n\
        abort 6\nwait 7\ndepend ad 6 7\n";
    let text = "ok\nok\nrefused same\nrefused unknown 5\nrefused unknown 5\n\
        refused unknown 5\nok\nok\naborted\nrefused unknown 5\nrefused unknown 5\n\
        refused same\nrefused ended 8\nrefused ended 8\nok\nok\ncommitted\n\
        refused ended 8\nrefused ended 9\nok\nok\nrefused cycle\nrefused same\n\
        aborted\nwait\nrefused ended 6\n";
    expect(&rt, script, text, RunEnd::Finished)
}

/// A cycle may lead through a class. An abort of a source takes the whole class.
#[test]
fn cycle_through_a_class(rt: HostRuntime) -> Result<(), Fail> {
    let script = b"initiate 7\nbegin 7\ninitiate 8\nbegin 8\ninitiate 9\nbegin 9\n\
        depend gc 8 9\ndepend cd 8 9\ndepend ad 7 8\ndepend cd 9 7\ndepend gc 7 9\n\
        depend gc 9 8\nabort 7\nwait 9\n";
    let text = "ok\nok\nok\nok\nok\nok\n\
        ok\nrefused cycle\nok\nrefused cycle\nrefused cycle\nok\naborted\naborted\n";
    expect(&rt, script, text, RunEnd::Finished)
}

/// Once its source has ended, a dependency is part of no cycle.
#[test]
fn ended_source_closes_no_cycle(rt: HostRuntime) -> Result<(), Fail> {
    let script = b"initiate 7\nbegin 7\ninitiate 8\ninitiate 9\ndepend cd 7 8\ndepend ad 9 7\n\
        depend cd 8 9\ncomplete 7\nabort 7\ndepend cd 8 9\ndepend cd 9 8\n";
    let text = "ok\nok\nok\nok\nok\nok\nrefused cycle\nok\naborted\nok\nrefused cycle\n";
    expect(&rt, script, text, RunEnd::Finished)
}

/// A member waits for a source of another member.
#[test]
fn class_waits_for_a_source(rt: HostRuntime) -> Result<(), Fail> {
    let script = b"initiate 7\nbegin 7\ninitiate 8\nbegin 8\ninitiate 9\nbegin 9\n\
        depend gc 8 9\ndepend ad 7 8\ncomplete 8\ncomplete 9\ncommit 9\ncomplete 7\ncommit 7\n\
        commit 9\nwait 8\n";
    let text =
        "ok\nok\nok\nok\nok\nok\nok\nok\nok\nok\nwait\nok\ncommitted\ncommitted\ncommitted\n";
    expect(&rt, script, text, RunEnd::Finished)
}

/// A class that commits lets go of what all its members hold.
#[test]
fn class_lets_go_together(rt: HostRuntime) -> Result<(), Fail> {
    let script = b"object 1 100\nobject 2 200\ninitiate 7\nbegin 7\ninitiate 8\nbegin 8\n\
        initiate 9\nbegin 9\nwrite 7 1 50\nwrite 8 2 80\ndepend gc 7 8\ncomplete 7\ncommit 7\n\
        read 9 1\ncomplete 8\ncommit 7\nread 9 1\nread 9 2\n";
    let text = "ok\nok\nok\nok\nok\nok\nok\nok\nok\nok\nwait\nwait\nok\ncommitted\n50\n80\n";
    expect(&rt, script, text, RunEnd::Finished)
}

/// An abort takes back what its dependents wrote, and leaves what their sources wrote.
#[test]
fn writes_fall_with_their_source(rt: HostRuntime) -> Result<(), Fail> {
    let script = b"object 1 100\nobject 2 200\nobject 3 300\ninitiate 7\nbegin 7\n\
        initiate 8\nbegin 8\ninitiate 9\nbegin 9\nwrite 7 1 50\nwrite 8 2 80\nwrite 9 3 90\n\
        depend ad 7 8\ndepend ad 8 9\nabort 8\nread 7 1\nread 7 2\nread 7 3\nwait 9\n";
    let text = "ok\nok\nok\nok\nok\nok\nok\nok\nok\nok\nok\naborted\n50\n200\n300\naborted\n";
    expect(&rt, script, text, RunEnd::Finished)
}

/// A write over another's falls with it by an abort dependency, and stands by a commit dependency.
#[test]
fn write_over_another_by_kind(rt: HostRuntime) -> Result<(), Fail> {
    for (script, text) in [
        (
            &b"object 1 100\ninitiate 7\nbegin 7\ninitiate 8\nbegin 8\nwrite 7 1 50\n\
            permit 7 8 rw 1\nwrite 8 1 60\ndepend ad 7 8\nabort 7\ninitiate 9\nbegin 9\nread 9 1\n"[..],
            "ok\nok\nok\nok\nok\nok\nok\nok\naborted\nok\nok\n100\n",
        ),
        (
            &b"object 1 100\ninitiate 7\nbegin 7\ninitiate 8\nbegin 8\nwrite 7 1 50\n\
            permit 7 8 rw 1\nwrite 8 1 60\ndepend cd 7 8\nabort 7\ninitiate 9\nbegin 9\nread 9 1\n"[..],
            "ok\nok\nok\nok\nok\nok\nok\nok\naborted\nok\nok\nwait\n",
        ),
    ] {
        expect(&rt, script, text, RunEnd::Finished)?;
    }
    Ok(())
}

/// Five transactions with fourteen entries are owed ten more. One commit ends all five, and leaves room for four.
#[test]
fn class_commits_at_the_capacity(rt: HostRuntime) -> Result<(), Fail> {
    let script = b"initiate 1\ninitiate 2\ninitiate 3\ninitiate 4\ninitiate 5\n\
        begin 1\nbegin 2\nbegin 3\nbegin 4\nbegin 5\n\
        depend gc 1 2\ndepend gc 2 3\ndepend gc 3 4\ndepend gc 4 5\ndepend gc 5 1\n\
        depend cd 5 1\ncommit 3\n\
        complete 1\ncomplete 2\ncomplete 3\ncomplete 4\nwait 5\ncommit 3\ncomplete 5\nwait 5\n\
        commit 3\ncommit 1\ncommit 2\nwait 4\nwait 5\nwait 1\n";
    let text = "ok\nok\nok\nok\nok\n\
        ok\nok\nok\nok\nok\n\
        ok\nok\nok\nok\nfull\n\
        full\nwait\n\
        ok\nok\nok\nok\nwait\nwait\nok\nfull\n\
        committed\ncommitted\ncommitted\ncommitted\ncommitted\nfull\n";
    expect_with_room(&rt, script, 24, text, RunEnd::Finished)
}

/// With room for one entry less, the last of the five does not join, and ends by itself.
#[test]
fn dependency_finds_no_room(rt: HostRuntime) -> Result<(), Fail> {
    let script = b"initiate 1\ninitiate 2\ninitiate 3\ninitiate 4\ninitiate 5\n\
        begin 1\nbegin 2\nbegin 3\nbegin 4\nbegin 5\n\
        depend gc 1 2\ndepend gc 2 3\ndepend gc 3 4\ndepend gc 4 5\n\
        complete 1\ncomplete 2\ncomplete 3\ncomplete 4\ncommit 3\nwait 5\nabort 5\nwait 4\n";
    let text = "ok\nok\nok\nok\nok\n\
        ok\nok\nok\nok\nok\n\
        ok\nok\nok\nfull\n\
        ok\nok\nok\nok\ncommitted\nwait\naborted\ncommitted\n";
    expect_with_room(&rt, script, 23, text, RunEnd::Finished)
}

/// Three transactions with five entries are owed six more. The abort of the first ends them all.
#[test]
fn abort_spreads_at_the_capacity(rt: HostRuntime) -> Result<(), Fail> {
    let script = b"initiate 1\ninitiate 2\ninitiate 3\ndepend ad 1 2\ndepend ad 2 3\nbegin 1\n\
        abort 1\ninitiate 4\nbegin 2\nbegin 3\nwait 3\nabort 4\nwait 3\nwait 3\n";
    let text = "ok\nok\nok\nok\nok\nfull\n\
        aborted\nok\nrefused ended 2\nrefused ended 3\nfull\naborted\naborted\nfull\n";
    expect_with_room(&rt, script, 11, text, RunEnd::Finished)
}
