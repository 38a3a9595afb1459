//! Reports on what a script leaves: the pruned script, the groups, the sources, and those who committed, one after another.
use crate::memory::{Call, expect, expect_report, expect_report_at_once};
use asset_scripts::RunEnd;
use std::test::Fail;

/// A refused permit joins 7, which commits, with 9, which aborted.
const REFUSED_PERMIT: &[u8] =
    b"object 1 100\nobject 2 200\nobject 3 300\ninitiate 7\nbegin 7\ninitiate 9\nbegin 9\nabort 9\n\
    permit 7 9 r 1\ncomplete 7\ncommit 7\n";

/// Three transactions that share nothing: 7 aborts, 8 does not end, and 9 commits.
const THREE_GROUPS: &[u8] =
    b"object 1 100\nobject 2 200\nobject 3 300\ninitiate 7\nbegin 7\ninitiate 8\nbegin 8\ninitiate 9\n\
    begin 9\nwrite 7 1 11\nwrite 8 2 22\nread 9 3\nwrite 9 3 33\nabort 7\nread 9 1\ncomplete 9\ncommit 9\n";

/// What is left of them.
const NINE_ALONE: &str =
    "object 1 100\nobject 2 200\nobject 3 300\ninitiate 9\nbegin 9\nread 9 3\nwrite 9 3 33\nread 9 1\n\
    complete 9\ncommit 9\n";

/// A parent, which does not end, and its child, which commits.
const PARENT: &[u8] = b"initiate 7\nbegin 7\ninitiate 8 7\nbegin 8\ncomplete 8\ncommit 8\n";

/// What is left of them.
const CHILD_ALONE: &str = "initiate 8 7\nbegin 8\ncomplete 8\ncommit 8\n";

/// Three transactions that fall together.
const NOBODY: &[u8] =
    b"object 1 100\nobject 2 200\nobject 3 300\ninitiate 7\nbegin 7\ninitiate 8\nbegin 8\ninitiate 9\n\
    begin 9\ndepend ad 7 8\ndepend gc 8 9\nabort 7\ncommit 9\ncommit 8\nbegin 9\n";

/// The objects of these scripts.
const OBJECTS: &str = "object 1 100\nobject 2 200\nobject 3 300\n";

/// A write that is handed over before its transaction aborts.
const DELEGATED: &[u8] =
    b"object 1 100\nobject 2 200\nobject 3 300\ninitiate 7\nbegin 7\ninitiate 8\nbegin 8\ninitiate 9\n\
    begin 9\nwrite 7 1 50\ndelegate 7 8 1\nabort 7\nread 9 1\ncomplete 8\ncommit 8\nread 9 1\n";

#[test]
fn refused_permit_joins(rt: HostRuntime) -> Result<(), Fail> {
    let whole = str::from_utf8(REFUSED_PERMIT)?;
    expect_report(
        &rt,
        Call::Groups,
        REFUSED_PERMIT,
        "0 committed 7 9\n",
        RunEnd::Finished,
    )?;
    expect_report(&rt, Call::Prune, REFUSED_PERMIT, whole, RunEnd::Finished)?;
    expect_report(
        &rt,
        Call::Serial,
        REFUSED_PERMIT,
        "shared\n",
        RunEnd::Shared,
    )
}

#[test]
fn dead_groups_deleted(rt: HostRuntime) -> Result<(), Fail> {
    let groups = "0 dead 7\n1 dead 8\n2 committed 9\n";
    expect_report(&rt, Call::Groups, THREE_GROUPS, groups, RunEnd::Finished)?;
    let sources = "8 read 9 3 300 opening\n11 read 9 1 100 opening\n";
    expect_report(&rt, Call::Sources, THREE_GROUPS, sources, RunEnd::Finished)?;
    expect_report(&rt, Call::Prune, THREE_GROUPS, NINE_ALONE, RunEnd::Finished)?;
    expect_report(
        &rt,
        Call::Serial,
        THREE_GROUPS,
        NINE_ALONE,
        RunEnd::Finished,
    )
}

/// The pruned script gets the replies that 9 had among the others.
#[test]
fn pruned_runs_alike(rt: HostRuntime) -> Result<(), Fail> {
    let among = "ok\nok\nok\nok\nok\nok\nok\nok\n300\nok\naborted\n100\nok\ncommitted\n";
    expect(&rt, THREE_GROUPS, among, RunEnd::Finished)?;
    let alone = "ok\nok\n300\nok\n100\nok\ncommitted\n";
    expect(&rt, NINE_ALONE.as_bytes(), alone, RunEnd::Finished)
}

#[test]
fn parent_joins_nobody(rt: HostRuntime) -> Result<(), Fail> {
    let groups = "0 dead 7\n1 committed 8\n";
    expect_report(&rt, Call::Groups, PARENT, groups, RunEnd::Finished)?;
    expect_report(&rt, Call::Prune, PARENT, CHILD_ALONE, RunEnd::Finished)?;
    expect_report(&rt, Call::Serial, PARENT, CHILD_ALONE, RunEnd::Finished)
}

#[test]
fn nobody_committed(rt: HostRuntime) -> Result<(), Fail> {
    expect_report(
        &rt,
        Call::Groups,
        NOBODY,
        "0 dead 7 8 9\n",
        RunEnd::Finished,
    )?;
    expect_report(&rt, Call::Prune, NOBODY, OBJECTS, RunEnd::Finished)?;
    expect_report(&rt, Call::Serial, NOBODY, OBJECTS, RunEnd::Finished)
}

#[test]
fn delegated_write(rt: HostRuntime) -> Result<(), Fail> {
    let groups = "0 committed 7 8\n1 dead 9\n";
    expect_report(&rt, Call::Groups, DELEGATED, groups, RunEnd::Finished)?;
    let sources = "11 read 9 1 50 entry 6\n";
    expect_report(&rt, Call::Sources, DELEGATED, sources, RunEnd::Finished)?;
    expect_report(&rt, Call::Serial, DELEGATED, "shared\n", RunEnd::Shared)
}

#[test]
fn empty_script(rt: HostRuntime) -> Result<(), Fail> {
    for call in [Call::Groups, Call::Prune, Call::Sources, Call::Serial] {
        expect_report(&rt, call, b"", "", RunEnd::Finished)?;
    }
    Ok(())
}

/// A bad line is all that is printed, wherever it stands.
#[test]
fn bad_line_alone(rt: HostRuntime) -> Result<(), Fail> {
    for call in [Call::Groups, Call::Prune, Call::Sources, Call::Serial] {
        let (first, later) = ("line 1: bad command\n", "line 3: bad command\n");
        expect_report(&rt, call, b"begin\n", first, RunEnd::BadLine(1))?;
        let steps = b"object 1 100\ninitiate 7\nobject 2 200\nbegin 7\n";
        expect_report(&rt, call, steps, later, RunEnd::BadLine(3))?;
        let twice = b"object 1 100\n#\nobject 1 200\n";
        expect_report(&rt, call, twice, later, RunEnd::BadLine(3))?;
    }
    Ok(())
}

/// Each kind of step but an add and an open permit is printed as it was read, but for the order within a set.
#[test]
fn each_step_is_printed(rt: HostRuntime) -> Result<(), Fail> {
    let head = "object 1 -5\nobject 2 0\ninitiate 7\ninitiate 8 7\nbegin 7\nbegin 8\n";
    let tail =
        "permit 7 8 rw all\ndelegate 8 7 all\ndepend cd 7 8\ndepend ad 7 8\ncomplete 7\nwait 7\ncommit 7\nabort 8\n";
    let mut script = String::from_str(rt.alloc(), head)?;
    script.push_str("read 7 1\nwrite 8 2 -9\n\n# a comment\npermit 8 7 r 2,1\n")?;
    script.push_str(tail)?;
    let mut left = String::from_str(rt.alloc(), head)?;
    left.push_str("read 7 1\nwrite 8 2 -9\npermit 8 7 r 1,2\n")?;
    left.push_str(tail)?;
    expect_report(
        &rt,
        Call::Prune,
        script.as_bytes(),
        left.as_str(),
        RunEnd::Finished,
    )
}

/// Two interleaved transactions: the first to commit comes first. 8 waits, is refused something, and goes on asking once it
/// has committed; 9 aborts, and 6 still holds an object.
const INTERLEAVED: &[u8] =
    b"object 1 100\nobject 2 200\nobject 3 300\ninitiate 7\nbegin 7\ninitiate 8\nbegin 8\ninitiate 9\n\
    begin 9\ninitiate 6\nbegin 6\nwrite 6 3 66\nwrite 7 2 70\nread 8 1\nread 8 2\nwrite 9 1 90\nwrite 8 1 80\nread 8 5\n\
    abort 9\ncomplete 8\ncommit 8\nread 7 1\ncommit 8\nread 8 1\ncomplete 7\ncommit 7\n";

#[test]
fn interleaved_transactions_run_one_after_another(rt: HostRuntime) -> Result<(), Fail> {
    let among =
        "ok\nok\nok\nok\nok\nok\nok\nok\nok\nok\n100\nwait\nwait\nok\nrefused no object 5\naborted\nok\n\
        committed\n80\ncommitted\nrefused ended 8\nok\ncommitted\n";
    expect(&rt, INTERLEAVED, among, RunEnd::Finished)?;
    let serial =
        "object 1 100\nobject 2 200\nobject 3 300\ninitiate 8\nbegin 8\nread 8 1\nwrite 8 1 80\nread 8 5\n\
        complete 8\ncommit 8\ncommit 8\nread 8 1\ninitiate 7\nbegin 7\nwrite 7 2 70\nread 7 1\ncomplete 7\ncommit 7\n";
    expect_report(&rt, Call::Serial, INTERLEAVED, serial, RunEnd::Finished)?;
    let alone =
        "ok\nok\n100\nok\nrefused no object 5\nok\ncommitted\ncommitted\nrefused ended 8\nok\nok\nok\n80\nok\n\
        committed\n";
    expect(&rt, serial.as_bytes(), alone, RunEnd::Finished)
}

/// How many transactions a long script has.
const MANY: u64 = 1_500;

/// Appends the lines of a transaction that commits.
fn push_whole(text: &mut String, t: u64) -> Result<(), Fail> {
    writeln!(text, "initiate {t}\nbegin {t}\ncomplete {t}\ncommit {t}")?;
    Ok(())
}

/// Appends a script of many transactions, of which every third commits, with its groups and what is left of it.
fn push_thirds(script: &mut String, groups: &mut String, left: &mut String) -> Result<(), Fail> {
    for t in 0..MANY {
        if t % 3 == 0 {
            push_whole(script, t)?;
            push_whole(left, t)?;
            writeln!(groups, "{t} committed {t}")?;
        } else {
            writeln!(script, "initiate {t}\nbegin {t}\ncomplete {t}")?;
            writeln!(groups, "{t} dead {t}")?;
        }
    }
    Ok(())
}

#[test]
fn many_groups(rt: HostRuntime) -> Result<(), Fail> {
    let mut script = String::new(rt.alloc());
    let mut groups = String::new(rt.alloc());
    let mut left = String::new(rt.alloc());
    push_thirds(&mut script, &mut groups, &mut left)?;
    for (call, text) in [
        (Call::Groups, groups.as_str()),
        (Call::Prune, left.as_str()),
        (Call::Serial, left.as_str()),
    ] {
        expect_report_at_once(&rt, call, script.as_bytes(), text)?;
    }
    Ok(())
}

/// Appends a script of transactions that each read the opening value of an object, write over it, and read their own write, with
/// the sources of what they read.
fn push_readers(script: &mut String, sources: &mut String) -> Result<(), Fail> {
    for x in 0..MANY {
        writeln!(script, "object {x} -1{x}")?;
    }
    for t in 0..MANY {
        writeln!(script, "initiate {t}\nbegin {t}\nread {t} {t}")?;
        writeln!(script, "write {t} {t} 5\nread {t} {t}")?;
        let first = t * 5;
        writeln!(sources, "{} read {t} {t} -1{t} opening", first + 2)?;
        writeln!(sources, "{} read {t} {t} 5 entry {}", first + 4, first + 3)?;
    }
    Ok(())
}

#[test]
fn many_sources(rt: HostRuntime) -> Result<(), Fail> {
    let mut script = String::new(rt.alloc());
    let mut sources = String::new(rt.alloc());
    push_readers(&mut script, &mut sources)?;
    expect_report_at_once(&rt, Call::Sources, script.as_bytes(), sources.as_str())
}

/// Appends a script of transactions that are joined from the last to the first, of which the last commits, with their names.
fn push_chain(script: &mut String, names: &mut String) -> Result<(), Fail> {
    names.push_str("0 committed")?;
    for t in 0..MANY {
        writeln!(script, "initiate {t}")?;
        write!(names, " {t}")?;
    }
    for k in 1..MANY {
        writeln!(script, "depend cd {} {}", MANY - k, MANY - k - 1)?;
    }
    script.push_str("begin 1499\ncomplete 1499\ncommit 1499\n")?;
    names.push_str("\n")?;
    Ok(())
}

/// Transactions that are joined from the last to the first make one group.
#[test]
fn one_group_of_many(rt: HostRuntime) -> Result<(), Fail> {
    let mut script = String::new(rt.alloc());
    let mut names = String::new(rt.alloc());
    push_chain(&mut script, &mut names)?;
    expect_report_at_once(&rt, Call::Groups, script.as_bytes(), names.as_str())?;
    expect_report_at_once(&rt, Call::Prune, script.as_bytes(), script.as_str())
}
