//! Worked scripts. Their reports were worked out by hand.
use crate::reports::expect_report;
use asset_scripts::RunEnd;
use asset_test_tools::DEADLOCK;
use std::test::Fail;

/// What `asset waits` prints of `DEADLOCK`, as the file `deadlock.waits` has it.
const DEADLOCK_WAITS: &str = "\
7 running
7 waits to read 2: 8 holds it by write
8 running
8 waits to read 1: 7 holds it by write
9 running
9 waits to write 1: 7 holds it by write
10 completed
commit 10 waits: 9 is its source and lives
deadlock 7 8
";

#[test]
fn example_is_reported(rt: HostRuntime) -> Result<(), Fail> {
    expect_report(&rt, DEADLOCK, DEADLOCK_WAITS, RunEnd::Finished)
}

#[test]
fn each_status_has_its_word(rt: HostRuntime) -> Result<(), Fail> {
    let script = "initiate 9\ninitiate 7\ninitiate 8\nbegin 8\nbegin 7\ncomplete 7\n";
    expect_report(
        &rt,
        script,
        "9 initiated\n7 completed\n8 running\n",
        RunEnd::Finished,
    )
}

#[test]
fn who_has_ended_is_not_reported(rt: HostRuntime) -> Result<(), Fail> {
    let script = "initiate 7\nbegin 7\ncomplete 7\ncommit 7\ninitiate 8\nabort 8\n";
    expect_report(&rt, script, "", RunEnd::Finished)?;
    expect_report(&rt, "object 1 100\n", "", RunEnd::Finished)?;
    expect_report(&rt, "", "", RunEnd::Finished)
}

/// 7 holds the object by a read, 8 by both; 9 would write it.
#[test]
fn holders_are_named_with_their_operations(rt: HostRuntime) -> Result<(), Fail> {
    let script = "\
        object 1 100\n\
        initiate 7\nbegin 7\ninitiate 8\nbegin 8\ninitiate 9\nbegin 9\n\
        read 8 1\nwrite 8 1 5\npermit 8 7 r 1\nread 7 1\nwrite 9 1 6\n";
    let text = "\
        7 running\n8 running\n9 running\n\
        9 waits to write 1: 7 holds it by read\n\
        9 waits to write 1: 8 holds it by read and write\n";
    expect_report(&rt, script, text, RunEnd::Finished)
}

/// A read is kept from the object by those alone who hold it by a write.
#[test]
fn reads_wait_for_writes_alone(rt: HostRuntime) -> Result<(), Fail> {
    let script = "\
        object 1 100\n\
        initiate 7\nbegin 7\ninitiate 8\nbegin 8\ninitiate 9\nbegin 9\n\
        read 8 1\nwrite 8 1 5\npermit 8 7 r 1\nread 7 1\nread 9 1\n";
    let text = "\
        7 running\n8 running\n9 running\n\
        9 waits to read 1: 8 holds it by write\n";
    expect_report(&rt, script, text, RunEnd::Finished)
}

/// A read waits for those who add; an add waits for who writes, and for nobody who adds.
#[test]
fn adds_are_named_as_such(rt: HostRuntime) -> Result<(), Fail> {
    let script = "\
        object 1 100\nobject 2 200\n\
        initiate 7\nbegin 7\ninitiate 8\nbegin 8\ninitiate 9\nbegin 9\ninitiate 10\nbegin 10\n\
        add 7 1 5\nadd 9 1 6\nread 8 1\nwrite 9 2 7\nadd 9 2 1\nadd 10 2 3\n";
    let text = "\
        7 running\n8 running\n\
        8 waits to read 1: 7 holds it by add\n\
        8 waits to read 1: 9 holds it by add\n\
        9 running\n10 running\n\
        10 waits to add to 2: 9 holds it by write\n";
    expect_report(&rt, script, text, RunEnd::Finished)
}

/// 8 holds the object by all three operations; 9 would write it, and 7 would read it.
#[test]
fn three_operations_are_named(rt: HostRuntime) -> Result<(), Fail> {
    let script = "\
        object 1 100\n\
        initiate 7\nbegin 7\ninitiate 8\nbegin 8\ninitiate 9\nbegin 9\n\
        read 8 1\nwrite 8 1 5\nadd 8 1 6\nread 7 1\nwrite 9 1 6\n";
    let text = "\
        7 running\n\
        7 waits to read 1: 8 holds it by write and add\n\
        8 running\n9 running\n\
        9 waits to write 1: 8 holds it by read, write and add\n";
    expect_report(&rt, script, text, RunEnd::Finished)
}

/// Neither 8 nor 9 keeps 9: 8 permits it, and 9 holds the object itself.
#[test]
fn own_locks_and_permits_keep_nobody(rt: HostRuntime) -> Result<(), Fail> {
    let script = "\
        object 1 100\nobject 2 200\n\
        initiate 7\nbegin 7\ninitiate 8\nbegin 8\ninitiate 9\nbegin 9\n\
        read 9 1\nread 8 1\nread 7 1\npermit 8 9 rw 1\nwrite 9 1 5\n";
    let text = "\
        7 running\n8 running\n9 running\n\
        9 waits to write 1: 7 holds it by read\n";
    expect_report(&rt, script, text, RunEnd::Finished)
}

/// The holder has aborted, and the waiter has not asked again.
#[test]
fn request_may_wait_for_nobody_any_more(rt: HostRuntime) -> Result<(), Fail> {
    let script = "\
        object 1 100\n\
        initiate 7\nbegin 7\ninitiate 8\nbegin 8\nwrite 7 1 5\nread 8 1\nabort 7\n";
    let text = "8 running\n8 waits to read 1: nobody keeps it from that any more\n";
    expect_report(&rt, script, text, RunEnd::Finished)
}

/// A member of its class has not completed, and a source of that member, outside the class, lives.
#[test]
fn commits_wait_for_members_and_for_sources(rt: HostRuntime) -> Result<(), Fail> {
    let script = "\
        initiate 7\nbegin 7\ninitiate 8\nbegin 8\ninitiate 9\nbegin 9\ninitiate 10\nbegin 10\n\
        depend gc 7 8\ndepend ad 9 8\ndepend cd 10 7\ncomplete 7\n";
    let text = "\
        7 completed\n\
        commit 7 waits: 8 has not completed\n\
        commit 7 waits: 9 is its source and lives\n\
        commit 7 waits: 10 is its source and lives\n\
        8 running\n9 running\n10 running\n";
    expect_report(&rt, script, text, RunEnd::Finished)
}

/// 7 may not commit before 8 has ended, and 8 waits for what 7 wrote.
#[test]
fn commits_and_requests_make_one_cycle(rt: HostRuntime) -> Result<(), Fail> {
    let script = "\
        object 1 100\n\
        initiate 8\nbegin 8\ninitiate 7\nbegin 7\nwrite 7 1 5\nread 8 1\ndepend cd 8 7\ncomplete 7\n";
    let text = "\
        8 running\n\
        8 waits to read 1: 7 holds it by write\n\
        7 completed\n\
        commit 7 waits: 8 is its source and lives\n\
        deadlock 8 7\n";
    expect_report(&rt, script, text, RunEnd::Finished)
}

/// Two cycles, and 9, which waits for the first.
#[test]
fn each_cycle_has_a_line(rt: HostRuntime) -> Result<(), Fail> {
    let script = "\
        object 1 0\nobject 2 0\nobject 3 0\nobject 4 0\nobject 5 0\n\
        initiate 5\nbegin 5\ninitiate 6\nbegin 6\ninitiate 7\nbegin 7\ninitiate 8\nbegin 8\ninitiate 9\nbegin 9\n\
        write 5 1 1\nwrite 6 2 1\nwrite 7 3 1\nwrite 8 4 1\nread 9 4\n\
        write 5 2 2\nwrite 6 1 2\nwrite 7 4 2\npermit 7 9 r 3\nread 9 3\nread 8 3\nwrite 9 1 3\n";
    let text = "\
        5 running\n5 waits to write 2: 6 holds it by write\n\
        6 running\n6 waits to write 1: 5 holds it by write\n\
        7 running\n7 waits to write 4: 8 holds it by write\n\
        8 running\n8 waits to read 3: 7 holds it by write\n\
        9 running\n9 waits to write 1: 5 holds it by write\n\
        deadlock 5 6\n\
        deadlock 7 8\n";
    expect_report(&rt, script, text, RunEnd::Finished)
}

#[test]
fn bad_line_is_all_that_is_reported(rt: HostRuntime) -> Result<(), Fail> {
    expect_report(
        &rt,
        "initiate 7\nbegin\nbegin 7\n",
        "line 2: bad command\n",
        RunEnd::BadLine(2),
    )?;
    expect_report(
        &rt,
        "object 1 1\nobject 1 2\n",
        "line 2: bad command\n",
        RunEnd::BadLine(2),
    )?;
    expect_report(
        &rt,
        "initiate 7\nobject 1 1\n",
        "line 2: bad command\n",
        RunEnd::BadLine(2),
    )
}
