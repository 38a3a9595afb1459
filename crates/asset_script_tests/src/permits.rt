//! Whole scripts with permits, with the text that answers each and how its run ends.
use crate::memory::expect;
use asset_scripts::RunEnd;
use std::test::Fail;

/// A permitted write stands when the giver of the permit aborts.
#[test]
fn cooperating_write_survives(rt: HostRuntime) -> Result<(), Fail> {
    let script =
        b"object 1 100\nobject 2 200\nobject 3 300\ninitiate 7\nbegin 7\ninitiate 8\nbegin 8\n\
        initiate 9\nbegin 9\nwrite 7 1 50\npermit 7 8 rw 1\nwrite 8 1 60\nabort 7\nread 8 1\n\
        abort 8\nread 9 1\n";
    let text = "ok\nok\nok\nok\nok\nok\nok\nok\nok\naborted\n60\naborted\n100\n";
    expect(&rt, script, text, RunEnd::Finished)
}

/// The permitted writer aborts, and the giver reads its own write again.
#[test]
fn cooperating_write_undone(rt: HostRuntime) -> Result<(), Fail> {
    let script =
        b"object 1 100\nobject 2 200\nobject 3 300\ninitiate 7\nbegin 7\ninitiate 8\nbegin 8\n\
        initiate 9\nbegin 9\nwrite 7 1 50\npermit 7 8 rw 1\nwrite 8 1 60\nread 7 1\nabort 8\n\
        read 7 1\nabort 7\nread 9 1\n";
    let text = "ok\nok\nok\nok\nok\nok\nok\nok\nok\nwait\naborted\n50\naborted\n100\n";
    expect(&rt, script, text, RunEnd::Finished)
}

/// A chain of permits covers what each of them covers.
#[test]
fn permit_chain(rt: HostRuntime) -> Result<(), Fail> {
    let script =
        b"object 1 100\nobject 2 200\nobject 3 300\ninitiate 7\nbegin 7\ninitiate 8\nbegin 8\n\
        initiate 9\nbegin 9\nwrite 7 1 11\nwrite 7 2 22\nwrite 7 3 33\npermit 7 8 rw 1,2\n\
        permit 8 9 r 2,3\nread 9 2\nread 9 1\nwrite 9 2 5\nread 9 3\n";
    let text = "ok\nok\nok\nok\nok\nok\nok\nok\nok\nok\nok\n22\nwait\nwait\nwait\n";
    expect(&rt, script, text, RunEnd::Finished)
}

/// A chain breaks when a transaction in its middle ends.
#[test]
fn chain_broken_by_end(rt: HostRuntime) -> Result<(), Fail> {
    let script =
        b"object 1 100\nobject 2 200\nobject 3 300\ninitiate 7\nbegin 7\ninitiate 8\nbegin 8\n\
        initiate 9\nbegin 9\nwrite 7 1 11\nwrite 7 2 22\nwrite 7 3 33\npermit 7 8 rw 1,2\n\
        permit 8 9 r 2,3\ncomplete 8\ncommit 8\nread 9 2\n";
    let text = "ok\nok\nok\nok\nok\nok\nok\nok\nok\nok\nok\nok\ncommitted\nwait\n";
    expect(&rt, script, text, RunEnd::Finished)
}

/// A list of sixteen objects; the least that does not exist is named.
#[test]
fn sixteen_objects(rt: HostRuntime) -> Result<(), Fail> {
    let script =
        b"object 1 100\nobject 2 200\nobject 3 300\ninitiate 7\nbegin 7\ninitiate 8\nbegin 8\n\
        write 7 1 -9223372036854775808\nread 7 1\n\
        permit 7 8 r 1,2,3,4,5,6,7,8,9,10,11,12,13,14,15,16\n";
    let text = "ok\nok\nok\nok\nok\n-9223372036854775808\nrefused no object 4\n";
    expect(&rt, script, text, RunEnd::Finished)
}

/// A list of seventeen objects is bad.
#[test]
fn seventeen_objects(rt: HostRuntime) -> Result<(), Fail> {
    let script =
        b"object 1 100\nobject 2 200\nobject 3 300\ninitiate 7\nbegin 7\ninitiate 8\nbegin 8\n\
        write 7 1 -9223372036854775808\nread 7 1\n\
        permit 7 8 r 1,2,3,4,5,6,7,8,9,10,11,12,13,14,15,16\n\
        permit 7 8 r 1,2,3,4,5,6,7,8,9,10,11,12,13,14,15,16,17\n";
    let text =
        "ok\nok\nok\nok\nok\n-9223372036854775808\nrefused no object 4\nline 11: bad command\n";
    expect(&rt, script, text, RunEnd::BadLine(11))
}

/// A committed write stands over an earlier one that is aborted.
#[test]
fn committed_over_aborted(rt: HostRuntime) -> Result<(), Fail> {
    let script =
        b"object 1 100\nobject 2 200\nobject 3 300\ninitiate 7\nbegin 7\ninitiate 8\nbegin 8\n\
        initiate 9\nbegin 9\nwrite 7 1 50\npermit 7 8 rw 1\nwrite 8 1 60\ncomplete 8\ncommit 8\n\
        abort 7\nread 9 1\n";
    let text = "ok\nok\nok\nok\nok\nok\nok\nok\nok\nok\ncommitted\naborted\n60\n";
    expect(&rt, script, text, RunEnd::Finished)
}

/// A permit for a transaction that has ended is refused, and its giver goes on.
#[test]
fn refused_permit_leaves_its_giver(rt: HostRuntime) -> Result<(), Fail> {
    let script =
        b"object 1 100\nobject 2 200\nobject 3 300\ninitiate 7\nbegin 7\ninitiate 9\nbegin 9\n\
        abort 9\npermit 7 9 r 1\ncomplete 7\ncommit 7\n";
    let text = "ok\nok\nok\nok\naborted\nrefused ended 9\nok\ncommitted\n";
    expect(&rt, script, text, RunEnd::Finished)
}

/// A permit that is refused for one of its objects lets nobody do anything on the others.
#[test]
fn refused_permit_lets_nobody_read(rt: HostRuntime) -> Result<(), Fail> {
    let script = b"object 1 100\ninitiate 7\nbegin 7\ninitiate 8\nbegin 8\nwrite 7 1 50\n\
        permit 7 8 r 1,9\nread 8 1\n";
    let text = "ok\nok\nok\nok\nok\nrefused no object 9\nwait\n";
    expect(&rt, script, text, RunEnd::Finished)
}

/// Which refusal of a permit comes first.
#[test]
fn permits_are_refused_in_order(rt: HostRuntime) -> Result<(), Fail> {
    let script = b"object 1 100\ninitiate 7\npermit 5 5 r 9\npermit 7 5 r 9\npermit 5 7 r 9\n\
        initiate 8\npermit 7 8 r 9,2,1\nabort 8\npermit 7 8 r 9\npermit 8 7 r all\n";
    let text = "ok\nrefused same\nrefused unknown 5\nrefused unknown 5\n\
        ok\nrefused no object 2\naborted\nrefused ended 8\nrefused ended 8\n";
    expect(&rt, script, text, RunEnd::Finished)
}
