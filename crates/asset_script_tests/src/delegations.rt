//! Whole scripts with delegations, with the text that answers each and how its run ends.
use crate::memory::expect;
use asset_scripts::RunEnd;
use std::test::Fail;

/// A delegated write follows the transaction that took it over.
#[test]
fn delegated_write(rt: HostRuntime) -> Result<(), Fail> {
    let script =
        b"object 1 100\nobject 2 200\nobject 3 300\ninitiate 7\nbegin 7\ninitiate 8\nbegin 8\n\
        initiate 9\nbegin 9\nwrite 7 1 50\ndelegate 7 8 1\nabort 7\nread 9 1\ncomplete 8\n\
        commit 8\nread 9 1\n";
    let text = "ok\nok\nok\nok\nok\nok\nok\nok\naborted\nwait\nok\ncommitted\n50\n";
    expect(&rt, script, text, RunEnd::Finished)
}

/// A delegation moves what is held, and copies permits on the moved objects alone.
#[test]
fn delegation_moves_and_copies(rt: HostRuntime) -> Result<(), Fail> {
    let script =
        b"object 1 100\nobject 2 200\nobject 3 300\ninitiate 7\nbegin 7\ninitiate 8\nbegin 8\n\
        initiate 9\nbegin 9\nwrite 7 1 50\nwrite 8 2 80\npermit 7 9 rw all\ndelegate 7 8 1\n\
        read 7 1\nread 9 1\nread 9 2\ndelegate 7 8 all\nread 9 2\n";
    let text = "ok\nok\nok\nok\nok\nok\nok\nok\nok\nok\nwait\n50\nwait\nok\nwait\n";
    expect(&rt, script, text, RunEnd::Finished)
}

/// Which refusal comes first.
#[test]
fn refusals_in_order(rt: HostRuntime) -> Result<(), Fail> {
    let script =
        b"object 1 100\nobject 2 200\nobject 3 300\ninitiate 7\nbegin 7\nbegin 5\nbegin 7\n\
        initiate 7\nread 5 9\nread 7 9\npermit 7 5 r 9\npermit 5 5 r 9\ncomplete 7\nread 7 9\n\
        complete 7\ninitiate 6\ndelegate 7 6 9\ncommit 6\nwait 7\nwait 6\n";
    let text = "ok\nok\nrefused unknown 5\nrefused begun 7\nrefused taken 7\nrefused unknown 5\n\
        refused no object 9\nrefused unknown 5\nrefused same\nok\nrefused not running 7\n\
        refused not running 7\nok\nrefused no object 9\nwait\nok\nwait\n";
    expect(&rt, script, text, RunEnd::Finished)
}

/// A copied permit may come to have one transaction on both ends, and the next delegation copies it on.
#[test]
fn self_permit_by_delegation(rt: HostRuntime) -> Result<(), Fail> {
    let script = b"object 1 100\ninitiate 1\nbegin 1\ninitiate 2\nbegin 2\ninitiate 3\nbegin 3\n\
        write 3 1 50\npermit 3 1 rw 1\ndelegate 3 1 1\ndelegate 1 2 1\nread 1 1\n";
    let text = "ok\nok\nok\nok\nok\nok\nok\nok\nok\nok\n50\n";
    expect(&rt, script, text, RunEnd::Finished)
}

/// Which refusal of a delegation comes first. One that is refused moves nothing.
#[test]
fn delegations_are_refused_in_order(rt: HostRuntime) -> Result<(), Fail> {
    let script = b"object 1 100\ninitiate 7\nbegin 7\nwrite 7 1 50\ndelegate 5 5 9\n\
        delegate 7 5 9\ndelegate 5 7 9\ninitiate 8\nbegin 8\ndelegate 7 8 9,2,1\nread 8 1\n\
        read 7 1\nabort 8\ndelegate 7 8 9\ndelegate 8 7 all\ndelegate 7 7 all\n";
    let text = "ok\nok\nok\nrefused same\nrefused unknown 5\nrefused unknown 5\nok\nok\n\
        refused no object 2\nwait\n50\naborted\nrefused ended 8\nrefused ended 8\nrefused same\n";
    expect(&rt, script, text, RunEnd::Finished)
}

/// A delegation of all objects moves those that the giver holds, and one of an object that it does not hold moves
/// nothing and copies no permit.
#[test]
fn delegation_of_nothing_is_done(rt: HostRuntime) -> Result<(), Fail> {
    let script = b"object 1 100\nobject 2 200\ninitiate 7\nbegin 7\ninitiate 8\nbegin 8\n\
        initiate 9\nbegin 9\nwrite 8 2 80\npermit 7 9 rw all\ndelegate 7 8 2\nread 9 2\n\
        write 7 1 50\ndelegate 7 8 all\nread 9 1\nread 9 2\nabort 7\nabort 8\nread 9 1\nread 9 2\n";
    let text = "ok\nok\nok\nok\nok\nok\nok\nok\nok\nwait\n\
        ok\nok\n50\nwait\naborted\naborted\n100\n200\n";
    expect(&rt, script, text, RunEnd::Finished)
}
