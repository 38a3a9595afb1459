//! What the lines of a script say.
use crate::memory::expect;
use crate::runs::expect_bad;
use asset_scripts::RunEnd;
use std::test::Fail;

/// Each line that asks a step for one transaction, but an add and an open permit, is answered as that step is.
#[test]
fn lines_that_ask(rt: HostRuntime) -> Result<(), Fail> {
    let script = b"object 1 -100\ninitiate 7\ninitiate 8 7\nbegin 7\nread 7 1\nwrite 7 1 50\n\
        read 7 1\nwait 7\ncomplete 7\nwait 7\ncommit 7\nwait 7\nabort 8\n";
    let text = "ok\nok\nok\n-100\nok\n50\nwait\nok\nok\ncommitted\ncommitted\naborted\n";
    expect(&rt, script, text, RunEnd::Finished)
}

/// Each refusal that a line can get has its text.
#[test]
fn refusals_in_text(rt: HostRuntime) -> Result<(), Fail> {
    let script = b"begin 18446744073709551615\ninitiate 7\ninitiate 7\nread 7 1\nbegin 7\n\
        begin 7\nread 7 3\npermit 7 7 r all\ninitiate 8\ndepend cd 7 8\ndepend gc 8 7\n\
        complete 7\ncommit 7\nabort 7\nbegin 7\n";
    let text = "refused unknown 18446744073709551615\nok\nrefused taken 7\n\
        refused not running 7\nok\nrefused begun 7\nrefused no object 3\nrefused same\n\
        ok\nok\nrefused cycle\nok\ncommitted\nrefused too late 7\nrefused ended 7\n";
    expect(&rt, script, text, RunEnd::Finished)
}

#[test]
fn lines_that_are_bad(rt: HostRuntime) -> Result<(), Fail> {
    for script in [
        "begin",
        "begin 7 8",
        "begin 07",
        "begin +7",
        "begin -7",
        "begin 18446744073709551616",
        "object 1 -0",
        "object 1 9223372036854775808",
        "object 1 -9223372036854775809",
        "begin  7",
        "begin 7 ",
        "begin 7\r",
        " begin 7",
        " ",
        "abort",
        "wait 7 8",
        "permit 7 8 r",
        "permit 7 8 r 1 2",
        "permit 7 8 wr 1",
        "permit 7 8 r 1,",
        "permit 7 8 r 1,,2",
        "permit 7 8 r 1,2,1",
        "permit 7 8 r 1;2",
        "permit 7 8 r all,1",
        "delegate 7 8",
        "delegate 7 8 1 2",
        "delegate 7 8 rw all",
        "delegate 7 8 1,",
        "delegate 7 8 1,2,1",
        "delegate 7 8 all,1",
        "depend",
        "depend 7 8",
        "depend xd 7 8",
        "depend CD 7 8",
        "depend cd 7",
        "depend cd 7 8 9",
        "depend 7 8 cd",
        "depend cd 07 8",
        "depend cd 7 -8",
        "depend cd,ad 7 8",
    ] {
        expect_bad(&rt, script, 1)?;
    }
    Ok(())
}

/// A permit is of the first transaction for the second, for the operations and on the objects that it names, in any order.
#[test]
fn permits_that_are_asked(rt: HostRuntime) -> Result<(), Fail> {
    let script = b"object 2 20\nobject 3 30\nobject 30 300\ninitiate 7\nbegin 7\n\
        initiate 8\nbegin 8\nwrite 7 2 5\nwrite 7 3 6\nwrite 7 30 7\npermit 7 8 r 30,2\n\
        read 8 2\nread 8 3\nread 8 30\nwrite 8 2 1\npermit 8 7 rw all\nwrite 8 2 1\n\
        permit 7 8 w 30\nwrite 8 30 1\nwrite 8 2 1\npermit 7 8 rw all\nwrite 8 2 1\n";
    let text = "ok\nok\nok\nok\nok\nok\nok\nok\n\
        5\nwait\n7\nwait\nok\nwait\n\
        ok\nok\nwait\nok\nok\n";
    expect(&rt, script, text, RunEnd::Finished)
}
