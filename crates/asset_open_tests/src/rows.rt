//! The worked rows of open permits, by several words.

use crate::words::{first_other_work, writes};
use asset_cli::{Report, Work};
use asset_scripts::RunEnd;
use std::test::Fail;

/// What 7 writes is open to readers, until 7 aborts. Nobody may write it.
const OPEN_PERMIT: &str = "\
    object 1 100\nobject 2 200\nobject 3 300\ninitiate 7\nbegin 7\ninitiate 8\nbegin 8\ninitiate 9\n\
    begin 9\nwrite 7 1 50\npermit 7 any r 1\nread 8 1\nwrite 8 1 60\nread 9 2\nabort 7\ncomplete 8\n\
    commit 8\n";

/// Without 9, which has met nobody.
const SEVEN_AND_EIGHT: &str = "\
    object 1 100\nobject 2 200\nobject 3 300\ninitiate 7\nbegin 7\ninitiate 8\nbegin 8\n\
    write 7 1 50\npermit 7 any r 1\nread 8 1\nabort 7\ncomplete 8\ncommit 8\n";

#[test]
fn open_permit(rt: HostRuntime) -> Result<(), Fail> {
    let replies = "\
        ok\nok\nok\nok\nok\nok\nok\nok\n50\nwait\n200\naborted\nok\ncommitted\n";
    let texts = [
        (Work::Run, replies),
        (Work::Report(Report::Groups), "0 committed 7 8\n1 dead 9\n"),
        (
            Work::Sources,
            "8 read 8 1 50 entry 6\n9 read 9 2 200 opening\n",
        ),
        (Work::Report(Report::Pruned), SEVEN_AND_EIGHT),
    ];
    let other = first_other_work(rt.alloc(), OPEN_PERMIT, &texts);
    assert_eq!(rt; other, None);
    Ok(())
}

#[test]
fn who_meets_by_an_open_permit_shares(rt: HostRuntime) {
    assert!(rt;
        writes(
            rt.alloc(),
            Work::Report(Report::Serial),
            OPEN_PERMIT,
            "shared\n",
            RunEnd::Shared
        )
    );
}

/// 8 takes over an object, and then opens it too, to 7 as to anybody.
const DELEGATED: &str = "\
    object 1 100\nobject 2 200\nobject 3 300\ninitiate 7\nbegin 7\ninitiate 8\nbegin 8\ninitiate 9\n\
    begin 9\nwrite 7 1 50\nwrite 7 2 60\npermit 7 any r 1,2\ndelegate 7 8 1\nread 7 1\nread 9 1\n\
    read 9 2\nabort 7\nread 9 2\nread 9 1\n";

/// The objects of the rows, of which nothing else is left if nobody commits.
const OBJECTS: &str = "object 1 100\nobject 2 200\nobject 3 300\n";

#[test]
fn open_permit_delegated(rt: HostRuntime) -> Result<(), Fail> {
    let replies = "\
        ok\nok\nok\nok\nok\nok\nok\nok\nok\nok\n50\n50\n60\naborted\n200\n50\n";
    let sources = "\
        10 read 7 1 50 entry 6\n11 read 9 1 50 entry 6\n12 read 9 2 60 entry 7\n\
        14 read 9 2 200 opening\n15 read 9 1 50 entry 6\n";
    let texts = [
        (Work::Run, replies),
        (Work::Report(Report::Groups), "0 dead 7 8 9\n"),
        (Work::Sources, sources),
        (Work::Report(Report::Pruned), OBJECTS),
        (Work::Report(Report::Serial), OBJECTS),
    ];
    let other = first_other_work(rt.alloc(), DELEGATED, &texts);
    assert_eq!(rt; other, None);
    Ok(())
}

/// Nobody but a live transaction opens an object, and only one that there is.
const REFUSED: &str = "\
    object 1 100\nobject 2 200\nobject 3 300\ninitiate 7\nbegin 7\npermit 5 any r 9\npermit 7 any r 9\n\
    permit 7 any r all\nbegin 7\n";

#[test]
fn open_permit_refused(rt: HostRuntime) {
    let text = "ok\nok\nrefused unknown 5\nrefused no object 9\nline 8: bad command\n";
    assert!(rt; writes(rt.alloc(), Work::Run, REFUSED, text, RunEnd::BadLine(8)));
}

/// Refusals in order, and open permits of one who has not begun and of one who has completed.
const REFUSED_IN_ORDER: &str = "\
    object 1 100\nobject 2 200\ninitiate 7\npermit 7 any rwa 2,1\nbegin 7\npermit 7 any w 5,1,4\n\
    complete 7\npermit 7 any a 1\nabort 7\npermit 7 any r 1\npermit 7 any r 9\npermit 8 any r 9\n";

/// Its listing: each permit with its objects in order, also one that is refused.
const REFUSED_IN_ORDER_LISTED: &str = "\
    3       0       initiate 7                      ok\n\
    4       1       permit 7 any rwa 1,2            ok\n\
    5       2       begin 7                         ok\n\
    6       3       permit 7 any w 1,4,5            refused no object 4\n\
    7       4       complete 7                      ok\n\
    8       5       permit 7 any a 1                ok\n\
    9       6       abort 7                         aborted\n\
    10      7       permit 7 any r 1                refused ended 7\n\
    11      8       permit 7 any r 9                refused ended 7\n\
    12      9       permit 8 any r 9                refused unknown 8\n";

#[test]
fn refusals_of_open_permits_come_in_order(rt: HostRuntime) -> Result<(), Fail> {
    let replies = "\
        ok\nok\nok\nrefused no object 4\nok\nok\naborted\nrefused ended 7\nrefused ended 7\n\
        refused unknown 8\n";
    let texts = [
        (Work::Run, replies),
        (Work::Steps, REFUSED_IN_ORDER_LISTED),
        (Work::Report(Report::Groups), "0 dead 7\n1 dead 8\n"),
        (Work::Sources, ""),
        (Work::Report(Report::Pruned), "object 1 100\nobject 2 200\n"),
    ];
    let other = first_other_work(rt.alloc(), REFUSED_IN_ORDER, &texts);
    assert_eq!(rt; other, None);
    Ok(())
}

/// 8 is initiated after 7 has opened what it wrote.
const LATER: &str = "\
    object 1 100\ninitiate 7\nbegin 7\nwrite 7 1 50\npermit 7 any r 1\ninitiate 8\nbegin 8\nread 8 1\n";

#[test]
fn later_transaction_is_let_too(rt: HostRuntime) -> Result<(), Fail> {
    let texts = [
        (Work::Run, "ok\nok\nok\nok\nok\nok\n50\n"),
        (Work::Report(Report::Groups), "0 dead 7 8\n"),
    ];
    let other = first_other_work(rt.alloc(), LATER, &texts);
    assert_eq!(rt; other, None);
    Ok(())
}

/// 8 operates before 7 opens the object, and 9 after it; 6 before and 5 after a permit that is refused.
const BEFORE_AND_AFTER: &str = "\
    object 1 100\nobject 2 200\ninitiate 5\nbegin 5\ninitiate 6\nbegin 6\ninitiate 7\nbegin 7\n\
    initiate 8\nbegin 8\ninitiate 9\nbegin 9\nread 8 1\nread 6 2\npermit 7 any w 1\npermit 7 any r 3,2\n\
    read 9 1\nread 5 2\ncomplete 7\ncommit 7\n";

#[test]
fn operations_before_an_open_permit_join_too(rt: HostRuntime) -> Result<(), Fail> {
    let replies = "\
        ok\nok\nok\nok\nok\nok\nok\nok\nok\nok\n100\n200\nok\nrefused no object 3\n100\n200\nok\n\
        committed\n";
    let texts = [
        (Work::Run, replies),
        (
            Work::Report(Report::Groups),
            "0 dead 5\n1 dead 6\n2 committed 7 8 9\n",
        ),
    ];
    let other = first_other_work(rt.alloc(), BEFORE_AND_AFTER, &texts);
    assert_eq!(rt; other, None);
    Ok(())
}

/// 6 lets 7 write, and 7 lets anybody: so 6 lets anybody write too, until 7 ends.
const CHAIN: &str = "\
    object 1 100\ninitiate 6\nbegin 6\ninitiate 7\nbegin 7\ninitiate 8\nbegin 8\nwrite 6 1 50\n\
    permit 6 7 rw 1\nwrite 8 1 60\npermit 7 any w 1\nwrite 8 1 60\nread 8 1\nwrite 7 1 70\nabort 7\n\
    write 8 1 80\nabort 6\nread 8 1\n";

#[test]
fn chain_of_permits_leads_to_anybody(rt: HostRuntime) -> Result<(), Fail> {
    let replies = "\
        ok\nok\nok\nok\nok\nok\nok\nok\nwait\nok\nok\nwait\nwait\naborted\nwait\naborted\n60\n";
    let texts = [
        (Work::Run, replies),
        (Work::Report(Report::Groups), "0 dead 6 7 8\n"),
    ];
    let other = first_other_work(rt.alloc(), CHAIN, &texts);
    assert_eq!(rt; other, None);
    Ok(())
}

/// The example `draft.asset` without its comments.
const DRAFT: &str = "\
    object 1 100\nobject 2 200\ninitiate 7\nbegin 7\ninitiate 8\nbegin 8\ninitiate 9\nbegin 9\n\
    write 7 1 50\nwrite 7 2 60\npermit 7 any r 1,2\nread 8 1\nwrite 8 1 70\ndelegate 7 9 1\nread 7 1\n\
    read 8 2\nabort 7\nread 8 2\nread 8 1\ncomplete 8\ncommit 8\ncomplete 9\ncommit 9\n";

#[test]
fn drafts_are_shown_to_anybody(rt: HostRuntime) -> Result<(), Fail> {
    let replies = "\
        ok\nok\nok\nok\nok\nok\nok\nok\nok\n50\nwait\nok\n50\n60\naborted\n200\n50\nok\ncommitted\nok\n\
        committed\n";
    let sources = "\
        9 read 8 1 50 entry 6\n11 read 7 1 50 entry 6\n12 read 8 2 60 entry 7\n\
        14 read 8 2 200 opening\n15 read 8 1 50 entry 6\n";
    let texts = [
        (Work::Run, replies),
        (Work::Report(Report::Groups), "0 committed 7 8 9\n"),
        (Work::Sources, sources),
    ];
    let other = first_other_work(rt.alloc(), DRAFT, &texts);
    assert_eq!(rt; other, None);
    Ok(())
}
