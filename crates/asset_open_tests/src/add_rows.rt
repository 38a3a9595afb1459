//! The worked rows of adds, by several words.

use crate::words::{first_other_work, writes};
use asset_cli::{Report, Work};
use asset_scripts::RunEnd;
use std::test::Fail;

/// Two add to one object. Who reads it waits for both, and an abort takes back its own adds alone.
const ADDS_COMMUTE: &str = "\
    object 1 100\nobject 2 200\nobject 3 300\ninitiate 7\nbegin 7\ninitiate 8\nbegin 8\ninitiate 9\n\
    begin 9\nadd 7 1 5\nadd 8 1 7\nread 9 1\nread 7 1\ncomplete 8\ncommit 8\nread 7 1\nabort 7\n\
    read 9 1\n";

/// What is left: 8 alone.
const EIGHT_ALONE: &str = "\
    object 1 100\nobject 2 200\nobject 3 300\ninitiate 8\nbegin 8\nadd 8 1 7\ncomplete 8\ncommit 8\n";

#[test]
fn adds_commute(rt: HostRuntime) -> Result<(), Fail> {
    let replies = "ok\nok\nok\nok\nok\nok\nok\nok\nwait\nwait\nok\ncommitted\n112\naborted\n107\n";
    let texts = [
        (Work::Run, replies),
        (
            Work::Report(Report::Groups),
            "0 dead 7\n1 committed 8\n2 dead 9\n",
        ),
        (
            Work::Sources,
            "10 read 7 1 112 opening\n12 read 9 1 107 opening\n",
        ),
        (Work::Report(Report::Pruned), EIGHT_ALONE),
        (Work::Report(Report::Serial), EIGHT_ALONE),
    ];
    let other = first_other_work(rt.alloc(), ADDS_COMMUTE, &texts);
    assert_eq!(rt; other, None);
    Ok(())
}

/// One more than the greatest value is the least.
const ADD_WRAPS: &str = "\
    object 1 100\nobject 2 200\nobject 3 300\ninitiate 7\nbegin 7\nwrite 7 1 9223372036854775807\n\
    add 7 1 1\nread 7 1\n";

/// The objects of the rows, of which nothing else is left if nobody commits.
const OBJECTS: &str = "object 1 100\nobject 2 200\nobject 3 300\n";

#[test]
fn add_wraps(rt: HostRuntime) -> Result<(), Fail> {
    let texts = [
        (Work::Run, "ok\nok\nok\nok\n-9223372036854775808\n"),
        (Work::Report(Report::Groups), "0 dead 7\n"),
        (Work::Sources, "4 read 7 1 -9223372036854775808 entry 2\n"),
        (Work::Report(Report::Pruned), OBJECTS),
        (Work::Report(Report::Serial), OBJECTS),
    ];
    let other = first_other_work(rt.alloc(), ADD_WRAPS, &texts);
    assert_eq!(rt; other, None);
    Ok(())
}

/// An add over another's write, which a permit lets through, stands when the write is undone.
const ADD_OVER_PERMITTED_WRITE: &str = "\
    object 1 100\nobject 2 200\nobject 3 300\ninitiate 7\nbegin 7\ninitiate 8\nbegin 8\ninitiate 9\n\
    begin 9\nwrite 7 1 50\npermit 7 8 a 1\nadd 8 1 3\ncomplete 8\ncommit 8\nread 7 1\nabort 7\nread 9 1\n";

/// Without 9, which reads alone and does not end.
const SEVEN_AND_EIGHT: &str = "\
    object 1 100\nobject 2 200\nobject 3 300\ninitiate 7\nbegin 7\ninitiate 8\nbegin 8\n\
    write 7 1 50\npermit 7 8 a 1\nadd 8 1 3\ncomplete 8\ncommit 8\nread 7 1\nabort 7\n";

#[test]
fn add_over_permitted_write(rt: HostRuntime) -> Result<(), Fail> {
    let replies = "ok\nok\nok\nok\nok\nok\nok\nok\nok\nok\ncommitted\n53\naborted\n103\n";
    let texts = [
        (Work::Run, replies),
        (Work::Report(Report::Groups), "0 committed 7 8\n1 dead 9\n"),
        (
            Work::Sources,
            "11 read 7 1 53 entry 6\n13 read 9 1 103 opening\n",
        ),
        (Work::Report(Report::Pruned), SEVEN_AND_EIGHT),
    ];
    let other = first_other_work(rt.alloc(), ADD_OVER_PERMITTED_WRITE, &texts);
    assert_eq!(rt; other, None);
    Ok(())
}

/// A write over another's add, which a permit lets through, is undone, and the add stands.
const WRITE_OVER_ADD: &str = "\
    object 1 100\nobject 2 200\nobject 3 300\ninitiate 7\nbegin 7\ninitiate 8\nbegin 8\nadd 7 1 5\n\
    permit 7 8 w 1\nwrite 8 1 60\nabort 8\nread 7 1\n";

#[test]
fn write_over_add(rt: HostRuntime) -> Result<(), Fail> {
    let texts = [
        (Work::Run, "ok\nok\nok\nok\nok\nok\nok\naborted\n105\n"),
        (Work::Report(Report::Groups), "0 dead 7 8\n"),
        (Work::Sources, "8 read 7 1 105 opening\n"),
        (Work::Report(Report::Pruned), OBJECTS),
    ];
    let other = first_other_work(rt.alloc(), WRITE_OVER_ADD, &texts);
    assert_eq!(rt; other, None);
    Ok(())
}

/// The same, and then a permit whose operations stand in another order.
const OTHER_ORDER: &str = "\
    object 1 100\nobject 2 200\nobject 3 300\ninitiate 7\nbegin 7\ninitiate 8\nbegin 8\nadd 7 1 5\n\
    permit 7 8 w 1\nwrite 8 1 60\nabort 8\nread 7 1\npermit 7 8 aw 1\n";

#[test]
fn operations_in_another_order_are_bad(rt: HostRuntime) {
    let text = "ok\nok\nok\nok\nok\nok\nok\naborted\n105\nline 13: bad command\n";
    assert!(rt;
        writes(
            rt.alloc(),
            Work::Run,
            OTHER_ORDER,
            text,
            RunEnd::BadLine(13)
        )
    );
}

/// The example `stock.asset` without its comments.
const STOCK: &str = "\
    object 1 20\ninitiate 7\nbegin 7\ninitiate 8\nbegin 8\nadd 7 1 -2\nadd 8 1 -3\nadd 7 1 -1\n\
    read 8 1\nabort 7\nread 8 1\ncomplete 8\ncommit 8\n";

/// The desk that did not give up.
const ONE_DESK: &str = "\
    object 1 20\ninitiate 8\nbegin 8\nadd 8 1 -3\nread 8 1\ncomplete 8\ncommit 8\n";

#[test]
fn stock_is_taken_from_at_once(rt: HostRuntime) -> Result<(), Fail> {
    let texts = [
        (
            Work::Run,
            "ok\nok\nok\nok\nok\nok\nok\nwait\naborted\n17\nok\ncommitted\n",
        ),
        (Work::Report(Report::Groups), "0 dead 7\n1 committed 8\n"),
        (Work::Sources, "8 read 8 1 17 opening\n"),
        (Work::Report(Report::Pruned), ONE_DESK),
        (Work::Report(Report::Serial), ONE_DESK),
    ];
    let other = first_other_work(rt.alloc(), STOCK, &texts);
    assert_eq!(rt; other, None);
    Ok(())
}
