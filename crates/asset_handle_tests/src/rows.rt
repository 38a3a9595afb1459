//! Worked rows: the steps of scripts, with the answers that these print.
use crate::asking::{add, begin, expect, expect_closed, on_object, opened, plain, write};
use std::test::Fail;

/// The script `delegation.asset` of the folder `examples`.
#[test]
fn delegation(rt: HostRuntime) -> Result<(), Fail> {
    let mut handle = opened(&rt);
    begin(&rt, &mut handle, &[7, 8, 9]);
    for (step, answer) in [
        (write(7, 1, 50), (1, 0, 0)),
        (write(7, 2, 60), (1, 0, 0)),
        (on_object(plain(6, 1, 7, 9), 1), (1, 0, 0)),
        (on_object(plain(7, 0, 7, 8), 1), (1, 0, 0)),
        (plain(3, 0, 7, 1), (5, 0, 0)),
        (plain(3, 0, 9, 1), (2, 0, 50)),
        (plain(5, 0, 9, 0), (1, 0, 0)),
        (plain(9, 0, 9, 0), (3, 0, 0)),
        (plain(10, 0, 7, 0), (4, 0, 0)),
        (plain(3, 0, 8, 1), (2, 0, 50)),
        (plain(3, 0, 8, 2), (2, 0, 200)),
        (write(8, 1, 55), (1, 0, 0)),
        (plain(5, 0, 8, 0), (1, 0, 0)),
        (plain(9, 0, 8, 0), (3, 0, 0)),
    ] {
        expect(&rt, &mut handle, &step, answer);
    }
    begin(&rt, &mut handle, &[10]);
    expect(&rt, &mut handle, &plain(3, 0, 10, 1), (2, 0, 55));
    expect_closed(&rt, &mut handle, 22);
    Ok(())
}

/// Two add to one object at once, and one of them lets the third read and add.
#[test]
fn adds(rt: HostRuntime) -> Result<(), Fail> {
    let mut handle = opened(&rt);
    begin(&rt, &mut handle, &[7, 8, 9]);
    for (step, answer) in [
        (add(7, 1, 5), (1, 0, 0)),
        (add(8, 1, 7), (1, 0, 0)),
        (plain(3, 0, 9, 1), (5, 0, 0)),
        (plain(5, 0, 8, 0), (1, 0, 0)),
        (plain(9, 0, 8, 0), (3, 0, 0)),
        (on_object(plain(6, 5, 7, 9), 1), (1, 0, 0)),
        (plain(3, 0, 9, 1), (2, 0, 112)),
        (add(9, 1, -2), (1, 0, 0)),
        (plain(10, 0, 7, 0), (4, 0, 0)),
        (plain(3, 0, 9, 1), (2, 0, 105)),
    ] {
        expect(&rt, &mut handle, &step, answer);
    }
    expect_closed(&rt, &mut handle, 15);
    Ok(())
}

/// What 7 writes is open to readers, until 7 aborts. A permit to anybody uses no second transaction.
#[test]
fn open_permits(rt: HostRuntime) -> Result<(), Fail> {
    let mut handle = opened(&rt);
    begin(&rt, &mut handle, &[7, 8, 9]);
    for (step, answer) in [
        (write(7, 1, 50), (1, 0, 0)),
        (on_object(plain(13, 1, 7, 99), 1), (1, 0, 0)),
        (plain(3, 0, 8, 1), (2, 0, 50)),
        (write(8, 1, 60), (5, 0, 0)),
        (plain(3, 0, 9, 2), (2, 0, 200)),
        (on_object(plain(13, 2, 9, 0), 5), (21, 5, 0)),
        (plain(10, 0, 7, 0), (4, 0, 0)),
        (on_object(plain(13, 2, 7, 0), 5), (17, 7, 0)),
        (on_object(plain(13, 2, 6, 0), 5), (16, 6, 0)),
        (plain(5, 0, 8, 0), (1, 0, 0)),
        (plain(9, 0, 8, 0), (3, 0, 0)),
    ] {
        expect(&rt, &mut handle, &step, answer);
    }
    expect_closed(&rt, &mut handle, 16);
    Ok(())
}

/// An abort takes its abort dependents, and their classes; a class commits once all its members have completed.
#[test]
fn dependencies(rt: HostRuntime) -> Result<(), Fail> {
    let mut handle = opened(&rt);
    begin(&rt, &mut handle, &[7, 8, 9, 10, 11]);
    for (step, answer) in [
        (plain(8, 2, 7, 8), (1, 0, 0)),
        (plain(8, 3, 8, 9), (1, 0, 0)),
        (plain(8, 1, 9, 10), (1, 0, 0)),
        (plain(8, 1, 10, 8), (23, 0, 0)),
        (plain(10, 0, 7, 0), (4, 0, 0)),
        (plain(9, 0, 9, 0), (4, 0, 0)),
        (plain(8, 3, 10, 11), (1, 0, 0)),
        (plain(5, 0, 10, 0), (1, 0, 0)),
        (plain(9, 0, 10, 0), (5, 0, 0)),
        (plain(11, 0, 11, 0), (5, 0, 0)),
        (plain(5, 0, 11, 0), (1, 0, 0)),
        (plain(11, 0, 11, 0), (1, 0, 0)),
        (plain(9, 0, 10, 0), (3, 0, 0)),
        (plain(11, 0, 11, 0), (3, 0, 0)),
    ] {
        expect(&rt, &mut handle, &step, answer);
    }
    expect_closed(&rt, &mut handle, 22);
    Ok(())
}

/// Each refusal but that of a cycle has its number, and names what it is about, if it is about something.
#[test]
fn refusals(rt: HostRuntime) -> Result<(), Fail> {
    let mut handle = opened(&rt);
    for (step, answer) in [
        (plain(2, 0, u64::MAX, 0), (16, u64::MAX, 0)),
        (plain(1, 1, 7, 5), (1, 0, 0)),
        (plain(1, 0, 7, 0), (19, 7, 0)),
        (plain(3, 0, 7, 1), (18, 7, 0)),
        (plain(2, 0, 7, 0), (1, 0, 0)),
        (plain(2, 0, 7, 0), (20, 7, 0)),
        (plain(3, 0, 7, 3), (21, 3, 0)),
        (on_object(plain(6, 3, 7, 7), 9), (22, 0, 0)),
        (plain(5, 0, 7, 0), (1, 0, 0)),
        (plain(9, 0, 7, 0), (3, 0, 0)),
        (plain(10, 0, 7, 0), (24, 7, 0)),
        (plain(2, 0, 7, 0), (17, 7, 0)),
    ] {
        expect(&rt, &mut handle, &step, answer);
    }
    expect_closed(&rt, &mut handle, 12);
    Ok(())
}
