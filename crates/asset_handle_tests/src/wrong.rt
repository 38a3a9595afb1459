//! Wrong arguments, which get a code and change nothing.
use crate::asking::{
    TWO, UNTOUCHED, ask, begin, expect_closed, expect_code, on_object, opened, plain, same,
};
use asset_handle::{ALL, Code, Handle, PlainObject, PlainStep, PlainWaiter};
use std::test::Fail;

#[test]
fn unknown_kinds(rt: HostRuntime) -> Result<(), Fail> {
    let mut handle = opened(&rt);
    for (kind, detail) in [
        (0, 0),
        (13, 0),
        (13, 8),
        (14, 1),
        (u32::MAX, 0),
        (1, 2),
        (6, 0),
        (6, 8),
        (8, 0),
        (8, 4),
    ] {
        let step = on_object(plain(kind, detail, 7, 8), 1);
        expect_code(&rt, &mut handle, &step, Code::BadArgument);
    }
    expect_closed(&rt, &mut handle, 0);
    Ok(())
}

/// A list has 1 to 16 objects, all different.
#[test]
fn lists_that_are_none(rt: HostRuntime) -> Result<(), Fail> {
    let mut handle = opened(&rt);
    begin(&rt, &mut handle, &[7, 8]);
    for count in [0, 2, 17, 18, ALL - 1] {
        let step = PlainStep {
            count,
            objects: [1; 16],
            ..plain(7, 0, 7, 8)
        };
        expect_code(&rt, &mut handle, &step, Code::BadArgument);
    }
    expect_closed(&rt, &mut handle, 4);
    Ok(())
}

/// A permit to anybody lists its objects.
#[test]
fn permit_of_all_to_anybody(rt: HostRuntime) -> Result<(), Fail> {
    let mut handle = opened(&rt);
    begin(&rt, &mut handle, &[7, 8]);
    for count in [0, 17, ALL] {
        let step = PlainStep {
            count,
            ..plain(13, 1, 7, 8)
        };
        expect_code(&rt, &mut handle, &step, Code::BadArgument);
    }
    expect_closed(&rt, &mut handle, 4);
    Ok(())
}

/// A list of sixteen is read whole: the least object that does not exist is named.
#[test]
fn list_of_sixteen(rt: HostRuntime) -> Result<(), Fail> {
    let mut handle = opened(&rt);
    begin(&rt, &mut handle, &[7, 8]);
    let step = PlainStep {
        count: 16,
        objects: [16, 1, 2, 4, 5, 6, 7, 8, 9, 10, 11, 12, 13, 14, 15, 3],
        ..plain(6, 1, 7, 8)
    };
    let (code, answer) = ask(rt.alloc(), &mut handle, &step);
    same(&rt, (code, answer.kind, answer.name), (Code::Done, 21, 3));
    expect_closed(&rt, &mut handle, 5);
    Ok(())
}

#[test]
fn closed_handle(rt: HostRuntime) -> Result<(), Fail> {
    let alloc = rt.alloc();
    let mut handle = Handle::closed(alloc);
    let mut status = 77;
    let mut value = 77;
    let mut waiter = PlainWaiter { name: 77, op: 77 };
    let mut len = 77;
    let mut step = plain(77, 0, 0, 0);
    let mut answer = UNTOUCHED;
    expect_code(&rt, &mut handle, &plain(1, 0, 7, 0), Code::Closed);
    expect_code(&rt, &mut handle, &plain(99, 0, 7, 0), Code::Closed);
    same(&rt, handle.status(alloc, 7, &mut status), Code::Closed);
    same(&rt, handle.value(alloc, 1, &mut value), Code::Closed);
    same(&rt, handle.waiter(alloc, 1, 0, &mut waiter), Code::Closed);
    same(&rt, handle.len(alloc, &mut len), Code::Closed);
    same(
        &rt,
        handle.entry(alloc, 0, &mut step, &mut answer),
        Code::Closed,
    );
    same(&rt, handle.group_of(alloc, 7, &mut len), Code::Closed);
    same(&rt, handle.close(alloc), Code::Closed);
    same(&rt, (status, value, len, step.kind), (77, 77, 77, 77));
    same(&rt, (answer, waiter.name, waiter.op), (UNTOUCHED, 77, 77));
    Ok(())
}

#[test]
fn openings_that_fail(rt: HostRuntime) -> Result<(), Fail> {
    let alloc = rt.alloc();
    let mut handle = Handle::closed(alloc);
    let mut double = 77;
    let twice = [5, 3, 5, 3].map(|name| PlainObject { name, value: 1 });
    same(
        &rt,
        handle.open(alloc, &TWO, 0, &mut double),
        Code::BadCapacity,
    );
    same(
        &rt,
        handle.open(alloc, &TWO, 1_000_001, &mut double),
        Code::BadCapacity,
    );
    same(&rt, double, 77);
    same(
        &rt,
        handle.open(alloc, &twice, 10, &mut double),
        Code::DoubleObject,
    );
    same(&rt, double, 3);
    same(&rt, handle.close(alloc), Code::Closed);
    same(&rt, handle.open(alloc, &TWO, 4, &mut double), Code::Done);
    same(&rt, handle.open(alloc, &TWO, 4, &mut double), Code::IsOpen);
    begin(&rt, &mut handle, &[7]);
    expect_code(&rt, &mut handle, &plain(1, 0, 8, 0), Code::Full);
    expect_closed(&rt, &mut handle, 2);
    Ok(())
}

/// An opening that gets no memory leaves the handle closed. This test is right under any refused request.
#[test]
fn opening_without_memory(rt: HostRuntime) -> Result<(), Fail> {
    let alloc = rt.alloc();
    let mut handle = Handle::closed(alloc);
    let mut double = 77;
    let code = handle.open(alloc, &TWO, 100, &mut double);
    let wanted = match code {
        Code::Done => Code::Done,
        code => {
            same(&rt, code, Code::NoMemory);
            Code::Closed
        }
    };
    same(&rt, handle.close(alloc), wanted);
    Ok(())
}
