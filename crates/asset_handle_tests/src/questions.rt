//! What an open handle tells.
use crate::asking::{
    UNTOUCHED, begin, expect, expect_closed, on_object, opened, plain, same, write,
};
use asset_handle::{ALL, Code, Handle, PlainStep, PlainWaiter};
use std::process::Abort;
use std::test::Fail;

/// Returns a handle in which 7 has written -5 to object 1, 8 waits to write it, and 9 permits 8 to read all objects.
fn busy(rt: &(impl Abort + AllocGlobal)) -> Handle {
    let mut handle = opened(rt);
    begin(rt, &mut handle, &[7, 8, 9]);
    expect(rt, &mut handle, &write(7, 1, -5), (1, 0, 0));
    expect(rt, &mut handle, &write(8, 1, 6), (5, 0, 0));
    let permit = PlainStep {
        count: ALL,
        ..plain(6, 1, 9, 8)
    };
    expect(rt, &mut handle, &permit, (1, 0, 0));
    handle
}

#[test]
fn statuses_and_values(rt: HostRuntime) -> Result<(), Fail> {
    let alloc = rt.alloc();
    let mut handle = busy(&rt);
    let mut status = 77;
    let mut value = 77;
    same(
        &rt,
        (handle.status(alloc, 7, &mut status), status),
        (Code::Done, 2),
    );
    same(
        &rt,
        (handle.status(alloc, 6, &mut status), status),
        (Code::Done, 0),
    );
    same(
        &rt,
        (handle.value(alloc, 1, &mut value), value),
        (Code::Done, -5),
    );
    same(
        &rt,
        (handle.value(alloc, 3, &mut value), value),
        (Code::Absent, -5),
    );
    expect_closed(&rt, &mut handle, 8);
    Ok(())
}

#[test]
fn waiters_and_groups(rt: HostRuntime) -> Result<(), Fail> {
    let alloc = rt.alloc();
    let mut handle = busy(&rt);
    let mut waiter = PlainWaiter { name: 77, op: 77 };
    let mut group = 77;
    same(&rt, handle.waiter(alloc, 1, 1, &mut waiter), Code::Absent);
    same(&rt, (waiter.name, waiter.op), (77, 77));
    same(&rt, handle.waiter(alloc, 1, 0, &mut waiter), Code::Done);
    same(&rt, (waiter.name, waiter.op), (8, 2));
    same(
        &rt,
        (handle.group_of(alloc, 7, &mut group), group),
        (Code::Done, 0),
    );
    same(
        &rt,
        (handle.group_of(alloc, 9, &mut group), group),
        (Code::Done, 1),
    );
    same(
        &rt,
        (handle.group_of(alloc, 8, &mut group), group),
        (Code::Done, 1),
    );
    same(
        &rt,
        (handle.group_of(alloc, 6, &mut group), group),
        (Code::Absent, 1),
    );
    expect_closed(&rt, &mut handle, 8);
    Ok(())
}

/// Entries read back as plain steps that ask for the same, with their answers.
#[test]
fn entries(rt: HostRuntime) -> Result<(), Fail> {
    let alloc = rt.alloc();
    let mut handle = busy(&rt);
    let mut step = plain(77, 77, 77, 77);
    let mut answer = UNTOUCHED;
    expect(
        &rt,
        &mut handle,
        &on_object(plain(7, 0, 7, 8), 9),
        (21, 9, 0),
    );
    same(
        &rt,
        handle.entry(alloc, 6, &mut step, &mut answer),
        Code::Done,
    );
    same(
        &rt,
        (step.kind, step.first, step.second, step.value),
        (4, 7, 1, -5),
    );
    same(&rt, (answer.kind, answer.name, answer.value), (1, 0, 0));
    same(
        &rt,
        handle.entry(alloc, 7, &mut step, &mut answer),
        Code::Done,
    );
    same(
        &rt,
        (step.kind, step.detail, step.first, step.second),
        (6, 1, 9, 8),
    );
    same(&rt, step.count, ALL);
    same(
        &rt,
        handle.entry(alloc, 8, &mut step, &mut answer),
        Code::Done,
    );
    same(&rt, (step.kind, step.count, step.objects[0]), (7, 1, 9));
    same(&rt, (answer.kind, answer.name), (21, 9));
    same(
        &rt,
        handle.entry(alloc, 9, &mut step, &mut answer),
        Code::Absent,
    );
    same(&rt, step.kind, 7);
    expect_closed(&rt, &mut handle, 9);
    Ok(())
}
