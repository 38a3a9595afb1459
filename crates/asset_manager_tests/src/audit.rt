//! Lists of calls that are audited against a history of ten entries.

use crate::again::{ROOM, THREE};
use crate::asserts::same;
use asset_core::{Core, History};
use asset_core_tests::{ask, opened as opened_core};
use asset_manager::{AuditFault, Calls, OpenFault, laws};
use asset_names::{Reply, Step};
use asset_test_tools::{begin, commit, complete, initiate, write};
use std::alloc::Global;
use std::test::Fail;

/// A list of calls.
#[derive(Clone, Copy)]
struct Told<'a> {
    calls: &'a [(usize, Step, Reply)],
}

impl<'a> Calls for Told<'a> {
    ghost listed = { λ told. told.calls.now };

    fn calls(&self) -> &[(usize, Step, Reply)] {
        self.calls
    }
}

/// Returns the call with this number of the ten, after which 7 and 8 have committed, and the last one past them.
fn call_of(number: usize) -> (usize, Step, Reply) {
    match number {
        0 => (0, initiate(7), Reply::Done),
        1 => (1, initiate(8), Reply::Done),
        2 => (2, begin(8), Reply::Done),
        3 => (3, write(8, 2, 250), Reply::Done),
        4 => (4, complete(8), Reply::Done),
        5 => (5, commit(8), Reply::Committed),
        6 => (6, begin(7), Reply::Done),
        7 => (7, write(7, 1, 150), Reply::Done),
        8 => (8, complete(7), Reply::Done),
        _ => (9, commit(7), Reply::Committed),
    }
}

/// Returns the history of the ten steps.
fn ten_entries(alloc: Global) -> Result<History, OpenFault> {
    let mut core = opened_core(alloc, &THREE, ROOM)?;
    for number in 0..10 {
        let (_, step, _) = call_of(number);
        let _answer = ask(&mut core, &step);
    }
    Ok(core.into_history())
}

/// Audits two lists.
fn audited(
    history: &History,
    first: &[(usize, Step, Reply)],
    second: &[(usize, Step, Reply)],
) -> Result<(), AuditFault> {
    laws::audit(history, &[Told { calls: first }, Told { calls: second }])
}

/// Audits lists that differ: a call twice, in two lists or in one; one with another step, another reply or another
/// value; one past the last entry; and one that falls.
fn audit_different(history: &History) -> [Result<(), AuditFault>; 8] {
    let first = [call_of(0)];
    [
        audited(history, &first, &first),
        audited(history, &[call_of(0), call_of(0)], &[]),
        audited(history, &[(1, begin(8), Reply::Done)], &[]),
        audited(history, &[(5, commit(8), Reply::Done)], &[]),
        audited(history, &[(3, write(8, 2, 251), Reply::Done)], &[]),
        audited(history, &[(10, begin(8), Reply::Done)], &[]),
        audited(history, &[call_of(1), call_of(0)], &[]),
        audited(
            history,
            &first,
            &[call_of(2), (4, complete(7), Reply::Done)],
        ),
    ]
}

/// Returns the fault of a call with this number in this session.
fn differs(session: usize, number: usize) -> Result<(), AuditFault> {
    Err(AuditFault::Differs { session, number })
}

#[test]
fn first_difference_is_found(rt: HostRuntime) -> Result<(), Fail> {
    let history = ten_entries(rt.alloc())?;
    let found = audit_different(&history);
    drop(history);
    let calls = [
        (1, 0),
        (0, 0),
        (0, 1),
        (0, 5),
        (0, 3),
        (0, 10),
        (0, 0),
        (1, 4),
    ];
    same(
        &rt,
        found,
        calls.map(|(session, number)| differs(session, number)),
    );
    Ok(())
}

/// Audits no list, all calls in two lists, and all of them but the last.
fn audit_alike(history: &History) -> [Result<(), AuditFault>; 3] {
    let even = [call_of(0), call_of(2), call_of(4), call_of(6), call_of(8)];
    let odd = [call_of(1), call_of(3), call_of(5), call_of(7), call_of(9)];
    let none: [Told; 0] = [];
    [
        laws::audit(history, &none),
        audited(history, &even, &odd),
        audited(history, &even, &odd[..4]),
    ]
}

#[test]
fn calls_are_counted(rt: HostRuntime) -> Result<(), Fail> {
    let history = ten_entries(rt.alloc())?;
    let found = audit_alike(&history);
    drop(history);
    let none = Err(AuditFault::Missing { told: 0, kept: 10 });
    let nine = Err(AuditFault::Missing { told: 9, kept: 10 });
    same(&rt, found, [none, Ok(()), nine]);
    Ok(())
}
