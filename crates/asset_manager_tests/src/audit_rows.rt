//! The audit of short lists against a history of ten entries.

use crate::asserts::same;
use crate::told::Told;
use asset_audit::{AuditFault, audit};
use asset_core::{Core, OpenFault};
use asset_core_tests::{ROOM, THREE, ask, opened};
use asset_names::{Reply, Step};
use asset_test_tools::{begin, commit, complete, initiate, write};
use std::alloc::Global;
use std::test::Fail;

/// Returns a facility whose history has ten entries. If memory runs out once, a step is asked again.
fn ten(alloc: Global) -> Result<Core, OpenFault> {
    let mut core = opened(alloc, &THREE, ROOM)?;
    for step in [
        initiate(7),
        initiate(8),
        begin(8),
        write(8, 2, 250),
        complete(8),
        commit(8),
        begin(7),
        write(7, 1, 150),
        complete(7),
        commit(7),
    ] {
        let _answer = ask(&mut core, &step);
    }
    Ok(core)
}

/// Returns what the audit finds in the lists.
fn found(alloc: Global, lists: &[Told]) -> Result<Result<(), AuditFault>, OpenFault> {
    let core = ten(alloc)?;
    let found = audit(core.history(), lists);
    drop(core);
    Ok(found)
}

/// What 7 is told, and what 8 is told.
fn seven() -> [(usize, Step, Reply); 5] {
    [
        (0, initiate(7), Reply::Done),
        (6, begin(7), Reply::Done),
        (7, write(7, 1, 150), Reply::Done),
        (8, complete(7), Reply::Done),
        (9, commit(7), Reply::Committed),
    ]
}

fn eight() -> [(usize, Step, Reply); 5] {
    [
        (1, initiate(8), Reply::Done),
        (2, begin(8), Reply::Done),
        (3, write(8, 2, 250), Reply::Done),
        (4, complete(8), Reply::Done),
        (5, commit(8), Reply::Committed),
    ]
}

/// Returns the fault at a call.
fn differs(session: usize, number: usize) -> Result<(), AuditFault> {
    Err(AuditFault::Differs { session, number })
}

#[test]
fn sessions_that_interleave_agree(rt: HostRuntime) -> Result<(), Fail> {
    let (calls, others) = (seven(), eight());
    let lists = [
        Told { calls: &calls },
        Told { calls: &[] },
        Told { calls: &others },
    ];
    assert_eq!(rt; found(rt.alloc(), &lists)?, Ok(()));
    Ok(())
}

#[test]
fn call_of_two_sessions_differs(rt: HostRuntime) -> Result<(), Fail> {
    let calls = [(0, initiate(7), Reply::Done)];
    let lists = [Told { calls: &calls }, Told { calls: &calls }];
    assert_eq!(rt; found(rt.alloc(), &lists)?, differs(1, 0));
    Ok(())
}

#[test]
fn another_step_differs(rt: HostRuntime) -> Result<(), Fail> {
    let calls = [(1, begin(8), Reply::Done)];
    assert_eq!(rt;
        found(rt.alloc(), &[Told { calls: &calls }])?,
        differs(0, 1)
    );
    Ok(())
}

#[test]
fn another_reply_differs(rt: HostRuntime) -> Result<(), Fail> {
    let mut calls = seven();
    calls[4] = (9, commit(7), Reply::Done);
    assert_eq!(rt;
        found(rt.alloc(), &[Told { calls: &calls }])?,
        differs(0, 9)
    );
    Ok(())
}

#[test]
fn number_past_the_end_differs(rt: HostRuntime) -> Result<(), Fail> {
    let calls = [(10, initiate(7), Reply::Done)];
    assert_eq!(rt;
        found(rt.alloc(), &[Told { calls: &calls }])?,
        differs(0, 10)
    );
    Ok(())
}

#[test]
fn number_that_falls_differs(rt: HostRuntime) -> Result<(), Fail> {
    let calls = [(1, initiate(8), Reply::Done), (0, initiate(7), Reply::Done)];
    assert_eq!(rt;
        found(rt.alloc(), &[Told { calls: &calls }])?,
        differs(0, 0)
    );
    Ok(())
}

#[test]
fn number_that_stays_differs(rt: HostRuntime) -> Result<(), Fail> {
    let calls = [(1, initiate(8), Reply::Done), (1, initiate(8), Reply::Done)];
    assert_eq!(rt;
        found(rt.alloc(), &[Told { calls: &calls }])?,
        differs(0, 1)
    );
    Ok(())
}

/// The second session repeats a call of the first, and the third, with a lower number, is wrong by itself.
#[test]
fn earlier_session_is_found_first(rt: HostRuntime) -> Result<(), Fail> {
    let (calls, falls) = (eight(), [(0, begin(7), Reply::Done)]);
    let again = [calls[2]];
    let lists = [
        Told { calls: &calls },
        Told { calls: &again },
        Told { calls: &falls },
    ];
    assert_eq!(rt; found(rt.alloc(), &lists)?, differs(1, 3));
    Ok(())
}

/// The second session repeats a call of the first after a call that is wrong by itself, or before one.
#[test]
fn earlier_call_is_found_first(rt: HostRuntime) -> Result<(), Fail> {
    let others = eight();
    let after = [(0, begin(7), Reply::Done), others[1]];
    let before = [others[1], (6, begin(8), Reply::Done)];
    let lists = [Told { calls: &others }, Told { calls: &after }];
    same(&rt, found(rt.alloc(), &lists)?, differs(1, 0));
    let lists = [Told { calls: &others }, Told { calls: &before }];
    same(&rt, found(rt.alloc(), &lists)?, differs(1, 2));
    Ok(())
}

#[test]
fn calls_that_nobody_has_are_missing(rt: HostRuntime) -> Result<(), Fail> {
    let none: [Told; 0] = [];
    let all = Err(AuditFault::Missing { told: 0, kept: 10 });
    same(&rt, found(rt.alloc(), &none)?, all);
    let calls = seven();
    let lists = [Told { calls: &calls }];
    let half = Err(AuditFault::Missing { told: 5, kept: 10 });
    same(&rt, found(rt.alloc(), &lists)?, half);
    Ok(())
}
