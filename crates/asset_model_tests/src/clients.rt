//! Models by clients of one manager, two of them on two threads at once, on different objects. Worked rows follow, by one client
//! alone.

ghost use Rattle.std.specs.Thread.{IsSync};

use crate::asserts::same;
use crate::parts::part;
use crate::rows::{
    COOPERATING, DISTRIBUTED, NESTED, ran_out, run_cooperating, run_distributed, run_nested,
};
use crate::rows_of::{Row, row_of_history};
use asset_manager::{AuditFault, Manager, OpenFault, Session};
use asset_manager_tests::{ROOM, THREE, close_two, hand_in, opened, room_for};
use asset_models::{
    Act, Asset, Client, ModelEnd, contingent, cooperating, distributed, nested, saga,
};
use asset_names::{Fault, Ob, Status};
use asset_test_tools::{abort, listed};
use std::alloc::Global;
use std::sync::Wait;
use std::test::Fail;
use std::thread::{Threads, join};

/// A model that a client runs, and on which objects.
#[derive(Clone, Copy)]
enum Model {
    /// A parent and its child, on object 1.
    Nested,
    /// Two pairs, of which the second gives up, on object 2.
    Saga,
    /// Two alternatives, of which the first gives up, on object 1.
    Contingent,
    /// Two parts that commit together, on objects 2 and 3.
    Distributed,
    /// Two parts that write object 1 in turn.
    Cooperating,
}

/// Runs a model with transactions from `first` on.
fn runs_once<A: Asset>(
    alloc: Global,
    asset: &mut A,
    model: Model,
    first: u64,
) -> Result<ModelEnd, Fault> {
    let second = first.wrapping_add(1);
    match model {
        Model::Nested => {
            let parent = part(alloc, first, &[Act::Write(Ob(1), 50)]);
            let child = part(alloc, second, &[Act::Read(Ob(1)), Act::Write(Ob(1), 80)]);
            nested(asset, &parent, &[child], 2)
        }
        Model::Saga => {
            let book = part(alloc, first, &[Act::Write(Ob(2), 50)]);
            let undo = part(alloc, first.wrapping_add(2), &[Act::Write(Ob(2), 200)]);
            let fails = part(alloc, second, &[Act::GiveUp]);
            let nothing = part(alloc, first.wrapping_add(3), &[]);
            saga(asset, &[(book, undo), (fails, nothing)], 2)
        }
        Model::Contingent => {
            let fails = part(alloc, first, &[Act::GiveUp]);
            let writes = part(alloc, second, &[Act::Write(Ob(1), 60)]);
            contingent(asset, &[fails, writes], 2)
        }
        Model::Distributed => {
            let one = part(alloc, first, &[Act::Write(Ob(2), 70)]);
            let other = part(alloc, second, &[Act::Write(Ob(3), 90)]);
            distributed(asset, &[one, other], 2)
        }
        Model::Cooperating => {
            let one = part(alloc, first, &[Act::Write(Ob(1), 50), Act::Read(Ob(1))]);
            let other = part(alloc, second, &[Act::Write(Ob(1), 60)]);
            cooperating(asset, &one, &other, listed(&[Ob(1)]), 2)
        }
    }
}

/// Runs a model. If memory runs out once, its transactions are aborted, and it is run again with others.
fn runs<A: Asset>(
    alloc: Global,
    asset: &mut A,
    model: Model,
    first: u64,
) -> Result<ModelEnd, Fault> {
    match runs_once(alloc, asset, model, first) {
        Err(Fault::NoMemory) => {
            for t in first..first.saturating_add(4) {
                let _ended = asset.step(abort(t));
            }
            runs_once(alloc, asset, model, first.saturating_add(4))
        }
        end => end,
    }
}

/// Runs two models at once, each by a client on its own thread.
fn both_run<R: Threads + Wait + Sync>(
    rt: &R,
    alloc: Global,
    (one, a): (Model, &mut Client<'_, R>),
    (other, b): (Model, &mut Client<'_, R>),
) -> (Result<ModelEnd, Fault>, Result<ModelEnd, Fault>) {
    join(
        rt,
        || -> Result<ModelEnd, Fault>
            requires { IsSync R.row }
        { runs(alloc, a, one, 10) },
        || -> Result<ModelEnd, Fault>
            requires { IsSync R.row }
        { runs(alloc, b, other, 20) },
    )
}

/// Opens a manager with two clients, and runs two models at once. Returns how they ended, and the audit after closing.
fn at_once<R: Threads + Wait + Sync>(
    rt: &R,
    alloc: Global,
    one: Model,
    other: Model,
) -> Result<
    (
        Result<ModelEnd, Fault>,
        Result<ModelEnd, Fault>,
        Result<(), AuditFault>,
    ),
    Fail,
> {
    let closing = room_for(alloc, 2)?;
    let (manager, mut first) = opened(alloc, &THREE, ROOM)?;
    let second = first.split();
    let mut a = Client {
        rt,
        manager: &manager,
        session: first,
    };
    let mut b = Client {
        rt,
        manager: &manager,
        session: second,
    };
    let ends = both_run(rt, alloc, (one, &mut a), (other, &mut b));
    let Client {
        rt: _,
        manager: _,
        session: first,
    } = a;
    let Client {
        rt: _,
        manager: _,
        session: second,
    } = b;
    let closed = close_two(manager, closing, first, second);
    Ok((ends.0, ends.1, closed.1))
}

#[test]
fn nested_and_saga_at_once(rt: HostRuntime) -> Result<(), Fail> {
    let seen = at_once(&rt, rt.alloc(), Model::Nested, Model::Saga)?;
    assert_eq!(rt;
        seen,
        (Ok(ModelEnd::Committed), Ok(ModelEnd::Undone), Ok(()))
    );
    Ok(())
}

#[test]
fn contingent_and_distributed_at_once(rt: HostRuntime) -> Result<(), Fail> {
    let seen = at_once(&rt, rt.alloc(), Model::Contingent, Model::Distributed)?;
    assert_eq!(rt;
        seen,
        (Ok(ModelEnd::Committed), Ok(ModelEnd::Committed), Ok(()))
    );
    Ok(())
}

#[test]
fn cooperating_and_saga_at_once(rt: HostRuntime) -> Result<(), Fail> {
    let seen = at_once(&rt, rt.alloc(), Model::Cooperating, Model::Saga)?;
    assert_eq!(rt;
        seen,
        (Ok(ModelEnd::Committed), Ok(ModelEnd::Undone), Ok(()))
    );
    Ok(())
}

/// A worked row that is also one over a facility.
#[derive(Clone, Copy)]
enum Worked {
    /// A parent and its child.
    Nested,
    /// Two parts, of which the second gives up.
    Distributed,
    /// Two transactions that write one object in turn.
    Cooperating,
}

impl Worked {
    /// Returns the lines of the row.
    fn lines(self) -> &'static str {
        match self {
            Worked::Nested => NESTED,
            Worked::Distributed => DISTRIBUTED,
            Worked::Cooperating => COOPERATING,
        }
    }

    /// Runs the model of the row.
    fn run<A: Asset>(self, alloc: Global, asset: &mut A) -> Result<ModelEnd, Fault> {
        match self {
            Worked::Nested => run_nested(alloc, asset),
            Worked::Distributed => run_distributed(alloc, asset),
            Worked::Cooperating => run_cooperating(alloc, asset),
        }
    }
}

/// What a model left, by the history of the closed manager, and the audit.
type Left = (Row, Result<(), AuditFault>);

/// Closes a manager with the session of its only client, for which the list has room. Returns what the model left.
fn closed_row(
    alloc: Global,
    manager: Manager,
    mut closing: Vec<Session>,
    session: Session,
    (end, lines): (Result<ModelEnd, Fault>, &str),
) -> Result<Left, OpenFault> {
    let _handed = hand_in(&mut closing, session);
    let closed = manager.close(closing);
    let row = row_of_history(alloc, &closed.history, end, lines, [7, 8, 9]);
    let audit = closed.audit;
    drop(closed);
    Ok((row?, audit))
}

/// Runs a worked row by the only client of a manager. Returns what the model left.
fn row_once<R: Wait>(rt: &R, alloc: Global, worked: Worked) -> Result<Left, Fail> {
    let closing = room_for(alloc, 1)?;
    let (manager, session) = opened(alloc, &THREE, ROOM)?;
    let mut client = Client {
        rt,
        manager: &manager,
        session,
    };
    let end = worked.run(alloc, &mut client);
    let Client {
        rt: _,
        manager: _,
        session,
    } = client;
    Ok(closed_row(alloc, manager, closing, session, (end, worked.lines()))?)
}

/// Runs a worked row as `row_once` does. If memory runs out once, the row is made again.
fn client_row<R: Wait>(rt: &R, alloc: Global, worked: Worked) -> Result<Left, Fail> {
    let left = row_once(rt, alloc, worked)?;
    if ran_out(&left.0) {
        row_once(rt, alloc, worked)
    } else {
        Ok(left)
    }
}

#[test]
fn client_runs_a_parent_and_its_child(rt: HostRuntime) -> Result<(), Fail> {
    let (row, audit) = client_row(&rt, rt.alloc(), Worked::Nested)?;
    same(
        &rt,
        (row.end, row.missing),
        (Ok(ModelEnd::Committed), Some(0)),
    );
    same(&rt, row.values, [Some(50), Some(80), Some(300)]);
    same(&rt, audit, Ok(()));
    Ok(())
}

#[test]
fn client_runs_a_part_that_gives_up(rt: HostRuntime) -> Result<(), Fail> {
    let (row, audit) = client_row(&rt, rt.alloc(), Worked::Distributed)?;
    same(
        &rt,
        (row.end, row.missing),
        (Ok(ModelEnd::Aborted), Some(0)),
    );
    same(&rt, row.values[0], Some(100));
    same(
        &rt,
        row.statuses,
        [Status::Aborted, Status::Aborted, Status::Unknown],
    );
    same(&rt, audit, Ok(()));
    Ok(())
}

#[test]
fn client_runs_two_that_write_in_turn(rt: HostRuntime) -> Result<(), Fail> {
    let (row, audit) = client_row(&rt, rt.alloc(), Worked::Cooperating)?;
    same(
        &rt,
        (row.end, row.missing),
        (Ok(ModelEnd::Committed), Some(0)),
    );
    same(&rt, row.values[0], Some(60));
    same(
        &rt,
        row.statuses,
        [Status::Committed, Status::Committed, Status::Unknown],
    );
    same(&rt, audit, Ok(()));
    Ok(())
}
