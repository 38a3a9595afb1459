//! Managers that are opened with a plan, and what a run leaves.

ghost use Rattle.std.specs.Prelude.{◌≡◌, Some, IfOk};
ghost use Rattle.std.specs.Arc.{arc_value};
ghost use Rattle.asset_counts.specs.Pass.{IsOf};
ghost use Rattle.asset_bodies.specs.Working.{Working, Worked};

use crate::cases::Case;
use asset_core_tests::first_other_entry;
use asset_manager::{AuditFault, Manager, Session, WatchPass};
use asset_names::{Ob, Step, Txn};
use asset_runner::{Body, Cause, Gate, InitFault, Job, JobEnd, Plan, Report, RunCause, RunFault};
use std::alloc::{AllocError, Global};
use std::sync::{Arc, Wait};
use std::thread::Threads;

/// Room for more entries than a test asks for.
pub(crate) const MUCH_ROOM: usize = 100_000;

/// Three objects with 100, 200 and 300.
const THREE: [(Ob, i64); 3] = [(Ob(1), 100), (Ob(2), 200), (Ob(3), 300)];

/// A manager twice, a session for a plan, and another session.
#[derive(Drop)]
pub(crate) struct Setting {
    pub(crate) manager: Arc<Manager, Global>,
    pub(crate) shared: Arc<Manager, Global>,
    pub(crate) session: Session,
    pub(crate) other: Session,
}

/// Opens a manager over three objects, unless memory runs out.
fn open_once(alloc: Global) -> Result<Setting, AllocError>
    ensures session { IfOk result (λ setting. IsOf setting.session.of (arc_value setting.shared)) }
    ensures other { IfOk result (λ setting. IsOf setting.other.of (arc_value setting.manager)) }
{
    let Ok((manager, mut session)) = Manager::open(alloc, &THREE, MUCH_ROOM) else {
        return Err(AllocError);
    };
    let other = session.split();
    let manager = Arc::new(alloc, manager)?;
    let shared = Arc::try_clone(&manager)?;
    Ok(Setting {
        manager,
        shared,
        session,
        other,
    })
}

/// Opens a manager over three objects. If memory runs out once, it is opened again.
pub(crate) fn open_manager(alloc: Global) -> Result<Setting, AllocError>
    ensures session { IfOk result (λ setting. IsOf setting.session.of (arc_value setting.shared)) }
    ensures other { IfOk result (λ setting. IsOf setting.other.of (arc_value setting.manager)) }
{
    match open_once(alloc) {
        Ok(setting) => Ok(setting),
        Err(AllocError) => open_once(alloc),
    }
}

/// Opens a manager over three objects, and returns a plan of it without jobs.
pub(crate) fn open_plan(alloc: Global) -> Result<Plan, AllocError> {
    let Setting {
        manager: _,
        shared,
        session,
        other: _,
    } = open_manager(alloc)?;
    Ok(Plan::new(alloc, shared, session, None))
}

/// Initiates a job, and returns why it was not. If memory runs out once, its body comes back, and it is initiated again.
pub(crate) fn initiated<R: Wait>(rt: &R, plan: &mut Plan, t: u64, body: Body) -> Option<Cause>
    requires ready { (tx : Working) → pre body tx }
    requires same { (tx : Working) (f : Worked) → post body tx f → f.of ≡ Some tx.manager }
{
    let again = match plan.initiate(rt, Txn(t), None, body) {
        Ok(()) => return None,
        Err(
            InitFault {
                body,
                cause: Cause::NoMemory,
            },
        ) => plan.initiate(rt, Txn(t), None, body),
        Err(fault) => Err(fault),
    };
    match again {
        Ok(()) => None,
        Err(InitFault { body: _, cause }) => Some(cause),
    }
}

/// What a run left.
#[derive(Drop)]
pub(crate) struct Ran {
    /// Whether the ends, and the jobs that are left, are those that are wanted.
    pub(crate) as_wanted: bool,
    /// Why it did not go as planned.
    pub(crate) cause: Option<RunCause>,
    /// The first line of the wanted history that is another.
    pub(crate) wrong: Option<usize>,
    /// Entries, committed and aborted transactions, as the manager's word shows them.
    pub(crate) counts: (u64, u64, u64),
    /// The audit.
    pub(crate) audit: Result<(), AuditFault>,
}

/// Returns whether these are the ends.
fn are_ends(ends: &[(Txn, JobEnd)], wanted: &[(u64, JobEnd)]) -> bool {
    if ends.len() != wanted.len() {
        return false;
    }
    for (end, other) in ends.iter().zip(wanted) {
        if end.0.0 != other.0 || end.1 != other.1 {
            return false;
        }
    }
    true
}

/// Returns whether these are the names of the jobs that are left.
fn are_left(left: &[Job], wanted: &[u64]) -> bool {
    if left.len() != wanted.len() {
        return false;
    }
    for (job, name) in left.iter().zip(wanted) {
        if job.name.0 != *name {
            return false;
        }
    }
    true
}

/// Returns the counts that a manager's word shows.
fn shown(manager: &Manager) -> (u64, u64, u64) {
    let mut pass = WatchPass::none();
    let counts = manager.watch().read(&mut pass);
    (counts.entries, counts.committed, counts.aborted)
}

/// Returns the report and the cause of a run.
pub(crate) fn told(outcome: Result<Report, RunFault>) -> (Report, Option<RunCause>) {
    match outcome {
        Ok(report) => (report, None),
        Err(RunFault { report, cause }) => (report, Some(cause)),
    }
}

/// Takes a manager out of its `Arc`, which nobody else may have kept.
pub(crate) fn alone(manager: Arc<Manager, Global>) -> Result<Manager, AllocError> {
    match Arc::try_unwrap(manager) {
        Ok(manager) => Ok(manager),
        Err(_kept) => Err(AllocError),
    }
}

/// Closes a manager with sessions, and returns the audit, and the first line of the wanted history that is another.
fn closed(
    alloc: Global,
    manager: Manager,
    sessions: Vec<Session>,
    history: &str,
) -> (Result<(), AuditFault>, Option<usize>) {
    let closed = manager.close(sessions);
    let wrong = first_other_entry(alloc, &closed.history, history);
    let audit = closed.audit;
    drop(closed);
    (audit, wrong)
}

/// How a manager is closed.
#[derive(Clone, Copy)]
pub(crate) enum Closing {
    /// With all sessions.
    All,
    /// Without the session of the last job.
    WithoutLastJob,
    /// Without the other session.
    WithoutOther,
    /// With all sessions, after the other session has read an object as a transaction.
    AfterRead(Txn, Ob),
}

/// Puts the other session to those of a report, as the closing wants.
fn hand_in<R: Wait>(
    rt: &R,
    manager: &Manager,
    sessions: &mut Vec<Session>,
    mut other: Session,
    closing: Closing,
) -> Result<(), AllocError>
    requires { IsOf other.of manager.now }
{
    match closing {
        Closing::All => {}
        Closing::WithoutLastJob => {
            let _ = sessions.pop();
        }
        Closing::WithoutOther => return Ok(()),
        Closing::AfterRead(t, x) => {
            let _ = other.call(rt, manager, Step::Read { t, x });
        }
    }
    sessions.reserve(1)?;
    sessions.push_reserved(other);
    Ok(())
}

/// Runs a plan, takes the manager out of its `Arc` and closes it with the sessions of the report and another.
pub(crate) fn run_and_close<R: Threads + Wait + Sync, G: Gate>(
    rt: &R,
    alloc: Global,
    manager: Arc<Manager, Global>,
    plan: Plan,
    other: Session,
    gate: &G,
    case: &Case<'_>,
) -> Result<Ran, AllocError>
    requires { IsOf other.of (arc_value manager) }
{
    let (report, cause) = told(plan.run(rt, case.workers, gate));
    let Report {
        ends,
        left,
        mut sessions,
    } = report;
    let as_wanted = are_ends(&ends, case.ends) && are_left(&left, case.left);
    drop(ends);
    drop(left);
    let counts = shown(&manager);
    hand_in(rt, &manager, &mut sessions, other, case.closing)?;
    let manager = alone(manager)?;
    let (audit, wrong) = closed(alloc, manager, sessions, case.history);
    Ok(Ran {
        as_wanted,
        cause,
        wrong,
        counts,
        audit,
    })
}
