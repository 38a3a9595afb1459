//! Worked cases: a plan of jobs beside another session, and what should come of it.

ghost use Rattle.std.specs.Prelude.{IfOk};
ghost use Rattle.std.specs.Arc.{arc_value};
ghost use Rattle.asset_counts.specs.Pass.{IsOf};

use crate::bodies::{Notes, Task};
use crate::gates::Holding;
use crate::running::{Closing, Ran, Setting, open_manager, run_and_close};
use asset_manager::{AuditFault, Manager, Session};
use asset_manager_tests::first_wrong_line;
use asset_names::Txn;
use asset_runner::{Cause, JobEnd, Plan, RunCause};
use std::alloc::{AllocError, Global};
use std::sync::{Arc, Wait};
use std::thread::Threads;

/// A plan of jobs, what another session asks, and what should come of them.
#[derive(Clone, Copy)]
pub(crate) struct Case<'a> {
    /// What it shows.
    pub(crate) name: &'a str,
    /// How many times an operation that waits is asked again; `None`: until it is answered.
    pub(crate) turns: Option<u32>,
    /// What the other session asks before the jobs are initiated, each step with its outcome.
    pub(crate) before: &'a str,
    pub(crate) jobs: &'a [(u64, Task)],
    /// What the other session asks after the jobs are initiated, each step with its outcome.
    pub(crate) after: &'a str,
    pub(crate) workers: usize,
    /// Who is held back until 8 has left.
    pub(crate) held: Option<Txn>,
    pub(crate) closing: Closing,
    /// Why a job was not initiated; of several, why the last was not.
    pub(crate) refused: Option<Cause>,
    pub(crate) ends: &'a [(u64, JobEnd)],
    pub(crate) left: &'a [u64],
    pub(crate) cause: Option<RunCause>,
    pub(crate) history: &'a str,
    /// Entries, committed and aborted transactions.
    pub(crate) counts: (u64, u64, u64),
    pub(crate) audit: Result<(), AuditFault>,
    /// What bodies note.
    pub(crate) notes: (u64, u64),
}

/// A plan without jobs, which one worker runs, and which leaves an empty history.
pub(crate) const NO_JOBS: Case<'static> = Case {
    name: "",
    turns: Some(1_000),
    before: "",
    jobs: &[],
    after: "",
    workers: 1,
    held: None,
    closing: Closing::All,
    refused: None,
    ends: &[],
    left: &[],
    cause: None,
    history: "",
    counts: (0, 0, 0),
    audit: Ok(()),
    notes: (0, 0),
};

/// What stands beside a plan: its manager, another session, the first line of what that session asked that has another
/// outcome, and the notes of the bodies.
#[derive(Drop)]
pub(crate) struct Beside {
    manager: Arc<Manager, Global>,
    other: Session,
    wrong: Option<usize>,
    notes: Arc<Notes, Global>,
}

impl Beside {
    /// Returns one more reference to the notes, or `None` if there are too many.
    pub(crate) fn notes(&self) -> Option<Arc<Notes, Global>> {
        Arc::try_clone(&self.notes).ok()
    }
}

/// Opens a manager, and has the other session ask what it asks before the jobs. Returns a plan without jobs, and what stands
/// beside it.
pub(crate) fn begin<R: Wait>(
    rt: &R,
    alloc: Global,
    case: &Case<'_>,
) -> Result<(Plan, Beside), AllocError>
    ensures { IfOk result (λ begun. IsOf begun.1.other.of (arc_value begun.1.manager)) }
{
    let notes = Arc::new(alloc, Notes::none())?;
    let Setting {
        manager,
        shared,
        session,
        mut other,
    } = open_manager(alloc)?;
    let wrong = first_wrong_line(rt, alloc, &manager, &mut other, case.before);
    let beside = Beside {
        manager,
        other,
        wrong,
        notes,
    };
    Ok((Plan::new(alloc, shared, session, case.turns), beside))
}

/// Has the other session ask what it asks after the jobs, runs the plan, and closes the manager. Returns the first line of what
/// that session asked that has another outcome, what the run left, and what the bodies noted.
fn run_begun<R: Threads + Wait + Sync>(
    rt: &R,
    alloc: Global,
    plan: Plan,
    beside: Beside,
    case: &Case<'_>,
    gate: &Holding,
) -> Result<(Option<usize>, Ran, (u64, u64)), AllocError>
    requires { IsOf beside.other.of (arc_value beside.manager) }
{
    let Beside {
        manager,
        mut other,
        wrong,
        notes,
    } = beside;
    let after = first_wrong_line(rt, alloc, &manager, &mut other, case.after);
    let ran = run_and_close(rt, alloc, manager, plan, other, gate, case)?;
    Ok((wrong.or(after), ran, notes.shown()))
}

/// Returns what of the run differs from the case, and `None` if nothing does.
fn other_than(case: &Case<'_>, ran: &Ran) -> Option<&'static str> {
    if !ran.as_wanted {
        Some("ends or jobs that are left")
    } else if ran.cause != case.cause {
        Some("cause")
    } else if ran.counts != case.counts {
        Some("counts")
    } else if ran.audit != case.audit {
        Some("audit")
    } else {
        None
    }
}

/// Runs the plan of a case. Returns the name of the case and what differs, with the line of a text that differs, and `None` if
/// nothing does.
pub(crate) fn other_end<R: Threads + Wait + Sync>(
    rt: &R,
    alloc: Global,
    plan: Plan,
    beside: Beside,
    case: &Case<'static>,
    refused: Option<Cause>,
) -> Option<(&'static str, &'static str, Option<usize>)>
    requires { IsOf beside.other.of (arc_value beside.manager) }
{
    let gate = Holding::back(case.held);
    let came = run_begun(rt, alloc, plan, beside, case, &gate);
    let passed = case.held.is_none() || gate.has_left();
    drop(gate);
    let Ok((wrong, ran, noted)) = came else {
        return Some((case.name, "memory", None));
    };
    let other = if !passed {
        Some("gate")
    } else if wrong.is_some() {
        Some("steps of the other session")
    } else if ran.wrong.is_some() {
        Some("history")
    } else if refused != case.refused {
        Some("refused job")
    } else if noted != case.notes {
        Some("notes")
    } else {
        other_than(case, &ran)
    };
    Some((case.name, other?, wrong.or(ran.wrong)))
}
