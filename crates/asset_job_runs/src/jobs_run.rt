//! Runs the jobs of a job script. The caller boxes their bodies.

ghost use Rattle.std.specs.Prelude.{◌≡◌, ◌<◌, ◌+◌, ◌⊎◌, Some, IfErr, IfOk, OnErr, OnOk, map, vec_len, [], ◌∷◌, List};
ghost use Rattle.std.specs.Arc.{arc_value};
ghost use Rattle.std.specs.Io.KnownBytes.{Appends};
ghost use Rattle.asset_counts.specs.Pass.{IsOf};
ghost use Rattle.asset_names.specs.Counted.{IsBelow};
ghost use Rattle.asset_counts.specs.Shown.{no_counts};
ghost use Rattle.asset_scripts.specs.Device.{IsUnused};
ghost use Rattle.asset_manager.specs.Asker.{Asker};
ghost use Rattle.asset_bodies.specs.Working.{Working, Worked};
ghost use Rattle.asset_jobs.specs.Ended.{row_among};
ghost use Rattle.asset_jobs.specs.Scripts.{named};
ghost use Rattle.asset_jobs.specs.Texts.{jobs_text};
ghost use Rattle.asset_runner.specs.Fates.{RunsBody};
ghost use Rattle.asset_runner.specs.Initiated.{OneMore, IsPlanned};
ghost use Rattle.asset_job_runs.specs.declared.jobs_end.JobsStop.TheVariants as Stop;
ghost use Rattle.asset_job_runs.specs.JobsRun.{AddsJob, BeginsJobs, FinishesJobs, IsAudited, RanJobs, SaysJobs, StopsAfter, StopsBefore, StopsWriting};

use crate::jobs_end::JobsStop;
use asset_audit::AuditFault;
use asset_jobs::{JobAct, JobScript, names_of, read_jobs, rows_of, write_jobs};
use asset_manager::{Manager, Session, WatchPass};
use asset_names::{Counts, Ob, Txn};
use asset_requests::{JobsRequest, Limits, limits_of};
use asset_runner::{Body, Cause, Finished, InitFault, JobEnd, OpenGate, Plan, Report, Runtime, Tx};
use asset_scripts::Device;
use std::alloc::Global;
use std::io::{Read, Write};
use std::sync::{Arc, Wait};

/// Two references to one manager over the objects of a job script, and its first session.
#[derive(Drop)]
struct Opened {
    manager: Arc<Manager, Global>,
    theirs: Arc<Manager, Global>,
    session: Session,
}

/// A job script that was read: its jobs, their names, and where they are to run.
#[derive(Drop)]
pub struct Begun {
    /// The jobs: the name of each, and what it does.
    pub jobs: Vec<(Txn, Vec<JobAct>)>,
    /// The names of the jobs, in order.
    pub names: Vec<Txn>,
    /// The manager, for the caller.
    pub manager: Arc<Manager, Global>,
    /// The manager, for the plan of the jobs.
    pub theirs: Arc<Manager, Global>,
    /// The first session of the manager, which has asked nothing.
    pub session: Session,
    /// Within which limits the jobs are run.
    pub limits: Limits,
}

/// What is known of jobs that were run: how each of them ended, the sessions, and the counts that the manager then
/// published.
#[derive(Drop)]
struct Ran {
    ends: Vec<(Txn, JobEnd)>,
    sessions: Vec<Session>,
    counts: Counts,
}

/// Opens a manager over objects that are all different. It answers `NoMemory` if memory runs out.
fn open_manager(alloc: Global, opening: &[(Ob, i64)], capacity: usize) -> Result<Opened, JobsStop>
    ensures of { IfOk result (λ opened. IsOf opened.session.of (arc_value opened.theirs)) }
    ensures one { IfOk result (λ opened. arc_value opened.theirs ≡ arc_value opened.manager) }
    ensures first { IfOk result (λ opened. (opened.session.list.calls ≡ []) × (opened.session.seen ≡ no_counts)) }
    ensures stopped { IfErr result (λ stop. stop ≡ Stop.NoMemory) }
{
    let Ok((manager, session)) = Manager::open(alloc, opening, capacity) else {
        return Err(JobsStop::NoMemory);
    };
    let Ok(manager) = Arc::new(alloc, manager) else {
        return Err(JobsStop::NoMemory);
    };
    let Ok(theirs) = Arc::try_clone(&manager) else {
        return Err(JobsStop::NoMemory);
    };
    Ok(Opened {
        manager,
        theirs,
        session,
    })
}

/// Opens what a script needs that was read.
fn open_script(alloc: Global, script: JobScript, limits: Limits) -> Result<Begun, JobsStop>
    ensures of { IfOk result (λ begun. IsOf begun.session.of (arc_value begun.theirs)) }
    ensures one { IfOk result (λ begun. arc_value begun.theirs ≡ arc_value begun.manager) }
    ensures first { IfOk result (λ begun. (begun.session.list.calls ≡ []) × (begun.session.seen ≡ no_counts)) }
    ensures begun { IfOk result (λ begun. (begun.jobs ≡ script.jobs) × (begun.limits ≡ limits) × (begun.names.items ≡ map (λ job. job.0) script.jobs.items)) }
    ensures stopped { IfErr result (λ stop. stop ≡ Stop.NoMemory) }
{
    let JobScript { opening, jobs } = script;
    let names = names_of(alloc, &jobs);
    match open_manager(alloc, &opening, limits.capacity) {
        Ok(
            Opened {
                manager,
                theirs,
                session,
            },
        ) => match names {
            Ok(names) => Ok(Begun {
                jobs,
                names,
                manager,
                theirs,
                session,
                limits,
            }),
            Err(_) => Err(JobsStop::NoMemory),
        },
        Err(stop) => Err(stop),
    }
}

/// Reads the job script that the reader gives, and opens what it needs.
///
/// It answers `OutOfRange` if a number that is asked for is out of range, and then reads nothing; otherwise `BadLine` with
/// the number of the first bad line, `Read` if the reader failed or gave too much, and `NoMemory` if memory runs out.
pub fn begin_jobs<R: Read>(
    alloc: Global,
    request: JobsRequest,
    input: &mut Device<R>,
) -> Result<Begun, JobsStop>
    requires { IsUnused input.old }
    ensures of { IfOk result (λ begun. IsOf begun.session.of (arc_value begun.theirs)) }
    ensures one { IfOk result (λ begun. arc_value begun.theirs ≡ arc_value begun.manager) }
    ensures first { IfOk result (λ begun. (begun.session.list.calls ≡ []) × (begun.session.seen ≡ no_counts)) }
    ensures begun { IfOk result (λ begun. BeginsJobs R.remaining request input.old input.new (map named begun.jobs.items) begun.names.items begun.limits) }
    ensures stopped { IfErr result (StopsBefore R.remaining request input.old input.new) }
{
    let Some(limits) = limits_of(request) else {
        return Err(JobsStop::OutOfRange);
    };
    match read_jobs(alloc, input) {
        Ok(script) => open_script(alloc, script, limits),
        Err(fault) => Err(JobsStop::from(fault)),
    }
}

/// Puts a job that is expected to do `operations` operations into the plan, unless it is refused or the history has no room for it.
/// It answers `NoMemory` if memory runs out.
pub fn add_job<R: Wait>(
    rt: &R,
    plan: &mut Plan,
    t: Txn,
    operations: usize,
    body: Body,
) -> Result<(), JobsStop>
    requires ready { (tx : Working) → pre body tx }
    requires same { (tx : Working) (f : Worked) → post body tx f → f.of ≡ Some tx.manager }
    ensures manager { arc_value plan.new.manager ≡ arc_value plan.old.manager }
    ensures turns { plan.new.turns ≡ plan.old.turns }
    ensures planned { OnOk result (OneMore (IsPlanned t plan.old.turns body (arc_value plan.new.manager) (operations + 3)) plan.old.jobs.items plan.new.jobs.items ⊎ (plan.new.jobs.items ≡ plan.old.jobs.items)) }
    ensures added { OnOk result (AddsJob plan.old.names.items plan.old.session.list.calls t plan.new.names.items plan.new.session.list.calls) }
    ensures unchanged { OnErr result ((plan.new.names.items ≡ plan.old.names.items) × (plan.new.jobs.items ≡ plan.old.jobs.items) × (plan.new.session.list.calls ≡ plan.old.session.list.calls)) }
    ensures stopped { IfErr result (λ stop. stop ≡ Stop.NoMemory) }
{
    match plan.initiate_with_room(rt, t, None, body, operations) {
        Ok(()) => Ok(()),
        Err(InitFault { body: _, cause }) => match cause {
            Cause::NoMemory => Err(JobsStop::NoMemory),
            Cause::Full => Ok(()),
            Cause::Refused(_) => Ok(()),
        },
    }
}

/// Returns the counts that the manager publishes, none below those that the first of the sessions saw.
fn counts_of(manager: &Manager, sessions: &mut Vec<Session>) -> Counts
    requires { (first : Asker) (rest : List Asker) → sessions.old.items ≡ first ∷ rest → IsOf first.of manager.now }
    ensures same { sessions.new.items ≡ sessions.old.items }
    ensures later { (first : Asker) (rest : List Asker) → sessions.old.items ≡ first ∷ rest → IsBelow first.seen result }
{
    let mut pass = if sessions.len() > 0 {
        sessions[0].watch_pass()
    } else {
        WatchPass::none()
    };
    manager.watch().read(&mut pass)
}

/// Runs the plan, and looks at the counts by its session. It answers `NoMemory` if the run fails: memory
/// ran out, there are no workers, or a body answered another's `Finished`.
fn run_plan<R: Runtime>(
    rt: &R,
    manager: &Manager,
    plan: Plan,
    workers: usize,
) -> Result<Ran, JobsStop>
    requires { arc_value plan.manager ≡ manager.now }
    ensures ran { IfOk result (λ ran. RanJobs (λ j. RunsBody (⟦<Body as FnOnce(Tx) -> Finished>⟧.post j.body) j.name (arc_value j.manager) j.session.list.calls) plan.jobs.items plan.names.items plan.session.list.calls ran.ends.items (map (λ (s : Asker). s.list.calls) ran.sessions.items)) }
    ensures later { IfOk result (λ ran. IsBelow plan.session.seen ran.counts) }
    ensures stopped { IfErr result (λ stop. stop ≡ Stop.NoMemory) }
{
    match plan.run(rt, workers, &OpenGate) {
        Ok(
            Report {
                ends,
                left: _,
                mut sessions,
            },
        ) => {
            let counts = counts_of(manager, &mut sessions);
            Ok(Ran {
                ends,
                sessions,
                counts,
            })
        }
        Err(_) => Err(JobsStop::NoMemory),
    }
}

/// Closes the manager, and returns its audit. It answers `InUse` if somebody else has the manager.
fn close(
    manager: Arc<Manager, Global>,
    sessions: Vec<Session>,
) -> Result<Result<(), AuditFault>, JobsStop>
    ensures audited { IfOk result (IsAudited (map (λ (s : Asker). s.list.calls) sessions.items)) }
    ensures stopped { IfErr result (λ stop. stop ≡ Stop.InUse) }
{
    match Arc::try_unwrap(manager) {
        Ok(manager) => Ok(manager.close(sessions).audit),
        Err(_) => Err(JobsStop::InUse),
    }
}

/// Writes how the jobs of these names ended.
fn write_ends<W: Write>(
    alloc: Global,
    output: &mut Device<W>,
    names: &[Txn],
    ends: &[(Txn, JobEnd)],
    audit: &Result<(), AuditFault>,
    counts: Counts,
) -> Result<(), JobsStop>
    ensures wrote { OnOk result (Appends (W.contents output.old.inner) (W.contents output.new.inner) (jobs_text (map (row_among ends.now) names.now) audit.now counts)) }
    ensures stopped { IfErr result (StopsWriting W.contents output.old output.new (jobs_text (map (row_among ends.now) names.now) audit.now counts)) }
{
    match rows_of(alloc, names, ends) {
        Ok(rows) => match write_jobs(alloc, output, &rows, audit, counts) {
            Ok(()) => Ok(()),
            Err(fault) => Err(JobsStop::from(fault)),
        },
        Err(_) => Err(JobsStop::NoMemory),
    }
}

/// Runs the jobs by as many threads as the limits say, closes the manager, and writes how the jobs of these names ended, in order, and
/// then the audit, which it returns. The manager is the one of the plan.
///
/// It answers `InUse` if somebody else has the manager; `NoMemory` if memory runs out, and also if there are no workers or a body
/// answered another's `Finished`, to which limits of `begin_jobs` and bodies of `do_acts` never lead; and `Write` if the writer
/// failed.
pub fn finish_jobs<R: AllocGlobal + Runtime, W: Write>(
    rt: &R,
    manager: Arc<Manager, Global>,
    plan: Plan,
    names: &[Txn],
    limits: Limits,
    output: &mut Device<W>,
) -> Result<Result<(), AuditFault>, JobsStop>
    requires { arc_value plan.manager ≡ arc_value manager }
    ensures finished { IfOk result (λ audit. FinishesJobs W.contents (SaysJobs (λ j. RunsBody (⟦<Body as FnOnce(Tx) -> Finished>⟧.post j.body) j.name (arc_value j.manager) j.session.list.calls) plan.jobs.items plan.names.items plan.session.list.calls plan.session.seen names.now) audit output.old output.new) }
    ensures stopped { IfErr result (StopsAfter W.contents (SaysJobs (λ j. RunsBody (⟦<Body as FnOnce(Tx) -> Finished>⟧.post j.body) j.name (arc_value j.manager) j.session.list.calls) plan.jobs.items plan.names.items plan.session.list.calls plan.session.seen names.now) output.old output.new) }
{
    let alloc = rt.alloc();
    match run_plan(rt, &manager, plan, limits.workers) {
        Ok(
            Ran {
                ends,
                sessions,
                counts,
            },
        ) => match close(manager, sessions) {
            Ok(audit) => match write_ends(alloc, output, names, &ends, &audit, counts) {
                Ok(()) => Ok(audit),
                Err(stop) => Err(stop),
            },
            Err(stop) => Err(stop),
        },
        Err(stop) => Err(stop),
    }
}
