//! A plan of jobs.

ghost use Rattle.std.specs.Prelude.{◌≡◌, ◌≤◌, ◌<◌, ◌+◌, ◌++◌, ◌∷◌, ◌⊎◌, [], List, length, map, None, Some, vec_len, vec_capacity, OnOk, IfOk, IfErr, MatchOption, MatchResult};
ghost use Rattle.std.specs.Arc.{arc_value};
ghost use base.Stored.{Coded-set, coded_list, coded×, coded_ℕ};
ghost use Rattle.asset_names.specs.declared.steps.Step.TheVariants as Step;
ghost use Rattle.atomic_table.specs.Seated.{TableId};
ghost use Rattle.asset_counts.specs.Pass.{IsOf, IsOf-prop};
ghost use Rattle.asset_manager.specs.Asker.{Asker};
ghost use Rattle.asset_bodies.specs.Working.{Working, Worked};
ghost use Rattle.asset_queue.specs.Each.{Each, IsAmong};
ghost use Rattle.asset_queue.specs.Once.{SharedOut};
ghost use Rattle.asset_queue.specs.Rows.{tickets_of, Came, EachOf};
ghost use Rattle.asset_runner.specs.Placing.{nones, somes};
ghost use Rattle.asset_runner.specs.Runs.{JobRun, first_stranger, left_of};
ghost use Rattle.asset_runner.specs.Fates.{RunsBody};
ghost use Rattle.asset_runner.specs.Arrived.{numbered, placed, left_at, ticket_of};
ghost use Rattle.asset_runner.specs.Rows.{all_of, names_of, runs_of, kept_of, CameBack, ComesOf};
ghost use Rattle.asset_runner.specs.Comes.{Comes, ComesOrLost, IsCause, IsWorkCause, RunsOf, left_among};
ghost use Rattle.asset_runner.specs.Initiated.{OneMore, IsPlanned, IsInitiated, IsRefused, IsInitiation, cause_by};

use crate::arrival::Arrival;
use crate::gate::Gate;
use crate::job::{Crew, Planned};
use crate::order::{place_all, row_in_order, settle};
use crate::report::{Report, RunCause, RunFault, report_on};
use crate::rooms::Rooms;
use crate::runtime::Runtime;
use asset_bodies::Body;
use asset_manager::{Manager, Session};
use asset_names::{Fault, NoMemory, Outcome, Refusal, Reply, Step, Txn};
use asset_queue::{MOST_WORKERS, run};
use std::alloc::Global;
use std::sync::{Arc, Wait};
use std::thread::Threads;
use thiserror::Error;

/// How many calls a job asks beside its operations: its begin, its complete and its commit.
const OWN_CALLS: usize = 3;

/// How many operations a job is expected to do if nobody says it.
const EXPECTED: usize = 5;

/// Why a job was not initiated.
#[derive(Clone, Copy, Debug, PartialEq, Eq, Error)]
pub enum Cause {
    /// The facility refused it.
    #[error("the initiation was refused")]
    Refused(Refusal),
    /// The history has no room.
    #[error("the history has no room")]
    Full,
    /// Memory ran out.
    #[error("no memory")]
    NoMemory,
}

/// A job that was not initiated: its body, and why.
#[derive(Drop)]
pub struct InitFault {
    /// The body.
    pub body: Body,
    /// The cause.
    pub cause: Cause,
}

/// Jobs that were initiated, for workers to run.
#[derive(Drop)]
pub struct Plan {
    manager: Arc<Manager, Global>,
    session: Session,
    turns: Option<u32>,
    alloc: Global,
    names: Vec<Txn>,
    jobs: Vec<Planned>,
    rooms: Rooms,
    ghost fits: { IsOf session.of (arc_value manager) } by { IsOf-prop session.of (arc_value manager) },
    ghost tickets: { map (λ j. (j.place, j.name.0)) jobs.items ≡ numbered names.items } by { Coded-set (coded_list (coded× coded_ℕ coded_ℕ)) (map (λ j. (j.place, j.name.0)) jobs.items) (numbered names.items) },
    ghost room: { 0 < vec_len names → vec_len names < rooms.jobs },
}

/// What came of the workers, whatever they took.
#[derive(Drop)]
struct FromWorkers {
    rows: Vec<Vec<Arrival>>,
    left: Vec<Planned>,
    cause: Option<RunCause>,
}

/// Has the jobs run by so many workers, 64 at most.
fn work<R: Threads + Wait + Sync, G: Gate>(
    rt: &R,
    alloc: Global,
    jobs: Vec<Planned>,
    workers: usize,
    gate: &G,
) -> FromWorkers
    ensures shared { SharedOut (map (λ j. (j.place, j.name.0)) jobs.items) (tickets_of ticket_of result.rows.items) (map (λ j. (j.place, j.name.0)) result.left.items) }
    ensures cause { MatchOption result.cause (0 < workers) (λ cause. IsWorkCause workers (result.left.items ≡ [] → jobs.items ≡ []) cause) }
    ensures came { EachOf (Came (IsAmong jobs.items) (λ j. (j.place, j.name.0)) ticket_of (λ j. ComesOf (Body.post j.body) j)) result.rows.items }
    ensures left { Each (IsAmong jobs.items) result.left.items }
{
    if workers == 0 {
        return FromWorkers {
            rows: Vec::new(alloc),
            left: jobs,
            cause: Some(RunCause::NoWorkers),
        };
    }
    let crew = Crew { gate };
    match run::<Planned, Arrival, Crew<'_, G>, R>(
        rt,
        alloc,
        &crew,
        jobs,
        workers.min(MOST_WORKERS),
    ) {
        Ok((rows, left)) => {
            let cause = if left.is_empty() {
                None
            } else {
                Some(RunCause::NoMemory)
            };
            FromWorkers { rows, left, cause }
        }
        Err(all) => FromWorkers {
            rows: Vec::new(alloc),
            left: all,
            cause: Some(RunCause::NoMemory),
        },
    }
}

/// Returns what came of the jobs, in order of initiation.
fn arrange(
    jobs: usize,
    slots: Vec<Option<Arrival>>,
    order: Vec<Arrival>,
    rows: Vec<Vec<Arrival>>,
    left: Vec<Planned>,
) -> Vec<Arrival>
    requires empty { (slots.items ≡ []) × (order.items ≡ []) }
    requires room { (jobs ≤ vec_capacity slots) × (jobs ≤ vec_capacity order) }
    ensures { result.items ≡ somes (placed (placed (nones jobs) (map (λ j. left_at j.place j.name j.body j.session) left.items)) (all_of rows.items)) }
{
    if !left.is_empty() {
        return place_all(jobs, slots, order, rows, left);
    }
    match row_in_order(rows, jobs) {
        Ok(row) => row,
        Err(rows) => place_all(jobs, slots, order, rows, left),
    }
}

/// Returns what came of the jobs of these names, in order of initiation, once the commits that wait were asked again.
fn gather<R: Wait>(
    rt: &R,
    names: &[Txn],
    slots: Vec<Option<Arrival>>,
    order: Vec<Arrival>,
    rows: Vec<Vec<Arrival>>,
    left: Vec<Planned>,
) -> Vec<Arrival>
    requires empty { (slots.items ≡ []) × (order.items ≡ []) }
    requires room { (length names.now ≤ vec_capacity slots) × (length names.now ≤ vec_capacity order) }
    requires shared { SharedOut (numbered names.now) (tickets_of ticket_of rows.items) (map (λ j. (j.place, j.name.0)) left.items) }
    ensures names { names_of result.items ≡ names.now }
    ensures back { CameBack (all_of rows.items ++ map (λ j. left_at j.place j.name j.body j.session) left.items) result.items }
{
    let mut order = arrange(names.len(), slots, order, rows, left);
    settle(rt, &mut order);
    order
}

/// Has the jobs of these names run, and returns what came of them, in order of initiation, and why not all were taken.
fn run_jobs<R: Threads + Wait + Sync, G: Gate>(
    rt: &R,
    alloc: Global,
    names: &[Txn],
    jobs: Vec<Planned>,
    workers: usize,
    gate: &G,
    slots: Vec<Option<Arrival>>,
    order: Vec<Arrival>,
) -> (Vec<Arrival>, Option<RunCause>)
    requires tickets { map (λ j. (j.place, j.name.0)) jobs.items ≡ numbered names.now }
    requires empty { (slots.items ≡ []) × (order.items ≡ []) }
    requires room { (length names.now ≤ vec_capacity slots) × (length names.now ≤ vec_capacity order) }
    ensures names { names_of result.0.items ≡ names.now }
    ensures cause { MatchOption result.1 (0 < workers) (λ cause. IsWorkCause workers (left_of (runs_of result.0.items) ≡ [] → runs_of result.0.items ≡ []) cause) }
    ensures ran { RunsOf (λ j. RunsBody (Body.post j.body) j.name (arc_value j.manager) j.session.list.calls) jobs.items (runs_of result.0.items) }
    ensures left { kept_of result.0.items ≡ left_among (λ j. j.name) (λ j. j.body) jobs.items (runs_of result.0.items) }
{
    let FromWorkers { rows, left, cause } = work(rt, alloc, jobs, workers, gate);
    (gather(rt, names, slots, order, rows, left), cause)
}

/// Splits off a session with room for a job's own calls and for so many operations, of the same manager and without calls. It
/// answers `NoMemory` if memory runs out. The session that it splits stays as it is.
fn session_for(own: &mut Session, operations: usize) -> Result<Session, NoMemory>
    ensures same { own.new ≡ own.old }
    ensures calls { IfOk result (λ session. session.list.calls ≡ []) }
    ensures room { IfOk result (λ session. operations + OWN_CALLS ≤ session.list.room) }
    ensures of { (manager : TableId) → IsOf own.old.of manager → IfOk result (λ session. IsOf session.of manager) }
{
    let Some(calls) = operations.checked_add(OWN_CALLS) else {
        return Err(NoMemory);
    };
    let mut session = own.split();
    match session.reserve(calls) {
        Ok(()) => Ok(session),
        Err(NoMemory) => {
            own.join(session);
            Err(NoMemory)
        }
    }
}

/// Returns why an initiation was not answered `Done`, and `None` if it was.
fn cause_of(outcome: Result<Outcome, Fault>) -> Option<Cause>
    requires { IsInitiation outcome }
    ensures { result ≡ cause_by outcome }
{
    match outcome {
        Ok(Outcome::Answer(Reply::Done)) => None,
        Ok(Outcome::Answer(Reply::Refused(refusal))) => Some(Cause::Refused(refusal)),
        Ok(_) => unreachable!(),
        Err(Fault::Full) => Some(Cause::Full),
        Err(Fault::NoMemory) => Some(Cause::NoMemory),
    }
}

impl Plan {
    /// Returns a plan without jobs, which asks by this session. Operations of bodies ask again at most `turns` times
    /// while the answer is to wait, or without such a bound until they are answered. It does not allocate.
    pub fn new(
        alloc: Global,
        manager: Arc<Manager, Global>,
        session: Session,
        turns: Option<u32>,
    ) -> Plan
        requires { IsOf session.of (arc_value manager) }
        ensures names { result.names.items ≡ [] }
        ensures planned { result.jobs.items ≡ [] }
        ensures own { (arc_value result.manager ≡ arc_value manager) × (result.session ≡ session) }
        ensures turns { result.turns ≡ turns }
    {
        Plan {
            manager,
            session,
            turns,
            alloc,
            names: Vec::new(alloc),
            jobs: Vec::new(alloc),
            rooms: Rooms::new(alloc),
        }
    }

    /// Makes room for so many jobs more, so that nothing is moved while they are initiated. It answers `NoMemory` if memory
    /// runs out, and then the plan is as before but for room that it has.
    pub fn reserve(&mut self, jobs: usize) -> Result<(), NoMemory>
        ensures manager { arc_value self.new.manager ≡ arc_value self.old.manager }
        ensures session { (self.new.session.of ≡ self.old.session.of) × (self.new.session.seen ≡ self.old.session.seen) × (self.new.session.list.calls ≡ self.old.session.list.calls) }
        ensures turns { self.new.turns ≡ self.old.turns }
        ensures names { self.new.names.items ≡ self.old.names.items }
        ensures planned { self.new.jobs.items ≡ self.old.jobs.items }
        ensures room { OnOk result ((vec_len self.old.names + jobs ≤ vec_capacity self.new.names) × (length self.old.session.list.calls + jobs ≤ self.new.session.list.room)) }
    {
        self.make_room(jobs)?;
        self.session.reserve(jobs)
    }

    /// Makes room for so many jobs more, beside the list of the plan's session. It answers `NoMemory` if memory runs out, and then
    /// the plan is as before but for room that it has.
    fn make_room(&mut self, jobs: usize) -> Result<(), NoMemory>
        ensures manager { self.new.manager ≡ self.old.manager }
        ensures session { self.new.session ≡ self.old.session }
        ensures turns { self.new.turns ≡ self.old.turns }
        ensures names { self.new.names.items ≡ self.old.names.items }
        ensures planned { self.new.jobs.items ≡ self.old.jobs.items }
        ensures room { OnOk result ((vec_len self.old.names + jobs ≤ vec_capacity self.new.names) × (vec_len self.old.jobs + jobs ≤ vec_capacity self.new.jobs) × (vec_len self.old.names + jobs < self.new.rooms.jobs)) }
    {
        let count = self.names.len().saturating_add(jobs).saturating_add(1);
        if self.names.reserve(jobs).is_err()
            || self.jobs.reserve(jobs).is_err()
            || self.rooms.reserve(self.alloc, count).is_err()
        {
            return Err(NoMemory);
        }
        Ok(())
    }

    /// Initiates a transaction for the body, as `initiate_with_room` does, with room for five operations.
    pub fn initiate<R: Wait>(
        &mut self,
        rt: &R,
        t: Txn,
        parent: Option<Txn>,
        body: Body,
    ) -> Result<(), InitFault>
        requires ready { (tx : Working) → tx.manager ≡ arc_value self.old.manager → pre body tx }
        requires same { (tx : Working) (f : Worked) → tx.manager ≡ arc_value self.old.manager → post body tx f → f.of ≡ Some tx.manager }
        ensures manager { arc_value self.new.manager ≡ arc_value self.old.manager }
        ensures of { IsOf self.new.session.of (arc_value self.new.manager) }
        ensures turns { self.new.turns ≡ self.old.turns }
        ensures back { IfErr result (λ fault. fault.body ≡ body) }
        ensures names { MatchResult result (λ _. self.new.names.items ≡ self.old.names.items ++ t ∷ []) (λ _. self.new.names.items ≡ self.old.names.items) }
        ensures asked { MatchResult result (λ _. IsInitiated self.old.session.list.calls (Step.Initiate t parent) self.new.session.list.calls) (λ fault. IsRefused self.old.session.list.calls (Step.Initiate t parent) fault.cause self.new.session.list.calls) }
        ensures planned { MatchResult result (λ _. OneMore (IsPlanned t self.old.turns body (arc_value self.new.manager) (EXPECTED + OWN_CALLS)) self.old.jobs.items self.new.jobs.items) (λ _. self.new.jobs.items ≡ self.old.jobs.items) }
    {
        self.initiate_with_room(rt, t, parent, body, EXPECTED)
    }

    /// Initiates a transaction for the body, with a session of its own that has room for the job's begin, complete and commit,
    /// and for so many operations; if it does more, the session takes memory for them. The body's promise is that it may be
    /// called with any transaction of the plan's manager, and that the `Finished` that it then answers is of that manager. If the
    /// transaction is refused, or the history has no room, or memory runs out, the body comes back with the cause and the plan has
    /// no job more; a refusal is one call more in its session.
    pub fn initiate_with_room<R: Wait>(
        &mut self,
        rt: &R,
        t: Txn,
        parent: Option<Txn>,
        body: Body,
        operations: usize,
    ) -> Result<(), InitFault>
        requires ready { (tx : Working) → tx.manager ≡ arc_value self.old.manager → pre body tx }
        requires same { (tx : Working) (f : Worked) → tx.manager ≡ arc_value self.old.manager → post body tx f → f.of ≡ Some tx.manager }
        ensures manager { arc_value self.new.manager ≡ arc_value self.old.manager }
        ensures of { IsOf self.new.session.of (arc_value self.new.manager) }
        ensures turns { self.new.turns ≡ self.old.turns }
        ensures back { IfErr result (λ fault. fault.body ≡ body) }
        ensures names { MatchResult result (λ _. self.new.names.items ≡ self.old.names.items ++ t ∷ []) (λ _. self.new.names.items ≡ self.old.names.items) }
        ensures asked { MatchResult result (λ _. IsInitiated self.old.session.list.calls (Step.Initiate t parent) self.new.session.list.calls) (λ fault. IsRefused self.old.session.list.calls (Step.Initiate t parent) fault.cause self.new.session.list.calls) }
        ensures planned { MatchResult result (λ _. OneMore (IsPlanned t self.old.turns body (arc_value self.new.manager) (operations + OWN_CALLS)) self.old.jobs.items self.new.jobs.items) (λ _. self.new.jobs.items ≡ self.old.jobs.items) }
    {
        if self.make_room(1).is_err() {
            return Err(fault(body, Cause::NoMemory));
        }
        let Ok(session) = session_for(&mut self.session, operations) else {
            return Err(fault(body, Cause::NoMemory));
        };
        let (Ok(manager), Ok(lent)) = (Arc::try_clone(&self.manager), Arc::try_clone(&self.manager))
        else {
            self.session.join(session);
            return Err(fault(body, Cause::NoMemory));
        };
        let outcome = self
            .session
            .call_lent(rt, &self.manager, &Step::Initiate { t, parent });
        if let Some(cause) = cause_of(outcome) {
            self.session.join(session);
            return Err(fault(body, cause));
        }
        let place = self.names.len();
        let job = Planned::new(place, t, self.turns, session, manager, lent, body);
        self.names.push_reserved(t);
        self.jobs.push_reserved(job);
        Ok(())
    }

    /// Has the jobs run by so many workers, 64 at most, of which one works in this thread and the others each in a thread of its
    /// own, and returns what came of them. A worker takes a job, begins its transaction, calls its body, and asks the commit of
    /// what the body answered as done; when all workers have ended, the commits that wait are asked again, in passes until a
    /// pass changes nothing. A job whose begin is not answered `Done` is left, and comes back with its name and its body.
    ///
    /// It fails with `NoWorkers` if there are none; otherwise with `NoMemory` if memory ran out before each job was
    /// taken, and then a job is left unless there are no jobs; otherwise with `Stranger` for the first job whose body
    /// answered another's `Finished`. The fault has what came of the jobs all the same. Only a plan without jobs that is
    /// refused memory loses its session.
    pub fn run<R: Runtime, G: Gate>(
        self,
        rt: &R,
        workers: usize,
        gate: &G,
    ) -> Result<Report, RunFault>
        ensures ok { IfOk result (λ r. (runs : List JobRun) × Comes self.names.items self.session.list.calls runs r.ends.items (map (λ j. j.name) r.left.items) (map (λ (s : Asker). s.list.calls) r.sessions.items) × (first_stranger runs ≡ None) × RunsOf (λ j. RunsBody (Body.post j.body) j.name (arc_value j.manager) j.session.list.calls) self.jobs.items runs × (map (λ l. (l.name, l.body)) r.left.items ≡ left_among (λ j. j.name) (λ j. j.body) self.jobs.items runs)) }
        ensures err { IfErr result (λ e. (runs : List JobRun) × ComesOrLost self.names.items self.session.list.calls runs e.report.ends.items (map (λ j. j.name) e.report.left.items) (map (λ (s : Asker). s.list.calls) e.report.sessions.items) × IsCause workers runs e.cause × RunsOf (λ j. RunsBody (Body.post j.body) j.name (arc_value j.manager) j.session.list.calls) self.jobs.items runs × (map (λ l. (l.name, l.body)) e.report.left.items ≡ left_among (λ j. j.name) (λ j. j.body) self.jobs.items runs)) }
        ensures workers { OnOk result (0 < workers) }
        ensures session { MatchResult result (λ r. (rest : List Asker) × (r.sessions.items ≡ self.session ∷ rest)) (λ e. ((self.names.items ≡ []) × (e.report.sessions.items ≡ [])) ⊎ ((rest : List Asker) × (e.report.sessions.items ≡ self.session ∷ rest))) }
    {
        let Plan {
            manager: _,
            session,
            turns: _,
            alloc,
            names,
            jobs,
            mut rooms,
        } = self;
        let Ok(()) = rooms.reserve(alloc, names.len() + 1) else {
            return Err(no_room(alloc, workers, session, jobs, rooms));
        };
        let Rooms {
            jobs: _,
            slots,
            order,
            firsts,
            ends,
            left: kept,
            sessions,
        } = rooms;
        let (order, cause) = run_jobs(rt, alloc, &names, jobs, workers, gate, slots, order);
        let (report, stranger) = report_on(order, session, firsts, ends, kept, sessions);
        match (cause, stranger) {
            (None, None) => Ok(report),
            (Some(cause), _) => Err(RunFault { report, cause }),
            (None, Some(t)) => Err(RunFault {
                report,
                cause: RunCause::Stranger(t),
            }),
        }
    }
}

/// Returns what a plan without jobs answers if there is no room for its own session, and drops what it owns.
fn no_room(
    alloc: Global,
    workers: usize,
    _session: Session,
    _jobs: Vec<Planned>,
    _rooms: Rooms,
) -> RunFault
    ensures report { (result.report.ends.items ≡ []) × (result.report.left.items ≡ []) × (result.report.sessions.items ≡ []) }
    ensures cause { IsCause workers [] result.cause }
{
    let cause = if workers == 0 {
        RunCause::NoWorkers
    } else {
        RunCause::NoMemory
    };
    RunFault {
        report: Report {
            ends: Vec::new(alloc),
            left: Vec::new(alloc),
            sessions: Vec::new(alloc),
        },
        cause,
    }
}

/// Returns a body that was not taken, with the cause.
fn fault(body: Body, cause: Cause) -> InitFault
    ensures { (result.body ≡ body) × (result.cause ≡ cause) }
{
    InitFault { body, cause }
}
