//! What bodies do.

ghost use Rattle.std.specs.Prelude.{◌≡◌, Some};
ghost use Rattle.asset_bodies.specs.Working.{IsSame, Working, Worked};

use asset_names::{Fault, Kind, Ob, ObList, ObSet, Op, Ops, Outcome, Reply, Step, Txn};
use asset_runner::{Body, ChildEnd, Finished, Tx};
use std::alloc::Global;
use std::sync::atomic::{AtomicU64, Ordering};
use std::sync::{Arc, Wait};

/// What a body does that boxes no other.
#[derive(Clone, Copy)]
pub(crate) enum Work {
    /// Ends at once as done.
    Nothing,
    /// Writes a value to an object, and ends as done, whatever the answer was.
    Writes(u64, u32),
    /// Writes a value to an object, and gives up, whatever the answer was.
    GivesUp(u64, u32),
    /// Depends on a transaction, by a commit dependency, and ends as done.
    WaitsFor(u64),
    /// Completes its transaction, and answers the `Finished` of another, which it asks to complete by its own session.
    AnswersFor(u64),
}

/// What the body of a job does.
#[derive(Clone, Copy)]
pub(crate) enum Task {
    /// Work that boxes no other body.
    Does(Work),
    /// Writes 50 to object 1, runs a child of this name that does this work, reads object 2, and is done.
    RunsChild(u64, Work),
    /// Permits 8 to read and write all objects, hands all over to it, makes 8 depend on 7, and is done.
    SharesWithEight,
    /// Lets anybody read object 1, and is done.
    OpensOne,
}

impl Task {
    /// Returns what the child does, and `Nothing` if the task runs none.
    pub(crate) fn of_child(self) -> Work {
        match self {
            Task::RunsChild(_, work) => work,
            _ => Work::Nothing,
        }
    }
}

/// Writes an object. If memory runs out once, it is asked again.
fn write_again<R: Wait>(rt: &R, tx: &mut Tx, x: u64, v: u32) -> Result<Outcome, Fault>
    ensures { IsSame tx.old tx.new }
{
    match tx.write(rt, Ob(x), i64::from(v)) {
        Err(Fault::NoMemory) => tx.write(rt, Ob(x), i64::from(v)),
        answer => answer,
    }
}

/// Completes its transaction, and answers the `Finished` of another.
fn answers_for<R: Wait>(rt: &R, tx: Tx, other: u64) -> Finished
    ensures { result.of ≡ Some tx.manager }
{
    let mut tx = tx;
    let _ = tx.make_room(2);
    let (name, owed, turns, mut agent) = tx.into_parts();
    let _ = agent.ask_once(rt, &Step::Complete { t: name });
    Tx::new(Txn(other), owed, turns, agent).done(rt)
}

/// Does the work.
pub(crate) fn does<R: Wait>(rt: &R, tx: Tx, work: Work) -> Finished
    ensures { result.of ≡ Some tx.manager }
{
    let mut tx = tx;
    match work {
        Work::Nothing => tx.done(rt),
        Work::Writes(x, v) => {
            let _ = write_again(rt, &mut tx, x, v);
            tx.done(rt)
        }
        Work::GivesUp(x, v) => {
            let _ = write_again(rt, &mut tx, x, v);
            tx.give_up(rt)
        }
        Work::WaitsFor(source) => {
            let own = tx.name();
            let _ = tx.depend(rt, Kind::Cd, Txn(source), own);
            tx.done(rt)
        }
        Work::AnswersFor(other) => answers_for(rt, tx, other),
    }
}

/// What a body notes: how its child ended, and what it read then.
#[derive(Drop)]
pub(crate) struct Notes {
    end: AtomicU64,
    read: AtomicU64,
}

impl Notes {
    /// Returns notes of nothing, which are zeros.
    pub(crate) fn none() -> Notes {
        Notes {
            end: AtomicU64::new(0),
            read: AtomicU64::new(0),
        }
    }

    /// Returns what was noted.
    pub(crate) fn shown(&self) -> (u64, u64) {
        (
            self.end.load(Ordering::SeqCst),
            self.read.load(Ordering::SeqCst),
        )
    }
}

/// Returns a number for how a child ended.
fn number_of(end: ChildEnd) -> u64 {
    match end {
        ChildEnd::Committed => 1,
        ChildEnd::Aborted => 2,
        ChildEnd::Unsettled => 3,
        ChildEnd::NotBegun(_) => 4,
        ChildEnd::Stranger(_) => 5,
    }
}

/// Writes 50 to object 1, runs a child, reads object 2, and is done. Notes how the child ended, and what was read.
fn runs_a_child<R: Wait>(rt: &R, tx: Tx, child: u64, body: Body, notes: &Notes) -> Finished
    requires ready { (tx : Working) → pre body tx }
    requires same { (tx : Working) (f : Worked) → post body tx f → f.of ≡ Some tx.manager }
    ensures { result.of ≡ Some tx.manager }
{
    let mut tx = tx;
    let _ = tx.write(rt, Ob(1), 50);
    let (mut tx, end) = tx.run_child(rt, Txn(child), body);
    notes.end.store(number_of(end), Ordering::SeqCst);
    if let Ok(Outcome::Answer(Reply::Value(v))) = tx.read(rt, Ob(2)) {
        notes.read.store(v.unsigned_abs(), Ordering::SeqCst);
    }
    tx.done(rt)
}

/// Returns whether a step was answered `Done`.
fn is_done(outcome: Result<Outcome, Fault>) -> bool {
    outcome == Ok(Outcome::Answer(Reply::Done))
}

/// Permits 8 to read and write all objects, hands all over to it, and makes 8 depend on 7; is done. Notes how many of them were
/// answered `Done`.
fn shares_with_eight<R: Wait>(rt: &R, tx: Tx, notes: &Notes) -> Finished
    ensures { result.of ≡ Some tx.manager }
{
    let mut tx = tx;
    let both = Ops::only(Op::Read).with(Op::Write);
    let permitted = is_done(tx.permit(rt, Txn(8), ObSet::All, both));
    let handed = is_done(tx.delegate(rt, Txn(8), ObSet::All));
    let tied = is_done(tx.depend(rt, Kind::Cd, Txn(7), Txn(8)));
    notes.read.store(
        u64::from(permitted) + u64::from(handed) + u64::from(tied),
        Ordering::SeqCst,
    );
    tx.done(rt)
}

/// Lets anybody read object 1; is done. Notes whether it was answered `Done`.
fn opens_one<R: Wait>(rt: &R, tx: Tx, notes: &Notes) -> Finished
    ensures { result.of ≡ Some tx.manager }
{
    let mut tx = tx;
    let opened = is_done(tx.permit_any(rt, ObList::one(Ob(1)), Ops::only(Op::Read)));
    notes.read.store(u64::from(opened), Ordering::SeqCst);
    tx.done(rt)
}

/// Does the task. Only a task that runs a child calls `body`.
fn act<R: Wait>(rt: &R, tx: Tx, task: Task, body: Body, notes: &Notes) -> Finished
    requires ready { (tx : Working) → pre body tx }
    requires same { (tx : Working) (f : Worked) → post body tx f → f.of ≡ Some tx.manager }
    ensures { result.of ≡ Some tx.manager }
{
    match task {
        Task::Does(work) => does(rt, tx, work),
        Task::RunsChild(child, _) => runs_a_child(rt, tx, child, body, notes),
        Task::SharesWithEight => shares_with_eight(rt, tx, notes),
        Task::OpensOne => opens_one(rt, tx, notes),
    }
}

/// Does the task. Only a task that runs a child calls `body`. Without notes it is done at once.
pub(crate) fn acts<R: Wait>(
    rt: &R,
    tx: Tx,
    task: Task,
    body: Body,
    notes: Option<Arc<Notes, Global>>,
) -> Finished
    requires ready { (tx : Working) → pre body tx }
    requires same { (tx : Working) (f : Worked) → post body tx f → f.of ≡ Some tx.manager }
    ensures { result.of ≡ Some tx.manager }
{
    let Some(notes) = notes else {
        return tx.done(rt);
    };
    act(rt, tx, task, body, &notes)
}
