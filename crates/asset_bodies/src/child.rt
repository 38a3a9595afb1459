//! A child, which runs on its parent's thread.

ghost use Rattle.std.specs.Prelude.{◌≡◌, ◌≤◌, ◌+◌, true, length, MatchBool, Some};
ghost use Rattle.asset_names.specs.OpSets.{op_set};
ghost use Rattle.asset_bodies.specs.declared.child.ChildEnd.TheVariants as ChildEnd;
ghost use Rattle.asset_bodies.specs.Asked.{InTurn};
ghost use Rattle.asset_bodies.specs.Working.{IsSame};
ghost use Rattle.asset_bodies.specs.Child.{begins, Begun, FailsToBegin, Closes};
ghost use Rattle.asset_bodies.specs.Run.{RunsChild};

use crate::agent::{Agent, is_done};
use crate::ends::{JobEnd, job_end};
use crate::tx::{Finished, Tx};
use asset_names::{Fault, ObSet, Ops, Outcome, Step, Txn};
use std::sync::Wait;

/// What a transaction does. It is called at most once, with the transaction, and answers it ended. Its promise is that
/// the `Finished` that it answers is of the same manager; it need not be of the same transaction.
pub type Body = Box<dyn FnOnce(Tx) -> Finished + Send>;

/// How a child ended.
#[derive(Drop)]
pub enum ChildEnd {
    /// It has committed: its parent answers for what it did.
    Committed,
    /// It has aborted, and what it did is undone.
    Aborted,
    /// Neither was answered.
    Unsettled,
    /// Its body was not called, and comes back.
    NotBegun(Body),
    /// Its body answered the `Finished` of this other transaction.
    Stranger(Txn),
}

/// Asks each step before the body once, up to the first that is not answered `Done`, and returns whether each was. A
/// child that was initiated and does not begin is aborted.
fn begin_child<R: Wait>(rt: &R, agent: &mut Agent, parent: Txn, child: Txn) -> bool
    ensures manager { agent.new.manager ≡ agent.old.manager }
    ensures room { agent.old.list.room ≤ agent.new.list.room }
    ensures asked { MatchBool result (Begun parent child agent.old.list.calls agent.new.list.calls) (FailsToBegin parent child agent.old.list.calls agent.new.list.calls) }
    ensures begun { result ≡ true → length agent.new.list.calls ≡ length agent.old.list.calls + 3 }
    ensures few { length agent.new.list.calls ≤ length agent.old.list.calls + 4 }
{
    let initiate = Step::Initiate {
        t: child,
        parent: Some(parent),
    };
    if !agent.ask_done(rt, &initiate) {
        return false;
    }
    if permit_and_begin(rt, agent, parent, child) {
        return true;
    }
    agent.ask_once(rt, &Step::Abort { t: child });
    false
}

/// Returns the set of all operations.
fn all_operations() -> Ops
    ensures { result ≡ op_set true true true }
{
    Ops::with_add(true, true)
}

/// Permits the child all operations on all objects, and begins it; returns whether both were answered `Done`.
fn permit_and_begin<R: Wait>(rt: &R, agent: &mut Agent, parent: Txn, child: Txn) -> bool
    ensures manager { agent.new.manager ≡ agent.old.manager }
    ensures room { agent.old.list.room ≤ agent.new.list.room }
    ensures asked { InTurn (begins parent child) agent.old.list.calls result agent.new.list.calls }
{
    let permit = Step::Permit {
        giver: parent,
        taker: child,
        obs: ObSet::All,
        ops: all_operations(),
    };
    agent.ask_done(rt, &permit) && agent.ask_done(rt, &Step::Begin { t: child })
}

/// Asks the steps after the body.
fn close_child<R: Wait>(
    rt: &R,
    agent: &mut Agent,
    parent: Txn,
    child: Txn,
    done: bool,
    met: Option<Result<Outcome, Fault>>,
)
    ensures manager { agent.new.manager ≡ agent.old.manager }
    ensures room { agent.old.list.room ≤ agent.new.list.room }
    ensures asked { Closes parent child done (Rattle.asset_bodies.specs.Asked.is_done met) agent.old.list.calls agent.new.list.calls }
    ensures few { length agent.new.list.calls ≤ length agent.old.list.calls + 2 }
{
    if !done {
        return;
    }
    if !is_done(met) {
        agent.ask_once(rt, &Step::Abort { t: child });
        return;
    }
    let delegate = Step::Delegate {
        giver: child,
        taker: parent,
        obs: ObSet::All,
    };
    let last = if agent.ask_done(rt, &delegate) {
        Step::Commit { t: child }
    } else {
        Step::Abort { t: child }
    };
    agent.ask_once(rt, &last);
}

impl Tx {
    /// Runs a child of this transaction by the body, on this thread, and returns how it ended.
    ///
    /// The child is initiated, permitted all operations on all objects although they conflict with its parent's, and
    /// begun, each asked once. If one of these is not answered `Done`, or if there is no room or no memory, the body
    /// comes back; a child that was initiated is aborted first. Once the body is done, the child's work is handed over
    /// to this transaction, and the child is committed; if it did not complete or could not hand over, it is aborted.
    /// If the body answers the `Finished` of another transaction, nothing more is asked, and this transaction goes on
    /// with the session of that one.
    ///
    /// Requires that the body may be called with any transaction of this manager, and that the `Finished` that it then
    /// answers is of this manager.
    pub fn run_child<R: Wait>(self, rt: &R, child: Txn, body: Body) -> (Tx, ChildEnd)
        requires ready { (tx : Tx) → tx.manager ≡ self.manager → pre body tx }
        requires same { (tx : Tx) (f : Finished) → tx.manager ≡ self.manager → post body tx f → f.of ≡ Some tx.manager }
        ensures own { IsSame self result.0 }
        ensures back { (b : _) → result.1 ≡ ChildEnd.NotBegun b → b ≡ body }
        ensures ran { RunsChild (post body) self child result.0 result.1 }
    {
        let mut tx = self;
        let room = tx.make_room(6);
        let (name, owed, turns, mut agent) = tx.into_parts();
        let manager = agent.share_manager();
        let (Ok(()), Some(manager), Some(more)) = (room, manager, owed.checked_add(3)) else {
            return (Tx::new(name, owed, turns, agent), ChildEnd::NotBegun(body));
        };
        if !begin_child(rt, &mut agent, name, child) {
            return (Tx::new(name, owed, turns, agent), ChildEnd::NotBegun(body));
        }
        let finished = body(Tx::new(child, more, turns, agent));
        let (by, done, met, session) = finished.into_parts();
        let mut agent = Agent::new(session, manager);
        if by.0 != child.0 {
            return (Tx::new(name, owed, turns, agent), ChildEnd::Stranger(by));
        }
        close_child(rt, &mut agent, name, child, done, met);
        let end = match job_end(child, agent.calls()) {
            JobEnd::Committed => ChildEnd::Committed,
            JobEnd::Aborted => ChildEnd::Aborted,
            JobEnd::Unsettled => ChildEnd::Unsettled,
        };
        (Tx::new(name, owed, turns, agent), end)
    }
}
