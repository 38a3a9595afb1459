//! What came of a job.

ghost use Rattle.std.specs.Prelude.{◌≡◌, true, false, Some, None};
ghost use Rattle.asset_names.specs.declared.replies.Outcome.TheVariants.{Wait as Waits};
ghost use Rattle.std.specs.Arc.{arc_value};
ghost use Rattle.asset_counts.specs.Pass.{IsOf};
ghost use Rattle.asset_runner.specs.Runs.{is_called, is_strange};
ghost use Rattle.asset_runner.specs.Fates.{answered_by, body_of, waits_by, AsksCommit};
ghost use Rattle.asset_runner.specs.Arrived.{left_at, GoesOn};

use crate::returned::Returned;
use asset_bodies::{Body, Finished};
use asset_manager::{Manager, Session};
use asset_names::{Outcome, Txn};
use asset_queue::Ticketed;
use std::alloc::Global;
use std::sync::{Arc, Wait};

/// Whether the body of a job was called, and then whose `Finished` it answered and whether the commit waits.
#[derive(Drop)]
pub(crate) enum Fate {
    Left(Body),
    Called { answered: Txn, waits: bool },
}

/// What came of a job: its place in the order of initiation, its name, what became of its body, and the session that came back.
#[derive(Drop)]
pub struct Arrival {
    place: usize,
    name: Txn,
    fate: Fate,
    returned: Returned,
}

impl Ticketed for Arrival {
    ghost use Rattle.asset_runner.specs.Arrived.{ticket_of};

    ghost ticket = { λ a. ticket_of a };
}

/// Returns whether the commit was asked and waits.
fn is_wait(outcome: Option<Outcome>) -> bool
    ensures { result ≡ true → outcome ≡ Some Waits }
{
    matches!(outcome, Some(Outcome::Wait))
}

impl Arrival {
    /// Returns a job whose body was not called.
    pub(crate) fn left(
        place: usize,
        name: Txn,
        session: Session,
        manager: Arc<Manager, Global>,
        body: Body,
    ) -> Arrival
        requires { IsOf session.of (arc_value manager) }
        ensures { result ≡ left_at place name body session }
    {
        Arrival {
            place,
            name,
            fate: Fate::Left(body),
            returned: Returned::new(session, manager),
        }
    }

    /// Returns a job whose body answered this. If it is done, the commit is asked once, under its own name.
    pub(crate) fn called<R: Wait>(
        rt: &R,
        place: usize,
        name: Txn,
        manager: Arc<Manager, Global>,
        finished: Finished,
    ) -> Arrival
        requires { finished.of ≡ Some (arc_value manager) }
        ensures place { (result.place ≡ place) × (result.name ≡ name) }
        ensures answered { (answered_by result.fate ≡ Some finished.name) × (body_of result.fate ≡ None) }
        ensures kept { AsksCommit finished.name finished.list.calls result.returned.list.calls }
        ensures waiting { waits_by result.fate ≡ true → (finished.done ≡ true) × (result.returned.list.calls ≡ finished.list.calls) }
        ensures given_up { finished.done ≡ false → result.returned.list.calls ≡ finished.list.calls }
    {
        let (answered, done, _, session) = finished.into_parts();
        let mut returned = Returned::new(session, manager);
        let waits = done && is_wait(returned.commit(rt, answered));
        Arrival {
            place,
            name,
            fate: Fate::Called { answered, waits },
            returned,
        }
    }

    /// Asks the commit again if it waits, and returns whether it was answered.
    pub(crate) fn ask_again<R: Wait>(&mut self, rt: &R) -> bool
        ensures { GoesOn self.old self.new }
    {
        if let Fate::Called {
            answered,
            waits: true,
        } = &self.fate
        {
            let t = *answered;
            if let Some(Outcome::Answer(_)) = self.returned.commit(rt, t) {
                self.fate = Fate::Called {
                    answered: t,
                    waits: false,
                };
                return true;
            }
        }
        false
    }

    /// Returns the job's place in the order of initiation.
    pub(crate) fn place(&self) -> usize
        ensures { result ≡ self.now.place }
    {
        self.place
    }

    /// Returns the job's name.
    pub(crate) fn name(&self) -> Txn
        ensures { result ≡ self.now.name }
    {
        self.name
    }

    /// Returns whose `Finished` the body answered, if it was called.
    pub(crate) fn answered(&self) -> Option<Txn>
        ensures { result ≡ answered_by self.now.fate }
    {
        match &self.fate {
            Fate::Left(_) => None,
            Fate::Called { answered, waits: _ } => Some(*answered),
        }
    }

    /// Returns whether the body was called.
    pub(crate) fn is_called(&self) -> bool
        ensures { result ≡ is_called (answered_by self.now.fate) }
    {
        match self.answered() {
            None => false,
            Some(_) => true,
        }
    }

    /// Returns whether the body answered another's `Finished`.
    pub(crate) fn is_strange(&self) -> bool
        ensures { result ≡ is_strange self.now.name (answered_by self.now.fate) }
    {
        match self.answered() {
            None => false,
            Some(u) => u.0 != self.name.0,
        }
    }

    /// Returns the session that came back.
    pub(crate) fn session(&self) -> &Session
        ensures { result.now ≡ self.now.returned }
    {
        self.returned.session()
    }

    /// Returns the name, the session, and the body if it was not called.
    pub(crate) fn into_parts(self) -> (Txn, Session, Option<Body>)
        ensures name { result.0 ≡ self.name }
        ensures session { result.1 ≡ self.returned }
        ensures left { result.2 ≡ body_of self.fate }
    {
        let Arrival {
            place: _,
            name,
            fate,
            returned,
        } = self;
        let body = match fate {
            Fate::Left(body) => Some(body),
            Fate::Called { .. } => None,
        };
        (name, returned.into_session(), body)
    }
}
