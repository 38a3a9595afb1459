//! The session that came back from a job.

ghost use Rattle.std.specs.Prelude.{◌≡◌};
ghost use Rattle.std.specs.Arc.{arc_value};
ghost use Rattle.asset_counts.specs.Pass.{IsOf};
ghost use Rattle.asset_runner.specs.Fates.{AsksOnce};

use asset_manager::{Manager, Session};
use asset_names::{Outcome, Step, Txn};
use std::alloc::Global;
use std::marker::Model;
use std::sync::{Arc, Wait};

/// A session that came back from a job, and the manager by which its commit is asked. Contracts see the session.
#[derive(Drop)]
pub struct Returned {
    session: Session,
    manager: Arc<Manager, Global>,
}

impl Model for Returned {
    ghost use Rattle.std.specs.Arc.{arc_value};
    ghost use Rattle.asset_counts.specs.Pass.{IsOf};
    ghost use Rattle.asset_manager.specs.Asker.{Asker};

    ghost Value = { Asker };

    ghost view = { λ a. a.session };

    ghost invariant = { λ a. IsOf a.session.of (arc_value a.manager) };
}

impl Returned {
    /// Returns a session with the manager that it asks.
    pub fn new(session: Session, manager: Arc<Manager, Global>) -> Returned
        requires { IsOf session.of (arc_value manager) }
        ensures { result ≡ session }
    {
        Returned { session, manager }
    }

    /// Returns the session.
    pub fn session(&self) -> &Session
        ensures { result.now ≡ self.now }
    {
        &self.session
    }

    /// Returns the session.
    pub fn into_session(self) -> Session
        ensures { result ≡ self }
    {
        let Returned {
            session,
            manager: _,
        } = self;
        session
    }

    /// Asks the commit once, if the list has room for its answer.
    pub fn commit<R: Wait>(&mut self, rt: &R, t: Txn) -> Option<Outcome>
        ensures { AsksOnce t self.old.list.calls result self.new.list.calls }
    {
        if !self.session.has_room(1) {
            return None;
        }
        self.session
            .call_lent(rt, &self.manager, &Step::Commit { t })
            .ok()
    }
}
