//! Clients of a manager.

use crate::calls::Asset;
use asset_manager::{Manager, Session};
use asset_names::{Fault, Outcome, Step};
use std::marker::Model;
use std::sync::Wait;

/// Asks a manager by a session of it. Contracts see the manager's word and the session.
#[derive(Drop)]
pub struct Client<'a, R: Wait> {
    /// What lets a thread wait for the manager's lock.
    pub rt: &'a R,
    /// The manager.
    pub manager: &'a Manager,
    /// The session.
    pub session: Session,
}

impl<'a, R: Wait> Model for Client<'a, R> {
    ghost use Rattle.asset_counts.specs.Pass.{IsOf};
    ghost use Rattle.asset_models.specs.Clients.{ClientSession};

    ghost Value = { ClientSession };

    ghost view = { λ client. record { manager = client.manager.now; session = client.session } };

    ghost invariant = { λ client. IsOf client.session.of client.manager.now };
}

impl<'a, R: Wait> Asset for Client<'a, R> {
    ghost use Rattle.std.specs.Prelude.{◌≡◌};
    ghost use Rattle.asset_manager.specs.Asks.{Asks};
    ghost use Rattle.asset_models.specs.Calls.{called};
    ghost use Rattle.asset_models.specs.Clients.{calls_by};

    ghost calls = { calls_by };

    fn step(&mut self, step: Step) -> Result<Outcome, Fault>
        ensures calls { calls_by self.new ≡ called (calls_by self.old) step result }
        ensures asked { Asks self.old.session step result self.new.session }
        ensures manager { self.new.manager ≡ self.old.manager }
    {
        self.session.call(self.rt, self.manager, step)
    }

    fn step_lent(&mut self, step: &Step) -> Result<Outcome, Fault>
        ensures calls { calls_by self.new ≡ called (calls_by self.old) step.now result }
        ensures asked { Asks self.old.session step.now result self.new.session }
        ensures manager { self.new.manager ≡ self.old.manager }
    {
        self.session.call_lent(self.rt, self.manager, step)
    }
}
