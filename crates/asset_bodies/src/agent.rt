//! Who asks steps of a manager by a session.

ghost use Rattle.std.specs.Prelude.{◌≡◌, ◌≤◌, ◌<◌, ◌+◌, ◌∷◌, [], true, length, OnOk, IfSome, MatchOption, Some};
ghost use Rattle.std.specs.Arc.{arc_value};
ghost use Rattle.asset_names.specs.Answers.{takes_memory};
ghost use Rattle.asset_manager.specs.Listed.{IsListed};
ghost use Rattle.asset_bodies.specs.Asked.{AreCallsAfter, HadMemory, InTurn};

use asset_manager::{Manager, Session};
use asset_names::{Fault, NoMemory, Outcome, Reply, Step};
use std::alloc::Global;
use std::marker::Model;
use std::sync::{Arc, Wait};

/// A session that was used with its manager, and the manager. Contracts see which manager it is, and the session's
/// list.
pub struct Agent {
    session: Session,
    manager: Arc<Manager, Global>,
}

impl Model for Agent {
    ghost use Rattle.std.specs.Prelude.{◌≡◌, Some};
    ghost use Rattle.std.specs.Arc.{arc_value};
    ghost use Rattle.asset_bodies.specs.Working.{Asking};

    ghost Value = { Asking };

    ghost view = { λ a. record { manager = arc_value a.manager; list = a.session.list } };

    ghost invariant = { λ a. a.session.of ≡ Some (arc_value a.manager) };
}

/// Returns whether the step was asked and answered `Done`.
pub fn is_done(met: Option<Result<Outcome, Fault>>) -> bool
    ensures { result ≡ Rattle.asset_bodies.specs.Asked.is_done met }
{
    match met {
        Some(Ok(Outcome::Answer(Reply::Done))) => true,
        _ => false,
    }
}

impl Agent {
    /// Returns who asks by this session, which was used with the manager before.
    pub fn new(session: Session, manager: Arc<Manager, Global>) -> Agent
        requires { session.of ≡ Some (arc_value manager) }
        ensures { (result.manager ≡ arc_value manager) × (result.list ≡ session.list) }
    {
        Agent { session, manager }
    }

    /// Returns the session and the manager.
    pub fn into_parts(self) -> (Session, Arc<Manager, Global>)
        ensures manager { arc_value result.1 ≡ self.manager }
        ensures session { (result.0.of ≡ Some self.manager) × (result.0.list ≡ self.list) }
    {
        let Agent { session, manager } = self;
        (session, manager)
    }

    /// Returns the session's recorded calls.
    pub fn calls(&self) -> &[(usize, Step, Reply)]
        ensures { result.now ≡ self.now.list.calls }
    {
        self.session.calls()
    }

    /// Returns the manager once more, and `None` if it has too many owners.
    pub fn share_manager(&self) -> Option<Arc<Manager, Global>>
        ensures { IfSome result (λ manager. arc_value manager ≡ self.now.manager) }
    {
        Arc::try_clone(&self.manager).ok()
    }

    /// Makes room in the list for `count` more calls. It answers `NoMemory` if memory runs out, and then nothing has
    /// changed.
    pub fn make_room(&mut self, count: usize) -> Result<(), NoMemory>
        ensures same { (self.new.manager ≡ self.old.manager) × (self.new.list.calls ≡ self.old.list.calls) }
        ensures room { OnOk result (length self.new.list.calls + count ≤ self.new.list.room) }
        ensures kept { self.old.list.room ≤ self.new.list.room }
    {
        self.session.reserve(count)
    }

    /// Asks one step: while the answer is to wait it asks again, at most `turns` times, or without such a bound until
    /// it is answered.
    pub fn ask<R: Wait>(
        &mut self,
        rt: &R,
        turns: Option<u32>,
        step: &Step,
    ) -> Result<Outcome, Fault>
        ensures manager { self.new.manager ≡ self.old.manager }
        ensures asked { IsListed self.old.list.calls step.now result self.new.list.calls }
        ensures room { self.old.list.room ≤ self.new.list.room }
    {
        match turns {
            Some(turns) => self.session.call_turns_lent(rt, &self.manager, step, turns),
            None => {
                let reply = self.session.call_wait_lent(rt, &self.manager, step)?;
                Ok(Outcome::Answer(reply))
            }
        }
    }

    /// Asks one step once, if the list has room for its answer.
    pub fn ask_once<R: Wait>(&mut self, rt: &R, step: &Step) -> Option<Result<Outcome, Fault>>
        ensures manager { self.new.manager ≡ self.old.manager }
        ensures asked { AreCallsAfter self.old.list.calls step.now result self.new.list.calls }
        ensures room { self.old.list.room ≤ self.new.list.room }
        ensures if_room { MatchOption result (self.old.list.room ≤ length self.old.list.calls) (λ _. length self.old.list.calls < self.old.list.room) }
        ensures memory { length self.old.list.calls < self.old.list.room → (takes_memory step.now ≡ true → ⊥) → HadMemory result }
    {
        if !self.session.has_room(1) {
            return None;
        }
        Some(self.session.call_lent(rt, &self.manager, step))
    }

    /// Asks one step once, if the list has room for its answer, and returns whether it was answered `Done`.
    pub fn ask_done<R: Wait>(&mut self, rt: &R, step: &Step) -> bool
        ensures manager { self.new.manager ≡ self.old.manager }
        ensures asked { InTurn (step.now ∷ []) self.old.list.calls result self.new.list.calls }
        ensures room { self.old.list.room ≤ self.new.list.room }
    {
        let met = self.ask_once(rt, step);
        is_done(met)
    }
}
