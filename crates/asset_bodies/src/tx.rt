//! A transaction on which a body works, and one that its body has ended.

ghost use Rattle.std.specs.Prelude.{◌≡◌, ◌≤◌, ◌<◌, ◌+◌, true, false, length, OnOk, MatchOption, Some};
ghost use Rattle.asset_names.specs.declared.steps.Step.TheVariants as Step;
ghost use Rattle.asset_names.specs.Answers.{takes_memory};
ghost use Rattle.asset_manager.specs.Listed.{IsListed};
ghost use Rattle.asset_bodies.specs.Asked.{AreCallsAfter, HadMemory};
ghost use Rattle.asset_bodies.specs.Working.{HasRoom, IsSame};

use crate::agent::Agent;
use asset_manager::Session;
use asset_names::{Fault, Kind, NoMemory, Ob, ObList, ObSet, Ops, Outcome, Step, Txn};
use std::marker::Model;
use std::sync::Wait;

/// A transaction that has begun, on which a body works. It cannot be dropped: a body ends it by `done` or `give_up`, which alone
/// make a `Finished`. `new` and `into_parts` are for those who run bodies, as `asset_runner` does.
///
/// Each operation makes room in the session's list first, for its own entry and for those that the transaction's end and
/// the ends of its callers still need, and answers `NoMemory` if it cannot: so an end finds room, unless a child's body
/// answered another's `Finished`. Contracts see the name, the manager, the list, and how many entries those ends need.
pub struct Tx {
    name: Txn,
    owed: usize,
    turns: Option<u32>,
    agent: Agent,
}

impl Model for Tx {
    ghost use Rattle.asset_bodies.specs.Working.{Working};

    ghost Value = { Working };

    ghost view = { λ t. record { name = t.name; manager = t.agent.manager; list = t.agent.list; owed = t.owed } };
}

/// A transaction that its body has ended, with the session by which it asked. `Tx::done` and `Tx::give_up` alone make
/// one. Contracts see its name, whether it is done or was given up, what its last step met, and its session.
#[derive(Drop)]
pub struct Finished {
    name: Txn,
    done: bool,
    met: Option<Result<Outcome, Fault>>,
    session: Session,
}

impl Model for Finished {
    ghost use Rattle.asset_bodies.specs.Working.{Worked};

    ghost Value = { Worked };

    ghost view = { λ f. record { name = f.name; done = f.done; met = f.met; of = f.session.of; list = f.session.list } };
}

impl Tx {
    /// Returns a transaction that has begun, whose end and its callers' ends need `owed` entries. Its operations ask
    /// again at most `turns` times while the answer is to wait, or without such a bound until they are answered.
    pub fn new(name: Txn, owed: usize, turns: Option<u32>, agent: Agent) -> Tx
        ensures own { (result.name ≡ name) × (result.manager ≡ agent.manager) × (result.owed ≡ owed) }
        ensures list { result.list ≡ agent.list }
    {
        Tx {
            name,
            owed,
            turns,
            agent,
        }
    }

    /// Returns the name, the entries that the ends need, the turns, and who asks.
    pub fn into_parts(self) -> (Txn, usize, Option<u32>, Agent)
        ensures own { (result.0 ≡ self.name) × (result.1 ≡ self.owed) }
        ensures agent { (result.3.manager ≡ self.manager) × (result.3.list ≡ self.list) }
    {
        let Tx {
            name,
            owed,
            turns,
            agent,
        } = self;
        (name, owed, turns, agent)
    }

    /// Returns the name.
    pub fn name(&self) -> Txn
        ensures { result ≡ self.now.name }
    {
        self.name
    }

    /// Makes room for `entries` more, and for those that the ends need. It answers `NoMemory` if memory runs out, and
    /// then nothing has changed.
    pub fn make_room(&mut self, entries: usize) -> Result<(), NoMemory>
        ensures same { IsSame self.old self.new }
        ensures calls { self.new.list.calls ≡ self.old.list.calls }
        ensures room { OnOk result (length self.new.list.calls + (entries + self.new.owed) ≤ self.new.list.room) }
        ensures kept { self.old.list.room ≤ self.new.list.room }
    {
        match entries.checked_add(self.owed) {
            Some(all) => self.agent.make_room(all),
            None => Err(NoMemory),
        }
    }

    /// Asks an operation, once it has made room for it.
    fn ask<R: Wait>(&mut self, rt: &R, step: &Step) -> Result<Outcome, Fault>
        ensures same { IsSame self.old self.new }
        ensures asked { IsListed self.old.list.calls step.now result self.new.list.calls }
        ensures room { OnOk result (HasRoom self.new) }
        ensures kept { HasRoom self.old → HasRoom self.new }
    {
        if self.make_room(1).is_err() {
            return Err(Fault::NoMemory);
        }
        self.agent.ask(rt, self.turns, step)
    }

    /// Reads an object. The faults are those of the facility, and `NoMemory` if there is no room in the list.
    pub fn read<R: Wait>(&mut self, rt: &R, x: Ob) -> Result<Outcome, Fault>
        ensures same { IsSame self.old self.new }
        ensures asked { IsListed self.old.list.calls (Step.Read self.old.name x) result self.new.list.calls }
        ensures room { OnOk result (HasRoom self.new) }
        ensures kept { HasRoom self.old → HasRoom self.new }
    {
        self.ask(rt, &Step::Read { t: self.name, x })
    }

    /// Writes an object. The faults are those of `read`.
    pub fn write<R: Wait>(&mut self, rt: &R, x: Ob, v: i64) -> Result<Outcome, Fault>
        ensures same { IsSame self.old self.new }
        ensures asked { IsListed self.old.list.calls (Step.Write self.old.name x v) result self.new.list.calls }
        ensures room { OnOk result (HasRoom self.new) }
        ensures kept { HasRoom self.old → HasRoom self.new }
    {
        self.ask(rt, &Step::Write { t: self.name, x, v })
    }

    /// Adds the amount to an object; the sum wraps. The faults are those of `read`.
    pub fn add<R: Wait>(&mut self, rt: &R, x: Ob, d: i64) -> Result<Outcome, Fault>
        ensures same { IsSame self.old self.new }
        ensures asked { IsListed self.old.list.calls (Step.Add self.old.name x d) result self.new.list.calls }
        ensures room { OnOk result (HasRoom self.new) }
        ensures kept { HasRoom self.old → HasRoom self.new }
    {
        self.ask(rt, &Step::Add { t: self.name, x, d })
    }

    /// Lets the taker do the operations on the objects although they conflict with its own. The faults are those of
    /// `read`.
    pub fn permit<R: Wait>(
        &mut self,
        rt: &R,
        taker: Txn,
        obs: ObSet,
        ops: Ops,
    ) -> Result<Outcome, Fault>
        ensures same { IsSame self.old self.new }
        ensures asked { IsListed self.old.list.calls (Step.Permit self.old.name taker obs ops) result self.new.list.calls }
        ensures room { OnOk result (HasRoom self.new) }
        ensures kept { HasRoom self.old → HasRoom self.new }
    {
        let own = self.name;
        self.ask(
            rt,
            &Step::Permit {
                giver: own,
                taker,
                obs,
                ops,
            },
        )
    }

    /// Lets anybody do the operations on the objects, as long as it is live, although they conflict with its own. The faults are
    /// those of `read`.
    pub fn permit_any<R: Wait>(&mut self, rt: &R, obs: ObList, ops: Ops) -> Result<Outcome, Fault>
        ensures same { IsSame self.old self.new }
        ensures asked { IsListed self.old.list.calls (Step.PermitAny self.old.name obs ops) result self.new.list.calls }
        ensures room { OnOk result (HasRoom self.new) }
        ensures kept { HasRoom self.old → HasRoom self.new }
    {
        let giver = self.name;
        self.ask(rt, &Step::PermitAny { giver, obs, ops })
    }

    /// Hands over to the taker what it did on the objects. The faults are those of `read`.
    pub fn delegate<R: Wait>(&mut self, rt: &R, taker: Txn, obs: ObSet) -> Result<Outcome, Fault>
        ensures same { IsSame self.old self.new }
        ensures asked { IsListed self.old.list.calls (Step.Delegate self.old.name taker obs) result self.new.list.calls }
        ensures room { OnOk result (HasRoom self.new) }
        ensures kept { HasRoom self.old → HasRoom self.new }
    {
        let giver = self.name;
        self.ask(rt, &Step::Delegate { giver, taker, obs })
    }

    /// Makes a dependency between two transactions, of which it need not be one. The faults are those of `read`.
    pub fn depend<R: Wait>(&mut self, rt: &R, kind: Kind, a: Txn, b: Txn) -> Result<Outcome, Fault>
        ensures same { IsSame self.old self.new }
        ensures asked { IsListed self.old.list.calls (Step.Depend kind a b) result self.new.list.calls }
        ensures room { OnOk result (HasRoom self.new) }
        ensures kept { HasRoom self.old → HasRoom self.new }
    {
        self.ask(rt, &Step::Depend { kind, a, b })
    }

    /// Asks its last step once, if the list has room for its answer.
    fn end<R: Wait>(self, rt: &R, done: bool, step: &Step) -> Finished
        ensures own { (result.name ≡ self.name) × (result.done ≡ done) × (result.of ≡ Some self.manager) }
        ensures asked { AreCallsAfter self.list.calls step.now result.met result.list.calls }
        ensures room { self.list.room ≤ result.list.room }
        ensures if_room { MatchOption result.met (self.list.room ≤ length self.list.calls) (λ _. length self.list.calls < self.list.room) }
        ensures memory { length self.list.calls < self.list.room → (takes_memory step.now ≡ true → ⊥) → HadMemory result.met }
    {
        let Tx {
            name,
            owed: _,
            turns: _,
            mut agent,
        } = self;
        let met = agent.ask_once(rt, step);
        let (session, _) = agent.into_parts();
        Finished {
            name,
            done,
            met,
            session,
        }
    }

    /// Ends the work as done: asks once to complete. It needs no memory if the list has room, as it has unless a child's
    /// body answered another's `Finished`; without room it asks nothing.
    #[tactic(auto, unfolding(asset_names::specs::Answers::takes_memory))]
    pub fn done<R: Wait>(self, rt: &R) -> Finished
        ensures own { (result.name ≡ self.name) × (result.done ≡ true) × (result.of ≡ Some self.manager) }
        ensures asked { AreCallsAfter self.list.calls (Step.Complete self.name) result.met result.list.calls }
        ensures room { self.list.room ≤ result.list.room }
        ensures if_room { MatchOption result.met (self.list.room ≤ length self.list.calls) (λ _. length self.list.calls < self.list.room) }
        ensures memory { length self.list.calls < self.list.room → HadMemory result.met }
    {
        let step = Step::Complete { t: self.name };
        self.end(rt, true, &step)
    }

    /// Gives the work up: asks once to abort. What it needs is as for `done`.
    #[tactic(auto, unfolding(asset_names::specs::Answers::takes_memory))]
    pub fn give_up<R: Wait>(self, rt: &R) -> Finished
        ensures own { (result.name ≡ self.name) × (result.done ≡ false) × (result.of ≡ Some self.manager) }
        ensures asked { AreCallsAfter self.list.calls (Step.Abort self.name) result.met result.list.calls }
        ensures room { self.list.room ≤ result.list.room }
        ensures if_room { MatchOption result.met (self.list.room ≤ length self.list.calls) (λ _. length self.list.calls < self.list.room) }
        ensures memory { length self.list.calls < self.list.room → HadMemory result.met }
    {
        let step = Step::Abort { t: self.name };
        self.end(rt, false, &step)
    }
}

impl Finished {
    /// Returns the name, whether it is done, what its last step met, and the session.
    pub fn into_parts(self) -> (Txn, bool, Option<Result<Outcome, Fault>>, Session)
        ensures ended { (result.0 ≡ self.name) × (result.1 ≡ self.done) × (result.2 ≡ self.met) }
        ensures session { (result.3.of ≡ self.of) × (result.3.list ≡ self.list) }
    {
        let Finished {
            name,
            done,
            met,
            session,
        } = self;
        (name, done, met, session)
    }
}
