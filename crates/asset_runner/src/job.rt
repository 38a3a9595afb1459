//! The jobs of a plan, and what a worker does with one.

ghost use Rattle.std.specs.Prelude.{◌≡◌, Some, IfSome};
ghost use Rattle.std.specs.Arc.{arc_value};
ghost use base.Stored.{Coded-set};
ghost use Rattle.atomic_table.specs.Seated.{table_id_coded};
ghost use Rattle.asset_counts.specs.Pass.{IsOf, IsOf-prop};
ghost use Rattle.asset_bodies.specs.Working.{Working, Worked};
ghost use Rattle.asset_runner.specs.Arrived.{left_at, DoesJob};
ghost use Rattle.asset_runner.specs.Fates.{body_of};

use crate::arrival::Arrival;
use crate::gate::Gate;
use asset_bodies::{Agent, Body, Tx};
use asset_manager::{Manager, Session};
use asset_names::{Outcome, Reply, Step, Txn};
use asset_queue::{Ticketed, Work};
use std::alloc::Global;
use std::sync::{Arc, Wait};

/// A job that was initiated, with its session and its body, and two references to the manager: one goes into the
/// transaction, and by the other its commit is asked.
#[derive(Drop)]
pub struct Planned {
    place: usize,
    name: Txn,
    turns: Option<u32>,
    session: Session,
    manager: Arc<Manager, Global>,
    lent: Arc<Manager, Global>,
    body: Body,
    ghost ready: { (tx : Working) → tx.manager ≡ arc_value manager → pre body tx },
    ghost same: { ∥ ((tx : Working) (f : Worked) → tx.manager ≡ arc_value manager → post body tx f → f.of ≡ Some tx.manager) ∥₁ },
    ghost fits: { IsOf session.of (arc_value manager) } by { IsOf-prop session.of (arc_value manager) },
    ghost one: { arc_value lent ≡ arc_value manager } by { Coded-set table_id_coded (arc_value lent) (arc_value manager) },
}

impl Ticketed for Planned {
    ghost ticket = { λ j. (j.place, j.name.0) };
}

/// Runs jobs, and tells a gate.
#[derive(Drop)]
pub struct Crew<'a, G: Gate> {
    pub gate: &'a G,
}

impl<'a, G: Gate> Work<Planned, Arrival> for Crew<'a, G> {
    ghost use Rattle.asset_runner.specs.Rows.{ComesOf};

    ghost came = { λ j. ComesOf (Body.post j.body) j };

    fn run<R: Wait>(&self, rt: &R, job: Planned) -> Arrival {
        let name = job.name();
        self.gate.entered(name);
        let arrival = job.run(rt);
        self.gate.left(name);
        arrival
    }
}

impl Planned {
    /// Returns a job whose transaction was initiated.
    pub fn new(
        place: usize,
        name: Txn,
        turns: Option<u32>,
        session: Session,
        manager: Arc<Manager, Global>,
        lent: Arc<Manager, Global>,
        body: Body,
    ) -> Planned
        requires fits { IsOf session.of (arc_value manager) }
        requires one { arc_value lent ≡ arc_value manager }
        requires ready { (tx : Working) → tx.manager ≡ arc_value manager → pre body tx }
        requires same { (tx : Working) (f : Worked) → tx.manager ≡ arc_value manager → post body tx f → f.of ≡ Some tx.manager }
        ensures named { (result.place ≡ place) × (result.name ≡ name) × (result.turns ≡ turns) }
        ensures own { (result.body ≡ body) × (result.session ≡ session) × (arc_value result.manager ≡ arc_value manager) }
    {
        Planned {
            place,
            name,
            turns,
            session,
            manager,
            lent,
            body,
        }
    }

    /// Returns the name.
    pub fn name(&self) -> Txn
        ensures { result ≡ self.now.name }
    {
        self.name
    }

    /// Begins the transaction, calls the body and asks the commit. If the transaction does not begin, the job is left.
    pub fn run<R: Wait>(self, rt: &R) -> Arrival
        ensures place { (result.place ≡ self.place) × (result.name ≡ self.name) }
        ensures called { DoesJob (post self.body) self.name (arc_value self.manager) self.session.list.calls result }
        ensures left { IfSome (body_of result.fate) (λ body. body ≡ self.body) }
    {
        let Planned {
            place,
            name,
            turns,
            mut session,
            manager,
            lent,
            body,
        } = self;
        match session.call_lent(rt, &manager, &Step::Begin { t: name }) {
            Ok(Outcome::Answer(Reply::Done)) => {
                let finished = body(Tx::new(name, 2, turns, Agent::new(session, lent)));
                Arrival::called(rt, place, name, manager, finished)
            }
            _ => Arrival::left(place, name, session, manager, body),
        }
    }

    /// Returns the job as one whose body is not called.
    pub fn leave(self) -> Arrival
        ensures { result ≡ left_at self.place self.name self.body self.session }
    {
        let Planned {
            place,
            name,
            turns: _,
            session,
            manager,
            lent: _,
            body,
        } = self;
        Arrival::left(place, name, session, manager, body)
    }
}
