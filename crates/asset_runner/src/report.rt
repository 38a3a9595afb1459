//! What a run tells.

ghost use Rattle.std.specs.Prelude.{◌≡◌, ◌≤◌, ◌<◌, ◌+◌, ◌++◌, ◌∷◌, [], List, length, map, vec_len, vec_capacity};
ghost use Rattle.indexmap.specs.IndexMap.{spare, IsEmpty};
ghost use Rattle.asset_manager.specs.Asker.{Asker};
ghost use Rattle.asset_runner.specs.Runs.{ends_of, first_stranger};
ghost use Rattle.asset_runner.specs.Firsts.{HasFirsts};
ghost use Rattle.asset_runner.specs.Rows.{names_of, runs_of, kept_of};
ghost use Rattle.asset_runner.specs.Comes.{Comes};

use crate::arrival::Arrival;
use crate::firsts::{Firsts, end_in, firsts_of};
use asset_bodies::{Body, JobEnd};
use asset_manager::Session;
use asset_names::Txn;
use thiserror::Error;

/// A job whose body was not called.
#[derive(Drop)]
pub struct Job {
    /// The name of its transaction.
    pub name: Txn,
    /// What it would have done.
    pub body: Body,
}

/// What came of a plan's jobs.
#[derive(Drop)]
pub struct Report {
    /// How each job ended whose body was called, in order of initiation: as its last commit or abort was answered in the session
    /// that came back in the first `Finished` of its name. It is unsettled if none came back or neither was answered.
    pub ends: Vec<(Txn, JobEnd)>,
    /// The jobs whose bodies were not called, in order of initiation. No begin of theirs was answered `Done`.
    pub left: Vec<Job>,
    /// The plan's session, and then the session that came back from each job, in order of initiation.
    pub sessions: Vec<Session>,
}

/// Why a run did not go as planned.
#[derive(Clone, Copy, Debug, PartialEq, Eq, Error)]
pub enum RunCause {
    /// There were no workers.
    #[error("no workers")]
    NoWorkers,
    /// Memory ran out.
    #[error("no memory")]
    NoMemory,
    /// The body of this job, the first such in order of initiation, answered the `Finished` of another transaction.
    #[error("the body of job {} answered for another transaction", .0.0)]
    Stranger(Txn),
}

/// A run that did not go as planned: what came of the jobs all the same, and the cause.
#[derive(Drop)]
pub struct RunFault {
    /// What came of the jobs.
    pub report: Report,
    /// The cause.
    pub cause: RunCause,
}

/// Returns the ends of the jobs whose bodies were called, in a vector that has room for them.
pub(crate) fn ends_of(
    order: &[Arrival],
    firsts: &Firsts,
    mut ends: Vec<(Txn, JobEnd)>,
) -> Vec<(Txn, JobEnd)>
    requires firsts { HasFirsts firsts.now 0 (runs_of order.now) }
    requires empty { ends.items ≡ [] }
    requires room { length order.now ≤ vec_capacity ends }
    ensures { result.items ≡ ends_of (runs_of order.now) (runs_of order.now) }
{
    'order: for arrival in order {
        if arrival.is_called() {
            let t = arrival.name();
            ends.push_reserved((t, end_in(order, firsts, t)));
        }
    }
    ends
}

/// Returns the first job whose body answered another's `Finished`.
pub(crate) fn first_stranger(order: &[Arrival]) -> Option<Txn>
    ensures { result ≡ first_stranger (runs_of order.now) }
{
    'order: for arrival in order {
        if arrival.is_strange() {
            return Some(arrival.name());
        }
    }
    None
}

/// Returns the jobs that were left, and all sessions, in vectors that have room for them.
pub(crate) fn hand_out(
    order: Vec<Arrival>,
    mut left: Vec<Job>,
    mut sessions: Vec<Session>,
) -> (Vec<Job>, Vec<Session>)
    requires empty { left.items ≡ [] }
    requires room { vec_len order ≤ vec_capacity left }
    requires more { vec_len sessions + vec_len order ≤ vec_capacity sessions }
    ensures left { map (λ j. (j.name, j.body)) result.0.items ≡ kept_of order.items }
    ensures first { (rest : List Asker) × (result.1.items ≡ sessions.items ++ rest) }
    ensures sessions { map (λ (s : Asker). s.list.calls) result.1.items ≡ map (λ (s : Asker). s.list.calls) sessions.items ++ map (λ run. run.calls) (runs_of order.items) }
{
    'order: for arrival in order {
        let (name, session, body) = arrival.into_parts();
        sessions.push_reserved(session);
        match body {
            Some(body) => left.push_reserved(Job { name, body }),
            None => {}
        }
    }
    (left, sessions)
}

/// Returns what came of a plan's jobs, in collections that have room for it, and the first of them whose body answered another's
/// `Finished`.
pub(crate) fn report_on(
    order: Vec<Arrival>,
    session: Session,
    firsts: Firsts,
    ends: Vec<(Txn, JobEnd)>,
    left: Vec<Job>,
    mut sessions: Vec<Session>,
) -> (Report, Option<Txn>)
    requires empty { (ends.items ≡ []) × (left.items ≡ []) × (sessions.items ≡ []) × IsEmpty firsts }
    requires room { (vec_len order ≤ spare firsts) × (vec_len order ≤ vec_capacity ends) × (vec_len order ≤ vec_capacity left) × (vec_len order < vec_capacity sessions) }
    ensures comes { Comes (names_of order.items) session.list.calls (runs_of order.items) result.0.ends.items (map (λ j. j.name) result.0.left.items) (map (λ (s : Asker). s.list.calls) result.0.sessions.items) }
    ensures left { map (λ j. (j.name, j.body)) result.0.left.items ≡ kept_of order.items }
    ensures stranger { result.1 ≡ first_stranger (runs_of order.items) }
    ensures session { (rest : List Asker) × (result.0.sessions.items ≡ session ∷ rest) }
{
    let firsts = firsts_of(&order, firsts);
    let ends = ends_of(&order, &firsts, ends);
    let stranger = first_stranger(&order);
    sessions.push_reserved(session);
    let handed = hand_out(order, left, sessions);
    let report = Report {
        ends,
        left: handed.0,
        sessions: handed.1,
    };
    (report, stranger)
}
