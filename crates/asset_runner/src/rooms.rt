//! Room for what a run tells, taken as jobs are initiated.

ghost use Rattle.std.specs.Prelude.{◌≡◌, ◌≤◌, ◌<◌, [], vec_capacity, IfOk, OnOk, OnErr};
ghost use Rattle.indexmap.specs.IndexMap.{spare, IsEmpty};

use crate::arrival::Arrival;
use crate::firsts::Firsts;
use crate::report::Job;
use asset_bodies::JobEnd;
use asset_manager::Session;
use asset_names::Txn;
use std::alloc::{AllocError, Global};

/// Empty collections, with room for what is told of so many jobs: so nothing that came back can be lost.
#[derive(Drop)]
pub struct Rooms {
    pub jobs: usize,
    pub slots: Vec<Option<Arrival>>,
    pub order: Vec<Arrival>,
    pub firsts: Firsts,
    pub ends: Vec<(Txn, JobEnd)>,
    pub left: Vec<Job>,
    pub sessions: Vec<Session>,
    pub ghost empty: { (slots.items ≡ []) × (order.items ≡ []) × (ends.items ≡ []) × (left.items ≡ []) × (sessions.items ≡ []) × IsEmpty firsts },
    pub ghost room: { (jobs ≤ vec_capacity slots) × (jobs ≤ vec_capacity order) × (jobs ≤ vec_capacity ends) × (jobs ≤ vec_capacity left) × (jobs ≤ vec_capacity sessions) × (jobs ≤ spare firsts) },
}

impl Rooms {
    /// Returns collections without room.
    pub fn new(alloc: Global) -> Rooms
        ensures { result.jobs ≡ 0 }
    {
        Rooms {
            jobs: 0,
            slots: Vec::new(alloc),
            order: Vec::new(alloc),
            firsts: Firsts::new(alloc),
            ends: Vec::new(alloc),
            left: Vec::new(alloc),
            sessions: Vec::new(alloc),
        }
    }

    /// Returns collections with room for so many jobs.
    fn with_room(alloc: Global, jobs: usize) -> Result<Rooms, AllocError>
        ensures { IfOk result (λ rooms. rooms.jobs ≡ jobs) }
    {
        let mut rooms = Rooms::new(alloc);
        if rooms.slots.reserve_exact(jobs).is_err()
            || rooms.order.reserve_exact(jobs).is_err()
            || rooms.firsts.reserve(jobs).is_err()
            || rooms.ends.reserve_exact(jobs).is_err()
            || rooms.left.reserve_exact(jobs).is_err()
            || rooms.sessions.reserve_exact(jobs).is_err()
        {
            return Err(AllocError);
        }
        rooms.jobs = jobs;
        Ok(rooms)
    }

    /// Takes room for so many jobs, and for twice as many as before if that is more. It fails if memory runs out. The
    /// collections are empty, so new ones are made and nothing is copied.
    pub fn reserve(&mut self, alloc: Global, jobs: usize) -> Result<(), AllocError>
        ensures ok { OnOk result (jobs ≤ self.new.jobs) }
        ensures kept { self.old.jobs ≤ self.new.jobs }
        ensures err { OnErr result (self.old.jobs < jobs) }
    {
        if jobs <= self.jobs {
            return Ok(());
        }
        let twice = self.jobs.saturating_mul(2);
        *self = Rooms::with_room(alloc, jobs.max(twice))?;
        Ok(())
    }
}
