//! The jobs of a script as its lines come.

use asset_grammar::JobAct;
use asset_names::{NoMemory, Txn};
use indexmap::IndexSet;
use std::alloc::Global;
use std::marker::Model;

/// Jobs with their acts, in the order in which they were added; no name comes twice. Contracts see this list. Whether a name
/// is among them is found without going over them.
#[derive(Drop)]
pub(crate) struct Draft {
    jobs: Vec<(Txn, Vec<JobAct>)>,
    names: IndexSet<Txn>,
}

impl Model for Draft {
    ghost use Rattle.std.specs.Prelude.{◌≡◌, List, map};
    ghost use Rattle.asset_jobs.specs.Jobs.{Named, name_of};
    ghost use Rattle.asset_jobs.specs.Scripts.{named};

    ghost Value = { List Named };

    ghost view = { λ draft. map named draft.jobs.items };

    ghost invariant = { λ draft. draft.names.keys ≡ map name_of (map named draft.jobs.items) };
}

impl Draft {
    ghost use Rattle.std.specs.Prelude.{◌≡◌, [], ◌∷◌, ◌++◌, not, map, IfOk};
    ghost use Rattle.std.specs.Bool.{OnTrue};
    ghost use Rattle.asset_jobs.specs.Jobs.{has_job, has_none, with_act};
    ghost use Rattle.asset_jobs.specs.Scripts.{named};

    /// Returns a draft without jobs. Takes no memory.
    pub fn new(alloc: Global) -> Draft
        ensures { result ≡ [] }
    {
        Draft {
            jobs: Vec::new(alloc),
            names: IndexSet::new(alloc),
        }
    }

    /// Returns whether there is no job.
    #[tactic(auto, unfolding(crate::specs::Jobs::has_none))]
    pub fn is_empty(&self) -> bool
        ensures { result ≡ has_none self.now }
    {
        self.jobs.is_empty()
    }

    /// Adds a job without acts, unless its name is there already. Returns whether it was added.
    pub fn add(&mut self, alloc: Global, t: Txn) -> Result<bool, NoMemory>
        ensures added { IfOk result (λ added. added ≡ not (has_job self.old t)) }
        ensures grown { IfOk result (λ added. OnTrue added (self.new ≡ self.old ++ (t, []) ∷ [])) }
    {
        match self.jobs.reserve(1) {
            Ok(()) => match self.names.insert(t) {
                Ok(true) => {
                    self.jobs.push_reserved((t, Vec::new(alloc)));
                    Ok(true)
                }
                Ok(false) => Ok(false),
                Err(_) => Err(NoMemory),
            },
            Err(_) => Err(NoMemory),
        }
    }

    /// Adds an act to the last job, if there is a job. Returns whether there is one.
    pub fn push_act(&mut self, act: JobAct) -> Result<bool, NoMemory>
        ensures added { IfOk result (λ added. added ≡ not (has_none self.old)) }
        ensures grown { IfOk result (λ added. OnTrue added (self.new ≡ with_act self.old act)) }
    {
        let count = self.jobs.len();
        if count == 0 {
            return Ok(false);
        }
        match self.jobs[count - 1].1.push(act) {
            Ok(()) => Ok(true),
            Err(_) => Err(NoMemory),
        }
    }

    /// Returns the jobs.
    pub fn into_jobs(self) -> Vec<(Txn, Vec<JobAct>)>
        ensures { map named result.items ≡ self }
    {
        self.jobs
    }
}
