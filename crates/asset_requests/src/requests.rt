//! What the arguments ask for.

use crate::limits::JobsRequest;
use asset_cli::Work;

/// What a script is read for.
#[derive(Clone, Copy, Debug, PartialEq, Eq)]
pub enum Task {
    /// Its transcript, or a report on the history that it leaves.
    Run(Work),
    /// The report of who waits for whom when it has ended.
    Waits,
}

/// What the arguments ask of a script.
#[derive(Clone, Copy, Debug, PartialEq, Eq)]
pub struct Request {
    /// What the script is read for.
    pub task: Task,
    /// The capacity of the history, if an argument gives one.
    pub capacity: Option<u32>,
}

/// What the arguments ask for.
#[derive(Clone, Copy, Debug, PartialEq, Eq)]
pub enum Asked {
    /// That a script is run.
    Script(Request),
    /// That a script is checked.
    Check,
    /// That a conversation is held, over a history of this capacity, if an argument gives one.
    Shell(Option<u32>),
    /// That the jobs of a job script are run.
    Jobs(JobsRequest),
}
