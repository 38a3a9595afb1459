//! What a job script says.

use asset_grammar::JobAct;
use asset_names::{Ob, Txn};

/// What a job script says: the objects with their values, and the jobs with their acts, in the order of the lines. No object
/// and no job comes twice.
#[derive(Drop)]
pub struct JobScript {
    /// The objects with their values.
    pub opening: Vec<(Ob, i64)>,
    /// The jobs: the name of each, and what it does.
    pub jobs: Vec<(Txn, Vec<JobAct>)>,
}
