//! Who is told as workers take jobs up and lay them down.

use asset_names::Txn;

/// Is told of each job by the worker that has it. Its calls may wait.
pub trait Gate: Sync {
    /// A worker has taken the job, and has not begun its transaction.
    fn entered(&self, t: Txn);

    /// The worker is done with the job, whether it ended or not.
    fn left(&self, t: Txn);
}

/// A gate that does nothing.
pub struct OpenGate;

impl Gate for OpenGate {
    fn entered(&self, _t: Txn) {}

    fn left(&self, _t: Txn) {}
}
