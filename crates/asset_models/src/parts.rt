//! Parts of models, and how a model ends.

ghost use Rattle.std.specs.Prelude.{◌≡◌};
ghost use Rattle.asset_models.specs.Follows.{model_end};

use asset_names::{Fault, Ob, Step, Txn};

/// What a part does to an object, or that it gives up.
#[derive(Clone, Copy, Debug, PartialEq, Eq)]
pub enum Act {
    /// Reads the object.
    Read(Ob),
    /// Writes the value to the object.
    Write(Ob, i64),
    /// Adds the amount to the object; the sum wraps.
    Add(Ob, i64),
    /// Gives up: asks for nothing, and fails.
    GiveUp,
}

/// The work of one transaction.
#[derive(Debug, Drop)]
pub struct Part {
    /// The transaction.
    pub name: Txn,
    /// What it does, in order.
    pub acts: Vec<Act>,
}

/// How a model ended.
#[derive(Clone, Copy, Debug, PartialEq, Eq)]
pub enum ModelEnd {
    /// It committed.
    Committed,
    /// It aborted.
    Aborted,
    /// What a saga had committed was undone by its second parts.
    Undone,
    /// This step still waited after the last try, or a second part of a saga aborted by it.
    Stopped(Step),
    /// This step, which is no act, was refused.
    Refused(Step),
}

/// Why a model ends before its course does.
#[derive(Clone, Copy, Debug, PartialEq, Eq)]
pub(crate) enum Cut {
    /// The step still waited after the last try.
    Waited(Step),
    /// The step, which is no act, was refused.
    Refused(Step),
    /// The step met a fault.
    Failed(Fault),
}

impl Cut {
    ghost use Rattle.std.specs.Prelude.{◌≡◌};
    ghost use Rattle.asset_models.specs.Follows.{cut_end};

    /// Returns how the model ends.
    #[tactic(auto, unfolding(crate::specs::Follows::cut_end))]
    pub(crate) fn end(self) -> Result<ModelEnd, Fault>
        ensures { result ≡ cut_end self }
    {
        match self {
            Cut::Waited(step) => Ok(ModelEnd::Stopped(step)),
            Cut::Refused(step) => Ok(ModelEnd::Refused(step)),
            Cut::Failed(fault) => Err(fault),
        }
    }
}

/// Returns how a model ends, that may have been cut short.
#[tactic(auto, unfolding(crate::specs::Follows::model_end))]
pub(crate) fn model_end(end: Result<ModelEnd, Cut>) -> Result<ModelEnd, Fault>
    ensures { result ≡ model_end end }
{
    match end {
        Ok(end) => Ok(end),
        Err(cut) => cut.end(),
    }
}
