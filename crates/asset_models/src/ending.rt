//! How models end.

ghost use Rattle.asset_models.specs.Courses.{IsRun, give_up, last_commit};
ghost use Rattle.asset_models.specs.Follows.{model_end};

use crate::asking::{commit, must};
use crate::calls::Asset;
use crate::parts::{Cut, ModelEnd};
use asset_names::{Step, Txn};

/// Aborts a transaction one of whose acts failed, and ends the model.
pub(crate) fn give_up<A: Asset>(asset: &mut A, t: Txn, tries: u32) -> Result<ModelEnd, Cut>
    ensures { IsRun (give_up t) (A.calls asset.old) (A.calls asset.new) (model_end result) }
{
    must(asset, &Step::Abort { t }, tries)?;
    Ok(ModelEnd::Aborted)
}

/// Commits a transaction, and ends the model.
pub(crate) fn last_commit<A: Asset>(asset: &mut A, t: Txn, tries: u32) -> Result<ModelEnd, Cut>
    ensures { IsRun (last_commit t) (A.calls asset.old) (A.calls asset.new) (model_end result) }
{
    if commit(asset, t, tries)? {
        return Ok(ModelEnd::Committed);
    }
    Ok(ModelEnd::Aborted)
}
