//! Transactions that hand over what they did.

ghost use Rattle.asset_models.specs.Courses.{IsRun, split_course, join_course};
ghost use Rattle.asset_models.specs.Follows.{model_end};

use crate::asking::must_each;
use crate::calls::Asset;
use crate::ending::last_commit;
use crate::parts::{Cut, ModelEnd, model_end};
use asset_names::{Fault, ObSet, Step, Txn};

/// Splits off what `t` did on the objects.
fn run_split<A: Asset>(
    asset: &mut A,
    t: Txn,
    u: Txn,
    obs: ObSet,
    tries: u32,
) -> Result<ModelEnd, Cut>
    ensures { IsRun (split_course t u obs) (A.calls asset.old) (A.calls asset.new) (model_end result) }
{
    must_each(
        asset,
        &[
            Step::Initiate { t: u, parent: None },
            Step::Begin { t: u },
            Step::Delegate {
                giver: t,
                taker: u,
                obs,
            },
            Step::Complete { t: u },
        ],
        tries,
    )?;
    last_commit(asset, u, tries)
}

/// Splits off what `t` did on the objects: hands it over to a new transaction `u`, and commits that.
pub fn split<A: Asset>(
    asset: &mut A,
    t: Txn,
    u: Txn,
    obs: ObSet,
    tries: u32,
) -> Result<ModelEnd, Fault>
    ensures { IsRun (split_course t u obs) (A.calls asset.old) (A.calls asset.new) result }
{
    model_end(run_split(asset, t, u, obs, tries))
}

/// Joins `t` to `u`.
fn run_join<A: Asset>(asset: &mut A, t: Txn, u: Txn, tries: u32) -> Result<ModelEnd, Cut>
    ensures { IsRun (join_course t u) (A.calls asset.old) (A.calls asset.new) (model_end result) }
{
    must_each(
        asset,
        &[
            Step::Delegate {
                giver: t,
                taker: u,
                obs: ObSet::All,
            },
            Step::Complete { t },
        ],
        tries,
    )?;
    last_commit(asset, t, tries)
}

/// Joins `t` to `u`: hands over to `u` all that `t` did, and commits `t`.
pub fn join<A: Asset>(asset: &mut A, t: Txn, u: Txn, tries: u32) -> Result<ModelEnd, Fault>
    ensures { IsRun (join_course t u) (A.calls asset.old) (A.calls asset.new) result }
{
    model_end(run_join(asset, t, u, tries))
}
