//! One transaction, and one after another until one commits.

ghost use Rattle.std.specs.Prelude.{◌≡◌, OnOk, IfOk, IfErr};
ghost use Rattle.asset_names.specs.declared.steps.Step.{Step};
ghost use Rattle.asset_models.specs.Courses.{Course, IsRun, part_course, atomic_course, contingent_course};
ghost use Rattle.asset_models.specs.Follows.{Follows, settled_course, cut_end};

use crate::asking::{commit, do_part, must, must_each};
use crate::calls::Asset;
use crate::parts::{Cut, ModelEnd, Part};
use asset_names::{Fault, Step};

/// How one transaction settled.
#[derive(Clone, Copy, Debug, PartialEq, Eq)]
pub(crate) enum Settled {
    /// It committed.
    Committed,
    /// It aborted, by this step.
    Aborted(Step),
}

/// Runs one transaction with its acts.
pub(crate) fn run_part<A: Asset>(asset: &mut A, p: &Part, tries: u32) -> Result<Settled, Cut>
    ensures follows { IfOk result (λ settled. (committed : Course) (aborted : Step → Course) → Follows (part_course p.now committed aborted) (A.calls asset.old) (settled_course settled committed aborted) (A.calls asset.new)) }
    ensures cut { IfErr result (λ cut. (committed : Course) (aborted : Step → Course) → IsRun (part_course p.now committed aborted) (A.calls asset.old) (A.calls asset.new) (cut_end cut)) }
{
    let t = p.name;
    must_each(
        asset,
        &[Step::Initiate { t, parent: None }, Step::Begin { t }],
        tries,
    )?;
    if !do_part(asset, p, tries)? {
        must(asset, &Step::Abort { t }, tries)?;
        return Ok(Settled::Aborted(Step::Abort { t }));
    }
    must(asset, &Step::Complete { t }, tries)?;
    if commit(asset, t, tries)? {
        return Ok(Settled::Committed);
    }
    Ok(Settled::Aborted(Step::Commit { t }))
}

/// Runs one transaction: initiates and begins it, does its acts, completes and commits it. If an act fails, it is
/// aborted.
pub fn atomic<A: Asset>(asset: &mut A, p: &Part, tries: u32) -> Result<ModelEnd, Fault>
    ensures { IsRun (atomic_course p.now) (A.calls asset.old) (A.calls asset.new) result }
{
    match run_part(asset, p, tries) {
        Ok(Settled::Committed) => Ok(ModelEnd::Committed),
        Ok(Settled::Aborted(_)) => Ok(ModelEnd::Aborted),
        Err(cut) => cut.end(),
    }
}

/// Runs the parts in turn, each as one transaction, until one commits.
pub fn contingent<A: Asset>(asset: &mut A, parts: &[Part], tries: u32) -> Result<ModelEnd, Fault>
    ensures { IsRun (contingent_course parts.now) (A.calls asset.old) (A.calls asset.new) result }
{
    let mut left = parts;
    'parts: while let Some((p, more)) = left.split_first() {
        match run_part(asset, p, tries) {
            Ok(Settled::Committed) => return Ok(ModelEnd::Committed),
            Ok(Settled::Aborted(_)) => {}
            Err(cut) => return cut.end(),
        }
        left = more;
    }
    Ok(ModelEnd::Aborted)
}
