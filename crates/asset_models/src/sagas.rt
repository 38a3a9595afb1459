//! Transactions that are undone by others.

ghost use Rattle.std.specs.Prelude.{ℕ, ◌≤◌, length, take};
ghost use Rattle.asset_models.specs.declared.parts.ModelEnd.TheVariants.{Undone};
ghost use Rattle.asset_models.specs.Courses.Course.{ends};
ghost use Rattle.asset_models.specs.Courses.{IsRun, saga_course};
ghost use Rattle.asset_models.specs.Follows.{undone};

use crate::calls::Asset;
use crate::parts::{ModelEnd, Part};
use crate::single::{Settled, run_part};
use asset_names::Fault;

/// Runs the second parts of the first `count` pairs, the last first.
fn undo<A: Asset>(
    asset: &mut A,
    pairs: &[(Part, Part)],
    count: usize,
    tries: u32,
) -> Result<ModelEnd, Fault>
    requires { count ≤ length pairs.now }
    ensures { IsRun (undone (ends Undone) (take count pairs.now)) (A.calls asset.old) (A.calls asset.new) result }
{
    let mut left = count;
    'undo: while left > 0 {
        left -= 1;
        let last = left;
        match run_part(asset, &pairs[last].1, tries) {
            Ok(Settled::Committed) => {}
            Ok(Settled::Aborted(step)) => return Ok(ModelEnd::Stopped(step)),
            Err(cut) => return cut.end(),
        }
    }
    Ok(ModelEnd::Undone)
}

/// Runs the first parts of the pairs in turn, each as one transaction. If one aborts, the second parts of the pairs before
/// it undo what they did, the latest first.
pub fn saga<A: Asset>(asset: &mut A, pairs: &[(Part, Part)], tries: u32) -> Result<ModelEnd, Fault>
    ensures { IsRun (saga_course pairs.now) (A.calls asset.old) (A.calls asset.new) result }
{
    for (i, pair) in pairs.iter().enumerate() {
        match run_part(asset, &pair.0, tries) {
            Ok(Settled::Committed) => {}
            Ok(Settled::Aborted(_)) => return undo(asset, pairs, i, tries),
            Err(cut) => return cut.end(),
        }
    }
    Ok(ModelEnd::Committed)
}
