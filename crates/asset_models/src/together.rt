//! Transactions that commit together.

ghost use Rattle.std.specs.Prelude.{◌≡◌, OnOk, IfOk, IfErr, map, flat_map};
ghost use Rattle.asset_names.specs.declared.names.Txn.{Txn};
ghost use Rattle.asset_names.specs.declared.steps.Kind.TheVariants.{Gc};
ghost use Rattle.asset_names.specs.declared.steps.Step.TheVariants.{Complete, Depend};
ghost use Rattle.asset_models.specs.declared.parts.Part.{Part};
ghost use Rattle.asset_models.specs.Courses.{Course, IsRun, must_each_course, acts_course, acts_of, starts, turns, distributed_course, cooperating_course};
ghost use Rattle.asset_models.specs.Follows.{Follows, after_acts, cut_end, model_end};

use crate::asking::{do_act, do_acts, do_part, must, must_each};
use crate::calls::Asset;
use crate::ending::{give_up, last_commit};
use crate::nesting::all_operations;
use crate::parts::{Act, Cut, ModelEnd, Part, model_end};
use asset_names::{Fault, Kind, ObSet, Step, Txn};

/// Initiates and begins each part.
fn start_each<A: Asset>(asset: &mut A, parts: &[Part], tries: u32) -> Result<(), Cut>
    ensures follows { OnOk result ((next : Course) → Follows (must_each_course (flat_map (λ (q : Part). starts q.name) parts.now) next) (A.calls asset.old) next (A.calls asset.new)) }
    ensures cut { IfErr result (λ cut. (next : Course) → IsRun (must_each_course (flat_map (λ (q : Part). starts q.name) parts.now) next) (A.calls asset.old) (A.calls asset.new) (cut_end cut)) }
{
    let mut left = parts;
    'parts: while let Some((q, more)) = left.split_first() {
        let t = q.name;
        match must_each(
            asset,
            &[Step::Initiate { t, parent: None }, Step::Begin { t }],
            tries,
        ) {
            Ok(()) => {}
            Err(cut) => return Err(cut),
        }
        left = more;
    }
    Ok(())
}

/// Joins each part to `t` by a group commit.
fn join_each<A: Asset>(asset: &mut A, t: Txn, parts: &[Part], tries: u32) -> Result<(), Cut>
    ensures follows { OnOk result ((next : Course) → Follows (must_each_course (map (λ (q : Part). Depend Gc t q.name) parts.now) next) (A.calls asset.old) next (A.calls asset.new)) }
    ensures cut { IfErr result (λ cut. (next : Course) → IsRun (must_each_course (map (λ (q : Part). Depend Gc t q.name) parts.now) next) (A.calls asset.old) (A.calls asset.new) (cut_end cut)) }
{
    let mut left = parts;
    'parts: while let Some((q, more)) = left.split_first() {
        let step = Step::Depend {
            kind: Kind::Gc,
            a: t,
            b: q.name,
        };
        match must(asset, &step, tries) {
            Ok(()) => {}
            Err(cut) => return Err(cut),
        }
        left = more;
    }
    Ok(())
}

/// Completes each part.
fn complete_each<A: Asset>(asset: &mut A, parts: &[Part], tries: u32) -> Result<(), Cut>
    ensures follows { OnOk result ((next : Course) → Follows (must_each_course (map (λ (q : Part). Complete q.name) parts.now) next) (A.calls asset.old) next (A.calls asset.new)) }
    ensures cut { IfErr result (λ cut. (next : Course) → IsRun (must_each_course (map (λ (q : Part). Complete q.name) parts.now) next) (A.calls asset.old) (A.calls asset.new) (cut_end cut)) }
{
    let mut left = parts;
    'parts: while let Some((q, more)) = left.split_first() {
        match must(asset, &Step::Complete { t: q.name }, tries) {
            Ok(()) => {}
            Err(cut) => return Err(cut),
        }
        left = more;
    }
    Ok(())
}

/// Asks for the acts of each part in turn, up to the first that fails. Returns its transaction, if one fails.
fn do_each<A: Asset>(asset: &mut A, parts: &[Part], tries: u32) -> Result<Option<Txn>, Cut>
    ensures follows { IfOk result (λ failing. (next : Course) (failed : Txn → Course) → Follows (acts_course (flat_map (λ (q : Part). acts_of q.name q.acts.items) parts.now) next failed) (A.calls asset.old) (after_acts failing next failed) (A.calls asset.new)) }
    ensures cut { IfErr result (λ cut. (next : Course) (failed : Txn → Course) → IsRun (acts_course (flat_map (λ (q : Part). acts_of q.name q.acts.items) parts.now) next failed) (A.calls asset.old) (A.calls asset.new) (cut_end cut)) }
{
    let mut left = parts;
    'parts: while let Some((q, more)) = left.split_first() {
        match do_part(asset, q, tries) {
            Ok(true) => {}
            Ok(false) => return Ok(Some(q.name)),
            Err(cut) => return Err(cut),
        }
        left = more;
    }
    Ok(None)
}

/// Runs the parts, which commit together.
fn run_distributed<A: Asset>(asset: &mut A, parts: &[Part], tries: u32) -> Result<ModelEnd, Cut>
    ensures { IsRun (distributed_course parts.now) (A.calls asset.old) (A.calls asset.new) (model_end result) }
{
    match parts.split_first() {
        None => Ok(ModelEnd::Committed),
        Some((p, others)) => {
            let t = p.name;
            start_each(asset, parts, tries)?;
            join_each(asset, t, others, tries)?;
            match do_each(asset, parts, tries)? {
                None => {}
                Some(u) => return give_up(asset, u, tries),
            }
            complete_each(asset, parts, tries)?;
            last_commit(asset, t, tries)
        }
    }
}

/// Runs the parts, which commit together, or abort together if an act of one fails.
pub fn distributed<A: Asset>(asset: &mut A, parts: &[Part], tries: u32) -> Result<ModelEnd, Fault>
    ensures { IsRun (distributed_course parts.now) (A.calls asset.old) (A.calls asset.new) result }
{
    model_end(run_distributed(asset, parts, tries))
}
