//! A transaction with children.

ghost use Rattle.std.specs.Prelude.{◌≡◌, OnOk, IfErr};
ghost use Rattle.asset_names.specs.OpSets.{OpSet};
ghost use Rattle.asset_models.specs.Courses.{Course, IsRun, all_operations, child_course, children_course, nested_course};
ghost use Rattle.asset_models.specs.Follows.{Follows, cut_end, model_end};

use crate::asking::{commit, do_part, must, must_each};
use crate::calls::Asset;
use crate::ending::{give_up, last_commit};
use crate::parts::{Cut, ModelEnd, Part, model_end};
use asset_names::{Fault, ObSet, Ops, Step, Txn};

/// Returns the set of all operations.
#[tactic(auto, unfolding(crate::specs::Courses::all_operations))]
pub(crate) fn all_operations() -> Ops
    ensures { result ≡ all_operations }
{
    Ops::with_add(true, true)
}

/// Runs a child of `t`.
fn run_child<A: Asset>(asset: &mut A, t: Txn, child: &Part, tries: u32) -> Result<(), Cut>
    ensures follows { OnOk result ((next : Course) → Follows (child_course t child.now next) (A.calls asset.old) next (A.calls asset.new)) }
    ensures cut { IfErr result (λ cut. (next : Course) → IsRun (child_course t child.now next) (A.calls asset.old) (A.calls asset.new) (cut_end cut)) }
{
    let c = child.name;
    let ops = all_operations();
    must_each(
        asset,
        &[
            Step::Initiate {
                t: c,
                parent: Some(t),
            },
            Step::Permit {
                giver: t,
                taker: c,
                obs: ObSet::All,
                ops,
            },
            Step::Begin { t: c },
        ],
        tries,
    )?;
    if !do_part(asset, child, tries)? {
        must(asset, &Step::Abort { t: c }, tries)?;
        return Ok(());
    }
    must_each(
        asset,
        &[
            Step::Complete { t: c },
            Step::Delegate {
                giver: c,
                taker: t,
                obs: ObSet::All,
            },
        ],
        tries,
    )?;
    commit(asset, c, tries)?;
    Ok(())
}

/// Runs the children of `t` in turn.
fn run_children<A: Asset>(asset: &mut A, t: Txn, children: &[Part], tries: u32) -> Result<(), Cut>
    ensures follows { OnOk result ((next : Course) → Follows (children_course t children.now next) (A.calls asset.old) next (A.calls asset.new)) }
    ensures cut { IfErr result (λ cut. (next : Course) → IsRun (children_course t children.now next) (A.calls asset.old) (A.calls asset.new) (cut_end cut)) }
{
    let mut left = children;
    'children: while let Some((child, more)) = left.split_first() {
        match run_child(asset, t, child, tries) {
            Ok(()) => {}
            Err(cut) => return Err(cut),
        }
        left = more;
    }
    Ok(())
}

/// Runs the transaction with its children.
fn run_nested<A: Asset>(
    asset: &mut A,
    p: &Part,
    children: &[Part],
    tries: u32,
) -> Result<ModelEnd, Cut>
    ensures { IsRun (nested_course p.now children.now) (A.calls asset.old) (A.calls asset.new) (model_end result) }
{
    let t = p.name;
    must_each(
        asset,
        &[Step::Initiate { t, parent: None }, Step::Begin { t }],
        tries,
    )?;
    if !do_part(asset, p, tries)? {
        return give_up(asset, t, tries);
    }
    run_children(asset, t, children, tries)?;
    must(asset, &Step::Complete { t }, tries)?;
    last_commit(asset, t, tries)
}

/// Runs a transaction and then its children in turn. A child is permitted all operations on all objects although they
/// conflict with its parent's. Once it has completed, and before its commit, it hands what it did over to the parent. A
/// child that aborts does not stop the parent. A step that is no act and is refused ends the model, also if it is a
/// child's.
pub fn nested<A: Asset>(
    asset: &mut A,
    p: &Part,
    children: &[Part],
    tries: u32,
) -> Result<ModelEnd, Fault>
    ensures { IsRun (nested_course p.now children.now) (A.calls asset.old) (A.calls asset.new) result }
{
    model_end(run_nested(asset, p, children, tries))
}
