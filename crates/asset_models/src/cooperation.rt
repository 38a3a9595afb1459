//! Two transactions that act in turn and commit together.

ghost use Rattle.std.specs.Prelude.{IfOk, IfErr, OnOk};
ghost use Rattle.asset_names.specs.declared.names.Txn.{Txn};
ghost use Rattle.asset_names.specs.declared.steps.Step.TheVariants.{Permit};
ghost use Rattle.asset_models.specs.Courses.{Course, IsRun, acts_course, acts_of, turns, all_operations, must_course, must_each_course, joins, cooperating_course};
ghost use Rattle.asset_models.specs.Follows.{Follows, after_acts, cut_end, model_end};

use crate::asking::{do_act, do_acts, must, must_each};
use crate::calls::Asset;
use crate::ending::{give_up, last_commit};
use crate::nesting::all_operations;
use crate::parts::{Act, Cut, ModelEnd, Part, model_end};
use asset_names::{Fault, Kind, ObSet, Step, Txn};

/// Asks for acts of two transactions in turn, and for the rest of the other's when one has no more, up to the first that
/// fails. Returns its transaction, if one fails.
fn in_turn<A: Asset>(
    asset: &mut A,
    t: Txn,
    acts: &[Act],
    u: Txn,
    others: &[Act],
    tries: u32,
) -> Result<Option<Txn>, Cut>
    ensures follows { IfOk result (λ failing. (next : Course) (failed : Txn → Course) → Follows (acts_course (turns t u acts.now others.now) next failed) (A.calls asset.old) (after_acts failing next failed) (A.calls asset.new)) }
    ensures cut { IfErr result (λ cut. (next : Course) (failed : Txn → Course) → IsRun (acts_course (turns t u acts.now others.now) next failed) (A.calls asset.old) (A.calls asset.new) (cut_end cut)) }
{
    let mut left = acts;
    let mut right = others;
    'turns: while let Some((act, more)) = left.split_first() {
        match right.split_first() {
            None => return rest_of(asset, t, left, tries),
            Some((other, rest)) => {
                match do_act(asset, t, act, tries) {
                    Ok(true) => {}
                    Ok(false) => return Ok(Some(t)),
                    Err(cut) => return Err(cut),
                }
                match do_act(asset, u, other, tries) {
                    Ok(true) => {}
                    Ok(false) => return Ok(Some(u)),
                    Err(cut) => return Err(cut),
                }
                left = more;
                right = rest;
            }
        }
    }
    rest_of(asset, u, right, tries)
}

/// Asks for acts of one transaction. Returns it, if one fails.
fn rest_of<A: Asset>(asset: &mut A, t: Txn, acts: &[Act], tries: u32) -> Result<Option<Txn>, Cut>
    ensures follows { IfOk result (λ failing. (next : Course) (failed : Txn → Course) → Follows (acts_course (acts_of t acts.now) next failed) (A.calls asset.old) (after_acts failing next failed) (A.calls asset.new)) }
    ensures cut { IfErr result (λ cut. (next : Course) (failed : Txn → Course) → IsRun (acts_course (acts_of t acts.now) next failed) (A.calls asset.old) (A.calls asset.new) (cut_end cut)) }
{
    match do_acts(asset, t, acts, tries) {
        Ok(true) => Ok(None),
        Ok(false) => Ok(Some(t)),
        Err(cut) => Err(cut),
    }
}

/// Asks for the acts of two parts in turn. Returns the transaction whose act fails, if one does.
fn pair_in_turn<A: Asset>(asset: &mut A, p: &Part, q: &Part, tries: u32) -> Result<Option<Txn>, Cut>
    ensures follows { IfOk result (λ failing. (next : Course) (failed : Txn → Course) → Follows (acts_course (turns p.now.name q.now.name p.now.acts.items q.now.acts.items) next failed) (A.calls asset.old) (after_acts failing next failed) (A.calls asset.new)) }
    ensures cut { IfErr result (λ cut. (next : Course) (failed : Txn → Course) → IsRun (acts_course (turns p.now.name q.now.name p.now.acts.items q.now.acts.items) next failed) (A.calls asset.old) (A.calls asset.new) (cut_end cut)) }
{
    in_turn(asset, p.name, &p.acts, q.name, &q.acts, tries)
}

/// Permits the taker to read, to write and to add to what the giver holds of the objects.
fn permit_on<A: Asset>(
    asset: &mut A,
    giver: Txn,
    taker: Txn,
    obs: &ObSet,
    tries: u32,
) -> Result<(), Cut>
    ensures follows { OnOk result ((next : Course) → Follows (must_course (Permit giver taker obs.now all_operations) next) (A.calls asset.old) next (A.calls asset.new)) }
    ensures cut { IfErr result (λ cut. (next : Course) → IsRun (must_course (Permit giver taker obs.now all_operations) next) (A.calls asset.old) (A.calls asset.new) (cut_end cut)) }
{
    let step = Step::Permit {
        giver,
        taker,
        obs: *obs,
        ops: all_operations(),
    };
    must(asset, &step, tries)
}

/// Lets two transactions share the objects, and joins them by a group commit.
fn join_pair<A: Asset>(asset: &mut A, t: Txn, u: Txn, obs: &ObSet, tries: u32) -> Result<(), Cut>
    ensures follows { OnOk result ((next : Course) → Follows (must_each_course (joins t u obs.now) next) (A.calls asset.old) next (A.calls asset.new)) }
    ensures cut { IfErr result (λ cut. (next : Course) → IsRun (must_each_course (joins t u obs.now) next) (A.calls asset.old) (A.calls asset.new) (cut_end cut)) }
{
    permit_on(asset, t, u, obs, tries)?;
    permit_on(asset, u, t, obs, tries)?;
    let step = Step::Depend {
        kind: Kind::Gc,
        a: t,
        b: u,
    };
    must(asset, &step, tries)?;
    Ok(())
}

/// Runs two transactions that share the objects of the set and commit together.
fn run_cooperating<A: Asset>(
    asset: &mut A,
    p: &Part,
    q: &Part,
    obs: &ObSet,
    tries: u32,
) -> Result<ModelEnd, Cut>
    ensures { IsRun (cooperating_course p.now q.now obs.now) (A.calls asset.old) (A.calls asset.new) (model_end result) }
{
    let t = p.name;
    let u = q.name;
    must_each(
        asset,
        &[
            Step::Initiate { t, parent: None },
            Step::Begin { t },
            Step::Initiate { t: u, parent: None },
            Step::Begin { t: u },
        ],
        tries,
    )?;
    join_pair(asset, t, u, obs, tries)?;
    match pair_in_turn(asset, p, q, tries)? {
        None => {}
        Some(failing) => return give_up(asset, failing, tries),
    }
    must_each(
        asset,
        &[Step::Complete { t }, Step::Complete { t: u }],
        tries,
    )?;
    last_commit(asset, t, tries)
}

/// Runs two transactions that share the objects of the set: their acts take turns, and they commit together, or abort
/// together if an act of one fails.
pub fn cooperating<A: Asset>(
    asset: &mut A,
    p: &Part,
    q: &Part,
    obs: ObSet,
    tries: u32,
) -> Result<ModelEnd, Fault>
    ensures { IsRun (cooperating_course p.now q.now obs) (A.calls asset.old) (A.calls asset.new) result }
{
    model_end(run_cooperating(asset, p, q, &obs, tries))
}
