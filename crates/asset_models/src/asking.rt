//! Steps that a model asks for.

ghost use Rattle.std.specs.Prelude.{◌≡◌, ◌∷◌, cond, MatchOption, OnOk, OnErr, IfOk, IfErr};
ghost use Rattle.asset_names.specs.declared.names.Txn.{Txn};
ghost use Rattle.asset_models.specs.Courses.{Course, IsRun, IsCut, is_refusal, must_course, must_each_course, act_value, commit_course, operation_course, act_course, acts_course, acts_of};
ghost use Rattle.asset_models.specs.Follows.{Follows, cut_end};

use crate::calls::Asset;
use crate::parts::{Act, Cut, Part};
use asset_names::{Fault, Outcome, Reply, Step, Txn};

/// Returns whether the reply is a refusal.
#[tactic(auto, unfolding(crate::specs::Courses::is_refusal))]
fn is_refusal(reply: Reply) -> bool
    ensures { result ≡ is_refusal reply }
{
    matches!(reply, Reply::Refused(_))
}

/// Asks for a step once. Returns its reply, or `None` if it waits.
#[tactic(auto, unfolding(crate::specs::Calls::called))]
fn ask_once<A: Asset>(asset: &mut A, step: &Step) -> Result<Option<Reply>, Fault>
    ensures answered { IfOk result (λ found. MatchOption found (A.calls asset.new ≡ A.calls asset.old) (λ reply. A.calls asset.new ≡ (step.now, reply) ∷ A.calls asset.old)) }
    ensures fault { OnErr result (A.calls asset.new ≡ A.calls asset.old) }
{
    match asset.step_lent(step) {
        Ok(Outcome::Answer(reply)) => Ok(Some(reply)),
        Ok(Outcome::Wait) => Ok(None),
        Err(fault) => Err(fault),
    }
}

/// Asks for a step, and again at most `tries` times while it waits. Returns its reply.
#[tactic(auto, unfolding(crate::specs::Follows::cut_end, crate::specs::Courses::IsCut))]
fn ask<A: Asset>(asset: &mut A, step: &Step, tries: u32) -> Result<Reply, Cut>
    ensures answered { IfOk result (λ reply. A.calls asset.new ≡ (step.now, reply) ∷ A.calls asset.old) }
    ensures same { OnErr result (A.calls asset.new ≡ A.calls asset.old) }
    ensures cut { IfErr result (λ cut. IsCut step.now (cut_end cut)) }
{
    for _ in 0..=tries {
        match ask_once(asset, step) {
            Ok(Some(reply)) => return Ok(reply),
            Ok(None) => {}
            Err(fault) => return Err(Cut::Failed(fault)),
        }
    }
    Err(Cut::Waited(*step))
}

/// Asks for a step that is no act. A refusal ends the model.
pub(crate) fn must<A: Asset>(asset: &mut A, step: &Step, tries: u32) -> Result<(), Cut>
    ensures follows { OnOk result ((next : Course) → Follows (must_course step.now next) (A.calls asset.old) next (A.calls asset.new)) }
    ensures cut { IfErr result (λ cut. (next : Course) → IsRun (must_course step.now next) (A.calls asset.old) (A.calls asset.new) (cut_end cut)) }
{
    match ask(asset, step, tries) {
        Ok(reply) => {
            if is_refusal(reply) {
                return Err(Cut::Refused(*step));
            }
            Ok(())
        }
        Err(cut) => Err(cut),
    }
}

/// Asks for steps that are no acts, in order. A refusal ends the model.
pub(crate) fn must_each<A: Asset>(asset: &mut A, steps: &[Step], tries: u32) -> Result<(), Cut>
    ensures follows { OnOk result ((next : Course) → Follows (must_each_course steps.now next) (A.calls asset.old) next (A.calls asset.new)) }
    ensures cut { IfErr result (λ cut. (next : Course) → IsRun (must_each_course steps.now next) (A.calls asset.old) (A.calls asset.new) (cut_end cut)) }
{
    let mut left = steps;
    'steps: while let Some((step, more)) = left.split_first() {
        match must(asset, step, tries) {
            Ok(()) => {}
            Err(cut) => return Err(cut),
        }
        left = more;
    }
    Ok(())
}

/// Asks for a commit. Returns whether the transaction has committed.
pub(crate) fn commit<A: Asset>(asset: &mut A, t: Txn, tries: u32) -> Result<bool, Cut>
    ensures follows { IfOk result (λ done. (committed aborted : Course) → Follows (commit_course t committed aborted) (A.calls asset.old) (cond done committed aborted) (A.calls asset.new)) }
    ensures cut { IfErr result (λ cut. (committed aborted : Course) → IsRun (commit_course t committed aborted) (A.calls asset.old) (A.calls asset.new) (cut_end cut)) }
{
    let step = Step::Commit { t };
    match ask(asset, &step, tries) {
        Ok(reply) => match reply {
            Reply::Committed => Ok(true),
            Reply::Refused(_) => Err(Cut::Refused(step)),
            Reply::Done => Ok(false),
            Reply::Value(_) => Ok(false),
            Reply::Aborted => Ok(false),
        },
        Err(cut) => Err(cut),
    }
}

/// Asks for an operation of an act. Returns whether it is done.
fn operate<A: Asset>(asset: &mut A, step: &Step, tries: u32) -> Result<bool, Cut>
    ensures follows { IfOk result (λ done. (next failed : Course) → Follows (operation_course step.now next failed) (A.calls asset.old) (cond done next failed) (A.calls asset.new)) }
    ensures cut { IfErr result (λ cut. (next failed : Course) → IsRun (operation_course step.now next failed) (A.calls asset.old) (A.calls asset.new) (cut_end cut)) }
{
    match ask(asset, step, tries) {
        Ok(reply) => {
            if is_refusal(reply) {
                return Ok(false);
            }
            Ok(true)
        }
        Err(cut) => Err(cut),
    }
}

/// Returns the value that an act writes or the amount that it adds, and 0 for another act. A signed number from an act is
/// passed on as the result of a call, so that the proof knows its range.
#[tactic(auto, unfolding(crate::specs::Courses::act_value))]
fn act_value(act: &Act) -> i64
    ensures { result ≡ act_value act.now }
{
    match *act {
        Act::Write(_, v) => v,
        Act::Add(_, d) => d,
        _ => 0,
    }
}

/// Asks for an act of a transaction. Returns whether it is done.
pub(crate) fn do_act<A: Asset>(asset: &mut A, t: Txn, act: &Act, tries: u32) -> Result<bool, Cut>
    ensures follows { IfOk result (λ done. (next failed : Course) → Follows (act_course t act.now next failed) (A.calls asset.old) (cond done next failed) (A.calls asset.new)) }
    ensures cut { IfErr result (λ cut. (next failed : Course) → IsRun (act_course t act.now next failed) (A.calls asset.old) (A.calls asset.new) (cut_end cut)) }
{
    match *act {
        Act::Read(x) => operate(asset, &Step::Read { t, x }, tries),
        Act::Write(x, _) => {
            let v = act_value(act);
            operate(asset, &Step::Write { t, x, v }, tries)
        }
        Act::Add(x, _) => {
            let d = act_value(act);
            operate(asset, &Step::Add { t, x, d }, tries)
        }
        Act::GiveUp => Ok(false),
    }
}

/// Asks for acts of a transaction, in order up to the first that fails. Returns whether all are done.
pub(crate) fn do_acts<A: Asset>(
    asset: &mut A,
    t: Txn,
    acts: &[Act],
    tries: u32,
) -> Result<bool, Cut>
    ensures follows { IfOk result (λ done. (next : Course) (failed : Txn → Course) → Follows (acts_course (acts_of t acts.now) next failed) (A.calls asset.old) (cond done next (failed t)) (A.calls asset.new)) }
    ensures cut { IfErr result (λ cut. (next : Course) (failed : Txn → Course) → IsRun (acts_course (acts_of t acts.now) next failed) (A.calls asset.old) (A.calls asset.new) (cut_end cut)) }
{
    let mut left = acts;
    'acts: while let Some((act, more)) = left.split_first() {
        match do_act(asset, t, act, tries) {
            Ok(true) => {}
            Ok(false) => return Ok(false),
            Err(cut) => return Err(cut),
        }
        left = more;
    }
    Ok(true)
}

/// Asks for the acts of a part, in order up to the first that fails. Returns whether all are done.
pub(crate) fn do_part<A: Asset>(asset: &mut A, p: &Part, tries: u32) -> Result<bool, Cut>
    ensures follows { IfOk result (λ done. (next : Course) (failed : Txn → Course) → Follows (acts_course (acts_of p.now.name p.now.acts.items) next failed) (A.calls asset.old) (cond done next (failed p.now.name)) (A.calls asset.new)) }
    ensures cut { IfErr result (λ cut. (next : Course) (failed : Txn → Course) → IsRun (acts_course (acts_of p.now.name p.now.acts.items) next failed) (A.calls asset.old) (A.calls asset.new) (cut_end cut)) }
{
    do_acts(asset, p.name, &p.acts, tries)
}
