//! The one answer to a step after some entries.

ghost use Rattle.std.specs.Prelude.{◌≡◌, reverse};
ghost use Rattle.asset_names.specs.Steps.{applied};
ghost use Rattle.asset_names.specs.Operations.{value, value_if_any};
ghost use Rattle.asset_names.specs.Endings.{status};
ghost use Rattle.asset_names.specs.Answers.{may_commit, commit_outcome, unrefused, answer};

use crate::depending::{class_completed, has_outside_source};
use crate::freedom::is_free;
use crate::openings::opening_at;
use crate::refusals::refusal;
use crate::tracks::status_after;
use crate::values::value_over;
use asset_names::{Ob, Op, Outcome, Reply, Step, Txn, commit_outcome, wait_outcome};

/// Returns the value of an object, and 0 if there is no such object.
#[tactic(auto, unfolding(asset_names::specs::Operations::value, asset_names::specs::Operations::opening_value))]
fn current_value(opening: &[(Ob, i64)], entries: &[(Step, Reply)], x: Ob) -> i64
    ensures { result ≡ value opening.now (applied (reverse entries.now)) x.0 }
{
    let first = opening_at(opening, x).unwrap_or(0);
    value_over(entries, x, first)
}

/// Returns the value of an object, and `None` if there is no such object.
#[tactic(auto, unfolding(asset_names::specs::Operations::value_if_any, asset_names::specs::Operations::exists))]
pub fn value_if_any(opening: &[(Ob, i64)], entries: &[(Step, Reply)], x: Ob) -> Option<i64>
    ensures { result ≡ value_if_any opening.now (applied (reverse entries.now)) x.0 }
{
    match opening_at(opening, x) {
        Some(_) => Some(current_value(opening, entries, x)),
        None => None,
    }
}

/// Returns the outcome of a commit that is not refused.
#[tactic(auto, unfolding(asset_names::specs::Answers::may_commit))]
fn outcome_of_commit(entries: &[(Step, Reply)], t: Txn) -> Outcome
    ensures { result ≡ commit_outcome (status (applied (reverse entries.now)) t.0) (may_commit (applied (reverse entries.now)) t.0) }
{
    let ready = class_completed(entries, t) && !has_outside_source(entries, t);
    commit_outcome(status_after(entries, t), ready)
}

/// Returns the outcome of a step that is not refused.
#[tactic(auto, unfolding(asset_names::specs::Answers::unrefused))]
fn unrefused(opening: &[(Ob, i64)], entries: &[(Step, Reply)], step: &Step) -> Outcome
    ensures { result ≡ unrefused opening.now (applied (reverse entries.now)) step.now }
{
    match *step {
        Step::Initiate { .. }
        | Step::Begin { .. }
        | Step::Complete { .. }
        | Step::Permit { .. }
        | Step::PermitAny { .. }
        | Step::Delegate { .. }
        | Step::Depend { .. } => Outcome::Answer(Reply::Done),
        Step::Read { t, x } if is_free(entries, t, x, Op::Read) => {
            Outcome::Answer(Reply::Value(current_value(opening, entries, x)))
        }
        Step::Write { t, x, .. } if is_free(entries, t, x, Op::Write) => Outcome::Answer(
            Reply::Done,
        ),
        Step::Add { t, x, .. } if is_free(entries, t, x, Op::Add) => Outcome::Answer(Reply::Done),
        Step::Read { .. } | Step::Write { .. } | Step::Add { .. } => Outcome::Wait,
        Step::Commit { t } => outcome_of_commit(entries, t),
        Step::Abort { .. } => Outcome::Answer(Reply::Aborted),
        Step::WaitFor { t } => wait_outcome(status_after(entries, t)),
    }
}

/// Returns the answer to the step after the entries.
#[tactic(auto, unfolding(asset_names::specs::Answers::answer, asset_names::specs::Answers::outcome_unless))]
pub fn answer(opening: &[(Ob, i64)], entries: &[(Step, Reply)], step: &Step) -> Outcome
    ensures { result ≡ answer opening.now (applied (reverse entries.now)) step.now }
{
    match refusal(opening, entries, step) {
        Some(refusal) => Outcome::Answer(Reply::Refused(refusal)),
        None => unrefused(opening, entries, step),
    }
}
