//! The first refusal of a step, if one applies.

ghost use Rattle.std.specs.Prelude.{◌≡◌, ◌∷◌, [], reverse};
ghost use Rattle.asset_names.specs.Steps.{applied};
ghost use Rattle.asset_names.specs.Answers.{first_refusal, rules_for, one_name, unknown, ended, cycle};

use crate::depending::would_cycle;
use crate::openings::{missing_among, missing_in, opening_at};
use crate::tracks::status_after;
use asset_names::{
    Kind, Ob, Refusal, Reply, Step, Txn, refusal_between, refusal_to_abort, refusal_to_begin,
    refusal_to_depend, refusal_to_find, refusal_to_initiate, refusal_to_open, refusal_to_operate,
    refusal_to_work,
};

/// Returns why no dependency of `b` on `a` may be made: as far as their statuses say, and if it would close a cycle.
#[tactic(auto, unfolding(asset_names::specs::Answers::first_refusal, asset_names::specs::Answers::unknown, asset_names::specs::Answers::ended, asset_names::specs::Answers::one_name, asset_names::specs::Answers::cycle))]
fn refusal_of_dependency(entries: &[(Step, Reply)], kind: Kind, a: Txn, b: Txn) -> Option<Refusal>
    ensures { result ≡ first_refusal (one_name a b ∷ unknown (applied (reverse entries.now)) a ∷ unknown (applied (reverse entries.now)) b ∷ ended (applied (reverse entries.now)) a ∷ ended (applied (reverse entries.now)) b ∷ cycle (applied (reverse entries.now)) kind a b ∷ []) }
{
    let by_status = refusal_to_depend(a, status_after(entries, a), b, status_after(entries, b));
    match by_status {
        Some(refusal) => Some(refusal),
        None if would_cycle(entries, kind, a, b) => Some(Refusal::Cycle),
        None => None,
    }
}

/// Returns the first refusal of the step that applies after these entries.
#[tactic(auto, unfolding(asset_names::specs::Answers::rules_for, asset_names::specs::Answers::unknown, asset_names::specs::Answers::ended, asset_names::specs::Answers::not_running, asset_names::specs::Answers::taken, asset_names::specs::Answers::begun_before, asset_names::specs::Answers::too_late, asset_names::specs::Answers::no_object, asset_names::specs::Answers::one_name, asset_names::specs::Answers::no_object_of, asset_names::specs::Operations::exists))]
pub fn refusal(opening: &[(Ob, i64)], entries: &[(Step, Reply)], step: &Step) -> Option<Refusal>
    ensures { result ≡ first_refusal (rules_for opening.now (applied (reverse entries.now)) step.now) }
{
    match *step {
        Step::Initiate { t, .. } => refusal_to_initiate(t, status_after(entries, t)),
        Step::Begin { t } => refusal_to_begin(t, status_after(entries, t)),
        Step::Read { t, x } | Step::Write { t, x, .. } | Step::Add { t, x, .. } => {
            let exists = opening_at(opening, x).is_some();
            refusal_to_operate(t, status_after(entries, t), x, exists)
        }
        Step::Complete { t } => refusal_to_work(t, status_after(entries, t)),
        Step::Permit {
            giver,
            taker,
            obs,
            ..
        }
        | Step::Delegate { giver, taker, obs } => refusal_between(
            giver,
            status_after(entries, giver),
            taker,
            status_after(entries, taker),
            missing_in(opening, &obs),
        ),
        Step::PermitAny { giver, obs, .. } => {
            let missing = missing_among(opening, &obs);
            refusal_to_open(giver, status_after(entries, giver), missing)
        }
        Step::Depend { kind, a, b } => refusal_of_dependency(entries, kind, a, b),
        Step::Commit { t } | Step::WaitFor { t } => refusal_to_find(t, status_after(entries, t)),
        Step::Abort { t } => refusal_to_abort(t, status_after(entries, t)),
    }
}
