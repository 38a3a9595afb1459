//! Outcomes of steps that are not refused, by the status of their transaction.

ghost use Rattle.std.specs.Prelude.{◌≡◌};
ghost use Rattle.asset_names.specs.Steps.{takes_effect};
ghost use Rattle.asset_names.specs.Answers.{commit_outcome, wait_outcome};

use crate::replies::{Outcome, Reply};
use crate::statuses::Status;
use crate::steps::Step;

/// Returns the outcome of a commit of a transaction with this status. If it has ended, the outcome says how.
/// Otherwise it is Committed if `ready`, that is, if its class may commit, and Wait if not.
#[tactic(auto, unfolding(crate::specs::Answers::commit_outcome))]
pub fn commit_outcome(status: Status, ready: bool) -> Outcome
    ensures { result ≡ commit_outcome status ready }
{
    match status {
        Status::Committed => Outcome::Answer(Reply::Committed),
        Status::Aborted => Outcome::Answer(Reply::Aborted),
        _ if ready => Outcome::Answer(Reply::Committed),
        _ => Outcome::Wait,
    }
}

/// Returns the outcome of a wait for a transaction with this status: Done if it has completed, how it ended if
/// it has ended, and Wait otherwise.
#[tactic(auto, unfolding(crate::specs::Answers::wait_outcome))]
pub fn wait_outcome(status: Status) -> Outcome
    ensures { result ≡ wait_outcome status }
{
    match status {
        Status::Completed => Outcome::Answer(Reply::Done),
        Status::Committed => Outcome::Answer(Reply::Committed),
        Status::Aborted => Outcome::Answer(Reply::Aborted),
        Status::Unknown | Status::Initiated | Status::Running => Outcome::Wait,
    }
}

/// Returns whether a step with this reply takes effect, that is, was done, also if it was done before and changes
/// nothing now. A wait for a transaction never does.
#[tactic(auto, unfolding(crate::specs::Steps::takes_effect))]
pub fn takes_effect(step: &Step, reply: Reply) -> bool
    ensures { result ≡ takes_effect step.now reply }
{
    match step {
        Step::Read { .. } => matches!(reply, Reply::Value(_)),
        Step::Commit { .. } => matches!(reply, Reply::Committed),
        Step::Abort { .. } => matches!(reply, Reply::Aborted),
        Step::WaitFor { .. } => false,
        _ => matches!(reply, Reply::Done),
    }
}
