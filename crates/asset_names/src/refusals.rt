//! The refusals of each step. Each function returns the first refusal that applies, and `None` if the step is
//! not refused.

ghost use Rattle.std.specs.Prelude.{◌≡◌, ◌==◌, not, [], ◌∷◌};
ghost use Rattle.asset_names.specs.Answers.{is_unknown, has_ended, has_begun, is_running, is_committed, missing_rule, first_refusal};

use crate::names::{Ob, Txn};
use crate::replies::Refusal;
use crate::statuses::Status;

/// Returns why a transaction with this status may not be initiated: Taken unless it is Unknown.
#[tactic(auto, unfolding(crate::specs::Answers::first_refusal, crate::specs::Answers::is_unknown))]
pub fn refusal_to_initiate(t: Txn, status: Status) -> Option<Refusal>
    ensures { result ≡ first_refusal ((not (is_unknown status), Refusal.Taken t) ∷ []) }
{
    match status {
        Status::Unknown => None,
        _ => Some(Refusal::Taken(t)),
    }
}

/// Returns why a transaction with this status may not begin: Unknown; Ended if it has committed or aborted;
/// Begun if it is Running or Completed. An Initiated one may begin.
#[tactic(auto, unfolding(crate::specs::Answers::first_refusal, crate::specs::Answers::is_unknown, crate::specs::Answers::has_ended, crate::specs::Answers::has_begun))]
pub fn refusal_to_begin(t: Txn, status: Status) -> Option<Refusal>
    ensures { result ≡ first_refusal ((is_unknown status, Refusal.Unknown t) ∷ (has_ended status, Refusal.Ended t) ∷ (has_begun status, Refusal.Begun t) ∷ []) }
{
    match status {
        Status::Unknown => Some(Refusal::Unknown(t)),
        Status::Committed | Status::Aborted => Some(Refusal::Ended(t)),
        Status::Running | Status::Completed => Some(Refusal::Begun(t)),
        Status::Initiated => None,
    }
}

/// Returns why a transaction with this status may not work: Unknown; Ended if it has committed or aborted;
/// NotRunning if it is Initiated or Completed. A Running one may work.
#[tactic(auto, unfolding(crate::specs::Answers::first_refusal, crate::specs::Answers::is_unknown, crate::specs::Answers::has_ended, crate::specs::Answers::is_running))]
pub fn refusal_to_work(t: Txn, status: Status) -> Option<Refusal>
    ensures { result ≡ first_refusal ((is_unknown status, Refusal.Unknown t) ∷ (has_ended status, Refusal.Ended t) ∷ (not (is_running status), Refusal.NotRunning t) ∷ []) }
{
    match status {
        Status::Unknown => Some(Refusal::Unknown(t)),
        Status::Committed | Status::Aborted => Some(Refusal::Ended(t)),
        Status::Initiated | Status::Completed => Some(Refusal::NotRunning(t)),
        Status::Running => None,
    }
}

/// Returns why a transaction with this status may not read, write or add to the object: the refusal of
/// `refusal_to_work`, otherwise NoObject if the object does not exist.
#[tactic(auto, unfolding(crate::specs::Answers::first_refusal, crate::specs::Answers::is_unknown, crate::specs::Answers::has_ended, crate::specs::Answers::is_running))]
pub fn refusal_to_operate(t: Txn, status: Status, x: Ob, exists: bool) -> Option<Refusal>
    ensures { result ≡ first_refusal ((is_unknown status, Refusal.Unknown t) ∷ (has_ended status, Refusal.Ended t) ∷ (not (is_running status), Refusal.NotRunning t) ∷ (not exists, Refusal.NoObject x) ∷ []) }
{
    match refusal_to_work(t, status) {
        Some(refusal) => Some(refusal),
        None if exists => None,
        None => Some(Refusal::NoObject(x)),
    }
}

/// Returns why a transaction with this status may not be committed or waited for: only if it is Unknown.
#[tactic(auto, unfolding(crate::specs::Answers::first_refusal, crate::specs::Answers::is_unknown))]
pub fn refusal_to_find(t: Txn, status: Status) -> Option<Refusal>
    ensures { result ≡ first_refusal ((is_unknown status, Refusal.Unknown t) ∷ []) }
{
    match status {
        Status::Unknown => Some(Refusal::Unknown(t)),
        _ => None,
    }
}

/// Returns why a transaction with this status may not be aborted: Unknown; TooLate if it has committed.
#[tactic(auto, unfolding(crate::specs::Answers::first_refusal, crate::specs::Answers::is_unknown, crate::specs::Answers::is_committed))]
pub fn refusal_to_abort(t: Txn, status: Status) -> Option<Refusal>
    ensures { result ≡ first_refusal ((is_unknown status, Refusal.Unknown t) ∷ (is_committed status, Refusal.TooLate t) ∷ []) }
{
    match status {
        Status::Unknown => Some(Refusal::Unknown(t)),
        Status::Committed => Some(Refusal::TooLate(t)),
        _ => None,
    }
}

/// Returns why a giver and a taker that were initiated may not share objects: one of them has ended, or an
/// object does not exist; `missing` is the least such object.
#[tactic(auto, unfolding(crate::specs::Answers::first_refusal, crate::specs::Answers::has_ended, crate::specs::Answers::missing_rule))]
fn refusal_of_ended(
    giver: Txn,
    giver_status: Status,
    taker: Txn,
    taker_status: Status,
    missing: Option<Ob>,
) -> Option<Refusal>
    ensures { result ≡ first_refusal ((has_ended giver_status, Refusal.Ended giver) ∷ (has_ended taker_status, Refusal.Ended taker) ∷ missing_rule missing ∷ []) }
{
    if giver_status.has_ended() {
        Some(Refusal::Ended(giver))
    } else if taker_status.has_ended() {
        Some(Refusal::Ended(taker))
    } else {
        missing.map(Refusal::NoObject)
    }
}

/// Returns why the giver may not permit or hand over anything to the taker; `missing` is the least object of the
/// set that does not exist, if there is one. The refusals in order: Same if the two are one transaction; Unknown of the
/// giver, then of the taker; Ended of the giver, then of the taker; NoObject of `missing`.
#[tactic(auto, unfolding(crate::specs::Answers::first_refusal))]
pub fn refusal_between(
    giver: Txn,
    giver_status: Status,
    taker: Txn,
    taker_status: Status,
    missing: Option<Ob>,
) -> Option<Refusal>
    ensures { result ≡ first_refusal ((giver.0 == taker.0, Refusal.Same) ∷ (is_unknown giver_status, Refusal.Unknown giver) ∷ (is_unknown taker_status, Refusal.Unknown taker) ∷ (has_ended giver_status, Refusal.Ended giver) ∷ (has_ended taker_status, Refusal.Ended taker) ∷ missing_rule missing ∷ []) }
{
    if giver.0 == taker.0 {
        Some(Refusal::Same)
    } else if giver_status.is_unknown() {
        Some(Refusal::Unknown(giver))
    } else if taker_status.is_unknown() {
        Some(Refusal::Unknown(taker))
    } else {
        refusal_of_ended(giver, giver_status, taker, taker_status, missing)
    }
}

/// Returns why an open permit of the giver is refused; `missing` is the least object of its list that does not exist, if
/// there is one. The refusals in order: Unknown, Ended, NoObject of `missing`.
#[tactic(auto, unfolding(crate::specs::Answers::first_refusal, crate::specs::Answers::has_ended, crate::specs::Answers::missing_rule))]
pub fn refusal_to_open(giver: Txn, status: Status, missing: Option<Ob>) -> Option<Refusal>
    ensures { result ≡ first_refusal ((is_unknown status, Refusal.Unknown giver) ∷ (has_ended status, Refusal.Ended giver) ∷ missing_rule missing ∷ []) }
{
    if status.is_unknown() {
        Some(Refusal::Unknown(giver))
    } else if status.has_ended() {
        Some(Refusal::Ended(giver))
    } else {
        missing.map(Refusal::NoObject)
    }
}

/// Returns why no dependency may be made between two transactions, as far as their statuses say. The refusals in order:
/// Same if the two are one transaction; Unknown of the source, then of the dependent; Ended of the source, then of the
/// dependent. What is left is whether it would close a cycle.
#[tactic(auto, unfolding(crate::specs::Answers::first_refusal, crate::specs::Answers::has_ended))]
pub fn refusal_to_depend(a: Txn, a_status: Status, b: Txn, b_status: Status) -> Option<Refusal>
    ensures { result ≡ first_refusal ((a.0 == b.0, Refusal.Same) ∷ (is_unknown a_status, Refusal.Unknown a) ∷ (is_unknown b_status, Refusal.Unknown b) ∷ (has_ended a_status, Refusal.Ended a) ∷ (has_ended b_status, Refusal.Ended b) ∷ []) }
{
    if a.0 == b.0 {
        Some(Refusal::Same)
    } else if a_status.is_unknown() {
        Some(Refusal::Unknown(a))
    } else if b_status.is_unknown() {
        Some(Refusal::Unknown(b))
    } else if a_status.has_ended() {
        Some(Refusal::Ended(a))
    } else if b_status.has_ended() {
        Some(Refusal::Ended(b))
    } else {
        None
    }
}
