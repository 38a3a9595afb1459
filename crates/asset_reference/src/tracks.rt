//! The status of a transaction, by going over the entries.

ghost use Rattle.std.specs.Prelude.{◌≡◌, ◌≤◌, List, ◌∷◌, [], length, reverse, take};
ghost use Rattle.asset_names.specs.Arrows.{lists};
ghost use Rattle.asset_names.specs.declared.steps.Step.{Step};
ghost use Rattle.asset_names.specs.Steps.{applied, initiated};
ghost use Rattle.asset_names.specs.Endings.{live, status, status_of, end_of};
ghost use Rattle.asset_names.specs.Operations.{was_aborted};
ghost use Rattle.asset_reference.specs.Tracks.{track_of};

use crate::endings::end_within;
use asset_names::{End, Reply, Status, Step, Txn, takes_effect};

/// What the steps that took effect say of one transaction.
#[derive(Clone, Copy)]
pub struct Track {
    pub initiated: bool,
    pub begun: bool,
    pub completed: bool,
}

impl Track {
    ghost use Rattle.std.specs.Prelude.{◌≡◌, ℕ, List, [], ◌∷◌};
    ghost use Rattle.asset_names.specs.declared.steps.Step.{Step};
    ghost use Rattle.asset_names.specs.Steps.{Entry, applied};
    ghost use Rattle.asset_names.specs.Endings.{status_of};
    ghost use Rattle.asset_reference.specs.Tracks.{track_of, track_after};

    /// Returns the track of a transaction that no step names.
    #[tactic(auto, unfolding(crate::specs::Tracks::track_of, asset_names::specs::Arrows::lists, asset_names::specs::Steps::initiated, asset_names::specs::Steps::begun, asset_names::specs::Steps::completed))]
    pub fn new() -> Track
        ensures { (t : ℕ) → result ≡ track_of [] t }
    {
        Track {
            initiated: false,
            begun: false,
            completed: false,
        }
    }

    /// Returns the track of `t` after one more entry.
    #[tactic(auto, using(crate::proofs::TrackLemmas::track_of_entry))]
    fn after(self, entry: &(Step, Reply), t: Txn) -> Track
        ensures { (older : List Entry) → self ≡ track_of (applied older) t.0 → result ≡ track_of (applied (entry.now ∷ older)) t.0 }
    {
        if takes_effect(&entry.0, entry.1) {
            self.after_applied(&entry.0, t)
        } else {
            self
        }
    }

    /// Returns the track of `t` after one more step that took effect.
    #[tactic(auto, unfolding(crate::specs::Tracks::track_after))]
    fn after_applied(self, step: &Step, t: Txn) -> Track
        ensures { result ≡ track_after self step.now t.0 }
    {
        let mut next = self;
        match *step {
            Step::Initiate { t: named, .. } => next.initiated = named == t || self.initiated,
            Step::Begin { t: named } => next.begun = named == t || self.begun,
            Step::Complete { t: named } => next.completed = named == t || self.completed,
            Step::Read { .. }
            | Step::Write { .. }
            | Step::Add { .. }
            | Step::Permit { .. }
            | Step::PermitAny { .. }
            | Step::Delegate { .. }
            | Step::Depend { .. }
            | Step::Commit { .. }
            | Step::Abort { .. }
            | Step::WaitFor { .. } => {}
        }
        next
    }

    /// Returns the status by the track, and by how the transaction ended.
    #[tactic(auto, unfolding(asset_names::specs::Endings::status_of))]
    fn status(self, end: Option<End>) -> Status
        ensures { result ≡ status_of self.initiated self.begun self.completed end }
    {
        if !self.initiated {
            return Status::Unknown;
        }
        match end {
            Some(End::Committed) => Status::Committed,
            Some(End::Aborted) => Status::Aborted,
            None if self.completed => Status::Completed,
            None if self.begun => Status::Running,
            None => Status::Initiated,
        }
    }
}

/// Returns what the entries say of `t`.
fn track_entries(entries: &[(Step, Reply)], t: Txn) -> Track
    ensures { result ≡ track_of (applied (reverse entries.now)) t.0 }
{
    let mut track = Track::new();
    'entries: for entry in entries {
        track = track.after(entry, t);
    }
    track
}

/// Returns whether `t` was initiated by the first `count` entries.
#[tactic(auto, unfolding(crate::specs::Tracks::track_of))]
pub fn initiated_within(entries: &[(Step, Reply)], count: usize, t: Txn) -> bool
    requires { count ≤ length entries.now }
    ensures { result ≡ lists (initiated (applied (reverse (take count entries.now)))) t.0 }
{
    track_entries(&entries[..count], t).initiated
}

/// Returns how `t` ended by these entries, if it did.
#[tactic(auto, using(std::proofs::lemmas::List::take_all))]
fn end_after(entries: &[(Step, Reply)], t: Txn) -> Option<End>
    ensures { result ≡ end_of (applied (reverse entries.now)) t.0 }
{
    end_within(entries, entries.len(), t)
}

/// Returns the status of `t` after these entries.
#[tactic(auto, unfolding(crate::specs::Tracks::track_of, asset_names::specs::Endings::status))]
pub fn status_after(entries: &[(Step, Reply)], t: Txn) -> Status
    ensures { result ≡ status (applied (reverse entries.now)) t.0 }
{
    track_entries(entries, t).status(end_after(entries, t))
}

/// Returns whether the transaction is live.
#[tactic(auto, using(asset_names::proofs::LiveLemmas::live_by_status))]
pub fn is_live(entries: &[(Step, Reply)], t: Txn) -> bool
    ensures { result ≡ live (applied (reverse entries.now)) t.0 }
{
    status_after(entries, t).is_live()
}

/// Returns whether `t` ended by an abort.
#[tactic(auto, unfolding(asset_names::specs::Operations::was_aborted))]
pub fn was_aborted(entries: &[(Step, Reply)], t: Txn) -> bool
    ensures { result ≡ was_aborted (end_of (applied (reverse entries.now)) t.0) }
{
    matches!(end_after(entries, t), Some(End::Aborted))
}
