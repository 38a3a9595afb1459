//! The status of a transaction.

/// The status of a transaction. It is live while it is Initiated, Running or Completed.
#[derive(Clone, Copy, Debug, PartialEq, Eq)]
pub enum Status {
    /// No transaction of this name was initiated.
    Unknown,
    /// It is registered and not started.
    Initiated,
    /// It is started, and may read, write and add.
    Running,
    /// It has done its work and has not ended.
    Completed,
    /// It ended by a commit.
    Committed,
    /// It ended by an abort, and its writes and adds are undone.
    Aborted,
}

/// How a transaction ended.
#[derive(Clone, Copy, Debug, PartialEq, Eq)]
pub enum End {
    /// Its writes and adds stand for good.
    Committed,
    /// Its writes and adds are undone.
    Aborted,
}

impl Status {
    ghost use Rattle.std.specs.Prelude.{◌≡◌};
    ghost use Rattle.asset_names.specs.Endings.{is_live_status};
    ghost use Rattle.asset_names.specs.Answers.{is_unknown, has_ended, is_completed};
    ghost use Rattle.asset_names.specs.Room.{owed_to};

    /// Returns whether a transaction with this status is live.
    #[tactic(auto, unfolding(crate::specs::Endings::is_live_status))]
    pub fn is_live(self) -> bool
        ensures { result ≡ is_live_status self }
    {
        matches!(
            self,
            Status::Initiated | Status::Running | Status::Completed
        )
    }

    /// Returns whether no transaction of the name was initiated.
    #[tactic(auto, unfolding(crate::specs::Answers::is_unknown))]
    pub fn is_unknown(self) -> bool
        ensures { result ≡ is_unknown self }
    {
        matches!(self, Status::Unknown)
    }

    /// Returns whether a transaction with this status has committed or aborted.
    #[tactic(auto, unfolding(crate::specs::Answers::has_ended))]
    pub fn has_ended(self) -> bool
        ensures { result ≡ has_ended self }
    {
        matches!(self, Status::Committed | Status::Aborted)
    }

    /// Returns whether a transaction with this status has completed and not ended.
    #[tactic(auto, unfolding(crate::specs::Answers::is_completed))]
    pub fn is_completed(self) -> bool
        ensures { result ≡ is_completed self }
    {
        matches!(self, Status::Completed)
    }

    /// Returns how many entries a transaction with this status is owed, so that it can still end: 0 to 2.
    #[tactic(auto, unfolding(crate::specs::Room::owed_to))]
    pub fn owed(self) -> usize
        ensures { result ≡ owed_to self }
    {
        match self {
            Status::Initiated | Status::Running => 2,
            Status::Completed => 1,
            Status::Unknown | Status::Committed | Status::Aborted => 0,
        }
    }
}
