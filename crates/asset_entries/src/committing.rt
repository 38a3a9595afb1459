//! The commits that a history answers.

use crate::reply_tag::ReplyTag;
use crate::stored::Stored;
use asset_names::Txn;

impl Stored {
    ghost use Rattle.std.specs.Prelude.{◌≡◌, List};
    ghost use Rattle.asset_entries.specs.Committing.{committer};
    ghost use Rattle.asset_entries.specs.StoredSets.{StoredSet};
    ghost use Rattle.asset_entries.specs.Stored.{entry_of};

    /// Returns the transaction whose commit the entry answers with `Committed`, if it is such an entry.
    #[inline(always)]
    #[tactic(auto, unfolding(crate::specs::Committing::committer, crate::specs::Stored::entry_of, crate::specs::Stored::reply_of_name, crate::specs::Stored::reply_about, crate::specs::Stored::permit_entry, crate::specs::Stored::open_entry, crate::specs::Stored::delegate_entry))]
    pub(crate) fn committed(&self) -> Option<Txn>
        ensures { (sets : List StoredSet) → result ≡ committer (entry_of sets self.now).0 (entry_of sets self.now).1 }
    {
        match *self {
            Stored::Commit { tag, t } => match tag {
                ReplyTag::Committed => Some(t),
                _ => None,
            },
            // Its step depends on its set, so it has a case of its own.
            Stored::PermitAny { .. } => None,
            _ => None,
        }
    }
}
