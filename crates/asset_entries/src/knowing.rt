//! Whether an entry acts on somebody who is known.

ghost use Rattle.std.specs.Prelude.{◌≡◌};
ghost use Rattle.asset_entries.specs.Knowing.{is_known_tag};

use crate::reply_tag::ReplyTag;
use crate::stored::Stored;

/// Returns whether the reply with this tag is not a refusal of an unknown transaction.
#[inline(always)]
#[tactic(auto, unfolding(crate::specs::Knowing::is_known_tag))]
fn is_known(tag: ReplyTag) -> bool
    ensures { result ≡ is_known_tag tag }
{
    match tag {
        ReplyTag::Unknown => false,
        ReplyTag::SecondUnknown => false,
        _ => true,
    }
}

impl Stored {
    ghost use Rattle.std.specs.Prelude.{◌≡◌, List};
    ghost use Rattle.asset_entries.specs.Knowing.{is_of_known};
    ghost use Rattle.asset_entries.specs.StoredSets.{StoredSet};
    ghost use Rattle.asset_entries.specs.Stored.{entry_of};

    /// Returns whether the entry is the work, a begin or an end of one transaction that was known.
    #[inline(always)]
    #[tactic(auto, unfolding(crate::specs::Knowing::is_of_known, crate::specs::Knowing::is_of_one, crate::specs::Stored::entry_of, crate::specs::Stored::reply_of_name, crate::specs::Stored::permit_entry, crate::specs::Stored::open_entry, crate::specs::Stored::delegate_entry))]
    pub(crate) fn is_of_known(&self) -> bool
        ensures { (sets : List StoredSet) → result ≡ is_of_known (entry_of sets self.now).0 (entry_of sets self.now).1 }
    {
        match *self {
            Stored::Read { tag, .. } => is_known(tag),
            Stored::Write { tag, .. } => is_known(tag),
            Stored::Add { tag, .. } => is_known(tag),
            Stored::Begin { tag, .. } => is_known(tag),
            Stored::Complete { tag, .. } => is_known(tag),
            Stored::Commit { tag, .. } => is_known(tag),
            Stored::Abort { tag, .. } => is_known(tag),
            // Its step depends on its set, so it has a case of its own.
            Stored::PermitAny { .. } => false,
            _ => false,
        }
    }
}
