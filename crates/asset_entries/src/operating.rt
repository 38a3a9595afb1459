//! The operations and the open permits that took effect.

ghost use Rattle.std.specs.Prelude.{◌≡◌};
ghost use Rattle.asset_entries.specs.Operating.{opener_with};

use crate::reply_tag::ReplyTag;
use crate::stored::Stored;
use crate::stored_sets::StoredSets;
use asset_names::{Ob, ObList, ObSet, Txn};

/// Returns the giver with the objects of the set, if it is a list.
#[inline(always)]
#[tactic(auto, unfolding(crate::specs::Operating::opener_with))]
fn opener_with(giver: Txn, obs: ObSet) -> Option<(Txn, ObList)>
    ensures { result ≡ opener_with giver obs }
{
    match obs {
        ObSet::Listed(list) => Some((giver, list)),
        ObSet::All => None,
    }
}

impl Stored {
    ghost use Rattle.std.specs.Prelude.{◌≡◌, List, length, true};
    ghost use Rattle.asset_entries.specs.Operating.{operator_of, opener_of};
    ghost use Rattle.asset_entries.specs.StoredSets.{StoredSet};
    ghost use Rattle.asset_entries.specs.Stored.{entry_of, has_set};

    /// Returns the transaction and the object, if the entry is an operation that took effect.
    #[inline(always)]
    #[tactic(auto, unfolding(crate::specs::Operating::operator_of, crate::specs::Stored::entry_of, crate::specs::Stored::permit_entry, crate::specs::Stored::delegate_entry, crate::specs::Stored::reply_about))]
    pub(crate) fn operator(&self) -> Option<(Txn, Ob)>
        ensures { (sets : List StoredSet) → result ≡ operator_of (entry_of sets self.now).0 (entry_of sets self.now).1 }
    {
        match *self {
            Stored::Read { tag, t, x, .. } => match tag {
                ReplyTag::Value => Some((t, x)),
                _ => None,
            },
            Stored::Write { tag, t, x, .. } => match tag {
                ReplyTag::Done => Some((t, x)),
                _ => None,
            },
            Stored::Add { tag, t, x, .. } => match tag {
                ReplyTag::Done => Some((t, x)),
                _ => None,
            },
            // Its step depends on its set, so it has a case of its own.
            Stored::PermitAny { .. } => None,
            _ => None,
        }
    }

    /// Returns the giver and the objects, if the entry is an open permit that took effect. Its set, if it has one, is among the
    /// stored sets.
    #[inline(always)]
    #[tactic(auto, unfolding(crate::specs::Operating::opener_of, crate::specs::Operating::opener_with, crate::specs::Stored::entry_of, crate::specs::Stored::permit_entry, crate::specs::Stored::open_entry, crate::specs::Stored::delegate_entry, crate::specs::Stored::opened_step, crate::specs::Stored::reply_of_two, crate::specs::Stored::reply_about, crate::specs::Stored::has_set))]
    pub(crate) fn opener(&self, sets: &StoredSets) -> Option<(Txn, ObList)>
        requires { has_set (length sets.now.sets) self.now ≡ true }
        ensures { result ≡ opener_of (entry_of sets.now.sets self.now).0 (entry_of sets.now.sets self.now).1 }
    {
        match *self {
            Stored::PermitAny {
                tag,
                set,
                giver,
                ..
            } => match tag {
                ReplyTag::Done => opener_with(giver, sets.set(set)),
                _ => None,
            },
            _ => None,
        }
    }
}
