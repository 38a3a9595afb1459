//! The set of objects of an entry, and the object of it that a refusal is about.

ghost use Rattle.std.specs.Prelude.{◌≡◌, ◌<◌, ◌≤◌, true, length};
ghost use Rattle.asset_entries.specs.Stored.{entry_of, has_set, missing_at, object_at, position, sets_after};

use crate::stored::Stored;
use crate::stored_sets::StoredSets;
use asset_names::{Ob, ObSet, Refusal, Reply, Step};

/// Returns the index of the object in the list, and the length of the list if it is not there.
fn position(objects: &[Ob], x: Ob) -> usize
    ensures index { result ≡ position x objects.now }
    ensures within { result ≤ length objects.now }
{
    let mut index = 0;
    'objects: while index < objects.len() {
        if objects[index].0 == x.0 {
            return index;
        }
        index += 1;
    }
    index
}

/// Returns the index in its set of the object that the reply says is missing, and 0 for any other reply.
#[inline(always)]
#[tactic(auto, unfolding(crate::specs::Stored::missing_at))]
pub(crate) fn missing_at(obs: &ObSet, reply: Reply) -> u8
    ensures { result ≡ missing_at obs.now reply }
{
    match (obs, reply) {
        (ObSet::Listed(list), Reply::Refused(Refusal::NoObject(x))) => {
            position(list.objects(), x) as u8
        }
        _ => 0,
    }
}

/// Returns the object at the index of a list; object 0 past its end, and for the set of all objects.
#[tactic(auto, unfolding(crate::specs::Stored::object_at))]
pub(crate) fn object_at(obs: &ObSet, index: u8) -> Ob
    ensures { result ≡ object_at obs.now index }
{
    match obs {
        ObSet::All => Ob::default(),
        ObSet::Listed(list) => match list.objects().get(index as usize) {
            Some(x) => *x,
            None => Ob::default(),
        },
    }
}

/// Appends the set of a permit or a delegation to the sets, whose room is reserved. Any other step has none.
#[inline(always)]
#[tactic(auto, unfolding(crate::specs::Stored::sets_after))]
pub(crate) fn push_set(sets: &mut StoredSets, step: &Step)
    requires room { length sets.old.sets < sets.old.room }
    ensures sets { sets.new.sets ≡ sets_after step.now sets.old.sets }
    ensures room { sets.new.room ≡ sets.old.room }
{
    match step {
        Step::Permit { obs, .. } => sets.push(obs),
        Step::PermitAny { obs, .. } => sets.push(&ObSet::Listed(*obs)),
        Step::Delegate { obs, .. } => sets.push(obs),
        _ => {}
    }
}

/// Appends the set of an entry, which is among other sets, to the sets, whose room is reserved. Any other entry has none.
#[tactic(auto, unfolding(crate::specs::Stored::sets_after, crate::specs::Stored::entry_of, crate::specs::Stored::permit_entry, crate::specs::Stored::open_entry, crate::specs::Stored::delegate_entry, crate::specs::Stored::has_set))]
pub(crate) fn copy_set(sets: &mut StoredSets, others: &StoredSets, stored: &Stored)
    requires there { has_set (length others.now.sets) stored.now ≡ true }
    requires room { length sets.old.sets < sets.old.room }
    ensures sets { sets.new.sets ≡ sets_after (entry_of others.now.sets stored.now).0 sets.old.sets }
    ensures room { sets.new.room ≡ sets.old.room }
{
    match *stored {
        Stored::Permit { set, .. } => sets.push_from(others, set),
        Stored::PermitAny { set, .. } => sets.push_from(others, set),
        Stored::Delegate { set, .. } => sets.push_from(others, set),
        _ => {}
    }
}
