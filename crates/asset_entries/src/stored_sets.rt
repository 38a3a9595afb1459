//! The sets of objects of the entries, stored one behind the other.

use asset_names::{Ob, ObList, ObSet};
use std::alloc::{AllocError, Global};
use std::marker::Model;

/// Where the objects of a set are stored: `count` of them from the position `start` on. The set of all objects is stored as
/// none.
#[derive(Clone, Copy)]
pub(crate) struct Stretch {
    start: usize,
    count: usize,
}

/// Sets of objects, each in as many slots as it lists objects. Contracts see the sets in order, and for how many there is
/// room in all.
#[derive(Drop)]
pub(crate) struct StoredSets {
    objects: Vec<Ob>,
    stretches: Vec<Stretch>,
    room: usize,
}

impl Model for StoredSets {
    ghost use Rattle.std.specs.Prelude.{vec_capacity};
    ghost use Rattle.asset_entries.specs.StoredSets.{Sets, sets_of, IsValid};

    ghost Value = { Sets };

    ghost view = { λ s. sets_of s.objects.items s.stretches.items s.room };

    ghost invariant = { λ s. IsValid s.objects.items s.stretches.items s.room (vec_capacity s.objects) (vec_capacity s.stretches) };
}

/// The most objects that a set lists.
const MOST_LISTED: usize = 16;

impl StoredSets {
    ghost use Rattle.std.specs.Prelude.{◌≡◌, ◌<◌, ◌≤◌, [], ◌∷◌, ◌++◌, length, slice_get, IfOk};
    ghost use Rattle.std.specs.List.Sorted.{IsStrictlyIncreasing};
    ghost use Rattle.asset_names.specs.Sets.{numbers};
    ghost use Rattle.asset_entries.specs.StoredSets.{StoredSet, set_or_all, stored_set};

    /// Returns no sets, with room for `room` of them. It takes memory for as many lists of 16 objects, of which no more is used
    /// than the sets list.
    pub(crate) fn with_room(alloc: Global, room: usize) -> Result<StoredSets, AllocError>
        ensures sets { IfOk result (λ sets. sets.sets ≡ []) }
        ensures room { IfOk result (λ sets. sets.room ≡ room) }
    {
        let Some(slots) = room.checked_mul(MOST_LISTED) else {
            return Err(AllocError);
        };
        Ok(StoredSets {
            objects: Vec::with_capacity(alloc, slots)?,
            stretches: Vec::with_capacity(alloc, room)?,
            room,
        })
    }

    /// Returns how many sets there are.
    pub(crate) fn len(&self) -> usize
        ensures { result ≡ length self.now.sets }
    {
        self.stretches.len()
    }

    /// Appends the set of these objects, for which there is room. It does not allocate.
    fn push_objects(&mut self, listed: &[Ob])
        requires few { length listed.now ≤ 16 }
        requires rising { IsStrictlyIncreasing (numbers listed.now) }
        requires room { length self.old.sets < self.old.room }
        ensures sets { self.new.sets ≡ self.old.sets ++ stored_set listed.now ∷ [] }
        ensures room { self.new.room ≡ self.old.room }
    {
        let start = self.objects.len();
        append_objects(&mut self.objects, listed);
        let count = listed.len();
        self.stretches.push_reserved(Stretch { start, count });
    }

    /// Appends a set, for which there is room. It does not allocate.
    pub(crate) fn push(&mut self, set: &ObSet)
        requires { length self.old.sets < self.old.room }
        ensures sets { self.new.sets ≡ self.old.sets ++ record { obs = set.now } ∷ [] }
        ensures room { self.new.room ≡ self.old.room }
    {
        self.push_objects(listed_objects(set));
    }

    /// Appends the set at the index of other sets, which is there. There is room for it here, so it does not allocate.
    pub(crate) fn push_from(&mut self, others: &StoredSets, index: usize)
        requires there { index < length others.now.sets }
        requires room { length self.old.sets < self.old.room }
        ensures sets { self.new.sets ≡ self.old.sets ++ record { obs = set_or_all (slice_get others.now.sets index) } ∷ [] }
        ensures room { self.new.room ≡ self.old.room }
    {
        self.push_objects(others.listed_at(index));
    }

    /// Returns the objects that the set at the index lists, which is there, and none if it is every object.
    fn listed_at(&self, index: usize) -> &[Ob]
        requires { index < length self.now.sets }
        ensures few { length result.now ≤ 16 }
        ensures rising { IsStrictlyIncreasing (numbers result.now) }
        ensures set { stored_set result.now ≡ record { obs = set_or_all (slice_get self.now.sets index) } }
    {
        objects_of(&self.objects, self.stretches[index])
    }

    /// Returns the set at the index, which is there.
    pub(crate) fn set(&self, index: usize) -> ObSet
        requires { index < length self.now.sets }
        ensures { result ≡ set_or_all (slice_get self.now.sets index) }
    {
        set_of(self.listed_at(index))
    }
}

ghost use Rattle.std.specs.Prelude.{◌≡◌, ◌≤◌, ◌+◌, ◌++◌, length, vec_capacity};
ghost use Rattle.std.specs.List.Sorted.{IsStrictlyIncreasing};
ghost use Rattle.asset_names.specs.Sets.{numbers};
ghost use Rattle.asset_entries.specs.StoredSets.{stored_set, stretch_of};

/// Appends the objects, for which there is room. One alone, as most sets have, is put in its place at once.
#[inline(always)]
fn append_objects(objects: &mut Vec<Ob>, listed: &[Ob])
    requires { length objects.old.items + length listed.now ≤ vec_capacity objects.old }
    ensures items { objects.new.items ≡ objects.old.items ++ listed.now }
    ensures capacity { vec_capacity objects.old ≤ vec_capacity objects.new }
{
    if listed.len() == 1 {
        objects.push_reserved(listed[0]);
    } else {
        objects.extend_from_slice(listed).unwrap();
    }
}

/// Returns the objects that the set lists, and none if it is every object.
fn listed_objects(set: &ObSet) -> &[Ob]
    ensures few { length result.now ≤ 16 }
    ensures rising { IsStrictlyIncreasing (numbers result.now) }
    ensures set { stored_set result.now ≡ record { obs = set.now } }
{
    match set {
        ObSet::All => &[],
        ObSet::Listed(list) => list.objects(),
    }
}

/// Returns the objects of a stretch.
#[tactic(auto, unfolding(crate::specs::StoredSets::stretch_of))]
fn objects_of(objects: &[Ob], s: Stretch) -> &[Ob]
    requires { s.start + s.count ≤ length objects.now }
    ensures { result.now ≡ stretch_of objects.now s }
{
    &objects[s.start..s.start + s.count]
}

/// Returns the set of these objects: every object if there is none.
fn set_of(objects: &[Ob]) -> ObSet
    requires few { length objects.now ≤ 16 }
    requires rising { IsStrictlyIncreasing (numbers objects.now) }
    ensures { record { obs = result } ≡ stored_set objects.now }
{
    if objects.is_empty() {
        return ObSet::All;
    }
    match ObList::of(objects) {
        Ok(list) => ObSet::Listed(list),
        Err(_) => unreachable!(),
    }
}
