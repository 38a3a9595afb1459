//! The opening and the entries of a history, in order.

use crate::stored::Stored;
use crate::stored_set::{copy_set, push_set};
use crate::stored_sets::StoredSets;
use asset_names::{NoMemory, Ob, ObList, Reply, Step, Txn};
use std::alloc::{AllocError, Global};
use std::marker::Model;

/// The opening values of the objects, of which none is given twice, and the entries: each is a step with its reply. They
/// are always legal: each reply is the one answer to its step after the entries before it. Contracts see the opening, the
/// entries with the newest first, and the capacity.
pub struct Entries {
    opening: Vec<(Ob, i64)>,
    entries: Vec<Stored>,
    sets: StoredSets,
    capacity: usize,
}

impl Drop for Entries {
    fn drop(self) {
        let Entries {
            opening,
            entries,
            sets,
            capacity: _,
        } = self;
        drop(opening);
        drop(entries);
        drop(sets);
    }
}

impl Model for Entries {
    ghost use Rattle.std.specs.Prelude.{vec_capacity};
    ghost use Rattle.asset_entries.specs.Recorded.{Recorded};
    ghost use Rattle.asset_entries.specs.Stored.{entries_of, IsValid};

    ghost Value = { Recorded };

    ghost view = { λ h. record { opening = h.opening.items; entries = entries_of h.sets.sets h.entries.items; capacity = h.capacity } };

    ghost invariant = { λ h. IsValid h.opening.items h.entries.items h.sets.sets h.capacity (vec_capacity h.entries) h.sets.room };
}

impl Entries {
    ghost use Rattle.std.specs.Prelude.{◌≡◌, ◌<◌, ◌≤◌, ◌↔◌, ◌^◌, [], length, reverse, slice_get, IfOk, IsTrue, Some};
    ghost use Rattle.std.specs.Option.{option_map};
    ghost use Rattle.asset_entries.specs.Acting.{both_of};
    ghost use Rattle.asset_entries.specs.Committing.{commit_at};
    ghost use Rattle.asset_entries.specs.Knowing.{is_of_known_at};
    ghost use Rattle.asset_entries.specs.Operating.{operator_at, opener_at};
    ghost use Rattle.asset_names.specs.Sets.{HasNoDouble};
    ghost use Rattle.asset_names.specs.Answers.{IsLegal};
    ghost use Rattle.asset_names.specs.Steps.{Entry, objects_of};
    ghost use Rattle.asset_names.specs.declared.replies.Outcome.TheVariants.{Answer};
    ghost use Rattle.asset_entries.specs.Recorded.{opened, answer_to, with_entry};

    /// Returns these opening values without entries, with room for `capacity` of them. No object is given
    /// twice. It takes that room here, and fails if memory runs out.
    pub fn open(alloc: Global, opening: &[(Ob, i64)], capacity: usize) -> Result<Entries, NoMemory>
        requires different { HasNoDouble (objects_of opening.now) }
        ensures { IfOk result (λ entries. entries ≡ opened opening.now capacity) }
    {
        match Entries::with_room(alloc, opening, capacity) {
            Ok(entries) => Ok(entries),
            Err(_) => Err(NoMemory),
        }
    }

    /// Returns opening values without entries, as `open` does.
    #[tactic(auto, unfolding(crate::specs::Recorded::opened, crate::specs::Stored::entries_of))]
    fn with_room(
        alloc: Global,
        opening: &[(Ob, i64)],
        capacity: usize,
    ) -> Result<Entries, AllocError>
        requires different { HasNoDouble (objects_of opening.now) }
        ensures { IfOk result (λ entries. entries ≡ opened opening.now capacity) }
    {
        Ok(Entries {
            opening: opening.to_vec(alloc)?,
            entries: Vec::with_capacity(alloc, capacity)?,
            sets: StoredSets::with_room(alloc, capacity)?,
            capacity,
        })
    }

    /// Returns the allocator that the room was taken from.
    pub fn allocator(&self) -> Global {
        *self.entries.allocator()
    }

    /// Returns the objects with their opening values, in the order in which they were given. None is given twice.
    pub fn opening(&self) -> &[(Ob, i64)]
        ensures given { result.now ≡ self.now.opening }
        ensures different { HasNoDouble (objects_of self.now.opening) }
    {
        self.opening.as_slice()
    }

    /// Returns the number of entries.
    pub fn len(&self) -> usize
        ensures len { result ≡ length self.now.entries }
        ensures within { length self.now.entries ≤ self.now.capacity }
        ensures small { length self.now.entries < 2 ^ 63 }
        ensures legal { IsLegal self.now.opening self.now.entries }
    {
        self.entries.len()
    }

    /// Returns whether there is no entry.
    pub fn is_empty(&self) -> bool
        ensures { IsTrue result ↔ (self.now.entries ≡ []) }
    {
        self.len() == 0
    }

    /// Returns the entry at the index, oldest first from 0, and `None` past the end.
    #[inline(always)]
    pub fn entry(&self, index: usize) -> Option<(Step, Reply)>
        ensures entry { result ≡ slice_get (reverse self.now.entries) index }
        ensures legal { IsLegal self.now.opening self.now.entries }
    {
        match self.entries.get(index) {
            Some(stored) => Some(stored.entry(&self.sets)),
            None => None,
        }
    }

    /// Puts the step of the entry at the index, oldest first from 0, into the slot, and returns its reply; `None` past the end,
    /// and what the slot then has means nothing. Only what the step names is written, so a slot that is lent for many entries
    /// saves the copies that `entry` makes.
    #[inline(always)]
    pub fn entry_into(&self, index: usize, step: &mut Step) -> Option<Reply>
        ensures entry { option_map (λ reply. (step.new, reply)) result ≡ slice_get (reverse self.now.entries) index }
        ensures legal { IsLegal self.now.opening self.now.entries }
    {
        match self.entries.as_slice().get(index) {
            Some(stored) => Some(stored.put(&self.sets, step)),
            None => None,
        }
    }

    /// Returns whether there is an entry at the index, oldest first from 0, and it is that of the step with the reply. If
    /// both are of one kind that names one transaction and no set of objects, the step of the entry is not read back.
    #[inline(always)]
    pub fn records(&self, index: usize, step: &Step, reply: Reply) -> bool
        ensures { IsTrue result ↔ (slice_get (reverse self.now.entries) index ≡ Some (step.now, reply)) }
    {
        match self.entries.as_slice().get(index) {
            Some(stored) => stored.records(&self.sets, step, reply),
            None => false,
        }
    }

    /// Returns the two transactions that the step of the entry at the index acts on, oldest first from 0, and `None` past
    /// the end. They are one if it acts on one. The step is not read back, so a set of objects costs nothing.
    #[inline(always)]
    pub fn acted_on(&self, index: usize) -> Option<(Txn, Txn)>
        ensures { result ≡ option_map both_of (slice_get (reverse self.now.entries) index) }
    {
        match self.entries.as_slice().get(index) {
            Some(stored) => Some(stored.both()),
            None => None,
        }
    }

    /// Returns the transaction whose commit is answered with `Committed` at the index, oldest first from 0, and `None` if the
    /// entry there is not such a commit. The step is not read back.
    #[inline(always)]
    pub fn commit_at(&self, index: usize) -> Option<Txn>
        ensures { result ≡ commit_at (slice_get (reverse self.now.entries) index) }
    {
        match self.entries.as_slice().get(index) {
            Some(stored) => stored.committed(),
            None => None,
        }
    }

    /// Returns whether the entry at the index, oldest first from 0, is an operation, a begin, a complete, a commit or an abort,
    /// and is not refused because its transaction is unknown. Such an entry acts on nobody whom no entry before it acts on.
    #[inline(always)]
    pub fn is_of_known(&self, index: usize) -> bool
        ensures { result ≡ is_of_known_at (slice_get (reverse self.now.entries) index) }
    {
        match self.entries.as_slice().get(index) {
            Some(stored) => stored.is_of_known(),
            None => false,
        }
    }

    /// Returns the transaction and the object of the operation at the index, oldest first from 0, if the entry there is an
    /// operation that took effect, and `None` otherwise. The step is not read back.
    #[inline(always)]
    pub fn operator(&self, index: usize) -> Option<(Txn, Ob)>
        ensures { result ≡ operator_at (slice_get (reverse self.now.entries) index) }
    {
        match self.entries.as_slice().get(index) {
            Some(stored) => stored.operator(),
            None => None,
        }
    }

    /// Returns the giver and the objects of the open permit at the index, oldest first from 0, if the entry there is an open
    /// permit that took effect, and `None` otherwise. No other step is read back.
    #[inline(always)]
    pub fn opener(&self, index: usize) -> Option<(Txn, ObList)>
        ensures { result ≡ opener_at (slice_get (reverse self.now.entries) index) }
    {
        match self.entries.as_slice().get(index) {
            Some(stored) => stored.opener(&self.sets),
            None => None,
        }
    }

    /// Returns the number of entries that there is room for in all: the capacity, and not the room that is left.
    pub fn room(&self) -> usize
        ensures { result ≡ self.now.capacity }
    {
        self.capacity
    }

    /// Appends the step with its reply, which is its one answer here. The room was taken at the
    /// opening, so it does not allocate.
    #[inline(always)]
    pub fn append(&mut self, step: Step, reply: Reply)
        requires answer { answer_to self.old step ≡ Answer reply }
        requires room { length self.old.entries < self.old.capacity }
        ensures { self.new ≡ with_entry self.old step reply }
    {
        self.append_lent(&step, reply);
    }

    /// Appends a lent step with its reply, as `append` does. The step stays the caller's.
    #[inline(always)]
    pub fn append_lent(&mut self, step: &Step, reply: Reply)
        requires answer { answer_to self.old step.now ≡ Answer reply }
        requires room { length self.old.entries < self.old.capacity }
        ensures { self.new ≡ with_entry self.old step.now reply }
    {
        let stored = Stored::of(step, reply, self.sets.len());
        push_set(&mut self.sets, step);
        self.entries.push_reserved(stored);
    }

    /// Appends the entry at the index of other entries, oldest first from 0, as it is stored there: its step is not read back.
    /// It requires that the reply of the entry is the one answer to its step here, and that there is room.
    /// It does not allocate, as `append` does not.
    #[inline(always)]
    pub fn append_from(&mut self, other: &Entries, index: usize)
        requires there { index < length other.now.entries }
        requires answer { (entry : Entry) → slice_get (reverse other.now.entries) index ≡ Some entry → answer_to self.old entry.0 ≡ Answer entry.1 }
        requires room { length self.old.entries < self.old.capacity }
        ensures { (entry : Entry) → slice_get (reverse other.now.entries) index ≡ Some entry → self.new ≡ with_entry self.old entry.0 entry.1 }
    {
        let stored = other.entries[index];
        let moved = stored.moved(self.sets.len());
        copy_set(&mut self.sets, &other.sets, &stored);
        self.entries.push_reserved(moved);
    }
}
