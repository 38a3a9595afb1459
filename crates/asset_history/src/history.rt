//! A history: the opening, the entries in order, and the groups of those on whom they act.

use crate::labelling::KeptGroups;
use asset_entries::Entries;
use asset_name_groups::NameGroups;
use asset_names::{NoMemory, Ob, ObList, Reply, Step, Txn};
use std::alloc::Global;
use std::marker::Model;

/// The opening values of the objects, of which none is given twice, and the entries: each is a step with its reply. A
/// history is always legal: each reply is the one answer to its step after the entries before it. Contracts see the
/// opening, the entries with the newest first, and the capacity.
///
/// It also keeps, as entries come, the groups of the transactions that their steps act on, and who of them has committed.
pub struct History {
    entries: Entries,
    kept: KeptGroups,
}

/// It is proved here, once for all crates that drop a history.
impl Drop for History {
    fn drop(self) {
        let History { entries, kept } = self;
        drop(entries);
        drop(kept);
    }
}

impl Model for History {
    ghost use Rattle.asset_entries.specs.Recorded.{Recorded};
    ghost use Rattle.asset_history.specs.Kept.{IsHistory};

    ghost Value = { Recorded };

    ghost view = { λ history. history.entries };

    ghost invariant = { λ history. IsHistory history.entries history.kept };
}

impl History {
    ghost use Rattle.std.specs.Prelude.{◌≡◌, ◌<◌, ◌≤◌, ◌↔◌, ◌^◌, [], length, reverse, slice_get, IfOk, IsTrue, Some};
    ghost use Rattle.std.specs.Option.{option_map};
    ghost use Rattle.asset_entries.specs.Acting.{both_of};
    ghost use Rattle.asset_entries.specs.Committing.{commit_at};
    ghost use Rattle.asset_entries.specs.Operating.{operator_at, opener_at};
    ghost use Rattle.asset_history.specs.Kept.{AreLabels};
    ghost use Rattle.asset_history.specs.Sharing.{first_of, group_committed};
    ghost use Rattle.asset_names.specs.Sets.{HasNoDouble};
    ghost use Rattle.asset_names.specs.Answers.{IsLegal};
    ghost use Rattle.asset_names.specs.Steps.{Entry, objects_of};
    ghost use Rattle.asset_names.specs.declared.replies.Outcome.TheVariants.{Answer};
    ghost use Rattle.asset_entries.specs.Recorded.{opened, answer_to, with_entry};

    /// Returns a history of these opening values without entries, with room for `capacity` of them, for the names of twice as
    /// many transactions, and for the users of each object. No object is given twice. It takes that room here, and fails if memory
    /// runs out or `capacity` is above 2^28 - 1.
    pub fn open(alloc: Global, opening: &[(Ob, i64)], capacity: usize) -> Result<History, NoMemory>
        requires different { HasNoDouble (objects_of opening.now) }
        ensures { IfOk result (λ history. history ≡ opened opening.now capacity) }
    {
        let entries = Entries::open(alloc, opening, capacity)?;
        match KeptGroups::with_room(alloc, opening.len(), capacity) {
            Ok(kept) => Ok(History { entries, kept }),
            Err(_) => Err(NoMemory),
        }
    }

    /// Returns a history of the same opening values with the same room, without entries. It takes that room here, and
    /// fails if memory runs out.
    pub fn empty_like(&self) -> Result<History, NoMemory>
        ensures { IfOk result (λ history. history ≡ opened self.now.opening self.now.capacity) }
    {
        History::open(self.entries.allocator(), self.opening(), self.room())
    }

    /// Returns the objects with their opening values, in the order in which they were given. None is given twice.
    pub fn opening(&self) -> &[(Ob, i64)]
        ensures given { result.now ≡ self.now.opening }
        ensures different { HasNoDouble (objects_of self.now.opening) }
    {
        self.entries.opening()
    }

    /// Returns the number of entries.
    pub fn len(&self) -> usize
        ensures len { result ≡ length self.now.entries }
        ensures within { length self.now.entries ≤ self.now.capacity }
        ensures small { length self.now.entries < 2 ^ 63 }
        ensures legal { IsLegal self.now.opening self.now.entries }
    {
        self.entries.len()
    }

    /// Returns whether there is no entry.
    pub fn is_empty(&self) -> bool
        ensures { IsTrue result ↔ (self.now.entries ≡ []) }
    {
        self.entries.is_empty()
    }

    /// Returns the entry at the index, oldest first from 0, and `None` past the end.
    #[inline(always)]
    pub fn entry(&self, index: usize) -> Option<(Step, Reply)>
        ensures entry { result ≡ slice_get (reverse self.now.entries) index }
        ensures legal { IsLegal self.now.opening self.now.entries }
    {
        self.entries.entry(index)
    }

    /// Puts the step of the entry at the index, oldest first from 0, into the slot, and returns its reply; `None` past the end,
    /// and what the slot then has means nothing. Only what the step names is written, so a slot that is lent for many entries
    /// saves the copies that `entry` makes.
    #[inline(always)]
    pub fn entry_into(&self, index: usize, step: &mut Step) -> Option<Reply>
        ensures entry { option_map (λ reply. (step.new, reply)) result ≡ slice_get (reverse self.now.entries) index }
        ensures legal { IsLegal self.now.opening self.now.entries }
    {
        self.entries.entry_into(index, step)
    }

    /// Returns whether there is an entry at the index, oldest first from 0, and it is that of the step with the reply. If
    /// both are of one kind that names one transaction and no set of objects, the step of the entry is not read back.
    #[inline(always)]
    pub fn records(&self, index: usize, step: &Step, reply: Reply) -> bool
        ensures { IsTrue result ↔ (slice_get (reverse self.now.entries) index ≡ Some (step.now, reply)) }
    {
        self.entries.records(index, step, reply)
    }

    /// Returns the two transactions that the step of the entry at the index acts on, oldest first from 0, and `None` past
    /// the end. They are one if it acts on one. The step is not read back, so a set of objects costs nothing.
    #[inline(always)]
    pub fn acted_on(&self, index: usize) -> Option<(Txn, Txn)>
        ensures { result ≡ option_map both_of (slice_get (reverse self.now.entries) index) }
    {
        self.entries.acted_on(index)
    }

    /// Returns the same as `committed_at`.
    #[inline(always)]
    pub(crate) fn commit_at(&self, index: usize) -> Option<Txn>
        ensures { result ≡ commit_at (slice_get (reverse self.now.entries) index) }
    {
        self.entries.commit_at(index)
    }

    /// Returns the transaction and the object of the operation at the index, oldest first from 0, if the entry there is an
    /// operation that took effect, and `None` otherwise. The step is not read back.
    #[inline(always)]
    pub fn operator(&self, index: usize) -> Option<(Txn, Ob)>
        ensures { result ≡ operator_at (slice_get (reverse self.now.entries) index) }
    {
        self.entries.operator(index)
    }

    /// Returns the giver and the objects of the open permit at the index, oldest first from 0, if the entry there is an open
    /// permit that took effect, and `None` otherwise. No other step is read back.
    #[inline(always)]
    pub fn opener(&self, index: usize) -> Option<(Txn, ObList)>
        ensures { result ≡ opener_at (slice_get (reverse self.now.entries) index) }
    {
        self.entries.opener(index)
    }

    /// Returns the number of entries that there is room for in all: the capacity, and not the room that is left.
    pub fn room(&self) -> usize
        ensures { result ≡ self.now.capacity }
    {
        self.entries.room()
    }

    /// Appends the step with its reply, which is its one answer here. The room was taken when the history was
    /// opened, so it does not allocate.
    #[inline(always)]
    pub fn append(&mut self, step: Step, reply: Reply)
        requires answer { answer_to self.old step ≡ Answer reply }
        requires room { length self.old.entries < self.old.capacity }
        ensures { self.new ≡ with_entry self.old step reply }
    {
        self.append_lent(&step, reply);
    }

    /// Appends a lent step with its reply, as `append` does. The step stays the caller's.
    #[inline(always)]
    pub fn append_lent(&mut self, step: &Step, reply: Reply)
        requires answer { answer_to self.old step.now ≡ Answer reply }
        requires room { length self.old.entries < self.old.capacity }
        ensures { self.new ≡ with_entry self.old step.now reply }
    {
        let newest = self.entries.len();
        self.entries.append_lent(step, reply);
        self.kept.note_newest(&self.entries, newest);
    }

    /// Appends the entry at the index of another history, oldest first from 0, as it is stored there: its step is not read
    /// back. It requires that the reply of the entry is the one answer to its step in this history, and that there is room.
    /// It does not allocate, as `append` does not.
    #[inline(always)]
    pub fn append_from(&mut self, other: &History, index: usize)
        requires there { index < length other.now.entries }
        requires answer { (entry : Entry) → slice_get (reverse other.now.entries) index ≡ Some entry → answer_to self.old entry.0 ≡ Answer entry.1 }
        requires room { length self.old.entries < self.old.capacity }
        ensures { (entry : Entry) → slice_get (reverse other.now.entries) index ≡ Some entry → self.new ≡ with_entry self.old entry.0 entry.1 }
    {
        let newest = self.entries.len();
        self.entries.append_from(&other.entries, index);
        self.kept.note_newest(&self.entries, newest);
    }

    /// Returns the transactions that steps act on, in order of first use and of a step the first before the second, in
    /// their groups. A group of which a member has committed is flagged.
    pub fn groups(&self) -> &NameGroups
        ensures labels { AreLabels self.now.entries result.now }
        ensures legal { IsLegal self.now.opening self.now.entries }
    {
        // Its clauses say that the entries are legal.
        let _len = self.entries.len();
        &self.kept.groups
    }

    /// Returns the first of the transactions of t's group, in the order in which steps first acted on them, and `None` if no step
    /// acts on t. It looks for the name once and goes up at most log2 of the names from there, and takes no memory.
    pub fn first_of(&self, t: Txn) -> Option<Txn>
        ensures { result ≡ first_of self.now.entries t.0 }
    {
        let groups = self.groups();
        groups.laws();
        match groups.find(t.0) {
            Some(node) => Some(Txn(groups.name(groups.label(node)))),
            None => None,
        }
    }

    /// Returns whether a transaction of t's group has committed; if no step acts on t, it is false. It costs what `first_of`
    /// does.
    pub fn group_committed(&self, t: Txn) -> bool
        ensures { result ≡ group_committed self.now.entries t.0 }
    {
        let groups = self.groups();
        match groups.find(t.0) {
            Some(node) => groups.is_flagged(node),
            None => false,
        }
    }
}
