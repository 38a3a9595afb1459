//! The locks, each in the list of its object and in the chain of its owner's seat.

ghost use Rattle.std.specs.Prelude.{◌≡◌};
ghost use Rattle.asset_lists.specs.declared.part.Section.TheVariants.{Front, Middle, Back};
ghost use Rattle.asset_lock_store.specs.Stored.{class_of, part_for};

use crate::lock::{Lock, excludes};
use asset_chains::Chains;
use asset_lists::{KeyLists, Part, Section};
use asset_names::{NoMemory, Ob, Op, Ops};
use asset_seats::add_chains;
use slab::Slab;
use std::alloc::Global;
use std::marker::Model;

/// The locks of each seat, in order of first grant or move. Contracts see the locks by their keys, and the keys in the lists
/// of objects and in the chains of seats.
///
/// An object has a number, by which the store is asked, and which the caller knows: the store has no index of names.
pub struct LockStore {
    pub(crate) locks: Slab<Lock>,
    pub(crate) objects: Vec<Ob>,
    pub(crate) by_object: KeyLists,
    pub(crate) by_owner: Chains,
}

impl Drop for LockStore {
    fn drop(self) {
        let LockStore {
            locks,
            objects,
            by_object,
            by_owner,
        } = self;
        drop(locks);
        drop(objects);
        drop(by_object);
        drop(by_owner);
    }
}

impl Model for LockStore {
    ghost use Rattle.asset_lock_store.specs.Stored.{Stored, IsStored};

    ghost Value = { Stored };

    ghost view = { λ s. record { locks = s.locks; objects = s.objects.items; by_object = s.by_object; by_owner = s.by_owner } };

    ghost invariant = { λ s. IsStored (record { locks = s.locks; objects = s.objects.items; by_object = s.by_object; by_owner = s.by_owner }) };
}

/// Returns the part of the locks that conflict with each other lock, in the list of the object of this number.
#[tactic(auto, unfolding(crate::specs::Stored::part_for))]
pub(crate) fn excluders_of(number: usize) -> Part
    ensures { result ≡ part_for number Front }
{
    Part {
        list: number,
        section: Section::Front,
    }
}

/// Returns the part of the locks that only add, in the list of the object of this number.
#[tactic(auto, unfolding(crate::specs::Stored::part_for))]
pub(crate) fn adders_of(number: usize) -> Part
    ensures { result ≡ part_for number Middle }
{
    Part {
        list: number,
        section: Section::Middle,
    }
}

/// Returns the part of the locks that only read, in the list of the object of this number.
#[tactic(auto, unfolding(crate::specs::Stored::part_for))]
pub(crate) fn readers_of(number: usize) -> Part
    ensures { result ≡ part_for number Back }
{
    Part {
        list: number,
        section: Section::Back,
    }
}

/// Returns the part of the locks with these operations, in the list of the object of this number.
#[tactic(auto, unfolding(crate::specs::Stored::class_of))]
pub(crate) fn part_of(number: usize, ops: Ops) -> Part
    ensures { result ≡ part_for number (class_of ops) }
{
    if excludes(ops) {
        excluders_of(number)
    } else if ops.has(Op::Add) {
        adders_of(number)
    } else {
        readers_of(number)
    }
}

impl LockStore {
    ghost use Rattle.std.specs.Prelude.{◌≡◌, ℕ, ◌<◌, [], ◌∷◌, ◌++◌, length, take, OnOk, OnErr};
    ghost use Rattle.asset_chains.specs.Chained.{chain_of, home_of, IsConsistent};
    ghost use Rattle.asset_lock_store.specs.Stored.{IsStored, IsGrown, lock_at, locks_at};

    /// Returns no locks, on no objects. It does not allocate.
    pub fn new(alloc: Global) -> LockStore
        ensures homes { result.by_owner.homes ≡ [] }
        ensures objects { result.objects ≡ [] }
    {
        LockStore {
            locks: Slab::new(alloc),
            objects: Vec::new(alloc),
            by_object: KeyLists::new(alloc),
            by_owner: Chains::new(alloc),
        }
    }

    /// Says what holds of all locks, for proofs. It does nothing.
    pub fn laws(&self)
        ensures stored { IsStored self.now }
        ensures owners { IsConsistent self.now.by_owner }
    {
        self.by_owner.laws();
    }

    /// Makes room for the locks of a seat. If memory runs out, no lock changes.
    pub fn reserve_seat(&mut self, c: usize) -> Result<(), NoMemory>
        ensures there { OnOk result (c < length self.new.by_owner.chains) }
        ensures grown { IsGrown self.old self.new }
    {
        add_chains(&mut self.by_owner, c)
    }

    /// Returns the objects that may have locks, in the order of their numbers.
    pub fn objects(&self) -> &[Ob]
        ensures { result.now ≡ self.now.objects }
    {
        self.objects.as_slice()
    }

    /// The object gets the next number, and a list. The caller makes sure that it has none yet, which no clause asks
    /// for. If memory runs out, no object gets one. No lock changes.
    pub fn add_object(&mut self, x: Ob) -> Result<(), NoMemory>
        ensures added { OnOk result (self.new.objects ≡ self.old.objects ++ x ∷ []) }
        ensures unchanged { OnErr result (self.new.objects ≡ self.old.objects) }
        ensures locks { self.new.locks ≡ self.old.locks }
        ensures by_owner { self.new.by_owner ≡ self.old.by_owner }
    {
        match self.by_object.add_lists(self.objects.len()) {
            Ok(()) => {}
            Err(_) => return Err(NoMemory),
        }
        match self.objects.push(x) {
            Ok(()) => Ok(()),
            Err(_) => Err(NoMemory),
        }
    }

    /// Each of the objects gets the next number, in order. The caller makes sure that none has one yet, which no clause
    /// asks for. If memory runs out, some may have got one. Those that had numbers keep them. No lock changes.
    pub fn add_objects(&mut self, objects: &[Ob]) -> Result<(), NoMemory>
        ensures added { OnOk result (self.new.objects ≡ self.old.objects ++ objects.now) }
        ensures kept { take (length self.old.objects) self.new.objects ≡ self.old.objects }
        ensures locks { self.new.locks ≡ self.old.locks }
        ensures by_owner { self.new.by_owner ≡ self.old.by_owner }
    {
        'objects: for x in objects {
            self.add_object(*x)?;
        }
        Ok(())
    }

    /// Returns the lock at the key. If there is none, a suspended read lock on object 0.
    #[tactic(auto, unfolding(crate::specs::Stored::lock_at, crate::specs::Stored::no_lock, asset_names::specs::OpSets::only_op))]
    pub fn lock(&self, key: usize) -> Lock
        ensures { result ≡ lock_at self.now.locks key }
    {
        match self.locks.get(key) {
            Some(lock) => *lock,
            None => Lock {
                object: Ob(0),
                ops: Ops::only(Op::Read),
                granted: false,
            },
        }
    }
}
