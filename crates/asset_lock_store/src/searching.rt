//! Searches for the locks of a seat, which change nothing.

ghost use Rattle.std.specs.Prelude.{◌≡◌};
ghost use Rattle.asset_chains.specs.Chained.{home_of};
ghost use Rattle.asset_lock_store.specs.Stored.{is_others};

use crate::looking::Look;
use crate::store::{LockStore, adders_of, excluders_of, readers_of};
use asset_chains::Chains;
use asset_lists::{Part, Section};
use asset_names::{NoMemory, Ob, ObSet, Op};
use smallvec::SmallVec;
use std::alloc::Global;

/// Objects on which a transaction has locks. Up to eight of them take no memory.
pub type HeldObjects = SmallVec<Ob, 8>;

/// Returns whether the lock at the key is another's than the seat's.
#[tactic(auto, unfolding(crate::specs::Stored::is_others))]
pub(crate) fn is_others(by_owner: &Chains, key: usize, c: usize) -> bool
    ensures { result ≡ is_others c (home_of by_owner.now key) }
{
    match by_owner.home(key) {
        Some(d) => d != c,
        None => true,
    }
}

impl LockStore {
    ghost use Rattle.std.specs.Prelude.{◌≡◌, ℕ, true, false, Some, map, filter, slice_get, ◌++◌, IfOk, OnOk, IfSome, IfNone};
    ghost use Rattle.asset_names.specs.declared.names.Ob.{Ob as Object};
    ghost use Rattle.asset_names.specs.declared.sets.ObSet.{ObSet as ObjectSet};
    ghost use Rattle.asset_names.specs.InSet.{in_set, only_in};
    ghost use Rattle.asset_chains.specs.Chained.{home_of};
    ghost use Rattle.asset_lists.specs.declared.part.Section.{Section as Third};
    ghost use Rattle.asset_lists.specs.Parted.{part_of};
    ghost use Rattle.asset_lock_store.specs.declared.lock.Lock.{Lock as Held};
    ghost use Rattle.asset_lock_store.specs.LockRules.{is_on};
    ghost use Rattle.asset_names.specs.Numbered.{number_in};
    ghost use Rattle.asset_lock_store.specs.Stored.{class_of, lock_at, locks_at, part_for, is_others};
    ghost use Rattle.asset_lock_store.specs.Looked.{IsNoted};

    /// Returns the key of a lock of the part that is the seat's, if there is one.
    fn find_in(&self, part: Part, c: usize) -> Option<usize>
        ensures found { IfSome result (λ k. part_of self.now.by_object k ≡ Some part × home_of self.now.by_owner k ≡ Some c) }
        ensures none { IfNone result ((k : ℕ) → part_of self.now.by_object k ≡ Some part → is_others c (home_of self.now.by_owner k) ≡ true) }
    {
        let keys = self.by_object.keys(part);
        'keys: for key in keys {
            if !is_others(&self.by_owner, *key as usize, c) {
                return Some(*key as usize);
            }
        }
        None
    }

    /// Returns the key of the lock of the seat on `x`, if it has one, by its own locks.
    fn find_by_owner(&self, c: usize, x: Ob) -> Option<usize>
        ensures found { IfSome result (λ k. home_of self.now.by_owner k ≡ Some c × is_on x.0 (lock_at self.now.locks k) ≡ true) }
        ensures none { IfNone result ((k : ℕ) → home_of self.now.by_owner k ≡ Some c → is_on x.0 (lock_at self.now.locks k) ≡ false) }
    {
        self.by_owner.laws();
        let mut next = self.by_owner.first(c);
        'keys: while let Some(key) = next {
            if self.lock(key).object == x {
                return Some(key);
            }
            next = self.by_owner.next(key);
        }
        None
    }

    /// Returns the key of the lock of the seat on the object of this number, if it has one, by the locks on the object.
    fn find_on(&self, number: usize, c: usize) -> Option<usize>
        ensures found { IfSome result (λ k. ((w : Third) × part_of self.now.by_object k ≡ Some (part_for number w)) × home_of self.now.by_owner k ≡ Some c) }
        ensures none { IfNone result ((k : ℕ) (w : Third) → part_of self.now.by_object k ≡ Some (part_for number w) → is_others c (home_of self.now.by_owner k) ≡ true) }
    {
        match self.find_in(excluders_of(number), c) {
            Some(key) => Some(key),
            None => match self.find_in(adders_of(number), c) {
                Some(key) => Some(key),
                None => self.find_in(readers_of(number), c),
            },
        }
    }

    /// Returns the key of the lock of the seat on `x`, whose number is given, if it has one. It looks at the locks of the
    /// seat or at those on the object, whichever are fewer.
    #[inline(always)]
    pub fn key_on(&self, number: Option<usize>, c: usize, x: Ob) -> Option<usize>
        requires { number ≡ number_in self.now.objects x.0 }
        ensures found { IfSome result (λ k. home_of self.now.by_owner k ≡ Some c × is_on x.0 (lock_at self.now.locks k) ≡ true) }
        ensures none { IfNone result ((k : ℕ) → home_of self.now.by_owner k ≡ Some c → is_on x.0 (lock_at self.now.locks k) ≡ false) }
    {
        self.laws();
        match number {
            Some(number) => {
                let readers = self.by_object.keys(readers_of(number)).len();
                let adders = self.by_object.keys(adders_of(number)).len();
                let excluders = self.by_object.keys(excluders_of(number)).len();
                let on_object = readers.saturating_add(adders).saturating_add(excluders);
                if self.by_owner.len(c) <= on_object {
                    self.find_by_owner(c, x)
                } else {
                    self.find_on(number, c)
                }
            }
            None => None,
        }
    }

    /// Returns the key of the lock of the seat on `x`, whose number is given, if it has one. That lock is in this part of the
    /// list of `x`. It looks at the locks of the seat or at those of the part, whichever are fewer.
    fn key_among(&self, section: Section, number: Option<usize>, c: usize, x: Ob) -> Option<usize>
        requires number { number ≡ number_in self.now.objects x.0 }
        requires class { (k : ℕ) → home_of self.now.by_owner k ≡ Some c → is_on x.0 (lock_at self.now.locks k) ≡ true → class_of (lock_at self.now.locks k).ops ≡ section }
        ensures found { IfSome result (λ k. home_of self.now.by_owner k ≡ Some c × is_on x.0 (lock_at self.now.locks k) ≡ true) }
        ensures none { IfNone result ((k : ℕ) → home_of self.now.by_owner k ≡ Some c → is_on x.0 (lock_at self.now.locks k) ≡ false) }
    {
        self.laws();
        match number {
            Some(list) => {
                let part = Part { list, section };
                if self.by_owner.len(c) <= self.by_object.keys(part).len() {
                    self.find_by_owner(c, x)
                } else {
                    self.find_in(part, c)
                }
            }
            None => None,
        }
    }

    /// Returns the key of the lock of the seat on `x`, whose number is given, if it has one, after a look for `op`. If the
    /// look met none, there is none after a look for a write, and at most one that only reads after one for a read, or
    /// that only adds after one for an add.
    pub(crate) fn own_key(
        &self,
        look: Look,
        number: Option<usize>,
        c: usize,
        x: Ob,
        op: Op,
    ) -> Option<usize>
        requires number { number ≡ number_in self.now.objects x.0 }
        requires noted { IsNoted self.now c x.0 op look }
        ensures found { IfSome result (λ k. home_of self.now.by_owner k ≡ Some c × is_on x.0 (lock_at self.now.locks k) ≡ true) }
        ensures none { IfNone result ((k : ℕ) → home_of self.now.by_owner k ≡ Some c → is_on x.0 (lock_at self.now.locks k) ≡ false) }
    {
        match look.own {
            Some(key) => Some(key),
            None => match op {
                Op::Read => self.key_among(Section::Back, number, c, x),
                Op::Write => None,
                Op::Add => self.key_among(Section::Middle, number, c, x),
            },
        }
    }

    /// Returns the object at the index among those on which the seat has a lock, from 0 in order of first grant or
    /// move, and `None` past the end.
    pub fn held_at(&self, c: usize, index: usize) -> Option<Ob>
        ensures { result ≡ slice_get (map (λ (lock : Held). lock.object) (locks_at self.now c)) index }
    {
        self.by_owner.laws();
        let mut before = index;
        let mut next = self.by_owner.first(c);
        'keys: while let Some(key) = next {
            if before == 0 {
                return Some(self.lock(key).object);
            }
            before -= 1;
            next = self.by_owner.next(key);
        }
        None
    }

    /// Returns the objects of the set on which the seat has a lock, in order of first grant or move. If memory runs out, the
    /// answer is `NoMemory`. It looks at each lock of the seat; for a set that lists one object, whose number is given if it has
    /// one, it searches for the lock on it.
    pub fn held_among(
        &self,
        alloc: Global,
        c: usize,
        objects: &ObSet,
        only: Option<usize>,
    ) -> Result<HeldObjects, NoMemory>
        requires { (x : Object) → only_in objects.now ≡ Some x → only ≡ number_in self.now.objects x.0 }
        ensures { IfOk result (λ held. held.items ≡ filter (λ (x : Ob). in_set objects.now x.0) (map (λ (lock : Held). lock.object) (locks_at self.now c))) }
    {
        let mut held = SmallVec::new(alloc);
        let added = match objects.only() {
            Some(x) => self.add_one(c, x, only, &mut held),
            None => self.add_held(c, objects, &mut held),
        };
        match added {
            Ok(()) => Ok(held),
            Err(NoMemory) => Err(NoMemory),
        }
    }

    /// Adds the object, whose number is given, if the seat has a lock on it, unless memory runs out.
    fn add_one(
        &self,
        c: usize,
        x: Ob,
        number: Option<usize>,
        held: &mut HeldObjects,
    ) -> Result<(), NoMemory>
        requires { number ≡ number_in self.now.objects x.0 }
        ensures { OnOk result ((set : ObjectSet) → only_in set ≡ Some x → held.new.items ≡ held.old.items ++ filter (λ (y : Ob). in_set set y.0) (map (λ (lock : Held). lock.object) (locks_at self.now c))) }
    {
        self.laws();
        let Some(_key) = self.key_on(number, c, x) else {
            return Ok(());
        };
        match held.push(x) {
            Ok(()) => Ok(()),
            Err(_) => Err(NoMemory),
        }
    }

    /// Adds the objects of the set on which the seat has a lock, in order of first grant or move, unless memory runs out.
    fn add_held(&self, c: usize, objects: &ObSet, held: &mut HeldObjects) -> Result<(), NoMemory>
        ensures { OnOk result (held.new.items ≡ held.old.items ++ filter (λ (x : Ob). in_set objects.now x.0) (map (λ (lock : Held). lock.object) (locks_at self.now c))) }
    {
        self.by_owner.laws();
        let mut next = self.by_owner.first(c);
        'keys: while let Some(key) = next {
            let x = self.lock(key).object;
            if objects.has(x) {
                match held.push(x) {
                    Ok(()) => {}
                    Err(_) => return Err(NoMemory),
                }
            }
            next = self.by_owner.next(key);
        }
        Ok(())
    }
}
