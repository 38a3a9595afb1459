//! Grants an operation to a lock of a seat, which gets one if it has none.

ghost use Rattle.std.specs.Prelude.{◌≡◌, ◌==◌, ℕ, cond, true, is_some};
ghost use Rattle.slab.specs.Slab.{get};
ghost use Rattle.asset_names.specs.OpSets.{with_op};
ghost use Rattle.asset_lock_store.specs.Stored.{lock_at};

use crate::lock::{Lock, excludes};
use crate::looking::Look;
use crate::store::{LockStore, part_of};
use asset_names::{NoMemory, Ob, Op, Ops};
use asset_seats::add_keys;
use slab::Slab;

/// Grants `op` to the lock at the key.
fn grant_to(locks: &mut Slab<Lock>, key: usize, op: Op)
    requires { is_some (get locks.old key) ≡ true }
    ensures locks { (k : ℕ) → lock_at locks.new k ≡ cond (k == key) (record (lock_at locks.old key) { ops = with_op op (lock_at locks.old key).ops; granted = true }) (lock_at locks.old k) }
    ensures keys { (k : ℕ) → is_some (get locks.new k) ≡ is_some (get locks.old k) }
{
    if let Some(lock) = locks.get_mut(key) {
        lock.ops = lock.ops.with(op);
        lock.granted = true;
    }
}

impl LockStore {
    ghost use Rattle.std.specs.Prelude.{◌≡◌, ℕ, ◌+◌, ◌*◌, ◌<◌, ◌≤◌, ◌⊎◌, ◌^◌, ◌==◌, ◌++◌, ◌∷◌, [], cond, true, false, Some, None, is_some, map, find, length, IfOk, OnOk, OnErr, IsErr};
    ghost use Rattle.std.specs.List.{list_any};
    ghost use Rattle.asset_names.specs.OpSets.{with_op, only_op};
    ghost use Rattle.asset_chains.specs.Chained.{chain_of, home_of};
    ghost use Rattle.asset_lock_store.specs.LockRules.{is_on, conflicts_on, taken, suspended, granted_own, ops_with, new_lock, both_conflict, is_some_op};
    ghost use Rattle.asset_names.specs.Numbered.{number_in};
    ghost use Rattle.asset_lock_store.specs.Stored.{lock_at, locks_at, IsGrown, IsSuspended, IsAdded, HasKey};
    ghost use Rattle.asset_lock_store.specs.Looked.{IsNoted};

    /// Grants `op` on `x`, whose number is given, to the seat, after a look for `op`, and suspends each conflicting lock of
    /// another. If the seat has a lock on `x`, this takes no memory. If memory runs out, no lock changes.
    pub fn grant(
        &mut self,
        look: Look,
        number: usize,
        c: usize,
        x: Ob,
        op: Op,
    ) -> Result<(), NoMemory>
        requires number { number_in self.old.objects x.0 ≡ Some number }
        requires noted { IsNoted self.old c x.0 op look }
        requires seat { c < length self.old.by_owner.chains }
        ensures own { OnOk result (locks_at self.new c ≡ granted_own x op (locks_at self.old c)) }
        ensures others { OnOk result ((d : ℕ) → (d ≡ c → ⊥) → locks_at self.new d ≡ map (suspended x.0 (ops_with op (find (is_on x.0) (locks_at self.old c)))) (locks_at self.old d)) }
        ensures first { IsErr result → list_any (is_on x.0) (locks_at self.old c) ≡ false }
        ensures unchanged { OnErr result ((d : ℕ) → locks_at self.new d ≡ locks_at self.old d) }
        ensures seats { length self.old.by_owner.chains ≤ length self.new.by_owner.chains }
        ensures holders { (k d : ℕ) → home_of self.new.by_owner k ≡ Some d → (home_of self.old.by_owner k ≡ Some d) ⊎ (d ≡ c) }
        ensures objects { self.new.objects ≡ self.old.objects }
    {
        self.laws();
        match self.own_key(look, Some(number), c, x, op) {
            Some(key) => {
                self.take(key, c, op, look.conflicts);
                Ok(())
            }
            None => {
                let key = self.add_lock(number, c, x, op, !look.conflicts)?;
                self.take(key, c, op, look.conflicts);
                Ok(())
            }
        }
    }

    /// Grants `op` to the lock at the key, which is the seat's, and suspends each conflicting lock of another. If the lock
    /// is granted and carries `op`, they are suspended already. Unless `conflicts`, no lock of another conflicts with `op`.
    #[inline(always)]
    fn take(&mut self, key: usize, c: usize, op: Op, conflicts: bool)
        requires home { home_of self.old.by_owner key ≡ Some c }
        requires alone { conflicts ≡ false → (k d : ℕ) → home_of self.old.by_owner k ≡ Some d → (d ≡ c → ⊥) → conflicts_on (lock_at self.old.locks key).object.0 op (lock_at self.old.locks k) ≡ false }
        ensures own { locks_at self.new c ≡ map (taken (lock_at self.old.locks key).object.0 op) (locks_at self.old c) }
        ensures others { (d : ℕ) → (d ≡ c → ⊥) → locks_at self.new d ≡ map (suspended (lock_at self.old.locks key).object.0 (with_op op (lock_at self.old.locks key).ops)) (locks_at self.old d) }
        ensures by_owner { self.new.by_owner ≡ self.old.by_owner }
        ensures objects { self.new.objects ≡ self.old.objects }
    {
        self.laws();
        if self.lock(key).has(op) {
            return;
        }
        self.suspend_for(key, c, op, conflicts);
        self.grant_at(key, op);
    }

    /// Suspends each lock of another that conflicts with what the lock at the key, which is the seat's, carries once `op`
    /// is granted to it. Unless `conflicts`, no lock of another conflicts with `op`, and if the lock is granted, those that
    /// conflict with what it carries are suspended already.
    fn suspend_for(&mut self, key: usize, c: usize, op: Op, conflicts: bool)
        requires home { home_of self.old.by_owner key ≡ Some c }
        requires alone { conflicts ≡ false → (k d : ℕ) → home_of self.old.by_owner k ≡ Some d → (d ≡ c → ⊥) → conflicts_on (lock_at self.old.locks key).object.0 op (lock_at self.old.locks k) ≡ false }
        ensures { IsSuspended (lock_at self.old.locks key).object.0 c (with_op op (lock_at self.old.locks key).ops) self.old self.new }
    {
        self.laws();
        let lock = self.lock(key);
        if lock.granted && !conflicts {
            return;
        }
        let number = self.number_at(key);
        self.suspend_others(number, lock.object, c, lock.ops.with(op));
    }

    /// Returns the number of the object that the lock at the key is on.
    pub(crate) fn number_at(&self, key: usize) -> usize
        requires { is_some (home_of self.now.by_owner key) ≡ true }
        ensures { number_in self.now.objects (lock_at self.now.locks key).object.0 ≡ Some result }
    {
        self.laws();
        match self.by_object.part(key) {
            Some(part) => part.list,
            None => unreachable!(),
        }
    }

    /// Grants `op` to the lock at the key. No other granted lock conflicts with what it carries then.
    fn grant_at(&mut self, key: usize, op: Op)
        requires there { is_some (home_of self.old.by_owner key) ≡ true }
        requires apart { (j c d : ℕ) → home_of self.old.by_owner key ≡ Some c → home_of self.old.by_owner j ≡ Some d → (d ≡ c → ⊥) → (lock_at self.old.locks j).object.0 ≡ (lock_at self.old.locks key).object.0 → both_conflict (lock_at self.old.locks j).ops (with_op op (lock_at self.old.locks key).ops) ≡ true → (lock_at self.old.locks j).granted ≡ false }
        ensures locks { (k : ℕ) → lock_at self.new.locks k ≡ cond (k == key) (record (lock_at self.old.locks key) { ops = with_op op (lock_at self.old.locks key).ops; granted = true }) (lock_at self.old.locks k) }
        ensures by_owner { self.new.by_owner ≡ self.old.by_owner }
        ensures objects { self.new.objects ≡ self.old.objects }
    {
        self.laws();
        let before = self.lock(key).ops;
        grant_to(&mut self.locks, key, op);
        if excludes(before) {
            return;
        }
        if excludes(before.with(op)) {
            self.by_object.advance(key);
        }
    }

    /// Adds a lock on `x`, whose number is given, to those of the seat, which has none on `x`. Returns its key. If it is
    /// granted, no lock of another conflicts with it. If memory runs out, no lock changes.
    fn add_lock(
        &mut self,
        number: usize,
        c: usize,
        x: Ob,
        op: Op,
        granted: bool,
    ) -> Result<usize, NoMemory>
        requires number { number_in self.old.objects x.0 ≡ Some number }
        requires seat { c < length self.old.by_owner.chains }
        requires none { (k : ℕ) → home_of self.old.by_owner k ≡ Some c → is_on x.0 (lock_at self.old.locks k) ≡ false }
        requires alone { granted ≡ true → (k d : ℕ) → home_of self.old.by_owner k ≡ Some d → (d ≡ c → ⊥) → conflicts_on x.0 op (lock_at self.old.locks k) ≡ false }
        ensures added { IfOk result (λ key. IsAdded key c (record (new_lock x op) { granted = granted }) self.old self.new) }
        ensures unchanged { OnErr result (IsGrown self.old self.new) }
    {
        let key = self.reserve_key()?;
        self.insert(
            key,
            number,
            c,
            Lock {
                object: x,
                ops: Ops::only(op),
                granted,
            },
        )?;
        Ok(key)
    }

    /// Makes room for one more lock, and returns its key. If memory runs out, no lock changes.
    fn reserve_key(&mut self) -> Result<usize, NoMemory>
        ensures room { IfOk result (HasKey self.new) }
        ensures grown { IsGrown self.old self.new }
    {
        match self.locks.reserve(1) {
            Ok(()) => {}
            Err(_) => return Err(NoMemory),
        }
        let key = self.locks.vacant_key();
        match self.by_object.add_keys(key) {
            Ok(()) => {}
            Err(_) => return Err(NoMemory),
        }
        add_keys(&mut self.by_owner, key)?;
        Ok(key)
    }

    /// Puts a lock at the key, for which there is room, into the chain of the seat and the list of the object of this
    /// number. If it is granted, no lock of another conflicts with it. If memory runs out, no lock changes.
    fn insert(&mut self, key: usize, number: usize, c: usize, lock: Lock) -> Result<(), NoMemory>
        requires room { HasKey self.old key }
        requires number { number_in self.old.objects lock.object.0 ≡ Some number }
        requires seat { c < length self.old.by_owner.chains }
        requires none { (k : ℕ) → home_of self.old.by_owner k ≡ Some c → is_on lock.object.0 (lock_at self.old.locks k) ≡ false }
        requires apart { lock.granted ≡ true → (k d : ℕ) → home_of self.old.by_owner k ≡ Some d → (d ≡ c → ⊥) → (lock_at self.old.locks k).object.0 ≡ lock.object.0 → both_conflict (lock_at self.old.locks k).ops lock.ops ≡ false }
        requires ops { is_some_op lock.ops ≡ true }
        ensures added { OnOk result (IsAdded key c lock self.old self.new) }
        ensures unchanged { OnErr result (IsGrown self.old self.new) }
    {
        self.laws();
        let part = part_of(number, lock.ops);
        match self.by_object.push(part, key) {
            Ok(()) => {}
            Err(_) => return Err(NoMemory),
        }
        self.locks.insert_reserved(lock);
        self.by_owner.push(c, key);
        Ok(())
    }
}
