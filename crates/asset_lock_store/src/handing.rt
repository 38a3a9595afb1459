//! Locks of a seat become another's.

ghost use Rattle.std.specs.Prelude.{◌≡◌, ◌==◌, ℕ, cond, true, false, is_some};
ghost use Rattle.slab.specs.Slab.{get};
ghost use Rattle.asset_names.specs.OpSets.{has_op, with_op};
ghost use Rattle.asset_lock_store.specs.LockRules.{both_ops};
ghost use Rattle.asset_lock_store.specs.Stored.{lock_at};

use crate::lock::{Lock, excludes};
use crate::store::LockStore;
use asset_names::{Ob, ObSet, Op, Ops};
use slab::Slab;

/// Returns the operations with `op`, if the others have it.
fn with_if(ops: Ops, others: Ops, op: Op) -> Ops
    ensures { result ≡ cond (has_op others op) (with_op op ops) ops }
{
    if others.has(op) { ops.with(op) } else { ops }
}

/// Returns the operations of both.
#[tactic(auto, unfolding(crate::specs::LockRules::both_ops, asset_names::specs::OpSets::with_op))]
fn both(ops: Ops, others: Ops) -> Ops
    ensures { result ≡ both_ops ops others }
{
    let reads = with_if(ops, others, Op::Read);
    let writes = with_if(reads, others, Op::Write);
    with_if(writes, others, Op::Add)
}

/// Adds the operations to the lock at the key, and suspends it.
fn add_ops(locks: &mut Slab<Lock>, key: usize, ops: Ops)
    requires { is_some (get locks.old key) ≡ true }
    ensures locks { (k : ℕ) → lock_at locks.new k ≡ cond (k == key) (record (lock_at locks.old key) { ops = both_ops (lock_at locks.old key).ops ops; granted = false }) (lock_at locks.old k) }
    ensures keys { (k : ℕ) → is_some (get locks.new k) ≡ is_some (get locks.old k) }
{
    if let Some(lock) = locks.get_mut(key) {
        lock.ops = both(lock.ops, ops);
        lock.granted = false;
    }
}

impl LockStore {
    ghost use Rattle.std.specs.Prelude.{◌≡◌, ◌==◌, ℕ, ◌<◌, ◌⊎◌, cond, true, false, filter, length, Some, is_some};
    ghost use Rattle.asset_names.specs.declared.sets.ObSet.{ObSet as ObjectSet};
    ghost use Rattle.asset_names.specs.declared.names.Ob.{Ob as Object};
    ghost use Rattle.asset_names.specs.InSet.{only_in};
    ghost use Rattle.asset_names.specs.Numbered.{number_in};
    ghost use Rattle.asset_chains.specs.Chained.{home_of};
    ghost use Rattle.asset_lock_store.specs.LockRules.{is_on, both_ops, moved, left, with_moved};
    ghost use Rattle.asset_lock_store.specs.Stored.{lock_at, locks_at, IsMoved, IsHanded};

    /// Moves the giver's locks on objects of the set to the taker's seat, each at the end or as one with the taker's lock
    /// on its object, which is suspended then. The cost is that of a look at each lock of the giver, and of a search for
    /// each that moves; of a set that lists one object, whose number is given if it has one, that of a search for each of the
    /// two locks on it.
    pub fn hand_over(&mut self, from: usize, to: usize, objects: &ObSet, only: Option<usize>)
        requires apart { from ≡ to → ⊥ }
        requires seat { to < length self.old.by_owner.chains }
        requires only { (x : Object) → only_in objects.now ≡ Some x → only ≡ number_in self.old.objects x.0 }
        ensures giver { locks_at self.new from ≡ left objects.now (locks_at self.old from) }
        ensures taker { locks_at self.new to ≡ with_moved (filter (moved objects.now) (locks_at self.old from)) (locks_at self.old to) }
        ensures others { (d : ℕ) → (d ≡ from → ⊥) → (d ≡ to → ⊥) → locks_at self.new d ≡ locks_at self.old d }
        ensures seats { length self.new.by_owner.chains ≡ length self.old.by_owner.chains }
        ensures holders { (k d : ℕ) → home_of self.new.by_owner k ≡ Some d → (home_of self.old.by_owner k ≡ Some d) ⊎ (d ≡ to) }
        ensures objects { self.new.objects ≡ self.old.objects }
    {
        match objects.only() {
            Some(x) => self.hand_one(from, to, x, only),
            None => self.hand_each(from, to, objects),
        }
    }

    /// Moves the giver's lock on the object, whose number is given, if it has one, as `hand_over` does.
    fn hand_one(&mut self, from: usize, to: usize, x: Ob, number: Option<usize>)
        requires apart { from ≡ to → ⊥ }
        requires seat { to < length self.old.by_owner.chains }
        requires number { number ≡ number_in self.old.objects x.0 }
        ensures giver { (set : ObjectSet) → only_in set ≡ Some x → locks_at self.new from ≡ left set (locks_at self.old from) }
        ensures taker { (set : ObjectSet) → only_in set ≡ Some x → locks_at self.new to ≡ with_moved (filter (moved set) (locks_at self.old from)) (locks_at self.old to) }
        ensures others { (d : ℕ) → (d ≡ from → ⊥) → (d ≡ to → ⊥) → locks_at self.new d ≡ locks_at self.old d }
        ensures seats { length self.new.by_owner.chains ≡ length self.old.by_owner.chains }
        ensures holders { (k d : ℕ) → home_of self.new.by_owner k ≡ Some d → (home_of self.old.by_owner k ≡ Some d) ⊎ (d ≡ to) }
        ensures objects { self.new.objects ≡ self.old.objects }
    {
        self.laws();
        if let Some(key) = self.key_on(number, from, x) {
            self.hand_key(key, to);
        }
    }

    /// Moves the giver's locks on objects of the set, as `hand_over` does, by a look at each lock of the giver.
    fn hand_each(&mut self, from: usize, to: usize, objects: &ObSet)
        requires apart { from ≡ to → ⊥ }
        requires seat { to < length self.old.by_owner.chains }
        ensures giver { locks_at self.new from ≡ left objects.now (locks_at self.old from) }
        ensures taker { locks_at self.new to ≡ with_moved (filter (moved objects.now) (locks_at self.old from)) (locks_at self.old to) }
        ensures others { (d : ℕ) → (d ≡ from → ⊥) → (d ≡ to → ⊥) → locks_at self.new d ≡ locks_at self.old d }
        ensures seats { length self.new.by_owner.chains ≡ length self.old.by_owner.chains }
        ensures holders { (k d : ℕ) → home_of self.new.by_owner k ≡ Some d → (home_of self.old.by_owner k ≡ Some d) ⊎ (d ≡ to) }
        ensures objects { self.new.objects ≡ self.old.objects }
    {
        self.laws();
        let mut next = self.by_owner.first(from);
        'keys: while let Some(key) = next {
            self.laws();
            next = self.by_owner.next(key);
            if objects.has(self.lock(key).object) {
                self.hand_key(key, to);
            }
        }
    }

    /// Moves the lock at the key, which is another's, to the seat: at the end, or as one with the seat's lock on its
    /// object, which is suspended then.
    #[inline(always)]
    fn hand_key(&mut self, key: usize, to: usize)
        requires there { is_some (home_of self.old.by_owner key) ≡ true }
        requires seat { to < length self.old.by_owner.chains }
        ensures { (from : ℕ) → home_of self.old.by_owner key ≡ Some from → (from ≡ to → ⊥) → IsHanded key from to self.old self.new }
    {
        self.laws();
        let lock = self.lock(key);
        match self.key_on(Some(self.number_at(key)), to, lock.object) {
            Some(other) => {
                self.join_at(other, lock.ops);
                self.drop_lock(key);
            }
            None => self.move_key(key, to),
        }
    }

    /// Moves the lock at the key to the end of those of the seat, which has none on its object.
    fn move_key(&mut self, key: usize, to: usize)
        requires there { is_some (home_of self.old.by_owner key) ≡ true }
        requires seat { to < length self.old.by_owner.chains }
        requires none { (k : ℕ) → home_of self.old.by_owner k ≡ Some to → is_on (lock_at self.old.locks key).object.0 (lock_at self.old.locks k) ≡ false }
        ensures { IsMoved key to self.old self.new }
    {
        self.laws();
        self.by_owner.unlink(key);
        self.by_owner.push(to, key);
    }

    /// Adds the operations to the lock at the key, and suspends it.
    fn join_at(&mut self, key: usize, ops: Ops)
        requires { is_some (home_of self.old.by_owner key) ≡ true }
        ensures locks { (k : ℕ) → lock_at self.new.locks k ≡ cond (k == key) (record (lock_at self.old.locks key) { ops = both_ops (lock_at self.old.locks key).ops ops; granted = false }) (lock_at self.old.locks k) }
        ensures by_owner { self.new.by_owner ≡ self.old.by_owner }
        ensures objects { self.new.objects ≡ self.old.objects }
    {
        self.laws();
        let all = both(self.lock(key).ops, ops);
        add_ops(&mut self.locks, key, ops);
        if excludes(all) {
            self.by_object.advance(key);
        }
    }
}
