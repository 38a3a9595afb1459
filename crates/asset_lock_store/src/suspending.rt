//! Suspends the locks in conflict with one that is granted.

ghost use Rattle.std.specs.Prelude.{◌≡◌, ◌==◌, ℕ, ◌&&◌, cond, false, is_some};
ghost use Rattle.slab.specs.Slab.{get};
ghost use Rattle.asset_chains.specs.Chained.{home_of, lists};
ghost use Rattle.asset_lock_store.specs.LockRules.{paused};
ghost use Rattle.asset_lock_store.specs.Stored.{lock_at, is_others};

use crate::lock::{Lock, both_conflict, excludes};
use crate::searching::is_others;
use crate::store::{LockStore, adders_of, excluders_of, readers_of};
use asset_chains::Chains;
use asset_names::{Ob, Op, Ops};
use slab::Slab;

/// Suspends the lock at the key, if there is one and it conflicts with these operations.
fn suspend_at(locks: &mut Slab<Lock>, key: usize, ops: Ops)
    ensures locks { (k : ℕ) → lock_at locks.new k ≡ cond (k == key) (paused ops (lock_at locks.old k)) (lock_at locks.old k) }
    ensures keys { (k : ℕ) → is_some (get locks.new k) ≡ is_some (get locks.old k) }
{
    if let Some(lock) = locks.get_mut(key) {
        if both_conflict(lock.ops, ops) {
            lock.granted = false;
        }
    }
}

/// Suspends the locks at the keys that conflict with these operations, but the one of the seat.
fn suspend_each(locks: &mut Slab<Lock>, keys: &[u32], by_owner: &Chains, c: usize, ops: Ops)
    ensures locks { (k : ℕ) → lock_at locks.new k ≡ cond (lists keys.now k && is_others c (home_of by_owner.now k)) (paused ops (lock_at locks.old k)) (lock_at locks.old k) }
    ensures keys { (k : ℕ) → is_some (get locks.new k) ≡ is_some (get locks.old k) }
{
    'keys: for key in keys {
        if is_others(by_owner, *key as usize, c) {
            suspend_at(locks, *key as usize, ops);
        }
    }
}

impl LockStore {
    ghost use Rattle.std.specs.Prelude.{◌≡◌, ℕ, true, Some};
    ghost use Rattle.asset_chains.specs.Chained.{home_of};
    ghost use Rattle.asset_lock_store.specs.LockRules.{suspended};
    ghost use Rattle.asset_names.specs.Numbered.{number_in};
    ghost use Rattle.asset_lock_store.specs.Stored.{IsSuspended};

    /// Suspends each lock on the object of this number that conflicts with these operations, but the one of the seat. It
    /// looks at no lock that only reads if the operations only read, and at none that only adds if they only add.
    pub(crate) fn suspend_others(&mut self, number: usize, x: Ob, c: usize, ops: Ops)
        requires { number_in self.old.objects x.0 ≡ Some number }
        ensures { IsSuspended x.0 c ops self.old self.new }
    {
        self.laws();
        if excludes(ops) {
            let all = self.by_object.keys_up_to(readers_of(number));
            suspend_each(&mut self.locks, all, &self.by_owner, c, ops);
        } else if ops.has(Op::Add) {
            let excluders = self.by_object.keys(excluders_of(number));
            suspend_each(&mut self.locks, excluders, &self.by_owner, c, ops);
            let readers = self.by_object.keys(readers_of(number));
            suspend_each(&mut self.locks, readers, &self.by_owner, c, ops);
        } else {
            let others = self.by_object.keys_up_to(adders_of(number));
            suspend_each(&mut self.locks, others, &self.by_owner, c, ops);
        }
    }
}
