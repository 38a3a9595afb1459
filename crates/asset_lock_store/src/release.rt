//! The locks of a seat go.

use crate::store::LockStore;

impl LockStore {
    ghost use Rattle.std.specs.Prelude.{◌≡◌, ℕ, ◌⊎◌, [], Some, is_some, length, true};
    ghost use Rattle.asset_chains.specs.Chained.{chain_of, home_of};
    ghost use Rattle.asset_lock_store.specs.Stored.{locks_at, IsDropped};

    /// Removes the lock at the key from the list of its object and the chain of its owner, and from the slab.
    pub(crate) fn drop_lock(&mut self, key: usize)
        requires { is_some (home_of self.old.by_owner key) ≡ true }
        ensures { IsDropped key self.old self.new }
    {
        self.laws();
        self.by_object.remove(key);
        self.by_owner.unlink(key);
        self.locks.try_remove(key);
    }

    /// Removes the locks of the seat. The cost is that of its own locks.
    pub fn release(&mut self, c: usize)
        ensures own { chain_of self.new.by_owner c ≡ [] }
        ensures others { (d : ℕ) → (d ≡ c → ⊥) → locks_at self.new d ≡ locks_at self.old d }
        ensures seats { length self.new.by_owner.chains ≡ length self.old.by_owner.chains }
        ensures holders { (k d : ℕ) → home_of self.new.by_owner k ≡ Some d → (home_of self.old.by_owner k ≡ Some d) × (d ≡ c → ⊥) }
        ensures objects { self.new.objects ≡ self.old.objects }
    {
        self.laws();
        'keys: while let Some(key) = self.by_owner.first(c) {
            self.drop_lock(key);
            self.laws();
        }
    }
}
