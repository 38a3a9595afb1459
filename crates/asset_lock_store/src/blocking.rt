//! Who blocks a request. Nothing changes.

use crate::allows::Allows;
use crate::lock::Request;
use crate::store::{LockStore, adders_of, excluders_of, readers_of};
use asset_lists::Part;
use asset_names::{NoMemory, Op, Txn};
use asset_seats::Seats;
use std::alloc::Global;
use std::collections::BTreeSet;

/// Transactions, by the numbers that name them, rising.
pub type NameSet = BTreeSet<u64>;

impl LockStore {
    ghost use Rattle.std.specs.Prelude.{◌≡◌, ℕ, true, false, Some, OnOk, IfOk, IfSome, IfNone};
    ghost use Rattle.asset_names.specs.Arrows.{lists};
    ghost use Rattle.asset_names.specs.declared.names.Txn.{Txn as Name};
    ghost use Rattle.asset_chains.specs.Chained.{home_of};
    ghost use Rattle.asset_lists.specs.declared.part.Section.{Section};
    ghost use Rattle.asset_lists.specs.Parted.{part_of};
    ghost use Rattle.asset_seats.specs.Seated.{seat};
    ghost use Rattle.asset_lock_store.specs.LockRules.{blocks};
    ghost use Rattle.asset_names.specs.Numbered.{number_in};
    ghost use Rattle.asset_lock_store.specs.Stored.{name_of, key_blocks, locks_at, part_for};
    ghost use Rattle.asset_lock_store.specs.Looked.{looks_at};
    ghost use Rattle.asset_lock_store.specs.Gathered.{blocks_as, IsGathered};

    /// Returns who has the lock at the key, if the lock blocks the request. It is on the object that is asked for. Permits are
    /// asked by marks from the first lock on, since all locks of the object are looked at.
    fn blocker_at<A: Allows>(
        &self,
        key: usize,
        request: Request,
        seats: &Seats,
        permits: &mut A,
    ) -> Option<Txn>
        requires { A.can_ask permits.old seats.now request.asker }
        ensures found { IfSome result (λ u. (key_blocks self.now seats.now (λ n. A.allows permits.old n request.asker.t.0 request.x.0 request.op) request.asker.t.0 request.op key ≡ true) × (name_of seats.now (home_of self.now.by_owner key) ≡ Some u)) }
        ensures none { IfNone result (key_blocks self.now seats.now (λ n. A.allows permits.old n request.asker.t.0 request.x.0 request.op) request.asker.t.0 request.op key ≡ false) }
        ensures permits { permits.new ≡ permits.old }
    {
        let owner = self.owner(key, seats)?;
        if self.look_at(key, request, seats, permits, true).blocked {
            Some(owner.t)
        } else {
            None
        }
    }

    /// Adds who has the lock at the key, if the lock blocks the request, unless memory runs out. It is on the object that is
    /// asked for.
    fn gather_at<A: Allows>(
        &self,
        key: usize,
        request: Request,
        seats: &Seats,
        permits: &mut A,
        found: &mut NameSet,
    ) -> Result<(), NoMemory>
        requires { A.can_ask permits.old seats.now request.asker }
        ensures gathered { OnOk result (IsGathered (blocks_as self.now seats.now (λ n. A.allows permits.old n request.asker.t.0 request.x.0 request.op) request.asker.t.0 request.op) (λ (k : ℕ). k ≡ key) found.old.keys found.new.keys) }
        ensures permits { permits.new ≡ permits.old }
    {
        match self.blocker_at(key, request, seats, permits) {
            Some(u) => match found.insert(u.0) {
                Ok(_) => Ok(()),
                Err(_) => Err(NoMemory),
            },
            None => Ok(()),
        }
    }

    /// Adds those who have a lock of the part that blocks the request, unless memory runs out. The part is one of the object
    /// that is asked for.
    fn gather_in<A: Allows>(
        &self,
        part: Part,
        request: Request,
        seats: &Seats,
        permits: &mut A,
        found: &mut NameSet,
    ) -> Result<(), NoMemory>
        requires { A.can_ask permits.old seats.now request.asker }
        ensures gathered { OnOk result (IsGathered (blocks_as self.now seats.now (λ n. A.allows permits.old n request.asker.t.0 request.x.0 request.op) request.asker.t.0 request.op) (λ (k : ℕ). part_of self.now.by_object k ≡ Some part) found.old.keys found.new.keys) }
        ensures permits { permits.new ≡ permits.old }
    {
        let keys = self.by_object.keys(part);
        'keys: for key in keys {
            self.gather_at(*key as usize, request, seats, permits, found)?;
        }
        Ok(())
    }

    /// Adds those who have a lock on the object of this number that blocks the request, unless memory runs out. It looks at
    /// the locks at which `look` looks.
    fn gather_on<A: Allows>(
        &self,
        number: usize,
        request: Request,
        seats: &Seats,
        permits: &mut A,
        found: &mut NameSet,
    ) -> Result<(), NoMemory>
        requires { A.can_ask permits.old seats.now request.asker }
        ensures gathered { OnOk result (IsGathered (blocks_as self.now seats.now (λ n. A.allows permits.old n request.asker.t.0 request.x.0 request.op) request.asker.t.0 request.op) (λ (k : ℕ). (w : Section) × (part_of self.now.by_object k ≡ Some (part_for number w)) × (looks_at request.op w ≡ true)) found.old.keys found.new.keys) }
        ensures permits { permits.new ≡ permits.old }
    {
        self.gather_in(excluders_of(number), request, seats, permits, found)?;
        match request.op {
            Op::Read => self.gather_in(adders_of(number), request, seats, permits, found),
            Op::Write => {
                self.gather_in(adders_of(number), request, seats, permits, found)?;
                self.gather_in(readers_of(number), request, seats, permits, found)
            }
            Op::Add => self.gather_in(readers_of(number), request, seats, permits, found),
        }
    }

    /// Returns who blocks the request, and nobody else. It looks at the locks at which `look` looks. If memory runs out, the
    /// answer is `NoMemory`.
    pub fn blockers<A: Allows>(
        &self,
        alloc: Global,
        number: Option<usize>,
        request: Request,
        seats: &Seats,
        permits: &mut A,
    ) -> Result<NameSet, NoMemory>
        requires number { number ≡ number_in self.now.objects request.x.0 }
        requires asker { A.can_ask permits.old seats.now request.asker }
        ensures all { IfOk result (λ found. (c : ℕ) (u : Name) → seat seats.now c ≡ Some u → blocks (λ n. A.allows permits.old n request.asker.t.0 request.x.0 request.op) request.asker.t.0 request.x.0 request.op u.0 (locks_at self.now c) ≡ true → lists found.keys u.0 ≡ true) }
        ensures only { IfOk result (λ found. (n : ℕ) → lists found.keys n ≡ true → (c : ℕ) × (u : Name) × (seat seats.now c ≡ Some u) × (blocks (λ n. A.allows permits.old n request.asker.t.0 request.x.0 request.op) request.asker.t.0 request.x.0 request.op u.0 (locks_at self.now c) ≡ true) × (u.0 ≡ n)) }
        ensures permits { permits.new ≡ permits.old }
    {
        self.laws();
        let mut found = BTreeSet::new(alloc);
        match number {
            Some(number) => {
                self.gather_on(number, request, seats, permits, &mut found)?;
                Ok(found)
            }
            None => Ok(found),
        }
    }
}
