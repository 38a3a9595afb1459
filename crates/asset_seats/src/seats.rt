//! Seats of transactions.

use crate::buckets::{add_name, bucket_of, find, move_to, widen};
use asset_chains::Chains;
use asset_names::{NoMemory, Txn};
use std::alloc::Global;
use std::marker::Model;

/// The seats of transactions: numbers from 0 on, such as those of chains. A transaction has one seat at most, and a seat
/// that is left is given again. Contracts see who has which seat, which seat is given next, and whether that takes no
/// memory.
///
/// A seat takes 20 bytes, and a bucket 12. Only `reserve` and `add_seat` take memory.
pub struct Seats {
    names: Vec<Txn>,
    chains: Chains,
    buckets: usize,
}

impl Drop for Seats {
    fn drop(self) {
        let Seats {
            names,
            chains,
            buckets: _,
        } = self;
        drop(names);
        drop(chains);
    }
}

impl Model for Seats {
    ghost use Rattle.asset_seats.specs.Seated.{Seated};
    ghost use Rattle.asset_seats.specs.Bucketed.{seats_of, AreBucketed};

    ghost Value = { Seated };

    ghost view = { λ o. seats_of o.names.items o.chains };

    ghost invariant = { λ o. AreBucketed o.names.items o.chains o.buckets };
}

impl Seats {
    ghost use Rattle.std.specs.Prelude.{◌≡◌, ◌≢◌, ℕ, ◌+◌, ◌<◌, ◌≤◌, ◌==◌, cond, length, [], true, false, None, Some, is_some, IfSome, IfNone, IsOk, OnOk, OnErr};
    ghost use Rattle.asset_names.specs.declared.names.Txn.{Txn};
    ghost use Rattle.asset_seats.specs.Seated.{seat};

    /// Returns no seats. It does not allocate.
    pub fn new(alloc: Global) -> Seats
        ensures seats { (c : ℕ) → seat result c ≡ None }
        ensures slots { result.slots ≡ [] }
    {
        Seats {
            names: Vec::new(alloc),
            chains: Chains::new(alloc),
            buckets: 0,
        }
    }

    /// Returns how many seats there are, whether somebody has them or not.
    pub fn seats(&self) -> usize
        ensures { result ≡ length self.now.slots }
    {
        self.chains.keys()
    }

    /// Adds a seat, which is free. If memory runs out, nobody's seat changes.
    ///
    /// The cost is that of a push to a vector, and of moving each seat once whenever their number has doubled.
    pub fn add_seat(&mut self) -> Result<(), NoMemory>
        ensures added { OnOk result ((length self.new.slots ≡ length self.old.slots + 1) × (self.new.vacant ≡ length self.old.slots) × (self.new.has_room ≡ true)) }
        ensures unchanged { OnErr result ((length self.new.slots ≡ length self.old.slots) × (self.new.vacant ≡ self.old.vacant) × (self.new.has_room ≡ self.old.has_room)) }
        ensures seats { (c : ℕ) → seat self.new c ≡ seat self.old c }
    {
        widen(&self.names, &mut self.chains, &mut self.buckets)?;
        let key = self.chains.keys();
        add_name(&mut self.names, key)?;
        match self.chains.add_key() {
            Ok(()) => {}
            Err(_) => return Err(NoMemory),
        }
        self.chains.push(0, key);
        Ok(())
    }

    /// Reserves the memory for one more seat. If memory runs out, nobody's seat changes.
    pub fn reserve(&mut self) -> Result<(), NoMemory>
        ensures room { OnOk result (self.new.has_room ≡ true) }
        ensures standing { self.old.has_room ≡ true → IsOk result × (self.new.has_room ≡ true) }
        ensures seats { (c : ℕ) → seat self.new c ≡ seat self.old c }
        ensures more { length self.old.slots ≤ length self.new.slots }
        ensures vacant { self.new.vacant ≡ self.old.vacant }
    {
        if self.has_room() {
            return Ok(());
        }
        self.add_seat()
    }

    /// Returns whether a seat is free.
    fn has_room(&self) -> bool
        ensures free { result ≡ self.now.has_room }
        ensures vacant { self.now.has_room ≡ false → self.now.vacant ≡ length self.now.slots }
    {
        self.chains.last(0).is_some()
    }

    /// Returns the seat that is given next.
    pub fn vacant(&self) -> usize
        ensures { result ≡ self.now.vacant }
    {
        match self.chains.last(0) {
            Some(c) => c,
            None => self.chains.keys(),
        }
    }

    /// Returns who has the seat, if anybody has it.
    pub fn name_at(&self, c: usize) -> Option<Txn>
        ensures { result ≡ seat self.now c }
    {
        if self.chains.home(c)? == 0 {
            None
        } else {
            Some(self.names[c])
        }
    }

    /// Returns the seat of a transaction, if it has one. The cost is that of the seats in one bucket.
    pub fn seat_of(&self, t: Txn) -> Option<usize>
        ensures found { IfSome result (λ c. (seat self.now c ≡ Some t) × ((d : ℕ) → seat self.now d ≡ Some t → d ≡ c)) }
        ensures absent { IfNone result ((c : ℕ) → seat self.now c ≢ Some t) }
    {
        if self.buckets == 0 {
            return None;
        }
        find(&self.names, &self.chains, 1 + bucket_of(t, self.buckets), t)
    }

    /// Gives a seat to a transaction that has none. It uses the memory that `reserve` reserved.
    pub fn sit(&mut self, t: Txn) -> usize
        requires room { self.old.has_room ≡ true }
        requires absent { (c : ℕ) → seat self.old c ≢ Some t }
        ensures given { result ≡ self.old.vacant }
        ensures free { seat self.old result ≡ None }
        ensures seats { (c : ℕ) → seat self.new c ≡ cond (c == result) (Some t) (seat self.old c) }
        ensures many { length self.new.slots ≡ length self.old.slots }
    {
        self.chains.laws();
        let c = self.vacant();
        move_to(&mut self.chains, c, 1 + bucket_of(t, self.buckets));
        self.names[c] = t;
        c
    }

    /// Takes the seat from whoever has it. It is given next, and there is room for that. If nobody has it, nothing
    /// changes.
    pub fn leave(&mut self, c: usize)
        ensures seats { (d : ℕ) → seat self.new d ≡ cond (d == c) None (seat self.old d) }
        ensures vacant { is_some (seat self.old c) ≡ true → self.new.vacant ≡ c }
        ensures unchanged { seat self.old c ≡ None → self.new ≡ self.old }
        ensures room { self.old.has_room ≡ true → self.new.has_room ≡ true }
        ensures free { is_some (seat self.old c) ≡ true → self.new.has_room ≡ true }
        ensures many { length self.new.slots ≡ length self.old.slots }
    {
        if let Some(chain) = self.chains.home(c) {
            if chain > 0 {
                move_to(&mut self.chains, c, 0);
            }
        }
    }

    /// Says what holds of all seats, for proofs. It does nothing.
    pub fn laws(&self)
        ensures one { (t : Txn) (c d : ℕ) → seat self.now c ≡ Some t → seat self.now d ≡ Some t → d ≡ c }
        ensures room { (c : ℕ) → c < length self.now.slots → seat self.now c ≡ None → self.now.has_room ≡ true }
        ensures vacant { self.now.has_room ≡ true → self.now.vacant < length self.now.slots }
    {
        self.chains.laws();
    }
}
