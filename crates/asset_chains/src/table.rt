//! The chains and their calls.

use crate::heads::Head;
use crate::links::Link;
use crate::writes::{decoded, set_after, set_before, with_last, without_key};
use std::alloc::{AllocError, Global};
use std::marker::Model;

/// Keys in doubly linked chains. Keys and chains are numbers from 0 on, such as a slab gives, and each key is in one
/// chain at most, which is its home. Contracts see the keys of each chain in order, and the home of each key.
///
/// A key takes 12 bytes, and so does a chain. Each call but `add_key` and `add_chain` takes constant time and no
/// memory.
pub struct Chains {
    links: Vec<Link>,
    heads: Vec<Head>,
}

impl Drop for Chains {
    fn drop(self) {
        let Chains { links, heads } = self;
        drop(links);
        drop(heads);
    }
}

impl Model for Chains {
    ghost use Rattle.asset_chains.specs.Chained.{Chained};
    ghost use Rattle.asset_chains.specs.Linked.{seen, IsValid};

    ghost Value = { Chained };

    ghost view = { λ table. seen table.links.items table.heads.items };

    ghost invariant = { λ table. IsValid table.links.items table.heads.items };
}

impl Chains {
    ghost use Rattle.std.specs.Prelude.{◌≡◌, ℕ, ◌<◌, ◌^◌, [], length, None, Some, OnOk, OnErr};
    ghost use Rattle.asset_chains.specs.Chained.{chain_of, home_of, first_of, last_of, behind, ahead, pushed, unlinked, one_key_more, one_chain_more, IsConsistent};

    /// Returns no chains and no keys. It does not allocate.
    pub fn new(alloc: Global) -> Chains
        ensures chains { result.chains ≡ [] }
        ensures homes { result.homes ≡ [] }
    {
        Chains {
            links: Vec::new(alloc),
            heads: Vec::new(alloc),
        }
    }

    /// Adds a key, which is in no chain. Its number is how many keys there were.
    ///
    /// If memory runs out, or the number is above 2^32 - 2, nothing changes. The cost is that of a push to a vector.
    pub fn add_key(&mut self) -> Result<(), AllocError>
        ensures added { OnOk result (self.new ≡ one_key_more self.old) }
        ensures unchanged { OnErr result (self.new ≡ self.old) }
    {
        if self.links.len() >= u32::MAX as usize || self.links.push(Link::NONE).is_err() {
            return Err(AllocError);
        }
        Ok(())
    }

    /// Adds a chain without keys. Its number is how many chains there were.
    ///
    /// If memory runs out, or the number is above 2^32 - 2, nothing changes. The cost is that of a push to a vector.
    pub fn add_chain(&mut self) -> Result<(), AllocError>
        ensures added { OnOk result (self.new ≡ one_chain_more self.old) }
        ensures unchanged { OnErr result (self.new ≡ self.old) }
    {
        if self.heads.len() >= u32::MAX as usize || self.heads.push(Head::NONE).is_err() {
            return Err(AllocError);
        }
        Ok(())
    }

    /// Puts a key that is in no chain at the end of the chain.
    pub fn push(&mut self, chain: usize, key: usize)
        requires chain { chain < length self.old.chains }
        requires key { key < length self.old.homes }
        requires free { home_of self.old key ≡ None }
        ensures { self.new ≡ pushed chain key self.old }
    {
        let head = self.heads[chain];
        let stored = key as u32 + 1;
        set_after(&mut self.links, head.last, stored);
        self.links[key] = Link {
            home: chain as u32 + 1,
            before: head.last,
            after: 0,
        };
        self.heads[chain] = with_last(head, stored);
    }

    /// Takes a key out of its chain. If it is in none, nothing changes.
    pub fn unlink(&mut self, key: usize)
        requires { key < length self.old.homes }
        ensures { self.new ≡ unlinked key self.old }
    {
        let link = self.links[key];
        if link.home > 0 {
            let chain = link.home as usize - 1;
            let head = self.heads[chain];
            set_after(&mut self.links, link.before, link.after);
            set_before(&mut self.links, link.after, link.before);
            self.links[key] = Link::NONE;
            self.heads[chain] = without_key(head, link);
        }
    }

    /// Returns the first key of the chain, if there is one.
    pub fn first(&self, chain: usize) -> Option<usize>
        ensures { result ≡ first_of (chain_of self.now chain) }
    {
        if chain < self.heads.len() {
            decoded(self.heads[chain].first)
        } else {
            None
        }
    }

    /// Returns the last key of the chain, if there is one.
    pub fn last(&self, chain: usize) -> Option<usize>
        ensures { result ≡ last_of (chain_of self.now chain) }
    {
        if chain < self.heads.len() {
            decoded(self.heads[chain].last)
        } else {
            None
        }
    }

    /// Returns how many keys the chain has: 0 past the last chain.
    pub fn len(&self, chain: usize) -> usize
        ensures { result ≡ length (chain_of self.now chain) }
    {
        if chain < self.heads.len() {
            self.heads[chain].count as usize
        } else {
            0
        }
    }

    /// Returns the chain that the key is in, if it is in one.
    pub fn home(&self, key: usize) -> Option<usize>
        ensures { result ≡ home_of self.now key }
    {
        if key < self.links.len() {
            decoded(self.links[key].home)
        } else {
            None
        }
    }

    /// Returns the key after this one in its chain. It is `None` for the last key, and for a key in no chain.
    pub fn next(&self, key: usize) -> Option<usize>
        ensures next { (c : ℕ) → home_of self.now key ≡ Some c → result ≡ first_of (behind key (chain_of self.now c)) }
        ensures none { home_of self.now key ≡ None → result ≡ None }
    {
        if key < self.links.len() {
            decoded(self.links[key].after)
        } else {
            None
        }
    }

    /// Returns the key before this one in its chain. It is `None` for the first key, and for a key in no chain.
    pub fn previous(&self, key: usize) -> Option<usize>
        ensures previous { (c : ℕ) → home_of self.now key ≡ Some c → result ≡ last_of (ahead key (chain_of self.now c)) }
        ensures none { home_of self.now key ≡ None → result ≡ None }
    {
        if key < self.links.len() {
            decoded(self.links[key].before)
        } else {
            None
        }
    }

    /// Returns how many keys there are.
    pub fn keys(&self) -> usize
        ensures { result ≡ length self.now.homes }
    {
        self.links.len()
    }

    /// Returns how many chains there are.
    pub fn chains(&self) -> usize
        ensures { result ≡ length self.now.chains }
    {
        self.heads.len()
    }

    /// Says what holds of all chains, for proofs. It does nothing.
    pub fn laws(&self)
        ensures sound { IsConsistent self.now }
        ensures few { length self.now.homes < 2 ^ 32 }
        ensures few_chains { length self.now.chains < 2 ^ 32 }
    {
        let _ = &self.links;
    }
}
