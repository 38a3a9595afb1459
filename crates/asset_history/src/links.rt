//! Chains of those who use an object from one side, and are of other groups than the first of them.

use std::alloc::{AllocError, Global};
use std::marker::Model;

/// The most links that there can be room for: a link and 1 take 32 bits.
const MOST_LINKS: usize = 0xFFFF_FFFF;

/// A link of a chain: the node of a user, and the chain before it, as `UserLinks` says it.
#[derive(Clone, Copy)]
pub(crate) struct Link {
    pub node: u32,
    pub before: u32,
}

/// The links of all chains, in the order in which they came. A chain is said by 1 and the index of its newest link, or by 0 if it
/// has none. Contracts see the links, and for how many there is room in all.
#[derive(Drop)]
pub(crate) struct UserLinks {
    links: Vec<Link>,
    room: usize,
}

impl Model for UserLinks {
    ghost use Rattle.std.specs.Prelude.{vec_capacity};
    ghost use Rattle.asset_history.specs.Links.{Links, AreValid};

    ghost Value = { Links };

    ghost view = { λ all. record { links = all.links.items; room = all.room } };

    ghost invariant = { λ all. AreValid all.links.items all.room (vec_capacity all.links) };
}

impl UserLinks {
    ghost use Rattle.std.specs.Prelude.{◌≡◌, ℕ, ◌-◌, ◌<◌, ◌≤◌, ◌^◌, length, IfOk};
    ghost use Rattle.asset_history.specs.Links.{link_at, no_links, one_link_more, HaveMore};

    /// Returns no links, with room for so many. It takes 8 bytes for each, and fails if memory runs out or `room` is above
    /// `MOST_LINKS`.
    pub(crate) fn with_room(alloc: Global, room: usize) -> Result<UserLinks, AllocError>
        ensures { IfOk result (λ all. all ≡ no_links room) }
    {
        if room > MOST_LINKS {
            return Err(AllocError);
        }
        Ok(UserLinks {
            links: Vec::with_capacity(alloc, room)?,
            room,
        })
    }

    /// Puts a node at the newer end of a chain, and returns the longer one. There is room for the link, so it does not allocate.
    pub(crate) fn add(&mut self, node: usize, chain: usize) -> usize
        requires node { node < 2 ^ 32 }
        requires chain { chain ≤ length self.old.links }
        requires room { length self.old.links < self.old.room }
        ensures added { self.new ≡ one_link_more self.old node chain }
        ensures longer { result ≡ length self.new.links }
        ensures more { HaveMore self.old.links self.new.links }
    {
        self.links.push_reserved(Link {
            node: node as u32,
            before: chain as u32,
        });
        self.links.len()
    }

    /// Returns the newest link of a chain that has one.
    pub(crate) fn newest(&self, chain: usize) -> Link
        requires some { 0 < chain }
        requires chain { chain ≤ length self.now.links }
        ensures link { result ≡ link_at self.now.links (chain - 1) }
        ensures earlier { result.before < chain }
    {
        self.links[chain - 1]
    }
}
