//! Joins the groups of names that are there.

ghost use Rattle.std.specs.Prelude.{◌≡◌, ℕ, ◌<◌, ◌≤◌, true, List, length, slice_index};
ghost use Rattle.asset_names.specs.Arrows.{lists};
ghost use Rattle.asset_names.specs.Steps.{Entry};
ghost use Rattle.asset_names.specs.Groups.{same_group};
ghost use Rattle.asset_history.specs.Links.{IsIn};
ghost use Rattle.asset_history.specs.Together.{name_at, label_at, AreJoined, HaveGrown};

use crate::links::UserLinks;
use asset_name_groups::NameGroups;
use asset_names::Txn;

/// Returns the node of a name that is there.
#[inline(always)]
pub(crate) fn node_of_known(groups: &NameGroups, t: Txn) -> usize
    requires { lists groups.now.names t.0 ≡ true }
    ensures { (result < length groups.now.names) × (slice_index groups.now.names result ≡ t.0) }
{
    match groups.find(t.0) {
        Some(node) => node,
        None => unreachable!(),
    }
}

/// Joins the groups of two nodes whose names are of one group.
pub(crate) fn join_nodes(groups: &mut NameGroups, i: usize, j: usize)
    requires first { i < length groups.old.names }
    requires second { j < length groups.old.names }
    ensures joined { (entries : List Entry) → same_group entries (name_at groups.old i) (name_at groups.old j) ≡ true → AreJoined entries groups.old groups.new }
    ensures grown { HaveGrown groups.old groups.new }
    ensures one { label_at groups.new i ≡ label_at groups.new j }
    ensures names { groups.new.names ≡ groups.old.names }
    ensures room { groups.new.room ≡ groups.old.room }
{
    groups.laws();
    groups.join(i, j);
}

/// Joins with a node, whose name is of one group with theirs, those in a chain.
pub(crate) fn join_chain(groups: &mut NameGroups, links: &UserLinks, chain: usize, node: usize)
    requires node { node < length groups.old.names }
    requires linked { chain ≤ length links.now.links }
    requires chained { (other : ℕ) → IsIn links.now.links chain other → other < length groups.old.names }
    ensures joined { (entries : List Entry) → ((other : ℕ) → IsIn links.now.links chain other → same_group entries (name_at groups.old node) (name_at groups.old other) ≡ true) → AreJoined entries groups.old groups.new }
    ensures names { groups.new.names ≡ groups.old.names }
    ensures grown { HaveGrown groups.old groups.new }
    ensures one { (other : ℕ) → IsIn links.now.links chain other → label_at groups.new other ≡ label_at groups.new node }
{
    let mut at = chain;
    'links: while at > 0 {
        let link = links.newest(at);
        join_nodes(groups, node, link.node as usize);
        at = link.before as usize;
    }
}
