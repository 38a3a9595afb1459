//! What is kept of the users of an object, from the first open permit on: those who open it, and those who operate on it.
//!
//! If somebody opens an object and somebody operates on it, all its users are of one group. Until then those of one side may be of
//! several.

ghost use Rattle.std.specs.Prelude.{◌≡◌, ℕ, ◌+◌, ◌<◌, ◌≤◌, ◌⊎◌, Bool, true, not, List, length};
ghost use Rattle.asset_names.specs.Groups.{same_group};
ghost use Rattle.asset_names.specs.Steps.{Entry, applied};
ghost use Rattle.asset_history.specs.Links.{IsIn, HaveMore};
ghost use Rattle.asset_history.specs.Together.{name_at, label_at, AreJoined, HaveGrown};
ghost use Rattle.asset_history.specs.Uses.{opens, operates};
ghost use Rattle.asset_history.specs.Users.{AreSaid, AreAmong, AreUsersWithin, also, is_known, uses_as};

use crate::joining::{join_chain, join_nodes};
use crate::links::UserLinks;
use asset_name_groups::NameGroups;
use asset_names::Ob;

/// The users of an object.
#[derive(Clone, Copy)]
pub(crate) enum Users {
    /// There is none.
    Nobody,
    /// All open the object, or all operate on it. Each is of the group of the node, which is the first, or of that of a node in the
    /// chain.
    OneSide {
        opens: bool,
        node: usize,
        chain: usize,
    },
    /// Somebody opens the object and somebody operates on it. All are of the group of the node.
    Met {
        node: usize,
    },
}

/// A use of an object: the node opens the object, or operates on it.
#[derive(Clone, Copy)]
pub(crate) struct Use {
    pub x: Ob,
    pub node: usize,
    pub opens: bool,
}

/// Joins with another node a node and those in a chain.
fn meet(groups: &mut NameGroups, links: &UserLinks, node: usize, chain: usize, other: usize)
    requires node { node < length groups.old.names }
    requires other { other < length groups.old.names }
    requires linked { chain ≤ length links.now.links }
    requires chained { (k : ℕ) → IsIn links.now.links chain k → k < length groups.old.names }
    ensures joined { (all : List Entry) → same_group all (name_at groups.old other) (name_at groups.old node) ≡ true
        → ((k : ℕ) → IsIn links.now.links chain k → same_group all (name_at groups.old other) (name_at groups.old k) ≡ true) → AreJoined all groups.old groups.new }
    ensures names { groups.new.names ≡ groups.old.names }
    ensures grown { HaveGrown groups.old groups.new }
    ensures one { label_at groups.new node ≡ label_at groups.new other }
    ensures each { (k : ℕ) → IsIn links.now.links chain k → label_at groups.new k ≡ label_at groups.new other }
{
    join_nodes(groups, other, node);
    join_chain(groups, links, chain, other);
}

/// Returns whether another node is of the group of the node, or of that of the newest in the chain.
fn is_known(groups: &NameGroups, links: &UserLinks, node: usize, chain: usize, other: usize) -> bool
    requires node { node < length groups.now.names }
    requires other { other < length groups.now.names }
    requires linked { chain ≤ length links.now.links }
    requires chained { (k : ℕ) → IsIn links.now.links chain k → k < length groups.now.names }
    ensures { result ≡ is_known groups.now links.now.links node chain other }
{
    let label = groups.label(other);
    if groups.label(node) == label {
        return true;
    }
    chain > 0 && groups.label(links.newest(chain).node as usize) == label
}

/// Returns the chain of the users of an object once another node of the same side uses it. The chain becomes longer unless that node
/// is of a group that is known.
fn with_other(
    groups: &NameGroups,
    links: &mut UserLinks,
    node: usize,
    chain: usize,
    other: usize,
) -> usize
    requires node { node < length groups.now.names }
    requires other { other < length groups.now.names }
    requires linked { chain ≤ length links.old.links }
    requires chained { (k : ℕ) → IsIn links.old.links chain k → k < length groups.now.names }
    requires room { length links.old.links < links.old.room }
    ensures known { is_known groups.now links.old.links node chain other ≡ true → (result ≡ chain) × (links.new ≡ links.old) }
    ensures more { HaveMore links.old.links links.new.links }
    ensures few { length links.new.links ≤ length links.old.links + 1 }
    ensures room { links.new.room ≡ links.old.room }
    ensures linked { result ≤ length links.new.links }
    ensures kept { (k : ℕ) → IsIn links.old.links chain k → IsIn links.new.links result k }
    ensures only { (k : ℕ) → IsIn links.new.links result k → IsIn links.old.links chain k ⊎ (k ≡ other) }
    ensures reached { (label_at groups.now node ≡ label_at groups.now other) ⊎ ((k : ℕ) × IsIn links.new.links result k × (label_at groups.now k ≡ label_at groups.now other)) }
{
    if is_known(groups, links, node, chain, other) {
        return chain;
    }
    groups.laws();
    links.add(other, chain)
}

/// Returns the users of an object once one more uses it, and joins those who meet by it.
pub(crate) fn with_user(
    groups: &mut NameGroups,
    links: &mut UserLinks,
    users: Users,
    used: Use,
) -> Users
    requires node { used.node < length groups.old.names }
    requires within { AreUsersWithin (length groups.old.names) links.old.links users }
    requires room { length links.old.links < links.old.room }
    ensures names { groups.new.names ≡ groups.old.names }
    ensures within { AreUsersWithin (length groups.new.names) links.new.links result }
    ensures more { HaveMore links.old.links links.new.links }
    ensures few { length links.new.links ≤ length links.old.links + 1 }
    ensures room { links.new.room ≡ links.old.room }
    ensures said { (all : List Entry) (openers operators : ℕ → Bool) → uses_as used.opens (applied all) (name_at groups.old used.node) used.x.0 ≡ true
        → AreAmong openers (λ a. opens (applied all) a used.x.0) → AreAmong operators (λ t. operates (applied all) t used.x.0)
        → AreSaid groups.old links.old.links openers operators (λ a. opens (applied all) a used.x.0) (λ t. operates (applied all) t used.x.0) users
        → AreJoined all groups.old groups.new
        × AreSaid groups.new links.new.links (also used.opens (name_at groups.old used.node) openers) (also (not used.opens) (name_at groups.old used.node) operators) (λ a. opens (applied all) a used.x.0) (λ t. operates (applied all) t used.x.0) result }
{
    match users {
        Users::Nobody => Users::OneSide {
            opens: used.opens,
            node: used.node,
            chain: 0,
        },
        Users::OneSide { opens, node, chain } => {
            if opens == used.opens {
                let longer = with_other(groups, links, node, chain, used.node);
                return Users::OneSide {
                    opens,
                    node,
                    chain: longer,
                };
            }
            meet(groups, links, node, chain, used.node);
            Users::Met { node: used.node }
        }
        Users::Met { node } => {
            join_nodes(groups, node, used.node);
            Users::Met { node }
        }
    }
}
