//! Walks to roots, and joins, flags and additions.

ghost use Rattle.std.specs.Prelude.{◌≡◌, ◌≢◌, ◌+◌, ◌<◌, ◌≤◌, ◌^◌, true, false, [], ◌∷◌, ◌++◌, length, slice_set, vec_capacity};
ghost use Rattle.asset_name_groups.specs.Labelled.{merged};
ghost use Rattle.asset_name_groups.specs.declared.links.Link.TheVariants.{Below};
ghost use Rattle.asset_name_groups.specs.Trees.{labels_in, flags_in, root_in, IsForest};
ghost use Rattle.asset_name_groups.specs.Roots.{joined_tree, root_link, stays_above, IsTree};
ghost use Rattle.asset_name_groups.specs.NamesInGroups.{merged_flags, flags_with};

use crate::links::Link;

/// The tree of a group, as its root says it.
#[derive(Clone, Copy)]
pub(crate) struct Tree {
    pub root: usize,
    pub rank: u8,
    pub is_flagged: bool,
    pub label: u32,
}

impl Tree {
    ghost use Rattle.std.specs.Prelude.{◌≡◌};
    ghost use Rattle.asset_name_groups.specs.Roots.{stays_above};

    /// Returns whether the root stays above another one if their trees become one: its rank is greater, or the ranks are the same
    /// and it is the earlier node.
    #[inline(always)]
    #[tactic(auto, unfolding(crate::specs::Roots::stays_above))]
    fn stays_above(self, other: Tree) -> bool
        ensures { result ≡ stays_above self other }
    {
        other.rank < self.rank || other.rank == self.rank && self.root < other.root
    }
}

/// Returns the tree of a node. The walk to its root has at most log2 of its nodes steps.
#[inline(always)]
pub(crate) fn tree_of(links: &[Link], node: usize) -> Tree
    requires forest { IsForest links.now }
    requires node { node < length links.now }
    ensures root { result.root ≡ root_in links.now node }
    ensures tree { IsTree links.now result }
{
    let mut k = node;
    'walk: loop {
        match links[k] {
            Link::Below { above, .. } => k = above as usize,
            Link::Root {
                rank,
                is_flagged,
                label,
            } => {
                return Tree {
                    root: k,
                    rank,
                    is_flagged,
                    label,
                };
            }
        }
    }
}

/// Returns the tree that two become: the upper root stays.
#[inline(always)]
#[tactic(auto, unfolding(crate::specs::Roots::joined_tree, crate::specs::Roots::raised))]
fn joined_tree(lower: Tree, upper: Tree) -> Tree
    ensures tree { result ≡ joined_tree lower upper }
    ensures byte { result.rank < 2 ^ 8 }
{
    let rank = if lower.rank == upper.rank {
        upper.rank.saturating_add(1)
    } else {
        upper.rank
    };
    Tree {
        root: upper.root,
        rank,
        is_flagged: lower.is_flagged || upper.is_flagged,
        label: lower.label.min(upper.label),
    }
}

/// Writes the link of a root.
#[tactic(auto, unfolding(crate::specs::Roots::root_link))]
fn put_root(links: &mut Vec<Link>, tree: Tree)
    requires { tree.root < length links.old.items }
    ensures links { links.new.items ≡ slice_set links.old.items tree.root (root_link tree) }
    ensures capacity { vec_capacity links.new ≡ vec_capacity links.old }
{
    links[tree.root] = Link::Root {
        rank: tree.rank,
        is_flagged: tree.is_flagged,
        label: tree.label,
    };
}

/// Leads the root of a tree to that of another one, which is the root of both from then on.
fn lead(links: &mut Vec<Link>, lower: Tree, upper: Tree)
    requires forest { IsForest links.old.items }
    requires lower { IsTree links.old.items lower }
    requires upper { IsTree links.old.items upper }
    requires above { stays_above upper lower ≡ true }
    requires small { length links.old.items ≤ 2 ^ 32 }
    ensures forest { IsForest links.new.items }
    ensures labels { labels_in links.new.items ≡ merged (labels_in links.old.items) lower.label upper.label }
    ensures flags { flags_in links.new.items ≡ merged_flags (labels_in links.old.items) (flags_in links.old.items) lower.label upper.label }
    ensures links { links.new.items ≡ slice_set (slice_set links.old.items lower.root (Below lower.rank upper.root)) upper.root (root_link (joined_tree lower upper)) }
    ensures size { length links.new.items ≡ length links.old.items }
    ensures capacity { vec_capacity links.new ≡ vec_capacity links.old }
{
    links[lower.root] = Link::Below {
        rank: lower.rank,
        above: upper.root as u32,
    };
    put_root(links, joined_tree(lower, upper));
}

/// Makes one tree of two whose roots are different.
pub(crate) fn join_roots(links: &mut Vec<Link>, a: Tree, b: Tree)
    requires forest { IsForest links.old.items }
    requires first { IsTree links.old.items a }
    requires second { IsTree links.old.items b }
    requires apart { a.root ≢ b.root }
    requires small { length links.old.items ≤ 2 ^ 32 }
    ensures forest { IsForest links.new.items }
    ensures labels { labels_in links.new.items ≡ merged (labels_in links.old.items) a.label b.label }
    ensures flags { flags_in links.new.items ≡ merged_flags (labels_in links.old.items) (flags_in links.old.items) a.label b.label }
    ensures size { length links.new.items ≡ length links.old.items }
    ensures capacity { vec_capacity links.new ≡ vec_capacity links.old }
{
    if a.stays_above(b) {
        lead(links, b, a);
    } else {
        lead(links, a, b);
    }
}

/// Flags a group at its root.
pub(crate) fn flag_root(links: &mut Vec<Link>, tree: Tree)
    requires forest { IsForest links.old.items }
    requires tree { IsTree links.old.items tree }
    ensures forest { IsForest links.new.items }
    ensures labels { labels_in links.new.items ≡ labels_in links.old.items }
    ensures flags { flags_in links.new.items ≡ flags_with (labels_in links.old.items) (flags_in links.old.items) tree.label }
    ensures size { length links.new.items ≡ length links.old.items }
    ensures capacity { vec_capacity links.new ≡ vec_capacity links.old }
{
    let flagged = Tree {
        is_flagged: true,
        ..tree
    };
    put_root(links, flagged);
}

/// Adds a node, which is a group by itself without a flag. There is room for it, so it does not allocate.
pub(crate) fn add_node(links: &mut Vec<Link>)
    requires forest { IsForest links.old.items }
    requires room { length links.old.items < vec_capacity links.old }
    requires small { length links.old.items < 2 ^ 32 }
    ensures forest { IsForest links.new.items }
    ensures labels { labels_in links.new.items ≡ labels_in links.old.items ++ length links.old.items ∷ [] }
    ensures flags { flags_in links.new.items ≡ flags_in links.old.items ++ false ∷ [] }
    ensures size { length links.new.items ≡ length links.old.items + 1 }
    ensures capacity { vec_capacity links.old ≤ vec_capacity links.new }
{
    let node = links.len() as u32;
    let alone = Link::Root {
        rank: 0,
        is_flagged: false,
        label: node,
    };
    links.push_reserved(alone);
}
