//! The trees of groups: how a node is linked to the others of its group.

use std::mem::size_of;

/// Where a node stands in the tree of its group.
///
/// The rank of a node bounds the depth of the tree below it. Upward in a tree ranks rise; where two are the same, the upper node is
/// the earlier one. Fields lie in the order written, behind a tag of one byte; small ones first, a link takes 8 bytes.
#[derive(Clone, Copy)]
pub(crate) enum Link {
    /// The root, which keeps the label of its group, and whether the group is flagged.
    Root {
        rank: u8,
        is_flagged: bool,
        label: u32,
    },
    /// Below another node of the group.
    Below {
        rank: u8,
        above: u32,
    },
}

const _: () = prove!(size_of::<Link>() == 8);
