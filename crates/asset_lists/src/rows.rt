//! What is stored of each list, and of each key.

use smallvec::SmallVec;

/// The keys of a list. The first `front` of them are its front part, those from position `back` on its back part, and those
/// between the two its middle part.
#[derive(Drop)]
pub(crate) struct Row {
    pub(crate) keys: SmallVec<u32, 4>,
    pub(crate) front: usize,
    pub(crate) back: usize,
}

/// The list of a key, as its number and 1, or 0 for none, and the key's position there.
#[derive(Clone, Copy)]
pub(crate) struct Place {
    pub(crate) home: u32,
    pub(crate) position: u32,
}

impl Place {
    /// The place of a key in no list.
    pub(crate) const NONE: Place = Place {
        home: 0,
        position: 0,
    };
}
