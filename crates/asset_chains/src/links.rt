//! What is stored of each key.

/// The chain of a key and its neighbours there, each as its number and 1, or 0 for none.
#[derive(Clone, Copy)]
pub(crate) struct Link {
    pub(crate) home: u32,
    pub(crate) before: u32,
    pub(crate) after: u32,
}

impl Link {
    /// The link of a key in no chain.
    pub(crate) const NONE: Link = Link {
        home: 0,
        before: 0,
        after: 0,
    };
}
