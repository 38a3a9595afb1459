//! What is stored of each chain.

/// The first and the last key of a chain, each as its number and 1, or 0 for none, and how many keys it has.
#[derive(Clone, Copy)]
pub(crate) struct Head {
    pub(crate) first: u32,
    pub(crate) last: u32,
    pub(crate) count: u32,
}

impl Head {
    /// The head of a chain without keys.
    pub(crate) const NONE: Head = Head {
        first: 0,
        last: 0,
        count: 0,
    };
}

ghost use Rattle.std.specs.Prelude.{◌≡◌};
ghost use Rattle.asset_chains.specs.Linked.{head_at};

/// Returns the head of the chain: one without keys, past the last.
pub(crate) fn head_in(heads: &[Head], chain: usize) -> Head
    ensures { result ≡ head_at heads.now chain }
{
    match heads.get(chain) {
        Some(head) => *head,
        None => Head::NONE,
    }
}
