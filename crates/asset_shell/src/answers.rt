//! What is said to lines before it is written.

use std::alloc::Global;

/// The answers to some lines, and the reasons of those that are bad.
#[derive(Drop)]
pub(crate) struct Answers {
    /// The lines that answer.
    pub replies: String,
    /// The lines that say why lines are bad.
    pub reasons: String,
}

impl Answers {
    ghost use Rattle.std.specs.Prelude.{◌≡◌, [], string_bytes};

    /// Returns no answers. Takes no memory.
    pub(crate) fn new(alloc: Global) -> Answers
        ensures replies { string_bytes result.replies ≡ [] }
        ensures reasons { string_bytes result.reasons ≡ [] }
    {
        Answers {
            replies: String::new(alloc),
            reasons: String::new(alloc),
        }
    }
}
