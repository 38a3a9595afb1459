//! What the steps of a script print.

/// What each step of a script prints.
#[derive(Clone, Copy)]
pub enum Prints {
    /// Nothing.
    Nothing,
    /// The line of its outcome.
    Replies,
    /// Its line in a listing: the numbers of its line and of its entry, the step, and the line of its outcome.
    Listing,
}
