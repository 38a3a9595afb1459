//! Where a value comes from.

/// Where a value that was read comes from.
#[derive(Clone, Copy, Debug, PartialEq, Eq)]
pub enum Source {
    /// No write on the object stands: the value is its opening value and all adds that stand.
    Opening,
    /// The entry with this number, from 0, is the last write that stands: the value is what it wrote and all adds after it that
    /// stand.
    Entry(usize),
}
