//! How the run of a script ends.

/// How the run of a script ends.
#[derive(Clone, Copy, Debug, PartialEq, Eq)]
pub enum RunEnd {
    /// Every line was looked at, and none is bad.
    Finished,
    /// The line of this number is the first bad one. A run and a report do not look at those after it; a check and a
    /// conversation go on. Lines count from 1.
    BadLine(u64),
    /// Those who committed shared something, so there is no serial history. Only the word `serial` ends so.
    Shared,
}
