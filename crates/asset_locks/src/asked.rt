//! The answer to a request.

/// The answer to a request.
#[derive(Clone, Copy, Debug, PartialEq, Eq)]
pub enum Asked {
    /// The request is granted: the asker has a lock for it.
    Granted,
    /// The request waits: it is the asker's pending request.
    Pending,
}
