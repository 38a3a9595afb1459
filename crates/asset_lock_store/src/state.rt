//! The state of a lock.

/// The state of a lock.
#[derive(Clone, Copy, Debug, PartialEq, Eq)]
pub enum LockState {
    /// The owner may go on.
    Granted,
    /// A conflicting request was granted later, or the lock became one with another when locks were handed over. It
    /// still blocks everybody whom its owner does not allow, and the owner has to ask again.
    Suspended,
}
