//! The row of a transaction.

use asset_names::{Status, Txn};

/// The status of a transaction, its parent, and its seat.
#[derive(Clone, Copy, Debug, PartialEq, Eq)]
pub struct TransRow {
    /// The status, which is not Unknown.
    pub status: Status,
    /// The parent that its initiation named, if any.
    pub parent: Option<Txn>,
    /// The seat that its initiation gave it, which is its own while it is live.
    pub seat: usize,
}
