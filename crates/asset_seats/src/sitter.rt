//! A transaction and its seat.

use asset_names::Txn;

/// A transaction and the number of its seat, as who asks a table by seat passes them.
#[derive(Clone, Copy)]
pub struct Sitter {
    pub t: Txn,
    pub at: usize,
}
