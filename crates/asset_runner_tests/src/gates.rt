//! Gates.

use asset_names::Txn;
use asset_runner::Gate;
use std::sync::atomic::{AtomicU64, Ordering};
use std::thread;

/// A gate that holds one transaction back until 8 has left, or holds nobody back.
#[derive(Drop)]
pub(crate) struct Holding {
    held: Option<Txn>,
    left: AtomicU64,
}

impl Holding {
    /// Returns a gate that holds `held` back, if it is one. 8 has not left yet.
    pub(crate) fn back(held: Option<Txn>) -> Holding {
        Holding {
            held,
            left: AtomicU64::new(0),
        }
    }

    /// Returns whether it was told that 8 has left.
    pub(crate) fn has_left(&self) -> bool {
        self.left.load(Ordering::SeqCst) == 1
    }
}

impl Gate for Holding {
    /// Yields until 8 has left, at most a million times.
    fn entered(&self, t: Txn) {
        if self.held != Some(t) {
            return;
        }
        for _ in 0..1_000_000 {
            if self.has_left() {
                return;
            }
            thread::yield_now();
        }
    }

    fn left(&self, t: Txn) {
        if t == Txn(8) {
            self.left.store(1, Ordering::SeqCst);
        }
    }
}
