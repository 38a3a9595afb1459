//! What a run needs of the machine.

use std::sync::Wait;
use std::thread::Threads;

/// What a run needs of the machine: that it starts threads, which share it, and lets them wait. A caller that names this one
/// trait leaves it to its own callers to show that threads may share the machine.
pub trait Runtime: Threads + Wait + Sync {}

impl<R: Threads + Wait + Sync> Runtime for R {}
