//! The time that a load takes, and the number that it leaves.

use std::time::{Clock, Duration, Instant};

/// What a load took, and the number that it leaves.
#[derive(Clone, Copy)]
pub struct Took {
    /// How long it took.
    pub time: Duration,
    /// The number that it leaves.
    pub left: u64,
}

/// Returns this moment, if the clock can be read.
pub fn moment<R: Clock>(rt: &R) -> Option<Instant> {
    Instant::now(rt).ok()
}

/// Returns the time since the start, with the number that the load leaves, if the clock can be read.
pub fn since<R: Clock>(rt: &R, start: Option<Instant>, left: u64) -> Option<Took> {
    let end = moment(rt)?;
    Some(Took {
        time: end.duration_since(start?),
        left,
    })
}
