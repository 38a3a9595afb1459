//! Two hundred permits that have one transaction in common.

/// The first of the two hundred transactions that share a permit with 7.
pub const FIRST: u64 = 1_000;

/// One past the last of them.
pub const END: u64 = 1_200;

/// The transaction that shares a permit with each of the others.
pub const ONE: u64 = 7;

/// What 7 is in each permit.
#[derive(Clone, Copy)]
pub enum Side {
    Giver,
    Taker,
}

/// Returns the giver and the taker of the permit that 7 shares with `t`.
pub fn pair(side: Side, t: u64) -> (u64, u64) {
    match side {
        Side::Giver => (ONE, t),
        Side::Taker => (t, ONE),
    }
}
