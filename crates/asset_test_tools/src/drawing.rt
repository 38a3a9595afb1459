//! Numbers that look random, and what they stand for.

use asset_names::{Kind, Op, Ops};

/// Returns the next of a sequence of numbers that look random.
pub fn next(seed: u64) -> u64 {
    seed.wrapping_mul(6_364_136_223_846_793_005)
        .wrapping_add(1_442_695_040_888_963_407)
}

/// Returns the kind that a number stands for.
pub fn kind_of(number: u64) -> Kind {
    match number % 3 {
        0 => Kind::Cd,
        1 => Kind::Ad,
        _ => Kind::Gc,
    }
}

/// Returns the operation that a number stands for.
pub fn op_of(number: u64) -> Op {
    match number % 3 {
        0 => Op::Read,
        1 => Op::Write,
        _ => Op::Add,
    }
}

/// Returns the set of one or two operations that a number stands for.
pub fn ops_of(number: u64) -> Ops {
    Ops::only(op_of(number)).with(op_of(number / 3))
}
