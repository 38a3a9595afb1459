//! Buckets of indices, on worked values and at sizes.

use asset_buckets::Buckets;
use std::alloc::{AllocError, Global};
use std::test::Fail;

/// How many indices a long list has, and in how many buckets they are.
const MANY: usize = 5_000;

const BUCKETS: usize = 700;

/// Returns the buckets of the numbers. If memory runs out once, they are made again.
fn buckets_of(alloc: Global, numbers: &[usize], count: usize) -> Result<Buckets, AllocError> {
    match Buckets::of(alloc, numbers, count) {
        Ok(made) => Ok(made),
        Err(AllocError) => Buckets::of(alloc, numbers, count),
    }
}

/// Returns the first number whose bucket does not have the expected indices.
fn first_other(made: &Buckets, expected: &[&[usize]]) -> Option<usize> {
    for (number, indices) in expected.iter().enumerate() {
        if made.bucket(number) != *indices {
            return Some(number);
        }
    }
    None
}

#[test]
fn indices_are_in_buckets(rt: HostRuntime) -> Result<(), Fail> {
    let made = buckets_of(rt.alloc(), &[2, 0, 2, 5, 0, 2], 4)?;
    let count = made.count();
    let other = first_other(&made, &[&[1, 4], &[], &[0, 2, 5], &[], &[], &[]]);
    drop(made);
    assert_eq!(rt; (count, other), (4, None));
    Ok(())
}

/// Returns how many buckets there are for no indices, and how many indices the last of them has. If memory runs out once,
/// they are made again.
fn without_indices(alloc: Global, count: usize) -> Result<(usize, usize), AllocError> {
    let made = buckets_of(alloc, &[], count)?;
    let shown = (made.count(), made.bucket(count / 2).len());
    drop(made);
    Ok(shown)
}

#[test]
fn buckets_of_no_indices_are_empty(rt: HostRuntime) {
    assert_eq!(rt; without_indices(rt.alloc(), 0), Ok((0, 0)));
    assert_eq!(rt; without_indices(rt.alloc(), 2), Ok((2, 0)));
}

/// Returns whether many indices are in the last long bucket, the first short one and the last.
fn many_are_shown(made: &Buckets) -> bool {
    // 5,000 is 7 times 700 and 100 more.
    made.bucket(99) == &[99, 799, 1499, 2199, 2899, 3599, 4299, 4999][..]
        && made.bucket(100) == &[100, 800, 1500, 2200, 2900, 3600, 4300][..]
        && (made.count(), made.bucket(699).len()) == (700, 7)
}

/// Asks once, and not again if memory runs out.
#[test]
fn many_indices_are_in_buckets(rt: HostRuntime) -> Result<(), Fail> {
    let mut numbers = [0; MANY];
    for (index, number) in numbers.iter_mut().enumerate() {
        *number = index % BUCKETS;
    }
    let made = Buckets::of(rt.alloc(), &numbers, BUCKETS)?;
    let shown = many_are_shown(&made);
    drop(made);
    assert!(rt; shown);
    Ok(())
}
