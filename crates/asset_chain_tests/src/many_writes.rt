//! A thousand writes stand at once.

use crate::asserts::{holds, same};
use crate::objects::write_once;
use asset_names::{Ob, Txn};
use asset_objects::Objects;
use std::test::Fail;

/// How many writes stand at once.
const RECORDS: u64 = 1_000;

/// Ten objects, all at 0.
const TEN: [(Ob, i64); 10] = [
    (Ob(0), 0),
    (Ob(1), 0),
    (Ob(2), 0),
    (Ob(3), 0),
    (Ob(4), 0),
    (Ob(5), 0),
    (Ob(6), 0),
    (Ob(7), 0),
    (Ob(8), 0),
    (Ob(9), 0),
];

/// The values of the ten objects after all writes.
const WRITTEN: [i64; 10] = [990, 991, 992, 993, 994, 995, 996, 997, 998, 999];

/// The same without the writes of 8.
const WITHOUT_EIGHT: [i64; 10] = [990, 981, 992, 993, 984, 995, 996, 987, 998, 999];

/// The newest value that 9 wrote to each object.
const OF_NINE: [i64; 10] = [980, 971, 992, 983, 974, 995, 986, 977, 998, 989];

/// Writes each `n` below `RECORDS` to object `n % 10`, in turn for 7, 8 and 9. Returns the first `n` that is not
/// written or not read back.
fn first_not_written(objects: &mut Objects) -> Option<u64> {
    for n in 0..RECORDS {
        let x = n % 10;
        let written = write_once(objects, 7 + n % 3, x, n as i64) == Ok(());
        if !written || objects.value(Ob(x)) != Some(n as i64) {
            return Some(n);
        }
    }
    None
}

/// Returns whether the ten objects have these values.
fn shows(objects: &Objects, values: &[i64]) -> bool {
    let mut alike = true;
    for (x, value) in values.iter().enumerate() {
        alike = alike && objects.value(Ob(x as u64)) == Some(*value);
    }
    alike
}

/// Returns whether undo takes back the writes of one transaction alone, between those of others, and settle keeps
/// the newest writes of another.
fn ends_are_shown(objects: &mut Objects) -> bool {
    let written = shows(objects, &WRITTEN);
    objects.undo(Txn(8));
    let undone = shows(objects, &WITHOUT_EIGHT);
    objects.settle(Txn(9));
    let settled = shows(objects, &WITHOUT_EIGHT);
    objects.undo(Txn(7));
    written && undone && settled && shows(objects, &OF_NINE)
}

#[test]
fn thousand_writes_stand(rt: HostRuntime) -> Result<(), Fail> {
    let mut objects = Objects::open(rt.alloc(), &TEN)?;
    let missing = first_not_written(&mut objects);
    let shown = ends_are_shown(&mut objects);
    drop(objects);
    same(&rt, missing, None);
    holds(&rt, shown);
    Ok(())
}
