//! The lines that say how jobs ended.

use asset_bodies::JobEnd;
use asset_jobs::{JobText, rows_of, write_jobs};
use asset_manager::AuditFault;
use asset_names::{Counts, Txn};
use asset_scripts::Device;
use std::alloc::Global;
use std::test::Fail;

const COUNTS: Counts = Counts {
    entries: 12,
    committed: 2,
    aborted: 1,
};

/// The jobs of a script, in order.
const NAMES: [Txn; 4] = [Txn(9), Txn(7), Txn(18446744073709551615), Txn(8)];

/// How those of them ended that were begun, in another order.
const ENDS: [(Txn, JobEnd); 3] = [
    (Txn(7), JobEnd::Aborted),
    (Txn(8), JobEnd::Unsettled),
    (Txn(9), JobEnd::Committed),
];

#[test]
fn jobs_without_an_end_were_not_begun(rt: HostRuntime) -> Result<(), Fail> {
    let rows = rows_of(rt.alloc(), &NAMES, &ENDS)?;
    let wanted = [
        (Txn(9), JobText::Committed),
        (Txn(7), JobText::Aborted),
        (Txn(18446744073709551615), JobText::NotBegun),
        (Txn(8), JobText::Unsettled),
    ];
    assert_eq!(rt; rows.as_slice(), wanted.as_slice());
    Ok(())
}

/// Returns the text of four jobs and an audit.
fn text_of(alloc: Global, audit: Result<(), AuditFault>) -> Result<Vec<u8>, Fail> {
    let rows = rows_of(alloc, &NAMES, &ENDS)?;
    let mut written = Vec::new(alloc);
    let mut output = Device::new(&mut written);
    write_jobs(alloc, &mut output, &rows, &audit, COUNTS)?;
    drop(rows);
    Ok(written)
}

#[test]
fn rows_and_audit_are_written(rt: HostRuntime) -> Result<(), Fail> {
    let written = text_of(rt.alloc(), Ok(()))?;
    assert_eq!(rt;
        str::from_utf8(&written)?,
        "job 9 committed\njob 7 aborted\njob 18446744073709551615 not begun\njob 8 unsettled\n\
        audit ok entries 12 committed 2 aborted 1\n"
    );
    Ok(())
}

#[test]
fn what_differs_is_written(rt: HostRuntime) -> Result<(), Fail> {
    let fault = AuditFault::Differs {
        session: 3,
        number: 41,
    };
    let written = text_of(rt.alloc(), Err(fault))?;
    assert!(rt; str::from_utf8(&written)?.ends_with("job 8 unsettled\naudit differs 3 41\n"));
    Ok(())
}

#[test]
fn what_is_missing_is_written(rt: HostRuntime) -> Result<(), Fail> {
    let fault = AuditFault::Missing { told: 6, kept: 10 };
    let written = text_of(rt.alloc(), Err(fault))?;
    assert!(rt; str::from_utf8(&written)?.ends_with("job 8 unsettled\naudit missing 6 10\n"));
    Ok(())
}
