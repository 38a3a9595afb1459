//! What job scripts say, and which of their lines are bad.

use crate::asserts::same;
use asset_jobs::{JobAct, JobScript, JobsFault, names_of, read_jobs};
use asset_names::{Ob, Txn};
use asset_scripts::Device;
use std::alloc::Global;
use std::test::Fail;

/// Returns what a script says.
fn read(alloc: Global, script: &[u8]) -> Result<JobScript, JobsFault> {
    let mut input = Device::new(script);
    read_jobs(alloc, &mut input)
}

/// Two jobs over one object, between lines that say nothing.
const TWO_JOBS: &[u8] =
    b"# two jobs\nobject 1 100\n\njob 7\nread 1\nwrite 1 -5\nadd 1 -3\njob 8\n# it gives up at once\ngive up\nread 2";

#[test]
fn script_says_its_objects_and_jobs(rt: HostRuntime) -> Result<(), Fail> {
    let script = read(rt.alloc(), TWO_JOBS)?;
    same(&rt, script.opening.as_slice(), [(Ob(1), 100)].as_slice());
    assert_eq!(rt; script.jobs.len(), 2);
    same(&rt, script.jobs[0].0, Txn(7));
    same(
        &rt,
        script.jobs[0].1.as_slice(),
        [
            JobAct::Read(Ob(1)),
            JobAct::Write(Ob(1), -5),
            JobAct::Add(Ob(1), -3),
        ]
        .as_slice(),
    );
    same(&rt, script.jobs[1].0, Txn(8));
    same(
        &rt,
        script.jobs[1].1.as_slice(),
        [JobAct::GiveUp, JobAct::Read(Ob(2))].as_slice(),
    );
    Ok(())
}

#[test]
fn names_are_those_of_the_jobs(rt: HostRuntime) -> Result<(), Fail> {
    let script = read(rt.alloc(), TWO_JOBS)?;
    let names = names_of(rt.alloc(), &script.jobs)?;
    assert_eq!(rt; names.as_slice(), [Txn(7), Txn(8)].as_slice());
    Ok(())
}

/// Returns the number of the first bad line of a script, and 0 if none is bad.
fn bad_line(alloc: Global, script: &[u8]) -> u64 {
    match read(alloc, script) {
        Ok(_script) => 0,
        Err(JobsFault::BadLine(number)) => number,
        Err(_) => u64::MAX,
    }
}

#[test]
fn first_bad_line_is_named(rt: HostRuntime) {
    let rows: [(&[u8], u64); 16] = [
        (b"", 0),
        (b"job 7", 0),
        (
            b"job 18446744073709551615\nwrite 18446744073709551615 -9223372036854775808\n",
            0,
        ),
        (b"read 1\n", 1),
        (b"object 1 1\nwrite 1 2\n", 2),
        (b"give up\n", 1),
        (b"job 7\njob 8\njob 7\n", 3),
        (b"object 1 1\nobject 1 2\n", 2),
        (b"job 7\nobject 1 1\n", 2),
        (b"job 07\n", 1),
        (b"job 18446744073709551616\n", 1),
        (b"job 7\nwrite 1 9223372036854775808\n", 2),
        (b"job 7\ngive  up\n", 2),
        (b"job 7\nread 1 \n", 2),
        (b"job 7\r\n", 1),
        (b"job 7\n\n# a remark\nbegin 7\nread x\n", 4),
    ];
    for (script, number) in rows {
        assert_eq!(rt; bad_line(rt.alloc(), script), number);
    }
}

#[test]
fn long_lines_are_bad(rt: HostRuntime) -> Result<(), Fail> {
    let mut script = vec![in rt.alloc(); b'#'; 4_096]?;
    same(&rt, bad_line(rt.alloc(), &script), 0);
    script.push(b'#')?;
    same(&rt, bad_line(rt.alloc(), &script), 1);
    Ok(())
}
