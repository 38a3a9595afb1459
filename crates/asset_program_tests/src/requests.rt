//! What arguments ask for.

use crate::asserts::same;
use crate::running::{list, run};
use asset_arguments::requested;
use asset_cli::{Report, Work};
use asset_program::Next;
use asset_requests::{Asked, JobsRequest, Limits, Request, Task, capacity_or_default, limits_of};
use std::alloc::{AllocError, Global};
use std::process::Abort;

/// Returns what the arguments ask for, if they are taken.
fn request(alloc: Global, texts: &[&str]) -> Result<Option<Asked>, AllocError> {
    let arguments = Ok(list(alloc, texts)?);
    Ok(requested(alloc, &arguments).ok())
}

/// Arguments that name a word, what that word makes of a script, and the capacity.
const WORDS: [(&[&str], Work, Option<u32>); 17] = [
    (&[], Work::Run, None),
    (&["run"], Work::Run, Some(10_000)),
    (&["run", "--cap", "4"], Work::Run, Some(4)),
    (&["run", "--cap", "1"], Work::Run, Some(1)),
    (&["run", "--cap=1000000"], Work::Run, Some(1_000_000)),
    (&["steps"], Work::Steps, Some(10_000)),
    (&["steps", "--cap", "9"], Work::Steps, Some(9)),
    (&["prune"], Work::Report(Report::Pruned), Some(10_000)),
    (
        &["prune", "--cap", "5"],
        Work::Report(Report::Pruned),
        Some(5),
    ),
    (&["groups"], Work::Report(Report::Groups), Some(10_000)),
    (
        &["groups", "--cap=6"],
        Work::Report(Report::Groups),
        Some(6),
    ),
    (&["sources"], Work::Sources, Some(10_000)),
    (&["sources", "--cap=8"], Work::Sources, Some(8)),
    (&["picture"], Work::Report(Report::Picture), Some(10_000)),
    (
        &["picture", "--cap=3"],
        Work::Report(Report::Picture),
        Some(3),
    ),
    (&["serial"], Work::Report(Report::Serial), Some(10_000)),
    (
        &["serial", "--cap", "7"],
        Work::Report(Report::Serial),
        Some(7),
    ),
];

#[test]
fn arguments_give_the_word_and_the_capacity(rt: HostRuntime) {
    for (texts, work, capacity) in WORDS {
        let asked = Asked::Script(Request {
            task: Task::Run(work),
            capacity,
        });
        assert_eq!(rt; request(rt.alloc(), texts), Ok(Some(asked)), "at {texts:?}");
    }
}

#[test]
fn arguments_ask_who_waits(rt: HostRuntime) {
    for (texts, capacity) in [(&["waits"][..], 10_000), (&["waits", "--cap", "4"][..], 4)] {
        let asked = Asked::Script(Request {
            task: Task::Waits,
            capacity: Some(capacity),
        });
        assert_eq!(rt; request(rt.alloc(), texts), Ok(Some(asked)), "at {texts:?}");
    }
}

#[test]
fn arguments_ask_for_a_check_or_a_conversation(rt: HostRuntime) {
    for (texts, asked) in [
        (&["check"][..], Asked::Check),
        (&["shell"][..], Asked::Shell(Some(10_000))),
        (&["shell", "--cap", "4"][..], Asked::Shell(Some(4))),
    ] {
        assert_eq!(rt; request(rt.alloc(), texts), Ok(Some(asked)), "at {texts:?}");
    }
}

#[test]
fn arguments_give_the_limits_of_jobs(rt: HostRuntime) {
    for (texts, capacity, workers, turns) in [
        (&["jobs"][..], 10_000, 2, 1_000),
        (&["jobs", "--cap", "4"][..], 4, 2, 1_000),
        (&["jobs", "--workers", "64"][..], 10_000, 64, 1_000),
        (&["jobs", "--turns=0"][..], 10_000, 2, 0),
        (
            &["jobs", "--turns", "1000000", "--workers", "1"][..],
            10_000,
            1,
            1_000_000,
        ),
    ] {
        let asked = JobsRequest {
            capacity: Some(capacity),
            workers: Some(workers),
            turns: Some(turns),
        };
        assert_eq!(rt;
            request(rt.alloc(), texts),
            Ok(Some(Asked::Jobs(asked))),
            "at {texts:?}"
        );
    }
}

#[test]
fn jobs_are_handed_back(rt: HostRuntime) {
    let mut written = Vec::new(rt.alloc());
    let mut complaints = Vec::new(rt.alloc());
    let texts = &["jobs", "--cap", "4"];
    let next = run(rt.alloc(), texts, b"job 1\n", &mut written, &mut complaints);
    let asked = JobsRequest {
        capacity: Some(4),
        workers: Some(2),
        turns: Some(1_000),
    };
    same(&rt, next, Ok(Next::Jobs(asked)));
    same(&rt, (written.len(), complaints.len()), (0, 0));
}

/// Returns the limits of jobs whose arguments ask for these numbers.
fn limits(capacity: Option<u32>, workers: Option<u32>, turns: Option<u32>) -> Option<Limits> {
    limits_of(JobsRequest {
        capacity,
        workers,
        turns,
    })
}

#[test]
fn limits_out_of_range_are_none(rt: HostRuntime) {
    let usual = Limits {
        capacity: 10_000,
        workers: 2,
        turns: 1_000,
    };
    same(&rt, limits(None, None, None), Some(usual));
    same(&rt, limits(Some(0), None, None), None);
    same(&rt, limits(None, Some(0), None), None);
    same(&rt, limits(None, Some(65), None), None);
    same(&rt, limits(None, None, Some(1_000_001)), None);
}

#[test]
fn refused_arguments_ask_for_nothing(rt: HostRuntime) {
    for texts in [
        &["job"][..],
        &["run", "x"][..],
        &["--help"][..],
        &["run", "--workers", "2"][..],
        &["jobs", "--workers", "0"][..],
        &["jobs", "--workers", "65"][..],
        &["jobs", "--turns", "1000001"][..],
        &["jobs", "--cap", "0"][..],
        &["check", "--cap", "4"][..],
        &["check", "x"][..],
        &["shell", "--cap", "0"][..],
    ] {
        assert_eq!(rt; request(rt.alloc(), texts), Ok(None), "at {texts:?}");
    }
}

#[test]
fn number_out_of_range_is_no_capacity(rt: HostRuntime) {
    for (requested, expected) in [
        (None, Some(10_000)),
        (Some(0), None),
        (Some(1), Some(1)),
        (Some(1_000_000), Some(1_000_000)),
        (Some(1_000_001), None),
    ] {
        assert_eq!(rt; capacity_or_default(requested), expected);
    }
}
