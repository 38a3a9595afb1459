//! Plans of up to two jobs.

use crate::bodies::Task::Does;
use crate::bodies::Work::{GivesUp, Nothing, Writes};
use crate::cases::{Case, NO_JOBS};
use crate::running::Closing;
use asset_manager::AuditFault;
use asset_names::{Refusal, Txn};
use asset_runner::{Cause, JobEnd, RunCause};

/// Two jobs that write, on two workers, of which 8 is done before 7 begins.
const EIGHT_FIRST: Case<'static> = Case {
    jobs: &[(7, Does(Writes(1, 150))), (8, Does(Writes(2, 250)))],
    workers: 2,
    held: Some(Txn(7)),
    ends: &[(7, JobEnd::Committed), (8, JobEnd::Committed)],
    history: "\
        initiate 7: ok\ninitiate 8: ok\nbegin 8: ok\nwrite 8 2 250: ok\ncomplete 8: ok\ncommit 8: committed\n\
        begin 7: ok\nwrite 7 1 150: ok\ncomplete 7: ok\ncommit 7: committed\n",
    counts: (10, 2, 0),
    ..NO_JOBS
};

/// Up to two jobs.
pub(crate) const ROWS: &[Case<'static>] = &[
    Case {
        name: "two_workers_at_once",
        ..EIGHT_FIRST
    },
    Case {
        name: "session_kept_back_is_missed",
        closing: Closing::WithoutLastJob,
        audit: Err(AuditFault::Missing { told: 6, kept: 10 }),
        ..EIGHT_FIRST
    },
    Case {
        name: "body_gives_up",
        jobs: &[(7, Does(GivesUp(1, 50)))],
        ends: &[(7, JobEnd::Aborted)],
        history: "initiate 7: ok\nbegin 7: ok\nwrite 7 1 50: ok\nabort 7: aborted\n",
        counts: (4, 0, 1),
        ..NO_JOBS
    },
    Case {
        name: "no_workers_leave_all_jobs",
        jobs: &[(7, Does(Nothing)), (8, Does(Nothing))],
        workers: 0,
        left: &[7, 8],
        cause: Some(RunCause::NoWorkers),
        history: "initiate 7: ok\ninitiate 8: ok\n",
        counts: (2, 0, 0),
        ..NO_JOBS
    },
    Case {
        name: "plan_without_jobs_wants_workers_too",
        workers: 0,
        cause: Some(RunCause::NoWorkers),
        ..NO_JOBS
    },
    Case {
        name: "plan_without_jobs_gives_its_session_back",
        workers: 1_000,
        ..NO_JOBS
    },
    Case {
        name: "name_that_is_taken_is_refused",
        turns: None,
        jobs: &[(7, Does(Nothing)), (7, Does(Writes(1, 50)))],
        workers: 3,
        refused: Some(Cause::Refused(Refusal::Taken(Txn(7)))),
        ends: &[(7, JobEnd::Committed)],
        history: "initiate 7: ok\ninitiate 7: refused taken 7\nbegin 7: ok\ncomplete 7: ok\ncommit 7: committed\n",
        counts: (5, 1, 0),
        ..NO_JOBS
    },
];
