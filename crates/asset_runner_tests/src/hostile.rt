//! Bodies that do nothing, ignore an answer to wait, wait or answer for one another, and jobs that somebody else aborts.

use crate::bodies::Task::Does;
use crate::bodies::Work::{AnswersFor, GivesUp, Nothing, WaitsFor, Writes};
use crate::cases::{Case, NO_JOBS};
use crate::running::Closing;
use asset_manager::AuditFault;
use asset_names::{Ob, Txn};
use asset_runner::{JobEnd, RunCause};

const THREE_COMMIT: [(u64, JobEnd); 3] = [
    (7, JobEnd::Committed),
    (8, JobEnd::Committed),
    (9, JobEnd::Committed),
];

/// 5 is initiated, begins and writes object 1.
const FIVE_WRITES: &str = "initiate 5: ok\nbegin 5: ok\nwrite 5 1 5: ok\n";

/// A plan without jobs, in which an operation that waits is asked again three times.
const THREE_TURNS: Case<'static> = Case {
    turns: Some(3),
    ..NO_JOBS
};

/// A job that the other session aborts before it is run.
const ABORTED_JOB: Case<'static> = Case {
    jobs: &[(7, Does(Nothing))],
    after: "abort 7: aborted\n",
    left: &[7],
    history: "initiate 7: ok\nabort 7: aborted\nbegin 7: refused ended 7\n",
    counts: (3, 0, 1),
    ..THREE_TURNS
};

/// Bodies and sessions that do not behave.
pub(crate) const HOSTILE: &[Case<'static>] = &[
    Case {
        name: "one_worker_does_three_jobs",
        jobs: &[(7, Does(Nothing)), (8, Does(Nothing)), (9, Does(Nothing))],
        ends: &THREE_COMMIT,
        history: "\
            initiate 7: ok\ninitiate 8: ok\ninitiate 9: ok\nbegin 7: ok\ncomplete 7: ok\ncommit 7: committed\n\
            begin 8: ok\ncomplete 8: ok\ncommit 8: committed\nbegin 9: ok\ncomplete 9: ok\ncommit 9: committed\n",
        counts: (12, 3, 0),
        ..THREE_TURNS
    },
    Case {
        name: "body_that_waits_gives_up",
        before: FIVE_WRITES,
        jobs: &[(7, Does(GivesUp(1, 70)))],
        ends: &[(7, JobEnd::Aborted)],
        history: "initiate 5: ok\nbegin 5: ok\nwrite 5 1 5: ok\ninitiate 7: ok\nbegin 7: ok\nabort 7: aborted\n",
        counts: (6, 0, 1),
        ..THREE_TURNS
    },
    Case {
        name: "body_that_ignores_a_wait_commits",
        before: FIVE_WRITES,
        jobs: &[(7, Does(Writes(1, 70)))],
        closing: Closing::AfterRead(Txn(5), Ob(1)),
        ends: &[(7, JobEnd::Committed)],
        history: "\
            initiate 5: ok\nbegin 5: ok\nwrite 5 1 5: ok\ninitiate 7: ok\nbegin 7: ok\ncomplete 7: ok\n\
            commit 7: committed\nread 5 1: 5\n",
        counts: (7, 1, 0),
        ..THREE_TURNS
    },
    Case {
        name: "commit_that_waits_is_asked_again",
        jobs: &[(7, Does(WaitsFor(8))), (8, Does(Nothing))],
        ends: &[(7, JobEnd::Committed), (8, JobEnd::Committed)],
        history: "\
            initiate 7: ok\ninitiate 8: ok\nbegin 7: ok\ndepend cd 8 7: ok\ncomplete 7: ok\nbegin 8: ok\ncomplete 8: ok\n\
            commit 8: committed\ncommit 7: committed\n",
        counts: (9, 2, 0),
        ..THREE_TURNS
    },
    Case {
        name: "commits_that_wait_in_a_row_are_asked_in_passes",
        jobs: &[
            (7, Does(WaitsFor(8))),
            (8, Does(WaitsFor(9))),
            (9, Does(Nothing)),
        ],
        ends: &THREE_COMMIT,
        history: "\
            initiate 7: ok\ninitiate 8: ok\ninitiate 9: ok\nbegin 7: ok\ndepend cd 8 7: ok\ncomplete 7: ok\n\
            begin 8: ok\ndepend cd 9 8: ok\ncomplete 8: ok\nbegin 9: ok\ncomplete 9: ok\ncommit 9: committed\n\
            commit 8: committed\ncommit 7: committed\n",
        counts: (14, 3, 0),
        ..THREE_TURNS
    },
    Case {
        name: "commit_that_goes_on_waiting_is_unsettled",
        before: "initiate 5: ok\n",
        jobs: &[(7, Does(WaitsFor(5)))],
        ends: &[(7, JobEnd::Unsettled)],
        history: "initiate 5: ok\ninitiate 7: ok\nbegin 7: ok\ndepend cd 5 7: ok\ncomplete 7: ok\n",
        counts: (5, 0, 0),
        ..THREE_TURNS
    },
    Case {
        name: "job_that_somebody_aborts_is_left",
        ..ABORTED_JOB
    },
    Case {
        name: "session_of_the_aborter_is_missed",
        closing: Closing::WithoutOther,
        audit: Err(AuditFault::Missing { told: 2, kept: 3 }),
        ..ABORTED_JOB
    },
    Case {
        name: "bodies_that_answer_for_each_other_are_strangers",
        jobs: &[(7, Does(AnswersFor(8))), (8, Does(AnswersFor(7)))],
        ends: &[(7, JobEnd::Committed), (8, JobEnd::Committed)],
        cause: Some(RunCause::Stranger(Txn(7))),
        history: "\
            initiate 7: ok\ninitiate 8: ok\nbegin 7: ok\ncomplete 7: ok\ncomplete 8: refused not running 8\n\
            begin 8: ok\ncomplete 8: ok\ncomplete 7: refused not running 7\ncommit 7: committed\ncommit 8: committed\n",
        counts: (10, 2, 0),
        ..THREE_TURNS
    },
];
