//! Transactions that run a child, and transactions that tie themselves to others.

use crate::bodies::Task::{OpensOne, RunsChild, SharesWithEight};
use crate::bodies::Work::{AnswersFor, GivesUp, Writes};
use crate::cases::{Case, NO_JOBS};
use asset_runner::JobEnd;

/// A job that commits.
const COMMITS: Case<'static> = Case {
    ends: &[(7, JobEnd::Committed)],
    ..NO_JOBS
};

/// One job, which runs a child or ties itself to others.
pub(crate) const CHILDREN: &[Case<'static>] = &[
    Case {
        name: "child_commits",
        jobs: &[(7, RunsChild(8, Writes(2, 80)))],
        history: "\
            initiate 7: ok\nbegin 7: ok\nwrite 7 1 50: ok\ninitiate 8 7: ok\npermit 7 8 rwa all: ok\nbegin 8: ok\n\
            write 8 2 80: ok\ncomplete 8: ok\ndelegate 8 7 all: ok\ncommit 8: committed\nread 7 2: 80\ncomplete 7: ok\n\
            commit 7: committed\n",
        counts: (13, 2, 0),
        notes: (1, 80),
        ..COMMITS
    },
    Case {
        name: "child_gives_up",
        jobs: &[(7, RunsChild(8, GivesUp(2, 80)))],
        history: "\
            initiate 7: ok\nbegin 7: ok\nwrite 7 1 50: ok\ninitiate 8 7: ok\npermit 7 8 rwa all: ok\nbegin 8: ok\n\
            write 8 2 80: ok\nabort 8: aborted\nread 7 2: 200\ncomplete 7: ok\ncommit 7: committed\n",
        counts: (11, 1, 1),
        notes: (2, 200),
        ..COMMITS
    },
    Case {
        name: "child_that_answers_for_another_is_a_stranger",
        jobs: &[(7, RunsChild(8, AnswersFor(9)))],
        history: "\
            initiate 7: ok\nbegin 7: ok\nwrite 7 1 50: ok\ninitiate 8 7: ok\npermit 7 8 rwa all: ok\nbegin 8: ok\n\
            complete 8: ok\ncomplete 9: refused unknown 9\nread 7 2: 200\ncomplete 7: ok\ncommit 7: committed\n",
        counts: (11, 1, 0),
        notes: (5, 200),
        ..COMMITS
    },
    Case {
        name: "child_of_a_taken_name_is_not_begun",
        jobs: &[(7, RunsChild(7, Writes(2, 80)))],
        history: "\
            initiate 7: ok\nbegin 7: ok\nwrite 7 1 50: ok\ninitiate 7 7: refused taken 7\nread 7 2: 200\ncomplete 7: ok\n\
            commit 7: committed\n",
        counts: (7, 1, 0),
        notes: (4, 200),
        ..COMMITS
    },
    Case {
        name: "body_permits_delegates_and_depends",
        before: "initiate 8: ok\n",
        jobs: &[(7, SharesWithEight)],
        history: "\
            initiate 8: ok\ninitiate 7: ok\nbegin 7: ok\npermit 7 8 rw all: ok\ndelegate 7 8 all: ok\ndepend cd 7 8: ok\n\
            complete 7: ok\ncommit 7: committed\n",
        counts: (8, 1, 0),
        notes: (0, 3),
        ..COMMITS
    },
    Case {
        name: "body_permits_anybody",
        jobs: &[(7, OpensOne)],
        history: "\
            initiate 7: ok\nbegin 7: ok\npermit 7 any r 1: ok\ncomplete 7: ok\ncommit 7: committed\n",
        counts: (5, 1, 0),
        notes: (0, 1),
        ..COMMITS
    },
];
