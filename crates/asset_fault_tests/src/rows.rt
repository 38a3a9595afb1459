//! Scripts that have every step among them but an add and an open permit, and what each of six words writes of them.

use asset_scripts::RunEnd;

/// A script, and what each word writes of it and how that ends, in the order of `WORDS`.
#[derive(Clone, Copy)]
pub(crate) struct Row {
    pub(crate) script: &'static [u8],
    pub(crate) texts: [(&'static str, RunEnd); 6],
}

/// One transaction that reads, writes and commits.
pub(crate) const ONE: Row = Row {
    script: b"object 1 100\nobject 2 200\nobject 3 300\ninitiate 7\nbegin 7\nread 7 1\nwrite 7 1 50\nread 7 1\ncomplete 7\n\
        commit 7\n",
    texts: [
        ("ok\nok\n100\nok\n50\nok\ncommitted\n", RunEnd::Finished),
        (
            "object 1 100\nobject 2 200\nobject 3 300\ninitiate 7\nbegin 7\nread 7 1\nwrite 7 1 50\nread 7 1\ncomplete 7\n\
            commit 7\n",
            RunEnd::Finished,
        ),
        ("0 committed 7\n", RunEnd::Finished),
        (
            "2 read 7 1 100 opening\n4 read 7 1 50 entry 3\n",
            RunEnd::Finished,
        ),
        (
            "object 1 100\nobject 2 200\nobject 3 300\ninitiate 7\nbegin 7\nread 7 1\nwrite 7 1 50\nread 7 1\ncomplete 7\n\
            commit 7\n",
            RunEnd::Finished,
        ),
        (
            "\
            4       0       initiate 7                      ok\n\
            5       1       begin 7                         ok\n\
            6       2       read 7 1                        100\n\
            7       3       write 7 1 50                    ok\n\
            8       4       read 7 1                        50\n\
            9       5       complete 7                      ok\n\
            10      6       commit 7                        committed\n",
            RunEnd::Finished,
        ),
    ],
};

/// Work that is permitted and handed over. Nobody ends.
pub(crate) const HANDED_OVER: Row = Row {
    script: b"object 1 100\nobject 2 200\nobject 3 300\ninitiate 7\nbegin 7\ninitiate 8\nbegin 8\ninitiate 9\nbegin 9\n\
        write 7 1 50\nwrite 8 2 80\npermit 7 9 rw all\ndelegate 7 8 1\nread 7 1\nread 9 1\nread 9 2\ndelegate 7 8 all\n\
        read 9 2\n",
    texts: [
        (
            "ok\nok\nok\nok\nok\nok\nok\nok\nok\nok\nwait\n50\nwait\nok\nwait\n",
            RunEnd::Finished,
        ),
        (
            "object 1 100\nobject 2 200\nobject 3 300\n",
            RunEnd::Finished,
        ),
        ("0 dead 7 8 9\n", RunEnd::Finished),
        ("10 read 9 1 50 entry 6\n", RunEnd::Finished),
        (
            "object 1 100\nobject 2 200\nobject 3 300\n",
            RunEnd::Finished,
        ),
        (
            "\
            4       0       initiate 7                      ok\n\
            5       1       begin 7                         ok\n\
            6       2       initiate 8                      ok\n\
            7       3       begin 8                         ok\n\
            8       4       initiate 9                      ok\n\
            9       5       begin 9                         ok\n\
            10      6       write 7 1 50                    ok\n\
            11      7       write 8 2 80                    ok\n\
            12      8       permit 7 9 rw all               ok\n\
            13      9       delegate 7 8 1                  ok\n\
            14      -       read 7 1                        wait\n\
            15      10      read 9 1                        50\n\
            16      -       read 9 2                        wait\n\
            17      11      delegate 7 8 all                ok\n\
            18      -       read 9 2                        wait\n",
            RunEnd::Finished,
        ),
    ],
};

/// Two that commit together.
pub(crate) const TOGETHER: Row = Row {
    script: b"object 1 100\nobject 2 200\nobject 3 300\ninitiate 7\nbegin 7\ninitiate 8\nbegin 8\ndepend gc 7 8\ncommit 7\n\
        complete 7\ncommit 7\ncomplete 8\ncommit 7\ncommit 8\nabort 8\nwait 8\n",
    texts: [
        (
            "ok\nok\nok\nok\nok\nwait\nok\nwait\nok\ncommitted\ncommitted\nrefused too late 8\ncommitted\n",
            RunEnd::Finished,
        ),
        (
            "object 1 100\nobject 2 200\nobject 3 300\ninitiate 7\nbegin 7\ninitiate 8\nbegin 8\ndepend gc 7 8\ncomplete 7\n\
            complete 8\ncommit 7\ncommit 8\nabort 8\nwait 8\n",
            RunEnd::Finished,
        ),
        ("0 committed 7 8\n", RunEnd::Finished),
        ("", RunEnd::Finished),
        ("shared\n", RunEnd::Shared),
        (
            "\
            4       0       initiate 7                      ok\n\
            5       1       begin 7                         ok\n\
            6       2       initiate 8                      ok\n\
            7       3       begin 8                         ok\n\
            8       4       depend gc 7 8                   ok\n\
            9       -       commit 7                        wait\n\
            10      5       complete 7                      ok\n\
            11      -       commit 7                        wait\n\
            12      6       complete 8                      ok\n\
            13      7       commit 7                        committed\n\
            14      8       commit 8                        committed\n\
            15      9       abort 8                         refused too late 8\n\
            16      10      wait 8                          committed\n",
            RunEnd::Finished,
        ),
    ],
};

/// Three that share nothing: one aborts, one is left, one commits.
pub(crate) const APART: Row = Row {
    script: b"object 1 100\nobject 2 200\nobject 3 300\ninitiate 7\nbegin 7\ninitiate 8\nbegin 8\ninitiate 9\nbegin 9\n\
        write 7 1 11\nwrite 8 2 22\nread 9 3\nwrite 9 3 33\nabort 7\nread 9 1\ncomplete 9\ncommit 9\n",
    texts: [
        (
            "ok\nok\nok\nok\nok\nok\nok\nok\n300\nok\naborted\n100\nok\ncommitted\n",
            RunEnd::Finished,
        ),
        (
            "object 1 100\nobject 2 200\nobject 3 300\ninitiate 9\nbegin 9\nread 9 3\nwrite 9 3 33\nread 9 1\ncomplete 9\n\
            commit 9\n",
            RunEnd::Finished,
        ),
        ("0 dead 7\n1 dead 8\n2 committed 9\n", RunEnd::Finished),
        (
            "8 read 9 3 300 opening\n11 read 9 1 100 opening\n",
            RunEnd::Finished,
        ),
        (
            "object 1 100\nobject 2 200\nobject 3 300\ninitiate 9\nbegin 9\nread 9 3\nwrite 9 3 33\nread 9 1\ncomplete 9\n\
            commit 9\n",
            RunEnd::Finished,
        ),
        (
            "\
            4       0       initiate 7                      ok\n\
            5       1       begin 7                         ok\n\
            6       2       initiate 8                      ok\n\
            7       3       begin 8                         ok\n\
            8       4       initiate 9                      ok\n\
            9       5       begin 9                         ok\n\
            10      6       write 7 1 11                    ok\n\
            11      7       write 8 2 22                    ok\n\
            12      8       read 9 3                        300\n\
            13      9       write 9 3 33                    ok\n\
            14      10      abort 7                         aborted\n\
            15      11      read 9 1                        100\n\
            16      12      complete 9                      ok\n\
            17      13      commit 9                        committed\n",
            RunEnd::Finished,
        ),
    ],
};

/// All of these.
pub(crate) const ROWS: [Row; 4] = [ONE, HANDED_OVER, TOGETHER, APART];
