//! Whole scripts: what a line said before counts, if it was good.

use crate::checks::gives;
use asset_scripts::RunEnd;

/// Scripts, with what is printed of each and how the check of it ends.
const ROWS: [(&[u8], &str, RunEnd); 8] = [
    (b"", "", RunEnd::Finished),
    (b"object 1 5\nbegin 7\nread 7 1\n", "", RunEnd::Finished),
    (b"object 1 5\nbegin 7\nread 7 1", "", RunEnd::Finished),
    (
        b"object 1 5\nobject 2 6\nobject 1 7\nobject 2 8\n",
        "line 3: object 1 given twice\nline 4: object 2 given twice\n",
        RunEnd::BadLine(3),
    ),
    (
        b"object 1 x\nobject 1 5\nobject 1 6\n",
        "line 1: not a value: x\nline 3: object 1 given twice\n",
        RunEnd::BadLine(1),
    ),
    (
        b"begin\nobject 1 5\nbegin 7\nobject 2 5\nobject 1 5\n",
        "line 1: begin wants t\nline 4: object after a step\nline 5: object after a step\n",
        RunEnd::BadLine(1),
    ),
    (
        b"# a comment\n\nBegin 7\r\n\r\nobject 1 5 \nread 7 1",
        "line 3: carriage return before the end\nline 4: carriage return before the end\nline 5: space at the end\n",
        RunEnd::BadLine(3),
    ),
    (
        b"begin 7\nobject 1 5 5\nobject 1 5\n\nread 7\n",
        "line 2: object wants x v\nline 3: object after a step\nline 5: read wants t x\n",
        RunEnd::BadLine(2),
    ),
];

#[test]
fn scripts_are_checked_to_their_ends(rt: HostRuntime) {
    for (index, (script, text, end)) in ROWS.iter().enumerate() {
        assert!(rt; gives(rt.alloc(), script, text, *end), "at {index}");
    }
}
