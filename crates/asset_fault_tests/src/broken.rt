//! Broken scripts, by each word: what stands before the first bad line is run, and reports name that line alone.

use crate::scripts::{Left, WORDS, is_stopped, is_whole, run};
use asset_cli::Work;
use asset_scripts::{RunEnd, ScriptFault};
use asset_test_tools::{after_comment, taking};
use std::alloc::Global;

/// Runs a script after a comment. If memory runs out once, it is run again.
fn run_again(alloc: Global, work: Work, comment: usize, script: &[u8], text: &str) -> Left {
    let reader = after_comment(comment, script, 65_536);
    let left = run(alloc, work, reader, taking(text));
    if !is_stopped(&left, ScriptFault::NoMemory, text.len()) {
        return left;
    }
    let reader = after_comment(comment, script, 65_536);
    run(alloc, work, reader, taking(text))
}

/// Returns the first word that does not write its text of a script after a comment, or does not end so.
fn first_wrong_word(
    alloc: Global,
    comment: usize,
    script: &[u8],
    texts: [&str; 6],
    end: RunEnd,
) -> Option<usize> {
    for word in 0..6usize {
        let left = run_again(alloc, WORDS[word], comment, script, texts[word]);
        if !is_whole(&left, end) {
            return Some(word);
        }
    }
    None
}

/// The rest of the last line is a line too.
#[test]
fn cut_in_a_number(rt: HostRuntime) {
    let script =
        b"object 1 100\nobject 2 200\nobject 3 300\ninitiate 7\nbegin 7\nread 7 1\nwrite 7 1 5";
    let texts = [
        "ok\nok\n100\nok\n",
        "object 1 100\nobject 2 200\nobject 3 300\n",
        "0 dead 7\n",
        "2 read 7 1 100 opening\n",
        "object 1 100\nobject 2 200\nobject 3 300\n",
        "\
        4       0       initiate 7                      ok\n\
        5       1       begin 7                         ok\n\
        6       2       read 7 1                        100\n\
        7       3       write 7 1 5                     ok\n",
    ];
    let wrong = first_wrong_word(rt.alloc(), 0, script, texts, RunEnd::Finished);
    assert_eq!(rt; wrong, None);
}

/// What a script writes of which a line is bad: its first outcomes and the text of that line, that text alone, or its first steps
/// with their outcomes and that text.
fn bad_texts<'a>(transcript: &'a str, line: &'a str, listing: &'a str) -> [&'a str; 6] {
    [transcript, line, line, line, line, listing]
}

#[test]
fn cut_after_a_space(rt: HostRuntime) {
    let script =
        b"object 1 100\nobject 2 200\nobject 3 300\ninitiate 7\nbegin 7\nread 7 1\nwrite 7 1 50\nread 7 1\n\
        complete 7\ncommit ";
    let texts = bad_texts(
        "ok\nok\n100\nok\n50\nok\nline 10: bad command\n",
        "line 10: bad command\n",
        "\
        4       0       initiate 7                      ok\n\
        5       1       begin 7                         ok\n\
        6       2       read 7 1                        100\n\
        7       3       write 7 1 50                    ok\n\
        8       4       read 7 1                        50\n\
        9       5       complete 7                      ok\n\
        line 10: bad command\n",
    );
    let wrong = first_wrong_word(rt.alloc(), 0, script, texts, RunEnd::BadLine(10));
    assert_eq!(rt; wrong, None);
}

#[test]
fn cut_after_a_word(rt: HostRuntime) {
    let texts = bad_texts(
        "ok\nline 2: bad command\n",
        "line 2: bad command\n",
        "\
        1       0       initiate 7                      ok\n\
        line 2: bad command\n",
    );
    let wrong = first_wrong_word(
        rt.alloc(),
        0,
        b"initiate 7\nbegin",
        texts,
        RunEnd::BadLine(2),
    );
    assert_eq!(rt; wrong, None);
}

#[test]
fn carriage_return(rt: HostRuntime) {
    let texts = ["line 1: bad command\n"; 6];
    let wrong = first_wrong_word(rt.alloc(), 0, b"initiate 7\r\n", texts, RunEnd::BadLine(1));
    assert_eq!(rt; wrong, None);
}

#[test]
fn longest_comment(rt: HostRuntime) {
    let texts = [
        "ok\n",
        "",
        "0 dead 7\n",
        "",
        "",
        "2       0       initiate 7                      ok\n",
    ];
    let wrong = first_wrong_word(
        rt.alloc(),
        4_096,
        b"\ninitiate 7\n",
        texts,
        RunEnd::Finished,
    );
    assert_eq!(rt; wrong, None);
}

#[test]
fn comment_too_long(rt: HostRuntime) {
    let texts = ["line 1: bad command\n"; 6];
    let wrong = first_wrong_word(
        rt.alloc(),
        4_097,
        b"\ninitiate 7\n",
        texts,
        RunEnd::BadLine(1),
    );
    assert_eq!(rt; wrong, None);
}

#[test]
fn object_after_a_step(rt: HostRuntime) {
    let script = b"object 1 100\ninitiate 7\nobject 2 5\n";
    let texts = bad_texts(
        "ok\nline 3: bad command\n",
        "line 3: bad command\n",
        "2       0       initiate 7                      ok\nline 3: bad command\n",
    );
    let wrong = first_wrong_word(rt.alloc(), 0, script, texts, RunEnd::BadLine(3));
    assert_eq!(rt; wrong, None);
}

#[test]
fn number_too_large(rt: HostRuntime) {
    let texts = ["line 1: bad command\n"; 6];
    let script = b"initiate 18446744073709551616\n";
    let wrong = first_wrong_word(rt.alloc(), 0, script, texts, RunEnd::BadLine(1));
    assert_eq!(rt; wrong, None);
}
