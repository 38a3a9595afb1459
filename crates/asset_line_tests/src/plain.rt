//! The parser by words: it cuts a line at its spaces, and parses each word. It has no contracts; the tests compare with it.

mod operands;
mod sets;
mod words;

use asset_names::{Ob, Step};
use words::Words;

/// The first word of an object line.
const OBJECT: &[u8] = b"object";

/// What a line of a script is.
#[derive(Clone, Copy)]
pub(crate) enum PlainLine {
    /// It says nothing.
    Blank,
    /// It adds an object with this value.
    Object((Ob, i64)),
    /// It asks for a step.
    Ask(Step),
    /// It is no line of a script.
    Bad,
}

/// Returns the step of a keyword that one transaction follows.
fn short_step(word: &[u8], words: Words<'_>) -> Option<Step> {
    let t = operands::one_txn(words)?;
    match word {
        b"begin" => Some(Step::Begin { t }),
        b"complete" => Some(Step::Complete { t }),
        b"commit" => Some(Step::Commit { t }),
        b"abort" => Some(Step::Abort { t }),
        b"wait" => Some(Step::WaitFor { t }),
        _ => None,
    }
}

/// Returns the step that a first word and the words after it ask for.
fn step(word: &[u8], words: Words<'_>) -> Option<Step> {
    match word {
        b"initiate" => operands::initiate(words),
        b"read" => operands::read(words),
        b"write" => operands::write(words),
        b"add" => operands::add(words),
        b"permit" => operands::permit(words),
        b"delegate" => operands::delegate(words),
        b"depend" => operands::depend(words),
        _ => short_step(word, words),
    }
}

/// Returns the first line of a text, and what comes after its line feed. `None` if the text is empty.
pub(crate) fn split_line(text: &[u8]) -> Option<(&[u8], &[u8])> {
    if text.is_empty() {
        return None;
    }
    match text.iter().position(|b| *b == b'\n') {
        Some(at) => {
            let (line, _) = text.split_at(at);
            let (_, rest) = text.split_at(at + 1);
            Some((line, rest))
        }
        None => Some((text, &[])),
    }
}

/// Returns what a line is. It is given without its line feed.
pub(crate) fn parse(line: &[u8]) -> PlainLine {
    if line.len() > 4096 {
        return PlainLine::Bad;
    }
    if line.is_empty() || line[0] == b'#' {
        return PlainLine::Blank;
    }
    let mut words = Words::new(line, b' ');
    let Some(first) = words.next_word() else {
        return PlainLine::Bad;
    };
    if first == OBJECT {
        return match operands::object(words) {
            Some(object) => PlainLine::Object(object),
            None => PlainLine::Bad,
        };
    }
    match step(first, words) {
        Some(step) => PlainLine::Ask(step),
        None => PlainLine::Bad,
    }
}
