//! What the lines of a script say.
ghost use Rattle.std.specs.Prelude.{◌≡◌};
ghost use Rattle.asset_grammar.specs.Grammar.{any_line_of, is_blank, line_of, said_as, ReadsWords};
ghost use Rattle.asset_grammar.specs.Lines.{first_line, line_tail};

use crate::lines::line_end;
use crate::words::Words;
use asset_names::{Ob, Step};

/// The first word of an object line.
pub(crate) const OBJECT: &[u8] = b"object";

/// The most bytes that a line may have.
pub(crate) const LONGEST_LINE: usize = 4096;

/// What a line of a script asks. Contracts speak of commands; code has the step in a slot, and a `Said` beside it.
#[derive(Clone, Copy)]
pub enum Command {
    /// Adds an object with this value to the opening.
    Object((Ob, i64)),
    /// Asks for a step.
    Ask(Step),
}

/// What a line of a script is. Contracts speak of lines; code has the step in a slot, and a `Said` beside it.
#[derive(Clone, Copy)]
pub enum Line {
    /// It says nothing.
    Blank,
    /// It asks something.
    Command(Command),
    /// It is no line of a script.
    Bad,
}

/// What a line says, beside the step in the slot that it was read into.
#[derive(Clone, Copy)]
pub enum Said {
    /// It says nothing.
    Blank,
    /// It adds an object with this value to the opening.
    Object((Ob, i64)),
    /// It asks for the step in the slot.
    Ask,
    /// It is no line of a script.
    Bad,
}

/// Returns whether the first line of a text says nothing.
#[inline(always)]
#[tactic(auto, unfolding(crate::specs::Grammar::is_blank), using(crate::proofs::FirstLineLemmas::blank_by_first))]
pub(crate) fn is_blank(text: &[u8]) -> bool
    ensures { result ≡ is_blank (first_line text.now) }
{
    match text.split_first() {
        None => true,
        Some((first, _)) => *first == b'#' || *first == b'\n',
    }
}

/// Reads the words of a line that is not skipped, to the end of the line. Puts the step that they ask for into the slot. Returns
/// `None` if the line is bad; what the slot has then means nothing.
#[tactic(auto, unfolding(crate::specs::Grammar::command_from, crate::specs::Grammar::object_command, crate::specs::Grammar::step_command, crate::specs::Grammar::line_by, crate::specs::Grammar::said_as))]
fn read_words(words: &mut Words<'_>, step: &mut Step) -> Option<Said>
    ensures { ReadsWords words.old result step.new words.new }
{
    if let Some(keyword) = words.next_keyword() {
        keyword.put_step(words, step)?;
        return Some(Said::Ask);
    }
    if words.next_word()? != OBJECT {
        return None;
    }
    let object = words.object_and_value()?;
    Some(Said::Object(object))
}

/// Reads the first line of a text as if it were short enough. Returns what it says, and the text from its end on.
#[tactic(auto, unfolding(crate::specs::Grammar::command_of, crate::specs::Grammar::line_by, crate::specs::Grammar::said_as))]
fn read_any_line<'a>(text: &'a [u8], step: &mut Step) -> (Said, &'a [u8])
    ensures says { any_line_of (first_line text.now) ≡ said_as result.0 step.new }
    ensures tail { result.1.now ≡ line_tail text.now }
{
    if is_blank(text) {
        return (Said::Blank, line_end(text));
    }
    let mut words = Words::new(text);
    match read_words(&mut words, step) {
        Some(said) => (said, words.tail()),
        None => (Said::Bad, line_end(text)),
    }
}

/// Reads the first line of a text. Puts the step that it asks for into the slot; if it asks for none, what the slot has afterwards
/// means nothing. Returns what the line says, and the text from its end on.
pub(crate) fn read_line<'a>(text: &'a [u8], step: &mut Step) -> (Said, &'a [u8])
    ensures says { line_of (first_line text.now) ≡ said_as result.0 step.new }
    ensures tail { result.1.now ≡ line_tail text.now }
{
    let (said, tail) = read_any_line(text, step);
    if text.len() - tail.len() > LONGEST_LINE {
        return (Said::Bad, tail);
    }
    (said, tail)
}
