//! How reasons are said. If memory runs out, a part of a line may have been appended to the text.
ghost use Rattle.std.specs.Prelude.{◌≡◌, ◌<◌, ◌++◌, take, Some, OnOk, string_bytes};
ghost use Rattle.asset_check.specs.Sentences.{mistake_line, reason_text, said_with, shown, shown_byte, wanted, words_of};

use asset_reasons::{Mistake, Reason, Shape};
use std::alloc::AllocError;

/// The most bytes of a word that are printed.
const MOST_SHOWN: usize = 40;

/// Returns a byte of a word as it is printed.
#[tactic(auto, unfolding(crate::specs::Sentences::shown_byte))]
fn shown_byte(byte: u8) -> u8
    ensures is { result ≡ shown_byte byte }
    ensures ascii { result < 128 }
{
    if byte > 32 && byte < 127 { byte } else { b'?' }
}

/// Returns the front of a word that is printed.
fn front(word: &[u8]) -> &[u8]
    ensures { result.now ≡ take 40 word.now }
{
    if word.len() > MOST_SHOWN {
        let (front, _) = word.split_at(MOST_SHOWN);
        front
    } else {
        word
    }
}

/// Appends a word as it is printed.
fn push_shown(text: &mut String, word: &[u8]) -> Result<(), AllocError>
    ensures { OnOk result (string_bytes text.new ≡ string_bytes text.old ++ shown word.now) }
{
    let front = front(word);
    for byte in front {
        text.push(char::from(shown_byte(*byte)))?;
    }
    Ok(())
}

/// Returns what stands after the first word if it wants the operands of a shape.
#[tactic(auto, unfolding(crate::specs::Sentences::wanted))]
fn wanted(shape: Shape) -> &'static str
    ensures { result.now ≡ wanted shape }
{
    match shape {
        Shape::ObjectAndValue => " wants x v",
        Shape::TxnAndParent => " wants t or t p",
        Shape::OneTxn => " wants t",
        Shape::TxnAndObject => " wants t x",
        Shape::TxnObjectAndValue => " wants t x v",
        Shape::TxnObjectAndAmount => " wants t x d",
        Shape::TxnsOpsAndSet => " wants t u ops set",
        Shape::TxnsAndSet => " wants t u set",
        Shape::KindAndTxns => " wants kind t u",
    }
}

/// Returns what stands before the word that a reason is about, whether there is one, and what stands after it.
#[tactic(auto, unfolding(crate::specs::Sentences::words_of))]
fn words_of(reason: Reason) -> (&'static str, bool, &'static str)
    ensures { (result.0.now, result.1, result.2.now) ≡ words_of reason }
{
    match reason {
        Reason::TooLong => ("more than 4096 bytes", false, ""),
        Reason::ByteOrderMark => ("byte order mark at the start", false, ""),
        Reason::CarriageReturn => ("carriage return before the end", false, ""),
        Reason::Tab => ("tab", false, ""),
        Reason::SpacesAlone => ("spaces alone", false, ""),
        Reason::SpaceAtStart => ("space at the start", false, ""),
        Reason::SpaceAtEnd => ("space at the end", false, ""),
        Reason::TwoSpaces => ("two spaces in a row", false, ""),
        Reason::CommentAfter => ("comment after a step", false, ""),
        Reason::SpaceAtComma => ("space beside a comma", false, ""),
        Reason::CapitalLetter => ("capital letter in ", true, ""),
        Reason::UnknownWord => ("unknown word ", true, ""),
        Reason::Wants(shape) => ("", true, wanted(shape)),
        Reason::PlusSign => ("plus sign in ", true, ""),
        Reason::LeadingZero => ("leading zero in ", true, ""),
        Reason::MinusZero => ("zero with a minus sign", false, ""),
        Reason::NumberOutOfRange => ("number out of range", false, ""),
        Reason::ValueOutOfRange => ("value out of range", false, ""),
        Reason::NoNumber => ("not a number: ", true, ""),
        Reason::NoValue => ("not a value: ", true, ""),
        Reason::SwappedOperations => ("wr is written rw", false, ""),
        Reason::NoOperations => ("unknown operations ", true, ""),
        Reason::NoKind => ("unknown kind ", true, ""),
        Reason::LoneComma => ("comma without an object on each side", false, ""),
        Reason::TooManyObjects => ("more than 16 objects in a set", false, ""),
        Reason::TwiceInSet => ("object twice in a set", false, ""),
        Reason::ObjectAfterStep => ("object after a step", false, ""),
        Reason::GivenTwice => ("object ", true, " given twice"),
    }
}

/// Appends the text of a reason.
#[tactic(auto, unfolding(crate::specs::Sentences::reason_text, crate::specs::Sentences::said_with))]
fn push_reason(text: &mut String, mistake: Mistake<'_>) -> Result<(), AllocError>
    ensures { OnOk result (string_bytes text.new ≡ string_bytes text.old ++ reason_text (mistake.entry.reason, mistake.entry.word.now)) }
{
    let (before, names, after) = words_of(mistake.reason);
    text.push_str(before)?;
    if names {
        push_shown(text, mistake.word)?;
    }
    text.push_str(after)
}

/// Appends the line that names a bad line by its number, with its reason. A word of the line is printed by its first 40
/// bytes; each of them that is not printable ASCII, or is a space, is printed as a question mark.
#[tactic(auto, unfolding(crate::specs::Sentences::mistake_line, asset_printing::specs::Texts::line_end))]
pub fn push_mistake(text: &mut String, number: u64, mistake: Mistake<'_>) -> Result<(), AllocError>
    ensures { OnOk result (string_bytes text.new ≡ string_bytes text.old ++ mistake_line number (Some (mistake.entry.reason, mistake.entry.word.now))) }
{
    write!(text, "line {number}: ")?;
    push_reason(text, mistake)?;
    text.push_str("\n")
}
