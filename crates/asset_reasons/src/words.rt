//! Why the words of a line are wrong, and why a line is bad.
ghost use Rattle.std.specs.Prelude.{◌≡◌, true, drop};
ghost use Rattle.asset_reasons.specs.declared.reasons.Shape.TheVariants.{TxnsOpsAndSet};
ghost use Rattle.std.specs.Char.{is_ascii_uppercase};
ghost use Rattle.std.specs.List.{list_any};
ghost use Rattle.asset_grammar.specs.Grammar.{is_blank};
ghost use Rattle.asset_grammar.specs.Words.{words};
ghost use Rattle.asset_reasons.specs.Mistakes.{Finds, first_mistake, fits, is_single, mistake_by, names_anybody, operands_of, reason_of, second_word, shape_mistake, shape_of, sharing_shape, step_shape, why_unknown, words_mistake};

use crate::operands::{ANY, operand_mistake};
use crate::parts::Parts;
use crate::reasons::{Mistake, Operand, Reason, Shape};
use crate::spelling::spelling;

/// The most bytes that a line may have.
const LONGEST_LINE: usize = 4096;

/// The first word of a line that adds an object.
const OBJECT: &[u8] = b"object";

/// The first word of a line that initiates a transaction.
const INITIATE: &[u8] = b"initiate";

/// The first word of a line that begins a transaction.
const BEGIN: &[u8] = b"begin";

/// The first word of a line that reads an object.
const READ: &[u8] = b"read";

/// The first word of a line that writes an object.
const WRITE: &[u8] = b"write";

/// The first word of a line that adds to an object.
const ADD: &[u8] = b"add";

/// The first word of a line that completes a transaction.
const COMPLETE: &[u8] = b"complete";

/// The first word of a line that permits operations.
const PERMIT: &[u8] = b"permit";

/// The first word of a line that commits a transaction.
const COMMIT: &[u8] = b"commit";

/// The first word of a line that aborts a transaction.
const ABORT: &[u8] = b"abort";

/// The first word of a line that waits for a transaction.
const WAIT: &[u8] = b"wait";

/// The first word of a line that delegates objects.
const DELEGATE: &[u8] = b"delegate";

/// The first word of a line that makes a dependency.
const DEPEND: &[u8] = b"depend";

/// Returns which operands a keyword wants, among those of the steps that share, end or wait.
#[tactic(auto, unfolding(crate::specs::Mistakes::sharing_shape))]
fn sharing_shape(word: &[u8]) -> Option<Shape>
    ensures { result ≡ sharing_shape word.now }
{
    if PERMIT == word {
        Some(Shape::TxnsOpsAndSet)
    } else if COMMIT == word {
        Some(Shape::OneTxn)
    } else if ABORT == word {
        Some(Shape::OneTxn)
    } else if WAIT == word {
        Some(Shape::OneTxn)
    } else if DELEGATE == word {
        Some(Shape::TxnsAndSet)
    } else if DEPEND == word {
        Some(Shape::KindAndTxns)
    } else {
        None
    }
}

/// Returns which operands the keyword of a step wants.
#[tactic(auto, unfolding(crate::specs::Mistakes::step_shape))]
fn step_shape(word: &[u8]) -> Option<Shape>
    ensures { result ≡ step_shape word.now }
{
    if INITIATE == word {
        Some(Shape::TxnAndParent)
    } else if BEGIN == word {
        Some(Shape::OneTxn)
    } else if READ == word {
        Some(Shape::TxnAndObject)
    } else if WRITE == word {
        Some(Shape::TxnObjectAndValue)
    } else if ADD == word {
        Some(Shape::TxnObjectAndAmount)
    } else if COMPLETE == word {
        Some(Shape::OneTxn)
    } else {
        sharing_shape(word)
    }
}

/// Returns which operands a first word wants, if a line can begin with it.
#[tactic(auto, unfolding(crate::specs::Mistakes::shape_of))]
fn shape_of(word: &[u8]) -> Option<Shape>
    ensures { result ≡ shape_of word.now }
{
    if word == OBJECT {
        Some(Shape::ObjectAndValue)
    } else {
        step_shape(word)
    }
}

/// Returns the operands of a permit: to anybody it has objects in a list.
#[tactic(auto, unfolding(crate::specs::Mistakes::operands_of))]
fn permit_operands(anybody: bool) -> &'static [Operand]
    ensures { result.now ≡ operands_of TxnsOpsAndSet true anybody }
{
    if anybody {
        &[
            Operand::Number,
            Operand::Taker,
            Operand::Operations,
            Operand::List,
        ]
    } else {
        &[
            Operand::Number,
            Operand::Taker,
            Operand::Operations,
            Operand::Set,
        ]
    }
}

/// Returns the operands of a shape: a parent is one of them unless one word alone is there, and a permit to anybody has objects in a
/// list.
#[tactic(auto, unfolding(crate::specs::Mistakes::operands_of))]
fn operands_of(shape: Shape, single: bool, anybody: bool) -> &'static [Operand]
    ensures { result.now ≡ operands_of shape single anybody }
{
    match shape {
        Shape::ObjectAndValue => &[Operand::Number, Operand::Value],
        Shape::TxnAndParent => {
            if single {
                &[Operand::Number]
            } else {
                &[Operand::Number, Operand::Number]
            }
        }
        Shape::OneTxn => &[Operand::Number],
        Shape::TxnAndObject => &[Operand::Number, Operand::Number],
        Shape::TxnObjectAndValue => &[Operand::Number, Operand::Number, Operand::Value],
        Shape::TxnObjectAndAmount => &[Operand::Number, Operand::Number, Operand::Value],
        Shape::TxnsOpsAndSet => permit_operands(anybody),
        Shape::TxnsAndSet => &[Operand::Number, Operand::Number, Operand::Set],
        Shape::KindAndTxns => &[Operand::Kind, Operand::Number, Operand::Number],
    }
}

/// Returns whether there is a word for each operand, and no other word.
#[tactic(auto, unfolding(crate::specs::Mistakes::fits))]
fn fits(operands: &[Operand], words: &mut Parts<'_>) -> bool
    ensures { result ≡ fits operands.now words.old }
{
    let mut rest = operands;
    'operands: while let Some((_, more)) = rest.split_first() {
        match words.next() {
            Some(_) => rest = more,
            None => return false,
        }
    }
    match words.next() {
        Some(_) => false,
        None => true,
    }
}

/// Returns whether one word alone is left.
#[tactic(auto, unfolding(crate::specs::Mistakes::is_single, crate::specs::Mistakes::fits))]
fn is_single(words: &mut Parts<'_>) -> bool
    ensures { result ≡ is_single words.old }
{
    match words.next() {
        Some(_) => match words.next() {
            Some(_) => false,
            None => true,
        },
        None => false,
    }
}

/// Returns whether the word after the first one is `any`.
#[tactic(auto, unfolding(crate::specs::Mistakes::names_anybody))]
fn names_anybody(words: &mut Parts<'_>) -> bool
    ensures { result ≡ names_anybody words.old }
{
    match words.next() {
        Some(_) => match words.next() {
            Some(word) => word == ANY,
            None => false,
        },
        None => false,
    }
}

/// Returns what is wrong with the first word that is not what it is to be.
#[tactic(auto, unfolding(crate::specs::Mistakes::first_mistake))]
fn first_mistake<'a>(operands: &[Operand], words: &mut Parts<'a>) -> Option<Mistake<'a>>
    ensures { Finds result (first_mistake operands.now words.old) }
{
    let mut rest = operands;
    'operands: while let Some((operand, more)) = rest.split_first() {
        let Some(word) = words.next() else {
            return None;
        };
        if let Some(mistake) = operand_mistake(*operand, word) {
            return Some(mistake);
        }
        rest = more;
    }
    None
}

/// Returns the words after the first one of a line.
#[tactic(auto, unfolding(asset_grammar::specs::Words::words))]
fn after_first(line: &[u8]) -> Parts<'_>
    ensures { result ≡ drop 1 (words line.now) }
{
    let mut words = Parts::new(line, b' ');
    match words.next() {
        Some(_) => words,
        None => words,
    }
}

/// Returns what is wrong with the words after a first word of this shape.
#[tactic(auto, unfolding(crate::specs::Mistakes::shape_mistake))]
fn shape_mistake<'a>(line: &'a [u8], first: &'a [u8], shape: Shape) -> Option<Mistake<'a>>
    ensures { Finds result (shape_mistake first.now shape (drop 1 (words line.now))) }
{
    let single = is_single(&mut after_first(line));
    let anybody = names_anybody(&mut after_first(line));
    let operands = operands_of(shape, single, anybody);
    if fits(operands, &mut after_first(line)) {
        return first_mistake(operands, &mut after_first(line));
    }
    Some(Mistake {
        reason: Reason::Wants(shape),
        word: first,
    })
}

/// Returns whether a word has a capital letter.
fn has_capital(word: &[u8]) -> bool
    ensures { result ≡ list_any is_ascii_uppercase word.now }
{
    word.iter().any(|b| b.is_ascii_uppercase())
}

/// Returns why no line can begin with a word.
#[tactic(auto, unfolding(crate::specs::Mistakes::why_unknown))]
fn why_unknown(word: &[u8]) -> Reason
    ensures { result ≡ why_unknown word.now }
{
    if has_capital(word) {
        Reason::CapitalLetter
    } else {
        Reason::UnknownWord
    }
}

/// Returns what is wrong with the words of a line.
#[tactic(auto, unfolding(crate::specs::Mistakes::words_mistake, crate::specs::Mistakes::mistake_by, asset_grammar::specs::Words::words))]
fn words_mistake(line: &[u8]) -> Option<Mistake<'_>>
    ensures { Finds result (words_mistake (words line.now)) }
{
    let mut words = Parts::new(line, b' ');
    let Some(first) = words.next() else {
        return Some(Mistake::bare(Reason::UnknownWord));
    };
    match shape_of(first) {
        Some(shape) => shape_mistake(line, first, shape),
        None => Some(Mistake {
            reason: why_unknown(first),
            word: first,
        }),
    }
}

/// Returns the word after the first one of a line. It is empty if there is none.
#[tactic(auto, unfolding(crate::specs::Mistakes::second_word, asset_grammar::specs::Words::words))]
pub fn second_word(line: &[u8]) -> &[u8]
    ensures { result.now ≡ second_word (words line.now) }
{
    let mut words = Parts::new(line, b' ');
    match words.next() {
        Some(_) => match words.next() {
            Some(word) => word,
            None => &[],
        },
        None => &[],
    }
}

/// Returns whether a line says nothing.
#[tactic(auto, unfolding(asset_grammar::specs::Grammar::is_blank))]
fn is_blank(line: &[u8]) -> bool
    ensures { result ≡ is_blank line.now }
{
    match line.split_first() {
        None => true,
        Some((first, _)) => *first == b'#',
    }
}

/// Returns why a line is bad, with the word that the reason is about: the first rule that applies. `None` if the line is not
/// bad. Goes over the line some twenty times.
#[tactic(auto, unfolding(crate::specs::Mistakes::reason_of, crate::specs::Mistakes::spelled))]
pub fn reason_of(line: &[u8]) -> Option<Mistake<'_>>
    ensures { Finds result (reason_of line.now) }
{
    if line.len() > LONGEST_LINE {
        return Some(Mistake::bare(Reason::TooLong));
    }
    if is_blank(line) {
        return None;
    }
    let mistake = words_mistake(line)?;
    match spelling(line) {
        Some(reason) => Some(Mistake::bare(reason)),
        None => Some(mistake),
    }
}
