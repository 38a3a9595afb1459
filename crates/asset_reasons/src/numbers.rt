//! Words that are to be numbers or values, and why they are none.
ghost use Rattle.std.specs.Prelude.{◌≡◌, true, is_some, option_and_then};
ghost use Rattle.std.specs.Char.{is_ascii_digit};
ghost use Rattle.std.specs.List.{list_all};
ghost use Rattle.asset_grammar.specs.Numbers.{begins_well, negative_value, number_of, positive_value, value_of};
ghost use Rattle.asset_reasons.specs.Mistakes.{has_digits, number_mistake, unsigned, value_mistake, why_no_number, why_no_value};
ghost use Rattle.asset_reasons.specs.Spelling.{begins_with};

use crate::reasons::Reason;
use crate::spelling::begins_with;

/// The first number that is too large for a value without a sign, and the greatest one for a value with a minus sign.
const VALUES: u64 = 9_223_372_036_854_775_808;

/// Returns whether a text has digits alone.
fn is_all_digits(text: &[u8]) -> bool
    ensures { result ≡ list_all is_ascii_digit text.now }
{
    text.iter().all(|b| b.is_ascii_digit())
}

/// Returns whether a text has a byte, and digits alone.
#[tactic(auto, unfolding(crate::specs::Mistakes::has_digits))]
fn has_digits(text: &[u8]) -> bool
    ensures { result ≡ has_digits text.now }
{
    !text.is_empty() && is_all_digits(text)
}

/// Returns whether a text has a first byte, and no zero before another byte.
#[tactic(auto, unfolding(asset_grammar::specs::Numbers::begins_well))]
fn begins_well(text: &[u8]) -> bool
    ensures { result ≡ begins_well text.now }
{
    match text.split_first() {
        None => false,
        Some((first, rest)) => *first != b'0' || rest.is_empty(),
    }
}

/// Returns the number that digits write.
fn read_number(text: &str) -> Option<u64>
    requires digits { has_digits text.now ≡ true }
    requires well { begins_well text.now ≡ true }
    ensures { result ≡ number_of text.now }
{
    match text.parse() {
        Ok(number) => Some(number),
        Err(_) => None,
    }
}

/// Returns the number that a word writes.
pub(crate) fn number_of(word: &[u8]) -> Option<u64>
    ensures { result ≡ number_of word.now }
{
    if !has_digits(word) {
        return None;
    }
    if !begins_well(word) {
        return None;
    }
    match std::str::from_utf8(word) {
        Ok(text) => read_number(text),
        Err(_) => None,
    }
}

/// Returns a text without the minus sign before it.
#[tactic(auto, unfolding(crate::specs::Mistakes::unsigned, crate::specs::Spelling::begins_with))]
fn unsigned(word: &[u8]) -> &[u8]
    ensures { result.now ≡ unsigned word.now }
{
    match word.split_first() {
        Some((first, rest)) => { if *first == b'-' { rest } else { word } }
        None => word,
    }
}

/// Returns whether a text writes a number that is a value.
#[tactic(auto, unfolding(asset_grammar::specs::Numbers::positive_value))]
fn is_positive(text: &[u8]) -> bool
    ensures { result ≡ is_some (option_and_then positive_value (number_of text.now)) }
{
    match number_of(text) {
        Some(number) => number < VALUES,
        None => false,
    }
}

/// Returns whether a text writes a number that is a value after a minus sign.
#[tactic(auto, unfolding(asset_grammar::specs::Numbers::negative_value))]
fn is_negative(text: &[u8]) -> bool
    ensures { result ≡ is_some (option_and_then negative_value (number_of text.now)) }
{
    match number_of(text) {
        Some(number) => number > 0 && number <= VALUES,
        None => false,
    }
}

/// Returns whether a word writes a value.
#[tactic(auto, unfolding(asset_grammar::specs::Numbers::value_of))]
fn is_value(word: &[u8]) -> bool
    ensures { result ≡ is_some (value_of word.now) }
{
    match word.split_first() {
        None => false,
        Some((first, rest)) => {
            if *first == b'-' {
                is_negative(rest)
            } else {
                is_positive(word)
            }
        }
    }
}

/// Returns why a word is no number.
#[tactic(auto, unfolding(crate::specs::Mistakes::why_no_number))]
pub(crate) fn why_no_number(word: &[u8]) -> Reason
    ensures { result ≡ why_no_number word.now }
{
    if begins_with(word, b'+') {
        Reason::PlusSign
    } else if !has_digits(word) {
        Reason::NoNumber
    } else if begins_well(word) {
        Reason::NumberOutOfRange
    } else {
        Reason::LeadingZero
    }
}

/// Returns what is wrong with a word that is to be a number.
#[tactic(auto, unfolding(crate::specs::Mistakes::number_mistake))]
pub(crate) fn number_mistake(word: &[u8]) -> Option<Reason>
    ensures { result ≡ number_mistake word.now }
{
    match number_of(word) {
        Some(_) => None,
        None => Some(why_no_number(word)),
    }
}

/// Returns why a word is no value.
#[tactic(auto, unfolding(crate::specs::Mistakes::why_no_value))]
fn why_no_value(word: &[u8]) -> Reason
    ensures { result ≡ why_no_value word.now }
{
    let digits = unsigned(word);
    if begins_with(word, b'+') {
        Reason::PlusSign
    } else if !has_digits(digits) {
        Reason::NoValue
    } else if !begins_well(digits) {
        Reason::LeadingZero
    } else if begins_with(digits, b'0') {
        Reason::MinusZero
    } else {
        Reason::ValueOutOfRange
    }
}

/// Returns what is wrong with a word that is to be a value.
#[tactic(auto, unfolding(crate::specs::Mistakes::value_mistake))]
pub(crate) fn value_mistake(word: &[u8]) -> Option<Reason>
    ensures { result ≡ value_mistake word.now }
{
    if is_value(word) {
        None
    } else {
        Some(why_no_value(word))
    }
}
