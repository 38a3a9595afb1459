//! The words of the first line of a text, each of which is read where it stands.
ghost use Rattle.std.specs.Prelude.{◌≡◌, ◌==◌, ◌<◌, ◌≤◌, ◌∷◌, ◌^◌, [], length, take, get_or, option_map, IfSome, IfNone, MatchOption};
ghost use Rattle.std.specs.Bool.{OnTrue};
ghost use Rattle.asset_grammar.specs.Lines.{first_line, line_tail, Lacks};
ghost use Rattle.asset_grammar.specs.Numbers.{number_of, value_of};
ghost use Rattle.asset_grammar.specs.Words.{words, none_left, Ends, GoesOn, Takes};

use crate::lines::word_size;
use crate::numbers::{negative, number_at, positive};
use std::marker::Model;

/// The first line of a text while it is read: its words that are still to come, and the text from its end on.
#[derive(Drop)]
pub(crate) struct Words<'a> {
    /// What is left of the text.
    pub rest: &'a [u8],
    /// Whether the last word of the line is gone.
    pub ended: bool,
}

impl<'a> Model for Words<'a> {
    ghost use Rattle.asset_grammar.specs.Words.{LineLeft, line_left};

    ghost Value = { LineLeft };

    ghost view = { λ w. line_left w.ended w.rest.now };
}

/// Returns whether the byte stands at this place of a text.
#[inline(always)]
pub(crate) fn has_at(text: &[u8], place: usize, byte: u8) -> bool
    requires { 0 < byte }
    ensures is { result ≡ (get_or text.now place 0 == byte) }
    ensures inside { OnTrue result (place < length text.now) }
    ensures fits { length text.now < 2 ^ 64 }
{
    place < text.len() && text[place] == byte
}

/// Returns the words that stand after the first `size` bytes of a text, if a word ends there.
#[inline(always)]
#[tactic(auto, unfolding(crate::specs::Words::line_left))]
pub(crate) fn words_after(text: &[u8], size: usize) -> Option<Words<'_>>
    requires { size ≤ length text.now }
    ensures ends { IfSome result (λ after. Lacks 10 (take size text.now) → Ends text.now size after) }
    ensures goes_on { IfNone result (Lacks 10 (take size text.now) → GoesOn text.now size) }
{
    if size == text.len() {
        return Some(Words {
            rest: &[],
            ended: true,
        });
    }
    if text[size] == b' ' {
        let (_, rest) = text.split_at(size + 1);
        return Some(Words { rest, ended: false });
    }
    if text[size] == b'\n' {
        let (_, rest) = text.split_at(size);
        return Some(Words { rest, ended: true });
    }
    None
}

impl<'a> Words<'a> {
    /// Returns all the words of the first line of a text.
    #[inline(always)]
    #[tactic(auto, unfolding(crate::specs::Words::words, crate::specs::Words::line_left))]
    pub(crate) fn new(text: &'a [u8]) -> Self
        ensures all { result.words ≡ words (first_line text.now) }
        ensures tail { result.tail ≡ line_tail text.now }
    {
        Words {
            rest: text,
            ended: false,
        }
    }

    /// Returns whether no word is left.
    #[inline(always)]
    #[tactic(auto, unfolding(crate::specs::Words::line_left, crate::specs::Words::none_left), using(crate::proofs::WordLemmas::over_ended))]
    pub(crate) fn is_over(&self) -> bool
        ensures { result ≡ none_left self.now.words }
    {
        self.ended
    }

    /// Returns the text from the end of the line on, once its last word is gone.
    #[inline(always)]
    #[tactic(auto, unfolding(crate::specs::Words::line_left))]
    pub(crate) fn tail(&self) -> &'a [u8]
        requires { self.now.words ≡ [] }
        ensures { result.now ≡ self.now.tail }
    {
        self.rest
    }

    /// Reads the next word as a number.
    #[inline(always)]
    #[tactic(auto, unfolding(crate::specs::Words::line_left, crate::specs::Words::taken))]
    pub(crate) fn next_number(&mut self) -> Option<u64>
        ensures { Takes number_of self.old result self.new }
    {
        if self.ended {
            return None;
        }
        let (number, size) = number_at(self.rest)?;
        let after = words_after(self.rest, size)?;
        self.rest = after.rest;
        self.ended = after.ended;
        Some(number)
    }

    /// Reads the next word as a value, with a minus sign if it is negative.
    #[inline(always)]
    #[tactic(auto, unfolding(crate::specs::Words::line_left, crate::specs::Words::taken))]
    pub(crate) fn next_value(&mut self) -> Option<i64>
        ensures { Takes value_of self.old result self.new }
    {
        if self.ended {
            return None;
        }
        if !has_at(self.rest, 0, b'-') {
            return positive(self.next_number()?);
        }
        let (_, digits) = self.rest.split_at(1);
        self.rest = digits;
        negative(self.next_number()?)
    }

    /// Returns the next word. `None` if no word is left.
    #[inline(always)]
    #[tactic(auto, unfolding(crate::specs::Words::line_left))]
    pub(crate) fn next_word(&mut self) -> Option<&'a [u8]>
        ensures { MatchOption result (self.old.words ≡ []) (λ word. (self.old.words ≡ word.now ∷ self.new.words) × (self.new.tail ≡ self.old.tail)) }
    {
        if self.ended {
            return None;
        }
        let size = word_size(self.rest);
        let (word, _) = self.rest.split_at(size);
        *self = words_after(self.rest, size)?;
        Some(word)
    }
}
