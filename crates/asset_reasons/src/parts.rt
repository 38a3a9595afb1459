//! The parts of a text, one after another.
ghost use Rattle.std.specs.Prelude.{◌≡◌, ◌==◌, ◌∷◌, [], position, MatchOption};
ghost use Rattle.asset_grammar.specs.Words.{parts};

use std::marker::Model;

/// Returns the position of the first byte of this kind in a text. `None` if it has none.
pub fn first_position(text: &[u8], byte: u8) -> Option<usize>
    ensures { result ≡ position (λ b. b == byte) text.now }
{
    text.iter().position(|b| *b == byte)
}

/// The parts of a text that are still to come: what stands between the bytes of one kind. Contracts see them as a list.
#[derive(Drop)]
pub(crate) struct Parts<'a> {
    separator: u8,
    rest: &'a [u8],
    ended: bool,
}

impl<'a> Model for Parts<'a> {
    ghost use Rattle.std.specs.Prelude.{ℕ, List};
    ghost use Rattle.asset_reasons.specs.Parts.{parts_left};

    ghost Value = { List (List ℕ) };

    ghost view = { λ p. parts_left p.ended p.separator p.rest.now };
}

impl<'a> Parts<'a> {
    /// Returns all the parts of a text.
    #[tactic(auto, unfolding(crate::specs::Parts::parts_left))]
    pub(crate) fn new(text: &'a [u8], separator: u8) -> Self
        ensures { result ≡ parts separator text.now }
    {
        Parts {
            separator,
            rest: text,
            ended: false,
        }
    }

    /// Returns the next part. `None` if none is left.
    #[tactic(auto, unfolding(crate::specs::Parts::parts_left))]
    pub(crate) fn next(&mut self) -> Option<&'a [u8]>
        ensures { MatchOption result ((self.old ≡ []) × (self.new ≡ [])) (λ part. self.old ≡ part.now ∷ self.new) }
    {
        if self.ended {
            return None;
        }
        let text = self.rest;
        match first_position(text, self.separator) {
            Some(at) => {
                let (part, _) = text.split_at(at);
                let (_, rest) = text.split_at(at + 1);
                self.rest = rest;
                Some(part)
            }
            None => {
                self.ended = true;
                Some(text)
            }
        }
    }
}
