//! The lines of a text, and what each of them says.
ghost use Rattle.std.specs.Prelude.{◌≡◌, ◌∷◌, [], IfSome, MatchOption};
ghost use Rattle.asset_grammar.specs.Grammar.{line_of, said_as};
ghost use Rattle.asset_grammar.specs.Lines.{lines, Lacks};

use asset_grammar::{Said, ScriptLines};
use asset_names::Step;
use asset_reasons::first_position;
use std::marker::Model;

/// The lines of a text that are still to come. Contracts see them as a list, each without its line feed.
#[derive(Drop)]
pub(crate) struct Lines<'a> {
    rest: &'a [u8],
}

impl<'a> Model for Lines<'a> {
    ghost use Rattle.std.specs.Prelude.{ℕ, List};
    ghost use Rattle.asset_grammar.specs.Lines.{lines};

    ghost Value = { List (List ℕ) };

    ghost view = { λ l. lines l.rest.now };
}

impl<'a> Lines<'a> {
    /// Returns all the lines of a text.
    pub(crate) fn new(text: &'a [u8]) -> Self
        ensures { result ≡ lines text.now }
    {
        Lines { rest: text }
    }

    /// Returns the next line. `None` if none is left.
    pub(crate) fn next(&mut self) -> Option<&'a [u8]>
        ensures next { MatchOption result (self.old ≡ []) (λ line. self.old ≡ line.now ∷ self.new) }
        ensures one { IfSome result (λ line. Lacks 10 line.now) }
    {
        let text = self.rest;
        if text.is_empty() {
            return None;
        }
        match first_position(text, b'\n') {
            Some(at) => {
                let (line, _) = text.split_at(at);
                let (_, rest) = text.split_at(at + 1);
                self.rest = rest;
                Some(line)
            }
            None => {
                self.rest = &[];
                Some(text)
            }
        }
    }
}

/// Returns what a line says. Puts the step that it asks for into the slot; if it asks for none, what the slot has afterwards
/// means nothing.
pub fn said_of(line: &[u8], step: &mut Step) -> Said
    requires { Lacks 10 line.now }
    ensures { line_of line.now ≡ said_as result step.new }
{
    let mut lines = ScriptLines::new(line);
    match lines.next_line(step) {
        Some(said) => said,
        None => Said::Blank,
    }
}
