//! The lines of a script or of a job script, one after another.
ghost use Rattle.std.specs.Prelude.{◌≡◌};
ghost use Rattle.asset_grammar.specs.Lines.{lines};
ghost use Rattle.asset_grammar.specs.Grammar.{ReadsLine};
ghost use Rattle.asset_grammar.specs.JobLines.{ReadsJobLine};

use crate::grammar::{Said, read_line};
use crate::job_lines::{JobLine, read_job_line};
use crate::lines::next_lines;
use asset_names::Step;
use std::marker::Model;

/// The lines of a script or of a job script that are still to come. Contracts see them as a list, each without its line feed.
#[derive(Drop)]
pub struct ScriptLines<'a> {
    rest: &'a [u8],
}

impl<'a> Model for ScriptLines<'a> {
    ghost use Rattle.std.specs.Prelude.{ℕ, List};
    ghost use Rattle.asset_grammar.specs.Lines.{lines};

    ghost Value = { List (List ℕ) };

    ghost view = { λ script. lines script.rest.now };
}

impl<'a> ScriptLines<'a> {
    /// Returns all the lines of a script.
    pub fn new(bytes: &'a [u8]) -> Self
        ensures { result ≡ lines bytes.now }
    {
        ScriptLines { rest: bytes }
    }

    /// Reads the next line of a script where it stands, and puts the step that it asks for into the slot. If it asks for none,
    /// what the slot has afterwards means nothing. Returns `None` if no line is left.
    pub fn next_line(&mut self, step: &mut Step) -> Option<Said>
        ensures { ReadsLine self.old result step.new self.new }
    {
        if self.rest.is_empty() {
            return None;
        }
        let (said, tail) = read_line(self.rest, step);
        self.rest = next_lines(tail);
        Some(said)
    }

    /// Reads the next line of a job script where it stands. Returns `None` if no line is left.
    pub fn next_job_line(&mut self) -> Option<JobLine>
        ensures { ReadsJobLine self.old result self.new }
    {
        if self.rest.is_empty() {
            return None;
        }
        let (line, tail) = read_job_line(self.rest);
        self.rest = next_lines(tail);
        Some(line)
    }
}
