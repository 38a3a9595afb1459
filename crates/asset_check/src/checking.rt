//! Checks a script without running it.
ghost use Rattle.std.specs.Prelude.{◌≡◌, ℕ, ◌+◌, ◌^◌, ◌<◌, Bool, false, List, ◌∷◌, ◌++◌, Some, is_some, length, IfOk, OnOk, IfErr, string_bytes};
ghost use Rattle.asset_grammar.specs.Grammar.{line_of};
ghost use Rattle.asset_grammar.specs.Lines.{lines, Lacks};
ghost use Rattle.asset_scripts.specs.Device.{IsUnused};
ghost use Rattle.asset_scripts.specs.Renders.{end_at};
ghost use Rattle.asset_scripts.specs.Runs.{WroteAll, Stops};
ghost use Rattle.asset_check.specs.Checked.{check_lines, checked, first_bad, mistake_at, seen_by};
ghost use Rattle.asset_check.specs.Sentences.{mistake_line};
ghost use Rattle.asset_check.specs.Checking.{or_this};
ghost use Rattle.asset_check.specs.Laws.{EndsAsRun};
ghost use Rattle.asset_scripts.specs.declared.prints.Prints.{Prints};

use crate::checker::Checker;
use crate::lines::{Lines, said_of};
use crate::texts::push_mistake;
use asset_names::{Step, Txn};
use asset_scripts::{Device, Render, RunEnd, ScriptFault, render_all};
use std::alloc::Global;
use std::io::{Read, Write};

/// Checks one line, and appends the line that names it if it is bad. Returns whether it is.
fn check_line(
    checker: &mut Checker,
    text: &mut String,
    line: &[u8],
    step: &mut Step,
    number: u64,
) -> Result<bool, ScriptFault>
    requires { Lacks 10 line.now }
    ensures text { OnOk result (string_bytes text.new ≡ string_bytes text.old ++ mistake_line number (mistake_at checker.old line.now)) }
    ensures bad { IfOk result (λ bad. bad ≡ is_some (mistake_at checker.old line.now)) }
    ensures seen { OnOk result (checker.new ≡ seen_by checker.old (line_of line.now)) }
    ensures memory { IfErr result (λ fault. fault ≡ ScriptFault.NoMemory) }
{
    let said = said_of(line, step);
    let found = checker.take(line, said)?;
    match found {
        Some(mistake) => {
            push_mistake(text, number, mistake)?;
            Ok(true)
        }
        None => Ok(false),
    }
}

/// Returns the number of the first bad line so far: the earlier one if there was one, and else this one if it is bad.
#[tactic(auto, unfolding(crate::specs::Checking::or_this, crate::specs::Checking::or_first))]
pub fn first_of(bad: Option<u64>, is_bad: bool, number: u64) -> Option<u64>
    ensures { result ≡ or_this bad is_bad number }
{
    match bad {
        Some(first) => Some(first),
        None => { if is_bad { Some(number) } else { None } }
    }
}

/// Checks all lines, and appends a line for each bad one. Returns the number of the first bad one.
fn check_lines(
    checker: &mut Checker,
    text: &mut String,
    bytes: &[u8],
) -> Result<Option<u64>, ScriptFault>
    requires few { length (lines bytes.now) + 1 < 2 ^ 64 }
    ensures text { OnOk result (string_bytes text.new ≡ string_bytes text.old ++ check_lines (lines bytes.now) 1 checker.old) }
    ensures bad { IfOk result (λ bad. bad ≡ first_bad (lines bytes.now) 1 checker.old) }
    ensures memory { IfErr result (λ fault. fault ≡ ScriptFault.NoMemory) }
{
    let mut rest = Lines::new(bytes);
    let mut step = Step::Commit { t: Txn(0) };
    let mut number = 1;
    let mut bad = None;
    'lines: while let Some(line) = rest.next() {
        let is_bad = check_line(checker, text, line, &mut step, number)?;
        bad = first_of(bad, is_bad, number);
        number += 1;
    }
    Ok(bad)
}

/// Returns how a check ends, by the number of the first bad line.
#[tactic(auto, unfolding(asset_scripts::specs::Renders::end_at))]
fn end_at(bad: Option<u64>) -> RunEnd
    ensures { result ≡ end_at bad }
{
    match bad {
        Some(number) => RunEnd::BadLine(number),
        None => RunEnd::Finished,
    }
}

/// The lines that name the bad lines of a script.
struct Check;

impl Render for Check {
    ghost use Rattle.asset_check.specs.Checked.{checked};

    ghost transcript = { λ _ bytes. checked bytes };

    fn render(
        &self,
        alloc: Global,
        bytes: &[u8],
        text: &mut String,
    ) -> Result<RunEnd, ScriptFault> {
        let mut checker = Checker::new(alloc);
        match check_lines(&mut checker, text, bytes) {
            Ok(bad) => Ok(end_at(bad)),
            Err(fault) => Err(fault),
        }
    }
}

/// Checks the script that the reader gives, and writes a line for each bad line: its number and its reason. Nothing is run.
/// On `Ok` the lines for all bytes that the reader gave were written, and nothing else: nothing if no line is bad. It ends as
/// a run of the same bytes ends, with the number of the first bad line if there is one.
///
/// Answers `Read` only if the reader failed, gave more than 67,108,864 bytes or was asked 134,217,728 times; `Write` only if
/// the writer failed, and then a prefix of the lines was written; and `NoMemory` if memory runs out. After `Read` and
/// `NoMemory` nothing was written.
///
/// Requires devices that were asked nothing. Holds the whole input and all that it writes in memory.
pub fn check_script<R: Read, W: Write>(
    alloc: Global,
    input: &mut Device<R>,
    output: &mut Device<W>,
) -> Result<RunEnd, ScriptFault>
    requires unused_input { IsUnused input.old }
    requires unused_output { IsUnused output.old }
    ensures sound_input { OnOk result (input.new.failed ≡ false) }
    ensures sound_output { OnOk result (output.new.failed ≡ false) }
    ensures wrote { IfOk result (WroteAll R.remaining W.contents checked input.old input.new output.old output.new) }
    ensures stopped { IfErr result (Stops R.remaining W.contents checked input.old input.new output.old output.new) }
    ensures as_run { (bytes : List ℕ) (prints : Prints) (capacity : ℕ) → EndsAsRun bytes prints capacity }
{
    render_all(alloc, input, output, &Check)
}
