//! Renders the transcript of a script: its text, and what is left when it ends. No input and no output is made here.
ghost use Rattle.std.specs.Bool.{OnTrue, OnFalse};
ghost use Rattle.std.specs.Prelude.{◌≡◌, false, ℕ, ◌+◌, ◌^◌, ◌<◌, ◌≤◌, List, ◌∷◌, ◌++◌, Some, length, IfOk, OnOk, IfErr, string_bytes};
ghost use Rattle.asset_names.specs.Sets.{HasNoDouble};
ghost use Rattle.asset_entries.specs.Recorded.{answer_to};
ghost use Rattle.asset_names.specs.Steps.{objects_of};
ghost use Rattle.asset_core.specs.OpenFaults.{IsCapacity};
ghost use Rattle.asset_grammar.specs.Grammar.{line_of, said_as};
ghost use Rattle.asset_scripts.specs.Transfers.{input_limit};
ghost use Rattle.asset_scripts.specs.Transcript.{answered_text, full_text, printed, joined_by, steps_from, steps_transcript, transcript};
ghost use Rattle.asset_scripts.specs.Renders.{end_at};
ghost use Rattle.asset_scripts.specs.Preamble.{transcript_from};
ghost use Rattle.asset_cli.specs.Rendering.{RendersOn, RendersToEnd, Plays, played_of};
ghost use Rattle.asset_cli.specs.Playing.{prints_for};

use crate::listing::{entry_of, push_columns};
use crate::reporting::Work;
use asset_core::Core;
use asset_grammar::{Said, ScriptLines};
use asset_history::History;
use asset_names::{Fault, Ob, Outcome, Step};
use asset_printing::{push_bad_line, push_full, push_outcome};
use asset_scripts::{ObjectLine, OpeningObjects, Preamble, Prints, ScriptFault, take_objects};
use std::alloc::{AllocError, Global};

/// What is left of a script that was played.
#[derive(Drop)]
pub(crate) enum Played {
    /// Every line was looked at, and this is the history.
    Finished(History),
    /// The line of this number is bad, and those after it were not looked at.
    BadLine(u64),
}

/// Returns what is left when steps end, at the bad line of this number if there is one.
#[tactic(auto, unfolding(crate::specs::Rendering::played_of))]
fn end_play(history: History, bad: Option<u64>) -> Played
    ensures { result ≡ played_of history bad }
{
    match bad {
        None => Played::Finished(history),
        Some(number) => Played::BadLine(number),
    }
}

/// Appends what a step on the line `number` prints that is answered. The next entry has the number `place`.
#[inline(always)]
#[tactic(auto, unfolding(asset_scripts::specs::Transcript::answered_text, asset_scripts::specs::Listing::entry_of))]
fn push_answered(
    text: &mut String,
    prints: Prints,
    number: u64,
    place: usize,
    step: &Step,
    outcome: Outcome,
) -> Result<(), AllocError>
    ensures { OnOk result (string_bytes text.new ≡ string_bytes text.old ++ answered_text prints number place step.now outcome) }
{
    match prints {
        Prints::Nothing => Ok(()),
        Prints::Replies => push_outcome(text, outcome),
        Prints::Listing => {
            push_columns(text, number, entry_of(outcome, place), step)?;
            push_outcome(text, outcome)
        }
    }
}

/// Appends what a step on the line `number` prints for which there is no room.
#[tactic(auto, unfolding(asset_scripts::specs::Transcript::full_text))]
fn push_unanswered(
    text: &mut String,
    prints: Prints,
    number: u64,
    step: &Step,
) -> Result<(), AllocError>
    ensures { OnOk result (string_bytes text.new ≡ string_bytes text.old ++ full_text prints number step.now) }
{
    match prints {
        Prints::Nothing => Ok(()),
        Prints::Replies => push_full(text),
        Prints::Listing => {
            push_columns(text, number, None, step)?;
            push_full(text)
        }
    }
}

/// Asks one step on the line `number`, and appends what it prints to the text.
#[inline(always)]
#[tactic(auto, unfolding(asset_scripts::specs::Transcript::printed, asset_scripts::specs::Transcript::joined_by))]
fn ask(
    core: &mut Core,
    text: &mut String,
    step: &Step,
    number: u64,
    prints: Prints,
) -> Result<(), ScriptFault>
    ensures text { OnOk result (string_bytes text.new ≡ string_bytes text.old ++ printed prints number core.old.history step.now (answer_to core.old.history step.now)) }
    ensures history { OnOk result (core.new.history ≡ joined_by core.old.history step.now (answer_to core.old.history step.now)) }
    ensures memory { IfErr result (λ fault. fault ≡ ScriptFault.NoMemory) }
{
    let place = core.history().len();
    match core.step_lent(step) {
        Ok(outcome) => Ok(push_answered(text, prints, number, place, step, outcome)?),
        Err(Fault::Full) => Ok(push_unanswered(text, prints, number, step)?),
        Err(Fault::NoMemory) => Err(ScriptFault::NoMemory),
    }
}

/// Renders one line among the steps, whose step is in the slot if it asks for one. Returns whether the run goes on.
fn render_line(
    core: &mut Core,
    text: &mut String,
    said: Said,
    step: &Step,
    number: u64,
    prints: Prints,
) -> Result<bool, ScriptFault>
    ensures goes_on { IfOk result (λ goes_on. OnTrue goes_on ((line : List ℕ) (more : List (List ℕ)) → line_of line ≡ said_as said step.now →
        RendersOn (string_bytes text.old) (steps_transcript prints (line ∷ more) number core.old.history) (string_bytes text.new) (steps_transcript prints more (number + 1) core.new.history))) }
    ensures stops { IfOk result (λ goes_on. OnFalse goes_on ((line : List ℕ) (more : List (List ℕ)) → line_of line ≡ said_as said step.now →
        RendersToEnd (string_bytes text.old) (steps_transcript prints (line ∷ more) number core.old.history) (string_bytes text.new) (end_at (Some number)) core.new.history)) }
    ensures memory { IfErr result (λ fault. fault ≡ ScriptFault.NoMemory) }
{
    match said {
        Said::Blank => Ok(true),
        Said::Ask => {
            ask(core, text, step, number, prints)?;
            Ok(true)
        }
        Said::Object(_) => {
            push_bad_line(text, number)?;
            Ok(false)
        }
        Said::Bad => {
            push_bad_line(text, number)?;
            Ok(false)
        }
    }
}

/// Renders the first step, which is in the slot and stands on the line `number`, and the lines after it. Returns the number of
/// the bad line at which they end, if there is one.
fn render_steps(
    core: &mut Core,
    text: &mut String,
    step: &mut Step,
    number: u64,
    rest: &mut ScriptLines<'_>,
    prints: Prints,
) -> Result<Option<u64>, ScriptFault>
    requires few { number + length rest.old + 1 < 2 ^ 64 }
    ensures rendered { IfOk result (λ bad. RendersToEnd (string_bytes text.old) (steps_from prints step.old rest.old number core.old.history) (string_bytes text.new) (end_at bad) core.new.history) }
    ensures memory { IfErr result (λ fault. fault ≡ ScriptFault.NoMemory) }
{
    ask(core, text, step, number, prints)?;
    let mut line_number = number + 1;
    'lines: while let Some(said) = rest.next_line(step) {
        if !render_line(core, text, said, step, line_number, prints)? {
            return Ok(Some(line_number));
        }
        line_number += 1;
    }
    Ok(None)
}

/// Renders the first step and the lines after it by a new facility. Returns what is left.
fn play_steps(
    core: Core,
    text: &mut String,
    preamble: Preamble<'_>,
    prints: Prints,
) -> Result<Played, ScriptFault>
    requires few { preamble.number + length preamble.rest + 1 < 2 ^ 64 }
    ensures played { IfOk result (λ played. Plays (string_bytes text.old) (steps_from prints preamble.entry.step preamble.entry.rest preamble.entry.number core.history) (string_bytes text.new) played) }
    ensures memory { IfErr result (λ fault. fault ≡ ScriptFault.NoMemory) }
{
    let mut core = core;
    let mut step = preamble.step;
    let mut rest = preamble.rest;
    let bad = render_steps(
        &mut core,
        text,
        &mut step,
        preamble.number,
        &mut rest,
        prints,
    );
    // Drops the tables in that call, so that the history alone is here.
    let history = core.into_history();
    match bad {
        Ok(bad) => Ok(end_play(history, bad)),
        Err(fault) => Err(fault),
    }
}

/// Renders what follows the object lines, over the objects that they added. Returns what is left.
fn play_from(
    alloc: Global,
    opening: &[(Ob, i64)],
    capacity: usize,
    preamble: Preamble<'_>,
    text: &mut String,
    work: Work,
) -> Result<Played, ScriptFault>
    requires capacity { IsCapacity capacity }
    requires different { HasNoDouble (objects_of opening.now) }
    requires few { preamble.number + length preamble.rest + 1 < 2 ^ 64 }
    ensures played { IfOk result (λ played. Plays (string_bytes text.old) (transcript_from (prints_for work) preamble.entry.line preamble.entry.step preamble.entry.rest preamble.entry.number opening.now capacity) (string_bytes text.new) played) }
    ensures memory { IfErr result (λ fault. fault ≡ ScriptFault.NoMemory) }
{
    if let ObjectLine::Bad = preamble.line {
        push_bad_line(text, preamble.number)?;
        return Ok(Played::BadLine(preamble.number));
    }
    let Ok(core) = Core::open_distinct(alloc, opening, capacity) else {
        return Err(ScriptFault::NoMemory);
    };
    match preamble.line {
        ObjectLine::First => play_steps(core, text, preamble, work.prints()),
        _ => Ok(end_play(core.into_history(), None)),
    }
}

/// Appends the transcript of a script to the text, in which steps print the lines of their outcomes, their lines in a
/// listing, or nothing, as the work says. Returns what is left. After an error a part of the transcript may have been appended.
pub(crate) fn play(
    alloc: Global,
    bytes: &[u8],
    capacity: usize,
    text: &mut String,
    work: Work,
) -> Result<Played, ScriptFault>
    requires capacity { IsCapacity capacity }
    requires limit { length bytes.now ≤ input_limit }
    ensures played { IfOk result (λ played. Plays (string_bytes text.old) (transcript (prints_for work) bytes.now capacity) (string_bytes text.new) played) }
    ensures memory { IfErr result (λ fault. fault ≡ ScriptFault.NoMemory) }
{
    let mut opening = OpeningObjects::new(alloc);
    match take_objects(&mut opening, bytes) {
        Ok(preamble) => play_from(alloc, &opening.into_pairs(), capacity, preamble, text, work),
        Err(fault) => Err(fault),
    }
}
