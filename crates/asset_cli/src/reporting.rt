//! What scripts are run for: their transcript, or a report on the history that they leave.
ghost use Rattle.std.specs.Prelude.{◌≡◌, true, cond, ◌++◌, ◌≤◌, length, OnOk, IfOk, IfErr, string_bytes};
ghost use Rattle.asset_core.specs.OpenFaults.{IsCapacity};
ghost use Rattle.asset_scripts.specs.Transfers.{input_limit};
ghost use Rattle.asset_scripts.specs.Transcript.{transcript};
ghost use Rattle.asset_scripts.specs.Renders.{Renders};
ghost use Rattle.asset_cli.specs.Playing.{prints_for};
ghost use Rattle.asset_cli.specs.Rendering.{played_end};
ghost use Rattle.asset_cli.specs.Reporting.{report_of, reported, sourced};

use crate::rendering::{Played, play};
use asset_history::History;
use asset_names::NoMemory;
use asset_picture::push_picture;
use asset_reports::{push_groups, push_pruned, push_serial, push_sources};
use asset_scripts::{Prints, Render, RunEnd, ScriptFault};
use std::alloc::Global;

/// A report that is made of the history that a script leaves.
#[derive(Clone, Copy, Debug, PartialEq, Eq)]
pub enum Report {
    /// The script without dead groups.
    Pruned,
    /// The groups.
    Groups,
    /// The script of those who committed, one after another.
    Serial,
    /// The picture, an SVG.
    Picture,
}

/// What a script is run for.
#[derive(Clone, Copy, Debug, PartialEq, Eq)]
pub enum Work {
    /// Its transcript.
    Run,
    /// The listing of its steps, with their replies beside them.
    Steps,
    /// The sources of what was read.
    Sources,
    /// A report on the history that it leaves.
    Report(Report),
}

impl Work {
    /// Returns what the steps print of a script that is run for this work.
    #[tactic(auto, unfolding(crate::specs::Playing::prints_for))]
    pub(crate) fn prints(self) -> Prints
        ensures { result ≡ prints_for self }
    {
        match self {
            Work::Run => Prints::Replies,
            Work::Steps => Prints::Listing,
            Work::Sources => Prints::Nothing,
            Work::Report(_) => Prints::Nothing,
        }
    }
}

/// Returns how a run ends with the report on those who committed, by whether there is a serial history.
fn serial_end(is_there: bool) -> RunEnd
    ensures { result ≡ cond is_there RunEnd.Finished RunEnd.Shared }
{
    if is_there {
        RunEnd::Finished
    } else {
        RunEnd::Shared
    }
}

/// Appends a report on a history to the text. Returns how the run ends with it.
fn push_report(
    alloc: Global,
    history: &History,
    report: Report,
    text: &mut String,
) -> Result<RunEnd, NoMemory>
    ensures text { IfOk result (λ _. string_bytes text.new ≡ string_bytes text.old ++ (report_of report history.now).text) }
    ensures end { IfOk result (λ end. end ≡ (report_of report history.now).end) }
{
    match report {
        Report::Pruned => push_pruned(alloc, history, text)?,
        Report::Groups => push_groups(alloc, history, text)?,
        Report::Serial => return Ok(serial_end(push_serial(alloc, history, text)?)),
        Report::Picture => push_picture(alloc, history, text)?,
    }
    Ok(RunEnd::Finished)
}

/// Appends what was played and then a report on the history that is left, unless a line is bad.
fn render_report(
    alloc: Global,
    bytes: &[u8],
    capacity: usize,
    report: Report,
    text: &mut String,
) -> Result<RunEnd, ScriptFault>
    requires capacity { IsCapacity capacity }
    requires limit { length bytes.now ≤ input_limit }
    ensures rendered { IfOk result (λ end. Renders (string_bytes text.old) (reported (report_of report) bytes.now capacity) (string_bytes text.new) end) }
    ensures memory { IfErr result (λ fault. fault ≡ ScriptFault.NoMemory) }
{
    match play(alloc, bytes, capacity, text, Work::Report(report)) {
        Ok(Played::Finished(history)) => match push_report(alloc, &history, report, text) {
            Ok(end) => Ok(end),
            Err(NoMemory) => Err(ScriptFault::NoMemory),
        },
        Ok(Played::BadLine(number)) => Ok(RunEnd::BadLine(number)),
        Err(fault) => Err(fault),
    }
}

/// Appends the sources of what was read, unless a line is bad.
fn render_sources(
    alloc: Global,
    bytes: &[u8],
    capacity: usize,
    text: &mut String,
) -> Result<RunEnd, ScriptFault>
    requires capacity { IsCapacity capacity }
    requires limit { length bytes.now ≤ input_limit }
    ensures rendered { IfOk result (λ end. Renders (string_bytes text.old) (reported sourced bytes.now capacity) (string_bytes text.new) end) }
    ensures memory { IfErr result (λ fault. fault ≡ ScriptFault.NoMemory) }
{
    match play(alloc, bytes, capacity, text, Work::Sources) {
        Ok(Played::Finished(history)) => match push_sources(alloc, history, text) {
            Ok(()) => Ok(RunEnd::Finished),
            Err(NoMemory) => Err(ScriptFault::NoMemory),
        },
        Ok(Played::BadLine(number)) => Ok(RunEnd::BadLine(number)),
        Err(fault) => Err(fault),
    }
}

/// Returns how a run ends, by what is left of it. The history is dropped.
#[tactic(auto, unfolding(crate::specs::Rendering::played_end))]
fn end_of(played: Played) -> RunEnd
    ensures { result ≡ played_end played }
{
    match played {
        Played::Finished(history) => {
            drop(history);
            RunEnd::Finished
        }
        Played::BadLine(number) => RunEnd::BadLine(number),
    }
}

/// Appends the transcript of a script. The work says what its steps print.
fn render_transcript(
    alloc: Global,
    bytes: &[u8],
    capacity: usize,
    work: Work,
    text: &mut String,
) -> Result<RunEnd, ScriptFault>
    requires capacity { IsCapacity capacity }
    requires limit { length bytes.now ≤ input_limit }
    ensures rendered { IfOk result (λ end. Renders (string_bytes text.old) (transcript (prints_for work) bytes.now capacity) (string_bytes text.new) end) }
    ensures memory { IfErr result (λ fault. fault ≡ ScriptFault.NoMemory) }
{
    match play(alloc, bytes, capacity, text, work) {
        Ok(played) => Ok(end_of(played)),
        Err(fault) => Err(fault),
    }
}

/// A run of a script for a work, over a history with room for `capacity` entries.
#[derive(Drop)]
pub(crate) struct Run {
    pub(crate) work: Work,
    pub(crate) capacity: usize,
    ghost within: { IsCapacity capacity },
}

impl Render for Run {
    ghost use Rattle.asset_cli.specs.Reporting.{transcript_of};

    ghost transcript = { λ run bytes. transcript_of run.work bytes run.capacity };

    fn render(
        &self,
        alloc: Global,
        bytes: &[u8],
        text: &mut String,
    ) -> Result<RunEnd, ScriptFault> {
        let capacity = self.capacity;
        match self.work {
            Work::Run => render_transcript(alloc, bytes, capacity, Work::Run, text),
            Work::Steps => render_transcript(alloc, bytes, capacity, Work::Steps, text),
            Work::Sources => render_sources(alloc, bytes, capacity, text),
            Work::Report(report) => render_report(alloc, bytes, capacity, report, text),
        }
    }
}
