//! The program over any reader and writers: from what the arguments ask for to the exit status.

ghost use Rattle.std.specs.Prelude.{◌≡◌, IfOk, IfErr, OnErr};
ghost use Rattle.asset_core.specs.OpenFaults.{IsCapacity};
ghost use Rattle.asset_scripts.specs.Device.{IsUnused};
ghost use Rattle.asset_requests.specs.Answers.{answer_status};
ghost use Rattle.asset_program.specs.Exit.{run_status};
ghost use Rattle.asset_program.specs.Program.{ChecksScript, RunsScript, Serves, ShowsAnswer};

use crate::exit::{status_of_answer, status_of_run};
use asset_check::check_script;
use asset_cli::run_for;
use asset_requests::{Answer, Request, Task, capacity_or_default};
use asset_scripts::{Device, RunEnd, ScriptFault, write_all};
use asset_standing::waits_script;
use std::alloc::Global;
use std::io::{Read, Write};

/// Says a fault to the errors. Returns the exit status of what ended so.
pub(crate) fn say_fault<E: Write>(ended: Result<RunEnd, ScriptFault>, errors: &mut E) -> u8
    ensures { result ≡ run_status ended }
{
    if let Err(fault) = ended {
        let _ = writeln!(errors, "asset: {fault}");
    }
    status_of_run(ended)
}

/// Says to the errors that a capacity is out of range. Returns the exit status.
pub(crate) fn say_range<E: Write>(errors: &mut E) -> u8
    ensures { result ≡ 2 }
{
    let _ = writeln!(errors, "asset: a capacity is a number from 1 to 1000000");
    2
}

/// Reads the script that the reader gives for the task. Says a fault to the errors. Returns the exit status.
#[tactic(auto, unfolding(crate::specs::Program::given_by))]
fn run<R: Read, W: Write, E: Write>(
    alloc: Global,
    task: Task,
    capacity: usize,
    input: &mut Device<R>,
    output: &mut Device<W>,
    errors: &mut E,
) -> u8
    requires capacity { IsCapacity capacity }
    requires unused_input { IsUnused input.old }
    requires unused_output { IsUnused output.old }
    ensures { RunsScript R.remaining W.contents task capacity input.old input.new output.old output.new result }
{
    match task {
        Task::Run(work) => say_fault(run_for(alloc, input, output, capacity, work), errors),
        Task::Waits => say_fault(waits_script(alloc, input, output, capacity), errors),
    }
}

/// Runs the script that the reader gives as the request says. Returns the exit status.
#[tactic(auto, unfolding(crate::specs::Program::Serves))]
fn serve<R: Read, W: Write, E: Write>(
    alloc: Global,
    request: &Request,
    input: &mut Device<R>,
    output: &mut Device<W>,
    errors: &mut E,
) -> u8
    requires unused_input { IsUnused input.old }
    requires unused_output { IsUnused output.old }
    ensures { Serves R.remaining W.contents request.now input.old input.new output.old output.new result }
{
    match capacity_or_default(request.capacity) {
        Some(capacity) => run(alloc, request.task, capacity, input, output, errors),
        None => say_range(errors),
    }
}

/// Writes the help or the version that was asked for to the output, or why no script is run to the errors.
#[tactic(auto, unfolding(crate::specs::Program::ShowsAnswer))]
fn show<W: Write, E: Write>(answer: &Answer, output: &mut Device<W>, errors: &mut E)
    ensures { ShowsAnswer W.contents answer.now output.old output.new }
{
    match answer {
        Answer::Help(text) => {
            let _ = write_all(output, text.as_bytes());
        }
        Answer::Refusal(text) => {
            let _ = write!(errors, "{text}");
        }
        Answer::Fault(fault) => {
            let _ = writeln!(errors, "asset: {fault}");
        }
    }
}

/// Runs the program as the arguments ask for it. A script comes from the input, and its transcript or report goes to the
/// output; so do the help and the version that are asked for. A fault, and why arguments are refused, go to the errors.
/// Returns the exit status. If the writer fails at the help or the version, nothing is said, and the status is 0.
///
/// Requires devices that were asked nothing.
pub fn run_program<R: Read, W: Write, E: Write>(
    alloc: Global,
    request: &Result<Request, Answer>,
    input: &mut Device<R>,
    output: &mut Device<W>,
    errors: &mut E,
) -> u8
    requires unused_input { IsUnused input.old }
    requires unused_output { IsUnused output.old }
    ensures serves { IfOk request.now (λ request. Serves R.remaining W.contents request input.old input.new output.old output.new result) }
    ensures shows { IfErr request.now (λ answer. ShowsAnswer W.contents answer output.old output.new) }
    ensures status { IfErr request.now (λ answer. result ≡ answer_status answer) }
    ensures unread { OnErr request.now (input.new ≡ input.old) }
{
    match request {
        Ok(request) => serve(alloc, request, input, output, errors),
        Err(answer) => {
            show(answer, output, errors);
            status_of_answer(answer)
        }
    }
}

/// Checks the script that the reader gives, and writes why its bad lines are bad to the output, a line for each. Says a fault to the
/// errors. Returns the exit status: 0 if no line is bad.
///
/// Requires devices that were asked nothing.
pub fn run_check<R: Read, W: Write, E: Write>(
    alloc: Global,
    input: &mut Device<R>,
    output: &mut Device<W>,
    errors: &mut E,
) -> u8
    requires unused_input { IsUnused input.old }
    requires unused_output { IsUnused output.old }
    ensures { ChecksScript R.remaining W.contents input.old input.new output.old output.new result }
{
    let ended = check_script(alloc, input, output);
    say_fault(ended, errors)
}
