//! The exit status: 0 if all went well, 1 if the reader, the writer or the memory failed or those who committed shared
//! something, and 2 if the arguments or a line are refused.

ghost use Rattle.std.specs.Prelude.{◌≡◌};
ghost use Rattle.asset_requests.specs.Answers.{answer_status};
ghost use Rattle.asset_program.specs.Exit.{run_status};

use asset_requests::{Answer, ArgumentsFault};
use asset_scripts::{RunEnd, ScriptFault};

/// Returns the exit status of a run.
#[tactic(auto, unfolding(crate::specs::Exit::run_status))]
pub fn status_of_run(ended: Result<RunEnd, ScriptFault>) -> u8
    ensures { result ≡ run_status ended }
{
    match ended {
        Ok(RunEnd::Finished) => 0,
        Ok(RunEnd::BadLine(_)) => 2,
        Ok(RunEnd::Shared) => 1,
        Err(_) => 1,
    }
}

/// Returns the exit status with an answer in place of a run.
#[tactic(auto, unfolding(asset_requests::specs::Answers::answer_status))]
pub fn status_of_answer(answer: &Answer) -> u8
    ensures { result ≡ answer_status answer.now }
{
    match answer {
        Answer::Help(_) => 0,
        Answer::Refusal(_) => 2,
        Answer::Fault(ArgumentsFault::NotText) => 2,
        Answer::Fault(ArgumentsFault::NoMemory) => 1,
    }
}
