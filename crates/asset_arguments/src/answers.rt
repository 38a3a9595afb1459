//! What is answered to arguments that ask for help or the version, or are refused.

ghost use Rattle.std.specs.Prelude.{◌≡◌, IfOk};
ghost use Rattle.clap.specs.Values.{kind_of};
ghost use Rattle.asset_requests.specs.Answers.{answer_status};
ghost use Rattle.asset_arguments.specs.Errors.{error_status};

use crate::calls::push_script_call;
use asset_requests::{Answer, ArgumentsFault};
use clap::Error;
use clap::error::ErrorKind;
use std::alloc::{AllocError, Global};

/// Returns why the arguments are refused. If one of them may be the path of a script, that is how a script is run.
fn refusal_text(alloc: Global, error: &Error, arguments: &[String]) -> Result<String, AllocError> {
    let mut text = String::new(alloc);
    let may_name_script = matches!(
        error.kind(),
        ErrorKind::InvalidSubcommand | ErrorKind::UnknownArgument
    );
    if may_name_script && push_script_call(&mut text, arguments)? {
        return Ok(text);
    }
    error.to_string(alloc)
}

/// Returns what the program answers to arguments that ask for help or the version, or are refused.
#[tactic(auto, unfolding(asset_requests::specs::Answers::answer_status, crate::specs::Errors::error_status))]
pub(crate) fn answer_to(
    alloc: Global,
    error: &Error,
    arguments: &[String],
) -> Result<Answer, AllocError>
    ensures { IfOk result (λ answer. answer_status answer ≡ error_status (kind_of error.now)) }
{
    match error.kind() {
        ErrorKind::DisplayHelp | ErrorKind::DisplayVersion => {
            Ok(Answer::Help(error.to_string(alloc)?))
        }
        ErrorKind::OutOfMemory => Ok(Answer::Fault(ArgumentsFault::NoMemory)),
        _ => Ok(Answer::Refusal(refusal_text(alloc, error, arguments)?)),
    }
}
