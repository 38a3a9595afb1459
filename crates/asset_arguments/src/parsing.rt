//! From the arguments of the command line to what they ask for.

ghost use Rattle.std.specs.Prelude.{◌≡◌, Err, IfErr};

use crate::answers::answer_to;
use crate::command_line::{asked_by, command_line};
use asset_requests::{Answer, ArgumentsFault, Asked};
use clap::Error;
use std::alloc::Global;

/// Returns what the arguments ask for; the program's name comes first among them. An error may be the help or the version
/// that was asked for.
fn parsed<'a>(alloc: Global, arguments: &'a [String]) -> Result<Asked, Error> {
    let matches = command_line(alloc)?.try_get_matches_from(arguments)?;
    let asked = asked_by(&matches);
    // By name: the call's proof is made once for each type in the matches.
    drop(matches);
    Ok(asked)
}

/// Returns what arguments that could be read ask for, or what they are answered.
fn asked_for(alloc: Global, arguments: &[String]) -> Result<Asked, Answer> {
    match parsed(alloc, arguments) {
        Ok(asked) => Ok(asked),
        Err(error) => match answer_to(alloc, &error, arguments) {
            Ok(answer) => Err(answer),
            Err(_) => Err(Answer::Fault(ArgumentsFault::NoMemory)),
        },
    }
}

/// Returns what the arguments ask for, by what reading them answered, or else what the program answers: help or the version,
/// why the arguments are refused, or why there are none.
pub fn requested(
    alloc: Global,
    arguments: &Result<Vec<String>, ArgumentsFault>,
) -> Result<Asked, Answer>
    ensures unread { IfErr arguments.now (λ fault. result ≡ Err (Answer.Fault fault)) }
{
    match arguments {
        Ok(arguments) => asked_for(alloc, arguments.as_slice()),
        Err(fault) => Err(Answer::Fault(*fault)),
    }
}
