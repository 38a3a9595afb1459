//! The call that takes a script, for somebody who gave its path as an argument.

use crate::command_line::{CHECK, JOBS, SHELL, task_named};
use std::alloc::{AllocError, Global};

/// Returns whether a text is an option.
fn is_option(text: &str) -> bool {
    text.starts_with('-')
}

/// Returns whether the program has this word.
fn is_word(text: &str) -> bool {
    text == JOBS || text == CHECK || text == SHELL || task_named(text).is_some()
}

/// Returns whether an option is one that the word for jobs alone takes.
fn is_of_jobs(option: &str) -> bool {
    option == "--workers"
        || option == "--turns"
        || option.starts_with("--workers=")
        || option.starts_with("--turns=")
}

/// Returns whether an option is one that the program takes after this word. A check takes none.
fn is_taken(option: &str, word: &str) -> bool {
    if word == CHECK {
        return false;
    }
    option == "--cap" || option.starts_with("--cap=") || (word == JOBS && is_of_jobs(option))
}

/// Returns whether an option's value is the next argument.
fn takes_next(option: &str) -> bool {
    option == "--cap" || option == "--workers" || option == "--turns"
}

/// Returns whether an argument may be the path of a script: it is not the value of an option, no option, and not the word
/// that comes first.
fn may_be_path(text: &str, before: &str, index: usize) -> bool {
    !takes_next(before) && !is_option(text) && (index != 1 || !is_word(text))
}

/// Returns the first argument after the program's name, and nothing if there is none.
fn first_word(arguments: &[String]) -> &str {
    match arguments.get(1) {
        Some(argument) => argument.as_str(),
        None => "",
    }
}

/// Returns the index of the argument that may be the path of a script. `None` if there is no such argument or more than one,
/// or there is an option that the program does not take.
fn path_index(arguments: &[String]) -> Option<usize> {
    let word = first_word(arguments);
    let mut found = None;
    let mut before = "";
    for (index, argument) in arguments.iter().enumerate() {
        let text = argument.as_str();
        if index != 0 {
            if is_option(text) && !is_taken(text, word) {
                return None;
            }
            if may_be_path(text, before, index) {
                if found.is_some() {
                    return None;
                }
                found = Some(index);
            }
            before = text;
        }
    }
    found
}

/// Returns whether the first argument after the program's name is a word of the program.
fn has_word(arguments: &[String]) -> bool {
    is_word(first_word(arguments))
}

/// Appends an argument, and a space before it.
fn push_argument(call: &mut String, argument: &str) -> Result<(), AllocError> {
    call.push_str(" ")?;
    call.push_str(argument)
}

/// Appends the arguments after the program's name but the one of this index.
fn push_others(call: &mut String, arguments: &[String], left_out: usize) -> Result<(), AllocError> {
    for (index, argument) in arguments.iter().enumerate() {
        if index != 0 && index != left_out {
            push_argument(call, argument.as_str())?;
        }
    }
    Ok(())
}

/// Appends the call with the same arguments that takes the script of this path on standard input. The word `run` joins if
/// an option has no word before it.
fn push_call(
    text: &mut String,
    arguments: &[String],
    index: usize,
    path: &str,
) -> Result<(), AllocError> {
    text.push_str("asset")?;
    if !has_word(arguments) && arguments.len() > 2 {
        text.push_str(" run")?;
    }
    push_others(text, arguments, index)?;
    text.push_str(" < ")?;
    text.push_str(path)
}

/// Appends that there is no such word, if an argument in the place of a word does not look like a path.
fn push_no_word(text: &mut String, index: usize, path: &str) -> Result<(), AllocError> {
    if index == 1 && !path.contains('/') && !path.contains('.') {
        text.push_str("there is no word ")?;
        text.push_str(path)?;
        text.push_str(" (see asset --help); ")?;
    }
    Ok(())
}

/// Appends the line that says how a script is run, if one of the arguments may be its path. Returns whether one may.
pub(crate) fn push_script_call(
    text: &mut String,
    arguments: &[String],
) -> Result<bool, AllocError> {
    let Some(index) = path_index(arguments) else {
        return Ok(false);
    };
    let Some(path) = arguments.get(index) else {
        return Ok(false);
    };
    text.push_str("asset: ")?;
    push_no_word(text, index, path.as_str())?;
    text.push_str("a script comes on standard input: ")?;
    push_call(text, arguments, index, path.as_str())?;
    text.push_str("\n")?;
    Ok(true)
}
