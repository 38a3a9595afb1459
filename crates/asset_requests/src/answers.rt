//! What the program answers if it runs no script.

use thiserror::Error;

/// Why the arguments of the command line could not be read.
#[derive(Clone, Copy, Debug, PartialEq, Eq, Error)]
pub enum ArgumentsFault {
    /// An argument is not valid UTF-8.
    #[error("an argument is not valid UTF-8")]
    NotText,
    /// Memory ran out.
    #[error("no memory")]
    NoMemory,
}

/// What the program answers if it runs no script.
#[derive(Debug, Drop)]
pub enum Answer {
    /// The help or the version, which was asked for.
    Help(String),
    /// Why the arguments are refused.
    Refusal(String),
    /// Why there are no arguments.
    Fault(ArgumentsFault),
}
