//! The arguments of the command line: their words and options, what they ask for, and the texts of help.
#![tactic(auto)]

mod answers;
mod calls;
mod command_line;
mod parsing;
mod reading;

pub use parsing::requested;
pub use reading::read_arguments;
