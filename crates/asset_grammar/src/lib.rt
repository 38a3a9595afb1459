//! The lines of scripts and of job scripts: what each of them says. Reads and writes nothing, and asks no facility.
#![tactic(auto)]

mod grammar;
mod job_lines;
mod keywords;
mod laws;
mod lines;
mod numbers;
mod operands;
mod script;
mod sets;
mod words;

pub use grammar::{Command, Line, Said};
pub use job_lines::{JobAct, JobLine};
pub use laws::lines_say_what_is_in_range;
pub use script::ScriptLines;
