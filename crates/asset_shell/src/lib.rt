//! A conversation with the facility: each line is answered before the next one is asked for.
#![tactic(auto)]

mod answering;
mod answers;
mod conversation;
mod laws;
mod shell;
mod turns;

pub use conversation::Conversation;
pub use laws::conversations_print_as_runs;
pub use shell::run_shell;
