//! Steps and objects as the lines of a script that say them, which read back, and the lines that answer the lines of a script.
#![tactic(auto)]

mod laws;
mod lines;
mod numbers;
mod sets;
mod texts;

pub use laws::printed_lines_say_what_was_printed;
pub use lines::{push_object, push_step};
pub use numbers::{push_next_number, push_next_value, push_number, push_value};
pub use texts::{push_bad_line, push_full, push_outcome};
