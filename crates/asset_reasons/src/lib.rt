//! Why a line of a script is bad, read alone: the first rule that applies, and the word that it is about. What earlier lines said
//! and how a reason is printed is said by crates above. No call takes memory.
#![tactic(auto)]

mod numbers;
mod operands;
mod parts;
mod reasons;
mod spelling;
mod words;

pub use parts::first_position;
pub use reasons::{Mistake, Operand, Reason, Shape};
pub use words::{reason_of, second_word};
