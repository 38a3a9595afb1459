//! A queue of jobs for many workers: each job that is put there is done once or comes back, whoever takes it.
#![tactic(auto)]

mod rule;
mod work;

pub use rule::Ticketed;
pub use work::{MOST_WORKERS, Work, run};
