//! Laws of the definitions over all histories. Each stands on the contract of a function that does nothing.
#![tactic(auto)]

mod counting;
mod deletion;
mod dependencies;
mod laws;
mod serial;

pub use counting::counts_never_fall;
pub use deletion::{
    alone_reads_own_or_committed, conflicting_holders_share_a_group,
    dead_groups_have_not_committed, history_without_dead_groups_is_legal,
    sources_are_read_as_numbers,
};
pub use dependencies::{
    abort_takes_the_least, classes_are_never_split, commit_takes_the_class, no_cycle_stands,
    path_is_leading,
};
pub use laws::{allowing_is_chain, endings_find_room, free_is_allowed_by_holders, linked_is_chain};
pub use serial::committed_could_have_run_alone;
