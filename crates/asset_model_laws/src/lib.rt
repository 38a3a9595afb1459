//! What the extended models mean, over all histories.
#![tactic(auto)]

mod bridges;
mod laws;

pub use bridges::{run_stands_in_its_facility, run_stands_in_the_history_of_its_client};
pub use laws::{
    contingent_commits_one_at_most, cooperating_ends_in_one_way, distributed_ends_in_one_way,
    joined_is_its_takers, nested_takes_over, replies_say_the_end, saga_is_undone_in_reverse,
    split_stands_for_ever,
};
