//! Runs scripts: lines of text that ask the facility for steps, and the lines of text that answer them.
#![tactic(auto)]

mod laws;
mod listing;
mod rendering;
mod reporting;
mod running;

pub use asset_scripts::{Device, RunEnd, ScriptFault};
pub use laws::printed_scripts_run_again;
pub use reporting::{Report, Work};
pub use running::{
    groups_script, picture_script, prune_script, run_for, run_script, serial_script,
    sources_script, steps_script,
};
