//! Steps that are asked of the tables.

use asset_ends::Tables;
use asset_names::{NoMemory, Ob, Outcome, Step};
use asset_objects::ObjectsFault;
use asset_steps::step_at_once;
use std::alloc::Global;

/// Opens the tables of these objects. If memory runs out once, the same call is made again.
pub fn open_tables(alloc: Global, opening: &[(Ob, i64)]) -> Result<Tables, ObjectsFault> {
    match Tables::open(alloc, opening) {
        Ok(tables) => Ok(tables),
        Err(_) => Tables::open(alloc, opening),
    }
}

/// Asks a step. If memory runs out once, the same step is asked again.
fn ask(tables: &mut Tables, step: &Step) -> Option<Outcome> {
    match step_at_once(tables, step) {
        Ok(outcome) => Some(outcome),
        Err(NoMemory) => step_at_once(tables, step).ok(),
    }
}

/// Asks the steps in turn. Returns the index of the first one that has another outcome than the one beside it.
pub fn first_other_outcome(tables: &mut Tables, steps: &[(Step, Outcome)]) -> Option<usize> {
    for (index, (step, outcome)) in steps.iter().enumerate() {
        if ask(tables, step) != Some(*outcome) {
            return Some(index);
        }
    }
    None
}
