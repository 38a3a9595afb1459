//! How a test makes a history, and asks its steps again.

use asset_core::{Core, OpenFault};
use asset_core_tests::{ROOM, THREE, ask, first_wrong_line, opened};
use asset_history::History;
use asset_names::{NoMemory, Outcome};
use std::alloc::Global;

/// Returns the history that a script leaves over three objects, and the first line whose step has another outcome.
pub(crate) fn left_by(alloc: Global, script: &str) -> Result<(History, Option<usize>), OpenFault> {
    let mut core = opened(alloc, &THREE, ROOM)?;
    let wrong = first_wrong_line(alloc, &mut core, script);
    Ok((core.into_history(), wrong))
}

/// Returns the history of a facility over three objects once steps are played, and the first that met a fault.
pub(crate) fn played<P: Fn(&mut Core) -> Option<u64> + Drop>(
    alloc: Global,
    capacity: usize,
    play: P,
) -> Result<(History, Option<u64>), OpenFault>
    requires { P.IsAlwaysCallable play }
{
    let mut core = opened(alloc, &THREE, capacity)?;
    let fault = play(&mut core);
    Ok((core.into_history(), fault))
}

/// Returns whether the facility answers the step of the entry at the index as the entry has it.
fn replays(core: &mut Core, left: &History, index: usize) -> bool {
    match left.entry(index) {
        Some((step, reply)) => ask(core, &step) == Ok(Outcome::Answer(reply)),
        None => false,
    }
}

/// Returns the first entry of the history whose step the facility answers otherwise.
pub(crate) fn first_other_answer(core: &mut Core, left: &History) -> Option<usize> {
    for index in 0..left.len() {
        if !replays(core, left, index) {
            return Some(index);
        }
    }
    None
}

/// Returns the first entry of the history whose step a fresh facility over the same objects answers otherwise, unless none is
/// opened.
pub(crate) fn first_other_replay(alloc: Global, left: &History) -> Result<Option<usize>, NoMemory> {
    match opened(alloc, left.opening(), left.room()) {
        Ok(mut core) => {
            let other = first_other_answer(&mut core, left);
            drop(core);
            Ok(other)
        }
        Err(_) => Err(NoMemory),
    }
}
