//! How a test makes a history, and draws it.
use asset_core::{Core, OpenFault};
use asset_core_tests::{THREE, first_wrong_line, opened};
use asset_history::History;
use asset_names::NoMemory;
use asset_picture::push_picture;
use std::alloc::Global;

/// Room for the entries of a test.
pub(crate) const ROOM: usize = 1_000;

/// The last line of the legend: shapes come after it.
const LAST_OF_LEGEND: &str = "y='48'>open permit</text>\n";

/// Returns the history that a script leaves over three objects, and the first line whose step has another outcome.
pub(crate) fn left_by(alloc: Global, script: &str) -> Result<(History, Option<usize>), OpenFault> {
    let mut core = opened(alloc, &THREE, ROOM)?;
    let wrong = first_wrong_line(alloc, &mut core, script);
    Ok((core.into_history(), wrong))
}

/// Returns the history of a facility over three objects once steps are played, and the first that met a fault.
pub(crate) fn played<P: Fn(&mut Core) -> Option<u64> + Drop>(
    alloc: Global,
    play: P,
) -> Result<(History, Option<u64>), OpenFault>
    requires { P.IsAlwaysCallable play }
{
    let mut core = opened(alloc, &THREE, ROOM)?;
    let fault = play(&mut core);
    Ok((core.into_history(), fault))
}

/// Returns the picture of a history. If memory runs out once, it is drawn again.
pub(crate) fn picture_of(alloc: Global, history: &History) -> Result<String, NoMemory> {
    let mut text = String::new(alloc);
    match push_picture(alloc, history, &mut text) {
        Ok(()) => Ok(text),
        Err(NoMemory) => {
            text.clear();
            match push_picture(alloc, history, &mut text) {
                Ok(()) => Ok(text),
                Err(NoMemory) => Err(NoMemory),
            }
        }
    }
}

/// Returns the first line of a picture, and what stands after its legend.
pub(crate) fn parts(picture: &str) -> Option<(&str, &str)> {
    let (before, shapes) = picture.split_once(LAST_OF_LEGEND)?;
    Some((before.lines().next()?, shapes))
}
