//! Lists of calls that an audit is asked about.

ghost use Rattle.std.specs.Prelude.{◌≡◌};

use asset_audit::Calls;
use asset_history::History;
use asset_names::{Reply, Step};
use std::alloc::AllocError;

/// What a session was told, as a plain list.
#[derive(Clone, Copy)]
pub struct Told<'a> {
    pub calls: &'a [(usize, Step, Reply)],
}

impl<'a> Calls for Told<'a> {
    ghost listed = { λ told. told.calls.now };

    fn calls(&self) -> &[(usize, Step, Reply)] {
        self.calls
    }
}

/// Appends the call that is recorded at the number.
fn push_call(
    calls: &mut Vec<(usize, Step, Reply)>,
    history: &History,
    number: usize,
) -> Result<(), AllocError> {
    match history.entry(number) {
        Some((step, reply)) => calls.extend_from_slice(&[(number, step, reply)]),
        None => Ok(()),
    }
}

/// Appends each call of a session that was told one entry of `apart`, from the number `first` on.
pub fn push_calls(
    calls: &mut Vec<(usize, Step, Reply)>,
    history: &History,
    first: usize,
    apart: usize,
) -> Result<(), AllocError> {
    for number in first..history.len() {
        if let Some(0) = (number - first).checked_rem(apart) {
            push_call(calls, history, number)?;
        }
    }
    Ok(())
}
