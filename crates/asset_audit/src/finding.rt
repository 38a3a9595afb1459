//! Where numbers stand in lists of calls whose numbers rise.

ghost use Rattle.std.specs.Prelude.{◌↔◌, map, IsTrue};
ghost use Rattle.asset_audit.specs.Audited.{Rises, HasNumber, AllRise, AnyHas};
ghost use Rattle.asset_audit.specs.Apart.{IsSplitAt};

use crate::calls::Calls;
use asset_names::{Reply, Step};

/// Returns how many calls have a lower number. They come first. If all have a lower number or none has, only the last and
/// the first call are looked at.
pub(crate) fn count_below(calls: &[(usize, Step, Reply)], number: usize) -> usize
    requires { Rises calls.now }
    ensures { IsSplitAt calls.now number result }
{
    let count = calls.len();
    if count == 0 || calls[count - 1].0 < number {
        return count;
    }
    if number <= calls[0].0 {
        return 0;
    }
    search_below(calls, number)
}

/// Returns how many calls have a lower number, by a binary search for the last of them.
fn search_below(calls: &[(usize, Step, Reply)], number: usize) -> usize
    requires { Rises calls.now }
    ensures { IsSplitAt calls.now number result }
{
    let mut low = 0;
    let mut high = calls.len();
    while low < high {
        let middle = low + (high - low) / 2;
        if calls[middle].0 < number {
            low = middle + 1;
        } else {
            high = middle;
        }
    }
    low
}

/// Returns whether one of the calls has the number.
fn has_number(calls: &[(usize, Step, Reply)], number: usize) -> bool
    requires { Rises calls.now }
    ensures { IsTrue result ↔ HasNumber calls.now number }
{
    let index = count_below(calls, number);
    index < calls.len() && calls[index].0 == number
}

/// Returns whether one of the sessions has a call of the number.
pub(crate) fn any_has<C: Calls>(sessions: &[C], number: usize) -> bool
    requires { AllRise (map C.listed sessions.now) }
    ensures { IsTrue result ↔ AnyHas (map C.listed sessions.now) number }
{
    for session in sessions {
        if has_number(session.calls(), number) {
            return true;
        }
    }
    false
}
