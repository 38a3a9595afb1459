//! Which call of a list is the first that is not good.

ghost use Rattle.std.specs.Prelude.{◌≡◌, ◌↔◌, map, length, reverse, slice_get, Some, IsTrue, MatchOption};
ghost use Rattle.asset_audit.specs.Audited.{Rises, IsAbove, AllRise, IsGood, AreGoodBelow, IsFirstWrong};

use crate::calls::Calls;
use crate::finding::any_has;
use asset_history::History;
use asset_names::{Reply, Step};

/// Returns whether the number is above all those of a list whose numbers rise.
fn is_above(before: &[(usize, Step, Reply)], number: usize) -> bool
    requires { Rises before.now }
    ensures { IsTrue result ↔ IsAbove before.now number }
{
    let count = before.len();
    count == 0 || before[count - 1].0 < number
}

/// Returns whether the history has the step and the reply of a call at its number.
fn is_entry(history: &History, call: &(usize, Step, Reply)) -> bool
    ensures { IsTrue result ↔ (slice_get (reverse history.now.entries) call.now.0 ≡ Some (call.now.1, call.now.2)) }
{
    history.records(call.0, &call.1, call.2)
}

/// Returns whether a call is good, after those before it in its list and the lists of the earlier sessions.
fn is_good<C: Calls>(
    history: &History,
    earlier: &[C],
    before: &[(usize, Step, Reply)],
    call: &(usize, Step, Reply),
) -> bool
    requires earlier { AllRise (map C.listed earlier.now) }
    requires before { Rises before.now }
    ensures good { IsTrue result → IsGood (reverse history.now.entries) (map C.listed earlier.now) before.now call.now }
    ensures wrong { IsGood (reverse history.now.entries) (map C.listed earlier.now) before.now call.now → IsTrue result }
{
    is_above(before, call.0) && is_entry(history, call) && !any_has(earlier, call.0)
}

/// Returns the number of the first call that is not good, and `None` if all are. It looks each number up in each of the
/// earlier sessions.
pub(crate) fn first_wrong<C: Calls>(
    history: &History,
    earlier: &[C],
    calls: &[(usize, Step, Reply)],
) -> Option<usize>
    requires { AllRise (map C.listed earlier.now) }
    ensures { MatchOption result (AreGoodBelow (reverse history.now.entries) (map C.listed earlier.now) calls.now (length calls.now)) (IsFirstWrong (reverse history.now.entries) (map C.listed earlier.now) calls.now) }
{
    for (place, call) in calls.iter().enumerate() {
        if !is_good(history, earlier, &calls[..place], call) {
            return Some(call.0);
        }
    }
    None
}
