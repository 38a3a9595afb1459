//! How many of the first sessions have no number in common, found by marks for one window of numbers after another.

ghost use Rattle.std.specs.Prelude.{◌≡◌, ◌+◌, ◌<◌, ◌≤◌, ◌^◌, map, length, IsTrue, IsFalse};
ghost use Rattle.asset_audit.specs.Audited.{Rises, AllRise};
ghost use Rattle.asset_audit.specs.Apart.{IsMarked, HasMark, AreApartIn, AreApartBelow, SharesEarlier};

use crate::calls::Calls;
use crate::finding::count_below;
use asset_names::{Reply, Step};

/// How many numbers a window has, with a mark for each, if the history has no more entries.
const WINDOW: usize = 65536;

/// How many times as wide a window of a longer history is.
const WIDTH: usize = 4;

/// Returns how many of the first sessions have no number below `limit` in common. It does not allocate. It goes over the
/// calls once, and looks where each window begins in each session.
pub(crate) fn count_apart<C: Calls>(sessions: &[C], limit: usize) -> usize
    requires rise { AllRise (map C.listed sessions.now) }
    requires limit { limit < 2 ^ 63 }
    ensures within { result ≤ length sessions.now }
    ensures apart { AreApartBelow (map C.listed sessions.now) result limit }
    ensures next { result < length sessions.now → SharesEarlier (map C.listed sessions.now) result }
{
    if limit <= WINDOW {
        count_apart_narrow(sessions, limit)
    } else {
        count_apart_wide(sessions, limit)
    }
}

/// Does what `count_apart` does, by windows whose marks take 64 KiB of the stack.
#[inline(never)]
fn count_apart_narrow<C: Calls>(sessions: &[C], limit: usize) -> usize
    requires rise { AllRise (map C.listed sessions.now) }
    requires limit { limit < 2 ^ 63 }
    ensures within { result ≤ length sessions.now }
    ensures apart { AreApartBelow (map C.listed sessions.now) result limit }
    ensures next { result < length sessions.now → SharesEarlier (map C.listed sessions.now) result }
{
    count_apart_by(sessions, limit, &mut [false; WINDOW])
}

/// Does what `count_apart` does, by wide windows, whose marks take 256 KiB of the stack.
#[inline(never)]
fn count_apart_wide<C: Calls>(sessions: &[C], limit: usize) -> usize
    requires rise { AllRise (map C.listed sessions.now) }
    requires limit { limit < 2 ^ 63 }
    ensures within { result ≤ length sessions.now }
    ensures apart { AreApartBelow (map C.listed sessions.now) result limit }
    ensures next { result < length sessions.now → SharesEarlier (map C.listed sessions.now) result }
{
    let mut marks = [[false; WINDOW]; WIDTH];
    count_apart_by(sessions, limit, marks.as_flattened_mut())
}

/// Does what `count_apart` does, by windows of as many numbers as there are marks.
fn count_apart_by<C: Calls>(sessions: &[C], limit: usize, marks: &mut [bool]) -> usize
    requires rise { AllRise (map C.listed sessions.now) }
    requires limit { limit < 2 ^ 63 }
    requires marks { 0 < length marks.old }
    ensures within { result ≤ length sessions.now }
    ensures apart { AreApartBelow (map C.listed sessions.now) result limit }
    ensures next { result < length sessions.now → SharesEarlier (map C.listed sessions.now) result }
{
    let mut apart = sessions.len();
    let mut first = 0;
    while first < limit {
        apart = count_apart_from(&sessions[..apart], first, marks);
        first += marks.len();
    }
    apart
}

/// Returns how many of the first sessions have no number in common of the window from `first` on, which has as many numbers
/// as there are marks.
fn count_apart_from<C: Calls>(sessions: &[C], first: usize, marks: &mut [bool]) -> usize
    requires { AllRise (map C.listed sessions.now) }
    ensures within { result ≤ length sessions.now }
    ensures marks { length marks.new ≡ length marks.old }
    ensures apart { AreApartIn (map C.listed sessions.now) result first (length marks.old) }
    ensures next { result < length sessions.now → SharesEarlier (map C.listed sessions.now) result }
{
    marks.fill(false);
    for (place, session) in sessions.iter().enumerate() {
        if !mark_calls(session.calls(), first, marks) {
            return place;
        }
    }
    sessions.len()
}

/// Sets the marks of the calls whose numbers are in the window from `first` on; returns whether none was set before.
fn mark_calls(calls: &[(usize, Step, Reply)], first: usize, marks: &mut [bool]) -> bool
    requires { Rises calls.now }
    ensures length { length marks.new ≡ length marks.old }
    ensures marked { IsTrue result → IsMarked calls.now first marks.old marks.new }
    ensures shared { IsFalse result → HasMark calls.now first marks.old }
{
    let start = count_below(calls, first);
    for place in start..calls.len() {
        let offset = calls[place].0 - first;
        if offset >= marks.len() {
            return true;
        }
        if marks[offset] {
            return false;
        }
        marks[offset] = true;
    }
    true
}
