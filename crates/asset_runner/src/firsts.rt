//! In which place a `Finished` of a name came back first, so that each end is found at once.

ghost use Rattle.std.specs.Prelude.{◌≡◌, ◌≤◌, ◌<◌, ◌+◌, length, drop, slice_get, Some};
ghost use Rattle.indexmap.specs.IndexMap.{spare, IsEmpty};
ghost use Rattle.asset_bodies.specs.Ends.{job_end};
ghost use Rattle.asset_runner.specs.Runs.{end_in};
ghost use Rattle.asset_runner.specs.Firsts.{HasFirsts};
ghost use Rattle.asset_runner.specs.Rows.{runs_of};

use crate::arrival::Arrival;
use asset_bodies::{JobEnd, job_end};
use asset_names::Txn;
use indexmap::IndexMap;

/// For each name, the place of the first job whose body answered the `Finished` of it.
pub(crate) type Firsts = IndexMap<u64, usize>;

/// Notes the job at this place, which comes before those that are noted.
fn note(firsts: &mut Firsts, order: &[Arrival], place: usize)
    requires place { place < length order.now }
    requires room { 0 < spare firsts.old }
    requires firsts { HasFirsts firsts.old (place + 1) (runs_of (drop (place + 1) order.now)) }
    ensures firsts { HasFirsts firsts.new place (runs_of (drop place order.now)) }
    ensures room { spare firsts.old ≤ spare firsts.new + 1 }
{
    if let Some(t) = order[place].answered() {
        if firsts.insert(t.0, place).is_err() {
            unreachable!()
        }
    }
}

/// Returns for each name the place of the first such job, in a map that has room for them.
pub(crate) fn firsts_of(order: &[Arrival], mut firsts: Firsts) -> Firsts
    requires empty { IsEmpty firsts }
    requires room { length order.now ≤ spare firsts }
    ensures { HasFirsts result 0 (runs_of order.now) }
{
    let mut place = order.len();
    'places: while place > 0 {
        place -= 1;
        note(&mut firsts, order, place);
    }
    firsts
}

/// Returns how the transaction ended, by the first session that came back in a `Finished` of its name, and `Unsettled` if none
/// did.
pub(crate) fn end_in(order: &[Arrival], firsts: &Firsts, t: Txn) -> JobEnd
    requires { HasFirsts firsts.now 0 (runs_of order.now) }
    ensures { result ≡ end_in (runs_of order.now) t.0 }
{
    match firsts.get(&t.0) {
        Some(place) => end_at(order, *place, t),
        None => JobEnd::Unsettled,
    }
}

/// Returns how the transaction ended by the session of the job at this place, and `Unsettled` if there is none.
fn end_at(order: &[Arrival], place: usize, t: Txn) -> JobEnd
    ensures { (arrival : _) → slice_get order.now place ≡ Some arrival → result ≡ job_end t.0 arrival.returned.list.calls }
{
    match order.get(place) {
        Some(arrival) => job_end(t, arrival.session().calls()),
        None => JobEnd::Unsettled,
    }
}
