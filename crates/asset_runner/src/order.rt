//! What came of the jobs, put in order of initiation.

ghost use Rattle.std.specs.Prelude.{◌≡◌, ◌≤◌, [], map, Some, slice_set, vec_len, vec_capacity, IfOk, IfErr, IsTrue};
ghost use Rattle.asset_runner.specs.Placing.{nones, somes};
ghost use Rattle.asset_runner.specs.Arrived.{placed, left_at, AllGoOn, StandInOrder};
ghost use Rattle.asset_runner.specs.Rows.{all_of};

use crate::arrival::Arrival;
use crate::job::Planned;
use std::sync::Wait;

/// Puts what came of a job into its place.
fn put(slots: &mut Vec<Option<Arrival>>, arrival: Arrival)
    ensures { slots.new.items ≡ slice_set slots.old.items arrival.place (Some arrival) }
{
    let place = arrival.place();
    if place < slots.len() {
        slots[place] = Some(arrival);
    }
}

/// Puts what a worker answered into its places.
fn put_row(slots: &mut Vec<Option<Arrival>>, mut row: Vec<Arrival>)
    ensures { slots.new.items ≡ placed slots.old.items row.items }
{
    'row: while let Some(arrival) = row.pop() {
        put(slots, arrival);
    }
}

/// Puts what all workers answered into its places.
pub(crate) fn put_rows(slots: &mut Vec<Option<Arrival>>, mut rows: Vec<Vec<Arrival>>)
    ensures { slots.new.items ≡ placed slots.old.items (all_of rows.items) }
{
    'rows: while let Some(row) = rows.pop() {
        put_row(slots, row);
    }
}

/// Puts the jobs that no worker took into their places, as jobs whose bodies are not called.
pub(crate) fn put_left(slots: &mut Vec<Option<Arrival>>, mut left: Vec<Planned>)
    ensures { slots.new.items ≡ placed slots.old.items (map (λ j. left_at j.place j.name j.body j.session) left.items) }
{
    'left: while let Some(job) = left.pop() {
        put(slots, job.leave());
    }
}

/// Returns so many empty places, in a vector that has room for them.
pub(crate) fn empty_slots(mut slots: Vec<Option<Arrival>>, jobs: usize) -> Vec<Option<Arrival>>
    requires empty { slots.items ≡ [] }
    requires room { jobs ≤ vec_capacity slots }
    ensures { result.items ≡ nones jobs }
{
    'jobs: for i in 0..jobs {
        let _ = i;
        slots.push_reserved(None);
    }
    slots
}

/// Returns what stands in the places, in order, in a vector that has room for it.
pub(crate) fn in_order(slots: Vec<Option<Arrival>>, mut order: Vec<Arrival>) -> Vec<Arrival>
    requires empty { order.items ≡ [] }
    requires room { vec_len slots ≤ vec_capacity order }
    ensures { result.items ≡ somes slots.items }
{
    'slots: for slot in slots {
        match slot {
            Some(arrival) => order.push_reserved(arrival),
            None => {}
        }
    }
    order
}

/// Returns what came of the jobs, in order of initiation, by way of their places.
pub(crate) fn place_all(
    jobs: usize,
    slots: Vec<Option<Arrival>>,
    order: Vec<Arrival>,
    rows: Vec<Vec<Arrival>>,
    left: Vec<Planned>,
) -> Vec<Arrival>
    requires empty { (slots.items ≡ []) × (order.items ≡ []) }
    requires room { (jobs ≤ vec_capacity slots) × (jobs ≤ vec_capacity order) }
    ensures { result.items ≡ somes (placed (placed (nones jobs) (map (λ j. left_at j.place j.name j.body j.session) left.items)) (all_of rows.items)) }
{
    let mut slots = empty_slots(slots, jobs);
    put_left(&mut slots, left);
    put_rows(&mut slots, rows);
    in_order(slots, order)
}

/// Returns whether the row has as many jobs, and each stands in its place.
fn is_in_order(row: &[Arrival], jobs: usize) -> bool
    ensures { IsTrue result → StandInOrder row.now jobs }
{
    if row.len() != jobs {
        return false;
    }
    'row: for (place, arrival) in row.iter().enumerate() {
        if arrival.place() != place {
            return false;
        }
    }
    true
}

/// Returns the row if there is one alone and it has all jobs in order, as the row of one worker has, and otherwise the rows.
pub(crate) fn row_in_order(
    mut rows: Vec<Vec<Arrival>>,
    jobs: usize,
) -> Result<Vec<Arrival>, Vec<Vec<Arrival>>>
    ensures row { IfOk result (λ row. (all_of rows.items ≡ row.items) × StandInOrder row.items jobs) }
    ensures rows { IfErr result (λ back. back.items ≡ rows.items) }
{
    if rows.len() != 1 || !is_in_order(&rows[0], jobs) {
        return Err(rows);
    }
    match rows.pop() {
        Some(row) => Ok(row),
        None => unreachable!(),
    }
}

/// Asks each commit that waits once again, in order, and returns whether one was answered.
fn pass<R: Wait>(rt: &R, order: &mut Vec<Arrival>) -> bool
    ensures { AllGoOn order.old.items order.new.items }
{
    let mut changed = false;
    'order: for i in 0..order.len() {
        if order[i].ask_again(rt) {
            changed = true;
        }
    }
    changed
}

/// Asks the commits that wait again, in passes until a pass changes nothing. Each pass but the last has a commit
/// answered, so there are no more passes than jobs.
pub(crate) fn settle<R: Wait>(rt: &R, order: &mut Vec<Arrival>)
    ensures { AllGoOn order.old.items order.new.items }
{
    let jobs = order.len();
    'passes: for _ in 0..jobs {
        if !pass(rt, order) {
            return;
        }
    }
}
