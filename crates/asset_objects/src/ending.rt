//! The records of a transaction go, or become nobody's, when it ends.

ghost use Rattle.std.specs.Prelude.{◌≡◌, ℕ, ◌==◌, ◌≤◌, ◌+◌, ◌*◌, ◌<◌, length, true, cond};
ghost use Rattle.asset_chains.specs.Crossed.{has_room};
ghost use Rattle.asset_seats.specs.Seated.{HasSeat};
ghost use Rattle.asset_objects.specs.Cells.{undone, settled};
ghost use Rattle.asset_records.specs.Listed.{lists_in, records_by, HasNone, IsTied, IsNoMore};
ghost use Rattle.asset_objects.specs.Placed.{value_at, cell_at, restored_value};

use asset_records::{Mend, Records};
use asset_seats::{Seats, Sitter};

/// Mends the value with this index, if anything is left to mend.
fn put_back(values: &mut Vec<i64>, i: usize, restored: Option<Mend>)
    requires { i < length values.old.items }
    ensures values { (j : ℕ) → value_at values.new.items j ≡ cond (i == j) (restored_value restored (value_at values.old.items j)) (value_at values.old.items j) }
    ensures many { length values.new.items ≡ length values.old.items }
{
    if let Some(mend) = restored {
        values[i] = mend.mended(values[i]);
    }
}

/// Takes back the updates of the transaction, the newest first. Returns how many records were visited.
pub(crate) fn undo(values: &mut Vec<i64>, records: &mut Records, seats: &Seats, t: Sitter) -> usize
    requires many { length (lists_in records.old) ≡ length values.old.items }
    requires tied { IsTied records.old seats.now }
    requires sits { HasSeat seats.now t }
    ensures tied { IsTied records.new seats.now }
    ensures none { HasNone t.t.0 (lists_in records.new) }
    ensures few { IsNoMore records.old records.new }
    ensures values { length values.new.items ≡ length values.old.items }
    ensures lists { length (lists_in records.new) ≡ length (lists_in records.old) }
    ensures cells { (i : ℕ) → cell_at values.new.items (lists_in records.new) i ≡ undone (λ n. n == t.t.0) (cell_at values.old.items (lists_in records.old) i) }
    ensures visits { result ≤ 4 * records_by (λ n. n == t.t.0) (lists_in records.old) }
    ensures reserved { has_room records.old ≡ true → has_room records.new ≡ true }
{
    let mut visits: usize = 0;
    'newest: while let Some(undone) = records.take_back(seats, t) {
        put_back(values, undone.object, undone.restored);
        records.shed(undone.object);
        visits = visits.saturating_add(undone.visited);
    }
    visits
}

/// Makes the updates of the transaction stand for good, one after another. Returns how many records were visited.
pub(crate) fn settle(values: &[i64], records: &mut Records, seats: &Seats, t: Sitter) -> usize
    requires many { length (lists_in records.old) ≡ length values.now }
    requires tied { IsTied records.old seats.now }
    requires sits { HasSeat seats.now t }
    ensures tied { IsTied records.new seats.now }
    ensures none { HasNone t.t.0 (lists_in records.new) }
    ensures few { IsNoMore records.old records.new }
    ensures lists { length (lists_in records.new) ≡ length (lists_in records.old) }
    ensures cells { (i : ℕ) → cell_at values.now (lists_in records.new) i ≡ settled (λ n. n == t.t.0) (cell_at values.now (lists_in records.old) i) }
    ensures visits { result + 4 * records_by (λ n. true) (lists_in records.new) ≤ 4 * records_by (λ n. true) (lists_in records.old) }
    ensures reserved { has_room records.old ≡ true → has_room records.new ≡ true }
{
    let mut visits: usize = 0;
    'next: while let Some(settled) = records.settle_next(seats, t) {
        records.shed(settled.object);
        visits = visits.saturating_add(settled.visited);
    }
    visits
}
