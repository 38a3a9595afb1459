//! A record that comes to stand for good: a write goes with all before it, and an add becomes nobody's.

ghost use Rattle.std.specs.Prelude.{◌≡◌, ℕ, ℤ, ◌<◌, ◌≤◌, ◌*◌, ◌==◌, cond, true, false, [], Some, None, is_some, length, IfSome, IfNone};
ghost use Rattle.slab.specs.Slab.{get, slab_len};
ghost use Rattle.asset_chains.specs.Chained.{chain_of, home_of};
ghost use Rattle.asset_chains.specs.Crossed.{has_room};
ghost use Rattle.asset_records.specs.declared.records.Record.TheVariants.{Lasting as Lasting'};
ghost use Rattle.asset_seats.specs.Seated.{Seated};
ghost use Rattle.asset_records.specs.Listed.{lists_in, on, record_at, is_of, begins_with_nobodys, Settles, Sheds, IsNoMore, IsTied};
ghost use Rattle.asset_records.specs.Mended.{is_write};
ghost use Rattle.asset_records.specs.Dropped.{added_at};
ghost use Rattle.asset_records.specs.Layered.{AreMarked};

use crate::dropping::{counted, drop_at, drop_through, is_somebodys, visited_at};
use crate::layers::{Mark, may_stand_over_write};
use crate::mending::added_at;
use crate::records::Record;
use asset_chains::{Crossed, Side};

/// The column of the records of nobody.
pub(crate) const NOBODY: usize = 0;

/// Puts an add of nobody, which stands for good, in the place of the add at the key. Returns how many records were visited: it,
/// its neighbours among those of its owner, and the one that was the last of nobody's.
pub(crate) fn make_lasting(records: &mut Crossed<Record>, key: usize, amount: i64) -> usize
    requires there { is_some (get records.old.items key) ≡ true }
    ensures rows { records.new.rows ≡ records.old.rows }
    ensures items { (k : ℕ) → get records.new.items k ≡ cond (k == key) (Some (Lasting' amount)) (get records.old.items k) }
    ensures homes { (k : ℕ) → home_of records.new.columns k ≡ cond (k == key) (Some 0) (home_of records.old.columns k) }
    ensures many { length records.new.columns.chains ≡ length records.old.columns.chains }
    ensures len { slab_len records.new.items ≡ slab_len records.old.items }
    ensures room { has_room records.new ≡ has_room records.old }
    ensures least { 1 ≤ result }
    ensures most { result ≤ 4 }
{
    records.laws();
    let beside = counted(records.previous(Side::Column, key));
    let after = counted(records.next(Side::Column, key));
    let last = counted(records.last(Side::Column, NOBODY));
    records.move_to(Side::Column, key, NOBODY);
    records.replace(key, Record::Lasting { amount });
    1 + beside + after + last
}

/// Drops the adds of nobody that stand before all other records of the object.
pub(crate) fn shed(records: &mut Crossed<Record>, object: usize)
    ensures sheds { Sheds object (lists_in records.old) (lists_in records.new) }
    ensures all { begins_with_nobodys (on (lists_in records.new) object) ≡ false }
    ensures few { IsNoMore records.old records.new }
    ensures tied { (seats : Seated) → IsTied records.old seats → IsTied records.new seats }
    ensures room { has_room records.old ≡ true → has_room records.new ≡ true }
{
    records.laws();
    'first: while let Some(key) = records.first(Side::Row, object) {
        if is_somebodys(records, key) {
            return;
        }
        drop_at(records, key);
        records.laws();
    }
}

/// Makes the write at the key stand for good: it goes, with all before it.
fn settle_write(records: &mut Crossed<Record>, object: usize, key: usize) -> usize
    requires there { home_of records.old.rows key ≡ Some object }
    requires write { is_write (record_at records.old.items key) ≡ true }
    ensures settled { (t : ℕ) → is_of t (record_at records.old.items key) ≡ true → Settles t object result (lists_in records.old) (lists_in records.new) }
    ensures tied { (seats : Seated) → IsTied records.old seats → IsTied records.new seats }
    ensures few { IsNoMore records.old records.new }
    ensures room { has_room records.old ≡ true → has_room records.new ≡ true }
{
    records.laws();
    let visited = drop_through(records, object, key);
    records.laws();
    visited
}

/// Makes the add at the key stand for good: it becomes nobody's if a write may stand before it, and goes otherwise.
fn settle_add(
    records: &mut Crossed<Record>,
    marks: &[Mark],
    object: usize,
    key: usize,
    amount: i64,
) -> usize
    requires there { home_of records.old.rows key ≡ Some object }
    requires marked { AreMarked marks.now (lists_in records.old) }
    requires add { added_at records.old.items key ≡ Some amount }
    ensures settled { (t : ℕ) → is_of t (record_at records.old.items key) ≡ true → Settles t object result (lists_in records.old) (lists_in records.new) }
    ensures tied { (seats : Seated) → IsTied records.old seats → IsTied records.new seats }
    ensures few { IsNoMore records.old records.new }
    ensures room { has_room records.old ≡ true → has_room records.new ≡ true }
{
    records.laws();
    if may_stand_over_write(records, marks, object, key) {
        return make_lasting(records, key, amount);
    }
    let visited = visited_at(records, key);
    drop_at(records, key);
    visited
}

/// Makes the record at the key stand for good. Returns how many records were visited. One of nobody that goes counts for
/// nothing.
pub(crate) fn settle_at(
    records: &mut Crossed<Record>,
    marks: &[Mark],
    object: usize,
    key: usize,
) -> usize
    requires there { home_of records.old.rows key ≡ Some object }
    requires marked { AreMarked marks.now (lists_in records.old) }
    ensures settled { (t : ℕ) → is_of t (record_at records.old.items key) ≡ true → Settles t object result (lists_in records.old) (lists_in records.new) }
    ensures tied { (seats : Seated) → IsTied records.old seats → IsTied records.new seats }
    ensures few { IsNoMore records.old records.new }
    ensures room { has_room records.old ≡ true → has_room records.new ≡ true }
{
    records.laws();
    match added_at(records, key) {
        Some(amount) => settle_add(records, marks, object, key, amount),
        None => settle_write(records, object, key),
    }
}

/// Returns the record in the column that is to stand for good next, if there is one: the newest if it is that of a write, since
/// all before it on its object go with it, and otherwise the oldest, since an add of it stands over no write of it then.
pub(crate) fn next_to_settle(records: &Crossed<Record>, column: usize) -> Option<usize>
    ensures found { IfSome result (λ k. home_of records.now.columns k ≡ Some column) }
    ensures none { IfNone result (chain_of records.now.columns column ≡ []) }
{
    records.laws();
    let newest = records.last(Side::Column, column)?;
    if added_at(records, newest).is_none() {
        return Some(newest);
    }
    records.first(Side::Column, column)
}
