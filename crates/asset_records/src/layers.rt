//! What is known of the order of the records on an object. While no write stands over an add of it, the end of an add looks at
//! no add of others; while all its records are of writes, one more write looks at none of them.

ghost use Rattle.std.specs.Prelude.{◌≡◌, ◌==◌, ℕ, Bool, true, false, None, Some, ◌∷◌, ◌++◌, [], List};
ghost use Rattle.asset_chains.specs.Chained.{chain_of, home_of, ahead, behind};
ghost use Rattle.asset_names.specs.declared.names.Txn.{Txn as Name};
ghost use Rattle.asset_records.specs.declared.records.Record.{Record as Update};
ghost use Rattle.asset_records.specs.Dropped.{first_write};
ghost use Rattle.asset_records.specs.Layered.{mark_at, says_layered, only_writes, fits, AreMarked};
ghost use Rattle.asset_records.specs.Listed.{at_keys, lists_in, on, record_at, record_of};
ghost use Rattle.asset_records.specs.Mended.{has_write, mend_of};

use crate::mending::{Mend, Over, added_at, stands_over};
use crate::records::{Change, Record};
use asset_chains::{Crossed, Side};
use asset_names::NoMemory;

/// What is known of the records on an object.
#[derive(Clone, Copy)]
pub(crate) enum Mark {
    /// All are of writes, if there are any.
    Writes,
    /// No write stands over an add.
    Layered,
    /// Nothing: a write may stand over an add.
    Mixed,
}

impl Mark {
    /// Returns whether no write stands over an add for sure.
    #[tactic(auto, unfolding(crate::specs::Layered::says_layered))]
    fn is_layered(self) -> bool
        ensures { result ≡ says_layered self }
    {
        match self {
            Mark::Writes => true,
            Mark::Layered => true,
            Mark::Mixed => false,
        }
    }
}

/// Returns the mark of the object.
#[tactic(auto, unfolding(crate::specs::Layered::mark_at))]
pub(crate) fn mark_of(marks: &[Mark], object: usize) -> Mark
    ensures { result ≡ mark_at marks.now object }
{
    match marks.get(object) {
        Some(mark) => *mark,
        None => Mark::Mixed,
    }
}

/// Adds a place for one more object, of which nothing is known. If memory runs out, nothing changes.
#[tactic(auto, unfolding(crate::specs::Layered::mark_at))]
pub(crate) fn add_mark(marks: &mut Vec<Mark>) -> Result<(), NoMemory>
    ensures { (i : ℕ) → mark_at marks.new.items i ≡ mark_at marks.old.items i }
{
    match marks.push(Mark::Mixed) {
        Ok(()) => Ok(()),
        Err(_) => Err(NoMemory),
    }
}

/// Marks the object. Of an object that has no place among the marks nothing is known.
#[tactic(auto, unfolding(crate::specs::Layered::mark_at))]
pub(crate) fn set_mark(marks: &mut Vec<Mark>, object: usize, mark: Mark)
    ensures own { (records : List Update) → fits mark records → fits (mark_at marks.new.items object) records }
    ensures others { (i : ℕ) → (i == object) ≡ false → mark_at marks.new.items i ≡ mark_at marks.old.items i }
{
    if object < marks.len() {
        marks[object] = mark;
    }
}

/// Returns the mark of an object of which all records are of writes, once the record of the change is its newest.
fn mark_over_writes(change: Change) -> Mark
    ensures { (records : List Update) (owner : Name) → only_writes records ≡ true → fits result (records ++ record_of owner change ∷ []) }
{
    match change {
        Change::Wrote { .. } => Mark::Writes,
        Change::Added { .. } => Mark::Layered,
    }
}

/// Returns the mark of an object that is not known to have records of writes alone, once the record of the change is its newest.
fn mark_over_newest(
    records: &Crossed<Record>,
    marks: &[Mark],
    object: usize,
    change: Change,
) -> Mark
    requires marked { AreMarked marks.now (lists_in records.now) }
    ensures { (owner : Name) → fits result (on (lists_in records.now) object ++ record_of owner change ∷ []) }
{
    records.laws();
    let Some(newest) = records.last(Side::Row, object) else {
        return mark_over_writes(change);
    };
    if !mark_of(marks, object).is_layered() {
        return Mark::Mixed;
    }
    if change.may_follow(added_at(records, newest).is_some()) {
        Mark::Layered
    } else {
        Mark::Mixed
    }
}

/// Returns the mark of the object once the record of the change is its newest. While all its records are of writes, it looks at
/// none of them.
pub(crate) fn next_mark(
    records: &Crossed<Record>,
    marks: &[Mark],
    object: usize,
    change: Change,
) -> Mark
    requires marked { AreMarked marks.now (lists_in records.now) }
    ensures { (owner : Name) → fits result (on (lists_in records.now) object ++ record_of owner change ∷ []) }
{
    match mark_of(marks, object) {
        Mark::Writes => mark_over_writes(change),
        _ => mark_over_newest(records, marks, object, change),
    }
}

/// Returns what stands over the record at the key. Where no write stands over an add for sure, it looks at
/// nothing over an add.
pub(crate) fn over_in(records: &Crossed<Record>, marks: &[Mark], object: usize, key: usize) -> Over
    requires home { home_of records.now.rows key ≡ Some object }
    requires marked { AreMarked marks.now (lists_in records.now) }
    ensures write { result.write ≡ first_write records.now.items (behind key (chain_of records.now.rows object)) }
    ensures mend { result.mend ≡ mend_of (record_at records.now.items key) (at_keys records.now.items (behind key (chain_of records.now.rows object))) }
{
    records.laws();
    if !mark_of(marks, object).is_layered() {
        return stands_over(records, object, key);
    }
    match added_at(records, key) {
        Some(amount) => Over {
            write: None,
            mend: Mend::Less(amount),
        },
        None => stands_over(records, object, key),
    }
}

/// Returns whether a write may stand below the add at the key.
pub(crate) fn may_stand_over_write(
    records: &Crossed<Record>,
    marks: &[Mark],
    object: usize,
    key: usize,
) -> bool
    requires home { home_of records.now.rows key ≡ Some object }
    requires marked { AreMarked marks.now (lists_in records.now) }
    ensures { result ≡ false → has_write (at_keys records.now.items (ahead key (chain_of records.now.rows object))) ≡ false }
{
    records.laws();
    if records.previous(Side::Row, key).is_none() {
        return false;
    }
    match records.first(Side::Row, object) {
        Some(oldest) if mark_of(marks, object).is_layered() => added_at(records, oldest).is_none(),
        _ => true,
    }
}
