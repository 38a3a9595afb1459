//! A record leaves its object and its owner.

ghost use Rattle.std.specs.Prelude.{◌≡◌, ℕ, ◌==◌, ◌≤◌, ◌+◌, ◌*◌, cond, true, false, None, Some, is_some, length, ◌∷◌};
ghost use Rattle.std.specs.List.{count_by};
ghost use Rattle.slab.specs.Slab.{get, slab_len};
ghost use Rattle.asset_chains.specs.Chained.{chain_of, home_of, without, ahead, behind};
ghost use Rattle.asset_chains.specs.Crossed.{has_room};
ghost use Rattle.asset_seats.specs.Seated.{Seated};
ghost use Rattle.asset_records.specs.Listed.{at_keys, record_at, is_owned, IsTied, IsNoMore};

use crate::records::Record;
use asset_chains::{Crossed, Side};

/// Takes the record at `key` out.
pub(crate) fn drop_at(records: &mut Crossed<Record>, key: usize)
    requires there { is_some (get records.old.items key) ≡ true }
    ensures tied { (seats : Seated) → IsTied records.old seats → IsTied records.new seats }
    ensures records { (k : ℕ) → get records.new.items k ≡ cond (k == key) None (get records.old.items k) }
    ensures chains { (j : ℕ) → chain_of records.new.rows j ≡ without key (chain_of records.old.rows j) }
    ensures homes { (k : ℕ) → home_of records.new.rows k ≡ cond (k == key) None (home_of records.old.rows k) }
    ensures many { length records.new.rows.chains ≡ length records.old.rows.chains }
    ensures few { IsNoMore records.old records.new }
    ensures room { has_room records.new ≡ true }
{
    records.remove(key);
}

/// Returns 1 if there is a neighbour, and 0 if there is none.
pub(crate) fn counted(neighbour: Option<usize>) -> usize
    ensures { result ≤ 1 }
{
    if neighbour.is_some() { 1 } else { 0 }
}

/// Returns whether there is a record at the key that is somebody's.
pub(crate) fn is_somebodys(records: &Crossed<Record>, key: usize) -> bool
    ensures { result ≡ is_owned (λ n. true) (record_at records.now.items key) }
{
    match records.get(key) {
        Some(one) => one.is_somebodys(),
        None => false,
    }
}

/// Returns how many records a drop of the record at the key visits: it, the next one of its object and its neighbours among
/// those of its owner. For a record of nobody it is 0.
pub(crate) fn visited_at(records: &Crossed<Record>, key: usize) -> usize
    ensures least { cond (is_owned (λ n. true) (record_at records.now.items key)) 1 0 ≤ result }
    ensures most { result ≤ 4 * cond (is_owned (λ n. true) (record_at records.now.items key)) 1 0 }
{
    if !is_somebodys(records, key) {
        return 0;
    }
    let beside = counted(records.previous(Side::Column, key))
        + counted(records.next(Side::Column, key));
    1 + counted(records.next(Side::Row, key)) + beside
}

/// Drops the records of the object, oldest first, up to the one at `last`. Returns how many records were visited: each that is
/// somebody's, with the next one of its object, and with its neighbours among those of its owner.
pub(crate) fn drop_through(records: &mut Crossed<Record>, object: usize, last: usize) -> usize
    requires there { home_of records.old.rows last ≡ Some object }
    ensures tied { (seats : Seated) → IsTied records.old seats → IsTied records.new seats }
    ensures rest { chain_of records.new.rows object ≡ behind last (chain_of records.old.rows object) }
    ensures others { (j : ℕ) → (j == object) ≡ false → chain_of records.new.rows j ≡ chain_of records.old.rows j }
    ensures kept { (k : ℕ) → is_some (get records.new.items k) ≡ true → get records.new.items k ≡ get records.old.items k }
    ensures many { length records.new.rows.chains ≡ length records.old.rows.chains }
    ensures few { IsNoMore records.old records.new }
    ensures counted { count_by (is_owned (λ n. true)) (record_at records.old.items last ∷ at_keys records.old.items (ahead last (chain_of records.old.rows object))) ≤ result }
    ensures visited { result ≤ 4 * count_by (is_owned (λ n. true)) (record_at records.old.items last ∷ at_keys records.old.items (ahead last (chain_of records.old.rows object))) }
    ensures room { has_room records.old ≡ true → has_room records.new ≡ true }
{
    records.laws();
    let mut visited: usize = 0;
    'oldest: while let Some(key) = records.first(Side::Row, object) {
        visited += visited_at(records, key);
        drop_at(records, key);
        records.laws();
        if key == last {
            return visited;
        }
    }
    visited
}
