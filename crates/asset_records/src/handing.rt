//! Records that become another transaction's. This takes no memory.

ghost use Rattle.std.specs.Prelude.{◌≡◌, ℕ, ◌==◌, ◌≤◌, ◌*◌, ◌<◌, true, false, length, is_some, IfSome};
ghost use Rattle.slab.specs.Slab.{get};
ghost use Rattle.asset_chains.specs.Chained.{chain_of, home_of};
ghost use Rattle.asset_records.specs.Handed.{given, is_picked, is_at, goes, picked_at, stands_in, HandedOne, AreHanded};

use crate::dropping::counted;
use crate::records::Record;
use asset_chains::{Crossed, Side};
use asset_names::Txn;
use asset_seats::Sitter;

/// The objects whose records a hand-over takes, by their indexes.
pub trait Picks {
    ghost use Rattle.std.specs.Prelude.{◌≡◌, ◌==◌, ℕ, Bool, IfSome};

    /// Whether the records of the object at an index are taken.
    ghost picks: { Self → ℕ → Bool };

    /// Returns whether the records of the object at this index are taken.
    fn picks(&self, object: usize) -> bool
        ensures { result ≡ picks self.now object };

    /// Returns the index of an object if its records alone are taken, and `None` if others may be taken too.
    fn only(&self) -> Option<usize>
        ensures { IfSome result (λ i. (j : ℕ) → picks self.now j ≡ (j == i)) };
}

/// One object alone.
#[derive(Clone, Copy)]
pub(crate) struct One {
    pub object: usize,
}

impl Picks for One {
    ghost use Rattle.std.specs.Prelude.{◌==◌};

    ghost picks = { λ one j. j == one.object };

    fn picks(&self, object: usize) -> bool {
        object == self.object
    }

    fn only(&self) -> Option<usize> {
        Some(self.object)
    }
}

/// Returns the record, which is the taker's now unless it is nobody's.
fn given(taker: Txn, one: Record) -> Record
    ensures { result ≡ given taker one }
{
    let owner = taker;
    match one {
        Record::Write { before, .. } => Record::Write { owner, before },
        Record::Add { amount, .. } => Record::Add { owner, amount },
        Record::Lasting { amount } => Record::Lasting { amount },
    }
}

/// Moves the record at the key to the column of the taker, whose it is then. Returns how many records were visited beside
/// it: its neighbours, and the one that was the taker's last.
fn move_at(records: &mut Crossed<Record>, key: usize, to: Sitter) -> usize
    requires there { is_some (get records.old.items key) ≡ true }
    requires seat { to.at < length records.old.columns.chains }
    ensures one { HandedOne key to.t to.at records.old records.new }
    ensures few { result ≤ 3 }
{
    records.laws();
    let beside = counted(records.previous(Side::Column, key));
    let after = counted(records.next(Side::Column, key));
    let last = counted(records.last(Side::Column, to.at));
    records.move_to(Side::Column, key, to.at);
    let Some(record) = records.get(key).copied() else {
        unreachable!();
    };
    records.replace(key, given(to.t, record));
    beside + after + last
}

/// Returns whether there is a record at the key, and its object is picked.
fn is_picked<P: Picks>(records: &Crossed<Record>, picks: &P, key: usize) -> bool
    ensures { result ≡ is_picked (P.picks picks.now) (home_of records.now.rows key) }
{
    match records.home(Side::Row, key) {
        Some(object) => picks.picks(object),
        None => false,
    }
}

/// Moves the record at the key to the taker if its object is picked. Returns how many records were visited.
fn pass_on<P: Picks>(records: &mut Crossed<Record>, key: usize, to: Sitter, picks: &P) -> usize
    requires there { is_some (get records.old.items key) ≡ true }
    requires seat { to.at < length records.old.columns.chains }
    ensures picked { is_picked (P.picks picks.now) (home_of records.old.rows key) ≡ true → HandedOne key to.t to.at records.old records.new }
    ensures other { is_picked (P.picks picks.now) (home_of records.old.rows key) ≡ false → records.new ≡ records.old }
    ensures counted { 1 ≤ result }
    ensures few { result ≤ 4 }
{
    if is_picked(records, picks, key) {
        1 + move_at(records, key, to)
    } else {
        1
    }
}

/// Moves the records in the column whose objects are picked to the taker, oldest first. Returns how many records were
/// visited.
fn hand_over_along<P: Picks>(
    records: &mut Crossed<Record>,
    from: usize,
    to: Sitter,
    picks: &P,
) -> usize
    requires another { (from == to.at) ≡ false }
    requires seat { to.at < length records.old.columns.chains }
    ensures handed { AreHanded (chain_of records.old.columns from) (picked_at (P.picks picks.now) records.old) from to.at to.t records.old records.new }
    ensures counted { length (chain_of records.old.columns from) ≤ result }
    ensures visits { result ≤ 4 * length (chain_of records.old.columns from) }
{
    records.laws();
    let mut visits: usize = 0;
    let mut next = records.first(Side::Column, from);
    'keys: while let Some(key) = next {
        next = records.next(Side::Column, key);
        visits += pass_on(records, key, to, picks);
        records.laws();
    }
    visits
}

/// Moves the record at the key to the taker if it is in the column. Returns how many records were visited.
fn pass_from(records: &mut Crossed<Record>, key: usize, from: usize, to: Sitter) -> usize
    requires there { is_some (get records.old.items key) ≡ true }
    requires seat { to.at < length records.old.columns.chains }
    ensures picked { is_at from (home_of records.old.columns key) ≡ true → HandedOne key to.t to.at records.old records.new }
    ensures other { is_at from (home_of records.old.columns key) ≡ false → records.new ≡ records.old }
    ensures counted { 1 ≤ result }
    ensures few { result ≤ 4 }
{
    match records.home(Side::Column, key) {
        Some(column) if column == from => 1 + move_at(records, key, to),
        _ => 1,
    }
}

/// Moves the records on the object that are in the column to the taker, oldest first. Returns how many records were
/// visited.
fn hand_over_row(records: &mut Crossed<Record>, object: usize, from: usize, to: Sitter) -> usize
    requires another { (from == to.at) ≡ false }
    requires seat { to.at < length records.old.columns.chains }
    ensures handed { AreHanded (chain_of records.old.rows object) (stands_in from records.old) from to.at to.t records.old records.new }
    ensures counted { length (chain_of records.old.rows object) ≤ result }
    ensures visits { result ≤ 4 * length (chain_of records.old.rows object) }
{
    records.laws();
    let mut visits: usize = 0;
    let mut next = records.first(Side::Row, object);
    'keys: while let Some(key) = next {
        next = records.next(Side::Row, key);
        visits += pass_from(records, key, from, to);
        records.laws();
    }
    visits
}

/// Returns the object whose records are to be looked at in place of those in the column: it alone is picked, and it has no
/// more records.
fn row_to_walk<P: Picks>(records: &Crossed<Record>, from: usize, picks: &P) -> Option<usize>
    ensures only { IfSome result (λ i. (j : ℕ) → P.picks picks.now j ≡ (j == i)) }
    ensures fewer { IfSome result (λ i. length (chain_of records.now.rows i) ≤ length (chain_of records.now.columns from)) }
{
    let object = picks.only()?;
    if records.len(Side::Row, object) <= records.len(Side::Column, from) {
        Some(object)
    } else {
        None
    }
}

/// Moves the records in the column whose objects are picked to the taker. It looks at the records in the column, or at
/// those on the one object that is picked if they are no more. Returns how many records were visited.
pub(crate) fn hand_over_picked<P: Picks>(
    records: &mut Crossed<Record>,
    from: usize,
    to: Sitter,
    picks: &P,
) -> usize
    requires another { (from == to.at) ≡ false }
    requires seat { to.at < length records.old.columns.chains }
    ensures handed { AreHanded (chain_of records.old.columns from) (picked_at (P.picks picks.now) records.old) from to.at to.t records.old records.new }
    ensures counted { (k : ℕ) → goes (chain_of records.old.columns from) (picked_at (P.picks picks.now) records.old) k ≡ true → 1 ≤ result }
    ensures visits { result ≤ 4 * length (chain_of records.old.columns from) }
{
    records.laws();
    match row_to_walk(records, from, picks) {
        Some(object) => hand_over_row(records, object, from, to),
        None => hand_over_along(records, from, to, picks),
    }
}
