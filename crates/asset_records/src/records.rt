//! The update records of the operations that stand, each in the row of its object and in the column of its owner.

ghost use Rattle.std.specs.Prelude.{◌≡◌, ◌<◌, ◌^◌};
ghost use Rattle.asset_records.specs.Listed.{record_of, seat_column};

use crate::dropping::{counted, drop_at};
use crate::handing::{One, Picks, hand_over_picked};
use crate::layers::{Mark, add_mark, mark_of, next_mark, over_in, set_mark};
use crate::mending::{Mend, mend_write};
use crate::settling::{next_to_settle, settle_at, shed};
use asset_chains::{Crossed, Side};
use asset_names::{NoMemory, Txn};
use asset_seats::{Seats, Sitter, add_lines, reserve_item};
use std::alloc::Global;
use std::marker::Model;

/// The update record of an operation that stands. What a write wrote is what the next write found less the adds between them,
/// or else the value in place less the adds since.
#[derive(Clone, Copy)]
pub enum Record {
    /// A write: whose it is, and the value that the object had before.
    Write { owner: Txn, before: i64 },
    /// An add: whose it is, and the amount.
    Add { owner: Txn, amount: i64 },
    /// An add of nobody, which stands for good over a write that may go: the amount.
    Lasting { amount: i64 },
}

impl Record {
    ghost use Rattle.std.specs.Prelude.{◌≡◌, true, Some};
    ghost use Rattle.asset_records.specs.Listed.{is_owned};
    ghost use Rattle.asset_records.specs.Dropped.{added_by};
    ghost use Rattle.asset_records.specs.Mended.{content_of, mend_by, mended_record};

    /// Returns whether the record is somebody's.
    pub(crate) fn is_somebodys(self) -> bool
        ensures { result ≡ is_owned (λ n. true) self }
    {
        match self {
            Record::Write { .. } => true,
            Record::Add { .. } => true,
            Record::Lasting { .. } => false,
        }
    }

    /// Returns the amount of an add, and `None` for a write.
    pub(crate) fn added(self) -> Option<i64>
        ensures { result ≡ added_by (Some self) }
    {
        match self {
            Record::Write { .. } => None,
            Record::Add { amount, .. } => Some(amount),
            Record::Lasting { amount } => Some(amount),
        }
    }

    /// Returns the content of the record: what a write found, or the amount of an add.
    pub(crate) fn content(self) -> i64
        ensures { result ≡ content_of self }
    {
        match self {
            Record::Write { before, .. } => before,
            Record::Add { amount, .. } => amount,
            Record::Lasting { amount } => amount,
        }
    }

    /// Returns what becomes of the value over the record when it goes, if the adds over it make this value of the one that a
    /// write found.
    pub(crate) fn mend(self, value: i64) -> Mend
        ensures { result ≡ mend_by self value }
    {
        match self {
            Record::Write { .. } => Mend::Set(value),
            Record::Add { amount, .. } => Mend::Less(amount),
            Record::Lasting { amount } => Mend::Less(amount),
        }
    }

    /// Returns the record, which finds the mended value if it is a write.
    pub(crate) fn mended(self, mend: Mend) -> Record
        ensures { result ≡ mended_record mend self }
    {
        match self {
            Record::Write { owner, before } => Record::Write {
                owner,
                before: mend.mended(before),
            },
            Record::Add { owner, amount } => Record::Add { owner, amount },
            Record::Lasting { amount } => Record::Lasting { amount },
        }
    }
}

/// An operation that changes an object, of which a record is kept.
#[derive(Clone, Copy)]
pub enum Change {
    /// A write over the value `before`.
    Wrote { before: i64 },
    /// An add of the amount.
    Added { amount: i64 },
}

impl Change {
    ghost use Rattle.std.specs.Prelude.{◌≡◌, true, false};
    ghost use Rattle.asset_records.specs.Listed.{record_of};
    ghost use Rattle.asset_records.specs.Mended.{is_write};
    ghost use Rattle.asset_names.specs.declared.names.Txn.{Txn as Name};

    /// Returns whether the record of the change may stand over another, of which it is said whether that is an add, so that no
    /// write stands over an add.
    pub(crate) fn may_follow(self, over_add: bool) -> bool
        ensures { result ≡ true → over_add ≡ true → (owner : Name) → is_write (record_of owner self) ≡ false }
    {
        match self {
            Change::Wrote { .. } => !over_add,
            Change::Added { .. } => true,
        }
    }
}

/// What a record that was taken back leaves to do.
#[derive(Clone, Copy)]
pub struct Undone {
    /// The index of the object.
    pub object: usize,
    /// What becomes of the value in place; `None` if it stays, since a later write found the value that changes.
    pub restored: Option<Mend>,
    /// How many records were visited, from 1 to 4.
    pub visited: usize,
}

/// What became of the records of an object when one of them came to stand for good.
#[derive(Clone, Copy)]
pub struct Settled {
    /// The index of the object.
    pub object: usize,
    /// How many records were visited. One of nobody that goes counts for nothing.
    pub visited: usize,
}

/// The update records of each object, asked by seat. Objects are numbered from 0 on. Each record is in the row of its object
/// and in the column of its owner's seat, and the seats are kept elsewhere: each call about a transaction takes them, and
/// requires that the records are tied to them. Contracts see the rows and columns; `lists_in` says which records each object has,
/// oldest first.
pub struct Records {
    records: Crossed<Record>,
    /// Of each object, what is known of its records.
    marks: Vec<Mark>,
}

impl Drop for Records {
    fn drop(self) {
        let Records { records, marks } = self;
        drop(records);
        drop(marks);
    }
}

impl Model for Records {
    ghost use Rattle.asset_chains.specs.Crossed.{Crossed as RowsAndColumns};
    ghost use Rattle.asset_records.specs.declared.records.Record.{Record as Update};
    ghost use Rattle.asset_records.specs.Layered.{AreMarked};
    ghost use Rattle.asset_records.specs.Listed.{lists_in};

    ghost Value = { RowsAndColumns Update };

    ghost view = { λ r. r.records };

    ghost invariant = { λ r. AreMarked r.marks.items (lists_in r.records) };
}

/// Returns the column of a seat.
fn column(seat: usize) -> usize
    requires { seat < 2 ^ 63 }
    ensures { result ≡ seat_column seat }
{
    seat + 1
}

/// Returns the record of a change.
fn record_of(owner: Txn, change: Change) -> Record
    ensures { result ≡ record_of owner change }
{
    match change {
        Change::Wrote { before } => Record::Write { owner, before },
        Change::Added { amount } => Record::Add { owner, amount },
    }
}

impl Records {
    ghost use Rattle.std.specs.Prelude.{◌≡◌, ℕ, ◌<◌, ◌≤◌, ◌+◌, ◌*◌, ◌==◌, cond, true, false, [], ◌∷◌, ◌++◌, None, Some, is_none, length, map, IfSome, IfNone, OnOk, OnErr, IsOk};
    ghost use Rattle.std.specs.List.{list_any};
    ghost use Rattle.slab.specs.Slab.{slab_len};
    ghost use Rattle.asset_chains.specs.Chained.{chain_of, first_of};
    ghost use Rattle.asset_chains.specs.Crossed.{has_room};
    ghost use Rattle.asset_seats.specs.Seated.{Seated, seat, HasSeat};
    ghost use Rattle.asset_names.specs.declared.names.Txn.{Txn as Name};
    ghost use Rattle.asset_records.specs.Listed.{lists_in, on, is_of, begins_with_nobodys, records_by, record_of, seat_column, ChangesOn, ComesLast, LosesLast, TakesBack, Settles, Sheds, HasNone, IsTied, IsNoMore};
    ghost use Rattle.asset_records.specs.Handed.{renamed};

    /// Returns no objects and no records. It does not allocate.
    pub fn new(alloc: Global) -> Records
        ensures lists { lists_in result ≡ [] }
        ensures len { slab_len result.items ≡ 0 }
        ensures tied { (seats : Seated) → ((c : ℕ) → seat seats c ≡ None) → IsTied result seats }
    {
        Records {
            records: Crossed::new(alloc),
            marks: Vec::new(alloc),
        }
    }

    /// Adds an object, which has no record. Its index is how many objects there were. If memory runs out, nothing
    /// changes.
    pub fn add_object(&mut self) -> Result<(), NoMemory>
        ensures added { OnOk result (lists_in self.new ≡ lists_in self.old ++ [] ∷ []) }
        ensures unchanged { OnErr result (self.new ≡ self.old) }
        ensures reserved { has_room self.new ≡ has_room self.old }
        ensures few { IsNoMore self.old self.new }
        ensures tied { (seats : Seated) → IsTied self.old seats → IsTied self.new seats }
    {
        add_mark(&mut self.marks)?;
        match self.records.add(Side::Row) {
            Ok(()) => Ok(()),
            Err(_) => Err(NoMemory),
        }
    }

    /// Adds columns until the seat has one. If memory runs out, some may have been added, and no record has changed.
    pub fn make_room(&mut self, c: usize) -> Result<(), NoMemory>
        ensures room { OnOk result (seat_column c < length self.new.columns.chains) }
        ensures lists { lists_in self.new ≡ lists_in self.old }
        ensures reserved { has_room self.new ≡ has_room self.old }
        ensures few { IsNoMore self.old self.new }
        ensures tied { (seats : Seated) → IsTied self.old seats → IsTied self.new seats }
    {
        match c.checked_add(1) {
            Some(column) => add_lines(&mut self.records, Side::Column, column),
            None => Err(NoMemory),
        }
    }

    /// Reserves the memory for one more record, which stands until that record. If memory runs out, no record changes.
    pub fn reserve(&mut self) -> Result<(), NoMemory>
        ensures reserved { OnOk result (has_room self.new ≡ true) }
        ensures standing { has_room self.old ≡ true → IsOk result }
        ensures lists { lists_in self.new ≡ lists_in self.old }
        ensures few { IsNoMore self.old self.new }
        ensures tied { (seats : Seated) → IsTied self.old seats → IsTied self.new seats }
    {
        reserve_item(&mut self.records)
    }

    /// Appends a record of the owner to those of the object, and to its own. It uses the memory that `reserve` reserved.
    #[inline(always)]
    pub fn push(&mut self, seats: &Seats, owner: Sitter, object: usize, change: Change)
        requires tied { IsTied self.old seats.now }
        requires sits { HasSeat seats.now owner }
        requires object { object < length (lists_in self.old) }
        requires reserved { has_room self.old ≡ true }
        ensures len { slab_len self.new.items ≡ slab_len self.old.items + 1 }
        ensures columns { length self.new.columns.chains ≡ length self.old.columns.chains }
        ensures tied { IsTied self.new seats.now }
        ensures pushed { ChangesOn object (on (lists_in self.old) object ++ record_of owner.t change ∷ []) (lists_in self.old) (lists_in self.new) }
        ensures last { ComesLast (seat_column owner.at) (record_of owner.t change) self.old self.new }
    {
        let _ = seats;
        self.records.laws();
        let next = next_mark(&self.records, self.marks.as_slice(), object, change);
        let at = column(owner.at);
        self.records.insert(object, at, record_of(owner.t, change));
        set_mark(&mut self.marks, object, next);
    }

    /// Takes back the record that is the last in the transaction's column, and returns what is left to do; `None` if it has none.
    ///
    /// It looks at the adds over the record, up to the next write; over the record of an add only if a write has stood over an
    /// add of the object since the object last had no record.
    pub fn take_back(&mut self, seats: &Seats, t: Sitter) -> Option<Undone>
        requires tied { IsTied self.old seats.now }
        requires sits { HasSeat seats.now t }
        ensures few { IsNoMore self.old self.new }
        ensures tied { IsTied self.new seats.now }
        ensures taken { IfSome result (λ undone. TakesBack t.t.0 undone.object undone.restored (lists_in self.old) (lists_in self.new) × (1 ≤ undone.visited) × (undone.visited ≤ 4)) }
        ensures last { IfSome result (λ undone. LosesLast (seat_column t.at) undone.object self.old self.new) }
        ensures none { IfNone result (HasNone t.t.0 (lists_in self.old) × (self.new ≡ self.old)) }
        ensures reserved { has_room self.old ≡ true → has_room self.new ≡ true }
    {
        seats.laws();
        self.records.laws();
        let at = column(t.at);
        let key = self.records.last(Side::Column, at)?;
        let object = self.records.home(Side::Row, key)?;
        let over = over_in(&self.records, self.marks.as_slice(), object, key);
        let beside = counted(self.records.previous(Side::Row, key)) + counted(over.write);
        let visited = 1 + beside + counted(self.records.previous(Side::Column, key));
        let restored = mend_write(&mut self.records, over.write, over.mend);
        drop_at(&mut self.records, key);
        Some(Undone {
            object,
            restored,
            visited,
        })
    }

    /// Makes a record of the transaction stand for good, and returns what became of it; `None` if it has none. A write goes, with
    /// all before it on its object. An add becomes nobody's if a write may stand before it on its object, and goes otherwise.
    pub fn settle_next(&mut self, seats: &Seats, t: Sitter) -> Option<Settled>
        requires tied { IsTied self.old seats.now }
        requires sits { HasSeat seats.now t }
        ensures few { IsNoMore self.old self.new }
        ensures tied { IsTied self.new seats.now }
        ensures settled { IfSome result (λ settled. Settles t.t.0 settled.object settled.visited (lists_in self.old) (lists_in self.new)) }
        ensures none { IfNone result (HasNone t.t.0 (lists_in self.old) × (self.new ≡ self.old)) }
        ensures reserved { has_room self.old ≡ true → has_room self.new ≡ true }
    {
        seats.laws();
        self.records.laws();
        let at = column(t.at);
        let key = next_to_settle(&self.records, at)?;
        let object = self.records.home(Side::Row, key)?;
        let visited = settle_at(&mut self.records, self.marks.as_slice(), object, key);
        self.records.laws();
        Some(Settled { object, visited })
    }

    /// Drops the adds of nobody that stand before all other records of the object. It looks at none of them while all are
    /// of writes.
    pub fn shed(&mut self, object: usize)
        ensures sheds { Sheds object (lists_in self.old) (lists_in self.new) }
        ensures all { begins_with_nobodys (on (lists_in self.new) object) ≡ false }
        ensures few { IsNoMore self.old self.new }
        ensures tied { (seats : Seated) → IsTied self.old seats → IsTied self.new seats }
        ensures reserved { has_room self.old ≡ true → has_room self.new ≡ true }
    {
        if let Mark::Writes = mark_of(self.marks.as_slice(), object) {
            return;
        }
        shed(&mut self.records, object);
        self.records.laws();
    }

    /// Makes the giver's records on the objects that are picked the taker's, and changes nothing else. Both may be one,
    /// which changes nothing. Returns how many records were visited: each that was looked at, and for each that goes over
    /// its neighbours among those of the giver, and the one that was the taker's last.
    ///
    /// It takes no memory. It looks at the giver's records; if one object alone is picked, at those or at the records on
    /// the object, whichever are fewer.
    pub fn hand_over<P: Picks>(
        &mut self,
        seats: &Seats,
        giver: Sitter,
        taker: Sitter,
        picks: &P,
    ) -> usize
        requires tied { IsTied self.old seats.now }
        requires giver { HasSeat seats.now giver }
        requires taker { HasSeat seats.now taker }
        ensures few { IsNoMore self.old self.new }
        ensures tied { IsTied self.new seats.now }
        ensures many { length (lists_in self.new) ≡ length (lists_in self.old) }
        ensures lists { (j : ℕ) → on (lists_in self.new) j ≡ cond (P.picks picks.now j) (map (renamed giver.t.0 taker.t.0) (on (lists_in self.old) j)) (on (lists_in self.old) j) }
        ensures counted { (taker.t.0 == giver.t.0) ≡ false → (j : ℕ) → P.picks picks.now j ≡ true → list_any (is_of giver.t.0) (on (lists_in self.old) j) ≡ true → 1 ≤ result }
        ensures visits { result ≤ 4 * records_by (λ n. n == giver.t.0) (lists_in self.old) }
        ensures reserved { has_room self.old ≡ true → has_room self.new ≡ true }
    {
        seats.laws();
        self.records.laws();
        if taker.t.0 == giver.t.0 {
            return 0;
        }
        let to = Sitter {
            t: taker.t,
            at: column(taker.at),
        };
        let from = column(giver.at);
        let visits = hand_over_picked(&mut self.records, from, to, picks);
        self.records.laws();
        visits
    }

    /// Makes the giver's records on the object the taker's, as `hand_over` does. An index past the last object has no
    /// records.
    pub fn hand_over_on(
        &mut self,
        seats: &Seats,
        giver: Sitter,
        taker: Sitter,
        object: usize,
    ) -> usize
        requires tied { IsTied self.old seats.now }
        requires giver { HasSeat seats.now giver }
        requires taker { HasSeat seats.now taker }
        ensures few { IsNoMore self.old self.new }
        ensures tied { IsTied self.new seats.now }
        ensures many { length (lists_in self.new) ≡ length (lists_in self.old) }
        ensures lists { (j : ℕ) → on (lists_in self.new) j ≡ cond (j == object) (map (renamed giver.t.0 taker.t.0) (on (lists_in self.old) j)) (on (lists_in self.old) j) }
        ensures counted { (taker.t.0 == giver.t.0) ≡ false → list_any (is_of giver.t.0) (on (lists_in self.old) object) ≡ true → 1 ≤ result }
        ensures visits { result ≤ 4 * records_by (λ n. n == giver.t.0) (lists_in self.old) }
        ensures reserved { has_room self.old ≡ true → has_room self.new ≡ true }
    {
        self.hand_over(seats, giver, taker, &One { object })
    }

    /// Returns how many records there are.
    pub fn len(&self) -> usize
        ensures { result ≡ slab_len self.now.items }
    {
        self.records.items()
    }

    /// Returns whether no record is in the column of the seat.
    pub fn is_unused(&self, c: usize) -> bool
        ensures { result ≡ is_none (first_of (chain_of self.now.columns (seat_column c))) }
    {
        self.records.laws();
        match c.checked_add(1) {
            Some(column) => self.records.first(Side::Column, column).is_none(),
            None => true,
        }
    }

    /// Says that one who has no seat, or one whose column is empty, has no record, for proofs. It does nothing.
    pub fn has_none(&self, seats: &Seats, t: Txn)
        requires tied { IsTied self.now seats.now }
        requires none { (c : ℕ) → seat seats.now c ≡ Some t → first_of (chain_of self.now.columns (seat_column c)) ≡ None }
        ensures { HasNone t.0 (lists_in self.now) }
    {
        let _ = seats;
        self.records.laws();
    }

    /// Says that no more columns have a record than there are records, for proofs. It does nothing.
    pub fn few_columns(&self)
        ensures some { (c : ℕ) → is_none (first_of (chain_of self.now.columns (seat_column c))) ≡ false → 1 ≤ slab_len self.now.items }
        ensures few { (n : ℕ) → ((c : ℕ) → c < n → is_none (first_of (chain_of self.now.columns (seat_column c))) ≡ false) → n ≤ slab_len self.now.items }
    {
        self.records.laws();
    }

    /// Says that whoever has the seat of a column without records may leave it, for proofs. It does nothing.
    pub fn may_clear(&self, seats: &Seats)
        requires { IsTied self.now seats.now }
        ensures left { (left : Seated) (at : ℕ) → is_none (first_of (chain_of self.now.columns (seat_column at))) ≡ true → ((c : ℕ) → seat left c ≡ cond (c == at) None (seat seats.now c)) → IsTied self.now left }
    {
        let _ = seats;
        self.records.laws();
    }

    /// Says that a seat that is free and has a column may be given, for proofs. It does nothing.
    pub fn may_sit(&self, seats: &Seats)
        requires { IsTied self.now seats.now }
        ensures sits { (given : Seated) (at : ℕ) (t : Name) → seat seats.now at ≡ None → seat_column at < length self.now.columns.chains → ((c : ℕ) → seat given c ≡ cond (c == at) (Some t) (seat seats.now c)) → IsTied self.now given }
    {
        let _ = seats;
        self.records.laws();
    }

    /// Says that one who has no record may leave its seat, for proofs. It does nothing.
    pub fn may_leave(&self, seats: &Seats, t: Sitter)
        requires tied { IsTied self.now seats.now }
        requires sits { HasSeat seats.now t }
        ensures left { HasNone t.t.0 (lists_in self.now) → (left : Seated) → ((c : ℕ) → seat left c ≡ cond (c == t.at) None (seat seats.now c)) → IsTied self.now left }
    {
        seats.laws();
        self.records.laws();
    }
}
