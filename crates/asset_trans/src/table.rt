//! The table of transactions and its calls.

ghost use Rattle.std.specs.Prelude.{◌≡◌, ℕ, ◌+◌, ◌<◌, ◌^◌, true, ◌==◌, length, None, is_some, sum_by, OnOk, OnErr};
ghost use Rattle.std.specs.Map.{values_of};
ghost use Rattle.asset_names.specs.declared.statuses.Status.{Status};
ghost use Rattle.asset_names.specs.Room.{owed_to};
ghost use Rattle.asset_trans.specs.TransRows.{row_in, status_in, initiate_in, set_in, ended_as, one_if_live, one_if_ended};

use crate::row::TransRow;
use asset_names::{End, NoMemory, Status, Txn};
use indexmap::IndexMap;
use std::alloc::Global;
use std::marker::Model;

/// The transactions that were initiated, in order of initiation, each with its status, its parent and its seat. Contracts
/// see this list. The caller answers for the seats, which are kept as they are given.
pub struct Trans {
    rows: IndexMap<Txn, TransRow>,
    live: usize,
    owed: usize,
    committed: usize,
    aborted: usize,
}

impl Drop for Trans {
    fn drop(self) {
        let Trans {
            rows,
            live: _,
            owed: _,
            committed: _,
            aborted: _,
        } = self;
        drop(rows);
    }
}

impl Model for Trans {
    ghost use Rattle.std.specs.Prelude.{List};
    ghost use Rattle.asset_trans.specs.TransRows.{NamedTransRow, IsValid};

    ghost Value = { List NamedTransRow };

    ghost view = { λ trans. trans.rows.entries };

    ghost invariant = { λ trans. IsValid trans.rows.entries trans.live trans.owed trans.committed trans.aborted };
}

/// Adds a transaction that has no row, as Initiated. If memory runs out, nothing changes.
fn add_row(
    rows: &mut IndexMap<Txn, TransRow>,
    t: Txn,
    parent: Option<Txn>,
    seat: usize,
) -> Result<(), NoMemory>
    requires absent { row_in rows.old.entries t.0 ≡ None }
    ensures added { OnOk result (rows.new.entries ≡ initiate_in rows.old.entries t parent seat) }
    ensures small { length rows.new.entries < 2 ^ 63 }
    ensures unchanged { OnErr result (rows.new.entries ≡ rows.old.entries) }
{
    let row = TransRow {
        status: Status::Initiated,
        parent,
        seat,
    };
    let added = match rows.insert(t, row) {
        Ok(_) => Ok(()),
        Err(_) => Err(NoMemory),
    };
    // The contract of `len` bounds the number of rows.
    let _len = rows.len();
    added
}

/// Changes the status of a transaction that has a row, and returns the one that it had. A sum over the statuses changes by
/// its part alone.
fn set_status(rows: &mut IndexMap<Txn, TransRow>, t: Txn, status: Status) -> Status
    requires there { is_some (row_in rows.old.entries t.0) ≡ true }
    ensures before { result ≡ status_in rows.old.entries t.0 }
    ensures set { rows.new.entries ≡ set_in (λ n. n == t.0) status rows.old.entries }
    ensures counted { (f : Status → ℕ) →
        sum_by (λ row. f row.status) (values_of rows.new.entries) + f (status_in rows.old.entries t.0)
        ≡ sum_by (λ row. f row.status) (values_of rows.old.entries) + f status }
{
    match rows.get_mut(&t) {
        Some(row) => {
            let before = row.status;
            row.status = status;
            before
        }
        None => Status::Unknown,
    }
}

/// Returns 1 for a status that is live, and 0 for any other.
#[tactic(auto, unfolding(crate::specs::TransRows::one_if_live))]
fn one_if_live(status: Status) -> usize
    ensures { result ≡ one_if_live status }
{
    if status.is_live() { 1 } else { 0 }
}

/// Returns 1 for the status of a transaction that has ended in this way, and 0 for any other.
#[tactic(auto, unfolding(crate::specs::TransRows::one_if_ended, asset_names::specs::Counted::has_end))]
fn one_if_ended(how: End, status: Status) -> usize
    ensures { result ≡ one_if_ended how status }
{
    match (how, status) {
        (End::Committed, Status::Committed) => 1,
        (End::Aborted, Status::Aborted) => 1,
        _ => 0,
    }
}

/// Returns the status after an end.
#[tactic(auto, unfolding(crate::specs::TransRows::ended_as))]
fn ended_as(how: End) -> Status
    ensures { result ≡ ended_as how }
{
    match how {
        End::Committed => Status::Committed,
        End::Aborted => Status::Aborted,
    }
}

impl Trans {
    ghost use Rattle.std.specs.Prelude.{◌≡◌, ◌≤◌, true, false, [], None, OnOk, OnErr, ◌==◌, is_some};
    ghost use Rattle.asset_names.specs.declared.statuses.Status.{Status};
    ghost use Rattle.asset_names.specs.Room.{owed_to};
    ghost use Rattle.asset_trans.specs.TransRows.{row_in, status_in, parent_in, seat_in, initiate_in, set_in, ended_as, one_if_live, live_count_in, owed_in, ended_in};
    ghost use Rattle.asset_names.specs.Answers.{is_unknown};
    ghost use Rattle.asset_names.specs.Endings.{is_live_status};

    /// Returns a table without transactions. It does not allocate.
    pub fn new(alloc: Global) -> Trans
        ensures { result ≡ [] }
    {
        Trans {
            rows: IndexMap::new(alloc),
            live: 0,
            owed: 0,
            committed: 0,
            aborted: 0,
        }
    }

    /// Registers `t`, which is Unknown, as Initiated, without a seat of its own: its row says seat 0.
    ///
    /// If memory runs out, nothing changes.
    pub fn initiate(&mut self, t: Txn, parent: Option<Txn>) -> Result<(), NoMemory>
        requires new { status_in self.old t.0 ≡ Status.Unknown }
        ensures done { OnOk result (self.new ≡ initiate_in self.old t parent 0) }
        ensures absent { row_in self.old t.0 ≡ None }
        ensures unchanged { OnErr result (self.new ≡ self.old) }
    {
        self.initiate_at(t, parent, 0)
    }

    /// Registers `t`, which is Unknown, as Initiated, with its seat.
    ///
    /// If memory runs out, nothing changes.
    pub fn initiate_at(&mut self, t: Txn, parent: Option<Txn>, seat: usize) -> Result<(), NoMemory>
        requires new { status_in self.old t.0 ≡ Status.Unknown }
        ensures done { OnOk result (self.new ≡ initiate_in self.old t parent seat) }
        ensures absent { row_in self.old t.0 ≡ None }
        ensures unchanged { OnErr result (self.new ≡ self.old) }
    {
        add_row(&mut self.rows, t, parent, seat)?;
        self.live += 1;
        self.owed += 2;
        Ok(())
    }

    /// Returns the row of a transaction: its status, its parent and its seat in one look. One that was never registered
    /// has none.
    pub fn find(&self, t: Txn) -> Option<TransRow>
        ensures { result ≡ row_in self.now t.0 }
    {
        match self.rows.get(&t) {
            Some(row) => Some(*row),
            None => None,
        }
    }

    /// Returns the status of a transaction. One that was never registered is Unknown.
    pub fn status(&self, t: Txn) -> Status
        ensures { result ≡ status_in self.now t.0 }
    {
        match self.rows.get(&t) {
            Some(row) => row.status,
            None => Status::Unknown,
        }
    }

    /// Returns the parent that a transaction was given, if any.
    pub fn parent(&self, t: Txn) -> Option<Txn>
        ensures { result ≡ parent_in self.now t.0 }
    {
        match self.rows.get(&t) {
            Some(row) => row.parent,
            None => None,
        }
    }

    /// Returns the seat that a transaction was given, and 0 for one that was never registered.
    pub fn seat(&self, t: Txn) -> usize
        ensures { result ≡ seat_in self.now t.0 }
    {
        match self.rows.get(&t) {
            Some(row) => row.seat,
            None => 0,
        }
    }

    /// Changes the status of `t`, which is live, to one that is owed no more entries than before.
    fn change(&mut self, t: Txn, status: Status)
        requires there { is_some (row_in self.old t.0) ≡ true }
        requires live { is_live_status (status_in self.old t.0) ≡ true }
        requires known { is_unknown status ≡ false }
        requires owed_less { owed_to status ≤ owed_to (status_in self.old t.0) }
        requires live_less { one_if_live status ≤ one_if_live (status_in self.old t.0) }
        ensures { self.new ≡ set_in (λ n. n == t.0) status self.old }
    {
        let before = set_status(&mut self.rows, t, status);
        // The contract of `len` bounds the number of rows.
        let _len = self.rows.len();
        self.live -= one_if_live(before) - one_if_live(status);
        self.owed -= before.owed() - status.owed();
        self.committed += one_if_ended(End::Committed, status);
        self.aborted += one_if_ended(End::Aborted, status);
    }

    /// Starts `t`, which is Initiated.
    pub fn begin(&mut self, t: Txn)
        requires initiated { status_in self.old t.0 ≡ Status.Initiated }
        ensures { self.new ≡ set_in (λ n. n == t.0) Status.Running self.old }
    {
        self.change(t, Status::Running);
    }

    /// Completes `t`, which is Running.
    pub fn complete(&mut self, t: Txn)
        requires running { status_in self.old t.0 ≡ Status.Running }
        ensures { self.new ≡ set_in (λ n. n == t.0) Status.Completed self.old }
    {
        self.change(t, Status::Completed);
    }

    /// Ends `t`, which is live, in this way.
    pub fn end(&mut self, t: Txn, how: End)
        requires live { is_live_status (status_in self.old t.0) ≡ true }
        ensures { self.new ≡ set_in (λ n. n == t.0) (ended_as how) self.old }
    {
        self.change(t, ended_as(how));
    }

    /// Returns how many transactions are live. It is a counter: no row is looked at.
    pub fn live_count(&self) -> usize
        ensures { result ≡ live_count_in self.now }
    {
        self.live
    }

    /// Returns how many entries all live transactions are owed, so that each can still end. It is a counter: no
    /// row is looked at.
    pub fn owed(&self) -> usize
        ensures { result ≡ owed_in self.now }
    {
        self.owed
    }

    /// Returns how many transactions have ended in this way. It is a counter: no row is looked at.
    pub fn ended(&self, how: End) -> usize
        ensures { result ≡ ended_in how self.now }
    {
        match how {
            End::Committed => self.committed,
            End::Aborted => self.aborted,
        }
    }
}
