//! Dependencies by seat: worked values, and a class of hundreds.

ghost use Rattle.asset_deps.specs.Valid.{IsTied};

use crate::sitting::sitter;
use asset_deps::SeatedDeps;
use asset_names::{Kind, NoMemory, Txn};
use asset_seats::Seats;
use asset_test_tools::{END, FIRST};
use std::alloc::Global;
use std::marker::Model;

/// Gives a transaction a seat, with room for its dependencies, if it has none. If memory runs out, nobody sits down.
fn enter(seats: &mut Seats, deps: &mut SeatedDeps, t: Txn) -> Result<(), NoMemory>
    requires { IsTied deps.old seats.old }
    ensures { IsTied deps.new seats.new }
{
    if seats.seat_of(t).is_some() {
        return Ok(());
    }
    seats.reserve()?;
    let vacant = seats.vacant();
    deps.make_room(vacant)?;
    seats.sit(t);
    Ok(())
}

/// Dependencies by seat, beside the seats to which they are tied.
#[derive(Drop)]
struct Table {
    seats: Seats,
    deps: SeatedDeps,
}

impl Model for Table {
    ghost use Rattle.asset_deps.specs.Valid.{LinkTable, IsTied};

    ghost Value = { LinkTable };

    ghost view = { λ t. t.deps };

    ghost invariant = { λ t. IsTied t.deps t.seats };
}

impl Table {
    /// Returns no dependencies, and no seats.
    fn new(alloc: Global) -> Table {
        Table {
            seats: Seats::new(alloc),
            deps: SeatedDeps::new(alloc),
        }
    }

    /// Gives a transaction a seat, with room for its dependencies. If memory runs out, the same is done again.
    fn enter(&mut self, t: u64) -> Result<(), NoMemory> {
        match enter(&mut self.seats, &mut self.deps, Txn(t)) {
            Ok(()) => Ok(()),
            Err(NoMemory) => enter(&mut self.seats, &mut self.deps, Txn(t)),
        }
    }

    /// Makes one that has a seat depend on another, unless that closes a cycle.
    fn add_once(&mut self, kind: Kind, a: u64, b: u64) -> Result<bool, NoMemory> {
        let (Some(source), Some(dependent)) = (sitter(&self.seats, a), sitter(&self.seats, b))
        else {
            return Err(NoMemory);
        };
        if self.deps.would_cycle(&self.seats, kind, source, dependent) {
            return Ok(false);
        }
        self.deps.add(&self.seats, kind, source, dependent)?;
        Ok(true)
    }

    /// Makes `b` depend on `a`, and returns whether it could. If memory runs out, the two are in no class yet, and the same
    /// call is made again.
    fn add(&mut self, kind: Kind, a: u64, b: u64) -> bool {
        if self.enter(a).is_err() || self.enter(b).is_err() {
            return false;
        }
        match self.add_once(kind, a, b) {
            Ok(added) => added,
            Err(NoMemory) => !self.same_class(a, b) && self.add_once(kind, a, b) == Ok(true),
        }
    }

    /// Returns whether two that have seats are in one class.
    fn same_class(&mut self, a: u64, b: u64) -> bool {
        match (sitter(&self.seats, a), sitter(&self.seats, b)) {
            (Some(first), Some(second)) => self.deps.same_class(&self.seats, first, second),
            _ => false,
        }
    }

    /// Returns whether the class of one that has a seat has a source outside.
    fn has_outside_source(&mut self, t: u64) -> bool {
        match sitter(&self.seats, t) {
            Some(one) => self.deps.has_outside_source(&self.seats, one),
            None => false,
        }
    }

    /// Marks the class of one that has a seat, and returns how many are marked.
    fn mark_class(&mut self, t: u64) -> usize {
        if let Some(one) = sitter(&self.seats, t) {
            self.deps.mark_class(&self.seats, one);
        }
        self.deps.marked_count()
    }

    /// Marks the class of one that has a seat, and returns whether the marked have a source outside.
    fn marked_have_source(&mut self, t: u64) -> bool {
        let _ = self.mark_class(t);
        self.deps.marked_have_outside_source(&self.seats)
    }

    /// Marks whom an abort of one that has a seat aborts, and returns how many are marked.
    fn mark_doomed(&mut self, t: u64) -> usize {
        if let Some(one) = sitter(&self.seats, t) {
            self.deps.mark_doomed(&self.seats, one);
        }
        self.deps.marked_count()
    }

    /// Returns whether one that has a seat is marked.
    fn is_doomed(&self, u: u64) -> bool {
        match sitter(&self.seats, u) {
            Some(one) => self.deps.is_doomed(&self.seats, one),
            None => false,
        }
    }

    /// Returns who is marked at the index.
    fn marked(&self, index: usize) -> Option<Txn> {
        let seat = self.deps.marked(index)?;
        self.seats.name_at(seat)
    }

    /// Ends the one that is marked last, which leaves its seat. Returns it.
    fn end_marked(&mut self) -> Option<Txn> {
        let seat = self.deps.next_marked()?;
        let t = self.seats.name_at(seat)?;
        self.end(t.0);
        Some(t)
    }

    /// Ends one that has a seat, which it leaves.
    fn end(&mut self, t: u64) {
        if let Some(one) = sitter(&self.seats, t) {
            self.deps.end(&self.seats, one);
            self.seats.leave(one.at);
        }
    }
}

/// Returns whether an abort of 7 spreads along abort dependencies to 9, which close no cycle.
fn doom_spreads(table: &mut Table) -> bool {
    table.add(Kind::Ad, 7, 8)
        && table.add(Kind::Ad, 8, 9)
        && table.add(Kind::Ad, 7, 8)
        && !table.add(Kind::Ad, 9, 7)
        && !table.add(Kind::Cd, 9, 9)
        && table.add(Kind::Cd, 7, 6)
        && table.mark_doomed(7) == 3
        && table.is_doomed(9)
        && !table.is_doomed(6)
        && table.marked(0) == Some(Txn(7))
        && table.marked(3) == None
        && table.has_outside_source(8)
        && table.mark_doomed(8) == 2
}

/// Returns whether the dependencies of 8 are gone once it ends: 9 has no source any more, 6 still has one, and an abort of 7
/// takes nobody else.
fn doom_ends(table: &mut Table) -> bool {
    table.end(8);
    !table.has_outside_source(9)
        && !table.marked_have_source(9)
        && table.has_outside_source(6)
        && table.marked_have_source(6)
        && table.mark_doomed(7) == 1
}

#[test]
fn doom_by_seat(rt: HostRuntime) {
    let mut table = Table::new(rt.alloc());
    let spreads = doom_spreads(&mut table) && doom_ends(&mut table);
    drop(table);
    assert!(rt; spreads);
}

/// Makes a class of all of them. Returns the first that does not join it.
fn first_not_joined(table: &mut Table) -> Option<u64> {
    for t in FIRST..END {
        if !table.add(Kind::Gc, t, t + 1) {
            return Some(t);
        }
    }
    None
}

/// Ends the marked, from the last on. Returns how many they were.
fn ended(table: &mut Table) -> u64 {
    for count in 0..END {
        if table.end_marked().is_none() {
            return count;
        }
    }
    END
}

/// Returns whether all of them are one class, of which one depends on 7, and which ends at once.
fn class_ends(table: &mut Table) -> bool {
    let all = END - FIRST + 1;
    first_not_joined(table) == None
        && table.same_class(END, FIRST)
        && table.add(Kind::Cd, 7, END)
        && !table.add(Kind::Ad, FIRST, 7)
        && table.has_outside_source(FIRST)
        && table.marked_have_source(FIRST)
        && table.mark_class(FIRST) as u64 == all
        && ended(table) == all
        && !table.same_class(END, FIRST)
        && table.end_marked() == None
}

#[test]
fn class_of_hundreds_by_seat(rt: HostRuntime) {
    let mut table = Table::new(rt.alloc());
    let ends = class_ends(&mut table);
    drop(table);
    assert!(rt; ends);
}
