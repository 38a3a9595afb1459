//! Permits by seat: worked values, and hundreds of permits of one giver and for one taker.

ghost use Rattle.asset_permits.specs.Valid.{IsTied};

use asset_dep_tests::sitter;
use asset_names::{NoMemory, Ob, ObList, ObSet, Op, Ops, Txn};
use asset_permits::SeatedPermits;
use asset_seats::Seats;
use asset_test_tools::{END, FIRST, ONE, Side, listed, next, pair};
use std::alloc::Global;
use std::marker::Model;

/// One of them, in the middle.
const MIDDLE: u64 = 1_100;

/// How many transactions permit one another something at random, from 0 on, and how many calls are drawn.
const GIVERS: u64 = 40;

const CALLS: usize = 2_000;

/// Gives a transaction a seat, with room for its permits, if it has none. If memory runs out, nobody sits down.
fn enter(seats: &mut Seats, permits: &mut SeatedPermits, t: Txn) -> Result<(), NoMemory>
    requires { IsTied permits.old seats.old }
    ensures { IsTied permits.new seats.new }
{
    if seats.seat_of(t).is_some() {
        return Ok(());
    }
    seats.reserve()?;
    let vacant = seats.vacant();
    permits.make_room(vacant)?;
    seats.sit(t);
    Ok(())
}

/// Permits by seat, beside the seats to which they are tied.
#[derive(Drop)]
struct Table {
    seats: Seats,
    permits: SeatedPermits,
}

impl Model for Table {
    ghost use Rattle.asset_permits.specs.Valid.{PermitTable, IsTied};

    ghost Value = { PermitTable };

    ghost view = { λ t. t.permits };

    ghost invariant = { λ t. IsTied t.permits t.seats };
}

impl Table {
    /// Returns no permits, and no seats.
    fn new(alloc: Global) -> Table {
        Table {
            seats: Seats::new(alloc),
            permits: SeatedPermits::new(alloc),
        }
    }

    /// Gives a transaction a seat, with room for its permits. If memory runs out, the same is done again.
    fn enter(&mut self, t: u64) -> Result<(), NoMemory> {
        match enter(&mut self.seats, &mut self.permits, Txn(t)) {
            Ok(()) => Ok(()),
            Err(NoMemory) => enter(&mut self.seats, &mut self.permits, Txn(t)),
        }
    }

    /// Adds a permit of two that have seats.
    fn add_once(&mut self, giver: u64, taker: u64, x: u64, ops: Ops) -> Result<(), NoMemory> {
        let (Some(from), Some(to)) = (sitter(&self.seats, giver), sitter(&self.seats, taker)) else {
            return Err(NoMemory);
        };
        self.permits
            .add(&self.seats, from, to, listed(&[Ob(x)]), ops)
    }

    /// Adds a permit, and returns whether it could. If memory runs out, nothing has changed and the same call is made
    /// again.
    fn add(&mut self, giver: u64, taker: u64, x: u64, ops: Ops) -> bool {
        if self.enter(giver).is_err() || self.enter(taker).is_err() {
            return false;
        }
        let before = (self.allows(giver, taker, x, Op::Write), self.gives(giver));
        match self.add_once(giver, taker, x, ops) {
            Ok(()) => true,
            Err(NoMemory) => {
                (self.allows(giver, taker, x, Op::Write), self.gives(giver)) == before
                    && self.add_once(giver, taker, x, ops) == Ok(())
            }
        }
    }

    /// Adds a permit to anybody of one that has a seat.
    fn open_once(&mut self, giver: u64, x: u64) -> Result<(), NoMemory> {
        let Some(from) = sitter(&self.seats, giver) else {
            return Err(NoMemory);
        };
        self.permits
            .add_any(&self.seats, from, ObList::one(Ob(x)), Ops::only(Op::Read))
    }

    /// Lets anybody read an object, and returns whether it could. If memory runs out, nothing has changed and the same call
    /// is made again.
    fn open(&mut self, giver: u64, x: u64) -> bool {
        if self.enter(giver).is_err() {
            return false;
        }
        let before = (self.allows(giver, giver, x, Op::Read), self.gives(giver));
        match self.open_once(giver, x) {
            Ok(()) => true,
            Err(NoMemory) => {
                (self.allows(giver, giver, x, Op::Read), self.gives(giver)) == before
                    && self.open_once(giver, x) == Ok(())
            }
        }
    }

    /// Returns whether two that have seats are allowed something.
    fn allows(&mut self, giver: u64, taker: u64, x: u64, op: Op) -> bool {
        match (sitter(&self.seats, giver), sitter(&self.seats, taker)) {
            (Some(from), Some(to)) => self.permits.allows(&self.seats, from, to, Ob(x), op),
            _ => false,
        }
    }

    /// Returns whether two that have seats are allowed something, by the marks on all who allow the taker.
    fn is_allower(&mut self, giver: u64, taker: u64, x: u64, op: Op) -> bool {
        match (sitter(&self.seats, giver), sitter(&self.seats, taker)) {
            (Some(from), Some(to)) => self.permits.is_allower(&self.seats, from, to, Ob(x), op),
            _ => false,
        }
    }

    /// Returns whether one that has a seat gives a permit.
    fn gives(&self, giver: u64) -> bool {
        match sitter(&self.seats, giver) {
            Some(from) => self.permits.gives(&self.seats, from),
            None => false,
        }
    }

    /// Copies permits between two that have seats.
    fn copy_once(&mut self, giver: u64, receiver: u64, moved: &[Ob]) -> Result<(), NoMemory> {
        let (Some(from), Some(to)) = (sitter(&self.seats, giver), sitter(&self.seats, receiver))
        else {
            return Err(NoMemory);
        };
        self.permits.copy_for(&self.seats, from, to, moved)
    }

    /// Copies permits, and returns whether it could. If memory runs out, the receiver gives nothing yet, and the same call
    /// is made again.
    fn copy(&mut self, giver: u64, receiver: u64, moved: &[Ob]) -> bool {
        match self.copy_once(giver, receiver, moved) {
            Ok(()) => true,
            Err(NoMemory) => {
                !self.gives(receiver) && self.copy_once(giver, receiver, moved) == Ok(())
            }
        }
    }

    /// Drops the permits of one that has a seat, which it leaves.
    fn drop_all(&mut self, t: u64) {
        if let Some(one) = sitter(&self.seats, t) {
            self.permits.drop_all(&self.seats, one);
            self.seats.leave(one.at);
        }
    }
}

/// Returns the operations of a permit to read and to write.
fn both() -> Ops {
    Ops::only(Op::Read).with(Op::Write)
}

/// Returns whether 7 allows 9 what both permits of a chain have, until 8 ends.
fn chain_allows(table: &mut Table) -> bool {
    table.add(7, 8, 1, both())
        && table.add(8, 9, 1, Ops::only(Op::Read))
        && table.add(7, 8, 1, both())
        && table.allows(7, 9, 1, Op::Read)
        && !table.allows(7, 9, 1, Op::Write)
        && !table.allows(7, 9, 2, Op::Read)
        && !table.allows(9, 7, 1, Op::Read)
        && table.allows(9, 9, 1, Op::Write)
}

/// Returns whether nothing is left of the chain once its middle is dropped.
fn chain_ends(table: &mut Table) -> bool {
    table.drop_all(8);
    !table.allows(7, 9, 1, Op::Read)
        && !table.allows(7, 8, 1, Op::Read)
        && !table.allows(8, 9, 1, Op::Read)
        && !table.gives(7)
        && !table.gives(8)
}

#[test]
fn chain_by_seat(rt: HostRuntime) {
    let mut table = Table::new(rt.alloc());
    let allowed = chain_allows(&mut table) && chain_ends(&mut table);
    drop(table);
    assert!(rt; allowed);
}

/// Returns whether 8 gets copies of the permits of 7 on the moved objects, and 7 keeps its own.
fn copied(table: &mut Table) -> bool {
    table.add(7, 9, 1, both())
        && table.add(7, 9, 2, Ops::only(Op::Write))
        && table.enter(8) == Ok(())
        && !table.gives(8)
        && table.copy(7, 8, &[Ob(2), Ob(3)])
        && table.gives(8)
        && table.allows(8, 9, 2, Op::Write)
        && !table.allows(8, 9, 1, Op::Write)
        && table.allows(7, 9, 2, Op::Write)
}

/// Returns whether the copies of 8 stay when 7 is dropped.
fn copies_stay(table: &mut Table) -> bool {
    table.drop_all(7);
    table.gives(8) && table.allows(8, 9, 2, Op::Write) && !table.allows(7, 9, 2, Op::Write)
}

#[test]
fn copies_by_seat(rt: HostRuntime) {
    let mut table = Table::new(rt.alloc());
    let stand = copied(&mut table) && copies_stay(&mut table);
    drop(table);
    assert!(rt; stand);
}

/// Adds a permit for each of the others, on the object of the same number. Returns the first that is not added.
fn first_not_added(table: &mut Table, side: Side) -> Option<u64> {
    for t in FIRST..END {
        let (giver, taker) = pair(side, t);
        if !table.add(giver, taker, t, both()) {
            return Some(t);
        }
    }
    None
}

/// Returns the first of the others, but `dropped`, whose permit does not allow just what it says, or `dropped` if
/// its permit still does.
fn first_wrong(table: &mut Table, side: Side, dropped: u64) -> Option<u64> {
    for t in FIRST..END {
        let (giver, taker) = pair(side, t);
        let allowed = table.allows(giver, taker, t, Op::Write);
        let elsewhere = table.allows(giver, taker, t + 1, Op::Write);
        let back = table.allows(taker, giver, t, Op::Read);
        if allowed == (t == dropped) || elsewhere || back {
            return Some(t);
        }
    }
    None
}

/// Returns the first of the others whose permit still allows something.
fn first_left(table: &mut Table, side: Side) -> Option<u64> {
    for t in FIRST..END {
        let (giver, taker) = pair(side, t);
        if table.allows(giver, taker, t, Op::Read) || table.gives(giver) {
            return Some(t);
        }
    }
    None
}

/// Returns the first transaction that is wrong after the permits were added, and then after one of the others and
/// 7 are dropped.
fn wrong_ones(table: &mut Table, side: Side) -> [Option<u64>; 4] {
    let not_added = first_not_added(table, side);
    let not_allowed = first_wrong(table, side, END);
    table.drop_all(MIDDLE);
    let after_one = first_wrong(table, side, MIDDLE);
    table.drop_all(ONE);
    [not_added, not_allowed, after_one, first_left(table, side)]
}

#[test]
fn one_giver_permits_two_hundred_by_seat(rt: HostRuntime) {
    let mut table = Table::new(rt.alloc());
    let wrong = wrong_ones(&mut table, Side::Giver);
    drop(table);
    assert_eq!(rt; wrong, [None; 4]);
}

#[test]
fn two_hundred_permit_one_taker_by_seat(rt: HostRuntime) {
    let mut table = Table::new(rt.alloc());
    let wrong = wrong_ones(&mut table, Side::Taker);
    drop(table);
    assert_eq!(rt; wrong, [None; 4]);
}

/// Returns whether marks say of 7, who opens object 1, and of 8, who permits 7, that they allow 9 to read it, also after marks
/// that stood before; and no longer once 7 is dropped.
fn openers_are_marked(table: &mut Table) -> bool {
    let closed = table.enter(9) == Ok(())
        && table.add(8, 7, 1, both())
        && !table.is_allower(8, 9, 1, Op::Read)
        && !table.is_allower(7, 9, 1, Op::Read);
    let opened = table.open(7, 1)
        && table.is_allower(8, 9, 1, Op::Read)
        && table.is_allower(7, 9, 1, Op::Read)
        && !table.is_allower(8, 9, 1, Op::Write)
        && !table.is_allower(9, 8, 1, Op::Read);
    table.drop_all(7);
    closed && opened && !table.is_allower(8, 9, 1, Op::Read)
}

#[test]
fn opener_is_an_allower(rt: HostRuntime) {
    let mut table = Table::new(rt.alloc());
    let marked = openers_are_marked(&mut table);
    drop(table);
    assert!(rt; marked);
}

/// Returns whether each of the transactions is an allower of the taker, by marks, exactly if a search says so.
fn marks_agree(table: &mut Table, taker: u64, x: u64, op: Op) -> bool {
    let mut marked = [false; GIVERS as usize];
    for (giver, one) in marked.iter_mut().enumerate() {
        *one = table.is_allower(giver as u64, taker, x, op);
    }
    for (giver, one) in marked.iter().enumerate() {
        if table.allows(giver as u64, taker, x, op) != *one {
            return false;
        }
    }
    true
}

/// Makes the call that a number stands for: a permit comes, a transaction is dropped, or marks are compared with searches.
/// Returns whether it could be made, and both agree.
fn call(table: &mut Table, number: u64) -> bool {
    let giver = (number >> 40) % GIVERS;
    let taker = (number >> 30) % GIVERS;
    let x = (number >> 20) % 3;
    let op = if number % 2 == 0 { Op::Read } else { Op::Write };
    match (number >> 50) % 8 {
        0 => {
            table.drop_all(giver);
            true
        }
        1 | 2 => marks_agree(table, taker, x, op),
        3 => table.add(giver, taker, x, Ops::only(op)),
        _ => table.add(giver, taker, x, both()),
    }
}

/// Draws calls, and returns the first that goes wrong.
fn first_wrong_call(table: &mut Table) -> Option<usize> {
    let mut number = 1;
    for i in 0..CALLS {
        number = next(number);
        if !call(table, number) {
            return Some(i);
        }
    }
    None
}

#[test]
fn marks_agree_with_searches(rt: HostRuntime) {
    let mut table = Table::new(rt.alloc());
    let wrong = first_wrong_call(&mut table);
    drop(table);
    assert_eq!(rt; wrong, None);
}
