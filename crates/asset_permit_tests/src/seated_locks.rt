//! Locks by seat, under permits by seat, with the same seats for both: worked values, and a seat that is given again.

ghost use Rattle.std.specs.Prelude.{◌≡◌, ◌==◌, position, IfOk, IfSome};
ghost use Rattle.asset_names.specs.Numbered.{number_in};
ghost use Rattle.asset_seats.specs.Seated.{Seated, HasSeat};
ghost use Rattle.asset_locks.specs.Tied.{IsTied};
ghost use Rattle.asset_permits.specs.Valid.{IsTied as IsPermitsTied};

use asset_locks::{Asked, LockState, SeatedLocks};
use asset_names::{NoMemory, Ob, ObSet, Op, Ops, Txn};
use asset_permits::SeatedPermits;
use asset_seats::{Seats, Sitter};
use std::alloc::Global;
use std::marker::Model;

/// Returns a transaction with its seat, if it has one.
fn sitter(seats: &Seats, t: u64) -> Option<Sitter>
    ensures { IfSome result (λ s. HasSeat seats.now s) }
{
    let at = seats.seat_of(Txn(t))?;
    Some(Sitter { t: Txn(t), at })
}

/// Returns a transaction with its seat. If it has none, it is given one, with room in both tables. If memory runs out,
/// nobody sits down.
#[tactic(auto, using(asset_locks::proofs::SeatLemmas::tied_same, asset_locks::proofs::SeatLemmas::tied_sits))]
fn enter(
    seats: &mut Seats,
    locks: &mut SeatedLocks,
    permits: &mut SeatedPermits,
    t: u64,
) -> Result<Sitter, NoMemory>
    requires locks { IsTied locks.old seats.old }
    requires permits { IsPermitsTied permits.old seats.old }
    ensures locks { IsTied locks.new seats.new }
    ensures permits { IsPermitsTied permits.new seats.new }
    ensures sits { IfOk result (λ s. HasSeat seats.new s) }
{
    if let Some(at) = seats.seat_of(Txn(t)) {
        return Ok(Sitter { t: Txn(t), at });
    }
    seats.reserve()?;
    let vacant = seats.vacant();
    permits.make_room(vacant)?;
    locks.make_room(vacant)?;
    let at = seats.sit(Txn(t));
    Ok(Sitter { t: Txn(t), at })
}

/// Returns where an object stands among others, if it does.
fn place(objects: &[Ob], x: u64) -> Option<usize>
    ensures { result ≡ position (λ y. x == y.0) objects.now }
{
    objects.iter().position(|y| x == y.0)
}

/// Returns the number of an object, if it has one.
fn number(locks: &SeatedLocks, x: u64) -> Option<usize>
    ensures { result ≡ number_in locks.now.store.objects x }
{
    place(locks.objects(), x)
}

/// Gives an object a number if it has none. If memory runs out, it gets none. Nobody sits down, and no row changes.
fn add_object(locks: &mut SeatedLocks, x: u64) -> Result<(), NoMemory>
    ensures tied { (seats : Seated) → IsTied locks.old seats → IsTied locks.new seats }
{
    match number(locks, x) {
        Some(_) => Ok(()),
        None => locks.add_object(Ob(x)),
    }
}

/// Locks and permits by seat, beside the seats to which they are tied.
#[derive(Drop)]
struct Table {
    seats: Seats,
    locks: SeatedLocks,
    permits: SeatedPermits,
}

impl Model for Table {
    ghost use Rattle.asset_locks.specs.LockTable.{LockTable};
    ghost use Rattle.asset_locks.specs.Tied.{rows_in, IsTied};
    ghost use Rattle.asset_permits.specs.Valid.{IsTied as IsPermitsTied};

    ghost Value = { LockTable };

    ghost view = { λ t. rows_in t.seats t.locks };

    ghost invariant = { λ t. IsTied t.locks t.seats × IsPermitsTied t.permits t.seats };
}

impl Table {
    /// Returns no locks, no permits, and no seats.
    fn new(alloc: Global) -> Table {
        Table {
            seats: Seats::new(alloc),
            locks: SeatedLocks::new(alloc),
            permits: SeatedPermits::new(alloc),
        }
    }

    /// Enrols a transaction, unless it is enrolled, and asks for an operation. An object without a number gets one.
    fn ask_once(&mut self, t: u64, x: u64, op: Op) -> Result<Asked, NoMemory> {
        let asker = enter(&mut self.seats, &mut self.locks, &mut self.permits, t)?;
        add_object(&mut self.locks, x)?;
        self.locks.enrol(&self.seats, asker);
        match number(&self.locks, x) {
            Some(number) => {
                let permits = &mut self.permits;
                self.locks
                    .ask(&self.seats, asker, number, Ob(x), op, permits)
            }
            None => Ok(Asked::Pending),
        }
    }

    /// Asks as `ask_once` does. If memory runs out once, the same call is made again.
    fn ask(&mut self, t: u64, x: u64, op: Op) -> Option<Asked> {
        match self.ask_once(t, x, op) {
            Ok(asked) => Some(asked),
            Err(NoMemory) => self.ask_once(t, x, op).ok(),
        }
    }

    /// Returns whether an object is free for one that has a seat.
    fn is_free(&mut self, t: u64, x: u64, op: Op) -> bool {
        let number = number(&self.locks, x);
        match sitter(&self.seats, t) {
            Some(one) => self
                .locks
                .is_free(&self.seats, one, number, Ob(x), op, &mut self.permits),
            None => false,
        }
    }

    /// Returns the state of the lock of one that has a seat.
    fn status(&self, t: u64, x: u64) -> Option<LockState> {
        let number = number(&self.locks, x);
        self.locks
            .status(&self.seats, sitter(&self.seats, t)?, number, Ob(x))
    }

    /// Returns the object at the index among those that one holds.
    fn held_by(&self, t: u64, n: usize) -> Option<Ob> {
        self.locks.held_by(&self.seats, sitter(&self.seats, t)?, n)
    }

    /// Returns how many objects one that has a seat holds, and the first of them. So few take no memory.
    fn all_held(&self, alloc: Global, t: u64) -> Option<(usize, Option<Ob>)> {
        let one = sitter(&self.seats, t)?;
        let all = ObSet::All;
        let held = self.locks.held_among(alloc, &self.seats, one, &all, None);
        let held = held.ok()?;
        Some((held.len(), held.first().copied()))
    }

    /// Gives one a seat that it has not asked for. If memory runs out once, the same call is made again.
    fn seat(&mut self, t: u64) -> bool {
        enter(&mut self.seats, &mut self.locks, &mut self.permits, t).is_ok()
            || enter(&mut self.seats, &mut self.locks, &mut self.permits, t).is_ok()
    }

    /// Adds a permit of one that has a seat for another that has one, to read and write all objects.
    fn permit_once(&mut self, giver: u64, taker: u64) -> Option<()> {
        let (from, to) = (sitter(&self.seats, giver)?, sitter(&self.seats, taker)?);
        let ops = Ops::only(Op::Read).with(Op::Write);
        let added = self.permits.add(&self.seats, from, to, ObSet::All, ops);
        added.ok()
    }

    /// Does so. If memory runs out once, the same call is made again.
    fn permit(&mut self, giver: u64, taker: u64) -> bool {
        self.permit_once(giver, taker).is_some() || self.permit_once(giver, taker).is_some()
    }

    /// Ends one that has a seat, which it leaves. Returns the seat.
    fn end(&mut self, t: u64) -> Option<usize> {
        let one = sitter(&self.seats, t)?;
        self.locks.release(&self.seats, one);
        self.permits.drop_all(&self.seats, one);
        self.seats.leave(one.at);
        Some(one.at)
    }

    /// Returns whether 9, whom 7 permits, gets what 7 holds, and 8 waits.
    fn permitted_one_goes_on(&mut self) -> bool {
        self.ask(7, 1, Op::Write) == Some(Asked::Granted)
            && self.ask(8, 1, Op::Read) == Some(Asked::Pending)
            && self.ask(9, 1, Op::Write) == Some(Asked::Pending)
            && self.permit(7, 9)
            && !self.is_free(8, 1, Op::Write)
            && self.ask(9, 1, Op::Write) == Some(Asked::Granted)
            && self.status(7, 1) == Some(LockState::Suspended)
            && self.status(9, 1) == Some(LockState::Granted)
            && self.locks.waiters(&self.seats, Ob(1), 0) == Some((Txn(8), Op::Read))
            && self.locks.waiters(&self.seats, Ob(1), 1) == None
    }

    /// Returns whether 6, which has a seat and is not enrolled, holds nothing, waits for nothing, and may end.
    fn one_who_is_not_enrolled_may_end(&mut self) -> bool {
        self.seat(6)
            && self.permit(6, 9)
            && self.status(6, 1) == None
            && self.held_by(6, 0) == None
            && !self.is_free(6, 1, Op::Read)
            && self.end(6).is_some()
            && self.locks.waiters(&self.seats, Ob(1), 1) == None
    }

    /// Returns whether who takes the seat of 7, which ended, holds nothing and is permitted nothing.
    fn seat_is_given_again(&mut self) -> bool {
        let seat = self.end(7);
        self.ask(5, 2, Op::Read) == Some(Asked::Granted)
            && sitter(&self.seats, 5).map(|one| one.at) == seat
            && self.status(5, 1) == None
            && self.held_by(5, 0) == Some(Ob(2))
            && self.held_by(5, 1) == None
            && !self.is_free(5, 1, Op::Read)
            && self.end(9).is_some()
            && self.is_free(5, 1, Op::Read)
    }
}

#[test]
fn tables_share_their_seats(rt: HostRuntime) {
    let mut table = Table::new(rt.alloc());
    assert!(rt; table.permitted_one_goes_on());
    assert!(rt; table.one_who_is_not_enrolled_may_end());
    assert!(rt; table.seat_is_given_again());
    assert_eq!(rt; table.all_held(rt.alloc(), 5), Some((1, Some(Ob(2)))));
}
