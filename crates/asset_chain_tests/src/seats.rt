//! Seats beside a plain list that does the same by scanning, and what is left if memory runs out.

ghost use Rattle.std.specs.Prelude.{◌≡◌, true, OnOk};

use asset_chains::Chains;
use asset_names::{NoMemory, Txn};
use asset_seats::{Seats, add_chains, add_keys};
use asset_test_tools::next;
use std::test::Fail;

/// How many transactions there are beside the plain list, and how many calls are drawn.
const NAMES: u64 = 40;

const CALLS: usize = 3_000;

/// How many transactions sit at one time.
const MANY: u64 = 1_000;

/// Reserves a seat. If memory runs out, nobody's seat has changed, and the same call is made again.
fn reserve(seats: &mut Seats) -> Result<(), NoMemory>
    ensures { OnOk result (seats.new.has_room ≡ true) }
{
    match seats.reserve() {
        Ok(()) => Ok(()),
        Err(NoMemory) => seats.reserve(),
    }
}

/// Gives a transaction the next seat, or the one that it has.
fn sit(seats: &mut Seats, t: u64) -> Result<usize, NoMemory> {
    reserve(seats)?;
    match seats.seat_of(Txn(t)) {
        Some(c) => Ok(c),
        None => Ok(seats.sit(Txn(t))),
    }
}

/// Returns whether the transaction has this seat, and the seat is its.
fn has_seat(seats: &Seats, t: u64, seat: Option<usize>) -> bool {
    seats.seat_of(Txn(t)) == seat
        && match seat {
            Some(c) => seats.name_at(c) == Some(Txn(t)),
            None => true,
        }
}

/// Returns the position of the transaction's seat in the list, in which each slot has who sits there.
fn seat_in(list: &[Option<u64>], t: u64) -> Option<usize> {
    list.iter().position(|slot| *slot == Some(t))
}

/// Puts the transaction on a seat in the list, which is one longer if the seat is new. Returns whether the seat was free
/// or its own.
fn sit_in(list: &mut Vec<Option<u64>>, seat: usize, t: u64) -> Result<bool, Fail> {
    if seat == list.len() {
        list.push(Some(t))?;
        return Ok(true);
    }
    match list.get_mut(seat) {
        Some(slot) => {
            let free = *slot == None || *slot == Some(t);
            *slot = Some(t);
            Ok(free)
        }
        None => Ok(false),
    }
}

/// Lets the transaction leave its seat in the list, if it has one; returns the seat.
fn leave_in(list: &mut [Option<u64>], t: u64) -> Option<usize> {
    let seat = seat_in(list, t)?;
    *list.get_mut(seat)? = None;
    Some(seat)
}

/// Makes the call that a number stands for, on seats and the list. Returns whether both have the same seats after it.
fn call(seats: &mut Seats, list: &mut Vec<Option<u64>>, number: u64) -> Result<bool, Fail> {
    let t = (number >> 30) % NAMES;
    let before = seat_in(list, t);
    let same = if (number >> 50) % 3 == 0 {
        match leave_in(list, t) {
            Some(seat) => {
                seats.leave(seat);
                seats.vacant() == seat
            }
            None => true,
        }
    } else {
        let next_seat = seats.vacant();
        let seat = sit(seats, t)?;
        let given = before == Some(seat) || (before == None && seat == next_seat);
        given && sit_in(list, seat, t)?
    };
    Ok(same && (0..NAMES).all(|u| has_seat(seats, u, seat_in(list, u))))
}

/// Draws calls, and returns the first after which seats and list differ.
fn first_difference(seats: &mut Seats, list: &mut Vec<Option<u64>>) -> Result<Option<usize>, Fail> {
    let mut number = 1;
    for i in 0..CALLS {
        number = next(number);
        if !call(seats, list, number)? {
            return Ok(Some(i));
        }
    }
    Ok(None)
}

#[test]
fn seats_agree_with_a_plain_list(rt: HostRuntime) -> Result<(), Fail> {
    let mut seats = Seats::new(rt.alloc());
    let mut list = Vec::new(rt.alloc());
    let difference = first_difference(&mut seats, &mut list);
    drop(seats);
    drop(list);
    assert_eq!(rt; difference?, None);
    Ok(())
}

/// Seats `MANY` transactions, asking once for each; returns the seat of the last.
fn seat_many(seats: &mut Seats) -> Result<Option<usize>, NoMemory> {
    for t in 0..MANY {
        seats.reserve()?;
        if seats.seat_of(Txn(t)).is_none() {
            seats.sit(Txn(t));
        }
    }
    Ok(seats.seat_of(Txn(MANY - 1)))
}

#[test]
fn thousand_transactions_are_seated(rt: HostRuntime) -> Result<(), Fail> {
    let mut seats = Seats::new(rt.alloc());
    let last = seat_many(&mut seats);
    drop(seats);
    assert_eq!(rt; last, Ok(Some(999)));
    Ok(())
}

/// Adds three seats, and lets 7 have the last of them and leave it; returns the seats that were given and how many there
/// are.
fn add_seats(seats: &mut Seats) -> Result<(usize, usize, usize), NoMemory> {
    for _ in 0..3 {
        if let Err(NoMemory) = seats.add_seat() {
            seats.add_seat()?;
        }
    }
    let first = sit(seats, 7)?;
    seats.leave(first);
    let again = sit(seats, 8)?;
    Ok((first, again, seats.seats()))
}

#[test]
fn added_seats_are_free(rt: HostRuntime) -> Result<(), Fail> {
    let mut seats = Seats::new(rt.alloc());
    let added = add_seats(&mut seats);
    drop(seats);
    assert_eq!(rt; added, Ok((2, 2, 3)));
    Ok(())
}

/// Adds keys up to 100 and chains up to 50, once each; returns how many there are.
fn add_room(chains: &mut Chains) -> Result<(usize, usize), NoMemory> {
    add_keys(chains, 100)?;
    add_chains(chains, 50)?;
    add_keys(chains, 10)?;
    Ok((chains.keys(), chains.chains()))
}

#[test]
fn keys_and_chains_are_added(rt: HostRuntime) -> Result<(), Fail> {
    let mut chains = Chains::new(rt.alloc());
    let added = add_room(&mut chains);
    drop(chains);
    assert_eq!(rt; added, Ok((101, 51)));
    Ok(())
}
