//! What can be built with the models: a trip that is booked, and given back if a part of it cannot be had; and an order whose
//! parts are children of one transaction.

use crate::parts::part;
use asset_core::{Core, OpenFault};
use asset_core_tests::{ROOM, opened};
use asset_models::{Act, Asset, ModelEnd, Part, nested, saga};
use asset_names::{Fault, Ob};
use std::alloc::Global;
use std::test::Fail;

/// How many seats are free.
const SEATS: Ob = Ob(1);

/// How many rooms are free.
const ROOMS: Ob = Ob(2);

/// How much money the buyer of an order has.
const MONEY: Ob = Ob(2);

/// How many cars are free. No such object is opened here, so each write of it is refused.
const CARS: Ob = Ob(3);

/// Books the parts of a trip, one transaction after another, so that others see each at once. If one cannot be had, those
/// before it are given back in reverse order.
// The example begins here.
fn book_trip<A: Asset>(asset: &mut A, trip: &[(Part, Part)]) -> Result<ModelEnd, Fault> {
    saga(asset, trip, 0) // if a part aborts, those before it are undone by their second parts: `Undone`
}
// The example ends here.

/// Books a seat, a room and a car, of which there is none.
fn book_all<A: Asset>(alloc: Global, asset: &mut A) -> Result<ModelEnd, Fault> {
    let take_seat = part(alloc, 1, &[Act::Read(SEATS), Act::Write(SEATS, 19)]);
    let give_seat_back = part(alloc, 11, &[Act::Write(SEATS, 20)]);
    let take_room = part(alloc, 2, &[Act::Read(ROOMS), Act::Write(ROOMS, 9)]);
    let give_room_back = part(alloc, 12, &[Act::Write(ROOMS, 10)]);
    let take_car = part(alloc, 3, &[Act::Read(CARS), Act::Write(CARS, 4)]);
    let give_car_back = part(alloc, 13, &[]);
    let trip = [
        (take_seat, give_seat_back),
        (take_room, give_room_back),
        (take_car, give_car_back),
    ];
    book_trip(asset, &trip)
}

/// Opens a facility in which 20 seats and 10 rooms are free, books a trip, and returns how that ended and what is free then.
fn trip(alloc: Global) -> Result<(Result<ModelEnd, Fault>, [Option<i64>; 2]), OpenFault> {
    let mut core = opened(alloc, &[(SEATS, 20), (ROOMS, 10)], ROOM)?;
    let end = book_all(alloc, &mut core);
    let free = [core.value(SEATS), core.value(ROOMS)];
    drop(core.into_history());
    Ok((end, free))
}

#[test]
fn trip_without_a_car_is_given_back(rt: HostRuntime) -> Result<(), Fail> {
    let alloc: Global = rt.alloc();
    let mut seen = trip(alloc)?;
    if seen.0 == Err(Fault::NoMemory) {
        seen = trip(alloc)?;
    }
    assert_eq!(rt; seen, (Ok(ModelEnd::Undone), [Some(20), Some(10)]));
    Ok(())
}

/// Places an order: the parent takes the money, one child books a seat, and another would book a car. A child that fails is
/// undone alone. What the others did becomes the parent's, and stands or falls with it.
fn place_order<A: Asset>(alloc: Global, asset: &mut A) -> Result<ModelEnd, Fault> {
    let money = part(alloc, 1, &[Act::Write(MONEY, 3)]);
    let seat = part(alloc, 2, &[Act::Read(SEATS), Act::Write(SEATS, 19)]);
    let car = part(alloc, 3, &[Act::Write(SEATS, 18), Act::Write(CARS, 4)]);
    nested(asset, &money, &[seat, car], 0)
}

/// Opens a facility with 20 free seats and money for an order, places one, and returns how that ended and what is left then.
fn order(alloc: Global) -> Result<(Result<ModelEnd, Fault>, [Option<i64>; 2]), OpenFault> {
    let mut core = opened(alloc, &[(SEATS, 20), (MONEY, 10)], ROOM)?;
    let end = place_order(alloc, &mut core);
    let free = [core.value(SEATS), core.value(MONEY)];
    drop(core.into_history());
    Ok((end, free))
}

#[test]
fn order_stands_without_its_failed_child(rt: HostRuntime) -> Result<(), Fail> {
    let alloc: Global = rt.alloc();
    let mut seen = order(alloc)?;
    if seen.0 == Err(Fault::NoMemory) {
        seen = order(alloc)?;
    }
    assert_eq!(rt; seen, (Ok(ModelEnd::Committed), [Some(19), Some(3)]));
    Ok(())
}
