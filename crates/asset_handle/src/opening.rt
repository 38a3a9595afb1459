//! The facility that plain objects open.

ghost use Rattle.std.specs.Prelude.{◌≡◌, IfErr, IfOk, OnOk};
ghost use Rattle.asset_core.specs.OpenFaults.{IsOpenFault, MayOpen};
ghost use Rattle.asset_core.specs.Pending.{facility_of};
ghost use Rattle.asset_handle.specs.Calls.{opening_of, IsFault};

use crate::codes::Code;
use crate::plain::PlainObject;
use asset_core::{Core, OpenFault};
use asset_names::Ob;
use std::alloc::{AllocError, Global};

/// Returns the opening of plain objects.
#[tactic(auto, unfolding(crate::specs::Calls::opening_of))]
fn opening_of(alloc: Global, objects: &[PlainObject]) -> Result<Vec<(Ob, i64)>, AllocError>
    ensures { IfOk result (λ opening. opening.items ≡ opening_of objects.now) }
{
    objects
        .iter()
        .map(|given| (Ob(given.name), given.value))
        .collect(alloc)
}

/// Opens a facility over an opening, in a box.
fn open_over(alloc: Global, opening: &[(Ob, i64)], capacity: usize) -> Result<Box<Core>, OpenFault>
    ensures opened { IfOk result (λ core. core.value ≡ facility_of opening.now capacity) }
    ensures may { OnOk result (MayOpen opening.now capacity) }
    ensures fault { IfErr result (IsOpenFault opening.now capacity) }
{
    match Core::open(alloc, opening, capacity) {
        Ok(core) => match Box::new(alloc, core) {
            Ok(core) => Ok(core),
            Err(refused) => {
                // By name: its proof is made once for each type in a facility.
                drop(refused.value);
                Err(OpenFault::NoMemory)
            }
        },
        Err(fault) => Err(fault),
    }
}

/// Opens a facility over plain objects. It answers `BadCapacity` unless the capacity is from 1 to 1,000,000, `DoubleObject` with
/// the least object that is given twice in `double`, and `NoMemory` if memory runs out, perhaps before the rest is looked at.
pub(crate) fn open_core(
    alloc: Global,
    objects: &[PlainObject],
    capacity: usize,
    double: &mut u64,
) -> Result<Box<Core>, Code>
    ensures opened { IfOk result (λ core. core.value ≡ facility_of (opening_of objects.now) capacity) }
    ensures may { OnOk result (MayOpen (opening_of objects.now) capacity) }
    ensures kept { OnOk result (double.new ≡ double.old) }
    ensures fault { IfErr result (λ code. IsFault (opening_of objects.now) capacity double.old code double.new) }
{
    let Ok(opening) = opening_of(alloc, objects) else {
        return Err(Code::NoMemory);
    };
    match open_over(alloc, opening.as_slice(), capacity) {
        Ok(core) => Ok(core),
        Err(OpenFault::BadCapacity) => Err(Code::BadCapacity),
        Err(OpenFault::DoubleObject(x)) => {
            *double = x.0;
            Err(Code::DoubleObject)
        }
        Err(OpenFault::NoMemory) => Err(Code::NoMemory),
    }
}
