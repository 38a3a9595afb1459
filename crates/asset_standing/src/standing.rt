//! What stands when a script has ended.
ghost use Rattle.std.specs.Prelude.{◌≡◌, ◌+◌, ◌^◌, ◌<◌, ◌≤◌, length, IfOk, IfErr};
ghost use Rattle.asset_names.specs.Sets.{HasNoDouble};
ghost use Rattle.asset_core.specs.OpenFaults.{IsCapacity};
ghost use Rattle.asset_names.specs.Steps.{objects_of};
ghost use Rattle.asset_core.specs.Pending.{facility_of};
ghost use Rattle.asset_scripts.specs.Preamble.{begun_at};
ghost use Rattle.asset_scripts.specs.Transfers.{input_limit};
ghost use Rattle.asset_standing.specs.Standing.{stepped, steps_left, stands, left_begun, left};
ghost use Rattle.asset_standing.specs.Stood.{stood_of};

use crate::steps::{ask, take_lines};
use asset_core::Core;
use asset_names::Ob;
use asset_scripts::{ObjectLine, OpeningObjects, Preamble, ScriptFault, take_objects};
use std::alloc::Global;

/// What stands when a script has ended.
#[derive(Drop)]
pub enum Stood {
    /// Every line was looked at, and this is the facility.
    Finished(Core),
    /// The line of this number is bad, and those after it were not looked at.
    BadLine(u64),
}

/// Asks for the first step and takes the lines after it. Returns the number of the bad line at which they end, if there is one.
fn take_steps(core: &mut Core, preamble: Preamble<'_>) -> Result<Option<u64>, ScriptFault>
    requires few { preamble.number + 1 + length preamble.rest < 2 ^ 64 }
    ensures left { IfOk result (λ bad. steps_left preamble.entry.rest (preamble.entry.number + 1) (stepped core.old preamble.entry.step) ≡ stands core.new bad) }
    ensures memory { IfErr result (λ fault. fault ≡ ScriptFault.NoMemory) }
{
    let mut step = preamble.step;
    let mut rest = preamble.rest;
    ask(core, &step)?;
    take_lines(core, &mut step, preamble.number + 1, &mut rest)
}

/// Runs what follows the object lines over the facility, if they end at a good line.
fn stand_over(core: Core, preamble: Preamble<'_>) -> Result<Stood, ScriptFault>
    requires few { preamble.number + 1 + length preamble.rest < 2 ^ 64 }
    ensures stood { IfOk result (λ stood. stood ≡ stood_of (steps_left preamble.entry.rest (preamble.entry.number + 1) (stepped core preamble.entry.step))) }
    ensures memory { IfErr result (λ fault. fault ≡ ScriptFault.NoMemory) }
{
    let mut core = core;
    match take_steps(&mut core, preamble) {
        Ok(None) => Ok(Stood::Finished(core)),
        Ok(Some(number)) => {
            drop(core);
            Ok(Stood::BadLine(number))
        }
        Err(fault) => {
            drop(core);
            Err(fault)
        }
    }
}

/// Runs what follows the object lines, over the objects that they added.
fn stand_from(
    alloc: Global,
    opening: &[(Ob, i64)],
    capacity: usize,
    preamble: Preamble<'_>,
) -> Result<Stood, ScriptFault>
    requires capacity { IsCapacity capacity }
    requires different { HasNoDouble (objects_of opening.now) }
    requires few { preamble.number + 1 + length preamble.rest < 2 ^ 64 }
    ensures stood { IfOk result (λ stood. stood ≡ stood_of (left_begun (begun_at preamble.entry.line preamble.entry.step preamble.entry.rest preamble.entry.number opening.now) capacity)) }
    ensures memory { IfErr result (λ fault. fault ≡ ScriptFault.NoMemory) }
{
    if let ObjectLine::Bad = preamble.line {
        return Ok(Stood::BadLine(preamble.number));
    }
    let Ok(core) = Core::open_distinct(alloc, opening, capacity) else {
        return Err(ScriptFault::NoMemory);
    };
    match preamble.line {
        ObjectLine::First => stand_over(core, preamble),
        _ => Ok(Stood::Finished(core)),
    }
}

/// Runs a script over a history with room for `capacity` entries, and returns what stands when it has ended.
///
/// Requires a capacity from 1 to 1,000,000, and at most 67,108,864 bytes. Answers `NoMemory` if memory runs out, and no other
/// fault.
pub fn stand(alloc: Global, bytes: &[u8], capacity: usize) -> Result<Stood, ScriptFault>
    requires capacity { IsCapacity capacity }
    requires limit { length bytes.now ≤ input_limit }
    ensures stood { IfOk result (λ stood. stood ≡ stood_of (left bytes.now capacity)) }
    ensures memory { IfErr result (λ fault. fault ≡ ScriptFault.NoMemory) }
{
    let mut opening = OpeningObjects::new(alloc);
    match take_objects(&mut opening, bytes) {
        Ok(preamble) => stand_from(alloc, &opening.into_pairs(), capacity, preamble),
        Err(fault) => Err(fault),
    }
}
