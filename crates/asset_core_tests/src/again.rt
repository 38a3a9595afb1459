//! Calls of a facility that are made again if memory runs out once.

ghost use Rattle.std.specs.Prelude.{◌≡◌, IfOk};
ghost use Rattle.asset_core.specs.Pending.{facility_of};

use asset_core::{Core, OpenFault};
use asset_names::{Fault, Ob, Op, Outcome, Status, Step, Txn};
use std::alloc::Global;

/// Opens the facility. If memory runs out once, it is opened again.
pub fn opened(alloc: Global, opening: &[(Ob, i64)], capacity: usize) -> Result<Core, OpenFault>
    ensures { IfOk result (λ core. core ≡ facility_of opening.now capacity) }
{
    match Core::open(alloc, opening, capacity) {
        Err(OpenFault::NoMemory) => Core::open(alloc, opening, capacity),
        opened => opened,
    }
}

/// Returns what a facility shows of its history, of object 1 and of transactions 7, 8 and 9.
fn shown(core: &Core) -> (usize, Option<i64>, Option<(Txn, Op)>, [Status; 3]) {
    let statuses = [
        core.status(Txn(7)),
        core.status(Txn(8)),
        core.status(Txn(9)),
    ];
    (
        core.history().len(),
        core.value(Ob(1)),
        core.waiters(Ob(1), 0),
        statuses,
    )
}

/// Asks a step. If memory runs out once, nothing has changed and it is asked again.
pub fn ask(core: &mut Core, step: &Step) -> Result<Outcome, Fault> {
    let before = shown(core);
    match core.step(*step) {
        Err(Fault::NoMemory) if shown(core) == before => core.step(*step),
        answer => answer,
    }
}
