//! Calls of a manager and of a session that are made again if memory runs out once.

ghost use Rattle.std.specs.Prelude.{◌≡◌, [], Some, IfOk};
ghost use Rattle.asset_counts.specs.Pass.{IsOf};

use asset_manager::{Counts, Manager, OpenFault, Session, WatchPass};
use asset_names::{Fault, NoMemory, Ob, Outcome, Reply, Step};
use std::alloc::Global;
use std::sync::Wait;

/// Three objects with 100, 200 and 300.
pub const THREE: [(Ob, i64); 3] = [(Ob(1), 100), (Ob(2), 200), (Ob(3), 300)];

/// Room for more entries than a small test asks for.
pub const ROOM: usize = 10_000;

/// Opens a manager. If memory runs out once, it is opened again.
pub fn opened(
    alloc: Global,
    opening: &[(Ob, i64)],
    capacity: usize,
) -> Result<(Manager, Session), OpenFault>
    ensures { IfOk result (λ opened. (opened.1.of ≡ Some opened.0) × (opened.1.list.calls ≡ [])) }
{
    match Manager::open(alloc, opening, capacity) {
        Err(OpenFault::NoMemory) => Manager::open(alloc, opening, capacity),
        opened => opened,
    }
}

/// Makes room in a session's list. If memory runs out once, nothing has changed and it is made again.
pub fn reserved(session: &mut Session, count: usize) -> Result<(), NoMemory>
    ensures { session.new.of ≡ session.old.of }
{
    let before = session.calls().len();
    match session.reserve(count) {
        Err(NoMemory) if session.calls().len() == before => session.reserve(count),
        made => made,
    }
}

/// Returns the counts that a manager's word shows.
pub fn shown(manager: &Manager) -> Counts {
    let mut pass = WatchPass::none();
    manager.watch().read(&mut pass)
}

/// Asks for a step, by the only session that asks now. If memory runs out once, nothing has changed and it is asked
/// again.
pub fn call<R: Wait>(
    rt: &R,
    manager: &Manager,
    session: &mut Session,
    step: &Step,
) -> Result<Outcome, Fault>
    requires { IsOf session.old.of manager.now }
    ensures { IsOf session.new.of manager.now }
{
    let before = (session.calls().len(), shown(manager));
    match session.call(rt, manager, *step) {
        Err(Fault::NoMemory) if (session.calls().len(), shown(manager)) == before => {
            session.call(rt, manager, *step)
        }
        answer => answer,
    }
}

/// Asks for a step, while other sessions may ask too, and returns whether it is answered so. If memory runs out once,
/// the session's list has not changed and it is asked again.
pub fn is_answered<R: Wait>(
    rt: &R,
    manager: &Manager,
    session: &mut Session,
    step: &Step,
    reply: Reply,
) -> bool
    requires { IsOf session.old.of manager.now }
    ensures { IsOf session.new.of manager.now }
{
    let before = session.calls().len();
    let answer = match session.call(rt, manager, *step) {
        Err(Fault::NoMemory) if session.calls().len() == before => {
            session.call(rt, manager, *step)
        }
        answer => answer,
    };
    answer == Ok(Outcome::Answer(reply))
}
