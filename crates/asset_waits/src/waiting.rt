//! Whom a transaction waits for.

ghost use Rattle.std.specs.Prelude.{◌≡◌, ◌++◌, Some, IfOk};
ghost use Rattle.asset_names.specs.Steps.{applied};
ghost use Rattle.asset_core.specs.Pending.{pending_of};
ghost use Rattle.asset_waits.specs.Waiting.{blockers_of, unfinished_of, outside_sources_of, waits_as, waits_for};

use crate::listing::names_in;
use asset_core::Core;
use asset_names::{NoMemory, Ob, Op, Status, Txn};
use std::alloc::Global;

/// Returns those who block `t` from `op` on `x`, rising, or `NoMemory` if memory runs out.
pub(crate) fn blockers_of(
    alloc: Global,
    core: &mut Core,
    t: Txn,
    x: Ob,
    op: Op,
) -> Result<Vec<u64>, NoMemory>
    ensures named { IfOk result (λ names. names.items ≡ blockers_of (applied core.old.history.entries) t.0 (Some (x, op))) }
    ensures same { core.new ≡ core.old }
{
    let found = core.blockers(t, x, op)?;
    names_in(alloc, &found)
}

/// Returns the members of the class of `t` that have not completed, rising, or `NoMemory` if memory runs out.
pub(crate) fn unfinished_of(alloc: Global, core: &mut Core, t: Txn) -> Result<Vec<u64>, NoMemory>
    ensures named { IfOk result (λ names. names.items ≡ unfinished_of (applied core.old.history.entries) t.0) }
    ensures same { core.new ≡ core.old }
{
    let found = core.unfinished(t)?;
    names_in(alloc, &found)
}

/// Returns the live sources of the class of `t` outside it, rising, or `NoMemory` if memory runs out.
pub(crate) fn outside_sources_of(
    alloc: Global,
    core: &mut Core,
    t: Txn,
) -> Result<Vec<u64>, NoMemory>
    ensures named { IfOk result (λ names. names.items ≡ outside_sources_of (applied core.old.history.entries) t.0) }
    ensures same { core.new ≡ core.old }
{
    let found = core.outside_sources(t)?;
    names_in(alloc, &found)
}

/// Returns those who block the pending request of `t`, rising, or `NoMemory` if memory runs out. There are none if it has no
/// pending request.
#[tactic(auto, unfolding(crate::specs::Waiting::blockers_of))]
fn pending_blockers(alloc: Global, core: &mut Core, t: Txn) -> Result<Vec<u64>, NoMemory>
    ensures named { IfOk result (λ names. names.items ≡ blockers_of (applied core.old.history.entries) t.0 (pending_of t.0 core.old.pending)) }
    ensures same { core.new ≡ core.old }
{
    match core.pending(t) {
        Some((x, op)) => blockers_of(alloc, core, t, x, op),
        None => Ok(Vec::new(alloc)),
    }
}

/// Returns those who keep `t` from a commit, or `NoMemory` if memory runs out: first the members of its class, and then the
/// sources outside it, rising in both parts.
fn commit_blockers(alloc: Global, core: &mut Core, t: Txn) -> Result<Vec<u64>, NoMemory>
    ensures named { IfOk result (λ names. names.items ≡ unfinished_of (applied core.old.history.entries) t.0 ++ outside_sources_of (applied core.old.history.entries) t.0) }
    ensures same { core.new ≡ core.old }
{
    let mut names = unfinished_of(alloc, core, t)?;
    let sources = outside_sources_of(alloc, core, t)?;
    match names.extend_from_slice(&sources) {
        Ok(()) => Ok(names),
        Err(_) => Err(NoMemory),
    }
}

/// Returns those for whom a transaction of this status waits, or `NoMemory` if memory runs out.
#[tactic(auto, unfolding(crate::specs::Waiting::waits_as))]
fn waits_as(alloc: Global, core: &mut Core, t: Txn, status: Status) -> Result<Vec<u64>, NoMemory>
    ensures named { IfOk result (λ names. names.items ≡ waits_as status (applied core.old.history.entries) core.old.pending t.0) }
    ensures same { core.new ≡ core.old }
{
    match status {
        Status::Running => pending_blockers(alloc, core, t),
        Status::Completed => commit_blockers(alloc, core, t),
        Status::Unknown | Status::Initiated | Status::Committed | Status::Aborted => {
            Ok(Vec::new(alloc))
        }
    }
}

/// Returns those for whom `t` waits, or `NoMemory` if memory runs out.
#[tactic(auto, unfolding(crate::specs::Waiting::waits_for))]
pub(crate) fn waits_for(alloc: Global, core: &mut Core, t: Txn) -> Result<Vec<u64>, NoMemory>
    ensures named { IfOk result (λ names. names.items ≡ waits_for (applied core.old.history.entries) core.old.pending t.0) }
    ensures same { core.new ≡ core.old }
{
    let status = core.status(t);
    waits_as(alloc, core, t, status)
}
