//! The lines of a transaction that waits for a request.

ghost use Rattle.std.specs.Prelude.{◌≡◌, ◌++◌, flat_map, Some, OnOk, string_bytes};
ghost use Rattle.asset_names.specs.Steps.{applied};
ghost use Rattle.asset_core.specs.Pending.{pending_of};
ghost use Rattle.asset_waits.specs.Words.{op_word, ops_words, held_words};
ghost use Rattle.asset_waits.specs.Texts.{request_start, holder_text, blocker_line, nobody_line, blockers_text, request_text};

use crate::waiting::blockers_of;
use asset_core::Core;
use asset_names::{NoMemory, Ob, Op, Txn};
use std::alloc::{AllocError, Global};

/// Returns the words of an operation, before those of its object.
#[tactic(auto, unfolding(crate::specs::Words::op_word))]
fn op_word(op: Op) -> &'static str
    ensures { result.now ≡ op_word op }
{
    match op {
        Op::Read => "read",
        Op::Write => "write",
        Op::Add => "add to",
    }
}

/// Returns the words of operations, by whether reads, writes and adds are among them.
#[tactic(auto, unfolding(crate::specs::Words::ops_words))]
fn ops_words(reads: bool, writes: bool, adds: bool) -> &'static str
    ensures { result.now ≡ ops_words reads writes adds }
{
    match (reads, writes, adds) {
        (true, true, true) => "read, write and add",
        (true, true, false) => "read and write",
        (true, false, true) => "read and add",
        (true, false, false) => "read",
        (false, true, true) => "write and add",
        (false, true, false) => "write",
        (false, false, true) => "add",
        (false, false, false) => "",
    }
}

/// Returns the words of the operations in conflict with `op` by which `u` holds `x`.
#[tactic(auto, unfolding(crate::specs::Words::held_words))]
fn held_words(core: &Core, u: Txn, x: Ob, op: Op) -> &'static str
    ensures { result.now ≡ held_words (applied core.now.history.entries) u.0 x.0 op }
{
    let reads = core.holds(u, x, Op::Read) && Op::Read.conflicts_with(op);
    let writes = core.holds(u, x, Op::Write) && Op::Write.conflicts_with(op);
    let adds = core.holds(u, x, Op::Add) && Op::Add.conflicts_with(op);
    ops_words(reads, writes, adds)
}

/// Appends the start of a line of `t`, which waits for `op` on `x`.
#[tactic(auto, unfolding(crate::specs::Texts::request_start, crate::specs::Words::pieces))]
fn push_start(text: &mut String, t: Txn, x: Ob, op: Op) -> Result<(), AllocError>
    ensures { OnOk result (string_bytes text.new ≡ string_bytes text.old ++ request_start t.0 x.0 op) }
{
    let word = op_word(op);
    write!(text, "{} waits to {word} {}: ", t.0, x.0)
}

/// Appends what `u` holds, which blocks `op` on `x`.
fn push_holder(text: &mut String, core: &Core, x: Ob, op: Op, u: Txn) -> Result<(), AllocError>
    ensures { OnOk result (string_bytes text.new ≡ string_bytes text.old ++ holder_text (applied core.now.history.entries) x.0 op u.0) }
{
    let words = held_words(core, u, x, op);
    write!(text, "{} holds it by {words}\n", u.0)
}

/// Appends the line of `u`, who blocks `t` from `op` on `x`.
#[tactic(auto, unfolding(crate::specs::Texts::blocker_line))]
fn push_blocker(
    text: &mut String,
    core: &Core,
    t: Txn,
    x: Ob,
    op: Op,
    u: Txn,
) -> Result<(), AllocError>
    ensures { OnOk result (string_bytes text.new ≡ string_bytes text.old ++ blocker_line (applied core.now.history.entries) t.0 x.0 op u.0) }
{
    push_start(text, t, x, op)?;
    push_holder(text, core, x, op, u)
}

/// Appends the lines of these, who block `t` from `op` on `x`.
fn push_each(
    text: &mut String,
    core: &Core,
    t: Txn,
    x: Ob,
    op: Op,
    names: &[u64],
) -> Result<(), AllocError>
    ensures { OnOk result (string_bytes text.new ≡ string_bytes text.old ++ flat_map (blocker_line (applied core.now.history.entries) t.0 x.0 op) names.now) }
{
    'names: for u in names {
        push_blocker(text, core, t, x, op, Txn(*u))?;
    }
    Ok(())
}

/// Appends the line that says that nobody blocks `t` from `op` on `x` any more.
#[tactic(auto, unfolding(crate::specs::Texts::nobody_line))]
fn push_nobody(text: &mut String, t: Txn, x: Ob, op: Op) -> Result<(), AllocError>
    ensures { OnOk result (string_bytes text.new ≡ string_bytes text.old ++ nobody_line t.0 x.0 op) }
{
    push_start(text, t, x, op)?;
    text.push_str("nobody keeps it from that any more\n")
}

/// Appends the lines of these, who block `t` from `op` on `x`, or the line that says that nobody does.
fn push_blockers(
    text: &mut String,
    core: &Core,
    t: Txn,
    x: Ob,
    op: Op,
    names: &[u64],
) -> Result<(), AllocError>
    ensures { OnOk result (string_bytes text.new ≡ string_bytes text.old ++ blockers_text (applied core.now.history.entries) t.0 x.0 op names.now) }
{
    if names.is_empty() {
        push_nobody(text, t, x, op)
    } else {
        push_each(text, core, t, x, op, names)
    }
}

/// Appends the lines of `t`, whose pending request is `op` on `x`, or answers `NoMemory` if memory runs out.
fn push_pending(
    alloc: Global,
    core: &mut Core,
    text: &mut String,
    t: Txn,
    x: Ob,
    op: Op,
) -> Result<(), NoMemory>
    ensures text { OnOk result (string_bytes text.new ≡ string_bytes text.old ++ request_text (applied core.old.history.entries) t.0 (Some (x, op))) }
    ensures same { core.new ≡ core.old }
{
    let names = blockers_of(alloc, core, t, x, op)?;
    match push_blockers(text, core, t, x, op, &names) {
        Ok(()) => Ok(()),
        Err(_) => Err(NoMemory),
    }
}

/// Appends the lines of the pending request of `t`, if it has one, or answers `NoMemory` if memory runs out.
#[tactic(auto, unfolding(crate::specs::Texts::request_text))]
pub(crate) fn push_request(
    alloc: Global,
    core: &mut Core,
    text: &mut String,
    t: Txn,
) -> Result<(), NoMemory>
    ensures text { OnOk result (string_bytes text.new ≡ string_bytes text.old ++ request_text (applied core.old.history.entries) t.0 (pending_of t.0 core.old.pending)) }
    ensures same { core.new ≡ core.old }
{
    match core.pending(t) {
        Some((x, op)) => push_pending(alloc, core, text, t, x, op),
        None => Ok(()),
    }
}
