//! The marks of reads, writes and adds.

ghost use Rattle.std.specs.Prelude.{◌≡◌, ◌++◌, reverse, slice_get, Some, IfOk, OnOk};
ghost use Rattle.asset_names.specs.Steps.{Entry};
ghost use Rattle.asset_lanes.specs.Marks.{marked, mark_of, mark_list, marks};

use crate::rows::row_of;
use asset_deletion::Groups;
use asset_history::History;
use asset_names::{NoMemory, Ob, Op, Reply, Step, Txn, value_asked};
use std::alloc::Global;

/// The mark of an operation.
#[derive(Clone, Copy)]
pub struct Mark {
    /// The number of its entry.
    pub number: usize,
    /// The row of the lane in which it stands.
    pub row: usize,
    /// Whether the transaction's group is dead.
    pub is_dead: bool,
    /// What it does.
    pub op: Op,
    /// The object.
    pub x: u64,
    /// The value that was read or written, or the amount that was added.
    pub v: i64,
}

/// Returns the mark of an operation, in its transaction's lane.
#[tactic(auto, unfolding(crate::specs::Marks::marked))]
fn marked(groups: &Groups, rows: &[u64], number: usize, op: Op, t: Txn, x: Ob, v: i64) -> Mark
    ensures { result ≡ marked groups.now rows.now number op t x v }
{
    Mark {
        number,
        row: row_of(rows, t),
        is_dead: groups.is_dead(t),
        op,
        x: x.0,
        v,
    }
}

/// Returns the mark of an entry, if it is an operation that took effect.
#[tactic(auto, unfolding(crate::specs::Marks::mark_of, asset_names::specs::Steps::value_asked))]
fn mark_of(groups: &Groups, rows: &[u64], number: usize, step: &Step, reply: &Reply) -> Option<Mark>
    ensures { result ≡ mark_of groups.now rows.now number step.now reply.now }
{
    match *step {
        Step::Read { t, x } => match *reply {
            Reply::Value(v) => Some(marked(groups, rows, number, Op::Read, t, x, v)),
            _ => None,
        },
        Step::Write { t, x, .. } => match *reply {
            Reply::Done => Some(marked(groups, rows, number, Op::Write, t, x, value_asked(step))),
            _ => None,
        },
        Step::Add { t, x, .. } => match *reply {
            Reply::Done => Some(marked(groups, rows, number, Op::Add, t, x, value_asked(step))),
            _ => None,
        },
        _ => None,
    }
}

/// Appends a mark, if there is one.
#[tactic(auto, unfolding(crate::specs::Marks::mark_list))]
fn push_if_any(marks: &mut Vec<Mark>, mark: Option<Mark>) -> Result<(), NoMemory>
    ensures { OnOk result (marks.new.items ≡ marks.old.items ++ mark_list mark) }
{
    match mark {
        Some(mark) => match marks.push(mark) {
            Ok(()) => Ok(()),
            Err(_) => Err(NoMemory),
        },
        None => Ok(()),
    }
}

/// Appends the mark of the entry at the index, if it has one. Its step is read into the slot.
fn push_mark_at(
    history: &History,
    groups: &Groups,
    rows: &[u64],
    index: usize,
    step: &mut Step,
    marks: &mut Vec<Mark>,
) -> Result<(), NoMemory>
    ensures { OnOk result ((entry : Entry) → slice_get (reverse history.now.entries) index ≡ Some entry →
        marks.new.items ≡ marks.old.items ++ mark_list (mark_of groups.now rows.now index entry.0 entry.1)) }
{
    match history.entry_into(index, step) {
        Some(reply) => push_if_any(marks, mark_of(groups, rows, index, step, &reply)),
        None => Ok(()),
    }
}

/// Returns the marks of all entries that have one, oldest first, or `NoMemory` if memory runs out. A read has one if it
/// was answered by a value, and a write or an add if it was answered `Done`. `groups` are those of the history, and
/// `rows` what `lane_names` returns for them.
pub fn marks(
    alloc: Global,
    history: &History,
    groups: &Groups,
    rows: &[u64],
) -> Result<Vec<Mark>, NoMemory>
    ensures { IfOk result (λ found. found.items ≡ marks groups.now rows.now history.now.entries) }
{
    let mut found = Vec::new(alloc);
    let mut step = Step::Commit { t: Txn(0) };
    'entries: for i in 0..history.len() {
        push_mark_at(history, groups, rows, i, &mut step, &mut found)?;
    }
    Ok(found)
}
