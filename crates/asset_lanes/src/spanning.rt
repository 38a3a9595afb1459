//! The lanes of transactions: where each starts and stops.

ghost use Rattle.std.specs.Prelude.{◌≡◌, ◌++◌, ◌∷◌, [], ◌+◌, ◌<◌, length, IfOk, OnOk};
ghost use Rattle.asset_lanes.specs.Lanes.{number_if, spanned, span_of, lane_of, lanes};
ghost use Rattle.asset_sources.specs.Walked.{first_entries};
ghost use Rattle.asset_lanes.specs.Walked.{ShowsFirst};

use crate::rows::row_of;
use crate::walking::{pass, tables_before};
use asset_deletion::Groups;
use asset_ends::Tables;
use asset_history::History;
use asset_names::{NoMemory, Status, Txn};
use std::alloc::Global;

/// The status of a transaction after some entries, and which of them initiated and ended it.
#[derive(Clone, Copy)]
pub struct Span {
    /// The status after the entries.
    pub status: Status,
    /// The number of the entry that initiated the transaction, if one did.
    pub start: Option<usize>,
    /// The number of the entry that ended it, if one did.
    pub stop: Option<usize>,
}

/// The lane of a transaction.
#[derive(Clone, Copy)]
pub struct Lane {
    /// The transaction.
    pub t: u64,
    /// The row of the lane, from 0 at the top.
    pub row: usize,
    /// The number of the transaction's group, and 0 if it is in none.
    pub group: usize,
    /// Whether that group is dead.
    pub is_dead: bool,
    /// The transaction's status, and where its lane starts and stops.
    pub span: Span,
}

/// Returns the number, if the test was passed.
#[tactic(auto, unfolding(crate::specs::Lanes::number_if))]
fn number_if(passes: bool, number: usize) -> Option<usize>
    ensures { result ≡ number_if passes number }
{
    if passes { Some(number) } else { None }
}

/// Returns the span with one more entry, after which the transaction has this status.
#[tactic(auto, unfolding(crate::specs::Lanes::spanned, crate::specs::Lanes::is_known))]
fn spanned(span: Span, number: usize, status: Status) -> Span
    ensures { result ≡ spanned span number status }
{
    Span {
        status,
        start: span.start.or(number_if(!status.is_unknown(), number)),
        stop: span.stop.or(number_if(status.has_ended(), number)),
    }
}

/// Takes a span and the tables past the entry at the index.
fn pass_one(
    history: &History,
    index: usize,
    t: Txn,
    tables: &mut Tables,
    span: &mut Span,
) -> Result<(), NoMemory>
    requires there { index < length history.now.entries }
    requires stand { ShowsFirst history.now index tables.old }
    requires span { span.old ≡ span_of (first_entries history.now index) t.0 }
    ensures stand { OnOk result (ShowsFirst history.now (index + 1) tables.new) }
    ensures span { OnOk result (span.new ≡ span_of (first_entries history.now (index + 1)) t.0) }
{
    pass(history, index, tables)?;
    *span = spanned(*span, index, tables.status(t));
    Ok(())
}

/// Takes a span and the tables past all entries.
fn pass_all(history: &History, t: Txn, tables: &mut Tables, span: &mut Span) -> Result<(), NoMemory>
    requires stand { ShowsFirst history.now 0 tables.old }
    requires span { span.old ≡ span_of (first_entries history.now 0) t.0 }
    ensures { OnOk result (span.new ≡ span_of history.now.entries t.0) }
{
    'entries: for i in 0..history.len() {
        pass_one(history, i, t, tables, span)?;
    }
    Ok(())
}

/// Returns the span of a transaction, or `NoMemory` if memory runs out.
#[tactic(auto, unfolding(crate::specs::Lanes::span_of))]
fn span_of(alloc: Global, history: &History, t: Txn) -> Result<Span, NoMemory>
    ensures { IfOk result (λ span. span ≡ span_of history.now.entries t.0) }
{
    let mut tables = tables_before(alloc, history)?;
    let mut span = Span {
        status: Status::Unknown,
        start: None,
        stop: None,
    };
    let passed = pass_all(history, t, &mut tables, &mut span);
    drop(tables);
    match passed {
        Ok(()) => Ok(span),
        Err(_) => Err(NoMemory),
    }
}

/// Returns the lane of a transaction, or `NoMemory` if memory runs out.
#[tactic(auto, unfolding(crate::specs::Lanes::lane_of))]
fn lane_of(
    alloc: Global,
    history: &History,
    groups: &Groups,
    rows: &[u64],
    t: Txn,
) -> Result<Lane, NoMemory>
    ensures { IfOk result (λ lane. lane ≡ lane_of groups.now rows.now history.now.entries t.0) }
{
    let span = span_of(alloc, history, t)?;
    Ok(Lane {
        t: t.0,
        row: row_of(rows, t),
        group: groups.of(t).unwrap_or(0),
        is_dead: groups.is_dead(t),
        span,
    })
}

/// Appends the lane of a transaction, or answers `NoMemory` if memory runs out.
fn push_lane(
    alloc: Global,
    history: &History,
    groups: &Groups,
    rows: &[u64],
    t: Txn,
    lanes: &mut Vec<Lane>,
) -> Result<(), NoMemory>
    ensures { OnOk result (lanes.new.items ≡ lanes.old.items ++ lane_of groups.now rows.now history.now.entries t.0 ∷ []) }
{
    let lane = lane_of(alloc, history, groups, rows, t)?;
    match lanes.push(lane) {
        Ok(()) => Ok(()),
        Err(_) => Err(NoMemory),
    }
}

/// Returns the lanes of the transactions in these rows, from the top, or `NoMemory` if memory runs out. `groups` are those of
/// the history, and `rows` what `lane_names` returns for them. It goes over the entries once for each of them.
#[tactic(auto, unfolding(crate::specs::Lanes::lanes))]
pub fn lanes(
    alloc: Global,
    history: &History,
    groups: &Groups,
    rows: &[u64],
) -> Result<Vec<Lane>, NoMemory>
    ensures { IfOk result (λ found. found.items ≡ lanes groups.now rows.now history.now.entries) }
{
    let mut lanes = Vec::new(alloc);
    'rows: for t in rows {
        push_lane(alloc, history, groups, rows, Txn(*t), &mut lanes)?;
    }
    Ok(lanes)
}
