//! The arrows between lanes.

ghost use Rattle.std.specs.Prelude.{◌≡◌, ◌++◌, ◌<◌, ℕ, length, reverse, slice_get, Some, IfOk, OnOk};
ghost use Rattle.asset_names.specs.Steps.{Entry};
ghost use Rattle.asset_sources.specs.Sourced.{source_at};
ghost use Rattle.asset_lanes.specs.Arrows.{arrow_to, arrow_kind, arrow_to_entry, source_arrow, arrow_of, arrow_list, arrows};

use crate::rows::row_of;
use asset_deletion::Groups;
use asset_history::History;
use asset_names::{Kind, NoMemory, Reply, Step, Txn};
use asset_sources::{Source, sources};
use std::alloc::Global;

/// What an arrow is for.
#[derive(Clone, Copy)]
pub enum ArrowKind {
    /// From a read to its source.
    Source,
    /// From who permits to whom.
    Permit,
    /// From who permits to anybody to itself.
    Open,
    /// From who hands over to whom.
    Delegate,
    /// From the source of a commit dependency to the dependent.
    Cd,
    /// From the source of an abort dependency to the dependent.
    Ad,
    /// Between the two of a group commit.
    Gc,
}

/// An arrow from the column and row of one lane to those of another.
#[derive(Clone, Copy)]
pub struct Arrow {
    /// What it is for.
    pub kind: ArrowKind,
    /// The number of the entry at which it starts.
    pub from: usize,
    /// The row of the lane in which it starts.
    pub row: usize,
    /// The number of the entry at which it ends.
    pub to: usize,
    /// The row of the lane in which it ends.
    pub to_row: usize,
    /// Whether the group of the lane in which it starts is dead.
    pub is_dead: bool,
}

/// Returns the arrow from `t`'s lane at one entry to `u`'s lane at another.
#[tactic(auto, unfolding(crate::specs::Arrows::arrow_to))]
fn arrow_to(
    groups: &Groups,
    rows: &[u64],
    kind: ArrowKind,
    from: usize,
    t: Txn,
    to: usize,
    u: Txn,
) -> Arrow
    ensures { result ≡ arrow_to groups.now rows.now kind from t to u }
{
    Arrow {
        kind,
        from,
        row: row_of(rows, t),
        to,
        to_row: row_of(rows, u),
        is_dead: groups.is_dead(t),
    }
}

/// Returns how a dependency is drawn.
#[tactic(auto, unfolding(crate::specs::Arrows::arrow_kind))]
fn arrow_kind(kind: Kind) -> ArrowKind
    ensures { result ≡ arrow_kind kind }
{
    match kind {
        Kind::Cd => ArrowKind::Cd,
        Kind::Ad => ArrowKind::Ad,
        Kind::Gc => ArrowKind::Gc,
    }
}

/// Returns the arrow of a read to its source, which is the entry at the index.
#[tactic(auto, unfolding(crate::specs::Arrows::arrow_to_entry))]
fn arrow_to_entry(
    history: &History,
    groups: &Groups,
    rows: &[u64],
    from: usize,
    t: Txn,
    to: usize,
) -> Option<Arrow>
    ensures { result ≡ arrow_to_entry groups.now rows.now from t to (slice_get (reverse history.now.entries) to) }
{
    match history.acted_on(to) {
        Some((u, _)) => Some(arrow_to(groups, rows, ArrowKind::Source, from, t, to, u)),
        None => None,
    }
}

/// Returns the arrow of a read to its source, if that is no opening value.
#[tactic(auto, unfolding(crate::specs::Arrows::source_arrow))]
fn source_arrow(
    history: &History,
    groups: &Groups,
    rows: &[u64],
    from: usize,
    t: Txn,
    source: Option<Source>,
) -> Option<Arrow>
    ensures { result ≡ source_arrow groups.now rows.now history.now.entries from t source }
{
    match source {
        Some(Source::Entry(to)) => arrow_to_entry(history, groups, rows, from, t, to),
        Some(Source::Opening) => None,
        None => None,
    }
}

/// Returns the arrow of an entry with this source, if it has one.
#[tactic(auto, unfolding(crate::specs::Arrows::arrow_of))]
fn arrow_of(
    history: &History,
    groups: &Groups,
    rows: &[u64],
    n: usize,
    step: &Step,
    reply: &Reply,
    source: Option<Source>,
) -> Option<Arrow>
    ensures { result ≡ arrow_of groups.now rows.now history.now.entries n step.now reply.now source }
{
    match *step {
        Step::Read { t, .. } => source_arrow(history, groups, rows, n, t, source),
        Step::Permit { giver, taker, .. } => match *reply {
            Reply::Done => Some(arrow_to(groups, rows, ArrowKind::Permit, n, giver, n, taker)),
            _ => None,
        },
        Step::PermitAny { giver, .. } => match *reply {
            Reply::Done => Some(arrow_to(groups, rows, ArrowKind::Open, n, giver, n, giver)),
            _ => None,
        },
        Step::Delegate { giver, taker, .. } => match *reply {
            Reply::Done => Some(arrow_to(groups, rows, ArrowKind::Delegate, n, giver, n, taker)),
            _ => None,
        },
        Step::Depend { kind, a, b } => match *reply {
            Reply::Done => Some(arrow_to(groups, rows, arrow_kind(kind), n, a, n, b)),
            _ => None,
        },
        _ => None,
    }
}

/// Appends an arrow, if there is one.
#[tactic(auto, unfolding(crate::specs::Arrows::arrow_list))]
fn push_if_any(arrows: &mut Vec<Arrow>, arrow: Option<Arrow>) -> Result<(), NoMemory>
    ensures { OnOk result (arrows.new.items ≡ arrows.old.items ++ arrow_list arrow) }
{
    match arrow {
        Some(arrow) => match arrows.push(arrow) {
            Ok(()) => Ok(()),
            Err(_) => Err(NoMemory),
        },
        None => Ok(()),
    }
}

/// Appends the arrow of the entry at the index, which has this source. Its step is read into the slot.
fn push_arrow_at(
    history: &History,
    groups: &Groups,
    rows: &[u64],
    index: usize,
    source: Option<Source>,
    step: &mut Step,
    arrows: &mut Vec<Arrow>,
) -> Result<(), NoMemory>
    ensures { OnOk result ((entry : Entry) → slice_get (reverse history.now.entries) index ≡ Some entry →
        arrows.new.items ≡ arrows.old.items ++ arrow_list (arrow_of groups.now rows.now history.now.entries index entry.0 entry.1 source)) }
{
    match history.entry_into(index, step) {
        Some(reply) => push_if_any(
            arrows,
            arrow_of(history, groups, rows, index, step, &reply, source),
        ),
        None => Ok(()),
    }
}

/// Returns the arrows of all entries with these sources, oldest first, or `NoMemory` if memory runs out.
fn arrows_by(
    alloc: Global,
    history: &History,
    groups: &Groups,
    rows: &[u64],
    sources: &[Option<Source>],
) -> Result<Vec<Arrow>, NoMemory>
    requires long { length sources.now ≡ length history.now.entries }
    requires each { (i : ℕ) → i < length history.now.entries → slice_get sources.now i ≡ Some (source_at history.now.entries i) }
    ensures { IfOk result (λ found. found.items ≡ arrows groups.now rows.now history.now.entries) }
{
    let mut found = Vec::new(alloc);
    let mut step = Step::Commit { t: Txn(0) };
    'entries: for i in 0..sources.len() {
        push_arrow_at(history, groups, rows, i, sources[i], &mut step, &mut found)?;
    }
    Ok(found)
}

/// Returns the arrows of all entries that have one, oldest first, or `NoMemory` if memory runs out. They are from who
/// permits, hands over or is depended on to the other, and from who permits to anybody to itself, if that was answered
/// `Done`; and from each read that was answered by a value to its source, if that is no opening value. `groups` are
/// those of the history, and `rows` what `lane_names` returns for them.
pub fn arrows(
    alloc: Global,
    history: &History,
    groups: &Groups,
    rows: &[u64],
) -> Result<Vec<Arrow>, NoMemory>
    ensures { IfOk result (λ found. found.items ≡ arrows groups.now rows.now history.now.entries) }
{
    let sources = sources(alloc, history)?;
    arrows_by(alloc, history, groups, rows, &sources)
}
