//! What a table says of each transaction.

ghost use Rattle.std.specs.Prelude.{◌≡◌, IfOk};
ghost use Rattle.asset_names.specs.Steps.{applied};
ghost use Rattle.asset_ends.specs.Shows.{Shows};
ghost use Rattle.asset_ends.specs.Standing.{values_of};
ghost use Rattle.asset_lanes.specs.Uses.{uses};
ghost use Rattle.asset_lanes.specs.Summaries.{summary_of, summary_in, summaries_by, summaries};

use crate::asking::{row_names, uses, uses_of};
use crate::walking::tables_after;
use asset_buckets::Buckets;
use asset_deletion::Groups;
use asset_ends::Tables;
use asset_history::History;
use asset_names::{NoMemory, Status, Txn};
use indexmap::IndexSet;
use std::alloc::{AllocError, Global};

/// What a table says of a transaction.
#[derive(Clone, Copy)]
pub struct Summary {
    /// The transaction.
    pub t: u64,
    /// The number of its group, and 0 if it is in none.
    pub group: usize,
    /// Whether that group is dead.
    pub is_dead: bool,
    /// Its status after all entries.
    pub status: Status,
    /// How many entries it asked for.
    pub count: usize,
    /// The number of the first of them, if there is one.
    pub first: Option<usize>,
    /// The number of the last of them, if there is one.
    pub last: Option<usize>,
}

/// Returns the summary of a transaction, which asked for these entries, by tables that show the history.
#[tactic(auto, unfolding(crate::specs::Summaries::summary_of))]
fn summary_of(
    history: &History,
    groups: &Groups,
    tables: &Tables,
    used: &[usize],
    t: Txn,
) -> Summary
    requires stand { Shows history.now.opening (applied history.now.entries) (values_of tables.now) }
    ensures { result ≡ summary_of groups.now history.now.entries used.now t.0 }
{
    Summary {
        t: t.0,
        group: groups.of(t).unwrap_or(0),
        is_dead: groups.is_dead(t),
        status: tables.status(t),
        count: used.len(),
        first: used.first().copied(),
        last: used.last().copied(),
    }
}

/// Returns the summary of a transaction, by tables that show the history, and the entries that each name asked for.
#[tactic(auto, unfolding(crate::specs::Summaries::summary_in))]
fn summary_in(
    history: &History,
    groups: &Groups,
    tables: &Tables,
    names: &IndexSet<u64>,
    used: &Buckets,
    t: Txn,
) -> Summary
    requires stand { Shows history.now.opening (applied history.now.entries) (values_of tables.now) }
    ensures { result ≡ summary_in groups.now history.now.entries names.now.keys used.now t.0 }
{
    summary_of(history, groups, tables, uses_of(names, used, t), t)
}

/// Returns the summaries of the transactions in these rows, by tables that show the history, and the entries that each name asked
/// for. It answers `AllocError` if memory runs out.
#[tactic(auto, unfolding(crate::specs::Summaries::summaries_by))]
fn summaries_by(
    alloc: Global,
    history: &History,
    groups: &Groups,
    tables: &Tables,
    names: &IndexSet<u64>,
    used: &Buckets,
    rows: &[u64],
) -> Result<Vec<Summary>, AllocError>
    requires stand { Shows history.now.opening (applied history.now.entries) (values_of tables.now) }
    ensures { IfOk result (λ found. found.items ≡ summaries_by groups.now history.now.entries names.now.keys used.now rows.now) }
{
    let mut found = Vec::new(alloc);
    'rows: for n in rows {
        found.push(summary_in(history, groups, tables, names, used, Txn(*n)))?;
    }
    Ok(found)
}

/// Returns the summaries of the transactions in these rows, by names, or `NoMemory` if memory runs out.
fn summaries_by_names(
    alloc: Global,
    history: &History,
    groups: &Groups,
    names: &IndexSet<u64>,
    rows: &[u64],
) -> Result<Vec<Summary>, NoMemory>
    ensures { IfOk result (λ found. found.items
        ≡ summaries_by groups.now history.now.entries names.now.keys (uses names.now.keys history.now.entries) rows.now) }
{
    let used = uses(alloc, history, names)?;
    match tables_after(alloc, history) {
        Ok(tables) => {
            let found = summaries_by(alloc, history, groups, &tables, names, &used, rows);
            drop(tables);
            match found {
                Ok(found) => Ok(found),
                Err(_) => Err(NoMemory),
            }
        }
        Err(_) => Err(NoMemory),
    }
}

/// Returns the summaries of the transactions in these rows, from the top, or `NoMemory` if memory runs out. `groups` are those
/// of the history, and `rows` what `lane_names` returns for them. It takes time that is nearly in proportion to the entries.
#[tactic(auto, unfolding(crate::specs::Summaries::summaries))]
pub fn summaries(
    alloc: Global,
    history: &History,
    groups: &Groups,
    rows: &[u64],
) -> Result<Vec<Summary>, NoMemory>
    ensures { IfOk result (λ found. found.items ≡ summaries groups.now rows.now history.now.entries) }
{
    let names = row_names(alloc, rows)?;
    summaries_by_names(alloc, history, groups, &names, rows)
}
