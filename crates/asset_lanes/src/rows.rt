//! The rows of lanes.

ghost use Rattle.std.specs.Prelude.{◌≡◌, ◌++◌, IfOk, OnOk};
ghost use Rattle.asset_buckets.specs.Bucketed.{buckets_of};
ghost use Rattle.asset_deletion.specs.Grouping.{Grouping};
ghost use Rattle.asset_lanes.specs.Lanes.{name_at, names_at, lane_names, row_of};

use asset_buckets::Buckets;
use asset_deletion::Groups;
use asset_names::{NoMemory, Txn};
use std::alloc::{AllocError, Global};

/// Appends the name at the index, if there is one.
#[tactic(auto, unfolding(crate::specs::Lanes::name_at))]
fn push_name(rows: &mut Vec<u64>, groups: &Groups, index: usize) -> Result<(), AllocError>
    ensures { OnOk result (rows.new.items ≡ rows.old.items ++ name_at groups.now index) }
{
    match groups.name(index) {
        Some(t) => {
            rows.push(t.0)?;
            Ok(())
        }
        None => Ok(()),
    }
}

/// Appends the names at the indices.
fn push_names(rows: &mut Vec<u64>, groups: &Groups, indices: &[usize]) -> Result<(), AllocError>
    ensures { OnOk result (rows.new.items ≡ rows.old.items ++ names_at groups.now indices.now) }
{
    'members: for k in indices {
        push_name(rows, groups, *k)?;
    }
    Ok(())
}

/// Appends the names of all groups, which are in buckets by group.
fn push_all(rows: &mut Vec<u64>, groups: &Groups, members: &Buckets) -> Result<(), AllocError>
    requires { members.now ≡ buckets_of groups.now.numbers groups.now.count }
    ensures { OnOk result (rows.new.items ≡ rows.old.items ++ lane_names groups.now) }
{
    'groups: for g in 0..groups.count() {
        push_names(rows, groups, members.bucket(g))?;
    }
    Ok(())
}

/// Returns the transactions of the lanes from the top, which are the rows that other calls take: those of one group side by
/// side in order of first use, and groups in order of number. It answers `NoMemory` if memory runs out.
pub fn lane_names(alloc: Global, groups: &Groups) -> Result<Vec<u64>, NoMemory>
    ensures { IfOk result (λ rows. rows.items ≡ lane_names groups.now) }
{
    let mut rows = Vec::new(alloc);
    match Buckets::of(alloc, groups.numbers(), groups.count()) {
        Ok(members) => match push_all(&mut rows, groups, &members) {
            Ok(()) => Ok(rows),
            Err(_) => Err(NoMemory),
        },
        Err(_) => Err(NoMemory),
    }
}

/// Returns the row of the transaction's lane, and how many there are if it has none.
pub(crate) fn row_of(rows: &[u64], t: Txn) -> usize
    ensures { result ≡ row_of rows.now t.0 }
{
    'rows: for k in 0..rows.len() {
        if t.0 == rows[k] {
            return k;
        }
    }
    rows.len()
}
