//! Whether those who committed shared nothing.

ghost use Rattle.std.specs.Prelude.{◌≡◌, ◌++◌, ◌↔◌, ◌<◌, reverse, slice_get, Some, IfOk, IsTrue};
ghost use Rattle.std.specs.List.{list_all};
ghost use Rattle.asset_names.specs.Arrows.{lists};
ghost use Rattle.asset_names.specs.Steps.{Entry};
ghost use Rattle.asset_names.specs.Groups.{actor, partner};
ghost use Rattle.asset_names.specs.Answers.{IsLegal};
ghost use Rattle.asset_history.specs.Uses.{partners};
ghost use Rattle.asset_meetings.specs.Meetings.{join_arrows};
ghost use Rattle.asset_laws.specs.Serial.{is_apart, shares_nothing, CommittedShareNothing};

use crate::committing::committed_names;
use asset_history::History;
use asset_meetings::meetings;
use asset_names::{NoMemory, Txn};
use indexmap::IndexSet;
use std::alloc::Global;

/// Returns whether those who committed shared nothing: no entry, refused or not, acts on a committed transaction and on
/// another, and none of them met another by an open permit. It answers `NoMemory` if memory runs out, and takes time that is nearly
/// in proportion to the entries.
pub fn committed_share_nothing(alloc: Global, history: &History) -> Result<bool, NoMemory>
    ensures exact { IfOk result (λ nothing. nothing ≡ shares_nothing history.now.entries) }
    ensures means { IfOk result (λ nothing. IsTrue nothing ↔ CommittedShareNothing history.now.entries) }
{
    let committed = committed_names(alloc, history)?;
    let met = meetings(alloc, history)?;
    Ok(are_all_apart(history, &met, &committed))
}

/// Returns whether nobody who is named is joined with another transaction, by an entry or by a meeting.
fn are_all_apart(history: &History, met: &[(Txn, Txn)], names: &IndexSet<u64>) -> bool
    ensures apart { result ≡ list_all (is_apart (lists names.now.keys)) (join_arrows met.now ++ partners history.now.entries) }
    ensures legal { IsLegal history.now.opening history.now.entries }
{
    let partners_apart = all_apart(history, names);
    partners_apart && met_apart(met, names)
}

/// Returns whether nobody who is named met another transaction.
fn met_apart(met: &[(Txn, Txn)], names: &IndexSet<u64>) -> bool
    ensures { result ≡ list_all (is_apart (lists names.now.keys)) (join_arrows met.now) }
{
    let mut apart = true;
    'met: for k in 0..met.len() {
        let (t, u) = met[k];
        if !are_apart(names, t, u) {
            apart = false;
        }
    }
    apart
}

/// Returns whether no entry acts on one of those who are named and on another transaction.
fn all_apart(history: &History, names: &IndexSet<u64>) -> bool
    ensures apart { result ≡ list_all (is_apart (lists names.now.keys)) (partners history.now.entries) }
    ensures legal { IsLegal history.now.opening history.now.entries }
{
    let mut apart = true;
    'entries: for i in 0..history.len() {
        if !apart_at(history, i, names) {
            apart = false;
        }
    }
    apart
}

/// Returns whether the entry at the index does not act on one of those who are named and on another transaction.
fn apart_at(history: &History, index: usize, names: &IndexSet<u64>) -> bool
    ensures { (entry : Entry) → slice_get (reverse history.now.entries) index ≡ Some entry →
        result ≡ is_apart (lists names.now.keys) ((actor entry.0).0, (partner entry.0).0) }
{
    match history.acted_on(index) {
        Some((t, u)) => are_apart(names, t, u),
        None => true,
    }
}

/// Returns whether the two transactions are one, or neither is named.
fn are_apart(names: &IndexSet<u64>, t: Txn, u: Txn) -> bool
    ensures { result ≡ is_apart (lists names.now.keys) (t.0, u.0) }
{
    t.0 == u.0 || !(names.contains(&t.0) || names.contains(&u.0))
}
