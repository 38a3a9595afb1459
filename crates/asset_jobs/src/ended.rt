//! Finds how each job of a script ended.

ghost use Rattle.std.specs.Prelude.{◌≡◌, [], map, IfOk, OnOk, None};
ghost use Rattle.asset_names.specs.declared.names.Txn.{Txn as Name};
ghost use Rattle.asset_jobs.specs.Ended.{known_in, last_end, row_among, row_by, text_of};

use crate::rows::JobText;
use asset_bodies::JobEnd;
use asset_grammar::JobAct;
use asset_names::{NoMemory, Txn};
use indexmap::IndexMap;
use std::alloc::{AllocError, Global};

/// Returns the text of an end.
#[tactic(auto, unfolding(crate::specs::Ended::text_of))]
fn text_of(end: JobEnd) -> JobText
    ensures { result ≡ text_of end }
{
    match end {
        JobEnd::Committed => JobText::Committed,
        JobEnd::Aborted => JobText::Aborted,
        JobEnd::Unsettled => JobText::Unsettled,
    }
}

/// Returns the names of jobs, in order.
pub fn names_of(alloc: Global, jobs: &[(Txn, Vec<JobAct>)]) -> Result<Vec<Txn>, AllocError>
    ensures { IfOk result (λ names. names.items ≡ map (λ job. job.0) jobs.now) }
{
    jobs.iter().map(|job| job.0).collect(alloc)
}

/// Notes how the jobs ended in a table that is empty before.
fn note_ends(known: &mut IndexMap<Txn, JobText>, ends: &[(Txn, JobEnd)]) -> Result<(), NoMemory>
    requires { known.old.entries ≡ [] }
    ensures { OnOk result ((t : Name) → known_in known.new.entries t ≡ last_end None ends.now t) }
{
    'ends: for end in ends {
        match known.insert(end.0, text_of(end.1)) {
            Ok(_) => {}
            Err(_) => return Err(NoMemory),
        }
    }
    Ok(())
}

/// Returns the row of a job.
#[tactic(auto, unfolding(crate::specs::Ended::known_in))]
fn row_of(known: &IndexMap<Txn, JobText>, t: Txn) -> (Txn, JobText)
    ensures { result ≡ row_by (known_in known.now.entries t) t }
{
    match known.get(&t) {
        Some(text) => (t, *text),
        None => (t, JobText::NotBegun),
    }
}

/// Adds a row for each of the names, in order, to rows that are empty before.
fn fill(
    rows: &mut Vec<(Txn, JobText)>,
    known: &IndexMap<Txn, JobText>,
    names: &[Txn],
) -> Result<(), NoMemory>
    requires { rows.old.items ≡ [] }
    ensures { OnOk result (rows.new.items ≡ map (λ (t : Name). row_by (known_in known.now.entries t) t) names.now) }
{
    'names: for t in names {
        match rows.push(row_of(known, *t)) {
            Ok(()) => {}
            Err(_) => return Err(NoMemory),
        }
    }
    Ok(())
}

/// Returns the rows of the jobs with these names, in order: how each of them ended, by the last of the ends that bears its
/// name, or that it was not begun if none does. It answers `NoMemory` if memory runs out, and takes time nearly in proportion
/// to the names and the ends.
pub fn rows_of(
    alloc: Global,
    names: &[Txn],
    ends: &[(Txn, JobEnd)],
) -> Result<Vec<(Txn, JobText)>, NoMemory>
    ensures { IfOk result (λ rows. rows.items ≡ map (row_among ends.now) names.now) }
{
    let mut known = IndexMap::new(alloc);
    let noted = note_ends(&mut known, ends);
    let mut rows = Vec::new(alloc);
    let filled = fill(&mut rows, &known, names);
    drop(known);
    match (noted, filled) {
        (Ok(()), Ok(())) => Ok(rows),
        _ => Err(NoMemory),
    }
}
