//! The buckets and their calls.

ghost use Rattle.std.specs.Prelude.{◌≡◌, ◌++◌, [], ◌∷◌, ℕ, length, map, slice_index_or, slice_set, OnOk, IfOk};
ghost use Rattle.asset_buckets.specs.Bucketed.{no_buckets, buckets_of};

use std::alloc::{AllocError, Global};
use std::marker::Model;

/// Indices in buckets, which are numbered from 0 on. Contracts see the indices of each bucket, in order.
#[derive(Drop)]
pub struct Buckets {
    rows: Vec<Vec<usize>>,
}

impl Model for Buckets {
    ghost use Rattle.std.specs.Prelude.{List, ℕ, map};

    ghost Value = { List (List ℕ) };

    ghost view = { λ buckets. map (λ row. row.items) buckets.rows.items };
}

impl Buckets {
    ghost use Rattle.std.specs.Prelude.{◌≡◌, [], length, slice_index_or, IfOk};
    ghost use Rattle.asset_buckets.specs.Bucketed.{buckets_of};

    /// Puts each index of the list into the bucket that the list numbers there, rising in each. An index whose number is
    /// not below the count is in no bucket.
    ///
    /// It answers `AllocError` if memory runs out. It takes time in proportion to the numbers and the count.
    pub fn of(alloc: Global, numbers: &[usize], count: usize) -> Result<Buckets, AllocError>
        ensures { IfOk result (λ buckets. buckets ≡ buckets_of numbers.now count) }
    {
        let mut rows = empty_rows(alloc, count)?;
        fill(&mut rows, numbers)?;
        Ok(Buckets { rows })
    }

    /// Returns the indices of the bucket, rising, and none past the last bucket.
    pub fn bucket(&self, number: usize) -> &[usize]
        ensures { result.now ≡ slice_index_or self.now number [] }
    {
        match self.rows.get(number) {
            Some(row) => row,
            None => &[],
        }
    }

    /// Returns how many buckets there are.
    pub fn count(&self) -> usize
        ensures { result ≡ length self.now }
    {
        self.rows.len()
    }
}

/// Returns `count` rows without indices.
fn empty_rows(alloc: Global, count: usize) -> Result<Vec<Vec<usize>>, AllocError>
    ensures { IfOk result (λ rows. map (λ row. row.items) rows.items ≡ no_buckets count) }
{
    let mut rows = Vec::new(alloc);
    'rows: for _i in 0..count {
        rows.push(Vec::new(alloc))?;
    }
    Ok(rows)
}

/// Puts the index at the end of the row with this number, if there is one.
fn add(rows: &mut Vec<Vec<usize>>, number: usize, index: usize) -> Result<(), AllocError>
    ensures { OnOk result (map (λ row. row.items) rows.new.items
        ≡ slice_set (map (λ row. row.items) rows.old.items) number (slice_index_or (map (λ row. row.items) rows.old.items) number [] ++ index ∷ [])) }
{
    if let Some(row) = rows.get_mut(number) {
        row.push(index)?;
    }
    Ok(())
}

/// Puts each index of the list at the end of the row that the list numbers there.
fn fill(rows: &mut Vec<Vec<usize>>, numbers: &[usize]) -> Result<(), AllocError>
    ensures { (count : ℕ) → map (λ row. row.items) rows.old.items ≡ no_buckets count →
        OnOk result (map (λ row. row.items) rows.new.items ≡ buckets_of numbers.now count) }
{
    'numbers: for i in 0..numbers.len() {
        add(rows, numbers[i], i)?;
    }
    Ok(())
}
