//! Numbers of entries in place of values.

ghost use Rattle.std.specs.Prelude.{◌≡◌, ◌+◌, ◌<◌, ◌^◌, [], Option, Some, IfOk, OnOk};
ghost use Rattle.asset_names.specs.Sources.{Numbered};
ghost use Rattle.asset_laws.specs.Renumbered.{source_number, writing, zeroed};
ghost use Rattle.asset_sources.specs.Sourced.{source_from};

use crate::sourced::Source;
use asset_names::{NoMemory, Ob, Step};
use std::alloc::Global;

/// Makes the step that of the entry at the index: a write writes the number of its entry, counted from 1, and an add adds 0.
#[inline(always)]
#[tactic(auto, unfolding(asset_laws::specs::Renumbered::writing))]
pub(crate) fn renumber(index: usize, step: &mut Step)
    requires small { index + 1 < 2 ^ 63 }
    ensures { step.new ≡ writing index step.old }
{
    match *step {
        Step::Write { t, x, .. } => {
            *step = Step::Write {
                t,
                x,
                v: (index + 1) as i64,
            }
        }
        Step::Add { t, x, .. } => *step = Step::Add { t, x, d: 0 },
        _ => {}
    }
}

/// Returns the source that the value of an object says: the entry with this number, counted from 1, and the opening if
/// the value is 0.
#[tactic(auto, unfolding(asset_laws::specs::Renumbered::source_number, crate::specs::Sourced::source_from))]
pub(crate) fn source_numbered(value: Option<i64>) -> Source
    ensures { (found : Option Numbered) → value ≡ Some (source_number found) → result ≡ source_from found }
{
    match value {
        Some(number) if number > 0 => Source::Entry((number - 1) as usize),
        _ => Source::Opening,
    }
}

/// Returns the objects of an opening with 0 in place of each value, or `NoMemory` if memory runs out.
pub(crate) fn zeroed(alloc: Global, opening: &[(Ob, i64)]) -> Result<Vec<(Ob, i64)>, NoMemory>
    ensures { IfOk result (λ zeroes. zeroes.items ≡ zeroed opening.now) }
{
    let mut zeroes = Vec::new(alloc);
    match push_zeroed(opening, &mut zeroes) {
        Ok(()) => Ok(zeroes),
        Err(_) => Err(NoMemory),
    }
}

/// Appends the objects of an opening with 0 in place of each value to an empty vector.
fn push_zeroed(opening: &[(Ob, i64)], zeroes: &mut Vec<(Ob, i64)>) -> Result<(), NoMemory>
    requires empty { zeroes.old.items ≡ [] }
    ensures { OnOk result (zeroes.new.items ≡ zeroed opening.now) }
{
    'objects: for given in opening {
        if zeroes.push((given.0, 0)).is_err() {
            return Err(NoMemory);
        }
    }
    Ok(())
}
