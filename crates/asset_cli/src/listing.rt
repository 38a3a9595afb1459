//! The lines of a listing: a script's steps with their replies beside them.
ghost use Rattle.std.specs.Prelude.{◌≡◌, ◌+◌, ◌-◌, ◌≤◌, ◌++◌, ◌∷◌, [], ℕ, List, length, OnOk, replicate, string_bytes};
ghost use Rattle.std.specs.Fmt.{decimal};
ghost use Rattle.asset_scripts.specs.Listing.{column, entry_of, entry_word, listed};
ghost use Rattle.asset_printing.specs.Printed.{step_text};

use asset_names::{Outcome, Step};
use asset_printing::{push_number, push_step};
use std::alloc::AllocError;

/// The width of a column of numbers.
const NUMBER_WIDTH: usize = 7;

/// The width of the column of steps.
const STEP_WIDTH: usize = 31;

/// Returns the number of the entry that a step with this outcome becomes, if the next one has the number `place`.
#[tactic(auto, unfolding(asset_scripts::specs::Listing::entry_of))]
pub(crate) fn entry_of(outcome: Outcome, place: usize) -> Option<usize>
    ensures { result ≡ entry_of outcome place }
{
    match outcome {
        Outcome::Answer(_) => Some(place),
        Outcome::Wait => None,
    }
}

/// Appends `count` spaces.
fn push_spaces(text: &mut String, count: usize) -> Result<(), AllocError>
    ensures { OnOk result (string_bytes text.new ≡ string_bytes text.old ++ replicate count 32) }
{
    'spaces: for _ in 0..count {
        text.push_str(" ")?;
    }
    Ok(())
}

/// Ends a column of this width, whose word the text has from `start` on.
fn end_column(text: &mut String, start: usize, width: usize) -> Result<(), AllocError>
    requires { start ≤ length (string_bytes text.old) }
    ensures { OnOk result (string_bytes text.new ≡ string_bytes text.old ++ (replicate (width - (length (string_bytes text.old) - start)) 32 ++ 32 ∷ [])) }
{
    let used = text.as_bytes().len() - start;
    push_spaces(text, width.saturating_sub(used))?;
    text.push_str(" ")
}

/// Appends a number in a column.
#[tactic(auto, using(crate::proofs::ListingLemmas::column_pushed))]
fn push_number_column(text: &mut String, number: u64) -> Result<(), AllocError>
    ensures { OnOk result (string_bytes text.new ≡ string_bytes text.old ++ column 7 (decimal number)) }
{
    let start = text.as_bytes().len();
    push_number(text, number)?;
    end_column(text, start, NUMBER_WIDTH)?;
    Ok(())
}

/// Appends the number of an entry in a column, or a dash if there is none.
#[tactic(auto, unfolding(asset_scripts::specs::Listing::entry_word), using(crate::proofs::ListingLemmas::column_pushed))]
fn push_entry(text: &mut String, entry: Option<usize>) -> Result<(), AllocError>
    ensures { OnOk result (string_bytes text.new ≡ string_bytes text.old ++ column 7 (entry_word entry)) }
{
    match entry {
        Some(number) => push_number_column(text, number as u64),
        None => {
            let start = text.as_bytes().len();
            text.push_str("-")?;
            end_column(text, start, NUMBER_WIDTH)?;
            Ok(())
        }
    }
}

/// Appends a step in a column.
#[tactic(auto, using(crate::proofs::ListingLemmas::column_pushed))]
fn push_step_column(text: &mut String, step: &Step) -> Result<(), AllocError>
    ensures { OnOk result (string_bytes text.new ≡ string_bytes text.old ++ column 31 (step_text step.now)) }
{
    let start = text.as_bytes().len();
    push_step(text, step)?;
    end_column(text, start, STEP_WIDTH)?;
    Ok(())
}

/// Appends the line of a step in a listing up to its reply: the number of its line, the number of its entry if it becomes one, and the
/// step.
#[tactic(auto, unfolding(asset_scripts::specs::Listing::listed))]
pub(crate) fn push_columns(
    text: &mut String,
    number: u64,
    entry: Option<usize>,
    step: &Step,
) -> Result<(), AllocError>
    ensures { (reply : List ℕ) → OnOk result (string_bytes text.new ++ reply ≡ string_bytes text.old ++ listed number entry step.now reply) }
{
    push_number_column(text, number)?;
    push_entry(text, entry)?;
    push_step_column(text, step)
}
