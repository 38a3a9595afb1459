//! The start of a picture, and the numbers of its columns.

ghost use Rattle.std.specs.Prelude.{◌≡◌, ◌++◌, OnOk, string_bytes};
ghost use Rattle.asset_picture.specs.Shapes.{open_text};
ghost use Rattle.asset_picture.specs.Picture.{column_number_text, column_numbers_text};

use crate::layout::x_at;
use std::alloc::AllocError;

/// Appends the start of a picture of this size.
#[tactic(auto, unfolding(crate::specs::Shapes::open_text, crate::specs::Layout::pieces))]
pub(crate) fn push_open(text: &mut String, width: u128, height: u128) -> Result<(), AllocError>
    ensures { OnOk result (string_bytes text.new ≡ string_bytes text.old ++ open_text width height) }
{
    write!(
        text,
        "<svg xmlns='http://www.w3.org/2000/svg' version='1.1' width='{width}' height='{height}' viewBox='0 0 {width} {height}'>\n"
    )
}

/// Appends the number of an entry above its column.
#[tactic(auto, unfolding(crate::specs::Picture::column_number_text, crate::specs::Layout::pieces))]
fn push_step(text: &mut String, wide: bool, number: usize) -> Result<(), AllocError>
    ensures { OnOk result (string_bytes text.new ≡ string_bytes text.old ++ column_number_text wide number) }
{
    let x = x_at(wide, number);
    write!(text, "<text class='step' x='{x}' y='76'>{number}</text>\n")
}

/// Appends the numbers of `count` entries.
pub(crate) fn push_steps(text: &mut String, wide: bool, count: usize) -> Result<(), AllocError>
    ensures { OnOk result (string_bytes text.new ≡ string_bytes text.old ++ column_numbers_text wide count) }
{
    'entries: for i in 0..count {
        push_step(text, wide, i)?;
    }
    Ok(())
}
