//! The text of marks.

ghost use Rattle.std.specs.Prelude.{◌≡◌, ◌++◌, OnOk, string_bytes};
ghost use Rattle.asset_picture.specs.Shapes.{op_word, shape_text, mark_start_text, mark_text};
ghost use Rattle.asset_picture.specs.Picture.{marks_text};

use crate::layout::{pale, x_at, y_at};
use asset_lanes::Mark;
use asset_names::Op;
use std::alloc::AllocError;

/// Returns the word of an operation.
#[tactic(auto, unfolding(crate::specs::Shapes::op_word))]
fn op_word(op: Op) -> &'static str
    ensures { result.now ≡ op_word op }
{
    match op {
        Op::Read => "read",
        Op::Write => "write",
        Op::Add => "add",
    }
}

/// Returns the shape of an operation.
#[tactic(auto, unfolding(crate::specs::Shapes::shape_text))]
fn shape_text(op: Op) -> &'static str
    ensures { result.now ≡ shape_text op }
{
    match op {
        Op::Read => "<circle r='5'/>",
        Op::Write => "<rect x='-5' y='-5' width='10' height='10'/>",
        Op::Add => "<path d='M-6 0H6M0-6V6'/>",
    }
}

/// Appends the start of a mark.
#[tactic(auto, unfolding(crate::specs::Shapes::mark_start_text, crate::specs::Layout::pieces))]
fn push_start(text: &mut String, wide: bool, mark: &Mark) -> Result<(), AllocError>
    ensures { OnOk result (string_bytes text.new ≡ string_bytes text.old ++ mark_start_text wide mark.now) }
{
    let word = op_word(mark.op);
    let pale = pale(mark.is_dead);
    let x = x_at(wide, mark.number);
    let y = y_at(mark.row);
    write!(
        text,
        "<g class='{word}{pale}' transform='translate({x} {y})'>"
    )
}

/// Appends a mark.
#[tactic(auto, unfolding(crate::specs::Shapes::mark_text, crate::specs::Layout::pieces))]
fn push_mark(text: &mut String, wide: bool, mark: &Mark) -> Result<(), AllocError>
    ensures { OnOk result (string_bytes text.new ≡ string_bytes text.old ++ mark_text wide mark.now) }
{
    push_start(text, wide, mark)?;
    text.push_str(shape_text(mark.op))?;
    write!(
        text,
        "<text class='object' y='17'>{}</text><text y='28'>{}</text></g>\n",
        mark.x, mark.v
    )
}

/// Appends all marks.
pub(crate) fn push_marks(text: &mut String, wide: bool, marks: &[Mark]) -> Result<(), AllocError>
    ensures { OnOk result (string_bytes text.new ≡ string_bytes text.old ++ marks_text wide marks.now) }
{
    'marks: for mark in marks {
        push_mark(text, wide, mark)?;
    }
    Ok(())
}
