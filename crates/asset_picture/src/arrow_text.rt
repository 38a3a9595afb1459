//! The text of arrows.

ghost use Rattle.std.specs.Prelude.{◌≡◌, ◌++◌, OnOk, string_bytes};
ghost use Rattle.asset_picture.specs.Shapes.{drawn_word, bow_text, way_text, arrow_start_text, arrow_text};
ghost use Rattle.asset_picture.specs.Picture.{arrows_text};

use crate::layout::{bow_at, pale, x_at, y_at};
use asset_lanes::{Arrow, ArrowKind};
use std::alloc::AllocError;

/// Returns the word of a kind of arrow.
#[tactic(auto, unfolding(crate::specs::Shapes::drawn_word))]
fn drawn_word(kind: ArrowKind) -> &'static str
    ensures { result.now ≡ drawn_word kind }
{
    match kind {
        ArrowKind::Source => "source",
        ArrowKind::Permit => "permit",
        ArrowKind::Open => "open",
        ArrowKind::Delegate => "delegate",
        ArrowKind::Cd => "cd",
        ArrowKind::Ad => "ad",
        ArrowKind::Gc => "gc",
    }
}

/// Appends the bow from a read to its source, but for the last row.
#[tactic(auto, unfolding(crate::specs::Shapes::bow_text, crate::specs::Layout::pieces))]
fn push_bow(text: &mut String, wide: bool, arrow: &Arrow) -> Result<(), AllocError>
    ensures { OnOk result (string_bytes text.new ≡ string_bytes text.old ++ bow_text wide arrow.now) }
{
    let from = x_at(wide, arrow.from);
    let to = x_at(wide, arrow.to);
    let bend = bow_at(arrow.row);
    let end = bow_at(arrow.to_row);
    write!(text, "C{from} {bend} {to} {end} {to} ")
}

/// Appends what is between the ends of an arrow.
#[tactic(auto, unfolding(crate::specs::Shapes::way_text))]
fn push_way(text: &mut String, wide: bool, arrow: &Arrow, kind: ArrowKind) -> Result<(), AllocError>
    ensures { OnOk result (string_bytes text.new ≡ string_bytes text.old ++ way_text wide arrow.now kind) }
{
    match kind {
        ArrowKind::Source => push_bow(text, wide, arrow),
        ArrowKind::Permit => text.push_str("V"),
        ArrowKind::Open => text.push_str("m-8 0a8 8 0 1 0 16 0a8 8 0 1 0-16 0V"),
        ArrowKind::Delegate => text.push_str("V"),
        ArrowKind::Cd => text.push_str("V"),
        ArrowKind::Ad => text.push_str("V"),
        ArrowKind::Gc => text.push_str("V"),
    }
}

/// Appends the start of an arrow.
#[tactic(auto, unfolding(crate::specs::Shapes::arrow_start_text, crate::specs::Layout::pieces))]
fn push_start(text: &mut String, wide: bool, arrow: &Arrow) -> Result<(), AllocError>
    ensures { OnOk result (string_bytes text.new ≡ string_bytes text.old ++ arrow_start_text wide arrow.now) }
{
    let word = drawn_word(arrow.kind);
    let pale = pale(arrow.is_dead);
    let x = x_at(wide, arrow.from);
    let y = y_at(arrow.row);
    write!(text, "<path class='arrow {word}{pale}' d='M{x} {y} ")
}

/// Appends an arrow.
#[tactic(auto, unfolding(crate::specs::Shapes::arrow_text, crate::specs::Layout::pieces))]
fn push_arrow(text: &mut String, wide: bool, arrow: &Arrow) -> Result<(), AllocError>
    ensures { OnOk result (string_bytes text.new ≡ string_bytes text.old ++ arrow_text wide arrow.now) }
{
    push_start(text, wide, arrow)?;
    push_way(text, wide, arrow, arrow.kind)?;
    write!(text, "{}'/>\n", y_at(arrow.to_row))
}

/// Appends all arrows.
pub(crate) fn push_arrows(text: &mut String, wide: bool, arrows: &[Arrow]) -> Result<(), AllocError>
    ensures { OnOk result (string_bytes text.new ≡ string_bytes text.old ++ arrows_text wide arrows.now) }
{
    'arrows: for arrow in arrows {
        push_arrow(text, wide, arrow)?;
    }
    Ok(())
}
