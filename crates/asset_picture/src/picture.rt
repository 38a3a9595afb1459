//! A history as a picture.

ghost use Rattle.std.specs.Prelude.{◌≡◌, ◌++◌, IfOk, OnOk, length, string_bytes};
ghost use Rattle.asset_lanes.specs.Lanes.{lanes};
ghost use Rattle.asset_lanes.specs.Marks.{marks};
ghost use Rattle.asset_lanes.specs.Arrows.{arrows};
ghost use Rattle.asset_picture.specs.Tables.{table_in};
ghost use Rattle.asset_picture.specs.Picture.{frame_text, frame_for, rest_text, shapes_in, shapes_text, drawing_in, picture_in, picture_text};

use crate::arrow_text::push_arrows;
use crate::lane_text::push_lanes;
use crate::layout::{are_wide, columns, x_at, y_at};
use crate::mark_text::push_marks;
use crate::opening::{push_open, push_steps};
use crate::style::{push_legend, push_style};
use crate::table::push_table;
use asset_deletion::{Groups, groups};
use asset_history::History;
use asset_lanes::{Arrow, Lane, Mark, arrows, lane_names, lanes, marks, summaries};
use asset_names::NoMemory;
use std::alloc::{AllocError, Global};

/// Appends the start of a picture of this size, with its legend.
#[tactic(auto, unfolding(crate::specs::Picture::frame_text))]
fn push_frame(text: &mut String, width: u128, height: u128) -> Result<(), AllocError>
    ensures { OnOk result (string_bytes text.new ≡ string_bytes text.old ++ frame_text width height) }
{
    push_open(text, width, height)?;
    push_style(text)?;
    push_legend(text)
}

/// Appends the start of a picture of `count` entries in `rows` rows.
#[tactic(auto, unfolding(crate::specs::Picture::frame_for))]
fn push_frame_for(
    text: &mut String,
    wide: bool,
    count: usize,
    rows: usize,
) -> Result<(), AllocError>
    ensures { OnOk result (string_bytes text.new ≡ string_bytes text.old ++ frame_for wide count rows) }
{
    push_frame(text, x_at(wide, columns(count)), y_at(rows))
}

/// Appends arrows and marks, to the end of the picture.
#[tactic(auto, unfolding(crate::specs::Picture::rest_text))]
fn push_rest(
    text: &mut String,
    wide: bool,
    arrows: &[Arrow],
    marks: &[Mark],
) -> Result<(), AllocError>
    ensures { OnOk result (string_bytes text.new ≡ string_bytes text.old ++ rest_text wide arrows.now marks.now) }
{
    push_arrows(text, wide, arrows)?;
    push_marks(text, wide, marks)?;
    text.push_str("</svg>\n")
}

/// Appends a picture of `count` entries, whose columns are wide or not.
#[tactic(auto, unfolding(crate::specs::Picture::shapes_in))]
fn push_shapes_in(
    text: &mut String,
    wide: bool,
    count: usize,
    lanes: &[Lane],
    arrows: &[Arrow],
    marks: &[Mark],
) -> Result<(), AllocError>
    ensures { OnOk result (string_bytes text.new ≡ string_bytes text.old ++ shapes_in wide count lanes.now arrows.now marks.now) }
{
    push_frame_for(text, wide, count, lanes.len())?;
    push_lanes(text, wide, count, lanes)?;
    push_steps(text, wide, count)?;
    push_rest(text, wide, arrows, marks)
}

/// Appends a picture of `count` entries.
#[tactic(auto, unfolding(crate::specs::Picture::shapes_text))]
fn push_shapes(
    text: &mut String,
    count: usize,
    lanes: &[Lane],
    arrows: &[Arrow],
    marks: &[Mark],
) -> Result<(), AllocError>
    ensures { OnOk result (string_bytes text.new ≡ string_bytes text.old ++ shapes_text count lanes.now arrows.now marks.now) }
{
    push_shapes_in(text, are_wide(marks), count, lanes, arrows, marks)
}

/// Appends the picture of a history with these lanes and arrows, or answers `NoMemory` if memory runs out.
fn push_with_marks(
    alloc: Global,
    history: &History,
    groups: &Groups,
    rows: &[u64],
    lanes: &[Lane],
    arrows: &[Arrow],
    text: &mut String,
) -> Result<(), NoMemory>
    ensures { OnOk result (string_bytes text.new ≡ string_bytes text.old
        ++ shapes_text (length history.now.entries) lanes.now arrows.now (marks groups.now rows.now history.now.entries)) }
{
    match marks(alloc, history, groups, rows) {
        Ok(marks) => match push_shapes(text, history.len(), lanes, arrows, &marks) {
            Ok(()) => Ok(()),
            Err(_) => Err(NoMemory),
        },
        Err(_) => Err(NoMemory),
    }
}

/// Appends the picture of a history with these groups and rows, or answers `NoMemory` if memory runs out.
#[tactic(auto, unfolding(crate::specs::Picture::drawing_in))]
fn push_drawing(
    alloc: Global,
    history: &History,
    groups: &Groups,
    rows: &[u64],
    text: &mut String,
) -> Result<(), NoMemory>
    ensures { OnOk result (string_bytes text.new ≡ string_bytes text.old ++ drawing_in groups.now rows.now history.now.entries) }
{
    let lanes = lanes(alloc, history, groups, rows)?;
    match arrows(alloc, history, groups, rows) {
        Ok(arrows) => push_with_marks(alloc, history, groups, rows, &lanes, &arrows, text),
        Err(_) => Err(NoMemory),
    }
}

/// Appends the table of a history with these groups and rows, or answers `NoMemory` if memory runs out.
#[tactic(auto, unfolding(crate::specs::Tables::table_in))]
fn push_long(
    alloc: Global,
    history: &History,
    groups: &Groups,
    rows: &[u64],
    text: &mut String,
) -> Result<(), NoMemory>
    ensures { OnOk result (string_bytes text.new ≡ string_bytes text.old ++ table_in groups.now rows.now history.now.entries) }
{
    let found = summaries(alloc, history, groups, rows)?;
    match push_table(text, history.len(), &found) {
        Ok(()) => Ok(()),
        Err(_) => Err(NoMemory),
    }
}

/// Appends the picture of a history with these groups, or its table if it is long.
#[tactic(auto, unfolding(crate::specs::Picture::picture_in))]
fn push_grouped(
    alloc: Global,
    history: &History,
    groups: &Groups,
    text: &mut String,
) -> Result<(), NoMemory>
    ensures { OnOk result (string_bytes text.new ≡ string_bytes text.old ++ picture_in groups.now history.now.entries) }
{
    let rows = lane_names(alloc, groups)?;
    if history.len() > 200 {
        push_long(alloc, history, groups, &rows, text)
    } else {
        push_drawing(alloc, history, groups, &rows, text)
    }
}

/// Appends a history as a picture: an SVG 1.1 document without scripts. It has a lane for each transaction, from the entry
/// that initiated it to the one that ended it; a mark for each operation that took effect; and arrows for permits,
/// delegations and dependencies that were made, and from each read to its source, if that is no opening value. A history of
/// more than 200 entries is a table of its transactions.
///
/// It answers `NoMemory` if memory runs out; a part of the text may have been appended then. A table takes time that is
/// nearly in proportion to the entries. A picture goes over its entries once for each transaction.
#[tactic(auto, unfolding(crate::specs::Picture::picture_text))]
pub fn push_picture(alloc: Global, history: &History, text: &mut String) -> Result<(), NoMemory>
    ensures { OnOk result (string_bytes text.new ≡ string_bytes text.old ++ picture_text history.now.entries) }
{
    let groups = groups(alloc, history)?;
    push_grouped(alloc, history, &groups, text)
}
