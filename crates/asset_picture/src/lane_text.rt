//! The text of lanes.

ghost use Rattle.std.specs.Prelude.{◌≡◌, ◌++◌, OnOk, string_bytes};
ghost use Rattle.asset_picture.specs.Shapes.{status_word, band_word, state_word, label_text, stop_text, line_start_text, line_from, line_text, lane_start_text, lane_text};
ghost use Rattle.asset_picture.specs.Picture.{lanes_text};

use crate::layout::{pale, x_at, y_at};
use asset_lanes::{Lane, Span};
use asset_names::Status;
use std::alloc::AllocError;

/// Returns the word of a status.
#[tactic(auto, unfolding(crate::specs::Shapes::status_word))]
pub(crate) fn status_word(status: Status) -> &'static str
    ensures { result.now ≡ status_word status }
{
    match status {
        Status::Unknown => "unknown",
        Status::Initiated => "live",
        Status::Running => "live",
        Status::Completed => "live",
        Status::Committed => "committed",
        Status::Aborted => "aborted",
    }
}

/// Returns the shade of a group.
#[tactic(auto, unfolding(crate::specs::Shapes::band_word))]
fn band_word(group: usize) -> &'static str
    ensures { result.now ≡ band_word group }
{
    if group % 2 == 0 { "even" } else { "odd" }
}

/// Returns the word of a dead group, or of another.
#[tactic(auto, unfolding(crate::specs::Shapes::state_word))]
pub(crate) fn state_word(is_dead: bool) -> &'static str
    ensures { result.now ≡ state_word is_dead }
{
    if is_dead { "dead" } else { "committed" }
}

/// Appends the band of a lane, with its group and its name.
#[tactic(auto, unfolding(crate::specs::Shapes::label_text, crate::specs::Layout::pieces))]
fn push_label(text: &mut String, wide: bool, lane: &Lane) -> Result<(), AllocError>
    ensures { OnOk result (string_bytes text.new ≡ string_bytes text.old ++ label_text wide lane.now) }
{
    let band = band_word(lane.group);
    let state = state_word(lane.is_dead);
    let x = x_at(wide, lane.span.start.unwrap_or(0));
    write!(
        text,
        "<rect class='{band}' y='-26' width='100%' height='56'/><text class='note' x='16' y='-12'>group {} {state}</text><text class='name' x='{x}' dx='-12' y='5'>{}</text>",
        lane.group, lane.t
    )
}

/// Appends the end of a line.
#[tactic(auto, unfolding(crate::specs::Shapes::stop_text, crate::specs::Layout::pieces))]
fn push_stop(
    text: &mut String,
    wide: bool,
    count: usize,
    stop: Option<usize>,
) -> Result<(), AllocError>
    ensures { OnOk result (string_bytes text.new ≡ string_bytes text.old ++ stop_text wide count stop) }
{
    match stop {
        Some(stop) => write!(text, "{}v-7v14", x_at(wide, stop)),
        None => write!(text, "{}", x_at(wide, count)),
    }
}

/// Appends the start of a line.
#[tactic(auto, unfolding(crate::specs::Shapes::line_start_text, crate::specs::Layout::pieces))]
fn push_line_start(text: &mut String, wide: bool, start: usize) -> Result<(), AllocError>
    ensures { OnOk result (string_bytes text.new ≡ string_bytes text.old ++ line_start_text wide start) }
{
    write!(
        text,
        "<path class='lane' d='M{} 0v-7v14v-7H",
        x_at(wide, start)
    )
}

/// Appends the line of a lane from its start.
#[tactic(auto, unfolding(crate::specs::Shapes::line_from))]
fn push_line_from(
    text: &mut String,
    wide: bool,
    count: usize,
    start: usize,
    stop: Option<usize>,
) -> Result<(), AllocError>
    ensures { OnOk result (string_bytes text.new ≡ string_bytes text.old ++ line_from wide count start stop) }
{
    push_line_start(text, wide, start)?;
    push_stop(text, wide, count, stop)?;
    text.push_str("'/>")
}

/// Appends the line of a lane, if its transaction was initiated.
#[tactic(auto, unfolding(crate::specs::Shapes::line_text))]
fn push_line(text: &mut String, wide: bool, count: usize, span: &Span) -> Result<(), AllocError>
    ensures { OnOk result (string_bytes text.new ≡ string_bytes text.old ++ line_text wide count span.now.start span.now.stop) }
{
    match span.start {
        Some(start) => push_line_from(text, wide, count, start, span.stop),
        None => Ok(()),
    }
}

/// Appends the start of a lane.
#[tactic(auto, unfolding(crate::specs::Shapes::lane_start_text, crate::specs::Layout::pieces))]
fn push_start(text: &mut String, lane: &Lane) -> Result<(), AllocError>
    ensures { OnOk result (string_bytes text.new ≡ string_bytes text.old ++ lane_start_text lane.now) }
{
    let word = status_word(lane.span.status);
    let pale = pale(lane.is_dead);
    let y = y_at(lane.row);
    write!(
        text,
        "<g class='{word}{pale}' transform='translate(0 {y})'>"
    )
}

/// Appends a lane of a picture with `count` entries.
#[tactic(auto, unfolding(crate::specs::Shapes::lane_text, crate::specs::Layout::pieces))]
fn push_lane(text: &mut String, wide: bool, count: usize, lane: &Lane) -> Result<(), AllocError>
    ensures { OnOk result (string_bytes text.new ≡ string_bytes text.old ++ lane_text wide count lane.now) }
{
    push_start(text, lane)?;
    push_label(text, wide, lane)?;
    push_line(text, wide, count, &lane.span)?;
    text.push_str("</g>\n")
}

/// Appends all lanes.
pub(crate) fn push_lanes(
    text: &mut String,
    wide: bool,
    count: usize,
    lanes: &[Lane],
) -> Result<(), AllocError>
    ensures { OnOk result (string_bytes text.new ≡ string_bytes text.old ++ lanes_text wide count lanes.now) }
{
    'lanes: for lane in lanes {
        push_lane(text, wide, count, lane)?;
    }
    Ok(())
}
