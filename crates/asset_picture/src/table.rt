//! The table of a long history.

ghost use Rattle.std.specs.Prelude.{◌≡◌, ◌++◌, OnOk, string_bytes};
ghost use Rattle.asset_picture.specs.Tables.{table_height, heading_text, row_text, number_text, count_text, both_text, row_for, rows_text, table_frame, table_text};

use crate::lane_text::{state_word, status_word};
use crate::opening::push_open;
use crate::style::push_style;
use asset_lanes::Summary;
use asset_names::Status;
use std::alloc::AllocError;

/// Returns the height of a table with `rows` rows.
#[tactic(auto, unfolding(crate::specs::Tables::table_height))]
fn table_height(rows: usize) -> u128
    ensures { result ≡ table_height rows }
{
    70 + 20 * (rows as u128)
}

/// Appends the start of a table.
#[tactic(auto, unfolding(crate::specs::Tables::heading_text, crate::specs::Layout::pieces))]
fn push_heading(text: &mut String, count: usize) -> Result<(), AllocError>
    ensures { OnOk result (string_bytes text.new ≡ string_bytes text.old ++ heading_text count) }
{
    write!(
        text,
        "<text class='key' x='20' y='28'>{count} entries</text>\n<text class='row' y='50'><tspan class='object' x='20'>transaction</tspan><tspan class='object' x='190'>group</tspan><tspan class='object' x='270'>the group is</tspan><tspan class='object' x='380'>status</tspan><tspan class='object' x='470'>steps</tspan><tspan class='object' x='550'>first</tspan><tspan class='object' x='630'>last</tspan>\n"
    )
}

/// Appends a row.
#[tactic(auto, unfolding(crate::specs::Tables::row_text, crate::specs::Layout::pieces))]
fn push_row(
    text: &mut String,
    n: u64,
    group: usize,
    is_dead: bool,
    status: Status,
) -> Result<(), AllocError>
    ensures { OnOk result (string_bytes text.new ≡ string_bytes text.old ++ row_text n group is_dead status) }
{
    let state = state_word(is_dead);
    let status = status_word(status);
    write!(
        text,
        "<tspan x='20' dy='20'>{n}</tspan><tspan x='190'>{group}</tspan><tspan x='270'>{state}</tspan><tspan x='380'>{status}</tspan>"
    )
}

/// Appends a number, if there is one.
#[tactic(auto, unfolding(crate::specs::Tables::number_text))]
fn push_number(text: &mut String, number: Option<usize>) -> Result<(), AllocError>
    ensures { OnOk result (string_bytes text.new ≡ string_bytes text.old ++ number_text number) }
{
    match number {
        Some(n) => write!(text, "{n}"),
        None => Ok(()),
    }
}

/// Appends how many entries a transaction asked for.
#[tactic(auto, unfolding(crate::specs::Tables::count_text, crate::specs::Layout::pieces))]
fn push_count(text: &mut String, count: usize) -> Result<(), AllocError>
    ensures { OnOk result (string_bytes text.new ≡ string_bytes text.old ++ count_text count) }
{
    write!(text, "<tspan x='470'>{count}</tspan><tspan x='550'>")
}

/// Appends the numbers of a first and a last entry, if there are any.
#[tactic(auto, unfolding(crate::specs::Tables::both_text))]
fn push_both(text: &mut String, first: Option<usize>, last: Option<usize>) -> Result<(), AllocError>
    ensures { OnOk result (string_bytes text.new ≡ string_bytes text.old ++ both_text first last) }
{
    push_number(text, first)?;
    text.push_str("</tspan><tspan x='630'>")?;
    push_number(text, last)?;
    text.push_str("</tspan>\n")
}

/// Appends the row of a transaction.
#[tactic(auto, unfolding(crate::specs::Tables::row_for))]
fn push_row_for(text: &mut String, summary: &Summary) -> Result<(), AllocError>
    ensures { OnOk result (string_bytes text.new ≡ string_bytes text.old ++ row_for summary.now) }
{
    push_row(
        text,
        summary.t,
        summary.group,
        summary.is_dead,
        summary.status,
    )?;
    push_count(text, summary.count)?;
    push_both(text, summary.first, summary.last)
}

/// Appends the rows of transactions.
fn push_rows(text: &mut String, summaries: &[Summary]) -> Result<(), AllocError>
    ensures { OnOk result (string_bytes text.new ≡ string_bytes text.old ++ rows_text summaries.now) }
{
    'rows: for summary in summaries {
        push_row_for(text, summary)?;
    }
    Ok(())
}

/// Appends the start of a table of `count` entries in `rows` rows.
#[tactic(auto, unfolding(crate::specs::Tables::table_frame))]
fn push_frame(text: &mut String, count: usize, rows: usize) -> Result<(), AllocError>
    ensures { OnOk result (string_bytes text.new ≡ string_bytes text.old ++ table_frame count rows) }
{
    push_open(text, 720, table_height(rows))?;
    push_style(text)?;
    push_heading(text, count)
}

/// Appends the table of `count` entries.
#[tactic(auto, unfolding(crate::specs::Tables::table_text))]
pub(crate) fn push_table(
    text: &mut String,
    count: usize,
    summaries: &[Summary],
) -> Result<(), AllocError>
    ensures { OnOk result (string_bytes text.new ≡ string_bytes text.old ++ table_text count summaries.now) }
{
    push_frame(text, count, summaries.len())?;
    push_rows(text, summaries)?;
    text.push_str("</text>\n</svg>\n")
}
