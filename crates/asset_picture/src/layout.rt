//! Where things stand in a picture.

ghost use Rattle.std.specs.Prelude.{◌≡◌};
ghost use Rattle.asset_picture.specs.Layout.{is_long, are_wide, x_at, y_at, bow_at, columns, pale};

use asset_lanes::Mark;

/// Returns whether a mark has a long number.
#[tactic(auto, unfolding(crate::specs::Layout::is_long))]
fn is_long(mark: &Mark) -> bool
    ensures { result ≡ is_long mark.now }
{
    mark.x > 999999 || mark.v.unsigned_abs() > 99999
}

/// Returns whether some mark has a long number.
pub(crate) fn are_wide(marks: &[Mark]) -> bool
    ensures { result ≡ are_wide marks.now }
{
    'marks: for mark in marks {
        if is_long(mark) {
            return true;
        }
    }
    false
}

/// Returns the column of the entry with this number.
#[tactic(auto, unfolding(crate::specs::Layout::x_at))]
pub(crate) fn x_at(wide: bool, number: usize) -> u128
    ensures { result ≡ x_at wide number }
{
    let number = number as u128;
    if wide {
        230 + 156 * number
    } else {
        230 + 48 * number
    }
}

/// Returns the middle of a row.
#[tactic(auto, unfolding(crate::specs::Layout::y_at))]
pub(crate) fn y_at(row: usize) -> u128
    ensures { result ≡ y_at row }
{
    108 + 56 * (row as u128)
}

/// Returns where a bow from a row bends.
#[tactic(auto, unfolding(crate::specs::Layout::bow_at))]
pub(crate) fn bow_at(row: usize) -> u128
    ensures { result ≡ bow_at row }
{
    74 + 56 * (row as u128)
}

/// Returns how many columns a picture of `count` entries has.
#[tactic(auto, unfolding(crate::specs::Layout::columns))]
pub(crate) fn columns(count: usize) -> usize
    ensures { result ≡ columns count }
{
    if count < 12 { 12 } else { count }
}

/// Returns the word, after a space, by which what is of a dead group is drawn pale; nothing for another group.
#[tactic(auto, unfolding(crate::specs::Layout::pale))]
pub(crate) fn pale(is_dead: bool) -> &'static str
    ensures { result.now ≡ pale is_dead }
{
    if is_dead { " dead" } else { "" }
}
