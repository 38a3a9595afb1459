//! What is wrong with the bytes of a line, whatever its words say.
ghost use Rattle.std.specs.Prelude.{◌≡◌, ◌==◌, ◌<◌, get_or};
ghost use Rattle.asset_reasons.specs.Spelling.{begins_with, ends_with, has_alone, has_byte, has_mark, has_pair, has_space_at_comma, spacing, spelling};

use crate::reasons::Reason;

/// Returns whether the byte stands at this position of a text.
fn has_at(text: &[u8], position: usize, byte: u8) -> bool
    requires { 0 < byte }
    ensures { result ≡ (get_or text.now position 0 == byte) }
{
    position < text.len() && text[position] == byte
}

/// Returns whether a line begins with the byte.
#[tactic(auto, unfolding(crate::specs::Spelling::begins_with))]
pub(crate) fn begins_with(line: &[u8], byte: u8) -> bool
    requires { 0 < byte }
    ensures { result ≡ begins_with byte line.now }
{
    has_at(line, 0, byte)
}

/// Returns whether a line ends with the byte.
#[tactic(auto, unfolding(crate::specs::Spelling::ends_with))]
fn ends_with(line: &[u8], byte: u8) -> bool
    requires { 0 < byte }
    ensures { result ≡ ends_with byte line.now }
{
    has_at(line, line.len().saturating_sub(1), byte)
}

/// Returns whether a line has the byte.
#[tactic(auto, unfolding(crate::specs::Spelling::has_byte))]
fn has_byte(line: &[u8], byte: u8) -> bool
    ensures { result ≡ has_byte byte line.now }
{
    line.contains(&byte)
}

/// Returns whether a line has no other byte.
#[tactic(auto, unfolding(crate::specs::Spelling::has_alone))]
fn has_alone(line: &[u8], byte: u8) -> bool
    ensures { result ≡ has_alone byte line.now }
{
    line.iter().all(|b| *b == byte)
}

/// Returns whether the first byte stands somewhere and the second comes next.
#[tactic(auto, unfolding(crate::specs::Spelling::has_pair))]
fn has_pair(line: &[u8], first: u8, second: u8) -> bool
    ensures { result ≡ has_pair first second line.now }
{
    let Some((start, after)) = line.split_first() else {
        return false;
    };
    let mut before = *start;
    let mut rest = after;
    'bytes: while let Some((next, more)) = rest.split_first() {
        if before == first && *next == second {
            return true;
        }
        before = *next;
        rest = more;
    }
    false
}

/// Returns whether a line begins with a byte order mark.
#[tactic(auto, unfolding(crate::specs::Spelling::has_mark))]
fn has_mark(line: &[u8]) -> bool
    ensures { result ≡ has_mark line.now }
{
    has_at(line, 0, 0xEF) && has_at(line, 1, 0xBB) && has_at(line, 2, 0xBF)
}

/// Returns whether a space stands beside a comma.
#[tactic(auto, unfolding(crate::specs::Spelling::has_space_at_comma))]
fn has_space_at_comma(line: &[u8]) -> bool
    ensures { result ≡ has_space_at_comma line.now }
{
    has_pair(line, b',', b' ') || has_pair(line, b' ', b',')
}

/// Returns what is wrong with the spaces of a line.
#[tactic(auto, unfolding(crate::specs::Spelling::spacing))]
fn spacing(line: &[u8]) -> Option<Reason>
    ensures { result ≡ spacing line.now }
{
    if has_alone(line, b' ') {
        Some(Reason::SpacesAlone)
    } else if begins_with(line, b' ') {
        Some(Reason::SpaceAtStart)
    } else if ends_with(line, b' ') {
        Some(Reason::SpaceAtEnd)
    } else if has_pair(line, b' ', b' ') {
        Some(Reason::TwoSpaces)
    } else if has_pair(line, b' ', b'#') {
        Some(Reason::CommentAfter)
    } else if has_space_at_comma(line) {
        Some(Reason::SpaceAtComma)
    } else {
        None
    }
}

/// Returns what is wrong with the bytes of a line, whatever its words say.
#[tactic(auto, unfolding(crate::specs::Spelling::spelling))]
pub(crate) fn spelling(line: &[u8]) -> Option<Reason>
    ensures { result ≡ spelling line.now }
{
    if has_mark(line) {
        Some(Reason::ByteOrderMark)
    } else if ends_with(line, b'\r') {
        Some(Reason::CarriageReturn)
    } else if has_byte(line, b'\t') {
        Some(Reason::Tab)
    } else {
        spacing(line)
    }
}
