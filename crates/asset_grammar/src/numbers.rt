//! Numbers and values in decimal.
ghost use Rattle.std.specs.Prelude.{◌≡◌, ◌<◌, ◌≤◌, ◌+◌, ◌*◌, ◌^◌, true, false, IfSome, IfNone, MatchOption, get_or};
ghost use Rattle.std.specs.Char.{is_ascii_digit, digit_value};
ghost use Rattle.asset_grammar.specs.Numbers.{begins_well, negative_value, positive_value, AreAllDigitsAt, AreDigitsAt, IsNumberAt, NoNumberAt};

/// The most digits of which each number is below 2^64.
const SURE_DIGITS: usize = 19;

/// Returns whether the text has a first byte, and no zero before another byte.
#[inline(always)]
#[tactic(auto, unfolding(crate::specs::Numbers::begins_well))]
fn begins_well(text: &[u8]) -> bool
    ensures { result ≡ begins_well text.now }
{
    match text.split_first() {
        None => false,
        Some((first, rest)) => *first != b'0' || rest.is_empty(),
    }
}

/// Returns the number with one more digit, if the byte is a digit and the number stays below 2^64.
#[inline(always)]
fn with_digit(number: u64, byte: u8) -> Option<u64>
    ensures longer { IfSome result (λ more. (is_ascii_digit byte ≡ true) × (more ≡ number * 10 + digit_value byte) × (more < 2 ^ 64)) }
    ensures none { IfNone result (is_ascii_digit byte ≡ true → 2 ^ 64 ≤ number * 10 + digit_value byte) }
{
    if !byte.is_ascii_digit() {
        return None;
    }
    number.checked_mul(10)?.checked_add(u64::from(byte - b'0'))
}

/// Returns whether a digit stands at this place of a text.
#[inline(always)]
fn is_digit_at(text: &[u8], place: usize) -> bool
    ensures { result ≡ is_ascii_digit (get_or text.now place 0) }
{
    place < text.len() && text[place].is_ascii_digit()
}

/// Reads the digits at the start of a text, up to 19 of them. Returns the number that they write with their count.
#[inline(always)]
fn first_digits(text: &[u8]) -> (u64, usize)
    ensures digits { AreDigitsAt text.now result.0 result.1 }
    ensures ends { result.1 < 19 → is_ascii_digit (get_or text.now result.1 0) ≡ false }
{
    let most = text.len().min(SURE_DIGITS);
    let mut number: u64 = 0;
    let mut size: usize = 0;
    'digits: while size < most && text[size].is_ascii_digit() {
        number = number * 10 + u64::from(text[size] - b'0');
        size += 1;
    }
    (number, size)
}

/// Goes on to read the digits at the start of a text, of which the first `size` write `number`. Returns the number that all of
/// them write, with their count; `None` if it is 2^64 or more.
fn more_digits(text: &[u8], number: u64, size: usize) -> Option<(u64, usize)>
    requires { AreDigitsAt text.now number size }
    ensures { MatchOption result (NoNumberAt text.now) (λ read. AreAllDigitsAt text.now read.0 read.1) }
{
    let mut number = number;
    let mut size = size;
    'digits: while is_digit_at(text, size) {
        number = with_digit(number, text[size])?;
        size += 1;
    }
    Some((number, size))
}

/// Reads the digits at the start of a text, up to the first byte that is no digit. Returns the number that they write with their
/// count; `None` if it is 2^64 or more.
#[inline(always)]
fn digits_at(text: &[u8]) -> Option<(u64, usize)>
    ensures { MatchOption result (NoNumberAt text.now) (λ read. AreAllDigitsAt text.now read.0 read.1) }
{
    let (number, size) = first_digits(text);
    if size < SURE_DIGITS {
        return Some((number, size));
    }
    more_digits(text, number, size)
}

/// Reads the number at the start of a text, up to the first byte that is no digit. Returns it with the count of its digits.
#[inline(always)]
pub(crate) fn number_at(text: &[u8]) -> Option<(u64, usize)>
    ensures { MatchOption result (NoNumberAt text.now) (λ read. IsNumberAt text.now read.0 read.1) }
{
    let (number, size) = digits_at(text)?;
    if begins_well(&text[..size]) {
        Some((number, size))
    } else {
        None
    }
}

/// Returns the number as a value, if it is one.
#[inline(always)]
#[tactic(auto, unfolding(crate::specs::Numbers::positive_value))]
pub(crate) fn positive(number: u64) -> Option<i64>
    ensures { result ≡ positive_value number }
{
    i64::try_from(number).ok()
}

/// Returns the number below zero as a value, if it is one and not `-0`.
#[tactic(auto, unfolding(crate::specs::Numbers::negative_value))]
pub(crate) fn negative(number: u64) -> Option<i64>
    ensures { result ≡ negative_value number }
{
    if number == 0 {
        return None;
    }
    0i64.checked_sub_unsigned(number)
}
