//! Numbers and values in decimal digits. If memory runs out, a part of them may have been appended to the text.
ghost use Rattle.std.specs.Prelude.{◌≡◌, ◌++◌, ◌<◌, ◌^◌, ◌∷◌, OnOk, string_bytes};
ghost use Rattle.std.specs.Fmt.{decimal, signed_decimal};
ghost use Rattle.std.specs.Int.Signed.{mag};

use itoa::Buffer;
use std::alloc::AllocError;

/// Appends a number in decimal digits, without leading zeros. It says too, for proofs, that the number is in range.
pub fn push_number(text: &mut String, number: u64) -> Result<(), AllocError>
    ensures text { OnOk result (string_bytes text.new ≡ string_bytes text.old ++ decimal number) }
    ensures small { number < 2 ^ 64 }
{
    let mut digits = Buffer::new();
    text.push_str(digits.format(number))
}

/// Appends a value in decimal digits, without leading zeros, and after a minus sign if it is below 0. It says too, for
/// proofs, that the value is in range.
pub fn push_value(text: &mut String, v: i64) -> Result<(), AllocError>
    ensures text { OnOk result (string_bytes text.new ≡ string_bytes text.old ++ signed_decimal v) }
    ensures small { mag v < 2 ^ 63 }
{
    let mut digits = Buffer::new();
    text.push_str(digits.format(v))
}

/// Appends a space and a number, as `push_number` does. It says too, for proofs, that the number is in range.
pub fn push_next_number(text: &mut String, number: u64) -> Result<(), AllocError>
    ensures text { OnOk result (string_bytes text.new ≡ string_bytes text.old ++ 32 ∷ decimal number) }
    ensures small { number < 2 ^ 64 }
{
    text.push_str(" ")?;
    push_number(text, number)
}

/// Appends a space and a value, as `push_value` does. It says too, for proofs, that the value is in range.
pub fn push_next_value(text: &mut String, v: i64) -> Result<(), AllocError>
    ensures text { OnOk result (string_bytes text.new ≡ string_bytes text.old ++ 32 ∷ signed_decimal v) }
    ensures small { mag v < 2 ^ 63 }
{
    text.push_str(" ")?;
    push_value(text, v)
}
