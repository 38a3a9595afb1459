//! Words, and the numbers and values that they write.

/// What is left of a text, unless its last part is gone.
#[derive(Clone, Copy)]
pub(crate) struct Words<'a> {
    rest: Option<&'a [u8]>,
    separator: u8,
}

/// Returns what stands before the first `byte` and what stands after it.
fn cut(text: &[u8], byte: u8) -> Option<(&[u8], &[u8])> {
    for i in 0..text.len() {
        if text[i] == byte {
            return Some((&text[..i], &text[i + 1..]));
        }
    }
    None
}

impl<'a> Words<'a> {
    /// Returns all the parts of a text between its separators.
    pub(crate) fn new(text: &'a [u8], separator: u8) -> Words<'a> {
        Words {
            rest: Some(text),
            separator,
        }
    }

    /// Returns the next part.
    pub(crate) fn next_word(&mut self) -> Option<&'a [u8]> {
        let text = self.rest?;
        match cut(text, self.separator) {
            Some((word, rest)) => {
                self.rest = Some(rest);
                Some(word)
            }
            None => {
                self.rest = None;
                Some(text)
            }
        }
    }
}

/// Returns the number that a word writes.
pub(crate) fn number(word: &[u8]) -> Option<u64> {
    if word.is_empty() || (word[0] == b'0' && word.len() > 1) {
        return None;
    }
    let mut number: u64 = 0;
    for byte in word {
        let digit = byte.wrapping_sub(b'0');
        if digit > 9 {
            return None;
        }
        number = number.checked_mul(10)?.checked_add(u64::from(digit))?;
    }
    Some(number)
}

/// Returns the value that a word writes.
pub(crate) fn value(word: &[u8]) -> Option<i64> {
    if word.is_empty() {
        return None;
    }
    if word[0] != b'-' {
        return i64::try_from(number(word)?).ok();
    }
    let below = number(&word[1..])?;
    if below == 0 {
        return None;
    }
    0i64.checked_sub_unsigned(below)
}
