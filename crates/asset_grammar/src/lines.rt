//! Finds where the first line of a text ends.
ghost use Rattle.std.specs.Prelude.{◌≡◌, ◌==◌, ◌||◌, drop, position, option_map};
ghost use Rattle.asset_grammar.specs.Lines.{line_tail};
ghost use Rattle.asset_grammar.specs.Words.{IsWordAt};

/// Returns the position of the first line feed.
fn feed_position(text: &[u8]) -> Option<usize>
    ensures { result ≡ position (λ b. b == 10) text.now }
{
    text.iter().position(|b| *b == b'\n')
}

/// Returns a text from the end of its first line on: from the first line feed, or nothing if there is none.
#[tactic(auto, using(crate::proofs::FirstLineLemmas::tail_at_feed, crate::proofs::FirstLineLemmas::no_feed_no_tail))]
pub(crate) fn line_end(text: &[u8]) -> &[u8]
    ensures { result.now ≡ line_tail text.now }
{
    match feed_position(text) {
        Some(at) => {
            let (_, tail) = text.split_at(at);
            tail
        }
        None => &[],
    }
}

/// Returns the text after its first byte, which is the line feed of the line before. An empty text stays so.
pub(crate) fn next_lines(tail: &[u8]) -> &[u8]
    ensures { result.now ≡ drop 1 tail.now }
{
    match tail.split_first() {
        Some((_, rest)) => rest,
        None => tail,
    }
}

/// Returns the position of the first space or line feed.
#[inline(always)]
fn stop_position(text: &[u8]) -> Option<usize>
    ensures { result ≡ position (λ b. b == 32 || b == 10) text.now }
{
    text.iter().position(|b| *b == b' ' || *b == b'\n')
}

/// Returns the size of the word at the start of a text. It ends before the first space or line feed, or with the text.
#[inline(always)]
#[tactic(auto, using(crate::proofs::FirstLineLemmas::word_at_stop, crate::proofs::FirstLineLemmas::word_to_the_end))]
pub(crate) fn word_size(text: &[u8]) -> usize
    ensures { IsWordAt text.now result }
{
    match stop_position(text) {
        Some(at) => at,
        None => text.len(),
    }
}
