//! Lines that are drawn, each read by both parsers.

use crate::same::is_same;
use arrayvec::ArrayVec;
use asset_test_tools::next;

/// How many lines each test draws; the test of scripts draws half as many scripts.
const LINES: usize = 25_000;

/// The most bytes of a drawn line.
const MOST: usize = 160;

/// A line that is drawn; what has no room is left out.
type Drawn = ArrayVec<u8, MOST>;

/// Words that stand in lines, and words that look like them.
const WORDS: [&[u8]; 53] = [
    b"object",
    b"initiate",
    b"begin",
    b"read",
    b"write",
    b"add",
    b"complete",
    b"permit",
    b"delegate",
    b"depend",
    b"commit",
    b"abort",
    b"wait",
    b"0",
    b"1",
    b"7",
    b"8",
    b"10",
    b"18446744073709551615",
    b"18446744073709551616",
    b"9223372036854775807",
    b"9223372036854775808",
    b"-1",
    b"-0",
    b"-9223372036854775808",
    b"-9223372036854775809",
    b"00",
    b"07",
    b"r",
    b"w",
    b"rw",
    b"ra",
    b"wa",
    b"rwa",
    b"all",
    b"any",
    b"1,2",
    b"2,1",
    b"1,1",
    b"1,2,",
    b",1",
    b"cd",
    b"ad",
    b"gc",
    b"",
    b"#",
    b"x",
    b"7\r",
    b"Begin",
    b"1,2,3,4,5,6,7,8,9,10,11,12,13,14,15,16",
    b"1,2,3,4,5,6,7,8,9,10,11,12,13,14,15,16,17",
    b"184467440737095516150",
    b"a",
];

/// Lines that ask for something.
const FORMS: [&[u8]; 19] = [
    b"object 1 100",
    b"object 2 -5",
    b"initiate 7",
    b"initiate 8 7",
    b"begin 7",
    b"read 7 1",
    b"write 7 1 50",
    b"write 7 12 -345",
    b"add 7 1 -20",
    b"complete 7",
    b"permit 7 8 rw 3,1,2",
    b"permit 7 8 r all",
    b"permit 7 any rw 2,1",
    b"permit 7 8 rwa 1,2",
    b"delegate 7 8 10,20,30",
    b"depend ad 7 8",
    b"commit 7",
    b"abort 7",
    b"wait 7",
];

/// Bytes that matter in lines.
const BYTES: &[u8] = b" ,-+#019a\n\x00\xffrw78";

/// Returns a number below the limit that a seed stands for, and 0 at the limit 0.
fn below(seed: u64, limit: usize) -> usize {
    match ((seed >> 33) as usize).checked_rem(limit) {
        Some(number) => number,
        None => 0,
    }
}

/// Appends bytes, as far as there is room.
fn append(line: &mut Drawn, bytes: &[u8]) {
    for byte in bytes {
        let _ = line.try_push(*byte);
    }
}

/// Returns the byte of the list that a seed stands for.
fn byte_of(seed: u64) -> u8 {
    match BYTES.get(below(seed, BYTES.len())) {
        Some(byte) => *byte,
        None => b' ',
    }
}

/// Returns the text of the list that a seed stands for.
fn text_of<'a>(seed: u64, texts: &[&'a [u8]]) -> &'a [u8] {
    match texts.get(below(seed, texts.len())) {
        Some(text) => text,
        None => b"",
    }
}

/// Draws one to six words with a space between them.
fn draw_words(seed: &mut u64, line: &mut Drawn) {
    line.clear();
    *seed = next(*seed);
    for place in 0..=below(*seed, 6) {
        if place > 0 {
            append(line, b" ");
        }
        *seed = next(*seed);
        append(line, text_of(*seed, &WORDS));
    }
}

/// Draws a line that asks for something with one byte replaced, left out or put in.
fn draw_mutated(seed: &mut u64, line: &mut Drawn) {
    line.clear();
    *seed = next(*seed);
    let form = text_of(*seed, &FORMS);
    *seed = next(*seed);
    let at = below(*seed, form.len());
    *seed = next(*seed);
    let how = below(*seed, 3);
    *seed = next(*seed);
    for (place, byte) in form.iter().enumerate() {
        if place == at && how != 1 {
            let _ = line.try_push(byte_of(*seed));
        }
        if place != at || how == 2 {
            let _ = line.try_push(*byte);
        }
    }
}

/// Draws at most 39 bytes.
fn draw_bytes(seed: &mut u64, line: &mut Drawn) {
    line.clear();
    *seed = next(*seed);
    for _ in 0..below(*seed, 40) {
        *seed = next(*seed);
        let _ = line.try_push(byte_of(*seed));
    }
}

/// Returns whether both parsers say the same of lines of words.
fn words_are_same() -> bool {
    let mut line: Drawn = ArrayVec::new();
    let mut seed = 1;
    for _ in 0..LINES {
        draw_words(&mut seed, &mut line);
        if !is_same(line.as_slice()) {
            return false;
        }
    }
    true
}

/// Returns whether both parsers say the same of mutated lines.
fn mutated_are_same() -> bool {
    let mut line: Drawn = ArrayVec::new();
    let mut seed = 2;
    for _ in 0..LINES {
        draw_mutated(&mut seed, &mut line);
        if !is_same(line.as_slice()) {
            return false;
        }
    }
    true
}

/// Returns whether both parsers say the same of drawn bytes.
fn bytes_are_same() -> bool {
    let mut line: Drawn = ArrayVec::new();
    let mut seed = 3;
    for _ in 0..LINES {
        draw_bytes(&mut seed, &mut line);
        if !is_same(line.as_slice()) {
            return false;
        }
    }
    true
}

/// Draws a script of up to four lines.
fn draw_script(seed: &mut u64, line: &mut Drawn, script: &mut ArrayVec<u8, 400>) {
    script.clear();
    *seed = next(*seed);
    for place in 0..=below(*seed, 4) {
        if place > 0 {
            let _ = script.try_push(b'\n');
        }
        draw_mutated(seed, line);
        for byte in line.as_slice() {
            let _ = script.try_push(*byte);
        }
    }
}

/// Returns whether the cursor over drawn scripts says what the plain parser says of each line.
fn scripts_are_same() -> bool {
    let mut line: Drawn = ArrayVec::new();
    let mut script: ArrayVec<u8, 400> = ArrayVec::new();
    let mut seed = 4;
    for _ in 0..LINES / 2 {
        draw_script(&mut seed, &mut line, &mut script);
        if !is_same(script.as_slice()) {
            return false;
        }
    }
    true
}

#[test]
fn lines_of_words_are_read_the_same(rt: HostRuntime) {
    assert!(rt; words_are_same());
}

#[test]
fn mutated_lines_are_read_the_same(rt: HostRuntime) {
    assert!(rt; mutated_are_same());
}

#[test]
fn drawn_bytes_are_read_the_same(rt: HostRuntime) {
    assert!(rt; bytes_are_same());
}

#[test]
fn drawn_scripts_are_read_the_same(rt: HostRuntime) {
    assert!(rt; scripts_are_same());
}
