//! Operations, kinds and sets of objects.

use crate::plain::words::{Words, number};
use arrayvec::ArrayVec;
use asset_names::{Kind, MOST_OBJECTS, Ob, ObList, ObSet, Ops};

/// The word for all objects.
const ALL: &[u8] = b"all";

/// Returns the operations that a word writes.
pub(crate) fn ops(word: &[u8]) -> Option<Ops> {
    match word {
        b"r" => Ops::new(true, false),
        b"w" => Ops::new(false, true),
        b"rw" => Ops::new(true, true),
        b"a" => Some(Ops::with_add(false, false)),
        b"ra" => Some(Ops::with_add(true, false)),
        b"wa" => Some(Ops::with_add(false, true)),
        b"rwa" => Some(Ops::with_add(true, true)),
        _ => None,
    }
}

/// Returns the kind of dependency that a word names.
pub(crate) fn kind(word: &[u8]) -> Option<Kind> {
    match word {
        b"cd" => Some(Kind::Cd),
        b"ad" => Some(Kind::Ad),
        b"gc" => Some(Kind::Gc),
        _ => None,
    }
}

/// Returns the objects between the commas of a word, if there are at most 16.
fn objects(word: &[u8]) -> Option<ArrayVec<Ob, MOST_OBJECTS>> {
    let mut objects: ArrayVec<Ob, MOST_OBJECTS> = ArrayVec::new();
    let mut numbers = Words::new(word, b',');
    for _ in 0..=MOST_OBJECTS {
        let Some(part) = numbers.next_word() else {
            return Some(objects);
        };
        if objects.try_push(Ob(number(part)?)).is_err() {
            return None;
        }
    }
    None
}

/// Returns the set of objects that a word writes.
pub(crate) fn set(word: &[u8]) -> Option<ObSet> {
    if word == ALL {
        return Some(ObSet::All);
    }
    let objects = objects(word)?;
    match ObList::of(objects.as_slice()) {
        Ok(list) => Some(ObSet::Listed(list)),
        Err(_) => None,
    }
}
