//! Calls that other calls make, made by themselves. If memory runs out once, nothing has changed and the call is made again.

use asset_names::Ob;
use asset_scripts::{Device, OpeningObjects, ScriptFault, read_all};
use asset_test_tools::{Reader, whole};
use std::alloc::Global;

/// Reads all that a reader gives.
fn read_from(alloc: Global, reader: Reader<'_>) -> Result<Vec<u8>, ScriptFault> {
    let mut input = Device::new(reader);
    read_all(alloc, &mut input)
}

/// Returns whether all bytes of a text are read.
fn is_read(alloc: Global, text: &[u8]) -> bool {
    let read_once = match read_from(alloc, whole(text)) {
        Err(ScriptFault::NoMemory) => read_from(alloc, whole(text)),
        read_once => read_once,
    };
    match read_once {
        Ok(bytes) => bytes.as_slice() == text,
        Err(_) => false,
    }
}

#[test]
fn all_bytes_are_read(rt: HostRuntime) {
    for text in [&b""[..], b"a", b"two\nlines"] {
        assert!(rt; is_read(rt.alloc(), text));
    }
}

/// Adds an object. If memory runs out once, it is added again.
fn add(opening: &mut OpeningObjects, object: (Ob, i64)) -> Option<bool> {
    match opening.add(object) {
        Ok(added) => Some(added),
        Err(_) => opening.add(object).ok(),
    }
}

/// Adds a hundred objects, each twice. Returns whether each was added the first time alone, and stands in order.
fn hundred_are_added_once(alloc: Global) -> bool {
    let mut opening = OpeningObjects::new(alloc);
    for x in 0..100u64 {
        let first = add(&mut opening, (Ob(x), 5));
        let second = add(&mut opening, (Ob(x), 6));
        if (first, second) != (Some(true), Some(false)) {
            return false;
        }
    }
    are_the_hundred(&opening.into_pairs())
}

/// Returns whether these are the objects 0 to 99, each with the value 5.
fn are_the_hundred(objects: &[(Ob, i64)]) -> bool {
    for (x, object) in (0..100u64).zip(objects) {
        if *object != (Ob(x), 5) {
            return false;
        }
    }
    objects.len() == 100
}

#[test]
fn objects_are_added_once(rt: HostRuntime) {
    assert!(rt; hundred_are_added_once(rt.alloc()));
}
