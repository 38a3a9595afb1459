//! Plain steps, and how tests ask for them.
use asset_handle::{Code, Handle, PlainAnswer, PlainObject, PlainStep, SLOTS};
use std::alloc::Global;
use std::fmt::Debug;
use std::process::Abort;

/// An answer that no call gives.
pub(crate) const UNTOUCHED: PlainAnswer = PlainAnswer {
    kind: 77,
    name: 77,
    value: 77,
};

/// Two objects with their opening values.
pub(crate) const TWO: [PlainObject; 2] = [
    PlainObject {
        name: 1,
        value: 100,
    },
    PlainObject {
        name: 2,
        value: 200,
    },
];

/// Returns a plain step without a value or a set.
pub(crate) fn plain(kind: u32, detail: u32, first: u64, second: u64) -> PlainStep {
    PlainStep {
        kind,
        detail,
        first,
        second,
        value: 0,
        count: 0,
        objects: [0; SLOTS],
    }
}

/// Returns a plain step that writes.
pub(crate) fn write(t: u64, x: u64, value: i64) -> PlainStep {
    PlainStep {
        value,
        ..plain(4, 0, t, x)
    }
}

/// Returns a plain step that adds.
pub(crate) fn add(t: u64, x: u64, value: i64) -> PlainStep {
    PlainStep {
        value,
        ..plain(12, 0, t, x)
    }
}

/// Returns the plain step with a list of one object.
pub(crate) fn on_object(step: PlainStep, x: u64) -> PlainStep {
    let mut objects = [0; SLOTS];
    objects[0] = x;
    PlainStep {
        count: 1,
        objects,
        ..step
    }
}

/// Asserts that what came is what is wanted. An assert in a long function would be proved again with each step before it.
pub(crate) fn same<T: Copy + Debug + PartialEq>(rt: &impl Abort, came: T, wanted: T) {
    assert_eq!(rt; came, wanted);
}

/// Asks for a step.
pub(crate) fn ask(alloc: Global, handle: &mut Handle, step: &PlainStep) -> (Code, PlainAnswer) {
    let mut answer = UNTOUCHED;
    let code = handle.step(alloc, step, &mut answer);
    (code, answer)
}

/// Opens a handle over two objects, with room for 100 entries.
pub(crate) fn opened(rt: &(impl Abort + AllocGlobal)) -> Handle {
    let mut handle = Handle::closed(rt.alloc());
    let mut double = 77;
    let code = handle.open(rt.alloc(), &TWO, 100, &mut double);
    same(rt, (code, double), (Code::Done, 77));
    handle
}

/// Asserts that a step gets an answer of this kind with this name and value.
pub(crate) fn expect(
    rt: &(impl Abort + AllocGlobal),
    handle: &mut Handle,
    step: &PlainStep,
    answer: (u32, u64, i64),
) {
    let (code, told) = ask(rt.alloc(), handle, step);
    same(rt, code, Code::Done);
    same(rt, (told.kind, told.name, told.value), answer);
}

/// Asserts that a step gets this code, and no answer.
pub(crate) fn expect_code(
    rt: &(impl Abort + AllocGlobal),
    handle: &mut Handle,
    step: &PlainStep,
    code: Code,
) {
    same(rt, ask(rt.alloc(), handle, step), (code, UNTOUCHED));
}

/// Initiates and begins transactions.
pub(crate) fn begin(rt: &(impl Abort + AllocGlobal), handle: &mut Handle, names: &[u64]) {
    for t in names {
        expect(rt, handle, &plain(1, 0, *t, 0), (1, 0, 0));
        expect(rt, handle, &plain(2, 0, *t, 0), (1, 0, 0));
    }
}

/// Asserts how many entries the history has, and closes the handle.
pub(crate) fn expect_closed(rt: &(impl Abort + AllocGlobal), handle: &mut Handle, entries: usize) {
    let mut len = 77;
    same(rt, handle.len(rt.alloc(), &mut len), Code::Done);
    same(rt, len, entries);
    same(rt, handle.close(rt.alloc()), Code::Done);
    same(rt, handle.close(rt.alloc()), Code::Closed);
}
