//! Asserts in functions of their own: one in a long function is proved again with all that comes before it.
use std::fmt::Debug;
use std::process::Abort;

/// Asserts that what came is what is wanted.
pub(crate) fn same<T: Copy + Debug + PartialEq>(rt: &impl Abort, came: T, wanted: T) {
    assert_eq!(rt; came, wanted);
}

/// Asserts that this holds.
pub(crate) fn holds(rt: &impl Abort, this: bool) {
    assert!(rt; this);
}
