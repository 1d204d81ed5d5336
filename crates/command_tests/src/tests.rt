//! What the tests of the commands share.
mod decimals;
mod links;
mod memory;
mod names;
mod notes;
mod pages;
mod probe;
mod replacing;
mod surveys;

use std::fmt::Debug;
use std::process::Abort;

/// `assert_eq!`, which is proved once here and not at each of its calls.
pub(crate) fn assert_same<T: PartialEq + Debug>(rt: &impl Abort, found: &T, wanted: &T) {
    assert_eq!(rt; *found, *wanted);
}

/// `assert!`, in the same way.
pub(crate) fn assert_true(rt: &impl Abort, found: bool) {
    assert!(rt; found);
}

/// What was printed.
fn printed(rt: &impl Abort, out: Vec<u8>) -> String {
    String::from_utf8(out).expect(rt, "a text")
}
