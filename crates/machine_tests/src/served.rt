//! What the tests of the gateway share.
mod links;
mod memory;

use std::fmt::Debug;
use std::process::Abort;

/// `assert_eq!`, which is proved once here and not at each of its calls.
pub(crate) fn assert_same<T: PartialEq + Debug>(rt: &impl Abort, found: &T, wanted: &T) {
    assert_eq!(rt; *found, *wanted);
}
