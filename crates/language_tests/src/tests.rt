//! What several of these tests share.

mod assembly;
mod codes;
mod images;
mod memory;
mod nesting;
mod points;
mod programs;
mod seen;
mod spans;
mod tokens;
mod trees;

use il_reader::{Program, read};
use std::alloc::Global;
use std::fmt::{Debug, Display};
use std::process::Abort;

/// `assert_eq!`, which is proved once here and not at each of its calls.
pub(crate) fn assert_same<T: PartialEq + Debug>(rt: &impl Abort, found: &T, wanted: &T) {
    assert_eq!(rt; *found, *wanted);
}

/// `assert!`, in the same way.
pub(crate) fn assert_true(rt: &impl Abort, found: bool) {
    assert!(rt; found);
}

/// The same, where a loop has to say at which of its rows.
pub(crate) fn assert_same_at<T: PartialEq + Debug>(
    rt: &impl Abort,
    found: &T,
    wanted: &T,
    at: &impl Display,
) {
    assert_eq!(rt; *found, *wanted, "at {at}");
}

pub(crate) fn assert_true_at(rt: &impl Abort, found: bool, at: &impl Display) {
    assert!(rt; found, "at {at}");
}

/// What is shown is printed by this text.
fn assert_prints(rt: &impl Abort, alloc: Global, shown: &impl Display, text: &str) {
    let printed = format!(in alloc; "{shown}").expect(rt, "memory");
    assert_same(rt, &printed.as_str(), &text);
}

/// The program of a text.
fn program_of(rt: &impl Abort, alloc: Global, text: &str) -> Program {
    read(alloc, text).expect(rt, "a program")
}
