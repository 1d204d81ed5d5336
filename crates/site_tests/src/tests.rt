//! What the tests of sites share.
mod files;
mod memory;
mod parts;
mod raws;
mod readings;
mod wants;

use model_defs::{ModelDef, read, shipped};
use site_model::Site;
use std::alloc::Global;
use std::fmt::{Debug, Display};
use std::process::Abort;

/// `assert_eq!`, which is proved once here and not at each of its calls.
pub(crate) fn assert_same<T: PartialEq + Debug>(rt: &impl Abort, found: &T, wanted: &T) {
    assert_eq!(rt; *found, *wanted);
}

/// `assert!`, in the same way.
pub(crate) fn assert_true(rt: &impl Abort, found: bool) {
    assert!(rt; found);
}

/// The same, where a loop has to say at which of its rows.
pub(crate) fn assert_same_at<T: PartialEq + Debug>(
    rt: &impl Abort,
    found: &T,
    wanted: &T,
    at: &impl Display,
) {
    assert_eq!(rt; *found, *wanted, "at {at}");
}

pub(crate) fn assert_true_at(rt: &impl Abort, found: bool, at: &impl Display) {
    assert!(rt; found, "at {at}");
}

/// The shipped definitions of models 1, 103 and 123.
pub(crate) fn definitions(rt: &impl Abort, alloc: Global) -> Vec<ModelDef> {
    given_definitions(alloc).expect(rt, "definitions")
}

/// The same; None where no memory is left.
pub(crate) fn given_definitions(alloc: Global) -> Option<Vec<ModelDef>> {
    let mut defs = Vec::new(alloc);
    for id in [1, 103, 123] {
        let def = read(alloc, shipped(id)?.as_bytes()).ok()?;
        defs.push(def).ok()?;
    }
    Some(defs)
}

/// A text with its first `old` replaced.
pub(crate) fn edited(rt: &impl Abort, alloc: Global, text: &str, old: &str, new: &str) -> String {
    let (before, after) = text.split_once(old).expect(rt, "what is replaced");
    format!(in alloc; "{before}{new}{after}").expect(rt, "memory")
}

pub(crate) fn site_of(rt: &impl Abort, alloc: Global, defs: &[ModelDef], text: &str) -> Site {
    Site::read(alloc, text, defs).expect(rt, "a site")
}
