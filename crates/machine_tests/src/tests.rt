//! What the tests of the verdict share.
mod changes;
mod flows;
mod full;
mod images;
mod listings;
mod memory;
mod rows;
mod site_links;
mod values;
mod verdicts;

use crate::worked::images::variables;
use crate::worked::programs::DeclaredVariable;
use crate::worked::tags::power;
use facts::instructions::Instructions;
use point_types::{Items, Name};
use site_model::Access;
use std::alloc::Global;
use std::fmt::Debug;
use std::process::Abort;
use verifier::context::Context;
use verifier::tag_link::{TagLink, ranges};

/// `assert_eq!`, which is proved once here and not at each of its calls.
pub(crate) fn assert_same<T: PartialEq + Debug>(rt: &impl Abort, found: &T, wanted: &T) {
    assert_eq!(rt; *found, *wanted);
}

/// `assert!`, in the same way.
pub(crate) fn assert_true(rt: &impl Abort, found: bool) {
    assert!(rt; found);
}

pub(crate) fn name(rt: &impl Abort, text: &str) -> Name {
    Name::from_bytes(text.as_bytes()).expect(rt, "a name")
}

/// A context of these variables and one input, with room for one deferred value.
pub(crate) fn frame_of(rt: &impl Abort, alloc: Global, rows: &[DeclaredVariable]) -> Context {
    let variables = variables(alloc, rows, &[0, 0]).expect(rt, "variables");
    let tags = ranges(alloc, one_link(rt, alloc).as_slice()).expect(rt, "ranges");
    Context {
        variables,
        tags,
        depth: 1,
        listing: Instructions::of(alloc, Items::new(alloc)).expect(rt, "memory"),
    }
}

fn one_link(rt: &impl Abort, alloc: Global) -> Items<TagLink> {
    let mut links = Items::new(alloc);
    let site = power(name(rt, "inv1_w"), Access::Input);
    links.push(TagLink { number: 0, site }).expect(rt, "memory");
    links
}
