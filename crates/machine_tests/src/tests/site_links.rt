//! The tags of an image among those of a site.

use crate::tests::{assert_same, name};
use crate::worked::images::tags;
use crate::worked::programs::DeclaredTag;
use crate::worked::tags::power;
use point_types::{IlType, Items};
use scan_code::Tag;
use site_model::{Access, SiteTag};
use std::alloc::Global;
use std::process::Abort;
use verifier::tag_link::{TagLink, links};

/// The tags of the site, each a DINT.
static SITE_TAGS: [(&str, Access); 4] = [
    ("inv1_w", Access::Input),
    ("lim1", Access::Output),
    ("target", Access::Setting),
    ("shown", Access::Shown),
];

fn site_tags(rt: &impl Abort, alloc: Global) -> Vec<SiteTag> {
    let mut site = Vec::new(alloc);
    for row in &SITE_TAGS {
        let tag = power(name(rt, row.0), row.1);
        site.push(tag).expect(rt, "memory");
    }
    site
}

fn image_tags(rt: &impl Abort, alloc: Global, rows: &[DeclaredTag]) -> Items<Tag> {
    tags(alloc, rows).expect(rt, "tags")
}

const LINKED: &[DeclaredTag] = &[
    ("shown", true, IlType::Dint),
    ("inv1_w", false, IlType::Dint),
    ("target", false, IlType::Dint),
    ("lim1", true, IlType::Dint),
];

/// Their numbers in the site.
static NUMBERS: [usize; 4] = [3, 0, 2, 1];

fn assert_numbers(rt: &impl Abort, found: &[TagLink]) {
    assert_same(rt, &found.len(), &4);
    for (link, number) in found.iter().zip(&NUMBERS) {
        assert_same(rt, &link.number, number);
    }
}

#[test]
fn finds_the_tags_of_a_site(rt: HostRuntime) {
    let site = site_tags(&rt, rt.alloc());
    let tags = image_tags(&rt, rt.alloc(), LINKED);
    let found = links(rt.alloc(), &site, tags.as_slice()).expect(&rt, "links");
    assert_numbers(&rt, found.as_slice());
}
