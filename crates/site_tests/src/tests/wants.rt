//! What a site wants of its devices.

use crate::tests::assert_same;
use point_types::{IlType, Kind, Name};
use site_model::wants::{length_of, outs_of, place_of, wants_of};
use site_model::{Access, Fit, Sf, SiteTag, Want};
use std::alloc::Global;
use std::process::Abort;

/// A tag of a device's model, or of the gateway's own.
fn tag(rt: &impl Abort, name: &str, access: Access, device: Option<usize>, model: u16) -> SiteTag {
    SiteTag {
        name: Name::from_bytes(name.as_bytes()).expect(rt, "a name"),
        access,
        kind: IlType::Int,
        low: 0,
        high: 100,
        default: None,
        exponent: 0,
        bit: None,
        down: false,
        lapse: None,
        fit: Fit::Exact,
        companion: None,
        device,
        model,
        point: Kind::Uint16,
        writable: true,
        offset: 5,
        sf: Sf::None,
    }
}

static TAGS: [(&str, Access, Option<usize>, u16); 6] = [
    ("inv2_w", Access::Input, Some(1), 103),
    ("target", Access::Setting, None, 123),
    ("lim1", Access::Output, Some(0), 123),
    ("inv1_w", Access::Input, Some(0), 103),
    ("ena1", Access::Output, Some(0), 123),
    ("inv2_a", Access::Input, Some(1), 103),
];

fn tags(rt: &impl Abort, alloc: Global) -> Vec<SiteTag> {
    let mut tags = Vec::new(alloc);
    for row in &TAGS {
        let (name, access, device, model) = *row;
        let tag = tag(rt, name, access, device, model);
        tags.push(tag).expect(rt, "memory");
    }
    tags
}

fn want(device: usize, model: u16) -> Want {
    Want { device, model }
}

#[test]
fn blocks_are_wanted_by_first_use(rt: HostRuntime) {
    let tags = tags(&rt, rt.alloc());
    let wants = wants_of(rt.alloc(), &tags).expect(&rt, "memory");
    let first = [want(1, 103), want(0, 123), want(0, 103)];
    assert_same(&rt, &wants.as_slice(), &&first[..]);
    let outs = outs_of(rt.alloc(), &tags).expect(&rt, "memory");
    assert_same(&rt, &outs.as_slice(), &&[2, 4][..]);
}

#[test]
fn tags_have_places_by_their_names(rt: HostRuntime) {
    let tags = tags(&rt, rt.alloc());
    assert_same(&rt, &place_of(&tags, "ena1"), &Some(4));
    assert_same(&rt, &place_of(&tags, "ENA1"), &None);
}

#[test]
fn the_length_of_a_model_is_that_of_the_table(rt: HostRuntime) {
    let lengths = [(1, 66), (103, 50), (123, 24)];
    assert_same(&rt, &length_of(&lengths, 103), &Some(50));
    assert_same(&rt, &length_of(&lengths, 120), &None);
}
