//! Where memory is refused, the verdict says so and nothing else, and the image comes back as it was. The test holds
//! whichever of its allocations is refused: it ends where it gets no memory for what it begins with.

use crate::tests::{assert_same, assert_true};
use crate::worked::images::image;
use crate::worked::programs::SUM;
use crate::worked::sites::{SITE, site_of};
use scan_code::Image;
use site_model::Site;
use std::alloc::Global;
use std::process::Abort;
use verifier::refusal::{RefusalKind, RefusedAt};
use verifier::refused::Refused;
use verifier::verify::verify;

/// No memory was left, and the image is that of these bytes still.
fn assert_unchanged(rt: &impl Abort, alloc: Global, refused: &Refused, bytes: &[u8]) {
    assert_true(rt, refused.kind == RefusalKind::OutOfMemory);
    assert_same(rt, &refused.at, &RefusedAt::Program);
    if let Ok(again) = refused.image.write(alloc) {
        assert_true(rt, again.as_slice() == bytes);
    }
}

fn assert_judged(rt: &impl Abort, alloc: Global, image: Image, site: &Site, bytes: &[u8]) {
    match verify::<32>(alloc, image, site) {
        Ok(verified) => assert_same(rt, &verified.budget(), &11),
        Err(refused) => assert_unchanged(rt, alloc, &refused, bytes),
    }
}

/// An image with its bytes.
fn spelled(alloc: Global) -> Option<(Image, Vec<u8>)> {
    let image = image(alloc, 2, &SUM, &[])?;
    let bytes = image.write(alloc).ok()?;
    Some((image, bytes))
}

#[test]
fn a_program_is_judged(rt: HostRuntime) {
    let Some(site) = site_of(rt.alloc(), SITE) else {
        return;
    };
    if let Some((image, bytes)) = spelled(rt.alloc()) {
        assert_judged(&rt, rt.alloc(), image, &site, &bytes);
    }
}
