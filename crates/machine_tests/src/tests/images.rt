//! Verdicts on images that are read from bytes, and on as many deferred values as there can be.

use crate::tests::verdicts::{Verdict, assert_verdict, image_of, site};
use crate::tests::{assert_same, assert_true};
use crate::worked::images::{image, image_of_code};
use crate::worked::programs::{DIVIDED, NINE_TURNS, Program};
use scan_code::{Image, ImageFault};
use site_model::Site;
use std::alloc::Global;
use std::process::Abort;
use verifier::refusal::RefusalKind;
use verifier::verify::verify;

fn bytes_of(rt: &impl Abort, alloc: Global, program: &Program) -> Vec<u8> {
    let image = image_of(rt, alloc, program);
    image.write(alloc).expect(rt, "memory")
}

/// The image of nine turns, read from its 87 bytes, of which the fifth is the version.
fn counted(rt: &impl Abort, alloc: Global, version: u8) -> Image {
    let mut bytes = bytes_of(rt, alloc, &NINE_TURNS);
    assert_same(rt, &bytes.len(), &87);
    if let Some(byte) = bytes.get_mut(4) {
        *byte = version;
    }
    Image::read(alloc, bytes.as_slice()).expect(rt, "an image")
}

static VERSIONS: [(u8, Verdict); 2] = [(2, Ok(120)), (1, Err((RefusalKind::Code, 10)))];

fn judge_counted(rt: &impl Abort, alloc: Global, site: &Site) {
    for (version, wanted) in &VERSIONS {
        assert_verdict::<32>(rt, alloc, counted(rt, alloc, *version), site, wanted);
    }
}

#[test]
fn counted_jumps_want_version_two(rt: HostRuntime) {
    judge_counted(&rt, rt.alloc(), &site(&rt, rt.alloc()));
}

/// LDB TRUE / PUSH, so many times.
fn pushed(rt: &impl Abort, alloc: Global, count: usize) -> Image {
    let mut code = Vec::new(alloc);
    for _ in 0..count {
        code.extend_from_slice(&[4, 1, 0x0C]).expect(rt, "memory");
    }
    code.push(0).expect(rt, "memory");
    image_of_code(alloc, 1, code).expect(rt, "an image")
}

static COUNTS: [(usize, Verdict); 2] = [(128, Ok(257)), (129, Err((RefusalKind::Stack, 257)))];

fn judge_pushed(rt: &impl Abort, alloc: Global, site: &Site) {
    for (count, wanted) in &COUNTS {
        assert_verdict::<200>(rt, alloc, pushed(rt, alloc, *count), site, wanted);
    }
}

#[test]
fn defers_no_more_than_128_values(rt: HostRuntime) {
    judge_pushed(&rt, rt.alloc(), &site(&rt, rt.alloc()));
}

/// The 89 bytes of the worked image.
fn worked_bytes(rt: &impl Abort, alloc: Global) -> Vec<u8> {
    let image = image(alloc, 1, &DIVIDED, &[7, 0]).expect(rt, "an image");
    image.write(alloc).expect(rt, "memory")
}

/// An image is accepted, or refused for what it says.
fn assert_answered(rt: &impl Abort, alloc: Global, image: Image, site: &Site) {
    if let Err(refused) = verify::<32>(alloc, image, site) {
        assert_true(rt, refused.kind != RefusalKind::OutOfMemory);
    }
}

/// Bytes are no image for what they say, or that image is answered.
fn assert_read(rt: &impl Abort, alloc: Global, bytes: &[u8], site: &Site) {
    match Image::read(alloc, bytes) {
        Ok(image) => assert_answered(rt, alloc, image, site),
        Err(fault) => assert_true(rt, fault != ImageFault::OutOfMemory),
    }
}

/// The same with this byte 0xFF.
fn judge_damaged(rt: &impl Abort, alloc: Global, at: usize, site: &Site) {
    let mut bytes = worked_bytes(rt, alloc);
    assert_same(rt, &bytes.len(), &89);
    if let Some(byte) = bytes.get_mut(at) {
        *byte = 0xFF;
    }
    assert_read(rt, alloc, bytes.as_slice(), site);
}

#[test]
fn judges_the_image_with_each_byte_damaged(rt: HostRuntime) {
    let site = site(&rt, rt.alloc());
    for at in 0..89 {
        judge_damaged(&rt, rt.alloc(), at, &site);
    }
}
