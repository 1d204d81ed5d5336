//! Images and their bytes.

use crate::tests::{assert_prints, assert_same, assert_true};
use point_types::{IlType, Items, Name, Var};
use scan_code::{Image, ImageFault, Tag};
use std::alloc::Global;
use std::process::Abort;

/// The image of `LD a / DIV 3 / ADD a / ST b` with `a : INT := 7` and `b : INT`, put together by hand.
pub(crate) static DIVIDED: [u8; 89] = [
    b'I', b'L', b'S', b'C', 0x01, 0x00, 0x02, 0x00, 0x00, 0x00, 0x18, 0x01, b'a', 0x02, 0xFF, 0xFF,
    0xFF, 0xFF, 0xFF, 0xFF, 0x80, 0x00, 0x00, 0x00, 0x00, 0x00, 0x00, 0x00, 0x7F, 0xFF, 0x00, 0x00,
    0x00, 0x00, 0x00, 0x00, 0x00, 0x07, 0x01, b'b', 0x02, 0xFF, 0xFF, 0xFF, 0xFF, 0xFF, 0xFF, 0x80,
    0x00, 0x00, 0x00, 0x00, 0x00, 0x00, 0x00, 0x7F, 0xFF, 0x00, 0x00, 0x00, 0x00, 0x00, 0x00, 0x00,
    0x00, 0x01, 0x00, 0x00, 0x0C, 0x05, 0x02, 0x00, 0x00, 0x00, 0x00, 0x00, 0x00, 0x00, 0x03, 0x14,
    0x0C, 0x01, 0x00, 0x00, 0x11, 0x06, 0x00, 0x01, 0x00,
];

/// Its code.
pub(crate) static CODE: [u8; 24] = [
    0x01, 0x00, 0x00, 0x0C, 0x05, 0x02, 0x00, 0x00, 0x00, 0x00, 0x00, 0x00, 0x00, 0x03, 0x14, 0x0C,
    0x01, 0x00, 0x00, 0x11, 0x06, 0x00, 0x01, 0x00,
];

/// The image of `LD 0 / ST z / again: LD z / ADD 7 / MIN 100 / ST z / {LOOP 9} JMP again` with
/// `z : INT (0..100)`.
static COUNTED: [u8; 87] = [
    b'I', b'L', b'S', b'C', 0x02, 0x00, 0x01, 0x00, 0x00, 0x00, 0x31, 0x01, b'z', 0x02, 0x00, 0x00,
    0x00, 0x00, 0x00, 0x00, 0x00, 0x00, 0x00, 0x00, 0x00, 0x00, 0x00, 0x00, 0x00, 0x64, 0x00, 0x00,
    0x00, 0x00, 0x00, 0x00, 0x00, 0x00, 0x05, 0x02, 0x00, 0x00, 0x00, 0x00, 0x00, 0x00, 0x00, 0x00,
    0x06, 0x00, 0x00, 0x01, 0x00, 0x00, 0x0C, 0x05, 0x02, 0x00, 0x00, 0x00, 0x00, 0x00, 0x00, 0x00,
    0x07, 0x11, 0x0C, 0x05, 0x02, 0x00, 0x00, 0x00, 0x00, 0x00, 0x00, 0x00, 0x64, 0x1C, 0x06, 0x00,
    0x00, 0x26, 0x00, 0x09, 0x00, 0x0D, 0x00,
];

/// The image of nothing but an input `p : DINT` and an output `q : BOOL`.
static TAGGED: [u8; 20] = [
    b'I', b'L', b'S', b'C', 0x02, 0x00, 0x00, 0x00, 0x02, 0x00, 0x01, 0x01, b'p', 0x00, 0x03, 0x01,
    b'q', 0x01, 0x00, 0x00,
];

fn name(rt: &impl Abort, text: &[u8]) -> Name {
    Name::from_bytes(text).expect(rt, "a name")
}

/// An INT variable with the type's range.
fn int(rt: &impl Abort, text: &[u8], start: i16) -> Var {
    Var {
        name: name(rt, text),
        kind: IlType::Int,
        low: -32768,
        high: 32767,
        start: i64::from(start),
    }
}

/// A list of two.
fn both<T: Drop>(rt: &impl Abort, alloc: Global, first: T, second: T) -> Items<T> {
    let mut items = Items::new(alloc);
    items.push(first).expect(rt, "memory");
    items.push(second).expect(rt, "memory");
    items
}

fn image_of(rt: &impl Abort, alloc: Global, bytes: &[u8]) -> Image {
    Image::read(alloc, bytes).expect(rt, "an image")
}

/// Whether these are the bytes that the image is written by.
fn is_written_by(rt: &impl Abort, alloc: Global, image: &Image, bytes: &[u8]) -> bool {
    image.write(alloc).expect(rt, "memory").as_slice() == bytes
}

/// The image that is put together by hand, made of its parts.
fn divided(rt: &impl Abort, alloc: Global) -> Image {
    let vars = both(rt, alloc, int(rt, b"a", 7), int(rt, b"b", 0));
    let code = Vec::from_slice(alloc, CODE.as_slice()).expect(rt, "memory");
    Image::new(1, vars, Items::new(alloc), Items::from_vec(code)).expect(rt, "an image")
}

#[test]
fn an_image_of_89_bytes(rt: HostRuntime) {
    let image = divided(&rt, rt.alloc());
    assert_true(&rt, is_written_by(&rt, rt.alloc(), &image, &DIVIDED));
    let again = image_of(&rt, rt.alloc(), &DIVIDED);
    assert_true(&rt, are_equal(&image, &again));
}

pub(crate) fn are_equal(image: &Image, other: &Image) -> bool {
    image.version == other.version
        && image.vars.as_slice() == other.vars.as_slice()
        && image.tags.as_slice() == other.tags.as_slice()
        && image.code.as_slice() == other.code.as_slice()
}

#[test]
fn an_image_of_87_bytes_with_a_counted_jump(rt: HostRuntime) {
    let image = image_of(&rt, rt.alloc(), &COUNTED);
    assert_true(&rt, image.version == 2 && image.code.len() == 49);
    assert_true(&rt, is_written_by(&rt, rt.alloc(), &image, &COUNTED));
}

/// Whether an image has two tags, an input `p : DINT` and an output `q : BOOL`.
fn is_tagged(rt: &impl Abort, image: &Image) -> bool {
    let input = Tag {
        name: name(rt, b"p"),
        output: false,
        kind: IlType::Dint,
    };
    let output = Tag {
        name: name(rt, b"q"),
        output: true,
        kind: IlType::Bool,
    };
    image.version == 2 && image.tags.as_slice() == [input, output].as_slice()
}

#[test]
fn tags_with_their_directions(rt: HostRuntime) {
    let image = image_of(&rt, rt.alloc(), &TAGGED);
    assert_true(&rt, is_tagged(&rt, &image));
    assert_true(&rt, is_written_by(&rt, rt.alloc(), &image, &TAGGED));
}

/// How reading these bytes ends.
fn fault_of(alloc: Global, bytes: &[u8]) -> Option<ImageFault> {
    Image::read(alloc, bytes).err()
}

/// How reading these bytes ends, one of them changed.
fn changed(
    rt: &impl Abort,
    alloc: Global,
    bytes: &[u8],
    at: usize,
    byte: u8,
) -> Option<ImageFault> {
    let mut changed = Vec::from_slice(alloc, bytes).expect(rt, "memory");
    if let Some(old) = changed.get_mut(at) {
        *old = byte;
    }
    fault_of(alloc, &changed)
}

#[test]
fn prefixes_are_cut(rt: HostRuntime) {
    for length in 0..DIVIDED.len() {
        let fault = fault_of(rt.alloc(), &DIVIDED[..length]);
        assert_same(&rt, &fault, &Some(ImageFault::Cut));
    }
    let mut longer = Vec::from_slice(rt.alloc(), &DIVIDED).expect(&rt, "memory");
    longer.push(0x00).expect(&rt, "memory");
    assert_same(&rt, &fault_of(rt.alloc(), &longer), &Some(ImageFault::Rest));
}

/// The fault of the image with this byte 0xFF, where it is known.
fn damage(at: usize) -> Option<Option<ImageFault>> {
    match at {
        0..=3 => Some(Some(ImageFault::Mark)),
        4 => Some(Some(ImageFault::Version)),
        5 | 7 => Some(Some(ImageFault::Field)),
        // the code isn't looked at
        65.. => Some(None),
        _ => None,
    }
}

#[test]
fn damaged_bytes(rt: HostRuntime) {
    for at in 0..89 {
        let found = changed(&rt, rt.alloc(), &DIVIDED, at, 0xFF);
        if let Some(wanted) = damage(at) {
            assert_same(&rt, &found, &wanted);
        }
    }
}

/// The version of the counted jump's image.
static VERSIONS: [(u8, Option<ImageFault>); 4] = [
    (0, Some(ImageFault::Version)),
    (1, None),
    (2, None),
    (3, Some(ImageFault::Version)),
];

/// A name of no length, one in upper case, one that comes twice, a type over 7, a range below its type, a start
/// below its range.
static FIELDS: [(usize, u8); 6] = [
    (11, 0),
    (12, b'A'),
    (39, b'a'),
    (13, 8),
    (13, 1),
    (30, 0xFF),
];

/// A direction of 2, and the same name twice.
static TAG_FIELDS: [(usize, u8); 2] = [(13, 0x02), (16, b'p')];

#[test]
fn fields_at_fault(rt: HostRuntime) {
    for (version, wanted) in &VERSIONS {
        let fault = changed(&rt, rt.alloc(), &COUNTED, 4, *version);
        assert_same(&rt, &fault, wanted);
    }
    for (at, byte) in &FIELDS {
        let fault = changed(&rt, rt.alloc(), &DIVIDED, *at, *byte);
        assert_same(&rt, &fault, &Some(ImageFault::Field));
    }
    for (at, byte) in &TAG_FIELDS {
        let fault = changed(&rt, rt.alloc(), &TAGGED, *at, *byte);
        assert_same(&rt, &fault, &Some(ImageFault::Field));
    }
}

/// The image of nothing but a variable `f : BOOL`.
static FLAGGED: [u8; 39] = [
    b'I', b'L', b'S', b'C', 0x01, 0x00, 0x01, 0x00, 0x00, 0x00, 0x01, 0x01, b'f', 0x00, 0x00, 0x00,
    0x00, 0x00, 0x00, 0x00, 0x00, 0x00, 0x00, 0x00, 0x00, 0x00, 0x00, 0x00, 0x00, 0x01, 0x00, 0x00,
    0x00, 0x00, 0x00, 0x00, 0x00, 0x00, 0x00,
];

/// A start of 1; a range from 1 on, one up to 0, one up to 2, a start of 2.
static FLAGS: [(usize, u8, Option<ImageFault>); 5] = [
    (37, 0x01, None),
    (21, 0x01, Some(ImageFault::Field)),
    (29, 0x00, Some(ImageFault::Field)),
    (29, 0x02, Some(ImageFault::Field)),
    (37, 0x02, Some(ImageFault::Field)),
];

#[test]
fn a_bool_has_the_range_of_its_type(rt: HostRuntime) {
    for (at, byte, wanted) in &FLAGS {
        let fault = changed(&rt, rt.alloc(), &FLAGGED, *at, *byte);
        assert_same(&rt, &fault, wanted);
    }
    let mut from_one = FLAGGED;
    from_one[21] = 0x01;
    let fault = fault_of(rt.alloc(), &from_one[..22]);
    assert_same(&rt, &fault, &Some(ImageFault::Field));
}

/// Whether there is an image of one variable.
fn is_image_of(rt: &impl Abort, alloc: Global, var: Var) -> bool {
    let mut vars = Items::new(alloc);
    vars.push(var).expect(rt, "memory");
    Image::new(1, vars, Items::new(alloc), Items::new(alloc)).is_some()
}

#[test]
fn an_image_has_no_bool_with_a_subrange(rt: HostRuntime) {
    let flag = Var {
        name: name(&rt, b"f"),
        kind: IlType::Bool,
        low: 0,
        high: 1,
        start: 1,
    };
    let always_false = Var {
        name: name(&rt, b"f"),
        kind: IlType::Bool,
        low: 0,
        high: 0,
        start: 0,
    };
    let always_true = Var {
        name: name(&rt, b"f"),
        kind: IlType::Bool,
        low: 1,
        high: 1,
        start: 1,
    };
    assert_true(&rt, is_image_of(&rt, rt.alloc(), flag));
    assert_true(&rt, !is_image_of(&rt, rt.alloc(), always_false));
    assert_true(&rt, !is_image_of(&rt, rt.alloc(), always_true));
}

/// A fault comes before the end of the bytes, a part that is cut before its fault.
static FIRST_FAULTS: [(&[u8], ImageFault); 5] = [
    (b"ILSD", ImageFault::Mark),
    (b"ILS", ImageFault::Cut),
    (b"ILSC\x03", ImageFault::Version),
    (b"ILSC\x01\x04\x01", ImageFault::Field),
    (b"ILSC\x01\x04", ImageFault::Cut),
];

#[test]
fn the_first_fault_is_told(rt: HostRuntime) {
    for (bytes, fault) in &FIRST_FAULTS {
        assert_same(&rt, &fault_of(rt.alloc(), bytes), &Some(*fault));
    }
}

/// Whether there is an image of this version with so many code bytes alone.
fn is_image(rt: &impl Abort, alloc: Global, version: u8, size: usize) -> bool {
    let mut code = Items::new(alloc);
    for _ in 0..size {
        code.push(0x00).expect(rt, "memory");
    }
    Image::new(version, Items::new(alloc), Items::new(alloc), code).is_some()
}

#[test]
fn parts_that_are_no_image(rt: HostRuntime) {
    let alloc = rt.alloc();
    let twice = both(&rt, alloc, int(&rt, b"a", 0), int(&rt, b"a", 0));
    let none = Image::new(1, twice, Items::new(alloc), Items::new(alloc));
    assert_true(&rt, none.is_none());
    assert_true(&rt, !is_image(&rt, alloc, 3, 0));
    assert_true(&rt, is_image(&rt, alloc, 2, 65535));
    assert_true(&rt, !is_image(&rt, alloc, 2, 65536));
}

static FAULTS: [ImageFault; 6] = [
    ImageFault::Mark,
    ImageFault::Version,
    ImageFault::Cut,
    ImageFault::Rest,
    ImageFault::Field,
    ImageFault::OutOfMemory,
];

#[test]
fn words_of_faults(rt: HostRuntime) {
    for fault in &FAULTS {
        assert_prints(&rt, rt.alloc(), fault, fault.word());
    }
}
