//! Programs and their images.

use crate::tests::{assert_prints, assert_same, assert_true_at, program_of};
use il_assemble::{AsmFault, AsmFaultKind, assemble};
use il_reader::Program;
use scan_code::Image;
use std::alloc::Global;
use std::process::Abort;

/// A program, its image's version, how many tags that has, and its code.
type Assembled = (&'static str, u8, usize, &'static [u8]);

static ASSEMBLED: [Assembled; 5] = [
    (
        "PROGRAM p VAR a : INT := 7; b : INT; END_VAR\nLD a\nDIV 3\nADD a\nST b\nEND_PROGRAM",
        1,
        0,
        &[
            0x01, 0x00, 0x00, 0x0C, 0x05, 0x02, 0x00, 0x00, 0x00, 0x00, 0x00, 0x00, 0x00, 0x03,
            0x14, 0x0C, 0x01, 0x00, 0x00, 0x11, 0x06, 0x00, 0x01, 0x00,
        ],
    ),
    (
        "PROGRAM p VAR_EXTERNAL unused : INT; inv1_w, inv2_w : DINT; END_VAR VAR w : DINT; END_VAR
LD inv1_w_OK\nAND inv2_w_OK\nJMPCN skip\nLD inv1_w\nADD inv2_w\nST w\nskip:\nEND_PROGRAM",
        1,
        2,
        &[
            0x03, 0, 0, 0x0C, 0x03, 0, 1, 0x0E, 0x23, 0, 22, 0x02, 0, 0, 0x0C, 0x02, 0, 1, 0x11,
            0x06, 0, 0, 0x00,
        ],
    ),
    (
        "PROGRAM p VAR z : INT (0..100); END_VAR
LD 0\nST z\nagain: LD z\nADD 7\nMIN 100\nST z\n{LOOP 9} JMP again\nEND_PROGRAM",
        2,
        0,
        &[
            0x05, 2, 0, 0, 0, 0, 0, 0, 0, 0, 0x06, 0, 0, 0x01, 0, 0, 0x0C, 0x05, 2, 0, 0, 0, 0, 0,
            0, 0, 7, 0x11, 0x0C, 0x05, 2, 0, 0, 0, 0, 0, 0, 0, 100, 0x1C, 0x06, 0, 0, 0x26, 0x00,
            0x09, 0x00, 0x0D, 0x00,
        ],
    ),
    (
        "PROGRAM p VAR b : BOOL; x : INT; END_VAR VAR_EXTERNAL flag : BOOL; END_VAR
LDN b\nSTN b\nORN TRUE\nS flag\nR b\nRETC\nSEL 3, x\nLIMIT 4, INT#5\nABS\nINT_TO_DINT\nGT 6\nNOT\nRET\nEND_PROGRAM",
        1,
        1,
        &[
            0x01, 0, 0, 0x0D, 0x0D, 0x06, 0, 0, 0x0D, 0x0C, 0x04, 1, 0x0D, 0x0F, 0x0A, 0, 0, 0x09,
            0, 0, 0x24, 0x0C, 0x05, 2, 0, 0, 0, 0, 0, 0, 0, 3, 0x0C, 0x01, 0, 1, 0x1E, 0x0C, 0x05,
            2, 0, 0, 0, 0, 0, 0, 0, 4, 0x1D, 0x0C, 0x05, 2, 0, 0, 0, 0, 0, 0, 0, 5, 0x1C, 0x1F,
            0x20, 2, 3, 0x0C, 0x05, 3, 0, 0, 0, 0, 0, 0, 0, 6, 0x16, 0x0D, 0x00, 0x00,
        ],
    ),
    (
        "PROGRAM p VAR x : DINT; END_VAR\nLD 2\nMUL( 3\nADD 4\n)\nST x\nEND_PROGRAM",
        1,
        0,
        &[
            0x05, 3, 0, 0, 0, 0, 0, 0, 0, 2, 0x0C, 0x05, 3, 0, 0, 0, 0, 0, 0, 0, 3, 0x0C, 0x05, 3,
            0, 0, 0, 0, 0, 0, 0, 4, 0x11, 0x13, 0x06, 0, 0, 0x00,
        ],
    ),
];

fn image_of(rt: &impl Abort, alloc: Global, text: &str) -> Image {
    let tree = program_of(rt, alloc, text);
    assemble(alloc, &tree).expect(rt, "an image")
}

/// How many bytes of code a tree has, or the line and the kind of its fault.
pub(crate) fn outcome_of(alloc: Global, tree: &Program) -> Result<usize, (u32, AsmFaultKind)> {
    match assemble(alloc, tree) {
        Ok(image) => Ok(image.code.len()),
        Err(fault) => Err((fault.line, fault.kind)),
    }
}

fn is_image(image: &Image, version: u8, tags: usize, code: &[u8]) -> bool {
    image.version == version && image.tags.len() == tags && image.code.as_slice() == code
}

#[test]
fn programs_have_their_images(rt: HostRuntime) {
    for (text, version, tags, code) in &ASSEMBLED {
        let image = image_of(&rt, rt.alloc(), text);
        assert_true_at(&rt, is_image(&image, *version, *tags, code), text);
    }
}

/// A program, and the version and the size of its image.
static SIZES: [(&str, u8, usize); 2] = [
    (
        "PROGRAM p VAR a : INT := 7; b : INT; END_VAR\nLD a\nDIV 3\nADD a\nST b\nEND_PROGRAM",
        1,
        89,
    ),
    (
        "PROGRAM p VAR z : INT (0..100); END_VAR
LD 0\nST z\nagain: LD z\nADD 7\nMIN 100\nST z\n{LOOP 9} JMP again\nEND_PROGRAM",
        2,
        87,
    ),
];

/// The size of a program's image, and the version there.
fn size_of(rt: &impl Abort, alloc: Global, text: &str) -> (usize, Option<u8>) {
    let image = image_of(rt, alloc, text);
    let bytes = image.write(alloc).expect(rt, "memory");
    (bytes.len(), bytes.get(4).copied())
}

#[test]
fn images_have_their_sizes(rt: HostRuntime) {
    for (text, version, size) in &SIZES {
        let found = size_of(&rt, rt.alloc(), text);
        assert_same(&rt, &found, &(*size, Some(*version)));
    }
}

static KINDS: [AsmFaultKind; 8] = [
    AsmFaultKind::UnknownName,
    AsmFaultKind::UnknownLabel,
    AsmFaultKind::BackwardJump,
    AsmFaultKind::LoadAndStore,
    AsmFaultKind::LiteralType,
    AsmFaultKind::TooLong,
    AsmFaultKind::OutOfMemory,
    AsmFaultKind::ForwardLoop,
];

#[test]
fn words_of_faults(rt: HostRuntime) {
    for kind in &KINDS {
        assert_prints(&rt, rt.alloc(), kind, kind.word());
    }
    let fault = AsmFault {
        line: 6,
        kind: AsmFaultKind::UnknownName,
    };
    assert_prints(&rt, rt.alloc(), &fault, "UnknownName line 6");
}
