//! Where memory is refused, a call says so and nothing else. Each test holds whichever of its allocations is refused: it
//! ends where it gets no memory for what it begins with.

use crate::tests::images::{CODE, DIVIDED};
use crate::tests::programs::LIMITER;
use crate::tests::{assert_same, assert_true};
use il_assemble::{AsmFaultKind, assemble};
use il_reader::{Program, ReadFaultKind, read};
use scan_code::{Image, ImageFault};
use std::alloc::Global;
use std::process::Abort;

/// The program has its variable, its five externals, its lines and its end.
fn assert_limiter(rt: &impl Abort, program: &Program) {
    let names = (program.variables.len(), program.externals.len());
    assert_same(rt, &names, &(1, 5));
    assert_same(rt, &(program.statements.len(), program.end_line), &(12, 23));
}

#[test]
fn a_program_reads(rt: HostRuntime) {
    match read(rt.alloc(), LIMITER) {
        Ok(program) => assert_limiter(&rt, &program),
        Err(fault) => assert_same(&rt, &fault.kind, &ReadFaultKind::OutOfMemory),
    }
}

const DIVIDING: &str =
    "PROGRAM p VAR a : INT := 7; b : INT; END_VAR\nLD a\nDIV 3\nADD a\nST b\nEND_PROGRAM";

#[test]
fn a_program_is_assembled(rt: HostRuntime) {
    let Ok(program) = read(rt.alloc(), DIVIDING) else {
        return;
    };
    match assemble(rt.alloc(), &program) {
        Ok(image) => assert_true(&rt, image.code.as_slice() == CODE.as_slice()),
        Err(fault) => assert_same(&rt, &fault.kind, &AsmFaultKind::OutOfMemory),
    }
}

/// Where memory is there, an image is written by the bytes that it was read from.
fn assert_written(rt: &impl Abort, alloc: Global, image: &Image) {
    if let Ok(bytes) = image.write(alloc) {
        assert_true(rt, bytes.as_slice() == DIVIDED.as_slice());
    }
}

#[test]
fn an_image_reads_and_is_written(rt: HostRuntime) {
    match Image::read(rt.alloc(), DIVIDED.as_slice()) {
        Ok(image) => assert_written(&rt, rt.alloc(), &image),
        Err(fault) => assert_same(&rt, &fault, &ImageFault::OutOfMemory),
    }
}
