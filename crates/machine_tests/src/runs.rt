//! Programs as tables, and their images.

mod counted;
mod machines;
mod memory;
mod programs;
mod trials;
mod worked;

pub(crate) use crate::tests::assert_same;
use crate::worked::images::{image, image_of_code};
use crate::worked::programs::Program;
use point_types::Condition;
use scan_code::{Image, Op};
use scan_vm::Trial;
use std::alloc::Global;
use std::process::Abort;

/// The image of a program, with these start values.
fn image_of(rt: &impl Abort, alloc: Global, program: &Program, starts: &[i64]) -> Image {
    image(alloc, program.version, program, starts).expect(rt, "an image")
}

fn trial(rt: &impl Abort, alloc: Global, program: &Program, starts: &[i64]) -> Trial {
    let image = image_of(rt, alloc, program, starts);
    Trial::new(alloc, image).expect(rt, "memory")
}

/// The value of a variable, where there is one.
fn tried_value(trial: &Trial, i: usize) -> Option<i64> {
    if i < trial.image().vars.len() {
        Some(trial.var(i))
    } else {
        None
    }
}

/// What the last scan stored for a tag, where there is one.
fn tried_output(trial: &Trial, t: usize) -> Option<i64> {
    if t < trial.image().tags.len() {
        trial.output(t)
    } else {
        None
    }
}

fn write(rt: &impl Abort, code: &mut Vec<u8>, op: Op) {
    op.write(code).expect(rt, "memory");
}

/// 62 jumps back to themselves, each at most 255 times.
fn sixty_two_jumps(rt: &impl Abort, alloc: Global) -> Image {
    let mut code = Vec::new(alloc);
    for k in 0..62u8 {
        let jump = Op::Repeat(Condition::Always, k, 255, 5 * k as u16);
        write(rt, &mut code, jump);
    }
    write(rt, &mut code, Op::End);
    image_of_code(alloc, 2, code).expect(rt, "an image")
}
