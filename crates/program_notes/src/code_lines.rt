//! Which line of a program's text an instruction is of, and which name it has.
ghost use Rattle.std.specs.Prelude.{◌≡◌, ◌⊎◌, Some, slice_get};
ghost use Rattle.il_assemble.specs.LineTable.{instruction_lines};

use il_assemble::instruction_lines;
use il_reader::Program;
use point_types::Name;
use scan_code::{Image, Op, decode};
use std::alloc::Global;

/// The line of the statement whose code an instruction is in; 0 where there is none, or where memory was refused.
pub fn instruction_line(alloc: Global, program: &Program, number: usize) -> u32
    ensures { (result ≡ 0) ⊎ (slice_get (instruction_lines program.now) number ≡ Some result) }
{
    match instruction_lines(alloc, program) {
        Ok(lines) => line_at(lines.as_slice(), number),
        Err(_) => 0,
    }
}

fn line_at(lines: &[u32], number: usize) -> u32
    ensures { (result ≡ 0) ⊎ (slice_get lines.now number ≡ Some result) }
{
    match lines.get(number) {
        Some(line) => *line,
        None => 0,
    }
}

/// The last line inside the parentheses at whose end an instruction acts, though its operator stands before them; None
/// for an instruction that closes none, or where memory was refused.
pub fn line_inside(alloc: Global, program: &Program, number: usize) -> Option<u32> {
    let lines = instruction_lines(alloc, program).ok()?;
    let opening = *lines.as_slice().get(number)?;
    let last = latest(lines.as_slice().get(..number)?, opening);
    if last > opening { Some(last) } else { None }
}

/// The last of these lines and of another one.
fn latest(lines: &[u32], line: u32) -> u32 {
    let mut last = line;
    for line in lines {
        if *line > last {
            last = *line;
        }
    }
    last
}

/// The line on which a tag of the image is declared; 0 where there is none.
pub fn declared_line(program: &Program, name: &Name) -> u32 {
    for external in program.externals.as_slice() {
        if external.name.as_bytes() == name.as_bytes() {
            return external.line;
        }
    }
    0
}

/// The address of an instruction by its number.
pub fn address_of(code: &[u8], number: usize) -> Option<usize> {
    let mut address = 0;
    for _ in 0..number {
        address = decode(code, address)?.1;
    }
    Some(address)
}

/// The number of the instruction at an address.
pub fn number_at(code: &[u8], address: usize) -> Option<usize> {
    let mut next = 0;
    for number in 0..code.len() {
        if next == address {
            return Some(number);
        }
        next = decode(code, next)?.1;
    }
    None
}

/// The name of the variable or the tag that an instruction loads or stores.
pub fn name_in(image: &Image, op: Op) -> Option<Name> {
    match op {
        Op::LoadVariable(place)
        | Op::StoreVariable(place)
        | Op::SetVariable(place)
        | Op::ResetVariable(place) => variable_name(image, place as usize),
        Op::LoadInput(place)
        | Op::LoadPresence(place)
        | Op::StoreOutput(place)
        | Op::SetOutput(place)
        | Op::ResetOutput(place) => tag_name(image, place as usize),
        Op::End
        | Op::LoadBool(_)
        | Op::LoadNumber(_, _)
        | Op::Push
        | Op::Not
        | Op::Apply(_)
        | Op::Select
        | Op::Absolute
        | Op::Convert(_, _)
        | Op::Jump(_, _)
        | Op::Return(_)
        | Op::Repeat(_, _, _, _) => None,
    }
}

fn variable_name(image: &Image, place: usize) -> Option<Name> {
    let var = image.vars.as_slice().get(place)?;
    Some(var.name)
}

/// The name of a tag of the image.
pub fn tag_name(image: &Image, place: usize) -> Option<Name> {
    let tag = image.tags.as_slice().get(place)?;
    Some(tag.name)
}
