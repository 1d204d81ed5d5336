//! Which rule an input line breaks that gives nothing.
use crate::given::{equals_sign, input_place, reading_of};
use crate::input::{before_end, input_line, is_blank_line, line_length};
use il_reader::Program;
use point_types::{IlType, Name};
use scan_code::Image;
use scan_vm::Trial;

/// An input line that gives nothing to an input.
pub struct RefusedInput {
    /// Its place among the lines of the whole input, counted from 1.
    pub line: u32,
    pub fault: InputFault,
    /// What stands before its equals sign, where that is a name.
    pub name: Option<Name>,
    /// The trial of the program whose inputs were to be given.
    pub trial: Trial,
}

/// A call for whoever drops one: the proofs of the functions that own one needn't take it apart.
impl Drop for RefusedInput {
    fn drop(self) {
        let RefusedInput {
            line: _,
            fault: _,
            name: _,
            trial: _,
        } = self;
    }
}

/// The rule that an input line breaks.
#[derive(Clone, Copy, PartialEq, Eq, Debug)]
pub enum InputFault {
    /// No equals sign stands in it.
    NoEquals,
    /// A blank stands in it.
    Blank,
    /// What stands before the equals sign is no name.
    NoName,
    /// The name is that of a variable.
    Variable,
    /// The name is that of an output.
    Output,
    /// The program declares the name and doesn't load it.
    NotLoaded,
    /// The name is that of the presence of an input.
    Presence,
    /// The program has nothing of this name.
    Unknown,
    /// The value is none of this type.
    NoValue(IlType),
    /// The value is a decimal, and lies outside this type.
    OutOfType(IlType),
    /// This line of the whole input names the same input already.
    Again(u32),
}

impl RefusedInput {
    /// The input line with this number among those that aren't blank, which a trial of a program refuses.
    pub(crate) fn new(
        program: &Program,
        trial: Trial,
        inputs: &[u8],
        number: usize,
    ) -> RefusedInput {
        let line = line_of_number(inputs, number);
        RefusedInput {
            line: input_line(inputs, number).saturating_add(program.end_line),
            fault: broken_rule(program, trial.image(), inputs, line),
            name: named_on(line),
            trial,
        }
    }
}

/// The line with this number among those that aren't blank, without its end.
fn line_of_number(lines: &[u8], number: usize) -> &[u8] {
    let mut seen = 0usize;
    let mut rest = lines;
    for _ in 0..lines.len() {
        let (line, behind) = rest.split_at(line_length(rest));
        if !is_blank_line(line) {
            seen = seen.saturating_add(1);
        }
        if seen == number {
            return before_end(line);
        }
        rest = behind;
    }
    &[]
}

/// The name and the value of a line; none where no equals sign stands in it.
fn parts_of(line: &[u8]) -> Option<(&[u8], &[u8])> {
    let (name, rest) = line.split_at(equals_sign(line)?);
    Some((name, rest.get(1..).unwrap_or(&[])))
}

/// The rule that a line breaks.
fn broken_rule(program: &Program, image: &Image, inputs: &[u8], line: &[u8]) -> InputFault {
    let Some((name, value)) = parts_of(line) else {
        return InputFault::NoEquals;
    };
    if has_blank(line) {
        return InputFault::Blank;
    }
    let Some(name) = Name::from_bytes(name) else {
        return InputFault::NoName;
    };
    let tags = image.tags.as_slice();
    let Some(place) = input_place(tags, &name) else {
        return no_input(program, image, &name);
    };
    match tags.get(place) {
        Some(tag) if reading_of(tag.kind, value).is_none() => unfit_value(tag.kind, value),
        _ => InputFault::Again(first_line_of(inputs, &name).saturating_add(program.end_line)),
    }
}

fn has_blank(line: &[u8]) -> bool {
    for byte in line {
        if *byte == b' ' || *byte == b'\t' {
            return true;
        }
    }
    false
}

/// What a name is that isn't the one of an input.
fn no_input(program: &Program, image: &Image, name: &Name) -> InputFault {
    for var in image.vars.as_slice() {
        if is_same(&var.name, name) {
            return InputFault::Variable;
        }
    }
    for tag in image.tags.as_slice() {
        if is_same(&tag.name, name) {
            return InputFault::Output;
        }
    }
    for external in program.externals.as_slice() {
        if is_same(&external.name, name) {
            return InputFault::NotLoaded;
        }
    }
    if is_presence(image, name.as_str()) {
        return InputFault::Presence;
    }
    InputFault::Unknown
}

/// Whether a name is that of the presence of an input.
fn is_presence(image: &Image, name: &str) -> bool {
    let Some(input) = name.strip_suffix("_ok") else {
        return false;
    };
    for tag in image.tags.as_slice() {
        if !tag.output && tag.name.as_str() == input {
            return true;
        }
    }
    false
}

fn is_same(one: &Name, other: &Name) -> bool {
    one.as_bytes() == other.as_bytes()
}

/// Why a value isn't one of the input's type.
fn unfit_value(kind: IlType, value: &[u8]) -> InputFault {
    if kind != IlType::Bool && is_decimal(value) {
        InputFault::OutOfType(kind)
    } else {
        InputFault::NoValue(kind)
    }
}

/// Whether it is digits after at most one sign.
fn is_decimal(value: &[u8]) -> bool {
    let digits = match value {
        [b'+' | b'-', digits @ ..] => digits,
        _ => value,
    };
    for byte in digits {
        if !byte.is_ascii_digit() {
            return false;
        }
    }
    !digits.is_empty()
}

/// The first line, counted from 1, that names an input.
fn first_line_of(lines: &[u8], name: &Name) -> u32 {
    let mut place = 0u32;
    let mut rest = lines;
    for _ in 0..lines.len() {
        let (line, behind) = rest.split_at(line_length(rest));
        place = place.saturating_add(1);
        if is_named(line, name) {
            return place;
        }
        rest = behind;
    }
    place
}

fn is_named(line: &[u8], name: &Name) -> bool {
    match named_on(line) {
        Some(other) => is_same(&other, name),
        None => false,
    }
}

/// The name before the equals sign.
fn named_on(line: &[u8]) -> Option<Name> {
    let (name, _) = parts_of(line)?;
    Name::from_bytes(name)
}
