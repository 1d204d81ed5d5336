//! What is noted of a trial that stopped: the line, and the values that met there.
use crate::refusal_note::RefusalNote;
use il_reader::Program;
use point_types::{IlType, Operator};
use program_notes::{instruction_line, name_in, number_at, type_word};
use scan_code::{Image, Op, decode};
use scan_vm::{Trap, TrapKind, Trial};
use std::alloc::{AllocError, Global};

/// A value with its type.
type Typed = (IlType, i64);

/// The cause of a trap. Where memory for a part of it is refused, it goes without.
pub(crate) fn cause_of_trap(
    alloc: Global,
    program: &Program,
    trial: &Trial,
    trap: Trap,
) -> RefusalNote {
    let code = trial.image().code.as_slice();
    let address = trial.stopped_at();
    let number = number_at(code, address);
    let line = match number {
        Some(number) => instruction_line(alloc, program, number),
        None => 0,
    };
    let mut cause = RefusalNote::trapped(alloc, trap.kind, line);
    if let Some((op, _)) = decode(code, address) {
        if let Some(name) = name_in(trial.image(), op) {
            let _ = cause.name.push_str(name.as_str());
        }
        if let Ok(met) = met(alloc, trial, trap.kind, op) {
            cause.detail = met;
        }
    }
    if let Some(number) = number {
        let _ = cause.tell_closing(alloc, program, number);
        let _ = push_place(alloc, &mut cause.detail, trap.at, number);
    }
    cause
}

/// Appends what `at` counts, and the number of the instruction where jumps make it another one.
fn push_place(
    alloc: Global,
    text: &mut String,
    begun: u32,
    number: usize,
) -> Result<(), AllocError> {
    if begun as usize == number {
        return Ok(());
    }
    if !text.is_empty() {
        text.push_str("; ")?;
    }
    let place = format!(in alloc;
        "after {begun} instructions, at instruction {number} of the code"
    )?;
    text.push_str(place.as_str())
}

/// The values that met in an instruction, and what would have held them.
fn met(alloc: Global, trial: &Trial, kind: TrapKind, op: Op) -> Result<String, AllocError> {
    let mut text = String::new(alloc);
    match kind {
        TrapKind::Code | TrapKind::Stack => {}
        TrapKind::MissingPoint => text.push_str("no input line gives it a value")?,
        TrapKind::WrongType | TrapKind::Overflow | TrapKind::ZeroDivisor | TrapKind::StoreRange => {
            push_values(alloc, &mut text, trial, op)?;
        }
    }
    match kind {
        TrapKind::Overflow => push_limits(alloc, &mut text, op, trial.last_result())?,
        TrapKind::StoreRange => push_range(alloc, &mut text, trial.image(), op)?,
        TrapKind::WrongType => push_wanted(&mut text, trial.image(), op)?,
        TrapKind::ZeroDivisor | TrapKind::MissingPoint | TrapKind::Code | TrapKind::Stack => {}
    }
    Ok(text)
}

/// Appends the values that an instruction takes: deferred ones, and the result last.
fn push_values(alloc: Global, text: &mut String, trial: &Trial, op: Op) -> Result<(), AllocError> {
    match op {
        Op::Apply(_) => {
            push_value(alloc, text, trial.last_taken(0))?;
            text.push_str(" meets ")?;
        }
        Op::Select => {
            push_value(alloc, text, trial.last_taken(0))?;
            text.push_str(" chooses between ")?;
            push_value(alloc, text, trial.last_taken(1))?;
            text.push_str(" and ")?;
        }
        _ => text.push_str("the result is ")?,
    }
    push_value(alloc, text, trial.last_result())
}

/// Appends a value with its type, as `INT 7`.
fn push_value(alloc: Global, text: &mut String, value: Option<Typed>) -> Result<(), AllocError> {
    let Some((kind, number)) = value else {
        return text.push_str("none");
    };
    text.push_str(type_word(kind))?;
    text.push_str(" ")?;
    match kind {
        IlType::Bool if number == 1 => text.push_str("TRUE"),
        IlType::Bool => text.push_str("FALSE"),
        _ => push_number(alloc, text, number),
    }
}

fn push_number(alloc: Global, text: &mut String, number: i64) -> Result<(), AllocError> {
    let number = number.to_string(alloc)?;
    text.push_str(number.as_str())
}

/// Appends what an instruction wants.
fn push_wanted(text: &mut String, image: &Image, op: Op) -> Result<(), AllocError> {
    text.push_str(", and ")?;
    text.push_str(wanted_by(image, op))?;
    text.push_str(" wanted")
}

/// What an instruction wants of the values that it takes.
fn wanted_by(image: &Image, op: Op) -> &'static str {
    match op {
        Op::StoreVariable(place) => match image.vars.as_slice().get(place as usize) {
            Some(var) => wanted_type(var.kind),
            None => "another type is",
        },
        Op::StoreOutput(place) => match image.tags.as_slice().get(place as usize) {
            Some(tag) => wanted_type(tag.kind),
            None => "another type is",
        },
        Op::Convert(from, _) => wanted_type(from),
        Op::Absolute => "a whole number is",
        Op::Apply(Operator::And | Operator::Or | Operator::Xor) => "two BOOL are",
        Op::Apply(Operator::Eq | Operator::Ne) => "two of one type are",
        Op::Apply(_) => "two whole numbers of one type are",
        Op::Select => "a BOOL and two of one type are",
        _ => wanted_type(IlType::Bool),
    }
}

fn wanted_type(kind: IlType) -> &'static str {
    match kind {
        IlType::Bool => "BOOL is",
        IlType::Sint => "SINT is",
        IlType::Int => "INT is",
        IlType::Dint => "DINT is",
        IlType::Lint => "LINT is",
        IlType::Usint => "USINT is",
        IlType::Uint => "UINT is",
        IlType::Udint => "UDINT is",
    }
}

/// Appends what the type of the wanted result holds.
fn push_limits(
    alloc: Global,
    text: &mut String,
    op: Op,
    standing: Option<Typed>,
) -> Result<(), AllocError> {
    let kind = match (op, standing) {
        (Op::Convert(_, to), _) => to,
        (_, Some((kind, _))) => kind,
        (_, None) => return Ok(()),
    };
    push_holds(alloc, text, type_word(kind), kind.low(), kind.high())
}

/// Appends what the variable holds that is stored.
fn push_range(alloc: Global, text: &mut String, image: &Image, op: Op) -> Result<(), AllocError> {
    let Op::StoreVariable(place) = op else {
        return Ok(());
    };
    match image.vars.as_slice().get(place as usize) {
        Some(var) => push_holds(alloc, text, var.name.as_str(), var.low, var.high),
        None => Ok(()),
    }
}

fn push_holds(
    alloc: Global,
    text: &mut String,
    name: &str,
    low: i64,
    high: i64,
) -> Result<(), AllocError> {
    let range = format!(in alloc; " {low}..{high}")?;
    text.push_str(", ")?;
    text.push_str(name)?;
    text.push_str(" holds")?;
    text.push_str(range.as_str())?;
    Ok(())
}
