//! Why there is no result at an instruction: what the ways bring that meet before it.
use crate::rows::Row;
use crate::words::type_word;
use facts::context::Context;
use facts::span::Span;
use point_types::{Condition, IlType, Operator};
use scan_code::{Image, Op};
use std::alloc::{AllocError, Global};
use verifier::told::{Shown, Standing};

const NOTHING: &str = "nothing was loaded before";

const NOTHING_INSIDE: &str = "nothing was loaded before inside the parentheses";

const FORGOTTEN: &str = "after the label of a counted jump the result is forgotten";

/// A way to an instruction.
#[derive(Clone, Copy)]
struct Incoming {
    /// The instruction that leads there, its number, and its line.
    op: Op,
    number: usize,
    line: u32,
    /// The type of the result that it brings; None for no result.
    kind: Option<IlType>,
}

/// Why there is no result at an instruction, where these are the rows of the program: which types come from which lines
/// where its ways meet, that it is forgotten after a label, or that nothing was loaded.
pub(crate) fn missing_text(
    alloc: Global,
    image: &Image,
    context: &Context,
    rows: &[Row],
    number: usize,
) -> Result<String, AllocError> {
    let mut at = number;
    for _ in 0..rows.len() {
        if is_repeated(context.instructions(), at) {
            return String::from_str(alloc, FORGOTTEN);
        }
        let ways = ways_to(alloc, image, context, rows, at)?;
        match ways.as_slice() {
            [way] if way.kind.is_none() && !is_push(way.op) => at = way.number,
            ways => return text_of(alloc, ways),
        }
    }
    String::from_str(alloc, NOTHING)
}

fn is_push(op: Op) -> bool {
    matches!(op, Op::Push)
}

/// Whether a counted jump leads to an instruction.
fn is_repeated(instructions: &[(usize, Op)], at: usize) -> bool {
    let Some((address, _)) = instructions.get(at) else {
        return false;
    };
    for (_, op) in instructions {
        if let Op::Repeat(_, _, _, label) = op {
            if usize::from(*label) == *address {
                return true;
            }
        }
    }
    false
}

/// The ways to an instruction from those before it.
fn ways_to(
    alloc: Global,
    image: &Image,
    context: &Context,
    rows: &[Row],
    at: usize,
) -> Result<Vec<Incoming>, AllocError> {
    let mut ways = Vec::new(alloc);
    let address = match context.instructions().get(at) {
        Some((address, _)) => *address,
        None => return Ok(ways),
    };
    for row in rows.iter().take(at) {
        if let Some(way) = way_from(image, row, at, address) {
            ways.push(way)?;
        }
    }
    Ok(ways)
}

/// The way from an instruction to the one with that number, at that address; None where it doesn't lead there.
fn way_from(image: &Image, row: &Row, at: usize, address: usize) -> Option<Incoming> {
    let Some(Standing::Known(told)) = &row.known else {
        return None;
    };
    if !leads_to(row, told.result, at, address) {
        return None;
    }
    Some(Incoming {
        op: row.op,
        number: row.number,
        line: row.line,
        kind: brought(image, row.op, told.result),
    })
}

/// Whether an instruction with this result before it leads to the one with that number, at that address.
fn leads_to(row: &Row, shown: Option<Shown>, at: usize, address: usize) -> bool {
    let is_next = row.number.saturating_add(1) == at;
    match row.op {
        Op::End => false,
        Op::Jump(condition, to) if usize::from(to) == address => may_act(condition, shown),
        Op::Jump(condition, _) | Op::Return(condition) => is_next && may_pass(condition, shown),
        _ => is_next,
    }
}

/// Whether an instruction on a condition may act.
fn may_act(condition: Condition, shown: Option<Shown>) -> bool {
    match condition {
        Condition::Always => true,
        Condition::IfTrue => may_be(shown, 1),
        Condition::IfFalse => may_be(shown, 0),
    }
}

/// Whether an instruction on a condition may be passed by.
fn may_pass(condition: Condition, shown: Option<Shown>) -> bool {
    match condition {
        Condition::Always => false,
        Condition::IfTrue => may_be(shown, 0),
        Condition::IfFalse => may_be(shown, 1),
    }
}

/// Whether a result may be this number.
fn may_be(shown: Option<Shown>, number: i64) -> bool {
    match shown {
        Some(value) => holds(value.span, number),
        None => true,
    }
}

fn holds(span: Span, number: i64) -> bool {
    match span.ends() {
        Some((low, high)) => low <= number && number <= high,
        None => false,
    }
}

/// The type of the result after an instruction, where this one is before it.
pub(crate) fn brought(image: &Image, op: Op, before: Option<Shown>) -> Option<IlType> {
    match op {
        Op::LoadVariable(v) => {
            let var = image.vars.as_slice().get(usize::from(v))?;
            Some(var.kind)
        }
        Op::LoadInput(t) => {
            let tag = image.tags.as_slice().get(usize::from(t))?;
            Some(tag.kind)
        }
        Op::LoadPresence(_) | Op::LoadBool(_) | Op::Not => Some(IlType::Bool),
        Op::LoadNumber(kind, _) => Some(kind),
        Op::Push => None,
        Op::Apply(operator) if compares(operator) => Some(IlType::Bool),
        Op::Convert(_, to) => Some(to),
        _ => Some(before?.kind),
    }
}

fn compares(operator: Operator) -> bool {
    matches!(
        operator,
        Operator::Gt | Operator::Ge | Operator::Eq | Operator::Ne | Operator::Le | Operator::Lt
    )
}

/// What these ways bring, each type with the line of the first one that brings it.
fn text_of(alloc: Global, ways: &[Incoming]) -> Result<String, AllocError> {
    let mut text = String::new(alloc);
    for (number, way) in ways.iter().enumerate() {
        if !brings(ways.get(..number).unwrap_or(&[]), way.kind) {
            push_way(alloc, &mut text, *way)?;
        }
    }
    match ways {
        [first, ..] if !brings_only(ways, first.kind) => Ok(text),
        [only] if is_push(only.op) => String::from_str(alloc, NOTHING_INSIDE),
        _ => String::from_str(alloc, NOTHING),
    }
}

/// Whether one of these ways brings this type.
fn brings(ways: &[Incoming], kind: Option<IlType>) -> bool {
    for way in ways {
        if way.kind == kind {
            return true;
        }
    }
    false
}

/// Whether each of these ways brings this type.
fn brings_only(ways: &[Incoming], kind: Option<IlType>) -> bool {
    for way in ways {
        if way.kind != kind {
            return false;
        }
    }
    true
}

/// Appends what a way brings, and from where.
fn push_way(alloc: Global, text: &mut String, way: Incoming) -> Result<(), AllocError> {
    let word = match way.kind {
        Some(kind) => type_word(kind),
        None => "nothing",
    };
    let verb = if text.is_empty() { " comes" } else { "" };
    let line = way.line;
    let shown = format!(in alloc; "{word}{verb} from line {line}")?;
    if !text.is_empty() {
        text.push_str(", ")?;
    }
    text.push_str(shown.as_str())
}
