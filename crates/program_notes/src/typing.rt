//! Which types don't agree at an instruction.
use crate::code_lines::name_in;
use crate::meeting::brought;
use crate::refusing::operands;
use crate::words::type_word;
use facts::abstract_value::AbstractValue;
use facts::fact::Fact;
use point_types::IlType;
use scan_code::{Image, Op};
use std::alloc::{AllocError, Global};

/// The types of both sides, where these instructions come before; empty where the types aren't known.
pub(crate) fn type_text(
    alloc: Global,
    image: &Image,
    before: &[(usize, Op)],
    fact: &Fact,
    op: Op,
) -> Result<String, AllocError> {
    let Some(result) = &fact.result else {
        return Ok(String::new(alloc));
    };
    match op {
        Op::StoreVariable(_)
        | Op::SetVariable(_)
        | Op::ResetVariable(_)
        | Op::StoreOutput(_)
        | Op::SetOutput(_)
        | Op::ResetOutput(_) => stored(alloc, image, op, result.kind),
        Op::Apply(_) => applied(alloc, image, before, fact),
        Op::Select => selected(alloc, fact.deferred.as_slice(), result),
        Op::Convert(from, _) => wanted(alloc, result.kind, type_word(from)),
        Op::Absolute => wanted(alloc, result.kind, "a whole number"),
        _ => wanted(alloc, result.kind, "BOOL"),
    }
}

/// The type of what an instruction stores to.
pub(crate) fn taker_kind(image: &Image, op: Op) -> Option<IlType> {
    match op {
        Op::StoreVariable(v) | Op::SetVariable(v) | Op::ResetVariable(v) => {
            let var = image.vars.as_slice().get(usize::from(v))?;
            Some(var.kind)
        }
        Op::StoreOutput(t) | Op::SetOutput(t) | Op::ResetOutput(t) => {
            let tag = image.tags.as_slice().get(usize::from(t))?;
            Some(tag.kind)
        }
        _ => None,
    }
}

/// The result's type, and that of what is stored to. Where both are one, S and R want a BOOL.
fn stored(alloc: Global, image: &Image, op: Op, value: IlType) -> Result<String, AllocError> {
    match taker_kind(image, op) {
        Some(kind) if kind != value => {
            let mut text = typed(alloc, "the result", value)?;
            let taker = subject(alloc, image, Some(op), "what it is stored to")?;
            let taken = typed(alloc, taker.as_str(), kind)?;
            text.push_str(", ")?;
            text.push_str(taken.as_str())?;
            Ok(text)
        }
        _ => wanted(alloc, value, "BOOL"),
    }
}

fn typed(alloc: Global, subject: &str, kind: IlType) -> Result<String, AllocError> {
    let kind = type_word(kind);
    let text = format!(in alloc; "{subject} is {kind}")?;
    Ok(text)
}

fn wanted(alloc: Global, value: IlType, wanted: &str) -> Result<String, AllocError> {
    let ours = type_word(value);
    format!(in alloc; "the result is {ours}, {wanted} is wanted")
}

/// The types of the operands, each with its name where it has one.
fn applied(
    alloc: Global,
    image: &Image,
    before: &[(usize, Op)],
    fact: &Fact,
) -> Result<String, AllocError> {
    let (Some(result), Some(deferred)) = operands(fact) else {
        return Ok(String::new(alloc));
    };
    if result.kind == deferred.kind {
        return alike(alloc, result.kind);
    }
    let (one, other) = loads_before(before);
    let one = subject(
        alloc,
        image,
        of_kind(image, one, deferred.kind),
        "the result before",
    )?;
    let other = subject(alloc, image, other, "the operand")?;
    let mut text = typed(alloc, one.as_str(), deferred.kind)?;
    let second = typed(alloc, other.as_str(), result.kind)?;
    text.push_str(", ")?;
    text.push_str(second.as_str())?;
    Ok(text)
}

fn alike(alloc: Global, kind: IlType) -> Result<String, AllocError> {
    match kind {
        IlType::Bool => String::from_str(alloc, "both are BOOL, whole numbers are wanted"),
        _ => {
            let kind = type_word(kind);
            format!(in alloc; "both are {kind}, BOOL is wanted")
        }
    }
}

/// The instructions that load the first and the second operand, where they stand right before.
fn loads_before(before: &[(usize, Op)]) -> (Option<Op>, Option<Op>) {
    match before {
        [.., (_, one), (_, Op::Push), (_, other)] => (Some(*one), Some(*other)),
        _ => (None, None),
    }
}

/// The load that stands before, where what it loads has this type: on another way to here it may be another one.
fn of_kind(image: &Image, load: Option<Op>, kind: IlType) -> Option<Op> {
    let load = load?;
    if brought(image, load, None) == Some(kind) {
        Some(load)
    } else {
        None
    }
}

/// The name that an instruction loads or stores, or the number that it loads; else these words.
fn subject(
    alloc: Global,
    image: &Image,
    op: Option<Op>,
    otherwise: &str,
) -> Result<String, AllocError> {
    match op {
        Some(Op::LoadNumber(_, number)) => format!(in alloc; "{number}"),
        Some(Op::LoadPresence(_)) => String::from_str(alloc, otherwise),
        Some(op) => match name_in(image, op) {
            Some(name) => String::from_str(alloc, name.as_str()),
            None => String::from_str(alloc, otherwise),
        },
        None => String::from_str(alloc, otherwise),
    }
}

/// SEL wants a BOOL and two values of one type.
fn selected(
    alloc: Global,
    deferred: &[Option<AbstractValue>],
    last: &AbstractValue,
) -> Result<String, AllocError> {
    let [Some(first), Some(chooser), ..] = deferred else {
        return Ok(String::new(alloc));
    };
    if chooser.kind != IlType::Bool {
        let kind = type_word(chooser.kind);
        return format!(in alloc; "a BOOL chooses, the result is {kind}");
    }
    let (one, other) = (type_word(first.kind), type_word(last.kind));
    format!(in alloc; "one value is {one}, the other {other}")
}
