//! Why an instruction is refused, by what is known before it.
ghost use Rattle.std.specs.Prelude.{◌<◌, length};

use crate::meeting::missing_text;
use crate::mending::{Mend, mended_by};
use crate::rows::{Row, rows_of};
use crate::stacking::{clash_text, stack_text};
use crate::typing::type_text;
use crate::words::{span_words, type_word};
use facts::abstract_value::AbstractValue;
use facts::context::Context;
use facts::fact::Fact;
use facts::span::Span;
use facts::{Refusal, RefusalKind};
use il_reader::Program;
use point_types::{IlType, Items, Name, Operator};
use scan_code::{Image, Op};
use site_model::Site;
use std::alloc::{AllocError, Global};
use verifier::arrived::Arrived;
use verifier::known::{framed, known};

/// The most values that a program may defer.
pub(crate) const MOST_DEFERRED: usize = 32;

/// Why an instruction is refused; empty where nothing is known.
pub(crate) fn instruction_text(
    alloc: Global,
    program: &Program,
    image: &Image,
    site: &Site,
    number: usize,
    kind: RefusalKind,
) -> Result<String, AllocError> {
    match framed(alloc, image, site, MOST_DEFERRED) {
        Ok(context) if kind == RefusalKind::NoResult => {
            missing_in(alloc, program, image, &context, number)
        }
        Ok(context) => text_in(alloc, image, &context, number, kind),
        Err(other) => nothing_told(alloc, other),
    }
}

/// Why there is no result at an instruction.
fn missing_in(
    alloc: Global,
    program: &Program,
    image: &Image,
    context: &Context,
    number: usize,
) -> Result<String, AllocError>
    requires { length context.now.listing < 65536 }
{
    let rows: Items<Row> = rows_of(alloc, program, context)?;
    missing_text(alloc, image, context, rows.as_slice(), number)
}

/// Nothing, where it isn't memory that was refused.
fn nothing_told(alloc: Global, refusal: Refusal) -> Result<String, AllocError> {
    match refusal.kind {
        RefusalKind::OutOfMemory => Err(AllocError),
        _ => Ok(String::new(alloc)),
    }
}

fn text_in(
    alloc: Global,
    image: &Image,
    context: &Context,
    number: usize,
    kind: RefusalKind,
) -> Result<String, AllocError>
    requires { length context.now.listing < 65536 }
{
    if number >= context.size() {
        return Ok(String::new(alloc));
    }
    let (_, op) = context.instruction(number);
    match known(alloc, context, number) {
        Ok(Arrived::AbstractValue(fact)) => {
            fact_text(alloc, image, context, &fact, number, op, kind)
        }
        Ok(Arrived::Clash) => clash_text(alloc),
        Ok(Arrived::Nothing) => Ok(String::new(alloc)),
        Err(other) => nothing_told(alloc, other),
    }
}

/// Why an instruction is refused, by the fact before it.
fn fact_text(
    alloc: Global,
    image: &Image,
    context: &Context,
    fact: &Fact,
    number: usize,
    op: Op,
    kind: RefusalKind,
) -> Result<String, AllocError> {
    let before = context.instructions().get(..number).unwrap_or(&[]);
    match kind {
        RefusalKind::Overflow => overflow_text(alloc, fact, op),
        RefusalKind::ZeroDivisor => divisor_text(alloc, fact),
        RefusalKind::MayBeMissing => {
            String::from_str(alloc, absent_words(context.instructions(), number))
        }
        RefusalKind::StoreRange => store_text(alloc, image, context, fact, op),
        RefusalKind::WrongType => type_text(alloc, image, before, fact, op),
        RefusalKind::Stack => stack_text(alloc, fact, op),
        _ => Ok(String::new(alloc)),
    }
}

/// Why an input may be missing.
fn absent_words(instructions: &[(usize, Op)], number: usize) -> &'static str {
    if is_behind_repeated(instructions, number) {
        "an input without a default; what is known before the label of a counted jump is forgotten there, and nothing after it says that it is present"
    } else {
        "an input without a default, and nothing before says that it is present"
    }
}

/// Whether an instruction stands at the label of a counted jump or after it.
fn is_behind_repeated(instructions: &[(usize, Op)], number: usize) -> bool {
    let Some((address, _)) = instructions.get(number) else {
        return false;
    };
    for (_, op) in instructions {
        if let Op::Repeat(_, _, _, label) = op {
            if usize::from(*label) <= *address {
                return true;
            }
        }
    }
    false
}

/// What mends the types at an instruction that is refused for them; None where they aren't known.
pub fn mend_of(alloc: Global, image: &Image, site: &Site, number: usize) -> Option<Mend> {
    let context = framed(alloc, image, site, MOST_DEFERRED).ok()?;
    if number >= context.size() {
        return None;
    }
    let (_, op) = context.instruction(number);
    match known(alloc, &context, number) {
        Ok(Arrived::AbstractValue(fact)) => mended_by(image, &fact, op),
        _ => None,
    }
}

/// Whether the divisor at an instruction is known to be 0.
pub fn is_divided_by_zero(alloc: Global, image: &Image, site: &Site, number: usize) -> bool {
    let Ok(context) = framed(alloc, image, site, MOST_DEFERRED) else {
        return false;
    };
    if number >= context.size() {
        return false;
    }
    match known(alloc, &context, number) {
        Ok(Arrived::AbstractValue(fact)) => has_zero(&fact),
        _ => false,
    }
}

fn has_zero(fact: &Fact) -> bool {
    match &fact.result {
        Some(result) => result.span.ends() == Some((0, 0)),
        None => false,
    }
}

/// The result, and the last deferred value.
pub(crate) fn operands(fact: &Fact) -> (Option<&AbstractValue>, Option<&AbstractValue>) {
    let last = match fact.deferred.as_slice() {
        [Some(value), ..] => Some(value),
        _ => None,
    };
    (fact.result.as_ref(), last)
}

fn overflow_text(alloc: Global, fact: &Fact, op: Op) -> Result<String, AllocError> {
    match (op, operands(fact)) {
        (Op::Apply(operator), (Some(result), Some(deferred))) => {
            operated_text(alloc, operator, deferred, result)
        }
        (Op::Absolute, (Some(result), _)) => {
            past_type(alloc, result.span.absolute_ends(), result.kind)
        }
        (Op::Convert(_, to), (Some(result), _)) => converted_text(alloc, result.span, to),
        _ => Ok(String::new(alloc)),
    }
}

fn operated_text(
    alloc: Global,
    operator: Operator,
    first: &AbstractValue,
    second: &AbstractValue,
) -> Result<String, AllocError> {
    let ends = first.span.operated_ends(operator, second.span);
    past_type(alloc, ends, first.kind)
}

fn converted_text(alloc: Global, span: Span, to: IlType) -> Result<String, AllocError> {
    match span.ends() {
        Some((low, high)) => past_type(alloc, Some((low as i128, high as i128)), to),
        None => Ok(String::new(alloc)),
    }
}

/// Where the result lies, and what the type holds.
fn past_type(
    alloc: Global,
    ends: Option<(i128, i128)>,
    kind: IlType,
) -> Result<String, AllocError> {
    let Some((low, high)) = ends else {
        return Ok(String::new(alloc));
    };
    let mut text = format!(in alloc; "the result lies in {low}..{high}, ")?;
    let (word, low, high) = (type_word(kind), kind.low(), kind.high());
    let holds = format!(in alloc; "{word} holds {low}..{high}")?;
    text.push_str(holds.as_str())?;
    Ok(text)
}

fn divisor_text(alloc: Global, fact: &Fact) -> Result<String, AllocError> {
    match &fact.result {
        Some(_) if has_zero(fact) => {
            String::from_str(alloc, "the divisor is 0 on each way to here")
        }
        Some(divisor) => {
            let span = span_words(alloc, divisor.span)?;
            let span = span.as_str();
            format!(in alloc; "the divisor lies in {span}, which holds 0")
        }
        None => Ok(String::new(alloc)),
    }
}

/// Where the stored number lies, and what the variable or the tag takes.
fn store_text(
    alloc: Global,
    image: &Image,
    context: &Context,
    fact: &Fact,
    op: Op,
) -> Result<String, AllocError> {
    match (op, &fact.result) {
        (Op::StoreVariable(v), Some(result)) => {
            variable_text(alloc, image, usize::from(v), result.span)
        }
        (Op::StoreOutput(t), Some(result)) => {
            output_text(alloc, image, context, usize::from(t), result.span)
        }
        (Op::SetOutput(t), _) => {
            output_text(alloc, image, context, usize::from(t), Span::only(1))
        }
        (Op::ResetOutput(t), _) => {
            output_text(alloc, image, context, usize::from(t), Span::only(0))
        }
        _ => Ok(String::new(alloc)),
    }
}

fn variable_text(alloc: Global, image: &Image, v: usize, span: Span) -> Result<String, AllocError> {
    match image.vars.as_slice().get(v) {
        Some(var) => past_range(alloc, span, &var.name, var.low, var.high),
        None => Ok(String::new(alloc)),
    }
}

fn output_text(
    alloc: Global,
    image: &Image,
    context: &Context,
    t: usize,
    span: Span,
) -> Result<String, AllocError> {
    match (image.tags.as_slice().get(t), context.tag(t)) {
        (Some(tag), Some(range)) => past_range(alloc, span, &tag.name, range.low, range.high),
        _ => Ok(String::new(alloc)),
    }
}

fn past_range(
    alloc: Global,
    span: Span,
    name: &Name,
    low: i64,
    high: i64,
) -> Result<String, AllocError> {
    let span = span_words(alloc, span)?;
    let (span, name) = (span.as_str(), name.as_str());
    let mut text = format!(in alloc; "the result lies in {span}, {name} takes ")?;
    let range = format!(in alloc; "{low}..{high}")?;
    text.push_str(range.as_str())?;
    Ok(text)
}
