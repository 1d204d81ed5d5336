//! What flows on from an instruction, or why it is refused: the first cause that holds.

ghost use Rattle.std.specs.Prelude.{◌<◌, ◌+◌, ◌^◌};

use crate::tests::full::Stop;
use crate::tests::full::fact::FullFact;
use crate::tests::full::jumps::{jump, leave, repeat};
use crate::tests::full::operand::{absolute, applied, converted, inverted, selected};
use crate::tests::full::value::FullValue;
use point_types::{IlType, Operator};
use scan_code::Op;
use std::alloc::Global;
use verifier::abstract_value::Origin;
use verifier::context::Context;
use verifier::refusal::RefusalKind;
use verifier::span::Span;

/// The numbers of the instructions that follow, each with what is known on the way there.
pub(crate) type Ways = Vec<(usize, FullFact)>;

/// The most deferred values.
const CAPACITY: usize = 128;

/// What flows on from an instruction, by its number, before which this is known.
pub(crate) fn flow(
    alloc: Global,
    context: &Context,
    at: usize,
    op: Op,
    fact: &FullFact,
) -> Result<Ways, Stop>
    requires { at + 1 < 2 ^ 64 }
{
    let mut ways = Vec::new(alloc);
    match op {
        Op::End => {}
        Op::Jump(condition, to) => jump(alloc, context, at, condition, to, fact, &mut ways)?,
        Op::Return(condition) => leave(alloc, at, condition, fact, &mut ways)?,
        _ => ways.push((at + 1, behind(alloc, context, at, op, fact)?))?,
    }
    Ok(ways)
}

/// What is known after an instruction that neither jumps forward nor ends the scan.
fn behind(
    alloc: Global,
    context: &Context,
    at: usize,
    op: Op,
    fact: &FullFact,
) -> Result<FullFact, Stop> {
    let mut known = fact.copied(alloc)?;
    step(alloc, context, at, op, &mut known)?;
    Ok(known)
}

fn step(
    alloc: Global,
    context: &Context,
    at: usize,
    op: Op,
    fact: &mut FullFact,
) -> Result<(), Stop> {
    match op {
        Op::LoadVariable(v) => load_variable(alloc, context, usize::from(v), fact),
        Op::LoadInput(t) => load_input(alloc, context, usize::from(t), fact),
        Op::LoadPresence(t) => load_presence(alloc, context, usize::from(t), fact),
        Op::LoadBool(truth) => load(alloc, context, IlType::Bool, i64::from(truth), fact),
        Op::LoadNumber(kind, number) => load(alloc, context, kind, number, fact),
        Op::StoreVariable(v) => store_variable(context, usize::from(v), fact),
        Op::StoreOutput(t) => store_output(context, usize::from(t), fact),
        Op::SetVariable(v) => set_variable(context, usize::from(v), 1, fact),
        Op::ResetVariable(v) => set_variable(context, usize::from(v), 0, fact),
        Op::SetOutput(t) => set_output(context, usize::from(t), 1, fact),
        Op::ResetOutput(t) => set_output(context, usize::from(t), 0, fact),
        Op::Push => push(context, fact),
        Op::Not => not(alloc, fact),
        Op::Apply(operator) => apply(alloc, context, operator, fact),
        Op::Select => select(alloc, context, fact),
        Op::Absolute => make_absolute(alloc, context, fact),
        Op::Convert(from, to) => convert(alloc, context, from, to, fact),
        Op::Repeat(condition, _, _, to) => repeat(context, at, condition, to, fact),
        Op::End | Op::Jump(_, _) | Op::Return(_) => Ok(()),
    }
}

/// LDV: the result is a variable.
fn load_variable(
    alloc: Global,
    context: &Context,
    v: usize,
    fact: &mut FullFact,
) -> Result<(), Stop> {
    let variable = context.variables.as_slice().get(v);
    let (Some(variable), Some(span)) = (variable, fact.span_of(Origin::OfVariable(v))) else {
        return Err(Stop::Refused(RefusalKind::Code));
    };
    load_source(
        alloc,
        context,
        variable.kind,
        span,
        Origin::OfVariable(v),
        fact,
    )
}

/// LDT: the result is an input, which has a default or is known to be present.
fn load_input(alloc: Global, context: &Context, t: usize, fact: &mut FullFact) -> Result<(), Stop> {
    let (Some(tag), Some(span)) = (context.tag(t), fact.span_of(Origin::OfInput(t))) else {
        return Err(Stop::Refused(RefusalKind::Code));
    };
    if !tag.has_default && !fact.is_present(t) {
        return Err(Stop::Refused(RefusalKind::MayBeMissing));
    }
    load_source(alloc, context, tag.kind, span, Origin::OfInput(t), fact)
}

/// The result equals this variable or input.
fn load_source(
    alloc: Global,
    context: &Context,
    kind: IlType,
    span: Span,
    origin: Origin,
    fact: &mut FullFact,
) -> Result<(), Stop> {
    let mut value = FullValue::plain(alloc, context, kind, span)?;
    value.equal(origin);
    fact.result = Some(value);
    Ok(())
}

/// LDP: where the result is TRUE, an input is present.
fn load_presence(
    alloc: Global,
    context: &Context,
    t: usize,
    fact: &mut FullFact,
) -> Result<(), Stop> {
    let mut value = FullValue::plain(alloc, context, IlType::Bool, Span::between(0, 1))?;
    value.where_true.add_presence(t);
    fact.result = Some(value);
    Ok(())
}

/// LDB and LDC: the result is one number.
fn load(
    alloc: Global,
    context: &Context,
    kind: IlType,
    number: i64,
    fact: &mut FullFact,
) -> Result<(), Stop> {
    fact.result = Some(FullValue::plain(alloc, context, kind, Span::only(number))?);
    Ok(())
}

/// STV: a variable gets the result, which lies in its range; the result then equals it.
fn store_variable(context: &Context, v: usize, fact: &mut FullFact) -> Result<(), Stop> {
    let variable = context.variables.as_slice().get(v);
    let variable = variable.ok_or(RefusalKind::Code)?;
    let result = fact.any_result()?;
    let span = result.span;
    if result.kind != variable.kind {
        return Err(Stop::Refused(RefusalKind::WrongType));
    }
    if !span.lies_in(variable.low, variable.high) {
        return Err(Stop::Refused(RefusalKind::StoreRange));
    }
    fact.change(v, span);
    fact.name_result(v);
    Ok(())
}

/// STT: an output gets the result, which lies in its tag's range.
fn store_output(context: &Context, t: usize, fact: &FullFact) -> Result<(), Stop> {
    let tag = context.tag(t).ok_or(RefusalKind::Code)?;
    let result = fact.any_result()?;
    if result.kind != tag.kind {
        return Err(Stop::Refused(RefusalKind::WrongType));
    }
    if !result.span.lies_in(tag.low, tag.high) {
        return Err(Stop::Refused(RefusalKind::StoreRange));
    }
    Ok(())
}

/// SETV and RSTV: a variable may have got this truth.
fn set_variable(context: &Context, v: usize, truth: i64, fact: &mut FullFact) -> Result<(), Stop> {
    let variable = context.variables.as_slice().get(v);
    let variable = variable.ok_or(RefusalKind::Code)?;
    fact.bool_result()?;
    if variable.kind != IlType::Bool {
        return Err(Stop::Refused(RefusalKind::WrongType));
    }
    if let Some(span) = fact.span_of(Origin::OfVariable(v)) {
        fact.change(v, span.joined(Span::only(truth)));
    }
    Ok(())
}

/// SETT and RSTT: an output may get this truth, which lies in its tag's range.
fn set_output(context: &Context, t: usize, truth: i64, fact: &FullFact) -> Result<(), Stop> {
    let tag = context.tag(t).ok_or(RefusalKind::Code)?;
    fact.bool_result()?;
    if tag.kind != IlType::Bool {
        return Err(Stop::Refused(RefusalKind::WrongType));
    }
    if truth < tag.low || tag.high < truth {
        return Err(Stop::Refused(RefusalKind::StoreRange));
    }
    Ok(())
}

/// PUSH: the result is deferred.
fn push(context: &Context, fact: &mut FullFact) -> Result<(), Stop> {
    let depth = fact.deferred.len();
    if depth >= context.depth || depth >= CAPACITY {
        return Err(Stop::Refused(RefusalKind::Stack));
    }
    let result = fact.result.take().ok_or(RefusalKind::NoResult)?;
    fact.deferred.push(Some(result))?;
    Ok(())
}

/// Takes the last deferred value, which may be nothing.
fn pop(fact: &mut FullFact) -> Result<Option<FullValue>, RefusalKind> {
    fact.deferred.pop().ok_or(RefusalKind::Stack)
}

/// NOT
fn not(alloc: Global, fact: &mut FullFact) -> Result<(), Stop> {
    let value = inverted(alloc, fact.any_result()?)?;
    fact.result = Some(value);
    Ok(())
}

/// An operator on the last deferred value and the result.
fn apply(
    alloc: Global,
    context: &Context,
    operator: Operator,
    fact: &mut FullFact,
) -> Result<(), Stop> {
    let deferred = pop(fact)?.ok_or(RefusalKind::NoResult)?;
    let value = applied(alloc, context, operator, &deferred, fact.any_result()?)?;
    fact.result = Some(value);
    Ok(())
}

/// SEL: of the last deferred value and the result one, as the deferred value before chooses.
fn select(alloc: Global, context: &Context, fact: &mut FullFact) -> Result<(), Stop> {
    let deferred = pop(fact)?;
    let chooser = pop(fact)?.ok_or(RefusalKind::NoResult)?;
    let deferred = deferred.ok_or(RefusalKind::NoResult)?;
    let value = selected(alloc, context, &chooser, &deferred, fact.any_result()?)?;
    fact.result = Some(value);
    Ok(())
}

/// ABS
fn make_absolute(alloc: Global, context: &Context, fact: &mut FullFact) -> Result<(), Stop> {
    let value = absolute(alloc, context, fact.any_result()?)?;
    fact.result = Some(value);
    Ok(())
}

/// CONV
fn convert(
    alloc: Global,
    context: &Context,
    from: IlType,
    to: IlType,
    fact: &mut FullFact,
) -> Result<(), Stop> {
    let value = converted(alloc, context, from, to, fact.any_result()?)?;
    fact.result = Some(value);
    Ok(())
}
