//! What an operator makes of two values.
ghost use Rattle.std.specs.Prelude.{◌≡◌, ◌&&◌, not, pos, IfOk, IsTrue};
ghost use Rattle.facts.specs.Fitting.{divides, within_type};
ghost use Rattle.facts.specs.Flow.{absolute_known, applied_known, arithmetic_of, comparison_of, converted_known, division_of, is_whole_pair, relation_sets, selected_known};
ghost use Rattle.point_types.specs.declared.operator.Operator.TheVariants as op;
ghost use Rattle.facts.specs.Span.{has_member, mirrored, opposite};

use crate::abstract_value::{AbstractValue, Consequences, nothing};
use crate::context::Context;
use crate::refusal::RefusalKind;
use crate::span::Span;
use intervals::Relation;
use point_types::{IlType, Operator};
use std::alloc::{AllocError, Global};

/// What an operation makes of values, or why it is refused; or memory was.
pub type Made = Result<Result<AbstractValue, RefusalKind>, AllocError>;

/// The value of a deferred value, the operator and the result.
pub fn applied(
    alloc: Global,
    context: &Context,
    o: Operator,
    d: &AbstractValue,
    r: &AbstractValue,
) -> Made
    ensures { IfOk result (λ v. v ≡ applied_known context.now o d.now r.now) }
{
    match o {
        Operator::And => and(alloc, context, d, r),
        Operator::Or => or(alloc, context, d, r),
        Operator::Xor => xor(alloc, context, d, r),
        Operator::Add => arithmetic(alloc, context, Operator::Add, d, r),
        Operator::Sub => arithmetic(alloc, context, Operator::Sub, d, r),
        Operator::Mul => arithmetic(alloc, context, Operator::Mul, d, r),
        Operator::Min => arithmetic(alloc, context, Operator::Min, d, r),
        Operator::Max => arithmetic(alloc, context, Operator::Max, d, r),
        Operator::Div => division(alloc, context, Operator::Div, d, r),
        Operator::Mod => division(alloc, context, Operator::Mod, d, r),
        Operator::Eq => comparison(alloc, context, Relation::Eq, true, d, r),
        Operator::Ne => comparison(alloc, context, Relation::Ne, true, d, r),
        Operator::Gt => comparison(alloc, context, Relation::Gt, false, d, r),
        Operator::Ge => comparison(alloc, context, Relation::Ge, false, d, r),
        Operator::Le => comparison(alloc, context, Relation::Le, false, d, r),
        Operator::Lt => comparison(alloc, context, Relation::Lt, false, d, r),
    }
}

/// SEL: one of two values, as a BOOL chooses.
pub fn selected(
    alloc: Global,
    context: &Context,
    chooser: &AbstractValue,
    a: &AbstractValue,
    b: &AbstractValue,
) -> Made
    ensures { IfOk result (λ v. v ≡ selected_known context.now chooser.now a.now b.now) }
{
    if chooser.kind != IlType::Bool || a.kind != b.kind {
        return Ok(Err(RefusalKind::WrongType));
    }
    Ok(Ok(AbstractValue::plain(alloc, context, a.kind, a.span.joined(b.span))))
}

/// ABS of a whole number.
pub fn absolute(alloc: Global, context: &Context, v: &AbstractValue) -> Made
    ensures { IfOk result (λ made. made ≡ absolute_known context.now v.now) }
{
    if v.kind == IlType::Bool {
        return Ok(Err(RefusalKind::WrongType));
    }
    match v.span.absolute(v.kind) {
        Some(span) => Ok(Ok(AbstractValue::plain(alloc, context, v.kind, span))),
        None => Ok(Err(RefusalKind::Overflow)),
    }
}

/// A conversion between two whole-number types.
pub fn converted(
    alloc: Global,
    context: &Context,
    from: IlType,
    to: IlType,
    v: &AbstractValue,
) -> Made
    ensures { IfOk result (λ made. made ≡ converted_known context.now from to v.now) }
{
    if from != v.kind {
        return Ok(Err(RefusalKind::WrongType));
    }
    if v.span.lies_in(to.low(), to.high()) {
        Ok(Ok(AbstractValue::plain(alloc, context, to, v.span)))
    } else {
        Ok(Err(RefusalKind::Overflow))
    }
}

/// AND: where it is TRUE, both are.
fn and(alloc: Global, context: &Context, d: &AbstractValue, r: &AbstractValue) -> Made
    ensures { IfOk result (λ v. v ≡ applied_known context.now op.And d.now r.now) }
{
    if d.kind != IlType::Bool || r.kind != IlType::Bool {
        return Ok(Err(RefusalKind::WrongType));
    }
    Ok(Ok(AbstractValue {
        kind: IlType::Bool,
        span: d.span.both(r.span),
        origin: None,
        where_true: d.where_true.united(alloc, &r.where_true)?,
        where_false: nothing(alloc, context),
    }))
}

/// OR: where it is FALSE, both are.
fn or(alloc: Global, context: &Context, d: &AbstractValue, r: &AbstractValue) -> Made
    ensures { IfOk result (λ v. v ≡ applied_known context.now op.Or d.now r.now) }
{
    if d.kind != IlType::Bool || r.kind != IlType::Bool {
        return Ok(Err(RefusalKind::WrongType));
    }
    Ok(Ok(AbstractValue {
        kind: IlType::Bool,
        span: d.span.either(r.span),
        origin: None,
        where_true: nothing(alloc, context),
        where_false: d.where_false.united(alloc, &r.where_false)?,
    }))
}

/// XOR, of which nothing follows.
fn xor(alloc: Global, context: &Context, d: &AbstractValue, r: &AbstractValue) -> Made
    ensures { IfOk result (λ v. v ≡ applied_known context.now op.Xor d.now r.now) }
{
    if d.kind != IlType::Bool || r.kind != IlType::Bool {
        return Ok(Err(RefusalKind::WrongType));
    }
    Ok(Ok(AbstractValue::plain(alloc, context, IlType::Bool, Span::between(0, 1))))
}

/// An operator on whole numbers of one type, whose results lie in that type. No divisor is 0.
fn arithmetic(
    alloc: Global,
    context: &Context,
    o: Operator,
    d: &AbstractValue,
    r: &AbstractValue,
) -> Made
    requires { IsTrue (not (divides o && has_member (pos 0) r.now.span)) }
    ensures { IfOk result (λ v. v ≡ arithmetic_of context.now o d.now r.now) }
{
    if !is_whole_pair(d, r) {
        return Ok(Err(RefusalKind::WrongType));
    }
    within_type(alloc, context, d.kind, d.span.operated(o, r.span, d.kind))
}

/// A plain value of this type, where its span lies in the type's range.
fn within_type(alloc: Global, context: &Context, kind: IlType, span: Option<Span>) -> Made
    ensures { IfOk result (λ v. v ≡ within_type context.now kind span) }
{
    match span {
        Some(span) => Ok(Ok(AbstractValue::plain(alloc, context, kind, span))),
        None => Ok(Err(RefusalKind::Overflow)),
    }
}

/// Whether both are whole numbers of one type.
fn is_whole_pair(d: &AbstractValue, r: &AbstractValue) -> bool
    ensures { result ≡ is_whole_pair d.now r.now }
{
    d.kind == r.kind && d.kind != IlType::Bool
}

/// DIV or MOD of whole numbers, by what can't be 0.
fn division(
    alloc: Global,
    context: &Context,
    o: Operator,
    d: &AbstractValue,
    r: &AbstractValue,
) -> Made
    ensures { IfOk result (λ v. v ≡ division_of context.now o d.now r.now) }
{
    if !is_whole_pair(d, r) {
        return Ok(Err(RefusalKind::WrongType));
    }
    if r.span.has_member(0) {
        return Ok(Err(RefusalKind::ZeroDivisor));
    }
    arithmetic(alloc, context, o, d, r)
}

/// A comparison of values of one type, of BOOLs where that is allowed.
fn comparison(
    alloc: Global,
    context: &Context,
    o: Relation,
    on_bool: bool,
    d: &AbstractValue,
    r: &AbstractValue,
) -> Made
    ensures { IfOk result (λ v. v ≡ comparison_of context.now o on_bool d.now r.now) }
{
    if d.kind != r.kind || (!on_bool && d.kind == IlType::Bool) {
        return Ok(Err(RefusalKind::WrongType));
    }
    Ok(Ok(AbstractValue {
        kind: IlType::Bool,
        span: Span::between(0, 1),
        origin: None,
        where_true: related(alloc, context, o, d, r)?,
        where_false: related(alloc, context, opposite(o), d, r)?,
    }))
}

/// What follows where one value stands so to another: what each of them equals lies in what is left
/// of its span.
fn related(
    alloc: Global,
    context: &Context,
    o: Relation,
    d: &AbstractValue,
    r: &AbstractValue,
) -> Result<Consequences, AllocError>
    ensures { IfOk result (λ c. c ≡ relation_sets context.now o d.now r.now) }
{
    let none = nothing(alloc, context);
    let of_first = none.with_span(alloc, d.origin, d.span.cut_by(o, r.span))?;
    of_first.with_span(alloc, r.origin, r.span.cut_by(mirrored(o), d.span))
}

/// How b stands to a where a stands so to b.
fn mirrored(o: Relation) -> Relation
    ensures { result ≡ mirrored o }
{
    match o {
        Relation::Gt => Relation::Lt,
        Relation::Ge => Relation::Le,
        Relation::Eq => Relation::Eq,
        Relation::Ne => Relation::Ne,
        Relation::Le => Relation::Ge,
        Relation::Lt => Relation::Gt,
    }
}

/// How a stands to b where it doesn't stand so.
fn opposite(o: Relation) -> Relation
    ensures { result ≡ opposite o }
{
    match o {
        Relation::Gt => Relation::Le,
        Relation::Ge => Relation::Lt,
        Relation::Eq => Relation::Ne,
        Relation::Ne => Relation::Eq,
        Relation::Le => Relation::Gt,
        Relation::Lt => Relation::Ge,
    }
}
