//! What an operation makes of values, or why it is refused: the first cause that holds.

use crate::tests::full::Stop;
use crate::tests::full::value::{Follows, FullValue};
use intervals::Relation;
use point_types::{IlType, Operator};
use std::alloc::{AllocError, Global};
use verifier::context::Context;
use verifier::refusal::RefusalKind;
use verifier::span::Span;

/// The value of a deferred value, an operator and the result.
pub(crate) fn applied(
    alloc: Global,
    context: &Context,
    operator: Operator,
    d: &FullValue,
    r: &FullValue,
) -> Result<FullValue, Stop> {
    match operator {
        Operator::And | Operator::Or | Operator::Xor => logic(alloc, context, operator, d, r),
        Operator::Add | Operator::Sub | Operator::Mul | Operator::Min | Operator::Max => {
            arithmetic(alloc, context, operator, d, r)
        }
        Operator::Div | Operator::Mod => division(alloc, context, operator, d, r),
        Operator::Eq => comparison(alloc, context, (Relation::Eq, Relation::Ne), d, r),
        Operator::Ne => comparison(alloc, context, (Relation::Ne, Relation::Eq), d, r),
        Operator::Gt => order(alloc, context, (Relation::Gt, Relation::Le), d, r),
        Operator::Ge => order(alloc, context, (Relation::Ge, Relation::Lt), d, r),
        Operator::Le => order(alloc, context, (Relation::Le, Relation::Gt), d, r),
        Operator::Lt => order(alloc, context, (Relation::Lt, Relation::Ge), d, r),
    }
}

/// AND, OR and XOR: where AND is TRUE both are, where OR is FALSE neither is.
fn logic(
    alloc: Global,
    context: &Context,
    operator: Operator,
    d: &FullValue,
    r: &FullValue,
) -> Result<FullValue, Stop> {
    if d.kind != IlType::Bool || r.kind != IlType::Bool {
        return Err(Stop::Refused(RefusalKind::WrongType));
    }
    let mut value = FullValue::plain(alloc, context, IlType::Bool, Span::between(0, 1))?;
    match operator {
        Operator::And => {
            value.span = d.span.both(r.span);
            value.where_true.add_all(&d.where_true);
            value.where_true.add_all(&r.where_true);
        }
        Operator::Or => {
            value.span = d.span.either(r.span);
            value.where_false.add_all(&d.where_false);
            value.where_false.add_all(&r.where_false);
        }
        _ => {}
    }
    Ok(value)
}

/// An operator on whole numbers of one type, whose results lie in that type.
fn arithmetic(
    alloc: Global,
    context: &Context,
    operator: Operator,
    d: &FullValue,
    r: &FullValue,
) -> Result<FullValue, Stop> {
    if !are_numbers_alike(d, r) {
        return Err(Stop::Refused(RefusalKind::WrongType));
    }
    let span = fitting(d.kind, d.span.operated_ends(operator, r.span))?;
    Ok(FullValue::plain(alloc, context, d.kind, span)?)
}

/// DIV and MOD: no divisor may be 0, where the types are right.
fn division(
    alloc: Global,
    context: &Context,
    operator: Operator,
    d: &FullValue,
    r: &FullValue,
) -> Result<FullValue, Stop> {
    if are_numbers_alike(d, r) && r.span.has_member(0) {
        return Err(Stop::Refused(RefusalKind::ZeroDivisor));
    }
    arithmetic(alloc, context, operator, d, r)
}

/// Whether both are whole numbers of one type.
fn are_numbers_alike(d: &FullValue, r: &FullValue) -> bool {
    d.kind == r.kind && d.kind != IlType::Bool
}

/// The span of these ends, which lie in a type's range; without any it is empty.
fn fitting(kind: IlType, ends: Option<(i128, i128)>) -> Result<Span, RefusalKind> {
    match ends {
        Some((low, high)) => match (i64::try_from(low), i64::try_from(high)) {
            (Ok(low), Ok(high)) if kind.low() <= low && low <= high && high <= kind.high() => {
                Ok(Span::between(low, high))
            }
            _ => Err(RefusalKind::Overflow),
        },
        None => Ok(Span::empty()),
    }
}

/// GT, GE, LE and LT of whole numbers.
fn order(
    alloc: Global,
    context: &Context,
    relations: (Relation, Relation),
    d: &FullValue,
    r: &FullValue,
) -> Result<FullValue, Stop> {
    if d.kind == IlType::Bool {
        return Err(Stop::Refused(RefusalKind::WrongType));
    }
    comparison(alloc, context, relations, d, r)
}

/// A comparison of values of one type: how they stand to each other where it is TRUE, and where it is FALSE.
fn comparison(
    alloc: Global,
    context: &Context,
    relations: (Relation, Relation),
    d: &FullValue,
    r: &FullValue,
) -> Result<FullValue, Stop> {
    if d.kind != r.kind {
        return Err(Stop::Refused(RefusalKind::WrongType));
    }
    let mut value = FullValue::plain(alloc, context, IlType::Bool, Span::between(0, 1))?;
    relate(&mut value.where_true, relations.0, d, r);
    relate(&mut value.where_false, relations.1, d, r);
    Ok(value)
}

/// One value stands so to another: what each of them equals lies in what is left of its span.
fn relate(follows: &mut Follows, relation: Relation, d: &FullValue, r: &FullValue) {
    let turned = match relation {
        Relation::Eq | Relation::Ne => relation,
        Relation::Gt => Relation::Lt,
        Relation::Ge => Relation::Le,
        Relation::Le => Relation::Ge,
        Relation::Lt => Relation::Gt,
    };
    follows.add(d.origin, d.span.cut_by(relation, r.span));
    follows.add(r.origin, r.span.cut_by(turned, d.span));
}

/// SEL: one of two values of one type.
pub(crate) fn selected(
    alloc: Global,
    context: &Context,
    chooser: &FullValue,
    a: &FullValue,
    b: &FullValue,
) -> Result<FullValue, Stop> {
    if chooser.kind != IlType::Bool || a.kind != b.kind {
        return Err(Stop::Refused(RefusalKind::WrongType));
    }
    Ok(FullValue::plain(alloc, context, a.kind, a.span.joined(b.span))?)
}

/// NOT of a BOOL: what follows changes places.
pub(crate) fn inverted(alloc: Global, r: &FullValue) -> Result<FullValue, Stop> {
    if r.kind != IlType::Bool {
        return Err(Stop::Refused(RefusalKind::WrongType));
    }
    let where_true = r.where_false.copied(alloc)?;
    let where_false = r.where_true.copied(alloc)?;
    Ok(FullValue {
        kind: IlType::Bool,
        span: r.span.flipped(),
        origin: None,
        where_true,
        where_false,
    })
}

/// ABS of a whole number.
pub(crate) fn absolute(alloc: Global, context: &Context, r: &FullValue) -> Result<FullValue, Stop> {
    if r.kind == IlType::Bool {
        return Err(Stop::Refused(RefusalKind::WrongType));
    }
    let span = fitting(r.kind, r.span.absolute_ends())?;
    Ok(FullValue::plain(alloc, context, r.kind, span)?)
}

/// A conversion between two whole-number types.
pub(crate) fn converted(
    alloc: Global,
    context: &Context,
    from: IlType,
    to: IlType,
    r: &FullValue,
) -> Result<FullValue, Stop> {
    if r.kind != from {
        return Err(Stop::Refused(RefusalKind::WrongType));
    }
    if !r.span.lies_in(to.low(), to.high()) {
        return Err(Stop::Refused(RefusalKind::Overflow));
    }
    Ok(FullValue::plain(alloc, context, to, r.span)?)
}
