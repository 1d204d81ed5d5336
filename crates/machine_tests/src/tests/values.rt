//! What is known of values.

use crate::tests::{assert_same, assert_true, frame_of};
use intervals::Relation;
use point_types::{IlType, Operator};
use std::alloc::Global;
use std::process::Abort;
use verifier::abstract_value::{AbstractValue, Consequences, Origin, met_value};
use verifier::context::Context;
use verifier::operand::{Made, applied, converted, selected};
use verifier::refusal::RefusalKind;
use verifier::span::Span;

#[test]
fn keeps_what_is_left_of_spans(rt: HostRuntime) {
    let all = Span::between(0, 10);
    let cut = all.cut_by(Relation::Ne, Span::only(0));
    assert_same(&rt, &cut, &Span::between(1, 10));
    let joined = all.joined(Span::only(-5));
    assert_same(&rt, &joined, &Span::between(-5, 10));
    let intersected = all.intersected(Span::between(7, 20));
    assert_same(&rt, &intersected, &Span::between(7, 10));
    let nothing = all.intersected(Span::only(11));
    assert_same(&rt, &nothing, &Span::empty());
}

#[test]
fn turns_truths_over(rt: HostRuntime) {
    assert_same(&rt, &Span::only(1).flipped(), &Span::only(0));
    let any = Span::between(i64::MIN, i64::MAX);
    assert_same(&rt, &any.flipped(), &Span::between(0, 1));
}

#[test]
fn knows_the_members_of_spans(rt: HostRuntime) {
    let all = Span::between(0, 10);
    assert_true(&rt, all.lies_in(0, 10));
    assert_true(&rt, !all.has_member(11));
}

/// One variable x of type INT, and one input.
fn context(rt: &impl Abort, alloc: Global) -> Context {
    frame_of(rt, alloc, &[("x", IlType::Int, 0, 100)])
}

/// The value of x.
fn loaded(rt: &impl Abort, alloc: Global, context: &Context) -> AbstractValue {
    let declared = Span::between(0, 100);
    let source = AbstractValue::source(
        alloc,
        context,
        IlType::Int,
        declared,
        Origin::OfVariable(0),
    );
    source.expect(rt, "memory")
}

fn made(rt: &impl Abort, made: Made) -> AbstractValue {
    made.expect(rt, "memory").expect(rt, "a value")
}

/// The value of x <> 0.
fn compared(rt: &impl Abort, alloc: Global, context: &Context) -> AbstractValue {
    let x = loaded(rt, alloc, context);
    let zero = AbstractValue::plain(alloc, context, IlType::Int, Span::only(0));
    made(rt, applied(alloc, context, Operator::Ne, &x, &zero))
}

/// Whether the input is there.
fn present(rt: &impl Abort, alloc: Global, context: &Context) -> AbstractValue {
    AbstractValue::presence(alloc, context, 0).expect(rt, "memory")
}

/// x <> 0, and the input is there.
fn conjoined(rt: &impl Abort, alloc: Global, context: &Context) -> AbstractValue {
    let differs = compared(rt, alloc, context);
    let here = present(rt, alloc, context);
    made(rt, applied(alloc, context, Operator::And, &differs, &here))
}

/// The span that follows for a variable, if one does.
fn assert_follows(
    rt: &impl Abort,
    follows: &Consequences,
    variable: usize,
    wanted: Option<Option<Span>>,
) {
    assert_same(rt, &follows.variables.get(variable), &wanted);
}

/// What follows for x and the input where both hold; nothing does where they don't.
fn assert_conjoined(rt: &impl Abort, both: &AbstractValue) {
    assert_follows(rt, &both.where_true, 0, Some(Some(Span::between(1, 100))));
    assert_same(rt, &both.where_true.present.get(0), &Some(true));
    assert_follows(rt, &both.where_false, 0, Some(None));
    assert_follows(rt, &both.where_false, 1, None);
}

#[test]
fn knows_what_follows_from_both(rt: HostRuntime) {
    let context = context(&rt, rt.alloc());
    assert_conjoined(&rt, &conjoined(&rt, rt.alloc(), &context));
}

/// Where x is 0 is known, until x is stored.
fn assert_forgets(rt: &impl Abort, alloc: Global, same: AbstractValue) {
    assert_follows(rt, &same.where_true, 0, Some(Some(Span::only(0))));
    let stored = same.forgets(alloc, 0).expect(rt, "memory");
    assert_follows(rt, &stored.where_true, 0, Some(None));
    assert_same(rt, &stored.where_true.variables.filled(), &0);
}

#[test]
fn forgets_what_is_stored(rt: HostRuntime) {
    let context = context(&rt, rt.alloc());
    let same = compared(&rt, rt.alloc(), &context).inverted();
    assert_forgets(&rt, rt.alloc(), same);
}

/// The places of x, the greatest INT, and TRUE among the values of the table.
const X: usize = 0;

const MOST: usize = 1;

const TRUTH: usize = 2;

fn values(rt: &impl Abort, alloc: Global, context: &Context) -> Vec<AbstractValue> {
    let mut values = Vec::new(alloc);
    values.push(loaded(rt, alloc, context)).expect(rt, "memory");
    let most = AbstractValue::plain(alloc, context, IlType::Int, Span::only(32_767));
    values.push(most).expect(rt, "memory");
    let truth = AbstractValue::plain(alloc, context, IlType::Bool, Span::only(1));
    values.push(truth).expect(rt, "memory");
    values
}

/// An operator and its operands, and why it is refused.
static OPERATIONS: [(Operator, usize, usize, Option<RefusalKind>); 8] = [
    (Operator::Add, X, MOST, Some(RefusalKind::Overflow)),
    (Operator::Div, MOST, X, Some(RefusalKind::ZeroDivisor)),
    (Operator::Div, X, MOST, None),
    (Operator::Mod, X, TRUTH, Some(RefusalKind::WrongType)),
    (Operator::And, X, TRUTH, Some(RefusalKind::WrongType)),
    (Operator::Or, TRUTH, TRUTH, None),
    (Operator::Lt, TRUTH, TRUTH, Some(RefusalKind::WrongType)),
    (Operator::Eq, TRUTH, TRUTH, None),
];

fn value<'a>(rt: &impl Abort, values: &'a [AbstractValue], place: usize) -> &'a AbstractValue {
    values.get(place).expect(rt, "a value")
}

/// Why an operator is refused for two of the values.
fn refusal(
    rt: &impl Abort,
    alloc: Global,
    context: &Context,
    operator: Operator,
    first: &AbstractValue,
    second: &AbstractValue,
) -> Option<RefusalKind> {
    let made = applied(alloc, context, operator, first, second);
    made.expect(rt, "memory").err()
}

fn refuse_operations(rt: &impl Abort, alloc: Global, context: &Context, values: &[AbstractValue]) {
    for (operator, first, second, wanted) in &OPERATIONS {
        let first = value(rt, values, *first);
        let second = value(rt, values, *second);
        let found = refusal(rt, alloc, context, *operator, first, second);
        assert_same(rt, &found, wanted);
    }
}

#[test]
fn refuses_operations(rt: HostRuntime) {
    let context = context(&rt, rt.alloc());
    let values = values(&rt, rt.alloc(), &context);
    refuse_operations(&rt, rt.alloc(), &context, &values);
}

/// One of x and x, as x <> 0 chooses.
fn chosen(rt: &impl Abort, alloc: Global, context: &Context) -> AbstractValue {
    let x = loaded(rt, alloc, context);
    let differs = compared(rt, alloc, context);
    made(rt, selected(alloc, context, &differs, &x, &x))
}

/// Why a value of type INT is no BOOL.
fn narrowed(
    rt: &impl Abort,
    alloc: Global,
    context: &Context,
    value: &AbstractValue,
) -> Option<RefusalKind> {
    let narrow = converted(alloc, context, IlType::Int, IlType::Bool, value);
    narrow.expect(rt, "memory").err()
}

fn assert_chosen(rt: &impl Abort, alloc: Global, context: &Context, chosen: &AbstractValue) {
    assert_same(rt, &chosen.span, &Span::between(0, 100));
    let refusal = narrowed(rt, alloc, context, chosen);
    assert_same(rt, &refusal, &Some(RefusalKind::Overflow));
}

#[test]
fn makes_one_of_two_values(rt: HostRuntime) {
    let context = context(&rt, rt.alloc());
    let chosen = chosen(&rt, rt.alloc(), &context);
    assert_chosen(&rt, rt.alloc(), &context, &chosen);
}

/// Whether the input is there, where a value that is known on both ways is TRUE.
fn met(alloc: Global, one: AbstractValue, other: AbstractValue) -> Option<bool> {
    let both = met_value(alloc, Some(one), Some(other))?;
    both.where_true.present.get(0)
}

#[test]
fn meets_values(rt: HostRuntime) {
    let context = context(&rt, rt.alloc());
    let here = present(&rt, rt.alloc(), &context);
    let again = here.copied(rt.alloc()).expect(&rt, "memory");
    assert_same(&rt, &met(rt.alloc(), here, again), &Some(true));
}

#[test]
fn drops_what_follows_on_one_way(rt: HostRuntime) {
    let context = context(&rt, rt.alloc());
    let here = present(&rt, rt.alloc(), &context);
    let plain = AbstractValue::plain(rt.alloc(), &context, IlType::Bool, Span::only(1));
    assert_same(&rt, &met(rt.alloc(), here, plain), &Some(false));
}
