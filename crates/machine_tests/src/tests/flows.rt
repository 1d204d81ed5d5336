//! Facts by the instructions that make them.

ghost use Rattle.std.specs.Prelude.{◌<◌, ◌+◌, ◌^◌};

use crate::tests::{assert_same, assert_true, frame_of};
use crate::worked::programs::DeclaredVariable;
use point_types::{Condition, IlType, Items, Operator};
use scan_code::Op;
use std::alloc::Global;
use std::process::Abort;
use verifier::context::Context;
use verifier::fact::Fact;
use verifier::refusal::RefusalKind;

static VARIABLES: [DeclaredVariable; 2] = [
    ("x", IlType::Int, 0, 100),
    ("y", IlType::Int, -32_768, 32_767),
];

/// Those variables, and an input that may be missing.
fn context(rt: &impl Abort, alloc: Global) -> Context {
    frame_of(rt, alloc, &VARIABLES)
}

fn entry(rt: &impl Abort, alloc: Global, context: &Context) -> Fact {
    Fact::entry(alloc, context).expect(rt, "memory")
}

/// The first refusal on the way through instructions in their order.
fn refusal(
    rt: &impl Abort,
    alloc: Global,
    context: &Context,
    ops: &[Op],
) -> Option<(usize, RefusalKind)> {
    let mut facts = Vec::new(alloc);
    facts.push(entry(rt, alloc, context)).expect(rt, "memory");
    for (at, op) in ops.iter().enumerate() {
        if let Some(kind) = refused(rt, alloc, context, &mut facts, at, *op) {
            return Some((at, kind));
        }
    }
    None
}

/// Why an instruction is refused. Else the last of its ways takes the place of the last fact, if there is one.
fn refused(
    rt: &impl Abort,
    alloc: Global,
    context: &Context,
    facts: &mut Vec<Fact>,
    at: usize,
    op: Op,
) -> Option<RefusalKind>
    requires { at + 1 < 2 ^ 64 }
{
    let fact = facts.pop()?;
    match fact.flow(alloc, context, at, op).expect(rt, "memory") {
        Ok(ways) => {
            keep_last(rt, facts, ways);
            None
        }
        Err(kind) => Some(kind),
    }
}

fn keep_last(rt: &impl Abort, facts: &mut Vec<Fact>, ways: Items<(usize, Fact)>) {
    if let Some((_, fact)) = ways.into_vec().pop() {
        facts.push(fact).expect(rt, "memory");
    }
}

const ONE: Op = Op::LoadNumber(IlType::Int, 1);

const NOUGHT: Op = Op::LoadNumber(IlType::Int, 0);

const HUNDRED: Op = Op::LoadNumber(IlType::Int, 100);

fn assert_refusal(
    rt: &impl Abort,
    alloc: Global,
    context: &Context,
    ops: &[Op],
    wanted: Option<(usize, RefusalKind)>,
) {
    assert_same(rt, &refusal(rt, alloc, context, ops), &wanted);
}

const OVER_ITS_TYPE: &[Op] = &[
    Op::LoadVariable(1),
    Op::Push,
    ONE,
    Op::Apply(Operator::Add),
    Op::StoreVariable(1),
    Op::End,
];

const OVER_ITS_RANGE: &[Op] = &[
    Op::LoadVariable(0),
    Op::Push,
    ONE,
    Op::Apply(Operator::Add),
    Op::StoreVariable(0),
    Op::End,
];

const UNTESTED_INPUT: &[Op] = &[Op::LoadInput(0), Op::End];

const TESTED_INPUT: &[Op] = &[
    Op::LoadPresence(0),
    Op::Return(Condition::IfFalse),
    Op::LoadInput(0),
    Op::End,
];

const BY_A_VARIABLE: &[Op] = &[
    HUNDRED,
    Op::Push,
    Op::LoadVariable(0),
    Op::Apply(Operator::Div),
    Op::End,
];

const BY_A_TESTED_VARIABLE: &[Op] = &[
    Op::LoadVariable(0),
    Op::Push,
    NOUGHT,
    Op::Apply(Operator::Ne),
    Op::Return(Condition::IfFalse),
    HUNDRED,
    Op::Push,
    Op::LoadVariable(0),
    Op::Apply(Operator::Div),
    Op::StoreVariable(0),
    Op::End,
];

const BY_A_VARIABLE_STORED_BEHIND_ITS_TEST: &[Op] = &[
    Op::LoadVariable(0),
    Op::Push,
    NOUGHT,
    Op::Apply(Operator::Ne),
    Op::Push,
    NOUGHT,
    Op::StoreVariable(0),
    Op::LoadBool(true),
    Op::Apply(Operator::And),
    Op::Return(Condition::IfFalse),
    HUNDRED,
    Op::Push,
    Op::LoadVariable(0),
    Op::Apply(Operator::Div),
    Op::End,
];

const DEFERRED_TWICE: &[Op] = &[ONE, Op::Push, ONE, Op::Push];

const BACK_TO_ITSELF: &[Op] = &[Op::Jump(Condition::Always, 0)];

// Each list of instructions is passed on its own: in one table they take the prover much longer.
fn assert_stores_and_presences(rt: &impl Abort, alloc: Global, context: &Context) {
    assert_refusal(
        rt,
        alloc,
        context,
        OVER_ITS_TYPE,
        Some((3, RefusalKind::Overflow)),
    );
    assert_refusal(
        rt,
        alloc,
        context,
        OVER_ITS_RANGE,
        Some((4, RefusalKind::StoreRange)),
    );
    assert_refusal(
        rt,
        alloc,
        context,
        UNTESTED_INPUT,
        Some((0, RefusalKind::MayBeMissing)),
    );
    assert_refusal(rt, alloc, context, TESTED_INPUT, None);
}

fn assert_divisors_and_deferred(rt: &impl Abort, alloc: Global, context: &Context) {
    assert_refusal(
        rt,
        alloc,
        context,
        BY_A_VARIABLE,
        Some((3, RefusalKind::ZeroDivisor)),
    );
    assert_refusal(rt, alloc, context, BY_A_TESTED_VARIABLE, None);
    assert_refusal(
        rt,
        alloc,
        context,
        BY_A_VARIABLE_STORED_BEHIND_ITS_TEST,
        Some((13, RefusalKind::ZeroDivisor)),
    );
    assert_refusal(
        rt,
        alloc,
        context,
        DEFERRED_TWICE,
        Some((3, RefusalKind::Stack)),
    );
    assert_refusal(
        rt,
        alloc,
        context,
        BACK_TO_ITSELF,
        Some((0, RefusalKind::Jump)),
    );
}

#[test]
fn refuses_the_first_wrong_instruction(rt: HostRuntime) {
    let context = context(&rt, rt.alloc());
    assert_stores_and_presences(&rt, rt.alloc(), &context);
    assert_divisors_and_deferred(&rt, rt.alloc(), &context);
}

fn copy(rt: &impl Abort, alloc: Global, fact: &Fact) -> Fact {
    fact.copied(alloc).expect(rt, "memory")
}

fn meets(rt: &impl Abort, alloc: Global, one: Fact, other: Fact) -> bool {
    one.meet(alloc, other).expect(rt, "memory").is_some()
}

fn assert_meets_itself(rt: &impl Abort, alloc: Global, fact: Fact) {
    let other = copy(rt, alloc, &fact);
    assert_same(rt, &other.depth(), &0);
    assert_true(rt, meets(rt, alloc, fact, other));
}

#[test]
fn meets_facts(rt: HostRuntime) {
    let context = context(&rt, rt.alloc());
    assert_meets_itself(&rt, rt.alloc(), entry(&rt, rt.alloc(), &context));
}
