//! The verifier's facts, spelled out, beside the full ones.

ghost use Rattle.std.specs.Prelude.{◌<◌, length};

use crate::tests::full::fact::FullFact;
use crate::tests::full::pass::{Before, Passed, full_pass};
use crate::tests::full::value::{Follows, FullValue};
use std::alloc::{AllocError, Global};
use std::process::Abort;
use verifier::abstract_value::{AbstractValue, Consequences};
use verifier::arrived::Arrived;
use verifier::changed_spans::ChangedSpans;
use verifier::context::Context;
use verifier::fact::Fact;
use verifier::known::known;
use verifier::pass::pass;
use verifier::present_inputs::PresentInputs;
use verifier::refusal::RefusalKind;
use verifier::span::Span;

/// What the verifier says otherwise of a program than full facts do.
#[derive(Clone, Copy, PartialEq, Eq, Debug)]
pub(crate) enum Difference {
    /// Whether it is refused, at which instruction, or why.
    Verdict,
    /// What is known before this instruction.
    FactAt(usize),
}

/// The first difference in a program, whose facts are told up to the first instruction that is refused.
pub(crate) fn first_difference(
    rt: &impl Abort,
    alloc: Global,
    context: &Context,
) -> Option<Difference> {
    assert!(rt; context.size() < 65_536);
    let full = full_pass(alloc, context).expect(rt, "memory");
    if full.refusal != sparse_refusal(alloc, context) {
        return Some(Difference::Verdict);
    }
    for at in 0..context.size() {
        if !is_same_at(rt, alloc, context, &full, at) {
            return Some(Difference::FactAt(at));
        }
        if full.is_refused_at(at) {
            return None;
        }
    }
    None
}

/// The first instruction that is refused by the verifier's pass, and why.
fn sparse_refusal(alloc: Global, context: &Context) -> Option<(usize, RefusalKind)>
    requires { length context.now.listing < 65536 }
{
    match pass::<Fact>(alloc, context) {
        Ok(_) => None,
        Err(refusal) => Some((refusal.at.number(), refusal.kind)),
    }
}

/// Whether the verifier knows before an instruction what the full facts say.
fn is_same_at(rt: &impl Abort, alloc: Global, context: &Context, full: &Passed, at: usize) -> bool
    requires few { length context.now.listing < 65536 }
    requires within { at < length context.now.listing }
{
    match (known(alloc, context, at), full.before.get(at)) {
        (Ok(Arrived::Nothing), Some(Before::Unreached)) => true,
        (Ok(Arrived::Clash), Some(Before::Clash)) => true,
        (Ok(Arrived::AbstractValue(fact)), Some(Before::Known(wanted))) => {
            spelled(alloc, context, &fact).expect(rt, "memory") == *wanted
        }
        _ => false,
    }
}

/// A fact of the verifier's, spelled out.
fn spelled(alloc: Global, context: &Context, fact: &Fact) -> Result<FullFact, AllocError> {
    let variables = spelled_spans(alloc, &fact.variables, context.variables.len())?;
    let inputs = spelled_spans(alloc, &fact.inputs, context.tags.len())?;
    let present = spelled_marks(alloc, &fact.present, context.tags.len())?;
    let deferred = spelled_values(alloc, context, fact.deferred.as_slice())?;
    let result = spelled_value(alloc, context, &fact.result)?;
    Ok(FullFact {
        variables,
        inputs,
        present,
        deferred,
        result,
    })
}

fn spelled_spans(
    alloc: Global,
    changes: &ChangedSpans,
    count: usize,
) -> Result<Vec<Span>, AllocError> {
    let mut spans = Vec::new(alloc);
    for number in 0..count {
        if let Some(span) = changes.get(number) {
            spans.push(span)?;
        }
    }
    Ok(spans)
}

fn spelled_marks(
    alloc: Global,
    present: &PresentInputs,
    count: usize,
) -> Result<Vec<bool>, AllocError> {
    let mut marks = Vec::new(alloc);
    for number in 0..count {
        if let Some(is_present) = present.get(number) {
            marks.push(is_present)?;
        }
    }
    Ok(marks)
}

/// The verifier has the last deferred value first.
fn spelled_values(
    alloc: Global,
    context: &Context,
    values: &[Option<AbstractValue>],
) -> Result<Vec<Option<FullValue>>, AllocError> {
    let mut spelled = Vec::new(alloc);
    for value in values.iter().rev() {
        spelled.push(spelled_value(alloc, context, value)?)?;
    }
    Ok(spelled)
}

fn spelled_value(
    alloc: Global,
    context: &Context,
    value: &Option<AbstractValue>,
) -> Result<Option<FullValue>, AllocError> {
    let Some(value) = value else {
        return Ok(None);
    };
    let where_true = spelled_set(alloc, context, &value.where_true)?;
    let where_false = spelled_set(alloc, context, &value.where_false)?;
    Ok(Some(FullValue {
        kind: value.kind,
        span: value.span,
        origin: value.origin,
        where_true,
        where_false,
    }))
}

fn spelled_set(
    alloc: Global,
    context: &Context,
    follows: &Consequences,
) -> Result<Follows, AllocError> {
    let mut variables = Vec::new(alloc);
    for number in 0..context.variables.len() {
        if let Some(span) = follows.variables.get(number) {
            variables.push(span)?;
        }
    }
    let inputs = spelled_inputs(alloc, context, follows)?;
    let present = spelled_marks(alloc, &follows.present, context.tags.len())?;
    Ok(Follows {
        variables,
        inputs,
        present,
    })
}

fn spelled_inputs(
    alloc: Global,
    context: &Context,
    follows: &Consequences,
) -> Result<Vec<Option<Span>>, AllocError> {
    let mut inputs = Vec::new(alloc);
    for number in 0..context.tags.len() {
        if let Some(span) = follows.inputs.get(number) {
            inputs.push(span)?;
        }
    }
    Ok(inputs)
}
