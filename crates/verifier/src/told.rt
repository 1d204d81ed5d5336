//! What is known before an instruction, as it is told.
ghost use Rattle.std.specs.Prelude.{◌≡◌, IfOk, map, option_map};
ghost use Rattle.verifier.specs.Passing.{stood};
ghost use Rattle.verifier.specs.Told.{shown, standing_beside, told_beside, told_of};

use crate::arrived::Arrived;
use facts::abstract_value::AbstractValue;
use facts::context::Context;
use facts::fact::Fact;
use facts::span::Span;
use point_types::{IlType, Items};
use std::alloc::{AllocError, Global};

/// A value: its type, and the span that it lies in.
#[derive(Clone, Copy, PartialEq, Eq, Debug)]
pub struct Shown {
    pub kind: IlType,
    pub span: Span,
}

/// What is told of what is known before an instruction: the result and the deferred values, the last one
/// first, where there is such a value and something is known of it; by their numbers, the variables and
/// the tags with a span that isn't the declared range; and the inputs that are present.
#[derive(Drop)]
pub struct Told {
    pub result: Option<Shown>,
    pub deferred: Items<Option<Shown>>,
    pub variables: Items<(usize, Span)>,
    pub inputs: Items<(usize, Span)>,
    pub present: Items<usize>,
}

/// What is told before an instruction: that no path reaches it, what is known, or that ways with different
/// numbers of deferred values meet.
#[derive(Drop)]
pub enum Standing {
    Unreached,
    Known(Told),
    Clash,
}

/// What is told of what is known.
pub fn told_of(alloc: Global, context: &Context, fact: &Fact) -> Result<Told, AllocError>
    ensures { IfOk result (λ told. told ≡ told_of context.now fact.now) }
{
    let entry = Fact::entry(alloc, context)?;
    told_beside(alloc, &entry, fact)
}

/// The same beside what is known at entry.
pub(crate) fn told_beside(alloc: Global, entry: &Fact, fact: &Fact) -> Result<Told, AllocError>
    ensures { IfOk result (λ told. told ≡ told_beside entry.now fact.now) }
{
    Ok(Told {
        result: shown_if(&fact.result),
        deferred: all_shown(alloc, fact.deferred.as_slice())?,
        variables: fact.variables.differing(alloc, &entry.variables)?,
        inputs: fact.inputs.differing(alloc, &entry.inputs)?,
        present: fact.present.numbers(alloc)?,
    })
}

/// What is told before an instruction, beside what is known at entry.
pub(crate) fn standing_beside(
    alloc: Global,
    entry: &Fact,
    slot: &Arrived<Fact>,
) -> Result<Standing, AllocError>
    ensures { IfOk result (λ standing. standing ≡ standing_beside entry.now (stood (λ fact. fact) slot.now)) }
{
    match slot {
        Arrived::Nothing => Ok(Standing::Unreached),
        Arrived::AbstractValue(fact) => Ok(Standing::Known(told_beside(alloc, entry, fact)?)),
        Arrived::Clash => Ok(Standing::Clash),
    }
}

/// A value, if there is one.
fn shown_if(value: &Option<AbstractValue>) -> Option<Shown>
    ensures { result ≡ option_map shown value.now }
{
    match value {
        Some(known) => Some(Shown {
            kind: known.kind,
            span: known.span,
        }),
        None => None,
    }
}

/// Values, each if there is one.
fn all_shown(
    alloc: Global,
    values: &[Option<AbstractValue>],
) -> Result<Items<Option<Shown>>, AllocError>
    ensures { IfOk result (λ all. all ≡ map (option_map shown) values.now) }
{
    let mut all = Vec::with_capacity(alloc, values.len())?;
    for value in values {
        all.push(shown_if(value))?;
    }
    Ok(Items::from_vec(all))
}
