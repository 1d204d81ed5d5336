//! What is known before an instruction, in full.

use crate::tests::full::value::{Follows, FullValue, copied_value, mark_all, met_value};
use facts::TagRange;
use point_types::{IlType, Var};
use std::alloc::{AllocError, Global};
use verifier::abstract_value::Origin;
use verifier::context::Context;
use verifier::refusal::RefusalKind;
use verifier::span::Span;

/// A span for each variable and each input, of each input whether it is present, the deferred values, the last one last,
/// and the result; a value that is nothing is None.
#[derive(PartialEq)]
pub(crate) struct FullFact {
    pub(crate) variables: Vec<Span>,
    pub(crate) inputs: Vec<Span>,
    pub(crate) present: Vec<bool>,
    pub(crate) deferred: Vec<Option<FullValue>>,
    pub(crate) result: Option<FullValue>,
}

/// Whoever drops one makes a call.
impl Drop for FullFact {
    fn drop(self) {
        let FullFact {
            variables: _,
            inputs: _,
            present: _,
            deferred: _,
            result: _,
        } = self;
    }
}

impl FullFact {
    /// What is known before the first instruction: the declared ranges, and nothing more.
    pub(crate) fn entry(alloc: Global, context: &Context) -> Result<FullFact, AllocError> {
        let variables = declared_ranges(alloc, context.variables.as_slice())?;
        let inputs = site_ranges(alloc, context.tags.as_slice())?;
        let present = vec![in alloc; false; context.tags.len()]?;
        Ok(FullFact {
            variables,
            inputs,
            present,
            deferred: Vec::new(alloc),
            result: None,
        })
    }

    /// The same once more.
    pub(crate) fn copied(&self, alloc: Global) -> Result<FullFact, AllocError> {
        let mut copy = self.without_values(alloc)?;
        copy.add_values(alloc, self)?;
        Ok(copy)
    }

    /// The same spans and presences, with nothing deferred and no result.
    fn without_values(&self, alloc: Global) -> Result<FullFact, AllocError> {
        let variables = Vec::from_slice(alloc, self.variables.as_slice())?;
        let inputs = Vec::from_slice(alloc, self.inputs.as_slice())?;
        let present = Vec::from_slice(alloc, self.present.as_slice())?;
        Ok(FullFact {
            variables,
            inputs,
            present,
            deferred: Vec::new(alloc),
            result: None,
        })
    }

    fn add_values(&mut self, alloc: Global, other: &FullFact) -> Result<(), AllocError> {
        self.result = copied_value(alloc, &other.result)?;
        for value in &other.deferred {
            self.deferred.push(copied_value(alloc, value)?)?;
        }
        Ok(())
    }

    /// What holds on both ways that meet; None where their deferred values differ in number.
    pub(crate) fn met(
        &self,
        alloc: Global,
        context: &Context,
        other: &FullFact,
    ) -> Result<Option<FullFact>, AllocError> {
        if self.deferred.len() != other.deferred.len() {
            return Ok(None);
        }
        let mut both = self.copied(alloc)?;
        both.join(alloc, context, other)?;
        Ok(Some(both))
    }

    /// Another way meets this one, with as many deferred values.
    fn join(
        &mut self,
        alloc: Global,
        context: &Context,
        other: &FullFact,
    ) -> Result<(), AllocError> {
        join(self.variables.as_mut_slice(), other.variables.as_slice());
        join(self.inputs.as_mut_slice(), other.inputs.as_slice());
        unmark(self.present.as_mut_slice(), other.present.as_slice());
        self.result = met_value(alloc, context, &self.result, &other.result)?;
        let deferred = self.deferred.as_mut_slice();
        meet_values(alloc, context, deferred, other.deferred.as_slice())
    }

    /// What is known where a value is this truth; None where it can't be.
    pub(crate) fn way_where(
        &self,
        alloc: Global,
        value: &FullValue,
        truth: bool,
    ) -> Result<Option<FullFact>, AllocError> {
        let number = if truth { 1 } else { 0 };
        if !value.span.has_member(number) {
            return Ok(None);
        }
        let mut way = self.copied(alloc)?;
        way.narrow(value.follows(truth));
        way.take(number);
        Ok(way.unless_empty())
    }

    /// The result is this number.
    fn take(&mut self, number: i64) {
        if let Some(result) = &mut self.result {
            result.span = Span::only(number);
        }
    }

    /// This holds too.
    fn narrow(&mut self, follows: &Follows) {
        narrow(self.variables.as_mut_slice(), follows.variables.as_slice());
        narrow(self.inputs.as_mut_slice(), follows.inputs.as_slice());
        mark_all(self.present.as_mut_slice(), follows.present.as_slice());
    }

    /// The same, if something is left of each variable and input.
    fn unless_empty(self) -> Option<FullFact> {
        if any_empty(self.variables.as_slice()) || any_empty(self.inputs.as_slice()) {
            None
        } else {
            Some(self)
        }
    }

    /// The span of a variable or an input, if there is one of its number.
    pub(crate) fn span_of(&self, source: Origin) -> Option<Span> {
        match source {
            Origin::OfVariable(v) => self.variables.get(v).copied(),
            Origin::OfInput(t) => self.inputs.get(t).copied(),
        }
    }

    /// Whether an input is known to be present.
    pub(crate) fn is_present(&self, t: usize) -> bool {
        self.present.get(t).copied().unwrap_or(false)
    }

    /// The result, if it has a value.
    pub(crate) fn any_result(&self) -> Result<&FullValue, RefusalKind> {
        match &self.result {
            Some(result) => Ok(result),
            None => Err(RefusalKind::NoResult),
        }
    }

    /// The result, if it is a BOOL.
    pub(crate) fn bool_result(&self) -> Result<&FullValue, RefusalKind> {
        match &self.result {
            Some(result) if result.kind == IlType::Bool => Ok(result),
            Some(_) => Err(RefusalKind::WrongType),
            None => Err(RefusalKind::NoResult),
        }
    }

    /// A variable has another value now, which lies in a span.
    pub(crate) fn change(&mut self, v: usize, span: Span) {
        if let Some(before) = self.variables.get_mut(v) {
            *before = span;
        }
        forget(&mut self.result, v);
        forget_all(self.deferred.as_mut_slice(), v);
    }

    /// The result equals a variable.
    pub(crate) fn name_result(&mut self, v: usize) {
        if let Some(result) = &mut self.result {
            result.origin = Some(Origin::OfVariable(v));
        }
    }
}

fn declared_ranges(alloc: Global, variables: &[Var]) -> Result<Vec<Span>, AllocError> {
    variables
        .iter()
        .map(|it| Span::between(it.low, it.high))
        .collect(alloc)
}

fn site_ranges(alloc: Global, tags: &[TagRange]) -> Result<Vec<Span>, AllocError> {
    tags.iter()
        .map(|it| Span::between(it.low, it.high))
        .collect(alloc)
}

/// The least spans over both.
fn join(spans: &mut [Span], others: &[Span]) {
    for (number, other) in others.iter().enumerate() {
        if let Some(span) = spans.get_mut(number) {
            *span = span.joined(*other);
        }
    }
}

/// What isn't marked there isn't marked here any more.
fn unmark(marks: &mut [bool], others: &[bool]) {
    for (number, other) in others.iter().enumerate() {
        if let Some(mark) = marks.get_mut(number) {
            *mark = *mark && *other;
        }
    }
}

/// Of each deferred value what is known on both ways.
fn meet_values(
    alloc: Global,
    context: &Context,
    values: &mut [Option<FullValue>],
    others: &[Option<FullValue>],
) -> Result<(), AllocError> {
    for (number, other) in others.iter().enumerate() {
        if let Some(value) = values.get_mut(number) {
            *value = met_value(alloc, context, value, other)?;
        }
    }
    Ok(())
}

/// What is left of spans where others, if known, hold too.
fn narrow(spans: &mut [Span], others: &[Option<Span>]) {
    for (number, other) in others.iter().enumerate() {
        if let (Some(span), Some(other)) = (spans.get_mut(number), other) {
            *span = span.intersected(*other);
        }
    }
}

fn any_empty(spans: &[Span]) -> bool {
    for span in spans {
        if span.is_empty() {
            return true;
        }
    }
    false
}

/// A variable has another value now.
fn forget(value: &mut Option<FullValue>, v: usize) {
    if let Some(known) = value {
        known.forget(v);
    }
}

fn forget_all(values: &mut [Option<FullValue>], v: usize) {
    for value in values {
        forget(value, v);
    }
}
