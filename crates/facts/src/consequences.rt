//! What follows for variables and presences from a truth.
ghost use Rattle.std.specs.Prelude.{◌≡◌, IfOk, OnOk, true, None, Some, map, option_and_then, slice_get, slice_set};
ghost use Rattle.facts.specs.Fact.{both_spans, met_set, nothing_for, nothing_like, same_consequences, same_list, same_optional, united, with_span, zipped};
ghost use Rattle.facts.specs.Flow.{without};

use crate::abstract_value::{Consequences, Origin};
use crate::present_inputs::PresentInputs;
use crate::span::Span;
use crate::sparse_list::SparseList;
use std::alloc::{AllocError, Global};

impl Consequences {
    /// Nothing follows, for so many variables and inputs; takes no memory.
    pub fn none(alloc: Global, variables: usize, inputs: usize) -> Consequences
        ensures { result ≡ nothing_for variables inputs }
    {
        Consequences {
            variables: SparseList::empty(alloc, variables),
            inputs: SparseList::empty(alloc, inputs),
            present: PresentInputs::none(alloc, inputs),
        }
    }

    /// The same once more.
    pub fn copied(&self, alloc: Global) -> Result<Consequences, AllocError>
        ensures { IfOk result (λ c. c ≡ self.now) }
    {
        Ok(Consequences {
            variables: self.variables.copied(alloc)?,
            inputs: self.inputs.copied(alloc)?,
            present: self.present.copied(alloc)?,
        })
    }

    /// What follows where both hold; two spans of one variable or input are intersected.
    pub(crate) fn united(
        &self,
        alloc: Global,
        other: &Consequences,
    ) -> Result<Consequences, AllocError>
        ensures { IfOk result (λ c. c ≡ united self.now other.now) }
    {
        Ok(Consequences {
            variables: both_of(alloc, &self.variables, &other.variables)?,
            inputs: both_of(alloc, &self.inputs, &other.inputs)?,
            present: self.present.either(alloc, &other.present)?,
        })
    }

    /// And what it equals, if anything, lies in a span.
    pub(crate) fn with_span(
        self,
        alloc: Global,
        origin: Option<Origin>,
        span: Span,
    ) -> Result<Consequences, AllocError>
        ensures { IfOk result (λ c. c ≡ with_span origin span self) }
    {
        let mut tighter = self;
        tighter.tighten(alloc, origin, span)?;
        Ok(tighter)
    }

    /// What it equals, if anything, lies in a span too.
    fn tighten(
        &mut self,
        alloc: Global,
        origin: Option<Origin>,
        span: Span,
    ) -> Result<(), AllocError>
        ensures { OnOk result (self.new ≡ with_span origin span self.old) }
    {
        match origin {
            None => Ok(()),
            Some(Origin::OfVariable(v)) => {
                self.variables = tightened(alloc, &self.variables, v, span)?;
                Ok(())
            }
            Some(Origin::OfInput(t)) => {
                self.inputs = tightened(alloc, &self.inputs, t, span)?;
                Ok(())
            }
        }
    }

    /// And this input has a value.
    pub(crate) fn with_presence(self, alloc: Global, t: usize) -> Result<Consequences, AllocError>
        ensures { IfOk result (λ c. c ≡ record self { present = slice_set self.present t true }) }
    {
        let mut more = self;
        more.present = more.present.with(alloc, t)?;
        Ok(more)
    }

    /// What still follows once a variable has another value.
    pub(crate) fn without(self, alloc: Global, v: usize) -> Result<Consequences, AllocError>
        ensures { IfOk result (λ c. c ≡ without v self) }
    {
        let mut left = self;
        left.forget(alloc, v)?;
        Ok(left)
    }

    /// A variable has another value now.
    pub(crate) fn forget(&mut self, alloc: Global, v: usize) -> Result<(), AllocError>
        ensures { OnOk result (self.new ≡ without v self.old) }
    {
        self.variables = self.variables.with(alloc, v, None)?;
        Ok(())
    }

    /// Whether the same follows from another truth.
    pub(crate) fn same(&self, other: &Consequences) -> bool
        ensures { result ≡ same_consequences self.now other.now }
    {
        same_spans(&self.variables, &other.variables)
            && same_spans(&self.inputs, &other.inputs)
            && self.present.same(&other.present)
    }

    /// Nothing follows, for as many variables and inputs; takes no memory.
    pub(crate) fn nothing_like(&self, alloc: Global) -> Consequences
        ensures { result ≡ nothing_like self.now }
    {
        Consequences {
            variables: emptied(alloc, &self.variables),
            inputs: emptied(alloc, &self.inputs),
            present: self.present.emptied(alloc),
        }
    }

    /// What follows on both ways that meet: all or nothing.
    pub fn met(self, alloc: Global, other: Consequences) -> Consequences
        ensures { result ≡ met_set self other }
    {
        let mut both = self;
        both.meet(alloc, &other);
        both
    }

    /// Another way meets this one.
    pub(crate) fn meet(&mut self, alloc: Global, other: &Consequences)
        ensures { self.new ≡ met_set self.old other.now }
    {
        if !self.same(other) {
            *self = self.nothing_like(alloc);
        }
    }
}

/// Both spans of each, intersected.
fn both_of(
    alloc: Global,
    ones: &SparseList<Span>,
    others: &SparseList<Span>,
) -> Result<SparseList<Span>, AllocError>
    ensures { IfOk result (λ spans. spans ≡ zipped both_spans ones.now others.now) }
{
    let mut spans = SparseList::empty(alloc, 0);
    let (mut ones, mut others) = (ones.rest(), others.rest());
    while let Some(one) = ones.next() {
        let Some(other) = others.next() else {
            break;
        };
        spans.push(both(one, other))?;
    }
    Ok(spans)
}

/// Both spans, intersected, or the one that there is.
fn both(one: Option<Span>, other: Option<Span>) -> Option<Span>
    ensures { result ≡ both_spans one other }
{
    match (one, other) {
        (None, _) => other,
        (Some(_), None) => one,
        (Some(one), Some(other)) => Some(one.intersected(other)),
    }
}

/// With one more span at a number.
fn tightened(
    alloc: Global,
    spans: &SparseList<Span>,
    at: usize,
    span: Span,
) -> Result<SparseList<Span>, AllocError>
    ensures { IfOk result (λ left. left ≡ slice_set spans.now at (both_spans (option_and_then (λ o. o) (slice_get spans.now at)) (Some span))) }
{
    let left = both(span_at(spans, at), Some(span));
    spans.with(alloc, at, left)
}

/// The span at a number, if there is one.
fn span_at(spans: &SparseList<Span>, at: usize) -> Option<Span>
    ensures { result ≡ option_and_then (λ o. o) (slice_get spans.now at) }
{
    match spans.get(at) {
        Some(span) => span,
        None => None,
    }
}

/// No span for each.
fn emptied(alloc: Global, spans: &SparseList<Span>) -> SparseList<Span>
    ensures { result ≡ map (λ s. None) spans.now }
{
    SparseList::empty(alloc, spans.len())
}

/// Whether two lists of spans are the same.
fn same_spans(ones: &SparseList<Span>, others: &SparseList<Span>) -> bool
    ensures { result ≡ same_list same_optional ones.now others.now }
{
    let (mut ones, mut others) = (ones.rest(), others.rest());
    while let Some(one) = ones.next() {
        let Some(other) = others.next() else {
            return false;
        };
        if !same_span(one, other) {
            return false;
        }
    }
    match others.next() {
        Some(_) => false,
        None => true,
    }
}

/// Whether two spans are the same, or none.
fn same_span(one: Option<Span>, other: Option<Span>) -> bool
    ensures { result ≡ same_optional one other }
{
    match (one, other) {
        (None, None) => true,
        (Some(one), Some(other)) => one.same(other),
        _ => false,
    }
}
