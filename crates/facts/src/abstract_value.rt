//! What is known of one value: its type, its span, where it came from, and what follows from it.
ghost use Rattle.std.specs.Prelude.{◌≡◌, IfOk, None, Some, if◌then◌else◌};
ghost use Rattle.point_types.specs.Value.{is_bool};
ghost use Rattle.facts.specs.Span.{only};

use crate::context::Context;
use crate::present_inputs::PresentInputs;
use crate::span::Span;
use crate::sparse_list::SparseList;
use point_types::IlType;
use std::alloc::{AllocError, Global};

/// A variable or an input of the image, by its number, that a value equals.
#[derive(Clone, Copy, PartialEq, Eq, Debug)]
pub enum Origin {
    OfVariable(usize),
    OfInput(usize),
}

/// What follows from a truth: for each variable and each tag a span that it lies in, if any, and
/// whether the tag's input is present. Only those are kept of which something follows.
pub struct Consequences {
    pub variables: SparseList<Span>,
    pub inputs: SparseList<Span>,
    pub present: PresentInputs,
}

/// A call for whoever drops one, as of [`SparseList`].
impl Drop for Consequences {
    fn drop(self) {
        let Consequences {
            variables: _,
            inputs: _,
            present: _,
        } = self;
    }
}

/// What is known of a value: its type, a span that it lies in, what it equals, and what follows where it
/// is TRUE and where it is FALSE.
pub struct AbstractValue {
    pub kind: IlType,
    pub span: Span,
    pub origin: Option<Origin>,
    pub where_true: Consequences,
    pub where_false: Consequences,
}

/// A call for whoever drops one, as of [`SparseList`].
impl Drop for AbstractValue {
    fn drop(self) {
        let AbstractValue {
            kind: _,
            span: _,
            origin: _,
            where_true: _,
            where_false: _,
        } = self;
    }
}

impl AbstractValue {
    ghost use Rattle.std.specs.Prelude.{◌≡◌, IfOk, OnOk, Some, if◌then◌else◌};
    ghost use Rattle.point_types.specs.Value.{number_of};
    ghost use Rattle.facts.specs.Branches.{joined_known};
    ghost use Rattle.facts.specs.Fact.{OfVariable, met_known};
    ghost use Rattle.facts.specs.Span.{only};
    ghost use Rattle.facts.specs.Flow.{forgets, inverted_known, plain_value, presence_value, source_value};

    /// A value that equals nothing known, and of which nothing follows.
    pub fn plain(alloc: Global, context: &Context, kind: IlType, span: Span) -> AbstractValue
        ensures { result ≡ plain_value context.now kind span }
    {
        AbstractValue {
            kind,
            span,
            origin: None,
            where_true: nothing(alloc, context),
            where_false: nothing(alloc, context),
        }
    }

    /// The value of a variable or an input. Where it is a BOOL, it is 1 where TRUE, and 0 where FALSE.
    pub fn source(
        alloc: Global,
        context: &Context,
        kind: IlType,
        span: Span,
        origin: Origin,
    ) -> Result<AbstractValue, AllocError>
        ensures { IfOk result (λ v. v ≡ source_value context.now kind span origin) }
    {
        Ok(AbstractValue {
            kind,
            span,
            origin: Some(origin),
            where_true: own(alloc, context, kind, origin, 1)?,
            where_false: own(alloc, context, kind, origin, 0)?,
        })
    }

    /// Whether an input has a value; where that is TRUE, it has one.
    pub fn presence(alloc: Global, context: &Context, t: usize) -> Result<AbstractValue, AllocError>
        ensures { IfOk result (λ v. v ≡ presence_value context.now t) }
    {
        Ok(AbstractValue {
            kind: IlType::Bool,
            span: Span::between(0, 1),
            origin: None,
            where_true: nothing(alloc, context).with_presence(alloc, t)?,
            where_false: nothing(alloc, context),
        })
    }

    /// The same once more.
    pub fn copied(&self, alloc: Global) -> Result<AbstractValue, AllocError>
        ensures { IfOk result (λ v. v ≡ self.now) }
    {
        Ok(AbstractValue {
            kind: self.kind,
            span: self.span,
            origin: self.origin,
            where_true: self.where_true.copied(alloc)?,
            where_false: self.where_false.copied(alloc)?,
        })
    }

    /// NOT of a BOOL: what follows changes places.
    pub fn inverted(self) -> AbstractValue
        ensures { result ≡ inverted_known self }
    {
        let AbstractValue {
            kind,
            span,
            origin: _,
            where_true,
            where_false,
        } = self;
        AbstractValue {
            kind,
            span: span.flipped(),
            origin: None,
            where_true: where_false,
            where_false: where_true,
        }
    }

    /// What is still known once a variable has another value.
    pub fn forgets(self, alloc: Global, v: usize) -> Result<AbstractValue, AllocError>
        ensures { IfOk result (λ kept. kept ≡ forgets v self) }
    {
        let mut kept = self;
        kept.forget(alloc, v)?;
        Ok(kept)
    }

    /// A variable has another value now.
    pub(crate) fn forget(&mut self, alloc: Global, v: usize) -> Result<(), AllocError>
        ensures { OnOk result (self.new ≡ forgets v self.old) }
    {
        self.origin = origin_without(self.origin, v);
        self.where_true.forget(alloc, v)?;
        self.where_false.forget(alloc, v)
    }

    /// What is known of it in a variable that gets it: it equals that variable.
    pub fn stored(self, alloc: Global, v: usize) -> Result<AbstractValue, AllocError>
        ensures { IfOk result (λ value. value ≡ record (forgets v self) { origin = Some (OfVariable v) }) }
    {
        let mut value = self;
        value.forget(alloc, v)?;
        value.origin = Some(Origin::OfVariable(v));
        Ok(value)
    }

    /// The same where it is this truth.
    pub(crate) fn being(&self, alloc: Global, truth: bool) -> Result<AbstractValue, AllocError>
        ensures { IfOk result (λ value. value ≡ record self.now { span = only (number_of truth) }) }
    {
        let mut value = self.copied(alloc)?;
        value.span = Span::only(if truth { 1 } else { 0 });
        Ok(value)
    }

    /// What follows where it is this truth.
    pub fn follows(&self, truth: bool) -> &Consequences
        ensures { result.now ≡ (if truth then self.now.where_true else self.now.where_false) }
    {
        if truth {
            &self.where_true
        } else {
            &self.where_false
        }
    }

    /// What is known on both ways that meet; nothing where the types differ.
    pub fn met(self, alloc: Global, other: AbstractValue) -> Option<AbstractValue>
        ensures { result ≡ met_known self other }
    {
        self.meet(alloc, &other)
    }

    /// The same with a value that is lent.
    fn meet(self, alloc: Global, other: &AbstractValue) -> Option<AbstractValue>
        ensures { result ≡ met_known self other.now }
    {
        if self.kind == other.kind {
            let mut both = self;
            both.join(alloc, other);
            Some(both)
        } else {
            None
        }
    }

    /// Another way meets this one, with a value of the same type.
    fn join(&mut self, alloc: Global, other: &AbstractValue)
        ensures { self.new ≡ joined_known self.old other.now }
    {
        self.span = self.span.joined(other.span);
        self.origin = met_origin(self.origin, other.origin);
        self.where_true.meet(alloc, &other.where_true);
        self.where_false.meet(alloc, &other.where_false);
    }
}

ghost use Rattle.facts.specs.Fact.{OfVariable, met_origin, met_value, with_span};
ghost use Rattle.facts.specs.Flow.{names, none_of};

/// What is known of two values, or nothings, on ways that meet.
pub fn met_value(
    alloc: Global,
    one: Option<AbstractValue>,
    other: Option<AbstractValue>,
) -> Option<AbstractValue>
    ensures { result ≡ met_value one other }
{
    meet_value(alloc, one, &other)
}

/// The same with a value that is lent.
pub(crate) fn meet_value(
    alloc: Global,
    one: Option<AbstractValue>,
    other: &Option<AbstractValue>,
) -> Option<AbstractValue>
    ensures { result ≡ met_value one other.now }
{
    match (one, other) {
        (Some(one), Some(other)) => one.meet(alloc, other),
        _ => None,
    }
}

/// Nothing follows, for the context's variables and inputs; takes no memory.
pub fn nothing(alloc: Global, context: &Context) -> Consequences
    ensures { result ≡ none_of context.now }
{
    Consequences::none(alloc, context.variables.len(), context.tags.len())
}

/// What follows where a source is this truth: that it is this number, if it is a BOOL.
fn own(
    alloc: Global,
    context: &Context,
    kind: IlType,
    origin: Origin,
    truth: i64,
) -> Result<Consequences, AllocError>
    ensures { IfOk result (λ c. c ≡ (if is_bool kind then with_span (Some origin) (only truth) (none_of context.now) else none_of context.now)) }
{
    let none = nothing(alloc, context);
    if kind == IlType::Bool {
        none.with_span(alloc, Some(origin), Span::only(truth))
    } else {
        Ok(none)
    }
}

/// What a value still equals once a variable has another value.
fn origin_without(origin: Option<Origin>, v: usize) -> Option<Origin>
    ensures { result ≡ (if names (OfVariable v) origin then None else origin) }
{
    match origin {
        Some(Origin::OfVariable(u)) if u == v => None,
        _ => origin,
    }
}

/// What a value equals on both ways that meet.
fn met_origin(one: Option<Origin>, other: Option<Origin>) -> Option<Origin>
    ensures { result ≡ met_origin one other }
{
    match (one, other) {
        (Some(a), Some(b)) if a == b => Some(a),
        _ => None,
    }
}
