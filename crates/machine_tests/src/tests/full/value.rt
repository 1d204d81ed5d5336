//! What is known of one value, in full.

use point_types::IlType;
use std::alloc::{AllocError, Global};
use verifier::abstract_value::Origin;
use verifier::context::Context;
use verifier::span::Span;

/// What follows from a truth: of each variable and each input the span in which it then lies, if one is known, and of each
/// input whether it is present.
#[derive(PartialEq)]
pub(crate) struct Follows {
    pub(crate) variables: Vec<Option<Span>>,
    pub(crate) inputs: Vec<Option<Span>>,
    pub(crate) present: Vec<bool>,
}

/// Whoever drops one makes a call.
impl Drop for Follows {
    fn drop(self) {
        let Follows {
            variables: _,
            inputs: _,
            present: _,
        } = self;
    }
}

impl Follows {
    /// Nothing follows.
    pub(crate) fn nothing(alloc: Global, context: &Context) -> Result<Follows, AllocError> {
        let variables = vec![in alloc; None; context.variables.len()]?;
        let inputs = vec![in alloc; None; context.tags.len()]?;
        let present = vec![in alloc; false; context.tags.len()]?;
        Ok(Follows {
            variables,
            inputs,
            present,
        })
    }

    /// The same once more.
    pub(crate) fn copied(&self, alloc: Global) -> Result<Follows, AllocError> {
        let variables = Vec::from_slice(alloc, self.variables.as_slice())?;
        let inputs = Vec::from_slice(alloc, self.inputs.as_slice())?;
        let present = Vec::from_slice(alloc, self.present.as_slice())?;
        Ok(Follows {
            variables,
            inputs,
            present,
        })
    }

    /// What a value equals, if anything, lies in a span too.
    pub(crate) fn add(&mut self, origin: Option<Origin>, span: Span) {
        match origin {
            Some(Origin::OfVariable(v)) => narrow(self.variables.as_mut_slice(), v, span),
            Some(Origin::OfInput(t)) => narrow(self.inputs.as_mut_slice(), t, span),
            None => {}
        }
    }

    /// What follows from another truth follows too.
    pub(crate) fn add_all(&mut self, other: &Follows) {
        narrow_all(self.variables.as_mut_slice(), other.variables.as_slice());
        narrow_all(self.inputs.as_mut_slice(), other.inputs.as_slice());
        mark_all(self.present.as_mut_slice(), other.present.as_slice());
    }

    /// An input is present.
    pub(crate) fn add_presence(&mut self, t: usize) {
        if let Some(is_present) = self.present.get_mut(t) {
            *is_present = true;
        }
    }

    /// A variable has another value now.
    pub(crate) fn forget(&mut self, v: usize) {
        if let Some(span) = self.variables.get_mut(v) {
            *span = None;
        }
    }

    /// What follows on both ways that meet: nothing, unless it is the same.
    fn met(
        &self,
        alloc: Global,
        context: &Context,
        other: &Follows,
    ) -> Result<Follows, AllocError> {
        if *self == *other {
            self.copied(alloc)
        } else {
            Follows::nothing(alloc, context)
        }
    }
}

/// The value of a number lies in a span too.
fn narrow(spans: &mut [Option<Span>], number: usize, span: Span) {
    if let Some(known) = spans.get_mut(number) {
        *known = Some(match *known {
            Some(before) => before.intersected(span),
            None => span,
        });
    }
}

/// Each value lies in another span too, if one is known.
fn narrow_all(spans: &mut [Option<Span>], others: &[Option<Span>]) {
    for (number, other) in others.iter().enumerate() {
        if let Some(span) = other {
            narrow(spans, number, *span);
        }
    }
}

/// What is marked there is marked here too.
pub(crate) fn mark_all(marks: &mut [bool], others: &[bool]) {
    for (number, other) in others.iter().enumerate() {
        if let Some(mark) = marks.get_mut(number) {
            *mark = *mark || *other;
        }
    }
}

/// What is known of a value: its type, the span in which it lies, the variable or input that it equals, if any, and what
/// follows where it is TRUE and where it is FALSE.
#[derive(PartialEq)]
pub(crate) struct FullValue {
    pub(crate) kind: IlType,
    pub(crate) span: Span,
    pub(crate) origin: Option<Origin>,
    pub(crate) where_true: Follows,
    pub(crate) where_false: Follows,
}

/// Whoever drops one makes a call.
impl Drop for FullValue {
    fn drop(self) {
        let FullValue {
            kind: _,
            span: _,
            origin: _,
            where_true: _,
            where_false: _,
        } = self;
    }
}

impl FullValue {
    /// A value that equals nothing known, and of which nothing follows.
    pub(crate) fn plain(
        alloc: Global,
        context: &Context,
        kind: IlType,
        span: Span,
    ) -> Result<FullValue, AllocError> {
        let where_true = Follows::nothing(alloc, context)?;
        let where_false = Follows::nothing(alloc, context)?;
        Ok(FullValue {
            kind,
            span,
            origin: None,
            where_true,
            where_false,
        })
    }

    /// The same once more.
    pub(crate) fn copied(&self, alloc: Global) -> Result<FullValue, AllocError> {
        let where_true = self.where_true.copied(alloc)?;
        let where_false = self.where_false.copied(alloc)?;
        Ok(FullValue {
            kind: self.kind,
            span: self.span,
            origin: self.origin,
            where_true,
            where_false,
        })
    }

    /// It equals this variable or input; a BOOL is 1 where it is TRUE, and 0 where it is FALSE.
    pub(crate) fn equal(&mut self, origin: Origin) {
        self.origin = Some(origin);
        if self.kind == IlType::Bool {
            self.where_true.add(Some(origin), Span::only(1));
            self.where_false.add(Some(origin), Span::only(0));
        }
    }

    /// What follows where it is this truth.
    pub(crate) fn follows(&self, truth: bool) -> &Follows {
        if truth {
            &self.where_true
        } else {
            &self.where_false
        }
    }

    /// A variable has another value now.
    pub(crate) fn forget(&mut self, v: usize) {
        if self.origin == Some(Origin::OfVariable(v)) {
            self.origin = None;
        }
        self.where_true.forget(v);
        self.where_false.forget(v);
    }
}

/// A value that may be nothing, once more.
pub(crate) fn copied_value(
    alloc: Global,
    value: &Option<FullValue>,
) -> Result<Option<FullValue>, AllocError> {
    match value {
        Some(known) => Ok(Some(known.copied(alloc)?)),
        None => Ok(None),
    }
}

/// What is known of a value on both ways that meet: nothing where it is nothing on one, or of two types.
pub(crate) fn met_value(
    alloc: Global,
    context: &Context,
    one: &Option<FullValue>,
    other: &Option<FullValue>,
) -> Result<Option<FullValue>, AllocError> {
    match (one, other) {
        (Some(one), Some(other)) if one.kind == other.kind => {
            Ok(Some(met(alloc, context, one, other)?))
        }
        _ => Ok(None),
    }
}

/// What is known on both ways of a value of one type.
fn met(
    alloc: Global,
    context: &Context,
    one: &FullValue,
    other: &FullValue,
) -> Result<FullValue, AllocError> {
    let where_true = one.where_true.met(alloc, context, &other.where_true)?;
    let where_false = one.where_false.met(alloc, context, &other.where_false)?;
    Ok(FullValue {
        kind: one.kind,
        span: one.span.joined(other.span),
        origin: if one.origin == other.origin {
            one.origin
        } else {
            None
        },
        where_true,
        where_false,
    })
}
