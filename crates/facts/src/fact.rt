//! What is known before an instruction.
ghost use Rattle.std.specs.Prelude.{◌≡◌, IfOk, OnOk, length, slice_get, slice_set};
ghost use Rattle.facts.specs.Branches.{joined_spans, joined_values, stored_result, unless_empty};
ghost use Rattle.facts.specs.Fact.{met, under};
ghost use Rattle.facts.specs.Flow.{forgotten, stored_fact, way_where, widened, with_value};
ghost use Rattle.facts.specs.Slots.{entry_fact};

use crate::abstract_value::{AbstractValue, Consequences, meet_value};
use crate::changed_spans::ChangedSpans;
use crate::context::Context;
use crate::deferred::{copied_value, copied_values, forget_in, forgetting, met_values};
use crate::parts::{declared_ranges, none_present, site_ranges};
use crate::present_inputs::PresentInputs;
use crate::span::Span;
use point_types::Items;
use std::alloc::{AllocError, Global};
use std::mem;

/// What is known before an instruction: a span for each variable and each tag, which inputs are present,
/// the deferred values, the last one first, and the result; a value that is nothing is None. Of the spans
/// only those are kept that differ from the ranges that are declared, and of the inputs those that are
/// present.
pub struct Fact {
    pub variables: ChangedSpans,
    pub inputs: ChangedSpans,
    pub present: PresentInputs,
    pub deferred: Items<Option<AbstractValue>>,
    pub result: Option<AbstractValue>,
}

/// A call for whoever drops one: the proofs of the functions that own one needn't take it apart.
impl Drop for Fact {
    fn drop(self) {
        let Fact {
            variables: _,
            inputs: _,
            present: _,
            deferred: _,
            result: _,
        } = self;
    }
}

impl Fact {
    /// What is known before the first instruction: the declared ranges, and nothing more.
    pub fn entry(alloc: Global, context: &Context) -> Result<Fact, AllocError>
        ensures { IfOk result (λ fact. fact ≡ entry_fact context.now) }
    {
        Ok(Fact {
            variables: ChangedSpans::at_entry(
                alloc,
                declared_ranges(alloc, context.variables.as_slice())?,
            )?,
            inputs: ChangedSpans::at_entry(alloc, site_ranges(alloc, context.tags.as_slice())?)?,
            present: none_present(alloc, context.tags.as_slice()),
            deferred: Items::new(alloc),
            result: None,
        })
    }

    /// The same once more.
    pub fn copied(&self, alloc: Global) -> Result<Fact, AllocError>
        ensures { IfOk result (λ fact. fact ≡ self.now) }
    {
        let variables = self.variables.copied(alloc)?;
        let inputs = self.inputs.copied(alloc)?;
        let present = self.present.copied(alloc)?;
        self.over(alloc, variables, inputs, present)
    }

    /// How many values are deferred.
    pub fn depth(&self) -> usize
        ensures { result ≡ length self.now.deferred }
    {
        self.deferred.len()
    }

    /// The fact where consequences hold.
    pub(crate) fn under(&self, alloc: Global, follows: &Consequences) -> Result<Fact, AllocError>
        ensures { IfOk result (λ fact. fact ≡ under follows.now self.now) }
    {
        let variables = self.variables.narrowed(alloc, &follows.variables)?;
        let inputs = self.inputs.narrowed(alloc, &follows.inputs)?;
        let present = self.present.either(alloc, &follows.present)?;
        self.over(alloc, variables, inputs, present)
    }

    /// The same values over these spans and this presence.
    fn over(
        &self,
        alloc: Global,
        variables: ChangedSpans,
        inputs: ChangedSpans,
        present: PresentInputs,
    ) -> Result<Fact, AllocError>
        ensures { IfOk result (λ fact. fact ≡ record self.now { variables = variables; inputs = inputs; present = present }) }
    {
        let deferred = copied_values(alloc, self.deferred.as_slice())?;
        let result = copied_value(alloc, &self.result)?;
        Ok(Fact {
            variables,
            inputs,
            present,
            deferred,
            result,
        })
    }

    /// The way on which this result is this truth; None where it can't be.
    pub(crate) fn way_where(
        &self,
        alloc: Global,
        truth: bool,
        known: &AbstractValue,
    ) -> Result<Option<Fact>, AllocError>
        ensures { IfOk result (λ way. way ≡ way_where truth known.now self.now) }
    {
        let number = if truth { 1 } else { 0 };
        if !known.span.has_member(number) {
            return Ok(None);
        }
        let narrowed = self.under(alloc, known.follows(truth))?;
        let value = known.being(alloc, truth)?;
        Ok(narrowed.with_value(value).unless_empty())
    }

    /// The same, if none of its spans is empty.
    fn unless_empty(self) -> Option<Fact>
        ensures { result ≡ unless_empty self }
    {
        if self.variables.any_empty() || self.inputs.any_empty() {
            None
        } else {
            Some(self)
        }
    }

    /// The fact with another result.
    pub(crate) fn with_value(mut self, value: AbstractValue) -> Fact
        ensures { result ≡ with_value self value }
    {
        self.result = Some(value);
        self
    }

    /// What is still known of values once a variable has another value.
    pub(crate) fn forgotten(self, alloc: Global, v: usize) -> Result<Fact, AllocError>
        ensures { IfOk result (λ fact. fact ≡ forgotten v self) }
    {
        let mut fact = self;
        fact.forget(alloc, v)?;
        Ok(fact)
    }

    /// A variable has another value now.
    fn forget(&mut self, alloc: Global, v: usize) -> Result<(), AllocError>
        ensures { OnOk result (self.new ≡ forgotten v self.old) }
    {
        let deferred = mem::replace(&mut self.deferred, Items::new(alloc));
        self.deferred = forgetting(alloc, deferred, v)?;
        forget_in(alloc, &mut self.result, v)
    }

    /// What is known where a variable has got this value: the result equals it.
    pub fn stored(self, alloc: Global, v: usize, value: AbstractValue) -> Result<Fact, AllocError>
        ensures { IfOk result (λ fact. fact ≡ stored_fact v value self) }
    {
        let mut fact = self;
        fact.store(alloc, v, value)?;
        Ok(fact)
    }

    /// A variable has got this value.
    fn store(&mut self, alloc: Global, v: usize, value: AbstractValue) -> Result<(), AllocError>
        ensures { OnOk result (self.new ≡ stored_fact v value self.old) }
    {
        self.change(alloc, v, value.span)?;
        self.result = Some(value.stored(alloc, v)?);
        Ok(())
    }

    /// A variable has got the result, if there is one.
    pub(crate) fn store_result(&mut self, alloc: Global, v: usize) -> Result<(), AllocError>
        ensures { OnOk result (self.new ≡ stored_result v self.old.result self.old) }
    {
        match self.result.take() {
            Some(value) => self.store(alloc, v, value),
            None => Ok(()),
        }
    }

    /// What is known where a variable may have got this number.
    pub(crate) fn widened(self, alloc: Global, v: usize, number: i64) -> Result<Fact, AllocError>
        ensures { IfOk result (λ fact. fact ≡ widened v number (slice_get self.variables v) self) }
    {
        let mut fact = self;
        fact.widen(alloc, v, number)?;
        Ok(fact)
    }

    /// A variable may have got this number.
    pub(crate) fn widen(&mut self, alloc: Global, v: usize, number: i64) -> Result<(), AllocError>
        ensures { OnOk result (self.new ≡ widened v number (slice_get self.old.variables v) self.old) }
    {
        match self.variables.get(v) {
            Some(span) => self.change(alloc, v, span.joined(Span::only(number))),
            None => self.forget(alloc, v),
        }
    }

    /// A variable has this span now, and nothing else is known of it any more.
    fn change(&mut self, alloc: Global, v: usize, span: Span) -> Result<(), AllocError>
        ensures { OnOk result (self.new ≡ forgotten v (record self.old { variables = slice_set self.old.variables v span })) }
    {
        self.variables = self.variables.with(alloc, v, span)?;
        self.forget(alloc, v)
    }

    /// What is known on both ways that meet; None where their deferred values differ in number.
    pub fn meet(self, alloc: Global, other: Fact) -> Result<Option<Fact>, AllocError>
        ensures { IfOk result (λ fact. fact ≡ met self other) }
    {
        if self.depth() != other.depth() {
            return Ok(None);
        }
        let mut both = self;
        both.join(alloc, &other)?;
        Ok(Some(both))
    }

    /// Another way meets this one, with as many deferred values.
    fn join(&mut self, alloc: Global, other: &Fact) -> Result<(), AllocError>
        ensures { OnOk result (self.new ≡ joined_values (joined_spans self.old other.now) other.now) }
    {
        self.join_spans(alloc, other)?;
        self.join_values(alloc, other)
    }

    /// Of spans and presence what is known on both ways.
    fn join_spans(&mut self, alloc: Global, other: &Fact) -> Result<(), AllocError>
        ensures { OnOk result (self.new ≡ joined_spans self.old other.now) }
    {
        self.variables = self.variables.joined(alloc, &other.variables)?;
        self.inputs = self.inputs.joined(alloc, &other.inputs)?;
        self.present = self.present.both(alloc, &other.present)?;
        Ok(())
    }

    /// Of values what is known on both ways.
    fn join_values(&mut self, alloc: Global, other: &Fact) -> Result<(), AllocError>
        ensures { OnOk result (self.new ≡ joined_values self.old other.now) }
    {
        let deferred = mem::replace(&mut self.deferred, Items::new(alloc));
        self.deferred = met_values(alloc, deferred, other.deferred.as_slice())?;
        let value = self.result.take();
        self.result = meet_value(alloc, value, &other.result);
        Ok(())
    }
}
