//! What flows on from operators, conversions and deferred values.
ghost use Rattle.std.specs.Prelude.{◌≡◌, ◌<◌, ◌+◌, ◌^◌, IfOk, OnOk};
ghost use Rattle.scan_code.specs.declared.op.Op.TheVariants as does;
ghost use Rattle.facts.specs.Branches.{popped, pushed, refused_or, stepped, with_made};
ghost use Rattle.facts.specs.Flow.{flow, goes_on};

use crate::context::Context;
use crate::deferred::{deferring, without_last};
use crate::fact::Fact;
use crate::flow::Step;
use crate::operand::{Made, absolute, applied, converted, selected};
use crate::refusal::RefusalKind;
use point_types::{IlType, Items, Operator};
use std::alloc::{AllocError, Global};
use std::mem;

/// The most deferred values.
const CAPACITY: usize = 128;

impl Fact {
    /// PUSH: the result is deferred.
    pub(crate) fn push(&mut self, alloc: Global, context: &Context, at: usize) -> Step
        requires { at + 1 < 2 ^ 64 }
        ensures { IfOk result (λ step. flow context.now at does.Push self.old ≡ stepped at self.new step) }
    {
        match self.push_refusal(context, at) {
            Some(kind) => Ok(Err(kind)),
            None => {
                self.defer_result(alloc)?;
                Ok(Ok(None))
            }
        }
    }

    /// Why the result can't be deferred, if so.
    fn push_refusal(&self, context: &Context, at: usize) -> Option<RefusalKind>
        requires { at + 1 < 2 ^ 64 }
        ensures { flow context.now at does.Push self.now ≡ refused_or result (goes_on (at + 1) (pushed self.now)) }
    {
        let depth = self.depth();
        if depth >= context.depth || depth >= CAPACITY {
            return Some(RefusalKind::Stack);
        }
        match &self.result {
            Some(_) => None,
            None => Some(RefusalKind::NoResult),
        }
    }

    /// The result is deferred.
    fn defer_result(&mut self, alloc: Global) -> Result<(), AllocError>
        ensures { OnOk result (self.new ≡ pushed self.old) }
    {
        let result = self.result.take();
        let deferred = mem::replace(&mut self.deferred, Items::new(alloc));
        self.deferred = deferring(result, deferred)?;
        Ok(())
    }

    /// The last deferred value, if there is one, is taken away.
    fn pop(&mut self, alloc: Global)
        ensures { self.new ≡ popped self.old }
    {
        let deferred = mem::replace(&mut self.deferred, Items::new(alloc));
        self.deferred = without_last(deferred);
    }

    /// NOT
    pub(crate) fn not(&mut self, alloc: Global, context: &Context, at: usize) -> Step
        requires { at + 1 < 2 ^ 64 }
        ensures { IfOk result (λ step. flow context.now at does.Not self.old ≡ stepped at self.new step) }
    {
        let made = self.inversion(alloc, context, at)?;
        Ok(self.take_made(made))
    }

    /// What NOT makes of the result.
    fn inversion(&self, alloc: Global, context: &Context, at: usize) -> Made
        requires { at + 1 < 2 ^ 64 }
        ensures { IfOk result (λ made. flow context.now at does.Not self.now ≡ with_made at self.now made) }
    {
        match self.bool_result() {
            Ok(value) => Ok(Ok(value.copied(alloc)?.inverted())),
            Err(kind) => Ok(Err(kind)),
        }
    }

    /// An operator on the last deferred value and the result.
    pub(crate) fn apply(&mut self, alloc: Global, context: &Context, at: usize, o: Operator) -> Step
        requires { at + 1 < 2 ^ 64 }
        ensures { IfOk result (λ step. flow context.now at (does.Apply o) self.old ≡ stepped at self.new step) }
    {
        let made = self.application(alloc, context, at, o)?;
        self.pop(alloc);
        Ok(self.take_made(made))
    }

    /// What the operator makes of the two values.
    fn application(&self, alloc: Global, context: &Context, at: usize, o: Operator) -> Made
        requires { at + 1 < 2 ^ 64 }
        ensures { IfOk result (λ made. flow context.now at (does.Apply o) self.now ≡ with_made at (popped self.now) made) }
    {
        match (self.deferred.as_slice(), &self.result) {
            ([Some(first), ..], Some(second)) => applied(alloc, context, o, first, second),
            ([], _) => Ok(Err(RefusalKind::Stack)),
            _ => Ok(Err(RefusalKind::NoResult)),
        }
    }

    /// SEL: one of the last deferred value and the result, as the one before chooses.
    pub(crate) fn select(&mut self, alloc: Global, context: &Context, at: usize) -> Step
        requires { at + 1 < 2 ^ 64 }
        ensures { IfOk result (λ step. flow context.now at does.Select self.old ≡ stepped at self.new step) }
    {
        let made = self.selection(alloc, context, at)?;
        self.pop(alloc);
        self.pop(alloc);
        Ok(self.take_made(made))
    }

    /// What the three values make.
    fn selection(&self, alloc: Global, context: &Context, at: usize) -> Made
        requires { at + 1 < 2 ^ 64 }
        ensures { IfOk result (λ made. flow context.now at does.Select self.now ≡ with_made at (popped (popped self.now)) made) }
    {
        match self.deferred.as_slice() {
            [first, chooser, ..] => match (chooser, first, &self.result) {
                (Some(chooser), Some(first), Some(second)) => {
                    selected(alloc, context, chooser, first, second)
                }
                _ => Ok(Err(RefusalKind::NoResult)),
            },
            _ => Ok(Err(RefusalKind::Stack)),
        }
    }

    /// ABS
    pub(crate) fn absolute(&mut self, alloc: Global, context: &Context, at: usize) -> Step
        requires { at + 1 < 2 ^ 64 }
        ensures { IfOk result (λ step. flow context.now at does.Absolute self.old ≡ stepped at self.new step) }
    {
        let made = self.size(alloc, context, at)?;
        Ok(self.take_made(made))
    }

    /// What ABS makes of the result.
    fn size(&self, alloc: Global, context: &Context, at: usize) -> Made
        requires { at + 1 < 2 ^ 64 }
        ensures { IfOk result (λ made. flow context.now at does.Absolute self.now ≡ with_made at self.now made) }
    {
        match &self.result {
            Some(value) => absolute(alloc, context, value),
            None => Ok(Err(RefusalKind::NoResult)),
        }
    }

    /// A conversion of the result from one type to another.
    pub(crate) fn convert(
        &mut self,
        alloc: Global,
        context: &Context,
        at: usize,
        from: IlType,
        to: IlType,
    ) -> Step
        requires { at + 1 < 2 ^ 64 }
        ensures { IfOk result (λ step. flow context.now at (does.Convert from to) self.old ≡ stepped at self.new step) }
    {
        let made = self.conversion(alloc, context, at, from, to)?;
        Ok(self.take_made(made))
    }

    /// What a conversion makes of the result.
    fn conversion(
        &self,
        alloc: Global,
        context: &Context,
        at: usize,
        from: IlType,
        to: IlType,
    ) -> Made
        requires { at + 1 < 2 ^ 64 }
        ensures { IfOk result (λ made. flow context.now at (does.Convert from to) self.now ≡ with_made at self.now made) }
    {
        match &self.result {
            Some(value) => converted(alloc, context, from, to, value),
            None => Ok(Err(RefusalKind::NoResult)),
        }
    }
}
