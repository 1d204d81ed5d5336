//! What flows on from loads.
ghost use Rattle.std.specs.Prelude.{◌≡◌, ◌<◌, ◌+◌, ◌^◌, ◌||◌, IfOk};
ghost use Rattle.scan_code.specs.declared.op.Op.TheVariants as does;
ghost use Rattle.facts.specs.Branches.{stepped, with_made};
ghost use Rattle.facts.specs.Flow.{flow};

use crate::abstract_value::{AbstractValue, Origin};
use crate::context::Context;
use crate::fact::Fact;
use crate::flow::Step;
use crate::operand::Made;
use crate::refusal::RefusalKind;
use crate::span::Span;
use crate::tag_range::TagRange;
use point_types::IlType;
use std::alloc::Global;

impl Fact {
    /// LDV: the result is a variable.
    pub(crate) fn load_variable(
        &mut self,
        alloc: Global,
        context: &Context,
        at: usize,
        v: usize,
    ) -> Step
        requires { at + 1 < 2 ^ 64 }
        ensures { IfOk result (λ step. flow context.now at (does.LoadVariable v) self.old ≡ stepped at self.new step) }
    {
        let made = self.variable_value(alloc, context, at, v)?;
        Ok(self.take_made(made))
    }

    /// What is known of a variable that is loaded.
    fn variable_value(&self, alloc: Global, context: &Context, at: usize, v: usize) -> Made
        requires { at + 1 < 2 ^ 64 }
        ensures { IfOk result (λ made. flow context.now at (does.LoadVariable v) self.now ≡ with_made at self.now made) }
    {
        let Some(variable) = context.variables.as_slice().get(v) else {
            return Ok(Err(RefusalKind::Code));
        };
        let Some(span) = self.variables.get(v) else {
            return Ok(Err(RefusalKind::Code));
        };
        let origin = Origin::OfVariable(v);
        Ok(Ok(AbstractValue::source(alloc, context, variable.kind, span, origin)?))
    }

    /// LDT: the result is an input, which has a default or is known to be present.
    pub(crate) fn load_input(
        &mut self,
        alloc: Global,
        context: &Context,
        at: usize,
        t: usize,
    ) -> Step
        requires { at + 1 < 2 ^ 64 }
        ensures { IfOk result (λ step. flow context.now at (does.LoadInput t) self.old ≡ stepped at self.new step) }
    {
        let made = self.input_value(alloc, context, at, t)?;
        Ok(self.take_made(made))
    }

    /// What is known of an input that is loaded.
    fn input_value(&self, alloc: Global, context: &Context, at: usize, t: usize) -> Made
        requires { at + 1 < 2 ^ 64 }
        ensures { IfOk result (λ made. flow context.now at (does.LoadInput t) self.now ≡ with_made at self.now made) }
    {
        let Some(tag) = context.tag(t) else {
            return Ok(Err(RefusalKind::Code));
        };
        let Some(span) = self.inputs.get(t) else {
            return Ok(Err(RefusalKind::Code));
        };
        let Some(is_present) = self.present.get(t) else {
            return Ok(Err(RefusalKind::Code));
        };
        if !is_loadable(tag, is_present) {
            return Ok(Err(RefusalKind::MayBeMissing));
        }
        let origin = Origin::OfInput(t);
        Ok(Ok(AbstractValue::source(alloc, context, tag.kind, span, origin)?))
    }

    /// LDP: the result says whether an input is present.
    pub(crate) fn load_presence(
        &mut self,
        alloc: Global,
        context: &Context,
        at: usize,
        t: usize,
    ) -> Step
        requires { at + 1 < 2 ^ 64 }
        ensures { IfOk result (λ step. flow context.now at (does.LoadPresence t) self.old ≡ stepped at self.new step) }
    {
        let known = AbstractValue::presence(alloc, context, t)?;
        self.result = Some(known);
        Ok(Ok(None))
    }

    /// LDB: the result is a truth.
    pub(crate) fn load_bool(
        &mut self,
        alloc: Global,
        context: &Context,
        at: usize,
        truth: bool,
    ) -> Step
        requires { at + 1 < 2 ^ 64 }
        ensures { IfOk result (λ step. flow context.now at (does.LoadBool truth) self.old ≡ stepped at self.new step) }
    {
        let span = Span::only(if truth { 1 } else { 0 });
        let known = AbstractValue::plain(alloc, context, IlType::Bool, span);
        self.result = Some(known);
        Ok(Ok(None))
    }

    /// LDC: the result is a number.
    pub(crate) fn load_number(
        &mut self,
        alloc: Global,
        context: &Context,
        at: usize,
        kind: IlType,
        number: i64,
    ) -> Step
        requires { at + 1 < 2 ^ 64 }
        ensures { IfOk result (λ step. flow context.now at (does.LoadNumber kind number) self.old ≡ stepped at self.new step) }
    {
        let known = AbstractValue::plain(alloc, context, kind, Span::only(number));
        self.result = Some(known);
        Ok(Ok(None))
    }
}

/// Whether an input has a value in each scan: a default, or it is present.
fn is_loadable(tag: &TagRange, is_present: bool) -> bool
    ensures { result ≡ (tag.now.has_default || is_present) }
{
    tag.has_default || is_present
}
