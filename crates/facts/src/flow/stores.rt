//! What flows on from stores, sets and resets.
ghost use Rattle.std.specs.Prelude.{◌≡◌, ◌<◌, ◌+◌, ◌^◌, ℤ, IfOk, nat_eq, slice_get};
ghost use Rattle.point_types.specs.Value.{code_of};
ghost use Rattle.scan_code.specs.declared.op.Op.TheVariants as does;
ghost use Rattle.facts.specs.Branches.{refused_or, set_variable_flow, set_output_flow, stepped, stored_result};
ghost use Rattle.facts.specs.Flow.{flow, goes_on, widened};
ghost use Rattle.facts.specs.Span.{Between, has_member, lies_in};

use crate::abstract_value::AbstractValue;
use crate::context::Context;
use crate::fact::Fact;
use crate::flow::{Step, unless};
use crate::refusal::RefusalKind;
use crate::tag_range::TagRange;
use point_types::{IlType, Var};
use std::alloc::Global;

impl Fact {
    /// STV: a variable gets the result, which lies in its range.
    pub(crate) fn store_variable(
        &mut self,
        alloc: Global,
        context: &Context,
        at: usize,
        v: usize,
    ) -> Step
        requires { at + 1 < 2 ^ 64 }
        ensures { IfOk result (λ step. flow context.now at (does.StoreVariable v) self.old ≡ stepped at self.new step) }
    {
        match self.store_refusal(context, at, v) {
            Some(kind) => Ok(Err(kind)),
            None => {
                self.store_result(alloc, v)?;
                Ok(Ok(None))
            }
        }
    }

    /// Why a variable can't get the result, if so.
    fn store_refusal(&self, context: &Context, at: usize, v: usize) -> Option<RefusalKind>
        requires { at + 1 < 2 ^ 64 }
        ensures { flow context.now at (does.StoreVariable v) self.now ≡ refused_or result (goes_on (at + 1) (stored_result v self.now.result self.now)) }
    {
        let Some(variable) = context.variables.as_slice().get(v) else {
            return Some(RefusalKind::Code);
        };
        let Some(value) = &self.result else {
            return Some(RefusalKind::NoResult);
        };
        if !same_kind(variable.kind, value.kind) {
            return Some(RefusalKind::WrongType);
        }
        if !fits_variable(value, variable) {
            return Some(RefusalKind::StoreRange);
        }
        None
    }

    /// STT: an output gets the result, which lies in its tag's range.
    pub(crate) fn store_output(&self, context: &Context, at: usize, t: usize) -> Step
        requires { at + 1 < 2 ^ 64 }
        ensures { IfOk result (λ step. flow context.now at (does.StoreOutput t) self.now ≡ stepped at self.now step) }
    {
        Ok(unless(self.output_refusal(context, at, t)))
    }

    /// Why an output can't get the result, if so.
    fn output_refusal(&self, context: &Context, at: usize, t: usize) -> Option<RefusalKind>
        requires { at + 1 < 2 ^ 64 }
        ensures { flow context.now at (does.StoreOutput t) self.now ≡ refused_or result (goes_on (at + 1) self.now) }
    {
        let Some(tag) = context.tag(t) else {
            return Some(RefusalKind::Code);
        };
        let Some(value) = &self.result else {
            return Some(RefusalKind::NoResult);
        };
        if !same_kind(tag.kind, value.kind) {
            return Some(RefusalKind::WrongType);
        }
        if !fits_tag(value, tag) {
            return Some(RefusalKind::StoreRange);
        }
        None
    }

    /// SETV: a variable is TRUE where the result is.
    pub(crate) fn set_variable(
        &mut self,
        alloc: Global,
        context: &Context,
        at: usize,
        v: usize,
    ) -> Step
        requires { at + 1 < 2 ^ 64 }
        ensures { IfOk result (λ step. flow context.now at (does.SetVariable v) self.old ≡ stepped at self.new step) }
    {
        self.setting_variable(alloc, context, at, v, 1)
    }

    /// RSTV: a variable is FALSE where the result is TRUE.
    pub(crate) fn reset_variable(
        &mut self,
        alloc: Global,
        context: &Context,
        at: usize,
        v: usize,
    ) -> Step
        requires { at + 1 < 2 ^ 64 }
        ensures { IfOk result (λ step. flow context.now at (does.ResetVariable v) self.old ≡ stepped at self.new step) }
    {
        self.setting_variable(alloc, context, at, v, 0)
    }

    /// A variable may have got this truth.
    fn setting_variable(
        &mut self,
        alloc: Global,
        context: &Context,
        at: usize,
        v: usize,
        truth: i64,
    ) -> Step
        requires { at + 1 < 2 ^ 64 }
        ensures { IfOk result (λ step. set_variable_flow context.now at v truth self.old ≡ stepped at self.new step) }
    {
        match self.set_variable_refusal(context, at, v) {
            Some(kind) => Ok(Err(kind)),
            None => {
                self.widen(alloc, v, truth)?;
                Ok(Ok(None))
            }
        }
    }

    /// Why a variable can't get a truth, if so; each truth lies in the range of a BOOL.
    fn set_variable_refusal(&self, context: &Context, at: usize, v: usize) -> Option<RefusalKind>
        requires { at + 1 < 2 ^ 64 }
        ensures { (n : ℤ) → set_variable_flow context.now at v n self.now ≡ refused_or result (goes_on (at + 1) (widened v n (slice_get self.now.variables v) self.now)) }
    {
        let Some(variable) = context.variables.as_slice().get(v) else {
            return Some(RefusalKind::Code);
        };
        if let Err(kind) = self.bool_result() {
            return Some(kind);
        }
        if variable.kind != IlType::Bool {
            return Some(RefusalKind::WrongType);
        }
        None
    }

    /// SETT: an output is TRUE where the result is.
    pub(crate) fn set_output(&self, context: &Context, at: usize, t: usize) -> Step
        requires { at + 1 < 2 ^ 64 }
        ensures { IfOk result (λ step. flow context.now at (does.SetOutput t) self.now ≡ stepped at self.now step) }
    {
        Ok(unless(self.set_output_refusal(context, at, t, 1)))
    }

    /// RSTT: an output is FALSE where the result is TRUE.
    pub(crate) fn reset_output(&self, context: &Context, at: usize, t: usize) -> Step
        requires { at + 1 < 2 ^ 64 }
        ensures { IfOk result (λ step. flow context.now at (does.ResetOutput t) self.now ≡ stepped at self.now step) }
    {
        Ok(unless(self.set_output_refusal(context, at, t, 0)))
    }

    /// Why an output can't be set to this truth, if so.
    fn set_output_refusal(
        &self,
        context: &Context,
        at: usize,
        t: usize,
        truth: i64,
    ) -> Option<RefusalKind>
        requires { at + 1 < 2 ^ 64 }
        ensures { set_output_flow context.now at t truth self.now ≡ refused_or result (goes_on (at + 1) self.now) }
    {
        let Some(tag) = context.tag(t) else {
            return Some(RefusalKind::Code);
        };
        if let Err(kind) = self.bool_result() {
            return Some(kind);
        }
        if tag.kind != IlType::Bool {
            return Some(RefusalKind::WrongType);
        }
        if !allows(tag, truth) {
            return Some(RefusalKind::StoreRange);
        }
        None
    }
}

fn same_kind(one: IlType, other: IlType) -> bool
    ensures { result ≡ nat_eq (code_of one) (code_of other) }
{
    one == other
}

/// Whether each number of a value lies in a variable's range.
fn fits_variable(value: &AbstractValue, variable: &Var) -> bool
    ensures { result ≡ lies_in value.now.span variable.now.low variable.now.high }
{
    value.span.lies_in(variable.low, variable.high)
}

/// Whether each number of a value lies in a tag's range.
fn fits_tag(value: &AbstractValue, tag: &TagRange) -> bool
    ensures { result ≡ lies_in value.now.span tag.now.low tag.now.high }
{
    value.span.lies_in(tag.low, tag.high)
}

/// Whether a number lies in a tag's range.
fn allows(tag: &TagRange, number: i64) -> bool
    ensures { result ≡ has_member number (Between tag.now.low tag.now.high) }
{
    tag.low <= number && number <= tag.high
}
