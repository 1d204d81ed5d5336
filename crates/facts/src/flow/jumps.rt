//! What flows on from jumps and returns.
ghost use Rattle.std.specs.Prelude.{◌≡◌, ◌<◌, ◌+◌, ◌^◌, [], ◌∷◌, IfOk, MatchResult, Ok, Some, true};
ghost use Rattle.scan_code.specs.declared.op.Op.TheVariants as does;
ghost use Rattle.facts.specs.Branches.{jumps_where, refused_or, stays_where, stepped};
ghost use Rattle.facts.specs.Flow.{bool_result, earlier, flow, goes_on, later, tested};

use crate::abstract_value::AbstractValue;
use crate::context::Context;
use crate::fact::Fact;
use crate::flow::{Step, add_way, unless};
use crate::refusal::RefusalKind;
use point_types::{Condition, IlType, Items};
use std::alloc::{AllocError, Global};

impl Fact {
    /// JMP, JMPC, JMPCN: to a later instruction.
    pub(crate) fn jump(
        &self,
        alloc: Global,
        context: &Context,
        at: usize,
        condition: Condition,
        to: usize,
    ) -> Step
        requires { at + 1 < 2 ^ 64 }
        ensures { IfOk result (λ step. flow context.now at (does.Jump condition to) self.now ≡ stepped at self.now step) }
    {
        let target = later(at, context.number_at(to));
        match condition {
            Condition::Always => match target {
                Ok(number) => self.goes_to(alloc, number),
                Err(kind) => Ok(Err(kind)),
            },
            Condition::IfTrue => self.jump_where(alloc, at, true, target),
            Condition::IfFalse => self.jump_where(alloc, at, false, target),
        }
    }

    /// A jump in any case.
    fn goes_to(&self, alloc: Global, number: usize) -> Step
        ensures { IfOk result (λ step. step ≡ Ok (Some ((number, self.now) ∷ []))) }
    {
        let mut ways = Items::new(alloc);
        ways.push((number, self.copied(alloc)?))?;
        Ok(Ok(Some(ways)))
    }

    /// A jump where the result is this truth.
    fn jump_where(
        &self,
        alloc: Global,
        at: usize,
        truth: bool,
        target: Result<usize, RefusalKind>,
    ) -> Step
        requires { at + 1 < 2 ^ 64 }
        ensures { IfOk result (λ step. jumps_where at truth target self.now ≡ stepped at self.now step) }
    {
        let known = match self.bool_result() {
            Ok(known) => known,
            Err(kind) => return Ok(Err(kind)),
        };
        let number = match target {
            Ok(number) => number,
            Err(kind) => return Ok(Err(kind)),
        };
        let mut ways = Items::new(alloc);
        add_way(&mut ways, at + 1, self.way_where(alloc, !truth, known)?)?;
        add_way(&mut ways, number, self.way_where(alloc, truth, known)?)?;
        Ok(Ok(Some(ways)))
    }

    /// RET, RETC, RETCN: the scan ends.
    pub(crate) fn leave(
        &self,
        alloc: Global,
        context: &Context,
        at: usize,
        condition: Condition,
    ) -> Step
        requires { at + 1 < 2 ^ 64 }
        ensures { IfOk result (λ step. flow context.now at (does.Return condition) self.now ≡ stepped at self.now step) }
    {
        match condition {
            Condition::Always => Ok(Ok(Some(Items::new(alloc)))),
            Condition::IfTrue => self.stay_where(alloc, at, false),
            Condition::IfFalse => self.stay_where(alloc, at, true),
        }
    }

    /// The next instruction follows where the result is this truth.
    fn stay_where(&self, alloc: Global, at: usize, truth: bool) -> Step
        requires { at + 1 < 2 ^ 64 }
        ensures { IfOk result (λ step. stays_where at truth self.now ≡ stepped at self.now step) }
    {
        let known = match self.bool_result() {
            Ok(known) => known,
            Err(kind) => return Ok(Err(kind)),
        };
        let mut ways = Items::new(alloc);
        add_way(&mut ways, at + 1, self.way_where(alloc, truth, known)?)?;
        Ok(Ok(Some(ways)))
    }

    /// A counted jump: back to an earlier instruction, where nothing is deferred. What is known there
    /// doesn't hang on this way.
    pub(crate) fn repeat(
        &self,
        context: &Context,
        at: usize,
        condition: Condition,
        counter: u8,
        count: u8,
        to: usize,
    ) -> Step
        requires { at + 1 < 2 ^ 64 }
        ensures { IfOk result (λ step. flow context.now at (does.Repeat condition counter count to) self.now ≡ stepped at self.now step) }
    {
        Ok(unless(self.repeat_refusal(context, at, condition, counter, count, to)))
    }

    /// Why a counted jump is refused, if it is.
    fn repeat_refusal(
        &self,
        context: &Context,
        at: usize,
        condition: Condition,
        counter: u8,
        count: u8,
        to: usize,
    ) -> Option<RefusalKind>
        requires { at + 1 < 2 ^ 64 }
        ensures { flow context.now at (does.Repeat condition counter count to) self.now ≡ refused_or result (goes_on (at + 1) self.now) }
    {
        if self.depth() != 0 {
            return Some(RefusalKind::Stack);
        }
        if let Err(kind) = self.tested(condition) {
            return Some(kind);
        }
        match earlier(at, context.number_at(to)) {
            Ok(_) => None,
            Err(kind) => Some(kind),
        }
    }

    /// The result, which is a BOOL.
    pub(crate) fn bool_result(&self) -> Result<&AbstractValue, RefusalKind>
        ensures { MatchResult result (λ known. bool_result self.now ≡ Ok known.now) (λ kind. bool_result self.now ≡ Err kind) }
    {
        match &self.result {
            Some(known) if known.kind == IlType::Bool => Ok(known),
            Some(_) => Err(RefusalKind::WrongType),
            None => Err(RefusalKind::NoResult),
        }
    }

    /// That the result is a BOOL, where a condition wants it.
    fn tested(&self, condition: Condition) -> Result<(), RefusalKind>
        ensures { MatchResult result (λ _. tested condition self.now ≡ Ok true) (λ kind. tested condition self.now ≡ Err kind) }
    {
        match condition {
            Condition::Always => Ok(()),
            Condition::IfTrue | Condition::IfFalse => match self.bool_result() {
                Ok(_) => Ok(()),
                Err(kind) => Err(kind),
            },
        }
    }
}

/// The number of an instruction, if there is one and it is a later one.
fn later(at: usize, number: Option<usize>) -> Result<usize, RefusalKind>
    ensures { result ≡ later at number }
{
    match number {
        Some(n) if at < n => Ok(n),
        _ => Err(RefusalKind::Jump),
    }
}

/// The number of an instruction, if there is one and it isn't a later one.
fn earlier(at: usize, number: Option<usize>) -> Result<usize, RefusalKind>
    ensures { result ≡ earlier at number }
{
    match number {
        Some(n) if n <= at => Ok(n),
        _ => Err(RefusalKind::Jump),
    }
}
