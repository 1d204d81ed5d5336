//! What flows on from an instruction, or why it is refused.
ghost use Rattle.std.specs.Prelude.{◌≡◌, ℕ, ◌<◌, ◌+◌, ◌^◌, ◌++◌, IfOk, OnOk};
ghost use Rattle.facts.specs.Branches.{refused_or, stepped, with_made};
ghost use Rattle.facts.specs.Fact.{Fact};
ghost use Rattle.facts.specs.Flow.{flow, goes_on, way_to};

use crate::abstract_value::AbstractValue;
use crate::context::Context;
use crate::fact::Fact;
use crate::refusal::RefusalKind;
use point_types::Items;
use scan_code::Op;
use std::alloc::{AllocError, Global};

mod jumps;
mod loads;
mod operations;
mod stores;

/// The numbers of the instructions that follow, each with what is known on the way there; or why the
/// instruction is refused; or memory was.
pub(crate) type Ways = Result<Result<Items<(usize, Fact)>, RefusalKind>, AllocError>;

/// What an instruction comes to: the next one follows with the fact as it is now, or these ways do; or why
/// it is refused.
type Onward = Result<Option<Items<(usize, Fact)>>, RefusalKind>;

/// The same, or memory was refused.
type Step = Result<Onward, AllocError>;

impl Fact {
    /// What flows on from an instruction, by its number, where this is known before it.
    pub fn flow(self, alloc: Global, context: &Context, at: usize, op: Op) -> Ways
        requires { at + 1 < 2 ^ 64 }
        ensures { IfOk result (λ ways. ways ≡ flow context.now at op self) }
    {
        let mut fact = self;
        match fact.step(alloc, context, at, op)? {
            Ok(None) => goes_on(alloc, at + 1, fact),
            Ok(Some(ways)) => Ok(Ok(ways)),
            Err(kind) => Ok(Err(kind)),
        }
    }

    /// Takes an instruction: the fact is then what is known before the next one, where that follows.
    fn step(&mut self, alloc: Global, context: &Context, at: usize, op: Op) -> Step
        requires { at + 1 < 2 ^ 64 }
        ensures { IfOk result (λ step. flow context.now at op self.old ≡ stepped at self.new step) }
    {
        match op {
            Op::End => Ok(Ok(Some(Items::new(alloc)))),
            Op::LoadVariable(v) => self.load_variable(alloc, context, at, usize::from(v)),
            Op::LoadInput(t) => self.load_input(alloc, context, at, usize::from(t)),
            Op::LoadPresence(t) => self.load_presence(alloc, context, at, usize::from(t)),
            Op::LoadBool(truth) => self.load_bool(alloc, context, at, truth),
            Op::LoadNumber(kind, number) => self.load_number(alloc, context, at, kind, number),
            Op::StoreVariable(v) => self.store_variable(alloc, context, at, usize::from(v)),
            Op::StoreOutput(t) => self.store_output(context, at, usize::from(t)),
            Op::SetVariable(v) => self.set_variable(alloc, context, at, usize::from(v)),
            Op::ResetVariable(v) => self.reset_variable(alloc, context, at, usize::from(v)),
            Op::SetOutput(t) => self.set_output(context, at, usize::from(t)),
            Op::ResetOutput(t) => self.reset_output(context, at, usize::from(t)),
            Op::Push => self.push(alloc, context, at),
            Op::Not => self.not(alloc, context, at),
            Op::Apply(o) => self.apply(alloc, context, at, o),
            Op::Select => self.select(alloc, context, at),
            Op::Absolute => self.absolute(alloc, context, at),
            Op::Convert(from, to) => self.convert(alloc, context, at, from, to),
            Op::Jump(condition, to) => self.jump(alloc, context, at, condition, usize::from(to)),
            Op::Return(condition) => self.leave(alloc, context, at, condition),
            Op::Repeat(condition, counter, count, to) => {
                self.repeat(context, at, condition, counter, count, usize::from(to))
            }
        }
    }

    /// The result is what was made, if it was.
    fn take_made(&mut self, made: Result<AbstractValue, RefusalKind>) -> Onward
        ensures { (at : ℕ) → with_made at self.old made ≡ stepped at self.new result }
    {
        match made {
            Ok(value) => {
                self.result = Some(value);
                Ok(None)
            }
            Err(kind) => Err(kind),
        }
    }
}

/// The next instruction follows, unless this one is refused.
fn unless(refusal: Option<RefusalKind>) -> Onward
    ensures { (at : ℕ) (fact : Fact) → refused_or refusal (goes_on (at + 1) fact) ≡ stepped at fact result }
{
    match refusal {
        None => Ok(None),
        Some(kind) => Err(kind),
    }
}

/// One way, to an instruction.
fn goes_on(alloc: Global, to: usize, fact: Fact) -> Ways
    ensures { IfOk result (λ ways. ways ≡ goes_on to fact) }
{
    let mut ways = Items::new(alloc);
    ways.push((to, fact))?;
    Ok(Ok(ways))
}

/// One more way, if it can be gone.
fn add_way(ways: &mut Items<(usize, Fact)>, to: usize, fact: Option<Fact>) -> Result<(), AllocError>
    ensures { OnOk result (ways.new ≡ ways.old ++ way_to to fact) }
{
    match fact {
        Some(fact) => ways.push((to, fact)),
        None => Ok(()),
    }
}
