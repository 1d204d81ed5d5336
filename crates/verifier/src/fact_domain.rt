//! What the pass wants of facts.
ghost use Rattle.std.specs.Prelude.{◌≡◌};

use facts::context::Context;
use facts::fact::Fact;
use facts::refusal::RefusalKind;
use point_types::Items;
use scan_code::Op;
use std::alloc::{AllocError, Global};

/// What flows on from an instruction: the numbers of the instructions that follow, each with what is
/// known on the way there, or why the instruction is refused; or memory was.
pub type Ways<F> = Result<Result<Items<(usize, F)>, RefusalKind>, AllocError>;

/// What is known before an instruction, however it is kept: each operation does what it does on the fact
/// that is stood for.
pub trait FactDomain: Drop {
    ghost use Rattle.std.specs.Prelude.{◌≡◌, ◌<◌, ◌+◌, ◌^◌, length, option_map, IfOk};
    ghost use Rattle.facts.specs.declared.fact.Fact.{Fact};
    ghost use Rattle.facts.specs.Fact.{met};
    ghost use Rattle.facts.specs.Flow.{flow};
    ghost use Rattle.facts.specs.Slots.{entry_fact};
    ghost use Rattle.verifier.specs.Passing.{flow_stood};

    /// The fact that it stands for.
    ghost stands: { Self → Fact };

    /// What is known before the first instruction.
    fn entry(alloc: Global, context: &Context) -> Result<Self, AllocError>
        ensures { IfOk result (λ fact. stands fact ≡ entry_fact context.now) };

    /// What flows on from an instruction.
    fn flow(self, alloc: Global, context: &Context, at: usize, op: Op) -> Ways<Self>
        requires { at + 1 < 2 ^ 64 }
        ensures { IfOk result (λ ways. flow_stood stands ways ≡ flow context.now at op (stands self)) };

    /// What holds on both ways that meet; None where their deferred values differ in number.
    fn meet(self, alloc: Global, other: Self) -> Result<Option<Self>, AllocError>
        ensures { IfOk result (λ both. option_map stands both ≡ met (stands self) (stands other)) };

    /// How many values are deferred.
    fn depth(&self) -> usize
        ensures { result ≡ length (stands self.now).deferred };
}

impl FactDomain for Fact {
    ghost stands = { λ fact. fact };

    fn entry(alloc: Global, context: &Context) -> Result<Self, AllocError> {
        Fact::entry(alloc, context)
    }

    fn flow(self, alloc: Global, context: &Context, at: usize, op: Op) -> Ways<Self> {
        Fact::flow(self, alloc, context, at, op)
    }

    fn meet(self, alloc: Global, other: Self) -> Result<Option<Self>, AllocError> {
        Fact::meet(self, alloc, other)
    }

    fn depth(&self) -> usize {
        Fact::depth(self)
    }
}
