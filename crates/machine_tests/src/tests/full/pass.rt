//! The pass over a program, forward from instruction to instruction.

ghost use Rattle.std.specs.Prelude.{◌<◌, ◌+◌, ◌^◌};

use crate::tests::full::Stop;
use crate::tests::full::fact::FullFact;
use crate::tests::full::flow::{Ways, flow};
use scan_code::Op;
use std::alloc::{AllocError, Global};
use verifier::context::Context;
use verifier::refusal::RefusalKind;

/// What stands before an instruction: no path comes there, this is known, or ways meet there with different numbers of
/// deferred values.
pub(crate) enum Before {
    Unreached,
    Known(FullFact),
    Clash,
}

/// Whoever drops one makes a call.
impl Drop for Before {
    fn drop(self) {
        match self {
            Before::Known(_) => {}
            Before::Unreached | Before::Clash => {}
        }
    }
}

/// What stands before each instruction, up to the first that is refused, and which one that is and why.
#[derive(Drop)]
pub(crate) struct Passed {
    pub(crate) before: Vec<Before>,
    pub(crate) refusal: Option<(usize, RefusalKind)>,
}

impl Passed {
    /// Whether this is the instruction that is refused.
    pub(crate) fn is_refused_at(&self, at: usize) -> bool {
        match self.refusal {
            Some((number, _)) => number == at,
            None => false,
        }
    }

    /// Of each instruction whether a fact reaches it.
    pub(crate) fn reached(&self, alloc: Global) -> Result<Vec<bool>, AllocError> {
        let mut reached = Vec::new(alloc);
        for before in &self.before {
            reached.push(!matches!(before, Before::Unreached))?;
        }
        Ok(reached)
    }
}

/// Passes a program.
pub(crate) fn full_pass(alloc: Global, context: &Context) -> Result<Passed, AllocError> {
    let mut before = opened(alloc, context)?;
    let refusal = first_refusal(alloc, context, before.as_mut_slice())?;
    Ok(Passed { before, refusal })
}

/// What stands before each instruction while nothing flows yet.
fn opened(alloc: Global, context: &Context) -> Result<Vec<Before>, AllocError> {
    let mut before = Vec::new(alloc);
    for _ in 0..context.size() {
        before.push(Before::Unreached)?;
    }
    if let Some(first) = before.get_mut(0) {
        *first = Before::Known(FullFact::entry(alloc, context)?);
    }
    Ok(before)
}

/// Passes the instructions up to the first that is refused.
fn first_refusal(
    alloc: Global,
    context: &Context,
    before: &mut [Before],
) -> Result<Option<(usize, RefusalKind)>, AllocError> {
    for (at, (address, op)) in context.instructions().iter().enumerate() {
        if is_label(context, *address) {
            open_label(alloc, context, at, before)?;
        }
        match flow_on(alloc, context, at, *op, before) {
            Ok(ways) => bring_all(alloc, context, before, ways)?,
            Err(Stop::Refused(kind)) => return Ok(Some((at, kind))),
            Err(Stop::Memory) => return Err(AllocError),
        }
    }
    Ok(None)
}

/// Whether a counted jump goes back to an address.
fn is_label(context: &Context, address: usize) -> bool {
    for (_, op) in context.instructions() {
        if let Op::Repeat(_, _, _, to) = op {
            if usize::from(*to) == address {
                return true;
            }
        }
    }
    false
}

/// What a counted jump goes back to begins as the program does; nothing may be deferred there.
fn open_label(
    alloc: Global,
    context: &Context,
    at: usize,
    before: &mut [Before],
) -> Result<(), AllocError> {
    let Some(slot) = before.get_mut(at) else {
        return Ok(());
    };
    let has_deferred = match slot {
        Before::Unreached => false,
        Before::Known(fact) => fact.deferred.len() > 0,
        Before::Clash => true,
    };
    *slot = if has_deferred {
        Before::Clash
    } else {
        Before::Known(FullFact::entry(alloc, context)?)
    };
    Ok(())
}

/// What flows on from an instruction.
fn flow_on(
    alloc: Global,
    context: &Context,
    at: usize,
    op: Op,
    before: &[Before],
) -> Result<Ways, Stop>
    requires { at + 1 < 2 ^ 64 }
{
    match before.get(at) {
        Some(Before::Known(fact)) => flow(alloc, context, at, op, fact),
        Some(Before::Clash) => Err(Stop::Refused(RefusalKind::Stack)),
        Some(Before::Unreached) | None => Ok(Vec::new(alloc)),
    }
}

/// Brings what flows on to where it flows.
fn bring_all(
    alloc: Global,
    context: &Context,
    before: &mut [Before],
    ways: Ways,
) -> Result<(), AllocError> {
    for (to, fact) in ways {
        if let Some(slot) = before.get_mut(to) {
            bring(alloc, context, slot, fact)?;
        }
    }
    Ok(())
}

/// One more way comes to an instruction.
fn bring(
    alloc: Global,
    context: &Context,
    slot: &mut Before,
    fact: FullFact,
) -> Result<(), AllocError> {
    let both = match slot {
        Before::Unreached => Before::Known(fact),
        Before::Known(other) => match other.met(alloc, context, &fact)? {
            Some(both) => Before::Known(both),
            None => Before::Clash,
        },
        Before::Clash => Before::Clash,
    };
    *slot = both;
    Ok(())
}
