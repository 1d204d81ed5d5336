//! What flows on from jumps and returns.

ghost use Rattle.std.specs.Prelude.{◌<◌, ◌+◌, ◌^◌};

use crate::tests::full::Stop;
use crate::tests::full::fact::FullFact;
use crate::tests::full::flow::Ways;
use point_types::Condition;
use std::alloc::Global;
use verifier::context::Context;
use verifier::refusal::RefusalKind;

/// JMP, JMPC, JMPCN: to a later instruction.
pub(crate) fn jump(
    alloc: Global,
    context: &Context,
    at: usize,
    condition: Condition,
    to: u16,
    fact: &FullFact,
    ways: &mut Ways,
) -> Result<(), Stop>
    requires { at + 1 < 2 ^ 64 }
{
    match condition {
        Condition::Always => add_fact(alloc, later(context, at, to)?, fact, ways),
        Condition::IfTrue => jump_where(alloc, context, at, true, to, fact, ways),
        Condition::IfFalse => jump_where(alloc, context, at, false, to, fact, ways),
    }
}

/// A jump where the result is this truth.
fn jump_where(
    alloc: Global,
    context: &Context,
    at: usize,
    truth: bool,
    to: u16,
    fact: &FullFact,
    ways: &mut Ways,
) -> Result<(), Stop>
    requires { at + 1 < 2 ^ 64 }
{
    fact.bool_result()?;
    let target = later(context, at, to)?;
    add_way(alloc, at + 1, fact, !truth, ways)?;
    add_way(alloc, target, fact, truth, ways)
}

/// A way on which the same is known.
fn add_fact(alloc: Global, to: usize, fact: &FullFact, ways: &mut Ways) -> Result<(), Stop> {
    ways.push((to, fact.copied(alloc)?))?;
    Ok(())
}

/// RET, RETC, RETCN: the scan ends.
pub(crate) fn leave(
    alloc: Global,
    at: usize,
    condition: Condition,
    fact: &FullFact,
    ways: &mut Ways,
) -> Result<(), Stop>
    requires { at + 1 < 2 ^ 64 }
{
    match condition {
        Condition::Always => Ok(()),
        Condition::IfTrue => add_way(alloc, at + 1, fact, false, ways),
        Condition::IfFalse => add_way(alloc, at + 1, fact, true, ways),
    }
}

/// A counted jump: back to an earlier instruction, where nothing is deferred.
pub(crate) fn repeat(
    context: &Context,
    at: usize,
    condition: Condition,
    to: u16,
    fact: &FullFact,
) -> Result<(), Stop> {
    if fact.deferred.len() > 0 {
        return Err(Stop::Refused(RefusalKind::Stack));
    }
    if condition != Condition::Always {
        fact.bool_result()?;
    }
    match number_of(context, to) {
        Some(number) if number <= at => Ok(()),
        _ => Err(Stop::Refused(RefusalKind::Jump)),
    }
}

/// The way on which the result, a BOOL, is this truth, if it can be.
fn add_way(
    alloc: Global,
    to: usize,
    fact: &FullFact,
    truth: bool,
    ways: &mut Ways,
) -> Result<(), Stop> {
    let result = fact.bool_result()?;
    if let Some(way) = fact.way_where(alloc, result, truth)? {
        ways.push((to, way))?;
    }
    Ok(())
}

/// The number of a later instruction, at an address.
fn later(context: &Context, at: usize, to: u16) -> Result<usize, RefusalKind> {
    match number_of(context, to) {
        Some(number) if at < number => Ok(number),
        _ => Err(RefusalKind::Jump),
    }
}

/// The number of the instruction at an address.
fn number_of(context: &Context, to: u16) -> Option<usize> {
    context
        .instructions()
        .iter()
        .position(|(address, _)| *address == usize::from(to))
}
