//! The pass over a program: from each fact to the facts that follow.
ghost use Rattle.std.specs.Prelude.{◌≡◌, ℕ, ◌<◌, ◌+◌, ◌^◌, length, Some, IfErr, IfOk, OnOk, slice_get, slice_set};
ghost use Rattle.verifier.specs.Gathered.{AreGathered, IsRefusedAt, NoneRefuses, slot_before};
ghost use Rattle.verifier.specs.Heads.{heads_of};
ghost use Rattle.verifier.specs.Passing.{all_delivered, all_stood, closed, delivered, flow_stood, opening, passed, stood, ways_stood};
ghost use Rattle.facts.specs.Slots.{Holds, Slot, Unreached, address_of, flow_of, head_slot, is_loop_head, is_reached, meets};
ghost use Rattle.facts.specs.Word.{AnswersOrWantsMemory};

use crate::arrived::Arrived;
use crate::fact_domain::{FactDomain, Ways};
use crate::heads::{is_head, loop_heads};
use facts::context::Context;
use facts::refusal::{Refusal, RefusalKind, RefusedAt};
use point_types::Items;
use std::alloc::{AllocError, Global};
use std::mem;

/// Which instructions a fact reaches, where none of them refuses; else the first refusal. Facts flow to
/// later instructions alone, so that one pass forward finds them all (IEC 61131-3 edition 2, 3.2.1).
pub fn pass<F: FactDomain>(alloc: Global, context: &Context) -> Result<Items<bool>, Refusal>
    requires { length context.now.listing < 2 ^ 63 }
    ensures { AnswersOrWantsMemory (λ reached. reached) (passed context.now) result }
{
    let heads = loop_heads(alloc, context.instructions())?;
    let mut pending = opened::<F>(alloc, context)?;
    pass_over(alloc, context, &heads, &mut pending)
}

fn pass_over<F: FactDomain>(
    alloc: Global,
    context: &Context,
    heads: &[usize],
    pending: &mut [Arrived<F>],
) -> Result<Items<bool>, Refusal>
    requires few { length context.now.listing < 2 ^ 63 }
    requires heads { heads.now ≡ heads_of context.now.listing }
    requires long { length pending.old ≡ length context.now.listing }
    requires opened { (n : ℕ) (slot : Slot) → slice_get (all_stood F.stands pending.old) n ≡ Some slot → slot ≡ opening context.now n }
    ensures { AnswersOrWantsMemory (λ reached. reached) (passed context.now) result }
{
    let mut reached = Items::new(alloc);
    let mut at = 0;
    while at < context.size() {
        let slot = known_at(alloc, context, heads, pending, at)?;
        reached.push(has_fact(&slot))?;
        match pass_on(alloc, context, pending, at, slot) {
            Ok(()) => at += 1,
            Err(refusal) => return Err(refusal),
        }
    }
    Ok(reached)
}

/// What is known before an instruction to which all has come: nothing where no path reaches it.
pub(crate) fn known_at<F: FactDomain>(
    alloc: Global,
    context: &Context,
    heads: &[usize],
    pending: &mut [Arrived<F>],
    at: usize,
) -> Result<Arrived<F>, AllocError>
    requires heads { heads.now ≡ heads_of context.now.listing }
    requires within { at < length context.now.listing }
    requires long { length pending.old ≡ length context.now.listing }
    requires gathered { AreGathered context.now at at (all_stood F.stands pending.old) }
    ensures known { IfOk result (λ slot. stood F.stands slot ≡ slot_before context.now at) }
    ensures left { AreGathered context.now at (at + 1) (all_stood F.stands pending.new) }
{
    let arrived = taken(pending, at);
    let slot = close(alloc, context, heads, at, arrived)?;
    Ok(slot)
}

/// Brings what flows on from an instruction to where it flows, or refuses the instruction.
pub(crate) fn pass_on<F: FactDomain>(
    alloc: Global,
    context: &Context,
    pending: &mut [Arrived<F>],
    at: usize,
    slot: Arrived<F>,
) -> Result<(), Refusal>
    requires within { at < length context.now.listing }
    requires few { at + 1 < 2 ^ 64 }
    requires known { stood F.stands slot ≡ slot_before context.now at }
    requires gathered { AreGathered context.now at (at + 1) (all_stood F.stands pending.old) }
    requires unrefused { NoneRefuses context.now at }
    ensures gathered { OnOk result (AreGathered context.now (at + 1) (at + 1) (all_stood F.stands pending.new)) }
    ensures unrefused { OnOk result (NoneRefuses context.now (at + 1)) }
    ensures refused { IfErr result (IsRefusedAt context.now at) }
{
    match flow_of(alloc, context, at, slot)? {
        Ok(ways) => {
            deliver_all(alloc, pending, ways)?;
            Ok(())
        }
        Err(kind) => Err(Refusal {
            at: RefusedAt::Instruction(at),
            kind,
        }),
    }
}

/// What stands at each instruction before anything flows there.
pub(crate) fn opened<F: FactDomain>(
    alloc: Global,
    context: &Context,
) -> Result<Vec<Arrived<F>>, AllocError>
    ensures long { IfOk result (λ pending. length pending.items ≡ length context.now.listing) }
    ensures each { IfOk result (λ pending. (n : ℕ) (slot : Slot) → slice_get (all_stood F.stands pending.items) n ≡ Some slot → slot ≡ opening context.now n) }
{
    let mut pending = Vec::new(alloc);
    let mut n = 0;
    while n < context.size() {
        pending.push(open(alloc, context, n)?)?;
        n += 1;
    }
    Ok(pending)
}

fn open<F: FactDomain>(alloc: Global, context: &Context, n: usize) -> Result<Arrived<F>, AllocError>
    ensures { IfOk result (λ slot. stood F.stands slot ≡ opening context.now n) }
{
    if n == 0 {
        Ok(Arrived::AbstractValue(F::entry(alloc, context)?))
    } else {
        Ok(Arrived::Nothing)
    }
}

/// Takes what has come to an instruction.
fn taken<F: FactDomain>(pending: &mut [Arrived<F>], at: usize) -> Arrived<F>
    requires { at < length pending.old }
    ensures taken { slice_get pending.old at ≡ Some result }
    ensures left { all_stood F.stands pending.new ≡ slice_set (all_stood F.stands pending.old) at Unreached }
{
    mem::replace(&mut pending[at], Arrived::Nothing)
}

/// What is known before an instruction to which all has come. At the label of a counted jump what comes
/// is forgotten.
fn close<F: FactDomain>(
    alloc: Global,
    context: &Context,
    heads: &[usize],
    at: usize,
    arrived: Arrived<F>,
) -> Result<Arrived<F>, AllocError>
    requires heads { heads.now ≡ heads_of context.now.listing }
    requires within { at < length context.now.listing }
    ensures { IfOk result (λ slot. stood F.stands slot ≡ closed context.now at (stood F.stands arrived)) }
{
    if is_label(context, heads, at) {
        head_slot(alloc, context, arrived)
    } else {
        Ok(arrived)
    }
}

/// Whether an instruction is one that counted jumps lead to.
fn is_label(context: &Context, heads: &[usize], at: usize) -> bool
    requires heads { heads.now ≡ heads_of context.now.listing }
    requires within { at < length context.now.listing }
    ensures { result ≡ is_loop_head (address_of (slice_get context.now.listing at)) context.now.listing }
{
    let (address, _) = context.instruction(at);
    is_head(heads, address)
}

/// What is known at the label of a counted jump; deferred values may not come there.
fn head_slot<F: FactDomain>(
    alloc: Global,
    context: &Context,
    arrived: Arrived<F>,
) -> Result<Arrived<F>, AllocError>
    ensures { IfOk result (λ slot. stood F.stands slot ≡ head_slot context.now (stood F.stands arrived)) }
{
    match arrived {
        Arrived::Nothing => Ok(Arrived::AbstractValue(F::entry(alloc, context)?)),
        Arrived::AbstractValue(fact) if fact.depth() == 0 => Ok(Arrived::AbstractValue(F::entry(
            alloc, context,
        )?)),
        _ => Ok(Arrived::Clash),
    }
}

fn has_fact<F: FactDomain>(slot: &Arrived<F>) -> bool
    ensures { result ≡ is_reached (stood F.stands slot.now) }
{
    !matches!(slot, Arrived::Nothing)
}

/// What flows on from an instruction.
fn flow_of<F: FactDomain>(alloc: Global, context: &Context, at: usize, slot: Arrived<F>) -> Ways<F>
    requires within { at < length context.now.listing }
    requires few { at + 1 < 2 ^ 64 }
    ensures { IfOk result (λ ways. flow_stood F.stands ways ≡ flow_of context.now at (stood F.stands slot) (slice_get context.now.listing at)) }
{
    match slot {
        Arrived::Nothing => Ok(Ok(Items::new(alloc))),
        Arrived::AbstractValue(fact) => flow_known(alloc, context, at, fact),
        Arrived::Clash => Ok(Err(RefusalKind::Stack)),
    }
}

fn flow_known<F: FactDomain>(alloc: Global, context: &Context, at: usize, fact: F) -> Ways<F>
    requires within { at < length context.now.listing }
    requires few { at + 1 < 2 ^ 64 }
    ensures { IfOk result (λ ways. flow_stood F.stands ways ≡ flow_of context.now at (Holds (F.stands fact)) (slice_get context.now.listing at)) }
{
    let (_, op) = context.instruction(at);
    fact.flow(alloc, context, at, op)
}

/// Brings each fact to its instruction, if there is such a one.
fn deliver_all<F: FactDomain>(
    alloc: Global,
    pending: &mut [Arrived<F>],
    ways: Items<(usize, F)>,
) -> Result<(), AllocError>
    ensures { OnOk result (all_stood F.stands pending.new ≡ all_delivered (ways_stood F.stands ways) (all_stood F.stands pending.old)) }
{
    let mut ways = ways.into_vec();
    while !ways.is_empty() {
        let (to, fact) = ways.remove(0);
        deliver(alloc, pending, to, fact)?;
    }
    Ok(())
}

fn deliver<F: FactDomain>(
    alloc: Global,
    pending: &mut [Arrived<F>],
    to: usize,
    fact: F,
) -> Result<(), AllocError>
    ensures { OnOk result (all_stood F.stands pending.new ≡ delivered to (F.stands fact) (all_stood F.stands pending.old)) }
{
    if to < pending.len() {
        let before = taken(pending, to);
        pending[to] = meeting(alloc, before, fact)?;
    }
    Ok(())
}

/// What has come once one more fact has.
fn meeting<F: FactDomain>(
    alloc: Global,
    before: Arrived<F>,
    fact: F,
) -> Result<Arrived<F>, AllocError>
    ensures { IfOk result (λ slot. stood F.stands slot ≡ meets (stood F.stands before) (F.stands fact)) }
{
    match before {
        Arrived::Nothing => Ok(Arrived::AbstractValue(fact)),
        Arrived::AbstractValue(other) => match other.meet(alloc, fact)? {
            Some(both) => Ok(Arrived::AbstractValue(both)),
            None => Ok(Arrived::Clash),
        },
        Arrived::Clash => Ok(Arrived::Clash),
    }
}
