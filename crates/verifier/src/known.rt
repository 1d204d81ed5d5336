//! What is known before an instruction, by the pass of the verdict.
ghost use Rattle.std.specs.Prelude.{◌≡◌, ◌≢◌, ◌<◌, ◌^◌, length, IfErr, IfOk, OnOk};
ghost use Rattle.facts.specs.Slots.{entry_fact};
ghost use Rattle.facts.specs.declared.refusal.RefusalKind.TheVariants as kinds;
ghost use Rattle.facts.specs.Word.{AnswersOrWantsMemory};
ghost use Rattle.verifier.specs.Gathered.{AreGathered, NoneRefuses};
ghost use Rattle.verifier.specs.Heads.{heads_of};
ghost use Rattle.verifier.specs.Known.{IsEarlierRefusal, IsKnownAt, all_told};
ghost use Rattle.verifier.specs.Passing.{all_stood, stood};
ghost use Rattle.verifier.specs.Verdict.{frame_of};

use crate::arrived::Arrived;
use crate::heads::loop_heads;
use crate::pass::{known_at, opened, pass_on};
use crate::tag_link::links;
use crate::told::{Standing, standing_beside};
use crate::verify::{frame_of, listed};
use facts::context::Context;
use facts::fact::Fact;
use facts::refusal::{Refusal, RefusalKind};
use point_types::Items;
use scan_code::Image;
use site_model::Site;
use std::alloc::{AllocError, Global};

/// What an image is judged by for a site, with at most `depth` deferred values. Refused is the first tag
/// that isn't the site's, else the first instruction that isn't one.
pub fn framed(alloc: Global, image: &Image, site: &Site, depth: usize) -> Result<Context, Refusal>
    ensures framed { AnswersOrWantsMemory (λ context. context) (frame_of image.now site.now.tags depth) result }
    ensures few { IfOk result (λ context. length context.listing < 65536) }
{
    let links = match links(alloc, site.tags(), image.tags.as_slice()) {
        Ok(links) => links,
        Err(refusal) => return Err(refusal),
    };
    let listing = match listed(alloc, image) {
        Ok(listing) => listing,
        Err(refusal) => return Err(refusal),
    };
    let context = frame_of(alloc, image, links.as_slice(), depth, listing)?;
    Ok(context)
}

/// What is known before an instruction: nothing where no path reaches it. Refused is the first instruction
/// that is refused, where it stands before that one.
pub fn known(alloc: Global, context: &Context, at: usize) -> Result<Arrived<Fact>, Refusal>
    requires few { length context.now.listing < 65536 }
    requires within { at < length context.now.listing }
    ensures known { IfOk result (λ slot. IsKnownAt context.now at (stood (λ fact. fact) slot)) }
    ensures refused { IfErr result (IsEarlierRefusal context.now at) }
{
    let heads = loop_heads(alloc, context.instructions())?;
    let mut pending = opened::<Fact>(alloc, context)?;
    known_over(alloc, context, &heads, &mut pending, at)
}

/// The same, where nothing flows yet.
fn known_over(
    alloc: Global,
    context: &Context,
    heads: &[usize],
    pending: &mut [Arrived<Fact>],
    at: usize,
) -> Result<Arrived<Fact>, Refusal>
    requires few { length context.now.listing < 65536 }
    requires heads { heads.now ≡ heads_of context.now.listing }
    requires long { length pending.old ≡ length context.now.listing }
    requires opened { AreGathered context.now 0 0 (all_stood (λ fact. fact) pending.old) }
    requires within { at < length context.now.listing }
    ensures known { IfOk result (λ slot. IsKnownAt context.now at (stood (λ fact. fact) slot)) }
    ensures refused { IfErr result (IsEarlierRefusal context.now at) }
{
    match pass_to(alloc, context, heads, pending, at) {
        Ok(()) => Ok(known_at(alloc, context, heads, pending, at)?),
        Err(refusal) => Err(refusal),
    }
}

/// Passes the instructions before one.
fn pass_to(
    alloc: Global,
    context: &Context,
    heads: &[usize],
    pending: &mut [Arrived<Fact>],
    end: usize,
) -> Result<(), Refusal>
    requires few { length context.now.listing < 65536 }
    requires heads { heads.now ≡ heads_of context.now.listing }
    requires long { length pending.old ≡ length context.now.listing }
    requires opened { AreGathered context.now 0 0 (all_stood (λ fact. fact) pending.old) }
    requires within { end < length context.now.listing }
    ensures gathered { OnOk result (AreGathered context.now end end (all_stood (λ fact. fact) pending.new)) }
    ensures refused { IfErr result (IsEarlierRefusal context.now end) }
{
    let mut at = 0;
    while at < end {
        let slot = known_at(alloc, context, heads, pending, at)?;
        match pass_on(alloc, context, pending, at, slot) {
            Ok(()) => at += 1,
            Err(refusal) => return Err(refusal),
        }
    }
    Ok(())
}

/// What is told before each instruction, up to the first one that is refused, itself included.
pub fn all_told(alloc: Global, context: &Context) -> Result<Items<Standing>, AllocError>
    requires { length context.now.listing < 65536 }
    ensures { IfOk result (λ standings. standings ≡ all_told context.now) }
{
    let heads = loop_heads(alloc, context.instructions())?;
    let mut pending = opened::<Fact>(alloc, context)?;
    let entry = Fact::entry(alloc, context)?;
    all_told_over(alloc, context, &heads, &mut pending, &entry)
}

/// The same, where nothing flows yet.
fn all_told_over(
    alloc: Global,
    context: &Context,
    heads: &[usize],
    pending: &mut [Arrived<Fact>],
    entry: &Fact,
) -> Result<Items<Standing>, AllocError>
    requires few { length context.now.listing < 65536 }
    requires heads { heads.now ≡ heads_of context.now.listing }
    requires long { length pending.old ≡ length context.now.listing }
    requires opened { AreGathered context.now 0 0 (all_stood (λ fact. fact) pending.old) }
    requires entry { entry.now ≡ entry_fact context.now }
    ensures { IfOk result (λ standings. standings ≡ all_told context.now) }
{
    let mut standings = Items::new(alloc);
    let mut at = 0;
    while at < context.size() {
        let slot = known_at(alloc, context, heads, pending, at)?;
        standings.push(standing_beside(alloc, entry, &slot)?)?;
        match pass_on(alloc, context, pending, at, slot) {
            Ok(()) => at += 1,
            Err(refusal) => {
                had_memory(refusal)?;
                return Ok(standings);
            }
        }
    }
    Ok(standings)
}

/// Goes on where a refusal isn't one of memory.
fn had_memory(refusal: Refusal) -> Result<(), AllocError>
    ensures { OnOk result (refusal.kind ≢ kinds.OutOfMemory) }
{
    if let RefusalKind::OutOfMemory = refusal.kind {
        return Err(AllocError);
    }
    Ok(())
}
