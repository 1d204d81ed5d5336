//! What a core begins with. All memory that its events need is taken here.
ghost use Rattle.std.specs.Prelude.{◌≡◌, ◌+◌, length, map, IfOk, IfErr, OnOk};
ghost use Rattle.verifier.specs.Verified.{HasLinks};
ghost use Rattle.gateway.specs.declared.event_core.fault.CoreFault.TheVariants.{Foreign, OutOfMemory};
ghost use Rattle.gateway.specs.event_core.Core.{IsOpening, IsReady};
ghost use Rattle.gateway.specs.served.Points.{all_registers};
ghost use Rattle.gateway.specs.served.ServedImage.{AreServed};
ghost use Rattle.gateway.specs.event_core.SiteRun.{none_of, unread};

use crate::event_core::fault::CoreFault;
use crate::event_core::memory::Memory;
use crate::served::{OwnPoint, own_points, serve};
use point_types::{Cause, Items, Reading};
use site_model::{Site, SiteTag, Want, Words};
use std::alloc::{AllocError, Global};
use verifier::{TagLink, Verified};

/// All that a core makes for itself.
#[derive(Drop)]
pub(crate) struct Opening {
    pub(crate) points: Items<OwnPoint>,
    pub(crate) known: Memory,
    pub(crate) image: Vec<u16>,
    pub(crate) room: Vec<Option<i64>>,
    pub(crate) inputs: Vec<Reading>,
}

/// What a core for this site and this program begins with. Foreign: the program was accepted for tags that the site
/// doesn't have so.
pub(crate) fn opening_for<const DEPTH: usize>(
    alloc: Global,
    site: &Site,
    verified: &Verified<DEPTH>,
) -> Result<Opening, CoreFault>
    ensures ready { IfOk result (IsReady site.now verified.now.links) }
    ensures matched { OnOk result (HasLinks site.now.tags verified.now.links) }
    ensures foreign { IfErr result (λ e. e ≡ Foreign → HasLinks site.now.tags verified.now.links → ⊥) }
    ensures memory { IfErr result (λ e. e ≡ OutOfMemory → HasLinks site.now.tags verified.now.links) }
{
    if !verified.matches(site) {
        return Err(CoreFault::Foreign);
    }
    Ok(made(alloc, site, verified.links())?)
}

fn made(alloc: Global, site: &Site, links: &[TagLink]) -> Result<Opening, AllocError>
    ensures { IfOk result (IsReady site.now links.now) }
{
    let room = no_numbers(alloc, site.tags())?;
    let inputs = no_inputs(alloc, links)?;
    let points = own_points(alloc, site)?;
    let known = nothing_known(alloc, site)?;
    let image = first_image(alloc, points.as_slice(), site, &known)?;
    Ok(Opening {
        points,
        known,
        image,
        room,
        inputs,
    })
}

/// Nothing is known or set, and there was no scan.
fn nothing_known(alloc: Global, site: &Site) -> Result<Memory, AllocError>
    ensures { IfOk result (IsOpening site.now) }
{
    let blocks = no_blocks(alloc, site.wants())?;
    let sets = no_numbers(alloc, site.tags())?;
    let ages = no_ages(alloc, site.tags())?;
    let outputs = no_numbers(alloc, site.tags())?;
    let readings = no_readings(alloc, site.tags())?;
    let scanned = no_blocks(alloc, site.wants())?;
    Ok(Memory {
        blocks,
        sets,
        ages,
        elapsed: None,
        outputs,
        readings,
        steps: 0,
        scanned,
    })
}

fn no_blocks(alloc: Global, wants: &[Want]) -> Result<Vec<Option<Words>>, AllocError>
    ensures { IfOk result (λ blocks. blocks.items ≡ none_of wants.now) }
{
    wants.iter().map(|_| None).collect(alloc)
}

/// No number for each tag.
fn no_numbers(alloc: Global, tags: &[SiteTag]) -> Result<Vec<Option<i64>>, AllocError>
    ensures { IfOk result (λ numbers. numbers.items ≡ none_of tags.now) }
{
    tags.iter().map(|_| None).collect(alloc)
}

fn no_ages(alloc: Global, tags: &[SiteTag]) -> Result<Vec<Option<u32>>, AllocError>
    ensures { IfOk result (λ ages. ages.items ≡ none_of tags.now) }
{
    tags.iter().map(|_| None).collect(alloc)
}

fn no_readings(alloc: Global, tags: &[SiteTag]) -> Result<Vec<Reading>, AllocError>
    ensures { IfOk result (λ readings. readings.items ≡ map unread tags.now) }
{
    tags.iter()
        .map(|_| Reading::Absent(Cause::NoBlock))
        .collect(alloc)
}

/// A place for the reading of each tag of a program. Foreign: it was accepted for tags that the site doesn't have so.
pub(crate) fn inputs_for<const DEPTH: usize>(
    alloc: Global,
    site: &Site,
    verified: &Verified<DEPTH>,
) -> Result<Vec<Reading>, CoreFault>
    ensures sized { IfOk result (λ inputs. length inputs.items ≡ length verified.now.links) }
    ensures matched { OnOk result (HasLinks site.now.tags verified.now.links) }
    ensures foreign { IfErr result (λ e. e ≡ Foreign → HasLinks site.now.tags verified.now.links → ⊥) }
    ensures memory { IfErr result (λ e. e ≡ OutOfMemory → HasLinks site.now.tags verified.now.links) }
{
    if !verified.matches(site) {
        return Err(CoreFault::Foreign);
    }
    Ok(no_inputs(alloc, verified.links())?)
}

/// A place for the reading of each of a program's tags.
fn no_inputs(alloc: Global, links: &[TagLink]) -> Result<Vec<Reading>, AllocError>
    ensures { IfOk result (λ inputs. length inputs.items ≡ length links.now) }
{
    links
        .iter()
        .map(|_| Reading::Absent(Cause::NoBlock))
        .collect(alloc)
}

/// The served image where that is known.
fn first_image(
    alloc: Global,
    points: &[OwnPoint],
    site: &Site,
    known: &Memory,
) -> Result<Vec<u16>, AllocError>
    ensures served { IfOk result (λ image. AreServed site.now known.now.outputs.items known.now.readings.items known.now.sets.items points.now image.items) }
    ensures sized { IfOk result (λ image. length image.items ≡ all_registers points.now) }
{
    let mut image = blank_image(alloc, points)?;
    serve(points, site, known, &mut image);
    Ok(image)
}

/// So many registers as the points have.
fn blank_image(alloc: Global, points: &[OwnPoint]) -> Result<Vec<u16>, AllocError>
    ensures { IfOk result (λ image. length image.items ≡ all_registers points.now) }
{
    let mut image = Vec::new(alloc);
    for point in points {
        push_zeros(&mut image, point.registers())?;
    }
    Ok(image)
}

fn push_zeros(image: &mut Vec<u16>, n: usize) -> Result<(), AllocError>
    ensures { OnOk result (length image.new.items ≡ length image.old.items + n) }
{
    for _ in 0..n {
        image.push(0)?;
    }
    Ok(())
}
