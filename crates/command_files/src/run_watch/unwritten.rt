//! What the scans of a run stored and didn't write.
ghost use Rattle.std.specs.Prelude.{◌<◌, length};

use crate::run_watch::outgoing::outgoing;
use commands::{DEPTH, ScanWatch};
use gateway::{Core, WriteOrder};
use point_writer::NoWrite;
use refusal_notes::{escaped, unwritten_help};
use site_model::{SiteTag, raw_range};
use std::alloc::{AllocError, Global};

/// Tells on standard error, at the first scan and at each change, which outputs a scan stored and doesn't write.
#[derive(Drop)]
pub struct UnwrittenWatch<'r, R> {
    rt: &'r R,
    alloc: Global,
    quiet: bool,
    /// Of each output, why it wasn't written when it was last looked at.
    told: Vec<Option<NoWrite>>,
}

impl<'r, R: Eprint> UnwrittenWatch<'r, R> {
    /// Nothing was told yet; where it is quiet, nothing will be.
    pub fn new(rt: &'r R, alloc: Global, quiet: bool) -> UnwrittenWatch<'r, R> {
        UnwrittenWatch {
            rt,
            alloc,
            quiet,
            told: Vec::new(alloc),
        }
    }

    /// Tells of an output where its cause isn't the one that was told last.
    fn look(&mut self, core: &Core<DEPTH>, order: &WriteOrder, scan: u32, i: usize)
        requires { i < length core.now.site.outs }
    {
        let cause = unwritten(core, order, i);
        if !self.is_news(i, cause) {
            return;
        }
        if let Some(Ok(line)) = line_of(self.alloc, core, scan, i, cause) {
            let _ = self.rt.eprint(line.as_str());
        }
    }

    /// Whether this cause isn't the one that was told last of an output; it is the next one to be so. Where memory for it is
    /// refused it is told again.
    fn is_news(&mut self, i: usize, cause: Option<NoWrite>) -> bool {
        if self.told.len() == i {
            let _ = self.told.push(None);
        }
        match self.told.get_mut(i) {
            Some(told) => {
                let news = *told != cause;
                *told = cause;
                news
            }
            None => cause.is_some(),
        }
    }
}

impl<R: Eprint> ScanWatch for UnwrittenWatch<'_, R> {
    fn scanned(&mut self, core: &Core<DEPTH>, order: &WriteOrder, scan: u32) {
        if self.quiet {
            return;
        }
        for i in 0..core.site().outs().len() {
            self.look(core, order, scan, i);
        }
    }
}

/// Why a scan doesn't write an output that it stored; None where it writes it, or stored nothing.
fn unwritten(core: &Core<DEPTH>, order: &WriteOrder, i: usize) -> Option<NoWrite>
    requires { i < length core.now.site.outs }
{
    match outgoing(core, order, i) {
        Ok(_) | Err(NoWrite::NotSet) => None,
        Err(cause) => Some(cause),
    }
}

/// What is told of an output: `scan K: NAME isn't written: CAUSE (NUMBER by factor F)`, or that it is written again.
fn line_of(
    alloc: Global,
    core: &Core<DEPTH>,
    scan: u32,
    i: usize,
    cause: Option<NoWrite>,
) -> Option<Result<String, AllocError>>
    requires { i < length core.now.site.outs }
{
    let number = *core.site().outs().get(i)?;
    let tag = core.site().tags().get(number)?;
    let stored = (*core.outputs().get(number)?)?;
    match cause {
        Some(cause) => Some(cause_line(alloc, scan, tag, stored, core.factor(i), cause)),
        None => Some(again_line(alloc, scan, tag.name.as_str())),
    }
}

fn again_line(alloc: Global, scan: u32, name: &str) -> Result<String, AllocError> {
    let name = escaped(alloc, name)?;
    let line = format!(in alloc; "scan {scan}: {name} is written again\n")?;
    Ok(line)
}

fn cause_line(
    alloc: Global,
    scan: u32,
    tag: &SiteTag,
    stored: i64,
    factor: Option<i16>,
    cause: NoWrite,
) -> Result<String, AllocError> {
    let name = escaped(alloc, tag.name.as_str())?;
    let word = cause.word();
    let mut met = met(alloc, stored, factor, cause)?;
    if let (NoWrite::OutOfType, Some(factor)) = (cause, factor) {
        push_raw(alloc, &mut met, tag, stored, factor)?;
    }
    let help = unwritten_help(cause);
    let mut line = format!(in alloc; "scan {scan}: {name} isn't written: {word} ({met})\n")?;
    line.push_str("  help: ")?;
    line.push_str(help)?;
    line.push_str("\n")?;
    Ok(line)
}

/// The number that was stored, and what it meets.
fn met(
    alloc: Global,
    stored: i64,
    factor: Option<i16>,
    cause: NoWrite,
) -> Result<String, AllocError> {
    let text = match (cause, factor) {
        (NoWrite::With, _) => format!(in alloc; "{stored}, without the tag that it goes with")?,
        (NoWrite::NoBlock, _) => format!(in alloc; "{stored}, for which the device has no place")?,
        (_, Some(factor)) => format!(in alloc; "{stored} by factor {factor}")?,
        (_, None) => format!(in alloc; "{stored} without a factor")?,
    };
    Ok(text)
}

/// Appends the raw number that a number is by a factor, and those that the tag's point holds.
fn push_raw(
    alloc: Global,
    text: &mut String,
    tag: &SiteTag,
    stored: i64,
    factor: i16,
) -> Result<(), AllocError> {
    let shift = i16::from(tag.exponent).saturating_sub(factor);
    let (Some(raw), Some((low, high))) = (shifted(stored, shift), raw_range(tag.point)) else {
        return Ok(());
    };
    let raw = format!(in alloc; " is raw {raw}")?;
    text.push_str(raw.as_str())?;
    let range = format!(in alloc; ", the point holds {low}..{high}")?;
    text.push_str(range.as_str())
}

/// A number times this power of ten; none where it isn't whole or leaves 128 bits.
fn shifted(number: i64, power: i16) -> Option<i128> {
    if power < 0 {
        divided(number, power)
    } else {
        multiplied(number, power)
    }
}

fn multiplied(number: i64, power: i16) -> Option<i128> {
    let mut raw = i128::from(number);
    for _ in 0..power {
        raw = raw.checked_mul(10)?;
    }
    Some(raw)
}

/// A number divided by ten once for each step from a power up to 0.
fn divided(number: i64, power: i16) -> Option<i128> {
    let mut raw = i128::from(number);
    for _ in power..0 {
        if raw % 10 != 0 {
            return None;
        }
        raw /= 10;
    }
    Some(raw)
}
