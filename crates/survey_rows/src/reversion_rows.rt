//! The rows of how long devices keep what is written to them, once the gateway is gone.
use crate::point_name::{definition_of, point_name};
use crate::reversion::{Reversion, reversion_of, reversion_point};
use crate::row::Rows;
use crate::survey::Survey;
use model_defs::Point;
use note_text::push_escaped;
use point_types::{Kind, value};
use service_alarms::device_name;
use site_model::SiteTag;
use site_model::readings::known_block;
use site_model::registers::registers_at;
use std::alloc::{AllocError, Global};

/// The time after which a device ends what an `out` tag writes.
#[derive(Clone, Copy)]
struct ReversionTime<'a> {
    tag: &'a SiteTag,
    device: usize,
    /// The name of the point that says it, of the tag's model.
    point: &'static str,
}

/// A row for each time after which a device ends what `out` tags write.
pub(crate) fn reversion_rows(alloc: Global, survey: &Survey<'_>) -> Result<Rows, AllocError> {
    let mut rows = Rows::new(alloc);
    for (output, number) in survey.site.outs().iter().enumerate() {
        if let Some(time) = time_of(survey, *number) {
            if !is_told(survey, output, time) {
                push_time(alloc, &mut rows, survey, time)?;
            }
        }
    }
    Ok(rows)
}

/// The time of an `out` tag.
fn time_of<'a>(survey: &Survey<'a>, number: usize) -> Option<ReversionTime<'a>> {
    let tag = survey.site.tags().get(number)?;
    let point = reversion_point(tag.model, point_name(survey.models, tag))?;
    Some(ReversionTime {
        tag,
        device: tag.device?,
        point,
    })
}

/// Whether an output before this one has the same time.
fn is_told(survey: &Survey<'_>, output: usize, time: ReversionTime<'_>) -> bool {
    for number in survey.site.outs().iter().take(output) {
        if let Some(other) = time_of(survey, *number) {
            if is_same(time, other) {
                return true;
            }
        }
    }
    false
}

fn is_same(time: ReversionTime<'_>, other: ReversionTime<'_>) -> bool {
    other.device == time.device && other.tag.model == time.tag.model && other.point == time.point
}

/// Appends the row of a time, where the block of its model was read; else the row of the output says why it wasn't.
fn push_time(
    alloc: Global,
    rows: &mut Rows,
    survey: &Survey<'_>,
    time: ReversionTime<'_>,
) -> Result<(), AllocError> {
    let core = survey.service.core();
    let Some(words) = known_block(time.tag, core.site().wants(), core.scanned()) else {
        return Ok(());
    };
    let subject = time_subject(alloc, survey, time)?;
    match point_of(survey, time) {
        Some(point) => push_seconds(alloc, rows, survey, time, subject, seconds_in(words, point)),
        None => rows.push(subject, undefined_text(alloc, time)?, true),
    }
}

/// `reversion DEVICE MODEL POINT`.
fn time_subject(
    alloc: Global,
    survey: &Survey<'_>,
    time: ReversionTime<'_>,
) -> Result<String, AllocError> {
    let mut text = String::from_str(alloc, "reversion ")?;
    push_escaped(&mut text, device_name(survey.site, time.device))?;
    let (model, point) = (time.tag.model, time.point);
    let rest = format!(in alloc; " {model} {point}")?;
    text.push_str(rest.as_str())?;
    Ok(text)
}

/// The point that says the time, by the definition of its model.
fn point_of<'a>(survey: &Survey<'a>, time: ReversionTime<'_>) -> Option<&'a Point> {
    let model = definition_of(survey.models, time.tag.model)?;
    model.points.as_slice().get(model.find(time.point)?)
}

fn undefined_text(alloc: Global, time: ReversionTime<'_>) -> Result<String, AllocError> {
    let model = time.tag.model;
    format!(in alloc;
        "isn't known: the definition of model {model} hasn't this point; hand in one that has it"
    )
}

/// The seconds that a point says, in the words of its block; None where it says none.
fn seconds_in(words: &[u16], point: &Point) -> Option<u32> {
    if point.kind == Kind::String {
        return None;
    }
    match value(
        point.kind,
        registers_at(words, point.offset, point.kind.size())?,
    )? {
        seconds @ 0..=4_294_967_295 => Some(seconds as u32),
        _ => None,
    }
}

/// Appends the row of a time of so many seconds: whether they are enough, unless an `out` tag of the site writes them.
fn push_seconds(
    alloc: Global,
    rows: &mut Rows,
    survey: &Survey<'_>,
    time: ReversionTime<'_>,
    subject: String,
    seconds: Option<u32>,
) -> Result<(), AllocError> {
    let mut said = seconds_text(alloc, seconds)?;
    if let Some(writer) = writer_of(survey, time) {
        let name = writer.name.as_str();
        let rest = format!(in alloc; ", which {name} writes")?;
        said.push_str(rest.as_str())?;
        return rows.push(subject, said, false);
    }
    let rewrite = rewrite_of(survey, time.device);
    let reversion = reversion_of(seconds, survey.every, rewrite);
    let help = help_for(alloc, survey.every, rewrite, reversion)?;
    said.push_str(help.as_str())?;
    rows.push(subject, said, reversion != Reversion::Lasts)
}

fn seconds_text(alloc: Global, seconds: Option<u32>) -> Result<String, AllocError> {
    match seconds {
        Some(seconds) => format!(in alloc; "{seconds} s"),
        None => String::from_str(alloc, "NotImplemented"),
    }
}

/// The `out` tag that writes a time.
fn writer_of<'a>(survey: &Survey<'a>, time: ReversionTime<'_>) -> Option<&'a SiteTag> {
    for number in survey.site.outs() {
        if let Some(tag) = survey.site.tags().get(*number) {
            if writes(survey, tag, time) {
                return Some(tag);
            }
        }
    }
    None
}

fn writes(survey: &Survey<'_>, tag: &SiteTag, time: ReversionTime<'_>) -> bool {
    tag.device == Some(time.device)
        && tag.model == time.tag.model
        && point_name(survey.models, tag) == time.point
}

fn rewrite_of(survey: &Survey<'_>, device: usize) -> u16 {
    match survey.site.devices().get(device) {
        Some(device) => device.rewrite,
        None => 0,
    }
}

/// What is wrong with a time, and what to do.
fn help_for(
    alloc: Global,
    every: u32,
    rewrite: u16,
    reversion: Reversion,
) -> Result<String, AllocError> {
    let least = least_seconds(every, rewrite);
    match reversion {
        Reversion::Never => {
            format!(in alloc;
                ": nothing ends what is written once the gateway is gone; give it {least} s or more in the device"
            )
        }
        Reversion::WithinPeriods => {
            format!(in alloc;
                ": less than two periods of {every} ms, so one scan without a write ends it; give it {least} s or more in the device"
            )
        }
        Reversion::WithinRewrites => {
            format!(in alloc;
                ": less than twice rewrite = {rewrite}, so one lost write ends it; give it {least} s or more in the device"
            )
        }
        Reversion::Lasts => Ok(String::new(alloc)),
    }
}

/// The least seconds that are long enough.
fn least_seconds(every: u32, rewrite: u16) -> u64 {
    let periods = (2 * u64::from(every) + 999) / 1000;
    periods.max(2 * u64::from(rewrite)).max(1)
}
