//! The rows of inputs.
use crate::point_name::point_name;
use crate::row::Rows;
use crate::seen::Wrongs;
use crate::survey::Survey;
use crate::units::push_unit;
use gateway::{Core, DEPTH};
use note_text::{decimal, escaped, push_escaped};
use point_types::{Cause, Reading};
use service_alarms::{
    Alarm, AlarmSubject, MetNumber, device_name, is_lacking, mend, met_at, missing_text,
};
use site_model::{Access, SiteTag, Want};
use std::alloc::{AllocError, Global};

/// The rows of the `in` tags.
pub(crate) fn input_rows(
    alloc: Global,
    survey: &Survey<'_>,
    wrongs: &Wrongs,
) -> Result<Rows, AllocError> {
    let mut rows = Rows::new(alloc);
    for (number, tag) in survey.site.tags().iter().enumerate() {
        if tag.access == Access::Input {
            push_input(alloc, &mut rows, survey, wrongs, number, tag)?;
        }
    }
    Ok(rows)
}

/// Appends the row of an input: its value, or why it has none.
fn push_input(
    alloc: Global,
    rows: &mut Rows,
    survey: &Survey<'_>,
    wrongs: &Wrongs,
    number: usize,
    tag: &SiteTag,
) -> Result<(), AllocError> {
    let subject = tag_subject(alloc, "input", survey, tag)?;
    match wrongs.with(AlarmSubject::Input(number)) {
        Some(Alarm::InputMissing(_, cause)) => {
            let said = missing(alloc, survey, wrongs, number, tag, cause)?;
            rows.push(subject, said, true)
        }
        _ => push_value(alloc, rows, survey, number, tag, subject),
    }
}

/// Appends the row of an input that has a value. Where its device counts in finer steps than the tag, and that isn't rounded,
/// another value is missing.
fn push_value(
    alloc: Global,
    rows: &mut Rows,
    survey: &Survey<'_>,
    number: usize,
    tag: &SiteTag,
    subject: String,
) -> Result<(), AllocError> {
    let core = survey.service.core();
    let met = met_at(core, tag);
    let mut said = match core.readings().get(number) {
        Some(Reading::Value(n)) => value_text(alloc, survey, i128::from(*n), tag, met)?,
        _ => String::new(alloc),
    };
    let is_finer = is_finer(tag, met);
    if is_finer {
        let help = mend(alloc, core, Alarm::InputMissing(number, Cause::Inexact))?;
        said.push_str(": values between will be missing (Inexact); ")?;
        said.push_str(help.as_str())?;
    }
    rows.push(subject, said, is_finer)
}

/// Whether a device counts in finer steps than a tag that isn't rounded.
fn is_finer(tag: &SiteTag, met: Option<MetNumber>) -> bool {
    match met {
        Some(
            MetNumber {
                factor: Some(factor),
                ..
            },
        ) => !tag.down && tag.bit.is_none() && factor < i16::from(tag.exponent),
        _ => false,
    }
}

/// `KIND NAME DEVICE MODEL POINT`.
pub(crate) fn tag_subject(
    alloc: Global,
    kind: &str,
    survey: &Survey<'_>,
    tag: &SiteTag,
) -> Result<String, AllocError> {
    let name = tag.name.as_str();
    let mut text = format!(in alloc; "{kind} {name} ")?;
    if let Some(device) = tag.device {
        push_escaped(&mut text, device_name(survey.site, device))?;
    }
    let model = tag.model;
    let rest = format!(in alloc; " {model} ")?;
    text.push_str(rest.as_str())?;
    push_escaped(&mut text, point_name(survey.models, tag))?;
    Ok(text)
}

/// `VALUE UNIT raw R factor F`.
fn value_text(
    alloc: Global,
    survey: &Survey<'_>,
    n: i128,
    tag: &SiteTag,
    met: Option<MetNumber>,
) -> Result<String, AllocError> {
    let mut text = decimal(alloc, n, tag.exponent)?;
    push_unit(&mut text, survey, tag)?;
    if let Some(met) = met {
        let met = met_text(alloc, met)?;
        text.push_str(met.as_str())?;
    }
    Ok(text)
}

/// ` raw R factor F`, or ` raw R` where there is no factor.
pub(crate) fn met_text(alloc: Global, met: MetNumber) -> Result<String, AllocError> {
    let raw = met.raw;
    match met.factor {
        Some(factor) => format!(in alloc; " raw {raw} factor {factor}"),
        None => format!(in alloc; " raw {raw}"),
    }
}

/// `missing CAUSE: ` and what to do.
pub(crate) fn missing(
    alloc: Global,
    survey: &Survey<'_>,
    wrongs: &Wrongs,
    number: usize,
    tag: &SiteTag,
    cause: Cause,
) -> Result<String, AllocError> {
    let core = survey.service.core();
    let told = missing_text(alloc, cause, met_at(core, tag))?;
    let help = match wrong_device(core, wrongs, tag) {
        Some(device) if cause == Cause::NoBlock => see_device(alloc, survey, device)?,
        _ => mend(alloc, core, Alarm::InputMissing(number, cause))?,
    };
    let text = format!(in alloc; "missing {told}: {help}")?;
    Ok(text)
}

/// The device of a tag, where something is wrong with that, or it lacks the tag's model: its row says what to do.
fn wrong_device(core: &Core<DEPTH>, wrongs: &Wrongs, tag: &SiteTag) -> Option<usize> {
    let device = tag.device?;
    let want = Want {
        device,
        model: tag.model,
    };
    let is_wrong = wrongs.with(AlarmSubject::Device(device)).is_some()
        || is_lacking(core.maps(), want);
    if is_wrong { Some(device) } else { None }
}

fn see_device(alloc: Global, survey: &Survey<'_>, device: usize) -> Result<String, AllocError> {
    let name = escaped(alloc, device_name(survey.site, device))?;
    let text = format!(in alloc; "see device {name}")?;
    Ok(text)
}
