//! The rows of what devices say of themselves, beside what the site file says of them.
use crate::device_rows::place_text;
use crate::identity::{is_asked, said_by};
use crate::row::Rows;
use crate::survey::Survey;
use note_text::{escaped, push_escaped};
use service::Identity;
use service_alarms::{device_name, is_said, label_text, push_inside_quotes, push_label};
use std::alloc::{AllocError, Global};

/// What to do where nobody else says it.
const LOOK: &str = "look which device is there, or have the site file say what it says";

/// A row for each text that the site file says of a device, and for each serial number that it doesn't say.
pub(crate) fn identity_rows(alloc: Global, survey: &Survey<'_>) -> Result<Rows, AllocError> {
    let mut rows = Rows::new(alloc);
    for device in 0..survey.site.devices().len() {
        if is_asked(survey, device) {
            push_device(alloc, &mut rows, survey, device)?;
        }
    }
    Ok(rows)
}

fn push_device(
    alloc: Global,
    rows: &mut Rows,
    survey: &Survey<'_>,
    device: usize,
) -> Result<(), AllocError> {
    let Some(identity) = identity_at(survey, device) else {
        return push_unsaid(alloc, rows, survey, device);
    };
    let said = said_by(survey, device);
    if identity.serial.is_none() {
        push_unsaid(alloc, rows, survey, device)?;
    }
    for (point, label, registers) in [
        ("SN", identity.serial, said.serial),
        ("Mn", identity.maker, said.maker),
        ("Md", identity.model, said.model),
    ] {
        if let Some(label) = label {
            let part = Part {
                point,
                label,
                registers,
            };
            push_part(alloc, rows, survey, device, part)?;
        }
    }
    Ok(())
}

/// A text that a device must say, and what it says.
#[derive(Clone, Copy)]
struct Part<'a> {
    point: &'static str,
    label: [u16; 16],
    registers: &'a [u16],
}

/// `identity NAME POINT TEXT fits`, or what is wrong.
fn push_part(
    alloc: Global,
    rows: &mut Rows,
    survey: &Survey<'_>,
    device: usize,
    part: Part<'_>,
) -> Result<(), AllocError> {
    let subject = identity_subject(alloc, survey, device)?;
    let mut text = part_text(alloc, part.point, part.registers)?;
    let fits = is_said(alloc, Some(part.label), part.registers)?;
    if fits {
        text.push_str(" fits")?;
    } else {
        push_wrong(alloc, &mut text, survey, device, part)?;
    }
    rows.push(subject, text, !fits)
}

/// Appends ` isn't TEXT: ` and what to do.
fn push_wrong(
    alloc: Global,
    text: &mut String,
    survey: &Survey<'_>,
    device: usize,
    part: Part<'_>,
) -> Result<(), AllocError> {
    text.push_str(" isn't ")?;
    push_label(alloc, text, part.label.as_slice())?;
    text.push_str(": ")?;
    match right_one(alloc, survey, device, part)? {
        Some(other) => push_other(alloc, text, survey, other),
        None => text.push_str(LOOK),
    }
}

/// Appends where the device is that the site file means.
fn push_other(
    alloc: Global,
    text: &mut String,
    survey: &Survey<'_>,
    other: usize,
) -> Result<(), AllocError> {
    text.push_str("that is what ")?;
    push_escaped(text, device_name(survey.site, other))?;
    text.push_str(" says, at ")?;
    let place = place_text(alloc, survey, other)?;
    text.push_str(place.as_str())?;
    text.push_str("; look whether their addresses or units are swapped")
}

/// The first other device that says a serial number; of what several devices say none is looked for.
fn right_one(
    alloc: Global,
    survey: &Survey<'_>,
    device: usize,
    part: Part<'_>,
) -> Result<Option<usize>, AllocError> {
    if part.point != "SN" {
        return Ok(None);
    }
    for other in 0..survey.site.devices().len() {
        if other != device && is_said(alloc, Some(part.label), said_by(survey, other).serial)? {
            return Ok(Some(other));
        }
    }
    Ok(None)
}

/// Appends a row with the line that would say a device's serial number in the site file, where such a line can.
fn push_unsaid(
    alloc: Global,
    rows: &mut Rows,
    survey: &Survey<'_>,
    device: usize,
) -> Result<(), AllocError> {
    let said = said_by(survey, device);
    let serial = label_text(alloc, said.serial)?;
    if !may_be_pasted(serial.as_str()) {
        return Ok(());
    }
    let subject = identity_subject(alloc, survey, device)?;
    let mut text = part_text(alloc, "SN", said.serial)?;
    text.push_str(": with serial = \"")?;
    push_inside_quotes(&mut text, serial.as_str())?;
    text.push_str("\" in the site file serve writes to no other one in its place")?;
    rows.push(subject, text, false)
}

/// Whether a text stands in a site file as it is shown, and may stand there: letters of ASCII, and no blank at the begin.
fn may_be_pasted(text: &str) -> bool {
    !text.is_empty()
        && !text.starts_with(" ")
        && text
            .as_bytes()
            .iter()
            .all(|byte| *byte >= 32 && *byte < 127)
}

/// `identity NAME`.
fn identity_subject(
    alloc: Global,
    survey: &Survey<'_>,
    device: usize,
) -> Result<String, AllocError> {
    let name = escaped(alloc, device_name(survey.site, device))?;
    let text = format!(in alloc; "identity {name}")?;
    Ok(text)
}

/// `POINT TEXT`.
fn part_text(alloc: Global, point: &str, registers: &[u16]) -> Result<String, AllocError> {
    let mut text = format!(in alloc; "{point} ")?;
    push_label(alloc, &mut text, registers)?;
    Ok(text)
}

/// What a device must say of itself by the site file.
fn identity_at(survey: &Survey<'_>, device: usize) -> Option<Identity> {
    match survey.identities.get(device) {
        Some(identity) => *identity,
        None => None,
    }
}
