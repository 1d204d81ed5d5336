//! The rows of devices and of the models that they lack.
use crate::helps::device_help;
use crate::identity::push_identity;
use crate::row::Rows;
use crate::seen::Wrongs;
use crate::survey::Survey;
use gateway::{Core, DEPTH};
use note_text::{escaped, push_escaped};
use service_alarms::{
    Alarm, AlarmSubject, cause_text, device_name, is_lacking, lacks_text, push_models, refuses_text,
};
use site_model::Want;
use std::alloc::{AllocError, Global};

/// The rows of the devices, each with the models that it lacks below it.
pub(crate) fn device_rows(
    alloc: Global,
    survey: &Survey<'_>,
    wrongs: &Wrongs,
) -> Result<Rows, AllocError> {
    let mut rows = Rows::new(alloc);
    for device in 0..survey.site.devices().len() {
        let wrong = wrongs.with(AlarmSubject::Device(device));
        let subject = device_subject(alloc, survey, device)?;
        let said = device_text(alloc, survey, device, wrong)?;
        rows.push(subject, said, wrong.is_some())?;
        push_lacking(alloc, &mut rows, survey, device)?;
        push_refused(alloc, &mut rows, survey, device)?;
    }
    Ok(rows)
}

/// `device NAME`.
fn device_subject(alloc: Global, survey: &Survey<'_>, device: usize) -> Result<String, AllocError> {
    let name = escaped(alloc, device_name(survey.site, device))?;
    let text = format!(in alloc; "device {name}")?;
    Ok(text)
}

/// `ADDRESS unit U`, and how the device stands.
fn device_text(
    alloc: Global,
    survey: &Survey<'_>,
    device: usize,
    wrong: Option<Alarm>,
) -> Result<String, AllocError> {
    let mut text = place_text(alloc, survey, device)?;
    push_found(alloc, &mut text, survey, device)?;
    if let Some(alarm) = wrong {
        let lost = lost_text(alloc, survey, alarm)?;
        text.push_str(lost.as_str())?;
    }
    Ok(text)
}

/// `ADDRESS unit U`.
pub(crate) fn place_text(
    alloc: Global,
    survey: &Survey<'_>,
    device: usize,
) -> Result<String, AllocError> {
    let mut text = String::new(alloc);
    let Some(station) = survey.addresses.stations.as_slice().get(device) else {
        return Ok(text);
    };
    if let Some(address) = survey.addresses.links.as_slice().get(station.link) {
        push_escaped(&mut text, address.as_str())?;
    }
    let unit = station.unit;
    let rest = format!(in alloc; " unit {unit}")?;
    text.push_str(rest.as_str())?;
    Ok(text)
}

/// Appends ` found MODELS` and who the device is, where it has a map.
fn push_found(
    alloc: Global,
    text: &mut String,
    survey: &Survey<'_>,
    device: usize,
) -> Result<(), AllocError> {
    match survey.service.core().maps().get(device) {
        Some(Some(map)) => {
            text.push_str(" found")?;
            push_models(alloc, text, map)?;
            push_identity(alloc, text, survey, device)
        }
        _ => Ok(()),
    }
}

/// ` lost CAUSE: ` and what to do.
fn lost_text(alloc: Global, survey: &Survey<'_>, alarm: Alarm) -> Result<String, AllocError> {
    let cause = cause_text(alloc, survey.site, alarm)?;
    let help = device_help(alarm);
    let text = format!(in alloc; " lost {cause}: {help}")?;
    Ok(text)
}

/// Appends a row for each model that the map of a device lacks.
fn push_lacking(
    alloc: Global,
    rows: &mut Rows,
    survey: &Survey<'_>,
    device: usize,
) -> Result<(), AllocError> {
    let core = survey.service.core();
    for want in survey.site.wants() {
        if want.device == device && is_lacking(core.maps(), *want) {
            let subject = device_subject(alloc, survey, device)?;
            let said = lacking_text(alloc, core, *want)?;
            rows.push(subject, said, true)?;
        }
    }
    Ok(())
}

/// `lacks ID: it has MODELS, ..`.
fn lacking_text(alloc: Global, core: &Core<DEPTH>, want: Want) -> Result<String, AllocError> {
    let mut text = lacks_text(alloc, want.model)?;
    text.push_str(": it has")?;
    if let Some(Some(map)) = core.maps().get(want.device) {
        push_models(alloc, &mut text, map)?;
    }
    text.push_str("; give its tags one of these, or look for another setting or firmware")?;
    Ok(text)
}

/// Appends a row for each read that a device refused; what is missing by it has a row of its own.
fn push_refused(
    alloc: Global,
    rows: &mut Rows,
    survey: &Survey<'_>,
    device: usize,
) -> Result<(), AllocError> {
    for refusal in survey.service.refusals(device) {
        let subject = device_subject(alloc, survey, device)?;
        rows.push(subject, refuses_text(alloc, *refusal)?, false)?;
    }
    Ok(())
}
