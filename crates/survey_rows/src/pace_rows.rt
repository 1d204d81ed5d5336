//! The rows of how often devices can be asked.
use crate::row::Rows;
use crate::survey::Survey;
use note_text::escaped;
use service::Replies;
use service_alarms::device_name;
use std::alloc::{AllocError, Global};

/// The shortest period of `serve`, and the step to which one that is proposed is rounded, in milliseconds.
const STEP: u64 = 50;

/// A row for each device that answered: how long its replies took, and with which period of `serve` it keeps up.
pub(crate) fn pace_rows(alloc: Global, survey: &Survey<'_>) -> Result<Rows, AllocError> {
    let mut rows = Rows::new(alloc);
    for device in 0..survey.site.devices().len() {
        if let Some(replies) = replies_of(survey, device) {
            let name = escaped(alloc, device_name(survey.site, device))?;
            let subject = format!(in alloc; "pace {name}")?;
            rows.push(subject, pace_text(alloc, survey, device, replies)?, false)?;
        }
    }
    Ok(rows)
}

/// How long the replies of a device took, where it has a map.
fn replies_of(survey: &Survey<'_>, device: usize) -> Option<Replies> {
    let status = survey.service.device_status(device)?;
    if status.is_mapped {
        Some(status.replies)
    } else {
        None
    }
}

/// `replies in A to B ms, N requests a round: keeps up with --every P`, and what comes of the period of the survey where that is shorter.
fn pace_text(
    alloc: Global,
    survey: &Survey<'_>,
    device: usize,
    replies: Replies,
) -> Result<String, AllocError> {
    let (least, most) = (replies.least, replies.most);
    let requests = requests_of(survey, device);
    let round = round_of(survey, device);
    let period = period_for(round);
    let ending = if requests == 1 { "" } else { "s" };
    let mut text = format!(in alloc;
        "replies in {least} to {most} ms, {requests} request{ending} a round: keeps up with --every {period}"
    )?;
    let every = u64::from(survey.every.max(1));
    if round > every {
        let rounds = round.saturating_add(every - 1) / every;
        let ending = ordinal_ending(rounds);
        let rest = format!(in alloc;
            "; with {every} it is read and written each {rounds}{ending} round"
        )?;
        text.push_str(rest.as_str())?;
    }
    Ok(text)
}

/// What is put to a number that counts places, as in `5th`.
fn ordinal_ending(number: u64) -> &'static str {
    match (number % 100, number % 10) {
        (11..=13, _) => "th",
        (_, 1) => "st",
        (_, 2) => "nd",
        (_, 3) => "rd",
        _ => "th",
    }
}

/// How many requests a device has in each round: one for each model that is read, and one for each output.
fn requests_of(survey: &Survey<'_>, device: usize) -> u64 {
    let mut requests: u64 = 0;
    for want in survey.site.wants() {
        if want.device == device {
            requests = requests.saturating_add(1);
        }
    }
    for output in survey.site.outs() {
        if is_output_of(survey, *output, device) {
            requests = requests.saturating_add(1);
        }
    }
    requests
}

/// Whether a tag is an output of a device.
fn is_output_of(survey: &Survey<'_>, tag: usize, device: usize) -> bool {
    match survey.site.tags().get(tag) {
        Some(tag) => tag.device == Some(device),
        None => false,
    }
}

/// How long the requests of a round take over the connection of a device, for all devices there, each as long as its longest reply
/// took, in milliseconds.
fn round_of(survey: &Survey<'_>, device: usize) -> u64 {
    let link = link_of(survey, device);
    let mut round: u64 = 0;
    for other in 0..survey.site.devices().len() {
        if link_of(survey, other) == link {
            round = round.saturating_add(time_of(survey, other));
        }
    }
    round
}

/// How long the requests of a round to a device take; nothing where it has no map.
fn time_of(survey: &Survey<'_>, device: usize) -> u64 {
    match replies_of(survey, device) {
        Some(replies) => replies.most.saturating_mul(requests_of(survey, device)),
        None => 0,
    }
}

/// The connection of a device, by its number.
fn link_of(survey: &Survey<'_>, device: usize) -> Option<usize> {
    let station = survey.addresses.stations.as_slice().get(device)?;
    Some(station.link)
}

/// A period in which a round fits with a tenth to spare.
fn period_for(round: u64) -> u64 {
    let steps = round.saturating_add(round / 10).saturating_add(STEP - 1) / STEP;
    steps.max(1).saturating_mul(STEP)
}
