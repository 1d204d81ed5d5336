//! The rows of what clients are shown: sums, and what the program stores.
use crate::row::Rows;
use crate::seen::Wrongs;
use crate::survey::Survey;
use crate::units::push_unit_of;
use gateway::{partial_total_of, total_of};
use note_text::{decimal, escaped};
use point_types::Reading;
use served_ranges::point_of_entry;
use service_alarms::{Alarm, AlarmSubject, cause_text, mend, why_hidden};
use site_model::{Served, SiteTag, Source};
use std::alloc::{AllocError, Global};

/// A sum: its parts, by their numbers among the tags, and their total.
#[derive(Clone, Copy)]
struct Sum<'a> {
    parts: &'a [usize],
    total: Option<i64>,
}

/// The rows of the sums that clients are shown.
pub(crate) fn served_rows(
    alloc: Global,
    survey: &Survey<'_>,
    wrongs: &Wrongs,
) -> Result<Rows, AllocError> {
    let mut rows = Rows::new(alloc);
    for (number, entry) in survey.site.served().iter().enumerate() {
        if let Some(sum) = sum_of(entry, survey.service.core().readings()) {
            let wrong = wrongs.with(AlarmSubject::Sum(number));
            let subject = served_subject(alloc, survey, number)?;
            let said = match wrong {
                Some(alarm) => hidden(alloc, survey, alarm)?,
                None => total_text(alloc, survey, entry, sum)?,
            };
            rows.push(subject, said, wrong.is_some())?;
        }
    }
    Ok(rows)
}

/// `served MODEL POINT`.
fn served_subject(alloc: Global, survey: &Survey<'_>, number: usize) -> Result<String, AllocError> {
    let Some(entry) = survey.site.served().get(number) else {
        return Ok(String::new(alloc));
    };
    let name = escaped(alloc, served_name(survey, entry))?;
    let model = entry.model;
    format!(in alloc; "served {model} {name}")
}

/// The name of a served point by its definition; empty where that hasn't it.
fn served_name<'a>(survey: &Survey<'a>, entry: &Served) -> &'a str {
    match point_of_entry(survey.site.models(), entry) {
        Some(point) => point.name.as_str(),
        None => "",
    }
}

/// What an entry of the site file sums, by these readings; None where it is no sum.
fn sum_of<'a>(entry: &'a Served, readings: &[Reading]) -> Option<Sum<'a>> {
    match &entry.source {
        Source::Sum(parts) => {
            let parts = parts.as_slice();
            Some(Sum {
                parts,
                total: total_of(readings, parts),
            })
        }
        Source::PartialSum(parts) => {
            let parts = parts.as_slice();
            Some(Sum {
                parts,
                total: partial_total_of(readings, parts),
            })
        }
        Source::Raw(_) | Source::Text(_) => None,
    }
}

/// The total, and the unit of the point that shows it.
fn total_text(
    alloc: Global,
    survey: &Survey<'_>,
    entry: &Served,
    sum: Sum<'_>,
) -> Result<String, AllocError> {
    let exponent = exponent_of(survey.site.tags(), sum.parts);
    let (Some(total), Some(exponent)) = (sum.total, exponent) else {
        return Ok(String::new(alloc));
    };
    let mut text = decimal(alloc, i128::from(total), exponent)?;
    push_unit_of(&mut text, survey, entry.model, served_name(survey, entry))?;
    Ok(text)
}

fn exponent_of(tags: &[SiteTag], parts: &[usize]) -> Option<i8> {
    let first = parts.first()?;
    Some(tags.get(*first)?.exponent)
}

/// `missing CAUSE: ` and why or what to do.
fn hidden(alloc: Global, survey: &Survey<'_>, alarm: Alarm) -> Result<String, AllocError> {
    let core = survey.service.core();
    let cause = cause_text(alloc, core.site(), alarm)?;
    let help = mend(alloc, core, alarm)?;
    if !help.is_empty() {
        return format!(in alloc; "missing {cause}: {help}");
    }
    match alarm {
        Alarm::SumHidden(_, why) => {
            let why = why_hidden(alloc, core.site(), alarm, why)?;
            format!(in alloc; "missing {cause}: {why}")
        }
        _ => format!(in alloc; "missing {cause}"),
    }
}
