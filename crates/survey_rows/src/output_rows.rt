//! The rows of outputs: what they are now, and what of their ranges can't be written.
use crate::fitted_text::{fitted_example, fitted_text};
use crate::input_rows::{met_text, missing, tag_subject};
use crate::range_text::{no_factor, range_text};
use crate::row::Rows;
use crate::seen::Wrongs;
use crate::survey::Survey;
use crate::units::push_unit;
use note_text::decimal;
use point_types::Cause;
use point_writer::factor;
use served_notes::reason_of;
use served_ranges::{Demand, is_always_met};
use service_alarms::{Alarm, AlarmSubject, MetNumber, met_at};
use site_model::SiteTag;
use std::alloc::{AllocError, Global};

/// The rows of the `out` tags.
pub(crate) fn output_rows(
    alloc: Global,
    survey: &Survey<'_>,
    wrongs: &Wrongs,
) -> Result<Rows, AllocError> {
    let mut rows = Rows::new(alloc);
    for (output, number) in survey.site.outs().iter().enumerate() {
        if let Some(tag) = survey.site.tags().get(*number) {
            let place = PlacedOutput {
                output,
                number: *number,
                tag,
            };
            push_output(alloc, &mut rows, survey, wrongs, place)?;
        }
    }
    Ok(rows)
}

/// An output: its number among the outputs, and that of its tag.
#[derive(Clone, Copy)]
struct PlacedOutput<'a> {
    output: usize,
    number: usize,
    tag: &'a SiteTag,
}

fn push_output(
    alloc: Global,
    rows: &mut Rows,
    survey: &Survey<'_>,
    wrongs: &Wrongs,
    place: PlacedOutput<'_>,
) -> Result<(), AllocError> {
    let subject = tag_subject(alloc, "output", survey, place.tag)?;
    match unreached(wrongs.with(AlarmSubject::Input(place.number))) {
        Some(cause) => {
            let said = missing(alloc, survey, wrongs, place.number, place.tag, cause)?;
            rows.push(subject, said, true)
        }
        None => push_reached(alloc, rows, survey, place, subject),
    }
}

/// Why a tag's point has no registers that are known; None where it has.
fn unreached(wrong: Option<Alarm>) -> Option<Cause> {
    match wrong {
        Some(Alarm::InputMissing(_, cause @ (Cause::NoBlock | Cause::ShortModel))) => Some(cause),
        _ => None,
    }
}

/// The row of an output whose registers are known.
fn push_reached(
    alloc: Global,
    rows: &mut Rows,
    survey: &Survey<'_>,
    place: PlacedOutput<'_>,
    subject: String,
) -> Result<(), AllocError> {
    let mut said = output_text(alloc, survey, place.tag)?;
    let is_wrong = match range_note(alloc, survey, place)? {
        Some(note) => {
            said.push_str(": ")?;
            said.push_str(note.text.as_str())?;
            note.is_wrong
        }
        None => false,
    };
    rows.push(subject, said, is_wrong)
}

/// `LOW..HIGH UNIT now VALUE raw R factor F`, or `LOW..HIGH UNIT now NotImplemented`.
fn output_text(alloc: Global, survey: &Survey<'_>, tag: &SiteTag) -> Result<String, AllocError> {
    let low = decimal(alloc, i128::from(tag.low), tag.exponent)?;
    let high = decimal(alloc, i128::from(tag.high), tag.exponent)?;
    let mut text = format!(in alloc; "{low}..{high}")?;
    push_unit(&mut text, survey, tag)?;
    let now = now_text(alloc, met_at(survey.service.core(), tag))?;
    text.push_str(" now ")?;
    text.push_str(now.as_str())?;
    Ok(text)
}

fn now_text(alloc: Global, met: Option<MetNumber>) -> Result<String, AllocError> {
    let Some(met) = met else {
        return String::from_str(alloc, "NotImplemented");
    };
    let mut text = match exponent_of(met.factor) {
        Some(exponent) => decimal(alloc, met.raw, exponent)?,
        None => String::from_str(alloc, "BadScale")?,
    };
    let rest = met_text(alloc, met)?;
    text.push_str(rest.as_str())?;
    Ok(text)
}

fn exponent_of(factor: Option<i16>) -> Option<i8> {
    match factor {
        Some(power @ -10..=10) => Some(power as i8),
        _ => None,
    }
}

/// What is said of an output's range beside it, and whether something is wrong with it.
#[derive(Drop)]
struct RangeNote {
    text: String,
    is_wrong: bool,
}

/// What of an output's range can't be said by the factor that its device gave, or what goes out in its place; None where each
/// number can be said.
fn range_note(
    alloc: Global,
    survey: &Survey<'_>,
    place: PlacedOutput<'_>,
) -> Result<Option<RangeNote>, AllocError> {
    let tag = place.tag;
    let factor = factor_of(survey, place.output);
    if exponent_of(factor).is_none() {
        let text = no_factor(alloc)?;
        return Ok(Some(RangeNote {
            text,
            is_wrong: true,
        }));
    }
    let demand = Demand {
        kind: tag.point,
        factor,
        exponent: tag.exponent,
        low: i128::from(tag.low),
        high: i128::from(tag.high),
    };
    if is_always_met(&demand) {
        return Ok(None);
    }
    let reason = reason_of(&demand);
    match fitted_example(tag, factor) {
        Some(example) => {
            let text = fitted_text(alloc, reason, tag.exponent, example)?;
            Ok(Some(RangeNote {
                text,
                is_wrong: false,
            }))
        }
        None => {
            let text = range_text(alloc, &demand, reason)?;
            Ok(Some(RangeNote {
                text,
                is_wrong: true,
            }))
        }
    }
}

/// The factor by which an output would be written.
fn factor_of(survey: &Survey<'_>, output: usize) -> Option<i16> {
    let core = survey.service.core();
    let wants = survey.site.wants().len();
    let blocks = core.scanned().get(..wants)?;
    if output < survey.site.outs().len() {
        factor(survey.site, blocks, core.maps(), output)
    } else {
        None
    }
}
