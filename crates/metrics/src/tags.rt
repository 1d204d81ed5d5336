//! What tags are.
use crate::sheet::Sheet;
use gateway::{Core, DEPTH};
use note_text::decimal;
use point_types::Reading;
use service_alarms::missing_word;
use site_model::{Access, SiteTag};
use std::alloc::AllocError;

pub(crate) fn push_tags(
    sheet: &mut Sheet,
    core: &Core<DEPTH>,
    units: &[String],
) -> Result<(), AllocError> {
    sheet.gauge(
        "sunsite_tag_value",
        "What a tag was in the last scan, or what the program stored in it. A tag that has no value isn't here.",
    )?;
    for (place, tag) in core.site().tags().iter().enumerate() {
        push_value(sheet, core, tag, place, unit_at(units, place))?;
    }
    sheet.gauge(
        "sunsite_tag_missing",
        "1 for each in tag that has no value of its own.",
    )?;
    for (place, tag) in core.site().tags().iter().enumerate() {
        push_missing(sheet, core, tag, place)?;
    }
    sheet.gauge(
        "sunsite_set_age_seconds",
        "How long ago a client set the tag. One that isn't set isn't here.",
    )?;
    for (place, tag) in core.site().tags().iter().enumerate() {
        push_age(sheet, core, tag, place)?;
    }
    Ok(())
}

fn push_value(
    sheet: &mut Sheet,
    core: &Core<DEPTH>,
    tag: &SiteTag,
    place: usize,
    unit: &str,
) -> Result<(), AllocError> {
    match tag_number(core, tag, place) {
        Some(number) => {
            let value = decimal(sheet.alloc, i128::from(number), tag.exponent)?;
            let labels = [("tag", tag.name.as_str()), ("unit", unit)];
            sheet.labelled("sunsite_tag_value", &labels, value.as_str())
        }
        None => Ok(()),
    }
}

/// The unit of the tag of this place; empty where it isn't known.
fn unit_at(units: &[String], place: usize) -> &str {
    match units.get(place) {
        Some(unit) => unit.as_str(),
        None => "",
    }
}

/// The number of the tag of this place: what the program stored where it writes it, else what it was to the program by itself.
pub fn tag_number(core: &Core<DEPTH>, tag: &SiteTag, place: usize) -> Option<i64> {
    match tag.access {
        Access::Output | Access::Shown => number_at(core.outputs(), place),
        Access::Input | Access::Setting | Access::Time => match core.readings().get(place) {
            Some(Reading::Value(number)) => Some(*number),
            _ => None,
        },
    }
}

fn number_at(numbers: &[Option<i64>], place: usize) -> Option<i64> {
    match numbers.get(place) {
        Some(number) => *number,
        None => None,
    }
}

fn push_missing(
    sheet: &mut Sheet,
    core: &Core<DEPTH>,
    tag: &SiteTag,
    place: usize,
) -> Result<(), AllocError> {
    if tag.access != Access::Input {
        return Ok(());
    }
    match core.readings().get(place) {
        Some(Reading::Default(_, cause) | Reading::Absent(cause)) => {
            let labels = [("tag", tag.name.as_str()), ("cause", missing_word(*cause))];
            sheet.labelled("sunsite_tag_missing", &labels, 1)
        }
        _ => Ok(()),
    }
}

fn push_age(
    sheet: &mut Sheet,
    core: &Core<DEPTH>,
    tag: &SiteTag,
    place: usize,
) -> Result<(), AllocError> {
    if number_at(core.settings(), place).is_none() {
        return Ok(());
    }
    match core.ages().get(place) {
        Some(Some(age)) => {
            let labels = [("tag", tag.name.as_str())];
            sheet.labelled("sunsite_set_age_seconds", &labels, *age / 1000)
        }
        _ => Ok(()),
    }
}
