//! What clients read of sums and of the points of tags, as JSON.
use crate::members::{put_number, put_signed, put_text};
use gateway::{Core, DEPTH, partial_total_of, total_of};
use serde_json::{Map, Value};
use served_ranges::{point_of_entry, point_of_tag};
use service_alarms::{Alarm, StandingAlarm, cause_text};
use site_model::{Access, Served, SiteTag, Source};
use std::alloc::{AllocError, Global};

/// Each point that shows a sum, in the site file's order, and then each of a `set` or `site` tag: its number, or why it has none;
/// neither where nothing is set or stored so far. `standing` is what is wrong.
pub(crate) fn served_value(
    alloc: Global,
    core: &Core<DEPTH>,
    standing: &[StandingAlarm],
) -> Result<Vec<Value>, AllocError> {
    let mut values = Vec::new(alloc);
    for (number, entry) in core.site().served().iter().enumerate() {
        if let Some(parts) = parts_of(&entry.source) {
            let hidden = hidden_sum(standing, number);
            let value = sum_value(alloc, core, entry, parts, hidden)?;
            values.push(value)?;
        }
    }
    for (place, tag) in core.site().tags().iter().enumerate() {
        if tag.access == Access::Setting || tag.access == Access::Shown {
            let hidden = hidden_tag(standing, place);
            let value = tag_value(alloc, core, tag, place, hidden)?;
            values.push(value)?;
        }
    }
    Ok(values)
}

/// The tags whose sum is shown.
fn parts_of(source: &Source) -> Option<&[usize]> {
    match source {
        Source::Sum(parts) => Some(parts.as_slice()),
        Source::PartialSum(parts) => Some(parts.as_slice()),
        Source::Raw(_) | Source::Text(_) => None,
    }
}

fn sum_value(
    alloc: Global,
    core: &Core<DEPTH>,
    entry: &Served,
    parts: &[usize],
    hidden: Option<Alarm>,
) -> Result<Value, AllocError> {
    let point = match point_of_entry(core.site().models(), entry) {
        Some(point) => point.name.as_str(),
        None => "",
    };
    let total = match &entry.source {
        Source::PartialSum(_) => partial_total_of(core.readings(), parts),
        _ => total_of(core.readings(), parts),
    };
    let exponent = match parts.first() {
        Some(first) => exponent_at(core.site().tags(), *first),
        None => 0,
    };
    point_value(alloc, core, entry.model, point, total, exponent, hidden)
}

fn exponent_at(tags: &[SiteTag], place: usize) -> i8 {
    match tags.get(place) {
        Some(tag) => tag.exponent,
        None => 0,
    }
}

fn tag_value(
    alloc: Global,
    core: &Core<DEPTH>,
    tag: &SiteTag,
    place: usize,
    hidden: Option<Alarm>,
) -> Result<Value, AllocError> {
    let point = match point_of_tag(core.site().models(), tag) {
        Some(point) => point.name.as_str(),
        None => "",
    };
    let numbers = match tag.access {
        Access::Setting => core.settings(),
        _ => core.outputs(),
    };
    let number = match numbers.get(place) {
        Some(number) => *number,
        None => None,
    };
    point_value(alloc, core, tag.model, point, number, tag.exponent, hidden)
}

fn point_value(
    alloc: Global,
    core: &Core<DEPTH>,
    model: u16,
    point: &str,
    number: Option<i64>,
    exponent: i8,
    hidden: Option<Alarm>,
) -> Result<Value, AllocError> {
    let mut value = Map::new(alloc);
    put_number(&mut value, alloc, "model", u64::from(model))?;
    put_text(&mut value, alloc, "point", point)?;
    match (hidden, number) {
        (Some(alarm), _) => {
            let cause = cause_text(alloc, core.site(), alarm)?;
            put_text(&mut value, alloc, "cause", cause.as_str())?;
        }
        (None, Some(number)) => {
            put_signed(&mut value, alloc, "value", Some(number))?;
            put_signed(&mut value, alloc, "exponent", Some(i64::from(exponent)))?;
        }
        (None, None) => {}
    }
    Ok(Value::Object(value))
}

/// Why the sum of the entry of this number isn't shown.
fn hidden_sum(standing: &[StandingAlarm], number: usize) -> Option<Alarm> {
    for one in standing {
        match one.alarm {
            Alarm::SumHidden(entry, _) if entry == number => return Some(one.alarm),
            _ => {}
        }
    }
    None
}

/// Why what the program stores in the tag of this number isn't shown.
fn hidden_tag(standing: &[StandingAlarm], place: usize) -> Option<Alarm> {
    for one in standing {
        match one.alarm {
            Alarm::StoredHidden(tag, _) if tag == place => return Some(one.alarm),
            _ => {}
        }
    }
    None
}
