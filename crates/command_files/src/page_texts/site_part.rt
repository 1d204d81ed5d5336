//! A site as its page shows it.
use crate::page_texts::members::Members;
use crate::run_watch::TagPoints;
use program_notes::type_word;
use serde_json::Value;
use service_texts::Writer;
use site_model::{Access, Served, Site, SiteDevice, SiteTag, Source};
use std::alloc::{AllocError, Global};

/// What a service is on, and by which words it began.
#[derive(Clone, Copy)]
pub struct SitePart<'a> {
    pub site: &'a Site,
    /// What it is called.
    pub name: Option<&'a str>,
    /// The power for which each device is made, in watts and in their order.
    pub rated: &'a [Option<u32>],
    /// The texts of the definitions that are handed in.
    pub defs: &'a [String],
    /// From one scan to the next, and the longest wait for a reply, in milliseconds.
    pub period: u64,
    pub timeout: u64,
    /// The most clients at once.
    pub clients: usize,
    /// The clients that may write.
    pub writers: &'a [Writer],
    /// Whether set values are kept over a restart.
    pub keeps: bool,
    /// Whether another program may come while it runs.
    pub reloads: bool,
}

/// What doesn't change while a service runs, as JSON.
pub fn site_text(alloc: Global, part: &SitePart<'_>) -> Result<String, AllocError> {
    let points = TagPoints::read(alloc, part.defs)?;
    let mut members = Members::new(alloc);
    members.text_or_null("name", part.name)?;
    members.count("unit", u64::from(part.site.unit()))?;
    members.count("period", part.period)?;
    members.count("timeout", part.timeout)?;
    members.count("clients", part.clients as u64)?;
    members.value("write_from", writers_value(alloc, part.writers)?)?;
    members.truth("keeps", part.keeps)?;
    members.truth("reloads", part.reloads)?;
    members.value(
        "devices",
        devices_value(alloc, part.site.devices(), part.rated)?,
    )?;
    members.value("tags", tags_value(alloc, part.site.tags(), &points)?)?;
    members.value("served", served_value(alloc, part.site, &points)?)?;
    members.into_value().to_string(alloc)
}

/// Of each tag the unit of its values; empty where they have none, or none of the shipped definitions and those of these texts says it.
pub fn tag_units(
    alloc: Global,
    tags: &[SiteTag],
    defs: &[String],
) -> Result<Vec<String>, AllocError> {
    let points = TagPoints::read(alloc, defs)?;
    let mut units = Vec::new(alloc);
    for tag in tags {
        units.push(String::from_str(alloc, points.unit_at(tag).unwrap_or(""))?)?;
    }
    Ok(units)
}

/// Who may write, by the words that name them.
fn writers_value(alloc: Global, writers: &[Writer]) -> Result<Value, AllocError> {
    let mut values = Vec::new(alloc);
    for writer in writers {
        let word = match writer {
            Writer::At(address) => format!(in alloc; "{address}")?,
            Writer::Within(address, bits) => format!(in alloc; "{address}/{bits}")?,
        };
        values.push(Value::from(word))?;
    }
    Ok(Value::Array(values))
}

fn devices_value(
    alloc: Global,
    devices: &[SiteDevice],
    rated: &[Option<u32>],
) -> Result<Value, AllocError> {
    let mut values = Vec::new(alloc);
    for (number, device) in devices.iter().enumerate() {
        let mut value = Members::new(alloc);
        value.text("name", device.name.as_str())?;
        value.count("unit", u64::from(device.unit))?;
        value.value("rated", rated_value(rated, number))?;
        value.count("rewrite", u64::from(device.rewrite))?;
        values.push(value.into_value())?;
    }
    Ok(Value::Array(values))
}

/// The power for which a device is made, or null.
fn rated_value(rated: &[Option<u32>], device: usize) -> Value {
    match rated.get(device) {
        Some(Some(watts)) => Value::from(*watts),
        _ => Value::Null,
    }
}

fn tags_value(alloc: Global, tags: &[SiteTag], points: &TagPoints) -> Result<Value, AllocError> {
    let mut values = Members::new(alloc);
    for (number, tag) in tags.iter().enumerate() {
        let mut value = Members::new(alloc);
        value.count("number", number as u64)?;
        put_tag(&mut value, tag)?;
        put_point(&mut value, tag, points)?;
        values.value(tag.name.as_str(), value.into_value())?;
    }
    Ok(values.into_value())
}

/// Puts what a tag's number may be.
fn put_tag(value: &mut Members, tag: &SiteTag) -> Result<(), AllocError> {
    value.text("access", access_word(tag.access))?;
    value.text("type", type_word(tag.kind))?;
    value.number("exponent", i64::from(tag.exponent))?;
    value.number("low", tag.low)?;
    value.number("high", tag.high)?;
    if let Some(default) = tag.default {
        value.number("default", default)?;
    }
    if let Some(lapse) = tag.lapse {
        value.count("lapse", u64::from(lapse))?;
    }
    if tag.down {
        value.text("round", "down")?;
    }
    Ok(())
}

/// Puts of what a tag's number is.
fn put_point(value: &mut Members, tag: &SiteTag, points: &TagPoints) -> Result<(), AllocError> {
    value.text_or_null("unit", points.unit_at(tag))?;
    if tag.access == Access::Time {
        return Ok(());
    }
    value.count("model", u64::from(tag.model))?;
    value.text("point", points.name_of(tag))?;
    if let Some(device) = tag.device {
        value.count("device", device as u64)?;
    }
    if let Some(bit) = tag.bit {
        value.count("bit", u64::from(bit))?;
    }
    Ok(())
}

/// The word of an access, as site files have it.
fn access_word(access: Access) -> &'static str {
    match access {
        Access::Input => "in",
        Access::Output => "out",
        Access::Setting => "set",
        Access::Shown => "site",
        Access::Time => "time",
    }
}

/// The points that clients are served: sums, then those of tags.
fn served_value(alloc: Global, site: &Site, points: &TagPoints) -> Result<Value, AllocError> {
    let mut values = Vec::new(alloc);
    for entry in site.served() {
        if let Some(parts) = parts_of(entry) {
            values.push(sum_value(alloc, site, entry, parts, points)?)?;
        }
    }
    for tag in site.tags() {
        if tag.access == Access::Setting || tag.access == Access::Shown {
            let mut value = Members::new(alloc);
            put_point(&mut value, tag, points)?;
            value.text("tag", tag.name.as_str())?;
            values.push(value.into_value())?;
        }
    }
    Ok(Value::Array(values))
}

/// The numbers of the tags whose sum is served.
fn parts_of(entry: &Served) -> Option<&[usize]> {
    match &entry.source {
        Source::Sum(parts) => Some(parts.as_slice()),
        Source::PartialSum(parts) => Some(parts.as_slice()),
        Source::Raw(_) | Source::Text(_) => None,
    }
}

fn sum_value(
    alloc: Global,
    site: &Site,
    entry: &Served,
    parts: &[usize],
    points: &TagPoints,
) -> Result<Value, AllocError> {
    let point = served_name(site, entry);
    let mut value = Members::new(alloc);
    value.count("model", u64::from(entry.model))?;
    value.text("point", point)?;
    value.text_or_null("unit", points.unit_of_point(entry.model, point))?;
    value.value("sum", names_value(alloc, site.tags(), parts)?)?;
    if let Source::PartialSum(_) = entry.source {
        value.truth("partial", true)?;
    }
    Ok(value.into_value())
}

/// The name of the point of an entry; empty where no model of the gateway has it.
fn served_name<'a>(site: &'a Site, entry: &Served) -> &'a str {
    let models = site.models();
    match models.iter().find(|model| model.id == entry.model) {
        Some(model) => match model.points.as_slice().get(entry.point) {
            Some(point) => point.name.as_str(),
            None => "",
        },
        None => "",
    }
}

/// The names of the tags with these numbers.
fn names_value(alloc: Global, tags: &[SiteTag], numbers: &[usize]) -> Result<Value, AllocError> {
    let mut values = Vec::new(alloc);
    for number in numbers {
        if let Some(tag) = tags.get(*number) {
            values.push(Value::try_from_str(alloc, tag.name.as_str())?)?;
        }
    }
    Ok(Value::Array(values))
}
