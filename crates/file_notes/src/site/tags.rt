//! What breaks a rule in the entry of a tag.
use super::tag_words::bad_word;
use super::time_words::time_finding;
use crate::finding::{EntryName, Finding, Rule, Stands, named_entry};
use crate::keys::{EXPONENT, HIGH, LAPSE, LOW, TAG};
use crate::looking::{first_alike, first_broken, first_outside, is_alike};
use crate::points::{no_point, point_at};
use file_keys::{number_at, section_at, text_at};
use model_defs::ModelDef;
use note_text::nearer;
use point_types::IlType;
use site_model::rules::{access_of, is_polled, is_same_side, is_time, last_bit, type_of};
use site_model::{Access, SiteFault};
use toml::Value;

/// What breaks the rule in a tag, where those before it are these.
pub(super) fn tag_finding<'a>(
    file: &'a Value,
    defs: &'a [ModelDef],
    before: &'a [Value],
    entry: &'a Value,
    fault: SiteFault,
) -> Option<Finding<'a>> {
    if is_time(entry) {
        return time_finding(before, entry, fault);
    }
    match fault {
        SiteFault::MissingKey => missing(entry),
        SiteFault::UnknownDevice => Some(unknown_device(file, entry)),
        SiteFault::UnknownModel => Some(Finding::at(entry, "model", unknown_model(entry))),
        SiteFault::UnknownPoint => Some(no_point(entry, defs)),
        SiteFault::NotWritable => Some(Finding::at(entry, "point", "can't be written")),
        SiteFault::BadRange => Some(outside(entry, defs)),
        SiteFault::BadType => Some(bad_word(file, entry)),
        SiteFault::Duplicate => Some(known_tag(before, entry)),
        _ => None,
    }
}

/// The access that an entry names.
pub(super) fn access(entry: &Value) -> Option<Access> {
    access_of(text_at(entry, "access")?)
}

/// The type that an entry names.
pub(super) fn kind(entry: &Value) -> Option<IlType> {
    type_of(text_at(entry, "type")?)
}

/// Whether the tag's point is a device's.
pub(super) fn is_of_device(entry: &Value) -> bool {
    match access(entry) {
        Some(access) => is_polled(access),
        None => false,
    }
}

fn unknown_device<'a>(file: &'a Value, entry: &'a Value) -> Finding<'a> {
    let finding = Finding::at(entry, "device", "is the name of no device");
    match text_at(entry, "device") {
        Some(written) => finding.meaning(nearest_entry(file, "device", written)),
        None => finding,
    }
}

/// The name of an entry of a section that is nearest to a written one.
fn nearest_entry<'a>(file: &'a Value, section: &str, written: &str) -> Option<&'a str> {
    let mut found = None;
    for entry in section_at(file, section)? {
        if let Some(name) = text_at(entry, "name") {
            found = nearer(found, name, written);
        }
    }
    found.map(|near| near.name)
}

/// A key that is missing or of another kind, or the device of a device's point.
fn missing(entry: &Value) -> Option<Finding<'_>> {
    if let Some(finding) = first_broken(entry, &TAG) {
        return Some(finding);
    }
    if is_of_device(entry) && entry.get("device").is_none() {
        return Some(Finding::missing("device"));
    }
    None
}

fn unknown_model(entry: &Value) -> &'static str {
    if is_of_device(entry) {
        "has no definition"
    } else {
        "is none of the gateway's models"
    }
}

/// The number that is outside its range.
fn outside<'a>(entry: &'a Value, defs: &[ModelDef]) -> Finding<'a> {
    if let Some(finding) = out_of_order(entry) {
        return counted(entry, finding);
    }
    if let Some(finding) = out_of_type(entry) {
        return counted(entry, finding);
    }
    if let Some(finding) = first_outside(entry, &[EXPONENT]) {
        return finding;
    }
    if let Some(finding) = no_bit(entry, defs) {
        return finding;
    }
    match first_outside(entry, &[LAPSE]) {
        Some(finding) => finding,
        None => Finding::at(entry, "bit", "is no bit of its point"),
    }
}

/// What to do about a number of a tag, by its exponent.
fn counted<'a>(entry: &Value, finding: Finding<'a>) -> Finding<'a> {
    match number_at(entry, "exponent") {
        None | Some(0) => finding,
        Some(_) => finding.helped(
            "correct the number, or the exponent: low, high and default count the point's value in steps of 10^exponent, so in tens where it is 1, and in tenths where it is -1",
        ),
    }
}

/// A bit that the point doesn't have.
fn no_bit<'a>(entry: &'a Value, defs: &[ModelDef]) -> Option<Finding<'a>> {
    let bit = number_at(entry, "bit")?;
    let last = i64::from(last_bit(point_at(entry, defs)?.kind)?);
    if 0 <= bit && bit <= last {
        return None;
    }
    Some(Finding::by("bit", Stands::Number(bit), Rule::Within(0, last)))
}

/// Of low, default and high two that don't ascend.
pub(super) fn out_of_order(entry: &Value) -> Option<Finding<'_>> {
    let low = number_at(entry, "low")?;
    let high = number_at(entry, "high")?;
    if low > high {
        return Some(numbered("low", low, Rule::Over("high", high)));
    }
    let default = number_at(entry, "default")?;
    if default < low {
        return Some(numbered("default", default, Rule::Under("low", low)));
    }
    if default > high {
        return Some(numbered("default", default, Rule::Over("high", high)));
    }
    None
}

fn numbered(key: &'static str, number: i64, rule: Rule<'static>) -> Finding<'static> {
    Finding::by(key, Stands::Number(number), rule)
}

pub(super) fn out_of_type(entry: &Value) -> Option<Finding<'_>> {
    let kind = kind(entry)?;
    let (low, high) = (kind.low(), kind.high());
    first_outside(entry, &[LOW.within(low, high), HIGH.within(low, high)])
}

/// The name that a tag before has, or its point.
fn known_tag<'a>(before: &'a [Value], entry: &'a Value) -> Finding<'a> {
    if let Some(finding) = known_name(before, entry) {
        return finding;
    }
    match on_same_point(before, entry) {
        Some(other) => Finding::repeating(entry, "point", "is the point of", other),
        None => Finding::advised(
            entry,
            "point",
            "is the ID or the length of a model",
            "take another point: the gateway has these two itself",
        ),
    }
}

/// The name that a tag before has.
pub(super) fn known_name<'a>(before: &'a [Value], entry: &'a Value) -> Option<Finding<'a>> {
    let other = first_alike("[[tag]]", before, entry, &["name"])?;
    Some(Finding::repeating(entry, "name", "is the name of", other))
}

/// The tag before that has the same point for itself.
fn on_same_point<'a>(before: &'a [Value], entry: &Value) -> Option<EntryName<'a>> {
    for (number, other) in before.iter().enumerate() {
        if is_on_same_side(other, entry) && is_alike(other, entry, &["device", "model", "point"]) {
            return Some(named_entry("[[tag]]", other, number));
        }
    }
    None
}

fn is_on_same_side(one: &Value, other: &Value) -> bool {
    match (access(one), access(other)) {
        (Some(one), Some(other)) => is_same_side(other, one),
        _ => false,
    }
}
