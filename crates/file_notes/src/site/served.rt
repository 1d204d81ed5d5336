//! What breaks a rule in an entry of what is served.
use super::tags::{access, is_of_device};
use crate::finding::{EntryName, Finding, Rule, Stands, named_entry, stands_at};
use crate::keys::SERVED;
use crate::looking::{first_broken, is_alike};
use crate::points::{no_point, point_at};
use file_keys::{flag_or, list_at, number_at, section_at, text_at};
use model_defs::{ModelDef, Point};
use note_text::nearer;
use site_model::{Access, SiteFault, raw_range};
use toml::Value;

/// What breaks the rule in an entry, where those before it are these.
pub(super) fn served_finding<'a>(
    file: &'a Value,
    defs: &'a [ModelDef],
    before: &[Value],
    entry: &'a Value,
    fault: SiteFault,
) -> Option<Finding<'a>> {
    match fault {
        SiteFault::MissingKey => missing(entry),
        SiteFault::UnknownModel => Some(Finding::at(
            entry,
            "model",
            "is none of the gateway's models",
        )),
        SiteFault::UnknownPoint => Some(no_point(entry, defs)),
        SiteFault::BadRange => Some(unfit(entry, point_at(entry, defs))),
        SiteFault::BadType => Some(unlike_point(file, entry)),
        SiteFault::Duplicate => Some(known_point(file, before, entry)),
        _ => None,
    }
}

fn missing(entry: &Value) -> Option<Finding<'_>> {
    if let Some(finding) = first_broken(entry, &SERVED) {
        return Some(finding);
    }
    if given(entry) == 0 {
        let finding = Finding::missing("value, text or sum");
        return Some(finding.helped("say what the point has: a value, a text, or a sum of tags"));
    }
    None
}

/// How many of value, text and sum are there.
fn given(entry: &Value) -> u8 {
    let mut number = 0u8;
    for key in &["value", "text", "sum"] {
        if has(entry, key) {
            number = number.saturating_add(1);
        }
    }
    number
}

fn has(entry: &Value, key: &str) -> bool {
    entry.get(key).is_some()
}

/// The value that the point can't hold, or else the text.
fn unfit<'a>(entry: &'a Value, point: Option<&Point>) -> Finding<'a> {
    if let Some(finding) = unfit_value(entry, point) {
        return finding;
    }
    match point {
        Some(point) => {
            let room = usize::from(point.size).saturating_mul(2);
            Finding::by("text", stands_at(entry, "text"), Rule::HasRoom(room))
        }
        None => Finding::at(entry, "text", "is longer than its point"),
    }
}

fn unfit_value<'a>(entry: &'a Value, point: Option<&Point>) -> Option<Finding<'a>> {
    let value = i128::from(number_at(entry, "value")?);
    let (low, high) = raw_range(point?.kind)?;
    if low <= value && value <= high {
        return None;
    }
    let stands = stands_at(entry, "value");
    Some(Finding::by("value", stands, Rule::Holds(low, high)))
}

fn unlike_point<'a>(file: &'a Value, entry: &'a Value) -> Finding<'a> {
    if given(entry) != 1 {
        let finding = Finding::of("value, text and sum", "exclude one another");
        return finding.helped("keep one of the three");
    }
    if flag_or(entry, "partial", false) == Some(true) && !has(entry, "sum") {
        return Finding::advised(
            entry,
            "partial",
            "is for a sum",
            "take it away, or give the point a sum of tags",
        );
    }
    if has(entry, "value") {
        return Finding::advised(
            entry,
            "value",
            "is for points that have a number",
            "write a text for a point of kind string; a pad has nothing",
        );
    }
    if has(entry, "text") {
        return Finding::advised(
            entry,
            "text",
            "is for points of kind string",
            "write a value, or a sum of tags",
        );
    }
    match unlike_part(file, entry) {
        Some(finding) => finding,
        None => Finding::of(
            "sum",
            "is for points that have a number and are no scale factor",
        )
        .helped("take a point that shows a total"),
    }
}

/// The name of a sum that isn't the one of an input, or not of one with the exponent of the first.
fn unlike_part<'a>(file: &'a Value, entry: &'a Value) -> Option<Finding<'a>> {
    let parts = list_at(entry, "sum")?;
    if parts.is_empty() {
        let finding = Finding::of("sum", "names no tag");
        return Some(finding.helped("name at least one tag of access in"));
    }
    let tags = section_at(file, "tag")?;
    let mut exponent = None;
    for part in parts {
        let name = part.as_str()?;
        let Some(tag) = input_named(tags, name) else {
            return Some(no_input(tags, name));
        };
        let next = number_at(tag, "exponent");
        if exponent.is_some() && exponent != next {
            let finding = part_of_sum(name, "has another exponent than the names before it");
            return Some(finding.helped("sum tags of one exponent"));
        }
        exponent = next;
    }
    None
}

fn part_of_sum<'a>(name: &'a str, words: &'static str) -> Finding<'a> {
    Finding::by("sum", Stands::Text(name), Rule::Words(words))
}

/// A name of a sum that is the one of no tag, or of a tag of another access.
fn no_input<'a>(tags: &'a [Value], name: &'a str) -> Finding<'a> {
    let finding = part_of_sum(name, "is the name of no tag of access in");
    finding
        .helped("name tags of access in; case counts")
        .meaning(nearest_input(tags, name))
}

/// The name of an input that is nearest to a written one.
fn nearest_input<'a>(tags: &'a [Value], written: &str) -> Option<&'a str> {
    let mut found = None;
    for tag in tags {
        if let Some(name) = input_name(tag) {
            found = nearer(found, name, written);
        }
    }
    found.map(|near| near.name)
}

/// The entry of the input of a name.
fn input_named<'a>(tags: &'a [Value], name: &str) -> Option<&'a Value> {
    for tag in tags {
        if input_name(tag) == Some(name) {
            return Some(tag);
        }
    }
    None
}

/// The name of a tag, where its access is in.
fn input_name(tag: &Value) -> Option<&str> {
    match access(tag)? {
        Access::Input => text_at(tag, "name"),
        _ => None,
    }
}

/// The point that has a value already, or that the gateway has itself.
fn known_point<'a>(file: &'a Value, before: &[Value], entry: &'a Value) -> Finding<'a> {
    match user_of(file, before, entry) {
        Some(other) => Finding::repeating(entry, "point", "is the point of", other),
        None => Finding::advised(
            entry,
            "point",
            "is the ID or the length of a model",
            "take the entry away: the gateway has these two itself",
        ),
    }
}

/// The entry before, or the tag, that gives the point its value.
fn user_of<'a>(file: &'a Value, before: &[Value], entry: &Value) -> Option<EntryName<'a>> {
    for (place, other) in before.iter().enumerate() {
        if is_on_point(other, entry) {
            return Some(EntryName::Numbered("[[served]]", place.saturating_add(1)));
        }
    }
    tag_on_point(file, entry)
}

/// The tag on the gateway that has the point.
fn tag_on_point<'a>(file: &'a Value, entry: &Value) -> Option<EntryName<'a>> {
    for (place, tag) in section_at(file, "tag")?.iter().enumerate() {
        if !is_of_device(tag) && is_on_point(tag, entry) {
            return Some(named_entry("[[tag]]", tag, place));
        }
    }
    None
}

fn is_on_point(one: &Value, other: &Value) -> bool {
    is_alike(one, other, &["model", "point"])
}
