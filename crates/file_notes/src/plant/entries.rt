//! What breaks a rule in the entry of a device's value, and of a fault.
use crate::finding::{EntryName, Finding, Rule, stands_at};
use crate::keys::{FAULT, Key, REQUEST, VALUE, key_named};
use crate::looking::{broken_at, first_broken, first_outside, is_alike};
use crate::points::{no_point, point_at};
use file_keys::text_at;
use inverter_sim::PlantFault;
use inverter_sim::rules::{numbers_of, own_key};
use model_defs::ModelDef;
use note_text::nearest_of;
use toml::Value;

const KINDS: &[&str] = &["exception", "stale", "garbage", "length", "cut"];

/// The name of a device's value.
pub(super) fn value_name(device: usize, value: usize) -> EntryName<'static> {
    let (device, value) = (device.saturating_add(1), value.saturating_add(1));
    EntryName::Inner("[[device.value]]", value, "[[device]]", device)
}

/// The name of a fault.
pub(super) fn fault_name(number: usize) -> EntryName<'static> {
    EntryName::Numbered("[[fault]]", number.saturating_add(1))
}

/// What breaks the rule in a value of a device, where those before it are these.
pub(super) fn value_finding<'a>(
    before: &[Value],
    entry: &'a Value,
    defs: &'a [ModelDef],
    device: usize,
    fault: PlantFault,
) -> Option<Finding<'a>> {
    match fault {
        PlantFault::MissingKey => first_broken(entry, &VALUE),
        PlantFault::UnknownModel => Some(Finding::at(
            entry,
            "model",
            "is none of the device's models",
        )),
        PlantFault::UnknownPoint => Some(no_point(entry, defs)),
        PlantFault::BadRange => Some(unfit_raw(entry, defs)),
        PlantFault::Duplicate => Some(known_value(before, device, entry)),
        _ => None,
    }
}

/// A raw number that can't stand in its point.
fn unfit_raw<'a>(entry: &'a Value, defs: &[ModelDef]) -> Finding<'a> {
    let stands = stands_at(entry, "raw");
    match point_at(entry, defs).and_then(numbers_of) {
        Some((low, high)) => Finding::by("raw", stands, Rule::Holds(low, high)),
        None => {
            let words = "can't stand in its point, a string, the ID or the length of its model";
            Finding::by("raw", stands, Rule::Words(words)).helped("take the entry away")
        }
    }
}

/// The value before that has the same point.
fn known_value<'a>(before: &[Value], device: usize, entry: &'a Value) -> Finding<'a> {
    for (number, other) in before.iter().enumerate() {
        if is_alike(other, entry, &["model", "point"]) {
            let other = value_name(device, number);
            return Finding::repeating(entry, "point", "is the point of", other);
        }
    }
    Finding::at(entry, "point", "has a value before it")
}

/// What breaks the rule in a fault after those before it.
pub(super) fn fault_finding<'a>(
    before: &[Value],
    entry: &'a Value,
    fault: PlantFault,
) -> Option<Finding<'a>> {
    match fault {
        PlantFault::MissingKey => missing(entry),
        PlantFault::BadRange => Some(outside(entry)),
        PlantFault::Duplicate => Some(known_request(before, entry)),
        _ => None,
    }
}

/// The fault before that is of the same request.
fn known_request<'a>(before: &[Value], entry: &'a Value) -> Finding<'a> {
    for (number, other) in before.iter().enumerate() {
        if is_alike(other, entry, &["request"]) {
            let other = fault_name(number);
            return Finding::repeating(entry, "request", "is the request of", other);
        }
    }
    Finding::at(entry, "request", "has a fault before it")
}

fn missing(entry: &Value) -> Option<Finding<'_>> {
    if let Some(finding) = first_broken(entry, &FAULT) {
        return Some(finding);
    }
    let Key(name, kind, _) = own_key_of(entry)?;
    Some(FAULT.advising(broken_at(entry, name, kind, true)?))
}

/// The key that the kind of a fault has of its own.
fn own_key_of(entry: &Value) -> Option<Key> {
    key_named(FAULT.keys, own_key(text_at(entry, "kind")?)?)
}

fn outside(entry: &Value) -> Finding<'_> {
    if let Some(finding) = first_outside(entry, &[REQUEST]) {
        return finding;
    }
    match own_outside(entry) {
        Some(finding) => finding,
        None => {
            let words = "is none of exception, stale, garbage, length, cut";
            let finding = Finding::at(entry, "kind", words);
            finding
                .helped("write one of these words")
                .meaning(meant_kind(entry))
        }
    }
}

fn meant_kind(entry: &Value) -> Option<&'static str> {
    nearest_of(KINDS, text_at(entry, "kind")?)
}

/// The number of the key that the kind has of its own, where it is outside its limits.
fn own_outside(entry: &Value) -> Option<Finding<'_>> {
    first_outside(entry, &[own_key_of(entry)?])
}
