//! What breaks a rule in the entry of a device.
use crate::finding::{Finding, Rule, Stands, ValueKind};
use crate::keys::{INVERTER, METER, Section};
use crate::looking::{broken_at, first_alike, first_broken, first_outside};
use crate::models::{misplaced, repeated, undefined};
use file_keys::{list_at, number_at, text_at};
use inverter_sim::PlantFault;
use inverter_sim::rules::{DeviceKind, kind_named};
use model_defs::ModelDef;
use note_text::nearest_of;
use toml::Value;

const KINDS: &[&str] = &["inverter", "meter"];

/// How the values of a device are written.
pub(super) const EACH_VALUE: &str =
    "begin each value with [[device.value]], in two pairs of brackets";

pub(super) fn device_finding<'a>(
    before: &'a [Value],
    entry: &'a Value,
    defs: &[ModelDef],
    fault: PlantFault,
) -> Option<Finding<'a>> {
    match fault {
        PlantFault::MissingKey => missing(entry),
        PlantFault::UnknownModel => undefined(entry, defs),
        PlantFault::BadRange => Some(outside(before, entry)),
        PlantFault::Duplicate => Some(known_device(before, entry)),
        _ => None,
    }
}

/// The kind of a device by its entry: an inverter, unless the entry says that it is a meter.
pub(super) fn kind_of(entry: &Value) -> DeviceKind {
    match text_at(entry, "kind") {
        Some(word) => kind_named(word).unwrap_or(DeviceKind::Inverter),
        None => DeviceKind::Inverter,
    }
}

/// The keys of a device, by its kind.
fn section_of(entry: &Value) -> Section {
    match kind_of(entry) {
        DeviceKind::Inverter => INVERTER,
        DeviceKind::Meter => METER,
    }
}

fn missing(entry: &Value) -> Option<Finding<'_>> {
    if let Some(finding) = first_broken(entry, &section_of(entry)) {
        return Some(finding);
    }
    Some(broken_at(entry, "value", ValueKind::Tables, false)?.helped(EACH_VALUE))
}

fn outside<'a>(before: &[Value], entry: &'a Value) -> Finding<'a> {
    if let Some(finding) = no_kind(entry) {
        return finding;
    }
    let found = match kind_of(entry) {
        DeviceKind::Inverter => outside_of_inverter(entry),
        DeviceKind::Meter => outside_of_meter(before, entry),
    };
    match found {
        Some(finding) => finding,
        None => misplaced(entry),
    }
}

/// The word of a kind that there isn't.
fn no_kind(entry: &Value) -> Option<Finding<'_>> {
    let word = text_at(entry, "kind")?;
    if kind_named(word).is_some() {
        return None;
    }
    let finding = Finding::at(entry, "kind", "is none of inverter, meter");
    Some(
        finding
            .helped("write one of these words")
            .meaning(nearest_of(KINDS, word)),
    )
}

fn outside_of_inverter(entry: &Value) -> Option<Finding<'_>> {
    match first_outside(entry, INVERTER.keys) {
        Some(finding) => Some(finding),
        None => bad_watts(entry, "available"),
    }
}

fn outside_of_meter<'a>(before: &[Value], entry: &'a Value) -> Option<Finding<'a>> {
    if let Some(finding) = first_outside(entry, METER.keys) {
        return Some(finding);
    }
    if let Some(finding) = bad_watts(entry, "load") {
        return Some(finding);
    }
    if let Some(finding) = no_inverter(before, entry) {
        return Some(finding);
    }
    if has_meter_model(entry) {
        return None;
    }
    let finding = Finding::of("models", "have no meter model");
    Some(finding.helped("add one of 201 to 204"))
}

/// The first unit of a meter that no inverter before it has.
fn no_inverter<'a>(before: &[Value], entry: &'a Value) -> Option<Finding<'a>> {
    for value in list_at(entry, "behind")? {
        let unit = value.as_integer()?;
        if !has_inverter(before, unit) {
            let rule = Rule::Words("is the unit of no inverter before it");
            let finding = Finding::by("behind", Stands::Number(unit), rule);
            return Some(finding.helped("put the meter after its inverters, and name their units"));
        }
    }
    None
}

fn has_inverter(entries: &[Value], unit: i64) -> bool {
    for entry in entries {
        if kind_of(entry) == DeviceKind::Inverter && number_at(entry, "unit") == Some(unit) {
            return true;
        }
    }
    false
}

fn has_meter_model(entry: &Value) -> bool {
    let Some(models) = list_at(entry, "models") else {
        return false;
    };
    for model in models {
        if matches!(model.as_integer(), Some(201..=204)) {
            return true;
        }
    }
    false
}

/// The first watts that are outside their limits, or that there are none.
fn bad_watts<'a>(entry: &'a Value, key: &'static str) -> Option<Finding<'a>> {
    let watts = list_at(entry, key)?;
    if watts.is_empty() {
        let finding = Finding::of(key, "is empty");
        return Some(finding.helped("write at least one number of watts"));
    }
    for value in watts {
        let number = value.as_integer()?;
        if number < 0 || number > 1_000_000 {
            let rule = Rule::Within(0, 1_000_000);
            return Some(Finding::by(key, Stands::Number(number), rule));
        }
    }
    None
}

fn known_device<'a>(before: &'a [Value], entry: &'a Value) -> Finding<'a> {
    if let Some(other) = first_alike("[[device]]", before, entry, &["unit"]) {
        return Finding::repeating(entry, "unit", "is the unit of", other);
    }
    if let Some(finding) = repeated(entry, "models") {
        return finding;
    }
    match repeated(entry, "behind") {
        Some(finding) => finding,
        None => Finding::of("models", "name one twice"),
    }
}
