//! The point that an entry names, and where there is none, which one may be meant.
use crate::finding::{Finding, Rule, stands_at};
use file_keys::{number_at, text_at};
use model_defs::{ModelDef, Point};
use note_text::nearer;
use site_model::rules::{definition_of, point_for};
use std::alloc::{AllocError, Global};
use toml::Value;

/// The definition of the model that an entry names.
fn model_at<'a>(entry: &Value, defs: &'a [ModelDef]) -> Option<&'a ModelDef> {
    definition_of(defs, number_at(entry, "model")?)
}

/// The point that an entry names.
pub(crate) fn point_at<'a>(entry: &Value, defs: &'a [ModelDef]) -> Option<&'a Point> {
    point_for(text_at(entry, "point")?, model_at(entry, defs)?)
}

/// What is found where an entry's model has no point of the name that it says.
pub(crate) fn no_point<'a>(entry: &'a Value, defs: &'a [ModelDef]) -> Finding<'a> {
    let (Some(number), Some(model), Some(written)) = (
        number_at(entry, "model"),
        model_at(entry, defs),
        text_at(entry, "point"),
    ) else {
        return Finding::at(entry, "point", "is no point of its model");
    };
    let finding = Finding::by("point", stands_at(entry, "point"), Rule::NoPointOf(number));
    let beginning = beginning_of(model, written);
    if is_one_less(beginning, written) {
        return finding.meaning(beginning);
    }
    if let Some(near) = nearest_point(model, written) {
        return finding.meaning(Some(near));
    }
    if is_in_one(defs, written) {
        return finding.meaning_models(defs, written);
    }
    finding.meaning(beginning.or(continuing(model, written)))
}

/// Whether a name has one letter less than another one.
fn is_one_less(name: Option<&str>, written: &str) -> bool {
    match name {
        Some(name) => name.len().saturating_add(1) == written.len(),
        None => false,
    }
}

/// The point whose name is nearest.
fn nearest_point<'a>(model: &'a ModelDef, written: &str) -> Option<&'a str> {
    let mut found = None;
    for point in model.points.as_slice() {
        found = nearer(found, point.name.as_str(), written);
    }
    found.map(|near| near.name)
}

/// Whether a model has a point of this name.
fn is_in_one(defs: &[ModelDef], name: &str) -> bool {
    for (place, model) in defs.iter().enumerate() {
        if model.find(name).is_some() && is_last(defs, place, model.id) {
            return true;
        }
    }
    false
}

/// The numbers of the models that have a point of this name, with commas between them.
pub(crate) fn models_with(
    alloc: Global,
    defs: &[ModelDef],
    name: &str,
) -> Result<String, AllocError> {
    let mut numbers = String::new(alloc);
    for (place, model) in defs.iter().enumerate() {
        if model.find(name).is_some() && is_last(defs, place, model.id) {
            if !numbers.is_empty() {
                numbers.push_str(", ")?;
            }
            let number = model.id;
            let shown = format!(in alloc; "{number}")?;
            numbers.push_str(shown.as_str())?;
        }
    }
    Ok(numbers)
}

/// Whether the definition at a place is the one of its number that counts: the last one.
fn is_last(defs: &[ModelDef], place: usize, id: u16) -> bool {
    for (other, model) in defs.iter().enumerate() {
        if other > place && model.id == id {
            return false;
        }
    }
    true
}

/// The point with the longest name with which another one begins.
fn beginning_of<'a>(model: &'a ModelDef, written: &str) -> Option<&'a str> {
    let mut found: Option<&'a str> = None;
    for point in model.points.as_slice() {
        let name = point.name.as_str();
        if written.starts_with(name) && is_longer(name, found) {
            found = Some(name);
        }
    }
    found
}

/// The first point whose name goes on after another one of three letters at least.
fn continuing<'a>(model: &'a ModelDef, written: &str) -> Option<&'a str> {
    if written.len() < 3 {
        return None;
    }
    for point in model.points.as_slice() {
        if point.name.as_str().starts_with(written) {
            return Some(point.name.as_str());
        }
    }
    None
}

fn is_longer(name: &str, found: Option<&str>) -> bool {
    match found {
        Some(found) => name.len() > found.len(),
        None => true,
    }
}
