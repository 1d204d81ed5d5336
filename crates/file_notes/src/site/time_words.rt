//! What breaks a rule in the entry of a tag that is the time since the scan before.
use super::tag_words::{has, no_name, no_type};
use super::tags::{kind, known_name, out_of_order, out_of_type};
use crate::finding::Finding;
use crate::keys::{Key, LOW, TAG, TIME_TAG, has_key};
use crate::looking::{first_broken, first_outside};
use point_types::IlType;
use site_model::SiteFault;
use toml::Value;

/// What breaks the rule in such a tag, where those before it are these.
pub(super) fn time_finding<'a>(
    before: &'a [Value],
    entry: &'a Value,
    fault: SiteFault,
) -> Option<Finding<'a>> {
    match fault {
        SiteFault::MissingKey => first_broken(entry, &TIME_TAG),
        SiteFault::BadRange => outside(entry),
        SiteFault::BadType => bad_word(entry),
        SiteFault::Duplicate => known_name(before, entry),
        _ => None,
    }
}

/// The number that is outside its range: no time is negative.
fn outside(entry: &Value) -> Option<Finding<'_>> {
    if let Some(finding) = first_outside(entry, &[LOW.within(0, i64::MAX)]) {
        return Some(finding);
    }
    if let Some(finding) = out_of_order(entry) {
        return Some(finding);
    }
    out_of_type(entry)
}

/// The key that doesn't belong there, or the word that isn't allowed.
fn bad_word(entry: &Value) -> Option<Finding<'_>> {
    if let Some(key) = key_of_point(entry) {
        return Some(Finding::advised(
            entry,
            key,
            "is for tags on points",
            "take the key away: a time tag has no point, and always has a number",
        ));
    }
    if let Some(finding) = no_name(entry) {
        return Some(finding);
    }
    if let Some(finding) = no_type(entry) {
        return Some(finding);
    }
    match kind(entry) {
        Some(IlType::Bool) => Some(Finding::advised(
            entry,
            "type",
            "is no whole number",
            "write DINT, for the milliseconds since the scan before",
        )),
        _ => None,
    }
}

/// The first key that speaks of a point, or of what it is worth while it has no value.
fn key_of_point(entry: &Value) -> Option<&'static str> {
    for key in TAG.keys {
        let Key(name, _, _) = *key;
        if has(entry, name) && !has_key(TIME_TAG.keys, name) {
            return Some(name);
        }
    }
    None
}
