//! Which tag the key `with` of another one names.
use super::tag_words::is_output;
use file_keys::{section_at, text_at};
use toml::Value;

/// Whether the key `with` of an entry names a tag `out` of the same device.
pub(super) fn names_output(file: &Value, entry: &Value) -> bool {
    match companion_of(file, entry) {
        Some(other) => is_output(other) && is_of_same_device(entry, other),
        None => false,
    }
}

fn is_of_same_device(entry: &Value, other: &Value) -> bool {
    match (text_at(entry, "device"), text_at(other, "device")) {
        (Some(device), Some(other)) => device == other,
        _ => false,
    }
}

/// Whether the way from an entry to the one that it names, and on from there, has no end.
pub(super) fn leads_back(file: &Value, entry: &Value) -> bool {
    let mut place = entry;
    for _ in tags_of(file) {
        let Some(next) = companion_of(file, place) else {
            return false;
        };
        place = next;
    }
    companion_of(file, place).is_some()
}

/// The tag that the key `with` of an entry names.
fn companion_of<'a>(file: &'a Value, entry: &Value) -> Option<&'a Value> {
    let name = text_at(entry, "with")?;
    for tag in tags_of(file) {
        if text_at(tag, "name") == Some(name) {
            return Some(tag);
        }
    }
    None
}

fn tags_of(file: &Value) -> &[Value] {
    section_at(file, "tag").unwrap_or(&[])
}
