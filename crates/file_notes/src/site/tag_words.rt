//! What breaks a rule in the words of a tag.
use super::companions::{leads_back, names_output};
use super::tags::{access, is_of_device, kind};
use crate::finding::Finding;
use file_keys::text_at;
use note_text::nearest_of;
use point_types::IlType;
use site_model::Access;
use site_model::rules::tag_name;
use toml::Value;

const ACCESSES: &[&str] = &["in", "out", "set", "site", "time"];

const TYPES: &[&str] = &[
    "BOOL", "SINT", "INT", "DINT", "LINT", "USINT", "UINT", "UDINT",
];

/// The word that isn't allowed, or the key that doesn't go with the others.
pub(super) fn bad_word<'a>(file: &Value, entry: &'a Value) -> Finding<'a> {
    if let Some(finding) = no_name(entry) {
        return finding;
    }
    if access(entry).is_none() {
        let finding = Finding::at(entry, "access", "is none of in, out, set, site, time");
        return finding.meaning(meant(entry, "access", ACCESSES));
    }
    match no_type(entry) {
        Some(finding) => finding,
        None => unlike_others(file, entry),
    }
}

/// A name that is none of a tag.
pub(super) fn no_name(entry: &Value) -> Option<Finding<'_>> {
    if is_name(entry) {
        return None;
    }
    Some(Finding::advised(
        entry,
        "name",
        "is no name of a tag",
        "write it in lower case, with letters, digits and single underscores, 32 at most; it is no word of Instruction List and doesn't end in _ok",
    ))
}

/// A type that is none.
pub(super) fn no_type(entry: &Value) -> Option<Finding<'_>> {
    if kind(entry).is_some() {
        return None;
    }
    let words = "is none of BOOL, SINT, INT, DINT, LINT, USINT, UINT, UDINT";
    let finding = Finding::at(entry, "type", words);
    Some(finding.meaning(meant(entry, "type", TYPES)))
}

fn is_name(entry: &Value) -> bool {
    match text_at(entry, "name") {
        Some(name) => tag_name(name).is_some(),
        None => false,
    }
}

/// The one of some words that is nearest to the one at a key.
fn meant(entry: &Value, key: &str, words: &[&'static str]) -> Option<&'static str> {
    nearest_of(words, text_at(entry, key)?)
}

/// Why a key doesn't go with the others.
#[derive(Clone, Copy)]
enum TagMisfit {
    DeviceOfGateway,
    BitOfOther,
    RoundOfOther,
    RoundWord,
    LapseOfOther,
    LapseAlone,
    FitOfOther,
    FitWord,
    WithOfOther,
    WithNone,
    WithItself,
    Point,
}

/// The key that doesn't go with the others.
fn unlike_others<'a>(file: &Value, entry: &'a Value) -> Finding<'a> {
    let (key, words, help) = told_of(misfit_in(file, entry));
    Finding::advised(entry, key, words, help)
}

fn misfit_in(file: &Value, entry: &Value) -> TagMisfit {
    if has(entry, "device") && !is_of_device(entry) {
        TagMisfit::DeviceOfGateway
    } else if has(entry, "bit") && !may_have_bit(entry) {
        TagMisfit::BitOfOther
    } else if has(entry, "round") && !may_round(entry) {
        TagMisfit::RoundOfOther
    } else if has(entry, "round") && text_at(entry, "round") != Some("down") {
        TagMisfit::RoundWord
    } else if has(entry, "lapse") && !is_setting(entry) {
        TagMisfit::LapseOfOther
    } else if has(entry, "lapse") && !has(entry, "default") {
        TagMisfit::LapseAlone
    } else if has(entry, "fit") && !is_output(entry) {
        TagMisfit::FitOfOther
    } else if has(entry, "fit") && !matches!(text_at(entry, "fit"), Some("down" | "up")) {
        TagMisfit::FitWord
    } else if has(entry, "with") {
        misfit_with(file, entry)
    } else {
        TagMisfit::Point
    }
}

/// Why the key `with` doesn't go with the others.
fn misfit_with(file: &Value, entry: &Value) -> TagMisfit {
    if !is_output(entry) {
        TagMisfit::WithOfOther
    } else if !names_output(file, entry) {
        TagMisfit::WithNone
    } else if leads_back(file, entry) {
        TagMisfit::WithItself
    } else {
        TagMisfit::Point
    }
}

/// The key, the rule that it breaks, and what to do.
fn told_of(misfit: TagMisfit) -> (&'static str, &'static str, &'static str) {
    match misfit {
        TagMisfit::DeviceOfGateway => (
            "device",
            "is for tags on devices, in and out",
            "take the key away: a tag set or site is on the gateway",
        ),
        TagMisfit::BitOfOther => (
            "bit",
            "is for tags in of type BOOL",
            "take the key away, or write access in and type BOOL",
        ),
        TagMisfit::RoundOfOther => (
            "round",
            "is for tags in without a bit",
            "take the key away: only what is read of a device is rounded",
        ),
        TagMisfit::RoundWord => (
            "round",
            "isn't down",
            "write \"down\", or take the key away",
        ),
        TagMisfit::LapseOfOther => (
            "lapse",
            "is for tags set",
            "take the key away: only what clients set lapses",
        ),
        TagMisfit::LapseAlone => (
            "lapse",
            "needs a default",
            "add default: what the program works with once what a client set has lapsed",
        ),
        TagMisfit::FitOfOther => (
            "fit",
            "is for tags out",
            "take the key away: only what is written to a device is fitted to its point",
        ),
        TagMisfit::FitWord => (
            "fit",
            "is neither down nor up",
            "write \"down\" or \"up\", or take the key away",
        ),
        TagMisfit::WithOfOther => (
            "with",
            "is for tags out",
            "take the key away: only what is written to a device goes with another tag",
        ),
        TagMisfit::WithNone => (
            "with",
            "is no name of a tag out of that device",
            "write the name of the out tag of the same device without which this one isn't to be written",
        ),
        TagMisfit::WithItself => (
            "with",
            "leads back to this tag",
            "take the key away at one of these tags: none of them would ever be written",
        ),
        TagMisfit::Point => (
            "point",
            "is of a kind that such a tag can't have",
            "take a point that has a number; a scale factor is for in and out, and a bit for bitfields",
        ),
    }
}

pub(super) fn has(entry: &Value, key: &str) -> bool {
    entry.get(key).is_some()
}

fn may_have_bit(entry: &Value) -> bool {
    is_input(entry) && matches!(kind(entry), Some(IlType::Bool))
}

fn is_input(entry: &Value) -> bool {
    matches!(access(entry), Some(Access::Input))
}

pub(super) fn is_output(entry: &Value) -> bool {
    matches!(access(entry), Some(Access::Output))
}

fn is_setting(entry: &Value) -> bool {
    matches!(access(entry), Some(Access::Setting))
}

fn may_round(entry: &Value) -> bool {
    is_input(entry) && !has(entry, "bit")
}
