//! The looks for what breaks the rules that all files have.
use crate::finding::{EntryName, Finding, Rule, Stands, ValueKind, is_of, named_entry, stands_at};
use crate::keys::{Key, Need, Section};
use file_keys::{has_over, number_at, section_at};
use toml::Value;

/// The entry of a section with that number, from 0, and those before it.
pub(crate) fn entry_in<'a>(
    file: &'a Value,
    section: &str,
    number: usize,
) -> Option<(&'a Value, &'a [Value])> {
    let entries = section_at(file, section)?;
    Some((entries.get(number)?, entries.get(..number)?))
}

/// The first key of an entry that is missing or of another kind, in the turns in which its reader looks at them.
pub(crate) fn first_broken<'a>(entry: &'a Value, section: &Section) -> Option<Finding<'a>> {
    for turn in [Need::First, Need::Always, Need::Last] {
        if let Some(finding) = first_in_turn(entry, section.keys, turn) {
            return Some(section.advising(finding));
        }
    }
    None
}

fn first_in_turn<'a>(entry: &'a Value, keys: &[Key], turn: Need) -> Option<Finding<'a>> {
    for key in keys {
        let Key(name, kind, need) = *key;
        if need.turn() == turn {
            if let Some(finding) = broken_at(entry, name, kind, need.is_always()) {
                return Some(finding);
            }
        }
    }
    None
}

/// What is found at a key that is missing, where it is needed, or of another kind.
pub(crate) fn broken_at<'a>(
    entry: &'a Value,
    key: &'static str,
    kind: ValueKind,
    needed: bool,
) -> Option<Finding<'a>> {
    let rule = unlike(entry.get(key), kind, needed)?;
    Some(Finding::by(key, stands_at(entry, key), rule))
}

/// Why what stands at a key is nothing of that kind.
fn unlike(value: Option<&Value>, kind: ValueKind, needed: bool) -> Option<Rule<'static>> {
    match value {
        None => if needed { Some(Rule::Missing) } else { None },
        Some(value) => if is_of(value, kind) {
            None
        } else {
            Some(Rule::Unlike(kind))
        },
    }
}

/// The first of some keys whose number is outside its limits.
pub(crate) fn first_outside<'a>(entry: &'a Value, keys: &[Key]) -> Option<Finding<'a>> {
    for key in keys {
        if let Key(name, ValueKind::Within(low, high), _) = *key {
            if is_outside(number_at(entry, name), low, high) {
                let stands = stands_at(entry, name);
                return Some(Finding::by(name, stands, Rule::Within(low, high)));
            }
        }
    }
    None
}

fn is_outside(number: Option<i64>, low: i64, high: i64) -> bool {
    match number {
        Some(number) => number < low || high < number,
        None => false,
    }
}

/// A list of which the entry with that number, from 0, is no table.
pub(crate) fn no_table_in<'a>(
    file: &'a Value,
    section: &'static str,
    number: usize,
) -> Option<Finding<'a>> {
    let entries = section_at(file, section)?;
    if is_of(entries.get(number)?, ValueKind::Table) {
        return None;
    }
    let rule = Rule::Unlike(ValueKind::Tables);
    Some(Finding::by(section, stands_at(file, section), rule))
}

/// The first of some lists that is too long.
pub(crate) fn first_long<'a>(
    entry: &'a Value,
    limits: &[(&'static str, usize)],
) -> Option<Finding<'a>> {
    for limit in limits {
        let (key, most) = *limit;
        if has_over(most, key, entry) {
            return Some(Finding::by(key, Stands::Nothing, Rule::Longer(most)));
        }
    }
    None
}

/// The name of the first of some entries that has at each of these keys what another entry has there.
pub(crate) fn first_alike<'a>(
    section: &'static str,
    entries: &'a [Value],
    entry: &Value,
    keys: &[&str],
) -> Option<EntryName<'a>> {
    for (number, other) in entries.iter().enumerate() {
        if is_alike(other, entry, keys) {
            return Some(named_entry(section, other, number));
        }
    }
    None
}

/// Whether two entries have the same at each of these keys: one text, one number, or nothing.
pub(crate) fn is_alike(one: &Value, other: &Value, keys: &[&str]) -> bool {
    for key in keys {
        if !is_same(stands_at(one, key), stands_at(other, key)) {
            return false;
        }
    }
    true
}

fn is_same(one: Stands<'_>, other: Stands<'_>) -> bool {
    match (one, other) {
        (Stands::Nothing, Stands::Nothing) => true,
        (Stands::Text(one), Stands::Text(other)) => one == other,
        (Stands::Number(one), Stands::Number(other)) => one == other,
        _ => false,
    }
}

/// The first whole number of a list that stands there before.
pub(crate) fn first_repeated(list: &[Value]) -> Option<i64> {
    for (number, value) in list.iter().enumerate() {
        if let (Some(found), Some(before)) = (value.as_integer(), list.get(..number)) {
            if has_number(before, found) {
                return Some(found);
            }
        }
    }
    None
}

fn has_number(list: &[Value], number: i64) -> bool {
    for value in list {
        if value.as_integer() == Some(number) {
            return true;
        }
    }
    false
}
