//! Sections that are lists and stand in one pair of brackets by mistake.

/// Such a section, and the first line that has it in one pair.
#[derive(Clone, Copy)]
pub struct Single {
    /// Its name.
    pub section: &'static str,
    /// The line, counted from 1.
    pub line: u32,
}

/// The sections that are lists, each as it stands by mistake, in one pair of brackets, and as each entry begins.
const LISTS: &[(&str, &str, &str)] = &[
    ("device", "[device]", "[[device]]"),
    ("tag", "[tag]", "[[tag]]"),
    ("served", "[served]", "[[served]]"),
    ("device.value", "[device.value]", "[[device.value]]"),
    ("fault", "[fault]", "[[fault]]"),
];

/// The section that begins on a line of a text, counted from 1, where it stands in one pair of brackets somewhere.
pub(crate) fn single_on(text: &str, line: usize) -> Option<Single> {
    let line = before_comment(text.lines().nth(line.checked_sub(1)?)?);
    for (section, single, double) in LISTS {
        if line == *single || line == *double {
            return first_of(text, section, single);
        }
    }
    None
}

/// The section that is a key of the file, or of one of its entries, where it stands in one pair of brackets somewhere.
pub(crate) fn single_at(text: &str, key: &str) -> Option<Single> {
    for (section, single, _) in LISTS {
        if ends_with_key(section, key) {
            return first_of(text, section, single);
        }
    }
    None
}

fn ends_with_key(section: &str, key: &str) -> bool {
    match section.strip_suffix(key) {
        Some(before) => before.is_empty() || before.ends_with("."),
        None => false,
    }
}

/// A section on the first line where it stands alone in one pair of brackets.
fn first_of(text: &str, section: &'static str, single: &str) -> Option<Single> {
    for (before, line) in text.lines().enumerate() {
        if before_comment(line) == single {
            let line = u32::try_from(before.saturating_add(1)).ok()?;
            return Some(Single { section, line });
        }
    }
    None
}

fn before_comment(line: &str) -> &str {
    match line.split_once("#") {
        Some((before, _)) => before.trim(),
        None => line.trim(),
    }
}
