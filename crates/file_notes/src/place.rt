//! Where in a file a fault was found.
use crate::brackets::{Single, single_at, single_on};
use crate::finding::{EntryName, Finding, Meant, Rule, ValueKind};
use crate::points::models_with;
use crate::wording::{entry_shown, help_of, meaning_of, rule_shown, stands_shown};
use std::alloc::{AllocError, Global};

/// Where in a file a fault was found.
#[derive(Drop)]
pub enum FilePlace {
    /// Where the text goes wrong: the line and the column, both from 1. A column counts characters.
    Text { line: usize, column: usize },
    /// A section that is a list, in one pair of brackets.
    Single(Single),
    /// The entry that breaks a rule.
    Entry(EntryPlace),
}

/// An entry that breaks a rule, and what is told of it in place of the words of the fault's kind, where it is known more
/// closely.
#[derive(Drop)]
pub struct EntryPlace {
    /// The entry, its key, what stands there and the rule: `[[tag]] inv1_w (the 1st): low = 5 is over high = 4`.
    pub shown: String,
    /// What is wrong.
    pub meaning: Option<&'static str>,
    /// What to do; `{}` stands for the name.
    pub help: Option<&'static str>,
    /// What may be meant, a name or the numbers of models; or else the key.
    pub name: String,
}

impl FilePlace {
    /// Where a text is no TOML; None where memory was refused.
    pub(crate) fn of_toml(text: &str, error: &toml::de::Error) -> Option<FilePlace> {
        let span = error.span()?;
        let (line, column) = position(text, span.start);
        match single_on(text, line.min(text.lines().count())) {
            Some(single) => Some(FilePlace::Single(single)),
            None => Some(FilePlace::Text { line, column }),
        }
    }

    /// What was found at an entry of a text; None where memory was refused.
    pub(crate) fn found(
        alloc: Global,
        text: &str,
        entry: EntryName<'_>,
        finding: Finding<'_>,
    ) -> Option<FilePlace> {
        if let Rule::Unlike(ValueKind::Tables) = finding.rule {
            if let Some(single) = single_at(text, finding.key) {
                return Some(FilePlace::Single(single));
            }
        }
        match EntryPlace::of(alloc, entry, finding) {
            Ok(place) => Some(FilePlace::Entry(place)),
            Err(_) => None,
        }
    }
}

impl EntryPlace {
    fn of(
        alloc: Global,
        entry: EntryName<'_>,
        finding: Finding<'_>,
    ) -> Result<EntryPlace, AllocError> {
        let shown = line_on(alloc, entry, finding)?;
        let name = match finding.meant {
            Meant::Nothing => String::from_str(alloc, finding.key)?,
            Meant::Name(name) => String::from_str(alloc, name)?,
            Meant::ModelWith(defs, point) => models_with(alloc, defs, point)?,
        };
        Ok(EntryPlace {
            shown,
            meaning: meaning_of(finding.rule),
            help: help_on(finding),
            name,
        })
    }
}

/// What is found at an entry, in one line.
fn line_on(
    alloc: Global,
    entry: EntryName<'_>,
    finding: Finding<'_>,
) -> Result<String, AllocError> {
    let entry = entry_shown(alloc, entry)?;
    let rule = rule_shown(alloc, finding.rule)?;
    let key = finding.key;
    match stands_shown(alloc, finding.stands)? {
        Some(stands) => format!(in alloc; "{entry}: {key} = {stands} {rule}"),
        None => format!(in alloc; "{entry}: {key} {rule}"),
    }
}

/// What to do about it; None for what the fault says.
fn help_on(finding: Finding<'_>) -> Option<&'static str> {
    match finding.meant {
        Meant::Nothing => finding.help.or(help_of(finding.rule)),
        Meant::Name(_) => Some("did you mean {}?"),
        Meant::ModelWith(_, _) => Some("correct the model: a point of this name is in {}"),
    }
}

/// The line and the column after so many bytes of a text.
fn position(text: &str, bytes: usize) -> (usize, usize) {
    let mut line = 1usize;
    let mut column = 1usize;
    for (place, letter) in text.char_indices() {
        if place >= bytes {
            break;
        }
        if letter == '\n' {
            line = line.saturating_add(1);
            column = 1;
        } else {
            column = column.saturating_add(1);
        }
    }
    (line, column)
}
