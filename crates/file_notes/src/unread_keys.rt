//! Warnings of the keys of a file that nothing reads.
use crate::definition_keys::push_unread_of_definition;
use crate::finding::EntryName;
use crate::table_keys::{push_unread_of_plant, push_unread_of_site};
use crate::wording::entry_shown;
use file_keys::TomlFile;
use note_text::{escaped, nearest_of};
use std::alloc::{AllocError, Global};

/// The most keys of a file that are told.
const MOST_TOLD: usize = 10;

/// Warnings of keys that nothing reads, as lines on the file at a path.
#[derive(Drop)]
pub(crate) struct UnreadKeys {
    path: String,
    lines: String,
    count: usize,
}

/// Warnings of the keys of a site file that nothing reads, with the nearest key that is known, or else all of them; empty
/// where each is known, or the text is no TOML.
pub fn warnings_of_site(
    alloc: Global,
    path: &str,
    file: &TomlFile<'_>,
) -> Result<String, AllocError> {
    let mut unread = UnreadKeys::on(alloc, path)?;
    if let Ok(tree) = file.tree() {
        push_unread_of_site(alloc, &mut unread, tree)?;
    }
    unread.told(alloc)
}

/// The same of a plant file.
pub fn warnings_of_plant(
    alloc: Global,
    path: &str,
    file: &TomlFile<'_>,
) -> Result<String, AllocError> {
    let mut unread = UnreadKeys::on(alloc, path)?;
    if let Ok(tree) = file.tree() {
        push_unread_of_plant(alloc, &mut unread, tree)?;
    }
    unread.told(alloc)
}

/// The same of a model definition; empty where the text is no JSON.
pub fn warnings_of_definition(alloc: Global, path: &str, text: &str) -> Result<String, AllocError> {
    let mut unread = UnreadKeys::on(alloc, path)?;
    if let Ok(tree) = serde_json::Value::from_str(alloc, text) {
        push_unread_of_definition(alloc, &mut unread, &tree)?;
    }
    unread.told(alloc)
}

impl UnreadKeys {
    /// None yet, on the file at a path.
    fn on(alloc: Global, path: &str) -> Result<UnreadKeys, AllocError> {
        Ok(UnreadKeys {
            path: escaped(alloc, path)?,
            lines: String::new(alloc),
            count: 0,
        })
    }

    /// Warns of a key of an entry that isn't among those that are known there, where not too many are told.
    pub(crate) fn look_at(
        &mut self,
        alloc: Global,
        entry: EntryName<'_>,
        key: &str,
        known: &[&'static str],
    ) -> Result<(), AllocError> {
        if is_among(known, key) {
            return Ok(());
        }
        self.count = self.count.saturating_add(1);
        if self.count > MOST_TOLD {
            return Ok(());
        }
        let line = warning(alloc, self.path.as_str(), entry, key, known)?;
        self.lines.push_str(line.as_str())
    }

    /// The lines, and how many more there are.
    fn told(self, alloc: Global) -> Result<String, AllocError> {
        let UnreadKeys {
            path,
            mut lines,
            count,
        } = self;
        let more = count.saturating_sub(MOST_TOLD);
        if more > 0 {
            let line = format!(in alloc; "{path}: warning: nothing reads {more} more keys\n")?;
            lines.push_str(line.as_str())?;
        }
        Ok(lines)
    }
}

fn is_among(words: &[&str], word: &str) -> bool {
    for other in words {
        if *other == word {
            return true;
        }
    }
    false
}

/// The lines on a key: the nearest of those that are known, or else all of them.
fn warning(
    alloc: Global,
    path: &str,
    entry: EntryName<'_>,
    key: &str,
    known: &[&'static str],
) -> Result<String, AllocError> {
    let entry = entry_shown(alloc, entry)?;
    let shown = escaped(alloc, key)?;
    let mut line = format!(in alloc; "{path}: warning: {entry}: nothing reads {shown}\n  help: ")?;
    match nearest_of(known, key) {
        Some(meant) => {
            let help = format!(in alloc; "did you mean {meant}?\n")?;
            line.push_str(help.as_str())?;
        }
        None => push_known(&mut line, known)?,
    }
    Ok(line)
}

/// Appends the keys that are known.
fn push_known(line: &mut String, known: &[&str]) -> Result<(), AllocError> {
    line.push_str("the keys there are")?;
    for (number, key) in known.iter().enumerate() {
        line.push_str(if number == 0 { " " } else { ", " })?;
        line.push_str(key)?;
    }
    line.push_str("\n")
}
