//! The texts of cases by their names.
use crate::fault::{Shown, StepFault};
use std::alloc::Global;

/// Before the name of the text that an edited one begins as.
const EDITED: &str = " from ";

/// A text, and the lines of it that an edit is about to replace.
#[derive(Drop)]
struct NamedText<'a> {
    name: &'a str,
    text: String,
    is_edited: bool,
    old: &'a str,
}

/// The texts of a file of cases: those before its first headline, and those of a case.
#[derive(Drop)]
pub(crate) struct Texts<'a> {
    alloc: Global,
    all: Vec<NamedText<'a>>,
    /// How many stand before the first headline.
    shared: usize,
    /// Whether lines belong to the last one.
    is_open: bool,
}

impl<'a> Texts<'a> {
    pub(crate) fn new(alloc: Global) -> Texts<'a> {
        Texts {
            alloc,
            all: Vec::new(alloc),
            shared: 0,
            is_open: false,
        }
    }

    /// The texts so far are there for each case.
    pub(crate) fn share(&mut self) {
        self.shared = self.all.len();
    }

    /// Begins a case: the texts of the one before are gone.
    pub(crate) fn begin_case(&mut self) {
        self.close();
        self.all.truncate(self.shared);
    }

    /// Begins a text: `NAME`, or `NAME from OTHER` for one with edits of another.
    pub(crate) fn begin(&mut self, words: &'a str) -> Shown<()> {
        let (name, other) = words.split_once(EDITED).unwrap_or((words, ""));
        let text = match other {
            "" => String::new(self.alloc),
            _ => self.get(other)?.to_string(self.alloc)?,
        };
        let is_edited = !other.is_empty();
        self.all.push(NamedText {
            name,
            text,
            is_edited,
            old: "",
        })?;
        self.is_open = true;
        Ok(())
    }

    /// Takes a line of the text that stands open; where none does it is a remark.
    pub(crate) fn take(&mut self, line: &'a str) -> Shown<()> {
        let alloc = self.alloc;
        match self.all.last_mut() {
            Some(text) if self.is_open => text.take(alloc, line),
            _ => Ok(()),
        }
    }

    /// Ends the text that stands open.
    pub(crate) fn close(&mut self) {
        self.is_open = false;
    }

    /// The last text of a name.
    pub(crate) fn get(&self, name: &str) -> Shown<&str> {
        let mut found = Err(StepFault::Step);
        for text in self.all.iter() {
            if text.name == name {
                found = Ok(text.text.as_str());
            }
        }
        found
    }
}

impl<'a> NamedText<'a> {
    /// Takes a line: of an edited text the part `- OLD` that is replaced, or what stands in its place, `+ NEW`, both with
    /// escapes as in Rust.
    fn take(&mut self, alloc: Global, line: &'a str) -> Shown<()> {
        if !self.is_edited {
            writeln!(self.text, "{line}")?;
        } else if let Some(old) = line.strip_prefix("- ") {
            self.old = old;
        } else if let Some(new) = line.strip_prefix("+ ") {
            let old = unescaped(alloc, self.old)?;
            let new = unescaped(alloc, new)?;
            self.text = replaced(alloc, self.text.as_str(), old.as_str(), new.as_str())?;
        }
        Ok(())
    }
}

/// A text with its first `old` replaced.
fn replaced(alloc: Global, text: &str, old: &str, new: &str) -> Shown<String> {
    match text.split_once(old) {
        Some((before, after)) => Ok(format!(in alloc; "{before}{new}{after}")?),
        None => Err(StepFault::Step),
    }
}

/// A line with the letters that `\n`, `\t`, `\r` and `\\` stand for.
fn unescaped(alloc: Global, line: &str) -> Shown<String> {
    let mut text = String::new(alloc);
    let mut is_escaped = false;
    for letter in line.chars() {
        let begins = letter == '\\' && !is_escaped;
        if !begins {
            text.push(if is_escaped { meant(letter) } else { letter })?;
        }
        is_escaped = begins;
    }
    Ok(text)
}

fn meant(letter: char) -> char {
    match letter {
        'n' => '\n',
        't' => '\t',
        'r' => '\r',
        other => other,
    }
}
