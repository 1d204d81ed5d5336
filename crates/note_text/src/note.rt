//! A note on a line of a text.
use crate::code::Code;
use crate::escaping::{escaped, plain_letter, push_escaped};
use crate::marking::{Mark, marked};
use std::alloc::{AllocError, Global};

/// The most bytes that a line has which is shown.
const LONGEST_LINE: usize = 200;

/// A note on a line of a text.
#[derive(Clone, Copy)]
pub struct Note<'a> {
    /// The path of the file.
    pub path: &'a str,
    /// The text of the file.
    pub text: &'a str,
    /// The line, counted from 1; 0 where the note is on the whole file.
    pub line: u32,
    /// What on the line is meant.
    pub mark: Mark,
    /// The word of the kind of fault.
    pub kind: &'a str,
    /// What is wrong; `{}` stands for the name.
    pub meaning: &'a str,
    /// What to do about it; `{}` stands for the name.
    pub help: &'a str,
    /// The name that both speak of; where it is empty they say `it`.
    pub name: &'a str,
    /// What is known there, after the carets; empty where nothing is.
    pub detail: &'a str,
}

impl Note<'_> {
    /// The lines of the note: the place and what is wrong, the line of the text with carets under what is meant and
    /// what is known there, and what to do. A line of the text that is longer than 200 bytes isn't shown.
    pub fn shown(&self, alloc: Global) -> Result<String, AllocError> {
        let mut lines = self.place(alloc)?;
        push_all(&mut lines, &[": ", self.kind, ": "])?;
        push_named(&mut lines, self.meaning, self.name)?;
        lines.push_str("\n")?;
        match line_of(self.text, self.line) {
            Some(line) => self.push_source(alloc, &mut lines, line)?,
            None => push_known(&mut lines, "  ", self.detail)?,
        }
        lines.push_str("  help: ")?;
        push_named(&mut lines, self.help, self.name)?;
        lines.push_str("\n")?;
        Ok(lines)
    }

    /// Appends a line of the text with its number, and below it the carets and what is known there.
    fn push_source(&self, alloc: Global, lines: &mut String, line: &str) -> Result<(), AllocError> {
        let number = self.line;
        let number = format!(in alloc; "{number:>5} | ")?;
        lines.push_str(number.as_str())?;
        push_shown(lines, line)?;
        lines.push_str("\n      | ")?;
        let code = Code::of(alloc, self.text)?;
        let code = line_of(code.text.as_str(), self.line).unwrap_or("");
        let (start, end) = marked(line, code, self.mark, self.name);
        push_carets(lines, line, start, end)?;
        if self.detail.is_empty() {
            lines.push_str("\n")?;
        }
        push_known(lines, " ", self.detail)
    }

    /// The path, and the line where there is one.
    fn place(&self, alloc: Global) -> Result<String, AllocError> {
        let path = escaped(alloc, self.path)?;
        if self.line == 0 {
            return Ok(path);
        }
        let line = self.line;
        format!(in alloc; "{path}:{line}")
    }
}

fn push_all(lines: &mut String, parts: &[&str]) -> Result<(), AllocError> {
    for part in parts {
        lines.push_str(part)?;
    }
    Ok(())
}

/// A line of a text by its number, where it isn't too long to be shown.
fn line_of(text: &str, number: u32) -> Option<&str> {
    let before = number.checked_sub(1)?;
    for (place, line) in text.lines().enumerate() {
        if place == before as usize {
            return if line.len() <= LONGEST_LINE {
                Some(line)
            } else {
                None
            };
        }
    }
    None
}

/// Appends what is known as the rest of a line; nothing where it is empty.
fn push_known(lines: &mut String, before: &str, detail: &str) -> Result<(), AllocError> {
    if detail.is_empty() {
        return Ok(());
    }
    lines.push_str(before)?;
    push_escaped(lines, detail)?;
    lines.push_str("\n")
}

/// Appends a text with the name in place of each `{}`.
fn push_named(lines: &mut String, text: &str, name: &str) -> Result<(), AllocError> {
    let name = if name.is_empty() { "it" } else { name };
    for (number, part) in text.split("{}").enumerate() {
        if number > 0 {
            push_escaped(lines, name)?;
        }
        lines.push_str(part)?;
    }
    Ok(())
}

/// Appends a line with nothing in it that moves what stands after it.
fn push_shown(lines: &mut String, line: &str) -> Result<(), AllocError> {
    for letter in line.chars() {
        lines.push(plain_letter(letter))?;
    }
    Ok(())
}

/// Appends a caret below each letter that is meant, and one where what is meant comes after the last; blanks before.
fn push_carets(lines: &mut String, line: &str, start: usize, end: usize) -> Result<(), AllocError> {
    for (place, _) in line.char_indices() {
        if place >= end {
            return Ok(());
        }
        lines.push(if place < start { ' ' } else { '^' })?;
    }
    if end > line.len() {
        lines.push('^')?;
    }
    Ok(())
}
