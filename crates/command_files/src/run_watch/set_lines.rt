//! What clients set in a run: the lines of a file.
use std::alloc::{AllocFailed, Global};

/// What a client does from a scan on.
#[derive(Clone, Copy, Debug, PartialEq, Eq)]
pub struct Setting<'a> {
    /// The number of the scan, counted from 1.
    pub scan: u32,
    /// The name of the `set` tag.
    pub name: &'a str,
    pub said: Said,
    /// The number of the scan for which the next line of the tag is said; the greatest number where none is.
    pub until: u32,
}

/// What it sets a tag to.
#[derive(Clone, Copy, Debug, PartialEq, Eq)]
pub enum Said {
    /// This number, in the unit of the tag's exponent.
    Number(i64),
    /// Nothing any more: the client falls silent.
    Absent,
}

/// Why the lines aren't taken.
#[derive(Clone, Copy, Debug, PartialEq, Eq)]
pub enum SetsFault {
    /// The line of this number, counted from 1, is neither `SCAN NAME=NUMBER` nor `SCAN NAME=absent`, with a SCAN from 1 on.
    Line(usize),
    OutOfMemory,
}

impl<T: Drop> From<AllocFailed<T>> for SetsFault {
    fn from(_refused: AllocFailed<T>) -> Self {
        SetsFault::OutOfMemory
    }
}

/// The lines `SCAN NAME=NUMBER` and `SCAN NAME=absent` of a text, in their order. Empty lines and those that begin with `#` say nothing.
pub fn read_settings(alloc: Global, text: &str) -> Result<Vec<Setting<'_>>, SetsFault> {
    let mut settings = Vec::new(alloc);
    let mut number = 0usize;
    for line in text.lines() {
        number = number.saturating_add(1);
        if is_said(line) {
            settings.push(setting_in(line).ok_or(SetsFault::Line(number))?)?;
        }
    }
    end_each(&mut settings);
    Ok(settings)
}

/// Notes of each setting the scan for which the next line of its tag is said.
fn end_each(settings: &mut [Setting<'_>]) {
    for k in 0..settings.len() {
        let until = end_of(settings, k);
        settings[k].until = until;
    }
}

fn end_of(settings: &[Setting<'_>], k: usize) -> u32 {
    let Some(setting) = settings.get(k) else {
        return u32::MAX;
    };
    let mut end = u32::MAX;
    for (j, other) in settings.iter().enumerate() {
        let is_after = setting.scan < other.scan || (setting.scan == other.scan && k < j);
        if is_after && other.scan < end && other.name == setting.name {
            end = other.scan;
        }
    }
    end
}

/// Whether a line says something.
fn is_said(line: &str) -> bool {
    let line = line.trim();
    !line.is_empty() && !line.starts_with('#')
}

fn setting_in(line: &str) -> Option<Setting<'_>> {
    let (scan, rest) = line.trim().split_once(' ')?;
    let (name, said) = rest.trim().split_once('=')?;
    let setting = Setting {
        scan: scan.parse().ok()?,
        name,
        said: said_by(said)?,
        until: u32::MAX,
    };
    (setting.scan > 0).then_some(setting)
}

fn said_by(text: &str) -> Option<Said> {
    match text {
        "absent" => Some(Said::Absent),
        _ => Some(Said::Number(text.parse().ok()?)),
    }
}
