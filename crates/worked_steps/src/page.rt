//! What a case shows.
use crate::fault::Shown;
use std::alloc::Global;
use std::fmt::Display;

/// What a case has shown so far. Of lines that are equal and follow one another one is written, and how many they are.
#[derive(Drop)]
pub(crate) struct Page {
    alloc: Global,
    /// Whether steps of which nothing came are left out.
    is_short: bool,
    text: String,
    /// The step that was taken last, until it is written.
    step: String,
    last: String,
    times: usize,
}

impl Page {
    pub(crate) fn new(alloc: Global, is_short: bool) -> Page {
        Page {
            alloc,
            is_short,
            step: String::new(alloc),
            text: String::new(alloc),
            last: String::new(alloc),
            times: 0,
        }
    }

    /// Begins a step, by its line.
    pub(crate) fn begin(&mut self, line: &str) -> Shown<()> {
        self.end_line()?;
        self.step = line.to_string(self.alloc)?;
        if !self.is_short {
            self.write_step()?;
        }
        Ok(())
    }

    fn write_step(&mut self) -> Shown<()> {
        if !self.step.is_empty() {
            writeln!(self.text, "{}", self.step)?;
            self.step.clear();
        }
        Ok(())
    }

    /// Shows what came of a step.
    pub(crate) fn tell<D: Display + Drop>(&mut self, what: D) -> Shown<()> {
        self.write_step()?;
        let line = format!(in self.alloc; "{what}")?;
        if line.as_str() != self.last.as_str() {
            self.end_line()?;
            self.last = line;
        }
        self.times = self.times.saturating_add(1);
        Ok(())
    }

    /// All that was shown.
    pub(crate) fn text(mut self) -> Shown<String> {
        self.end_line()?;
        Ok(self.text)
    }

    /// Writes the line that came last, with how often it came.
    fn end_line(&mut self) -> Shown<()> {
        let last = self.last.as_str();
        let times = self.times;
        match times {
            0 => return Ok(()),
            1 => writeln!(self.text, "| {last}")?,
            _ => writeln!(self.text, "| {last} ({times} times)")?,
        }
        self.times = 0;
        self.last.clear();
        Ok(())
    }
}
