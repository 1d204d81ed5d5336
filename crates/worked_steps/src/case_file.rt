//! A file of cases, read line by line.
use crate::benches::Benches;
use crate::fault::{Shown, StepFault};
use crate::page::Page;
use crate::texts::Texts;
use std::alloc::Global;
use std::io::Write;

/// Before a case's headline.
const HEADLINE: &str = "=== ";

/// Before a text's name.
const TEXT: &str = "--- ";

/// Before a step.
const STEP: &str = "$ ";

/// Before the range of a case's number, at the end of its headline.
const RANGE: &str = ", N = ";

/// A file of cases while it is shown.
#[derive(Drop)]
pub(crate) struct CaseFile<'a> {
    alloc: Global,
    lines: &'a [&'a str],
    texts: Texts<'a>,
    /// The number of the line that is taken, from 1 on.
    line: usize,
}

impl<'a> CaseFile<'a> {
    pub(crate) fn new(alloc: Global, lines: &'a [&'a str]) -> CaseFile<'a> {
        CaseFile {
            alloc,
            lines,
            texts: Texts::new(alloc),
            line: 0,
        }
    }

    /// The line that was taken last.
    pub(crate) fn line(&self) -> usize {
        self.line
    }

    /// Shows all cases: the texts before the first one are there for each.
    pub(crate) fn show<W: Write>(&mut self, out: &mut W) -> Shown<()> {
        let first = self.next_headline(0);
        self.page_of(Page::new(self.alloc, false), 0, first, 0)?;
        self.texts.share();
        let mut start = first;
        for _ in 0..self.lines.len() {
            if start >= self.lines.len() {
                break;
            }
            let end = self.next_headline(start.saturating_add(1));
            self.show_case(out, start, end)?;
            start = end;
        }
        Ok(())
    }

    /// The first headline from a line on, or the end of the file.
    fn next_headline(&self, start: usize) -> usize {
        for (i, line) in self.lines.iter().enumerate().skip(start) {
            if line.starts_with(HEADLINE) {
                return i;
            }
        }
        self.lines.len()
    }

    /// Shows the case of these lines. One with a range is done for each number of it; where the same comes of numbers in a
    /// row it is shown once, without the steps of which nothing comes.
    fn show_case<W: Write>(&mut self, out: &mut W, start: usize, end: usize) -> Shown<()> {
        let headline = self.lines.get(start).copied().unwrap_or("");
        writeln!(out, "{headline}")?;
        self.line = start.saturating_add(1);
        match headline.split_once(RANGE) {
            Some((_, range)) => self.show_range(out, (start, end), bounds_of(range)?),
            None => {
                let page = Page::new(self.alloc, false);
                let page = self.page_of(page, start.saturating_add(1), end, 0)?;
                Ok(out.write_all(page.as_bytes())?)
            }
        }
    }

    fn show_range<W: Write>(
        &mut self,
        out: &mut W,
        lines: (usize, usize),
        (first, last): (usize, usize),
    ) -> Shown<()> {
        let mut shown = String::new(self.alloc);
        let mut from = first;
        for number in first..=last {
            let page = Page::new(self.alloc, true);
            let page = self.page_of(page, lines.0.saturating_add(1), lines.1, number)?;
            if number > first && page.as_str() != shown.as_str() {
                show_group(out, from, number.saturating_sub(1), shown.as_str())?;
                from = number;
            }
            shown = page;
        }
        show_group(out, from, last, shown.as_str())
    }

    /// What comes of some lines, with this number in place of each word `N` of a step.
    fn page_of(
        &mut self,
        mut page: Page,
        start: usize,
        end: usize,
        number: usize,
    ) -> Shown<String> {
        self.texts.begin_case();
        let mut benches = Benches::new(self.alloc, number);
        let lines = self.lines;
        for (i, line) in lines.iter().enumerate().take(end).skip(start) {
            self.line = i.saturating_add(1);
            self.take(&mut benches, &mut page, *line)?;
        }
        page.text()
    }

    fn take(&mut self, benches: &mut Benches, page: &mut Page, line: &'a str) -> Shown<()> {
        if let Some(name) = line.strip_prefix(TEXT) {
            self.texts.begin(name)
        } else if let Some(step) = line.strip_prefix(STEP) {
            self.texts.close();
            page.begin(line)?;
            benches.take(&self.texts, page, step)
        } else {
            self.texts.take(line)
        }
    }
}

fn show_group<W: Write>(out: &mut W, from: usize, to: usize, page: &str) -> Shown<()> {
    match from == to {
        true => writeln!(out, "N = {from}")?,
        false => writeln!(out, "N = {from}..{to}")?,
    }
    Ok(out.write_all(page.as_bytes())?)
}

/// The two numbers of `FIRST..LAST`.
fn bounds_of(range: &str) -> Shown<(usize, usize)> {
    match range.split_once("..") {
        Some((first, last)) => Ok((bound(first)?, bound(last)?)),
        None => Err(StepFault::Step),
    }
}

fn bound(word: &str) -> Shown<usize> {
    match word.parse::<usize>() {
        Ok(number) => Ok(number),
        Err(_) => Err(StepFault::Step),
    }
}
