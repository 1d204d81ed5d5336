//! What is known before each instruction, line by line.
ghost use Rattle.std.specs.Prelude.{◌<◌, length};

use crate::items::{ItemLine, TO, push_known};
use crate::line_index::LineIndex;
use crate::longest::{line_of, push_longest};
use crate::refusing::MOST_DEFERRED;
use crate::rows::{Row, rows_of};
use crate::words::mnemonic;
use facts::RefusalKind;
use facts::context::Context;
use il_reader::Program;
use note_text::plain_letter;
use point_types::Items;
use scan_code::Image;
use site_model::{Fit, Site};
use std::alloc::{AllocError, Global};
use verifier::known::framed;

/// The column after a line of the text, the letters that are shown of one that is cut, and the column that no line that
/// is shown longer passes.
const SOURCE_END: usize = 38;

const SOURCE_SHOWN: usize = 32;

const SOURCE_MOST: usize = 98;

/// What the table has beside the lines of the text.
#[derive(Clone, Copy, PartialEq, Eq, Debug)]
pub enum Beside {
    /// The instructions.
    Instructions,
    /// The instructions, and what is known before each.
    Known,
}

/// The lines of a program's text, each with its instructions, and where that is asked for with what is known before them:
/// the result (r), the deferred values (d), the last one first, the variables and tags that lie in less than their range,
/// and the inputs that are present. After them stand the longest path, which makes the budget, and the `out` tags that are fitted to their points. Where an instruction is
/// refused, of which `refused` is the number, the lines end with it.
pub fn table_of(
    alloc: Global,
    text: &str,
    program: &Program,
    image: &Image,
    site: &Site,
    refused: Option<usize>,
    beside: Beside,
) -> Result<String, AllocError> {
    match framed(alloc, image, site, MOST_DEFERRED) {
        Ok(context) => {
            let mut lines = table_in(alloc, text, program, image, &context, refused, beside)?;
            if refused.is_none() && beside == Beside::Known {
                push_fits(&mut lines, site)?;
                push_companions(&mut lines, site)?;
            }
            Ok(lines)
        }
        Err(refusal) => match refusal.kind {
            RefusalKind::OutOfMemory => Err(AllocError),
            _ => String::from_str(alloc, ""),
        },
    }
}

fn table_in(
    alloc: Global,
    text: &str,
    program: &Program,
    image: &Image,
    context: &Context,
    refused: Option<usize>,
    beside: Beside,
) -> Result<String, AllocError>
    requires { length context.now.listing < 65536 }
{
    let rows: Items<Row> = rows_of(alloc, program, context)?;
    let rows = rows.as_slice();
    let table = Table {
        text,
        image,
        beside,
    };
    let mut line = ItemLine {
        text: String::new(alloc),
        column: 0,
        most: TO,
    };
    match refused {
        Some(at) => table.push_to(alloc, &mut line, rows, at)?,
        None => {
            table.push_lines(alloc, &mut line, rows, usize::MAX)?;
            push_longest(alloc, &mut line, context, rows)?;
        }
    }
    Ok(line.text)
}

/// Appends which `out` tags have the key `fit`, by its word.
fn push_fits(lines: &mut String, site: &Site) -> Result<(), AllocError> {
    push_fitted(lines, site, Fit::Down, "fitted down:")?;
    push_fitted(lines, site, Fit::Up, "fitted up:")
}

/// Appends which `out` tags are written only together with another one, and which that is.
fn push_companions(lines: &mut String, site: &Site) -> Result<(), AllocError> {
    let mut is_first = true;
    for tag in site.tags() {
        if let Some(companion) = &tag.companion {
            if is_first {
                lines.push_str("written together:")?;
            } else {
                lines.push_str(",")?;
            }
            lines.push_str(" ")?;
            lines.push_str(tag.name.as_str())?;
            lines.push_str(" with ")?;
            lines.push_str(companion.as_str())?;
            is_first = false;
        }
    }
    if !is_first {
        lines.push_str("\n")?;
    }
    Ok(())
}

fn push_fitted(lines: &mut String, site: &Site, fit: Fit, head: &str) -> Result<(), AllocError> {
    let mut is_first = true;
    for tag in site.tags() {
        if tag.fit == fit {
            if is_first {
                lines.push_str(head)?;
            } else {
                lines.push_str(",")?;
            }
            lines.push_str(" ")?;
            lines.push_str(tag.name.as_str())?;
            is_first = false;
        }
    }
    if !is_first {
        lines.push_str("\n")?;
    }
    Ok(())
}

/// What the lines of a table are made of.
#[derive(Clone, Copy)]
struct Table<'a> {
    text: &'a str,
    image: &'a Image,
    beside: Beside,
}

impl Table<'_> {
    /// Appends the lines up to an instruction.
    fn push_to(
        &self,
        alloc: Global,
        line: &mut ItemLine,
        rows: &[Row],
        at: usize,
    ) -> Result<(), AllocError> {
        let judged = rows.get(..at.saturating_add(1)).unwrap_or(rows);
        let last = line_of(rows, at);
        self.push_lines(alloc, line, judged, last as usize)
    }

    /// Appends the lines up to one, with these instructions.
    fn push_lines(
        &self,
        alloc: Global,
        line: &mut ItemLine,
        rows: &[Row],
        last: usize,
    ) -> Result<(), AllocError> {
        let index = LineIndex::of(alloc, rows, self.text.lines().count())?;
        for (before, source) in self.text.lines().enumerate() {
            let number = before.saturating_add(1);
            if number > last {
                break;
            }
            push_source(alloc, line, number, source)?;
            self.push_rows(alloc, line, rows, &index, number)?;
        }
        Ok(())
    }

    /// Appends the instructions of a line, each on a line of the table, and ends it.
    fn push_rows(
        &self,
        alloc: Global,
        line: &mut ItemLine,
        rows: &[Row],
        index: &LineIndex,
        number: usize,
    ) -> Result<(), AllocError> {
        let mut at = index.first_on(number);
        if at.is_some() && line.column > SOURCE_END {
            line.end()?;
        }
        for _ in 0..rows.len() {
            let Some(row) = row_at(rows, at) else {
                break;
            };
            self.push_row(alloc, line, row)?;
            at = index.behind(row.number);
            if at.is_some() {
                line.end()?;
            }
        }
        line.end()
    }

    fn push_row(&self, alloc: Global, line: &mut ItemLine, row: &Row) -> Result<(), AllocError> {
        line.pad_to(SOURCE_END)?;
        let (number, word) = (row.number, mnemonic(row.op));
        let instruction = format!(in alloc; "{number:>5} {word}")?;
        line.push(instruction.as_str())?;
        match self.beside {
            Beside::Instructions => Ok(()),
            Beside::Known => push_known(alloc, line, self.image, &row.known),
        }
    }
}

/// Appends a line of the text with its number.
fn push_source(
    alloc: Global,
    line: &mut ItemLine,
    number: usize,
    source: &str,
) -> Result<(), AllocError> {
    let number = format!(in alloc; "{number:>4} ")?;
    line.push(number.as_str())?;
    let source = source.trim_end();
    let shown = letters_shown(source);
    for letter in source.chars().take(shown) {
        line.text.push(plain_letter(letter))?;
        line.column = line.column.saturating_add(1);
    }
    if source.chars().nth(shown).is_some() {
        line.push("..")
    } else {
        Ok(())
    }
}

/// How many letters are shown of a line: all of a short one, and of a long one as many as have room beside the
/// instructions, or those before its comment.
fn letters_shown(source: &str) -> usize {
    let code = match source.split_once("(*") {
        Some((code, _)) => code.trim_end(),
        None => source,
    };
    let (all, code) = (source.chars().count(), code.chars().count());
    if all <= SOURCE_SHOWN {
        all
    } else if code < SOURCE_SHOWN || code > SOURCE_MOST - 7 {
        SOURCE_SHOWN - 2
    } else {
        code
    }
}

fn row_at(rows: &[Row], at: Option<usize>) -> Option<&Row> {
    match at {
        Some(at) => rows.get(at),
        None => None,
    }
}
