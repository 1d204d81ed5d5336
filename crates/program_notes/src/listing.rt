//! A program line by line, with what is known of it, for whoever shows it in a form of his own.
use crate::code_lines::name_in;
use crate::items::known_words;
use crate::line_index::LineIndex;
use crate::longest::longest_lines;
use crate::refusing::MOST_DEFERRED;
use crate::rows::{Row, rows_of};
use crate::words::mnemonic;
use facts::RefusalKind;
use il_reader::Program;
use scan_code::{Image, Op};
use site_model::Site;
use std::alloc::{AllocError, Global};
use verifier::known::framed;
use verifier::told::{Shown, Standing};

/// A program that is accepted for a site, line by line.
#[derive(Drop)]
pub struct Listing {
    /// The lines of its text, in order.
    pub lines: Vec<ListedLine>,
    /// The lines of the longest path, which makes its budget.
    pub longest: Vec<u32>,
}

/// What a line of a program has.
#[derive(Drop)]
pub struct ListedLine {
    pub code: Vec<ListedInstruction>,
    /// What its instructions load and store, each name once; `NAME_ok` is whether an input is present.
    pub uses: Vec<String>,
    /// What is known of the result after it, where it has one and doesn't end with a jump.
    pub proved: Option<Shown>,
}

/// An instruction of a line.
#[derive(Drop)]
pub struct ListedInstruction {
    pub number: usize,
    pub word: &'static str,
    /// What is known before it, in the words of the table of a program.
    pub known: String,
}

/// The lines of a program's text; None where it isn't accepted for the site.
pub fn listing_of(
    alloc: Global,
    text: &str,
    program: &Program,
    image: &Image,
    site: &Site,
) -> Result<Option<Listing>, AllocError> {
    let context = match framed(alloc, image, site, MOST_DEFERRED) {
        Ok(context) => context,
        Err(refusal) => {
            return match refusal.kind {
                RefusalKind::OutOfMemory => Err(AllocError),
                _ => Ok(None),
            };
        }
    };
    let rows = rows_of(alloc, program, &context)?;
    let longest = longest_lines(alloc, &context, rows.as_slice())?;
    let lines = lines_of(alloc, text.lines().count(), image, rows.as_slice())?;
    Ok(Some(Listing { lines, longest }))
}

/// So many lines, with these instructions.
fn lines_of(
    alloc: Global,
    count: usize,
    image: &Image,
    rows: &[Row],
) -> Result<Vec<ListedLine>, AllocError> {
    let index = LineIndex::of(alloc, rows, count)?;
    let mut lines = Vec::new(alloc);
    for before in 0..count {
        let first = index.first_on(before.saturating_add(1));
        lines.push(line_from(alloc, image, rows, &index, first)?)?;
    }
    Ok(lines)
}

/// A line from its first instruction on.
fn line_from(
    alloc: Global,
    image: &Image,
    rows: &[Row],
    index: &LineIndex,
    first: Option<usize>,
) -> Result<ListedLine, AllocError> {
    let mut line = ListedLine {
        code: Vec::new(alloc),
        uses: Vec::new(alloc),
        proved: result_after(rows, first),
    };
    let mut next = first;
    for _ in 0..rows.len() {
        let Some(row) = row_at(rows, next) else {
            break;
        };
        line.code.push(ListedInstruction {
            number: row.number,
            word: mnemonic(row.op),
            known: known_words(alloc, image, &row.known)?,
        })?;
        push_use(alloc, &mut line.uses, image, row.op)?;
        next = index.behind(row.number);
    }
    Ok(line)
}

/// Appends what an instruction loads or stores, where that isn't there yet.
fn push_use(
    alloc: Global,
    uses: &mut Vec<String>,
    image: &Image,
    op: Op,
) -> Result<(), AllocError> {
    let Some(name) = name_in(image, op) else {
        return Ok(());
    };
    let mut used = String::from_str(alloc, name.as_str())?;
    if let Op::LoadPresence(_) = op {
        used.push_str("_ok")?;
    }
    for known in uses.iter() {
        if known.as_str() == used.as_str() {
            return Ok(());
        }
    }
    uses.push(used)?;
    Ok(())
}

/// What is known of the result after the instructions that follow each other on a line, from its first one on.
fn result_after(rows: &[Row], first: Option<usize>) -> Option<Shown> {
    let first = row_at(rows, first)?;
    let mut last = first.number;
    for row in rows.get(first.number..)? {
        if row.line != first.line {
            break;
        }
        last = row.number;
    }
    match row_at(rows, Some(last))?.op {
        Op::Jump(_, _) | Op::Return(_) | Op::Repeat(_, _, _, _) | Op::End => None,
        _ => result_before(row_at(rows, Some(last.saturating_add(1)))?),
    }
}

fn result_before(row: &Row) -> Option<Shown> {
    match &row.known {
        Some(Standing::Known(told)) => told.result,
        _ => None,
    }
}

fn row_at(rows: &[Row], at: Option<usize>) -> Option<&Row> {
    match at {
        Some(at) => rows.get(at),
        None => None,
    }
}
