//! What is known before an instruction, in short words side by side.
use crate::words::{span_words, type_word};
use facts::span::Span;
use point_types::Name;
use scan_code::Image;
use std::alloc::{AllocError, Global};
use verifier::told::{Shown, Standing, Told};

/// The column from which what is known is written, and the one that it doesn't pass.
const FROM: usize = 52;

pub(crate) const TO: usize = 100;

/// A line of the table as it grows.
#[derive(Drop)]
pub(crate) struct ItemLine {
    pub(crate) text: String,
    pub(crate) column: usize,
    /// The column that it doesn't pass.
    pub(crate) most: usize,
}

impl ItemLine {
    /// Appends a piece.
    pub(crate) fn push(&mut self, piece: &str) -> Result<(), AllocError> {
        self.text.push_str(piece)?;
        self.column = self.column.saturating_add(piece.chars().count());
        Ok(())
    }

    /// Appends blanks up to a column.
    pub(crate) fn pad_to(&mut self, column: usize) -> Result<(), AllocError> {
        for _ in self.column..column {
            self.text.push_str(" ")?;
        }
        self.column = self.column.max(column);
        Ok(())
    }

    /// Ends the line.
    pub(crate) fn end(&mut self) -> Result<(), AllocError> {
        self.text.push_str("\n")?;
        self.column = 0;
        Ok(())
    }

    /// Appends one of several items, below the others where the line is full.
    pub(crate) fn push_item(&mut self, from: usize, item: &str) -> Result<(), AllocError> {
        let behind = self.column.saturating_add(item.chars().count());
        if self.column <= from {
            self.pad_to(from)?;
        } else if behind.saturating_add(3) > self.most {
            self.push(",")?;
            self.end()?;
            self.pad_to(from)?;
        } else {
            self.push(", ")?;
        }
        self.push_broken(from, item)
    }

    /// Appends an item. Where there is no room for it and a comma, its last word stands below the others.
    fn push_broken(&mut self, from: usize, item: &str) -> Result<(), AllocError> {
        let behind = self.column.saturating_add(item.chars().count());
        match item.rsplit_once(' ') {
            Some((front, last)) if behind >= self.most => {
                self.push(front)?;
                self.end()?;
                self.pad_to(from.saturating_add(2))?;
                self.push(last)
            }
            _ => self.push(item),
        }
    }
}

/// What is known before an instruction, in one line; nothing where it wasn't judged.
pub(crate) fn known_words(
    alloc: Global,
    image: &Image,
    known: &Option<Standing>,
) -> Result<String, AllocError> {
    let mut line = ItemLine {
        text: String::new(alloc),
        column: FROM,
        most: usize::MAX,
    };
    push_known(alloc, &mut line, image, known)?;
    Ok(line.text)
}

/// Appends what is known before an instruction; nothing where it wasn't judged.
pub(crate) fn push_known(
    alloc: Global,
    line: &mut ItemLine,
    image: &Image,
    known: &Option<Standing>,
) -> Result<(), AllocError> {
    match known {
        None => Ok(()),
        Some(Standing::Unreached) => line.push_item(FROM, "not reached"),
        Some(Standing::Clash) => line.push_item(FROM, "different numbers of deferred values"),
        Some(Standing::Known(told)) => push_told(alloc, line, image, told),
    }
}

fn push_told(
    alloc: Global,
    line: &mut ItemLine,
    image: &Image,
    told: &Told,
) -> Result<(), AllocError> {
    if let Some(result) = &told.result {
        push_value(alloc, line, "r", result)?;
    }
    for deferred in told.deferred.as_slice() {
        push_deferred(alloc, line, deferred)?;
    }
    for (number, span) in told.variables.as_slice() {
        push_variable(alloc, line, image, *number, *span)?;
    }
    for (number, span) in told.inputs.as_slice() {
        push_input(alloc, line, image, *number, *span)?;
    }
    for number in told.present.as_slice() {
        push_present(alloc, line, image, *number)?;
    }
    Ok(())
}

fn push_deferred(
    alloc: Global,
    line: &mut ItemLine,
    deferred: &Option<Shown>,
) -> Result<(), AllocError> {
    match deferred {
        Some(value) => push_value(alloc, line, "d", value),
        None => line.push_item(FROM, "d of no one type"),
    }
}

/// Appends the type and the span of the result or of a deferred value.
fn push_value(
    alloc: Global,
    line: &mut ItemLine,
    place: &str,
    value: &Shown,
) -> Result<(), AllocError> {
    let kind = type_word(value.kind);
    let mut item = format!(in alloc; "{place} {kind} ")?;
    let span = span_words(alloc, value.span)?;
    item.push_str(span.as_str())?;
    line.push_item(FROM, item.as_str())
}

fn push_variable(
    alloc: Global,
    line: &mut ItemLine,
    image: &Image,
    number: usize,
    span: Span,
) -> Result<(), AllocError> {
    match image.vars.as_slice().get(number) {
        Some(var) => push_span(alloc, line, &var.name, span),
        None => Ok(()),
    }
}

fn push_input(
    alloc: Global,
    line: &mut ItemLine,
    image: &Image,
    number: usize,
    span: Span,
) -> Result<(), AllocError> {
    match image.tags.as_slice().get(number) {
        Some(tag) => push_span(alloc, line, &tag.name, span),
        None => Ok(()),
    }
}

fn push_present(
    alloc: Global,
    line: &mut ItemLine,
    image: &Image,
    number: usize,
) -> Result<(), AllocError> {
    match image.tags.as_slice().get(number) {
        Some(tag) => {
            let name = tag.name.as_str();
            let item = format!(in alloc; "{name} present")?;
            line.push_item(FROM, item.as_str())
        }
        None => Ok(()),
    }
}

fn push_span(
    alloc: Global,
    line: &mut ItemLine,
    name: &Name,
    span: Span,
) -> Result<(), AllocError> {
    let name = name.as_str();
    let mut item = format!(in alloc; "{name} ")?;
    let span = span_words(alloc, span)?;
    item.push_str(span.as_str())?;
    line.push_item(FROM, item.as_str())
}
