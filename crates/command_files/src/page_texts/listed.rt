//! A program as its page lists it.
use crate::page_texts::members::Members;
use commands::DEPTH;
use il_reader::{ReadFaultKind, read};
use program_notes::{ListedInstruction, ListedLine, Listing, listing_of, type_word};
use scan_code::Image;
use serde_json::Value;
use site_model::Site;
use std::alloc::{AllocError, Global};
use verifier::Verified;
use verifier::told::Shown;

/// The program of a file, whose text this is and which is accepted for a site, as JSON: its budget, its longest path, its variables,
/// and its lines with their instructions and what is known of them.
pub fn program_text(
    alloc: Global,
    path: &str,
    text: &str,
    site: &Site,
    verified: &Verified<DEPTH>,
) -> Result<String, AllocError> {
    let image = verified.image();
    let listing = listing(alloc, text, image, site)?;
    let mut program = Members::new(alloc);
    program.text("file", file_name(path))?;
    program.count("budget", u64::from(verified.budget()))?;
    program.value("variables", variables_value(alloc, image)?)?;
    program.value("longest", longest_value(alloc, &listing.longest)?)?;
    program.value("lines", lines_value(alloc, text, &listing.lines)?)?;
    program.into_value().to_string(alloc)
}

/// The lines of a program with what is known of them; none where it isn't accepted.
fn listing(alloc: Global, text: &str, image: &Image, site: &Site) -> Result<Listing, AllocError> {
    let found = match read(alloc, text) {
        Ok(program) => listing_of(alloc, text, &program, image, site)?,
        Err(fault) if fault.kind == ReadFaultKind::OutOfMemory => return Err(AllocError),
        Err(_) => None,
    };
    match found {
        Some(listing) => Ok(listing),
        None => Ok(Listing {
            lines: Vec::new(alloc),
            longest: Vec::new(alloc),
        }),
    }
}

/// The last part of a path.
fn file_name(path: &str) -> &str {
    match path.rsplit_once('/') {
        Some((_, name)) => name,
        None => path,
    }
}

fn variables_value(alloc: Global, image: &Image) -> Result<Value, AllocError> {
    let mut variables = Members::new(alloc);
    for variable in image.vars.as_slice() {
        let mut value = Members::new(alloc);
        value.text("type", type_word(variable.kind))?;
        value.number("low", variable.low)?;
        value.number("high", variable.high)?;
        variables.value(variable.name.as_str(), value.into_value())?;
    }
    Ok(variables.into_value())
}

fn longest_value(alloc: Global, lines: &[u32]) -> Result<Value, AllocError> {
    let mut values = Vec::new(alloc);
    for line in lines {
        values.push(Value::from(*line))?;
    }
    Ok(Value::Array(values))
}

fn lines_value(alloc: Global, text: &str, lines: &[ListedLine]) -> Result<Value, AllocError> {
    let mut values = Vec::new(alloc);
    for (source, line) in text.lines().zip(lines) {
        values.push(line_value(alloc, source, line)?)?;
    }
    Ok(Value::Array(values))
}

fn line_value(alloc: Global, source: &str, line: &ListedLine) -> Result<Value, AllocError> {
    let mut value = Members::new(alloc);
    value.text("text", source)?;
    value.value("code", code_value(alloc, &line.code)?)?;
    value.value("uses", texts_value(alloc, &line.uses)?)?;
    if let Some(shown) = line.proved {
        value.value("proved", shown_value(alloc, shown)?)?;
    }
    Ok(value.into_value())
}

fn code_value(alloc: Global, code: &[ListedInstruction]) -> Result<Value, AllocError> {
    let mut values = Vec::new(alloc);
    for instruction in code {
        let mut parts = Vec::new(alloc);
        parts.push(Value::from(instruction.number))?;
        parts.push(Value::try_from_str(alloc, instruction.word)?)?;
        parts.push(Value::try_from_str(alloc, instruction.known.as_str())?)?;
        values.push(Value::Array(parts))?;
    }
    Ok(Value::Array(values))
}

/// The type of a value, and its least and greatest number.
fn shown_value(alloc: Global, shown: Shown) -> Result<Value, AllocError> {
    let mut parts = Vec::new(alloc);
    if let Some((low, high)) = shown.span.ends() {
        parts.push(Value::try_from_str(alloc, type_word(shown.kind))?)?;
        parts.push(Value::from(low))?;
        parts.push(Value::from(high))?;
    }
    Ok(Value::Array(parts))
}

pub(super) fn texts_value(alloc: Global, texts: &[String]) -> Result<Value, AllocError> {
    let mut values = Vec::new(alloc);
    for text in texts {
        values.push(Value::try_from_str(alloc, text.as_str())?)?;
    }
    Ok(Value::Array(values))
}
