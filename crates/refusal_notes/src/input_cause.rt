//! What is noted of an input line that is refused: which rule it breaks, and what may be meant.
use crate::refusal_note::RefusalNote;
use commands::{InputFault, RefusedInput};
use note_text::nearer;
use point_types::{IlType, Name};
use program_notes::type_word;
use scan_code::Image;
use std::alloc::{AllocError, Global};

/// The cause of the refusal of an input line. Where memory for a part of it is refused, it goes without.
pub(crate) fn cause_of_input(alloc: Global, refused: &RefusedInput) -> RefusalNote {
    let mut cause = RefusalNote::no_input(alloc, refused.line);
    if let Ok(text) = rule_text(alloc, refused.fault) {
        cause.detail = text;
    }
    if let Some(name) = &refused.name {
        if let Some(meant) = meant_input(refused.trial.image(), name) {
            if cause.name.push_str(meant).is_ok() {
                cause.help = "did you mean {}?";
            }
        }
    }
    cause
}

/// The rule that a line breaks, in words.
fn rule_text(alloc: Global, fault: InputFault) -> Result<String, AllocError> {
    let text = match fault {
        InputFault::NoEquals => "no = stands in it",
        InputFault::Blank => "a blank stands in it",
        InputFault::NoName => "what stands before the = is no name",
        InputFault::Variable => "this is a variable of the program, and no input",
        InputFault::Output => "this is an output, which the program stores",
        InputFault::NotLoaded => "the program declares it and doesn't load it",
        InputFault::Presence => {
            "it says whether an input has a value, which the line of that input tells"
        }
        InputFault::Unknown => "the program has no input of this name",
        InputFault::NoValue(IlType::Bool) => "its type is BOOL: TRUE, FALSE or absent",
        InputFault::NoValue(kind) => return no_value(alloc, kind),
        InputFault::OutOfType(kind) => return out_of_type(alloc, kind),
        InputFault::Again(line) => return again(alloc, line),
    };
    String::from_str(alloc, text)
}

fn no_value(alloc: Global, kind: IlType) -> Result<String, AllocError> {
    let word = type_word(kind);
    format!(in alloc; "its type is {word}: a decimal, or absent")
}

fn out_of_type(alloc: Global, kind: IlType) -> Result<String, AllocError> {
    let word = type_word(kind);
    let (low, high) = (kind.low(), kind.high());
    let mut text = format!(in alloc; "{word} holds ")?;
    let range = format!(in alloc; "{low}..{high}")?;
    text.push_str(range.as_str())?;
    Ok(text)
}

fn again(alloc: Global, line: u32) -> Result<String, AllocError> {
    format!(in alloc; "line {line} names it already")
}

/// The input whose name is nearest to one that isn't the name of anything else.
fn meant_input<'a>(image: &'a Image, name: &Name) -> Option<&'a str> {
    let mut found = None;
    for var in image.vars.as_slice() {
        if var.name.as_bytes() == name.as_bytes() {
            return None;
        }
    }
    for tag in image.tags.as_slice() {
        if tag.name.as_bytes() == name.as_bytes() {
            return None;
        }
        if !tag.output {
            found = nearer(found, tag.name.as_str(), name.as_str());
        }
    }
    found.map(|near| near.name)
}
