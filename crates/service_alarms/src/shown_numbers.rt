//! What a device took of an output, or shows of it, as a number.
use gateway::{Core, DEPTH};
use note_text::decimal;
use point_types::value;
use service::Registers;
use site_model::SiteTag;
use std::alloc::{AllocError, Global};

/// The number in the registers of an output, by the factor that its device gave at the last scan (SunSpec Device Information Model
/// Specification, scale factors). Where it gave none, or the words are those of no number, they themselves, in order.
pub fn shown_number(
    alloc: Global,
    core: &Core<DEPTH>,
    output: usize,
    registers: Registers,
) -> Result<String, AllocError> {
    let words = registers.words();
    match (
        number_of(core, output, words.as_slice()),
        factor_of(core, output),
    ) {
        (Some(number), Some(factor)) => decimal(alloc, number, factor),
        _ => words_text(alloc, words.as_slice()),
    }
}

/// The raw number in the registers of an output.
fn number_of(core: &Core<DEPTH>, output: usize, words: &[u16]) -> Option<i128> {
    let place = core.site().outs().get(output)?;
    raw_number(core.site().tags().get(*place)?, words)
}

fn raw_number(tag: &SiteTag, words: &[u16]) -> Option<i128> {
    if words.len() != tag.point.size() {
        return None;
    }
    value(tag.point, words)
}

/// The factor of an output, where it is one by which numbers are printed.
fn factor_of(core: &Core<DEPTH>, output: usize) -> Option<i8> {
    if output >= core.site().outs().len() {
        return None;
    }
    match core.factor(output) {
        Some(factor) if -10 <= factor && factor <= 10 => Some(factor as i8),
        _ => None,
    }
}

// The words, with a blank between two.
fn words_text(alloc: Global, words: &[u16]) -> Result<String, AllocError> {
    let mut text = String::new(alloc);
    for word in words {
        if !text.is_empty() {
            text.push_str(" ")?;
        }
        let digits = word_text(alloc, *word)?;
        text.push_str(digits.as_str())?;
    }
    Ok(text)
}

fn word_text(alloc: Global, word: u16) -> Result<String, AllocError> {
    let text = format!(in alloc; "{word}")?;
    Ok(text)
}
