//! What a device says of itself, as it is shown: texts of its common model (SunSpec Device Information Model Specification, strings).
use note_text::push_letter;
use std::alloc::{AllocError, Global};

/// Appends the text of these registers in quotes, or `-` where it is empty; what can't be shown is escaped.
pub fn push_label(alloc: Global, text: &mut String, registers: &[u16]) -> Result<(), AllocError> {
    let shown = label_text(alloc, registers)?;
    if shown.is_empty() {
        return text.push_str("-");
    }
    text.push_str("\"")?;
    push_inside_quotes(text, shown.as_str())?;
    text.push_str("\"")
}

/// The text of these registers: what stands before the first zero, without blanks at its end. Where that is no UTF-8, `?` stands for
/// each byte that is no ASCII.
pub fn label_text(alloc: Global, registers: &[u16]) -> Result<String, AllocError> {
    let bytes = bytes_of(alloc, registers)?;
    let shown = trimmed(bytes.as_slice());
    match str::from_utf8(shown) {
        Ok(shown) => String::from_str(alloc, shown),
        Err(_) => ascii_text(alloc, shown),
    }
}

/// Whether the texts of registers are the same.
pub(crate) fn is_same_label(alloc: Global, one: &[u16], other: &[u16]) -> Result<bool, AllocError> {
    let one = bytes_of(alloc, one)?;
    let other = bytes_of(alloc, other)?;
    Ok(trimmed(one.as_slice()) == trimmed(other.as_slice()))
}

/// The bytes of a text's registers, two a register, the high one first, up to the first zero.
fn bytes_of(alloc: Global, registers: &[u16]) -> Result<Vec<u8>, AllocError> {
    let mut bytes = Vec::new(alloc);
    for register in registers {
        let [high, low] = register.to_be_bytes();
        if high == 0 {
            return Ok(bytes);
        }
        bytes.extend_from_slice(&[high])?;
        if low == 0 {
            return Ok(bytes);
        }
        bytes.extend_from_slice(&[low])?;
    }
    Ok(bytes)
}

/// A text without the blanks at its end.
fn trimmed(bytes: &[u8]) -> &[u8] {
    let mut length = 0;
    for (place, byte) in bytes.iter().enumerate() {
        if *byte != b' ' {
            length = place.saturating_add(1);
        }
    }
    bytes.get(..length).unwrap_or(bytes)
}

/// Bytes as letters, `?` for each one that is no ASCII.
fn ascii_text(alloc: Global, bytes: &[u8]) -> Result<String, AllocError> {
    let mut text = String::new(alloc);
    for byte in bytes {
        text.push(if *byte < 128 { char::from(*byte) } else { '?' })?;
    }
    Ok(text)
}

/// Appends a text that stands in quotes; what can't be shown, and a quote, is escaped, so that it can't pass for something else.
pub fn push_inside_quotes(text: &mut String, shown: &str) -> Result<(), AllocError> {
    for letter in shown.chars() {
        if letter == '"' || letter == '\\' {
            text.push_str("\\")?;
        }
        push_letter(text, letter)?;
    }
    Ok(())
}
