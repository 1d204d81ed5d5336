//! Texts in which no letter can pass for another line: what is printed of names that may be any text.
ghost use Rattle.std.specs.Prelude.{◌≡◌, ◌++◌, IfOk, OnOk, string_bytes, encode_utf8_all};
ghost use Rattle.std.specs.Char.Escape.{escape_unicode};
ghost use Rattle.note_text.specs.Escaping as escaping;

use std::alloc::{AllocError, Global};

/// A text with its control characters escaped, as `\u{a}`.
pub fn escaped(alloc: Global, text: &str) -> Result<String, AllocError>
    ensures { IfOk result (λ shown. string_bytes shown ≡ escaping.escaped text.now) }
{
    let mut shown = String::new(alloc);
    push_escaped(&mut shown, text)?;
    Ok(shown)
}

/// Appends a text with its control characters escaped.
pub fn push_escaped(lines: &mut String, text: &str) -> Result<(), AllocError>
    ensures { OnOk result (string_bytes lines.new ≡ string_bytes lines.old ++ escaping.escaped text.now) }
{
    for letter in text.chars() {
        push_letter(lines, letter)?;
    }
    Ok(())
}

/// Appends a letter, escaped where it is a control character.
pub fn push_letter(line: &mut String, letter: char) -> Result<(), AllocError>
    ensures { OnOk result (string_bytes line.new ≡ string_bytes line.old ++ encode_utf8_all (escaping.escaped_letter letter)) }
{
    if is_control(letter) {
        push_code(line, letter)
    } else {
        line.push(letter)
    }
}

fn push_code(lines: &mut String, letter: char) -> Result<(), AllocError>
    ensures { OnOk result (string_bytes lines.new ≡ string_bytes lines.old ++ encode_utf8_all (escape_unicode letter)) }
{
    for part in letter.escape_unicode() {
        lines.push(part)?;
    }
    Ok(())
}

/// A letter of a line that moves nothing after it: a blank for a tab, and `?` for another control character.
pub fn plain_letter(letter: char) -> char
    ensures { result ≡ escaping.plain_letter letter }
{
    if letter == '\t' {
        ' '
    } else if is_control(letter) {
        '?'
    } else {
        letter
    }
}

/// No letter of an escaped text is a control character.
pub fn escaped_texts_are_plain()
    ensures { escaping.EscapedTextsArePlain }
{}

/// Whether a letter has no shape of its own, and may move or turn what stands beside it: the control characters, the
/// separators of lines and paragraphs, and those that turn the direction of writing (Unicode, Bidi_Control) or have no width.
fn is_control(letter: char) -> bool
    ensures { result ≡ escaping.is_control letter }
{
    let code = letter as u32;
    code < 0x20
        || is_within(code, 0x7f, 0x9f)
        || code == 0x61c
        || is_within(code, 0x200b, 0x200f)
        || is_within(code, 0x2028, 0x202e)
        || is_within(code, 0x2060, 0x206f)
}

fn is_within(code: u32, low: u32, high: u32) -> bool
    ensures { result ≡ escaping.is_within code low high }
{
    low <= code && code <= high
}
