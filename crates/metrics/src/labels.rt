//! Values of labels.
ghost use Rattle.std.specs.Prelude.{◌≡◌, ◌∷◌, ◌++◌, [], string_bytes, encode_utf8_all, MatchOption, OnOk};
ghost use Rattle.metrics.specs.Labels as shown;

use std::alloc::AllocError;

/// Appends what stands for a value within the quotes of a label: no letter of it ends the value.
pub fn push_label(text: &mut String, value: &str) -> Result<(), AllocError>
    ensures { OnOk result (string_bytes text.new ≡ string_bytes text.old ++ shown.label value.now) }
{
    for letter in value.chars() {
        push_letter(text, letter)?;
    }
    Ok(())
}

fn push_letter(text: &mut String, letter: char) -> Result<(), AllocError>
    ensures { OnOk result (string_bytes text.new ≡ string_bytes text.old ++ encode_utf8_all (shown.label_letter letter)) }
{
    match name_of(letter) {
        Some(name) => text.push_str(name),
        None => text.push(letter),
    }
}

/// How a letter is written that doesn't stand for itself; None of one that does. A control character is shown as `?`.
fn name_of(letter: char) -> Option<&'static str>
    ensures { MatchOption result (shown.label_letter letter ≡ letter ∷ []) (λ name. encode_utf8_all (shown.label_letter letter) ≡ name.now) }
{
    match letter {
        '"' => Some("\\\""),
        '\\' => Some("\\\\"),
        _ if is_control(letter) => Some("?"),
        _ => None,
    }
}

fn is_control(letter: char) -> bool
    ensures { result ≡ shown.is_control letter }
{
    let code = letter as u32;
    code <= 0x1f || 0x7f <= code && code <= 0x9f
}
