//! Texts in HTML.
ghost use Rattle.std.specs.Prelude.{◌≡◌, ◌∷◌, ◌++◌, [], string_bytes, encode_utf8_all, MatchOption, OnOk};
ghost use Rattle.run_report.specs.Shown as shown;

use std::alloc::AllocError;

/// Appends a text so that it is shown as it is: no letter of it begins a tag or a name of a letter, or ends the value of an
/// attribute in quotes.
pub fn push_html(page: &mut String, text: &str) -> Result<(), AllocError>
    ensures { OnOk result (string_bytes page.new ≡ string_bytes page.old ++ shown.html text.now) }
{
    for letter in text.chars() {
        push_letter(page, letter)?;
    }
    Ok(())
}

fn push_letter(page: &mut String, letter: char) -> Result<(), AllocError>
    ensures { OnOk result (string_bytes page.new ≡ string_bytes page.old ++ encode_utf8_all (shown.html_letter letter)) }
{
    match name_of(letter) {
        Some(name) => page.push_str(name),
        None => page.push(letter),
    }
}

/// How a letter is written that isn't shown as it is; None of one that is. A control character is shown as `?`.
fn name_of(letter: char) -> Option<&'static str>
    ensures { MatchOption result (shown.html_letter letter ≡ letter ∷ []) (λ name. encode_utf8_all (shown.html_letter letter) ≡ name.now) }
{
    match letter {
        '<' => Some("&lt;"),
        '>' => Some("&gt;"),
        '&' => Some("&amp;"),
        '"' => Some("&quot;"),
        '\'' => Some("&#39;"),
        _ if is_control(letter) => Some("?"),
        _ => None,
    }
}

fn is_control(letter: char) -> bool
    ensures { result ≡ shown.is_control letter }
{
    let code = letter as u32;
    code <= 0x1f || 0x7f <= code && code <= 0x9f
}

/// In what stands for a text no letter begins or ends a tag, or ends a value in quotes.
pub fn texts_have_no_marks()
    ensures { shown.TextsHaveNoMarks }
{}
