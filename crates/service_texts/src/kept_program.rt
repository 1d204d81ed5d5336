//! The text in which the program that was accepted last is kept: a line `sunsite program 1 HASH`, then the program.
ghost use Rattle.std.specs.Prelude.{◌≡◌, string_bytes, IfOk, MatchOption};
ghost use Rattle.service_texts.specs.Keeping.{KeepsAlone, KeepsNone, first_line, kept_program, program_path};

use crate::digits::digits_of;
use std::alloc::{AllocError, Global};

/// A program as it is kept: after a line with its hash, by which it is known whether it is whole.
pub fn kept_program_text(alloc: Global, program: &str) -> Result<String, AllocError>
    ensures { IfOk result (λ text. string_bytes text ≡ kept_program program.now) }
{
    let mut text = first_line(alloc, program)?;
    text.push_str("\n")?;
    text.push_str(program)?;
    Ok(text)
}

/// The program that a text keeps, byte for byte as it was written; none where it isn't as it was written.
pub fn program_in(alloc: Global, text: &str) -> Result<Option<&str>, AllocError>
    ensures { IfOk result (λ found. MatchOption found (KeepsNone text.now) (λ program. KeepsAlone text.now program.now)) }
{
    let Some((line, program)) = text.split_once('\n') else {
        return Ok(None);
    };
    let wanted = first_line(alloc, program)?;
    if line == wanted.as_str() {
        Ok(Some(program))
    } else {
        Ok(None)
    }
}

/// `sunsite program 1 HASH`.
fn first_line(alloc: Global, program: &str) -> Result<String, AllocError>
    ensures { IfOk result (λ line. string_bytes line ≡ first_line program.now) }
{
    let digits = digits_of(alloc, program)?;
    let digits = digits.as_str();
    let line = format!(in alloc; "sunsite program 1 {digits}")?;
    Ok(line)
}

/// The path of the file in which the program is kept, beside that of set values.
pub fn program_path(alloc: Global, state: &str) -> Result<String, AllocError>
    ensures { IfOk result (λ path. string_bytes path ≡ program_path state.now) }
{
    let path = format!(in alloc; "{state}.program")?;
    Ok(path)
}
