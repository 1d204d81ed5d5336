//! The words by which it is told that a program is refused: what `check` prints after `refused: `.
use commands::CommandOutcome;
use refusal_notes::escaped;
use std::alloc::{AllocError, Global};
use std::str;

/// What stands in the line of a refusal before its cause.
const REFUSED: &str = "refused: ";

/// `file PATH`.
pub(crate) fn file_words(alloc: Global, path: &str) -> Result<String, AllocError> {
    let path = escaped(alloc, path)?;
    let text = format!(in alloc; "file {path}")?;
    Ok(text)
}

/// What the line of a refusal says after `refused: `.
pub(crate) fn cause_words(alloc: Global, outcome: &CommandOutcome) -> Result<String, AllocError> {
    match str::from_utf8(outcome.lines.as_slice()) {
        Ok(line) => String::from_str(alloc, cause_in(line)),
        Err(_) => Ok(String::new(alloc)),
    }
}

fn cause_in(line: &str) -> &str {
    let line = line.trim_end();
    match line.strip_prefix(REFUSED) {
        Some(cause) => cause,
        None => line,
    }
}
