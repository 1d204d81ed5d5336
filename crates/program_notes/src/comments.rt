//! What is told of a comment's end that closes nothing.
use crate::fault_words::{FaultWords, Hint};
use note_text::Code;
use std::alloc::{AllocError, Global};

const NOT_NESTED: Hint = Hint {
    meaning: "this closes nothing: comments aren't nested, the first *) ended it",
    help: "take away the (* and the *) of the inner comment",
};

const STRAY: Hint = Hint {
    meaning: "this closes nothing: no comment is open",
    help: "write (* where the comment begins, or take it away",
};

/// What is told of the first end of a comment that closes nothing, where it is at fault, or what stands before it and
/// after a comment in which another one opens; none elsewhere.
pub(crate) fn stray_end(
    alloc: Global,
    text: &str,
    code: &str,
    at: usize,
) -> Result<Option<FaultWords>, AllocError> {
    let Some((before, _)) = code.get(at..).unwrap_or("").split_once("*)") else {
        return Ok(None);
    };
    let end = at.saturating_add(before.len());
    let hint = if opens_inside(alloc, text.get(..end).unwrap_or(""), at)? {
        NOT_NESTED
    } else if before.is_empty() {
        STRAY
    } else {
        return Ok(None);
    };
    let mut told = FaultWords::new(alloc, hint);
    told.span = Some((end, end.saturating_add(2)));
    Ok(Some(told))
}

/// Whether the last comment that opens in a text does so before a place, and inside another comment.
fn opens_inside(alloc: Global, text: &str, at: usize) -> Result<bool, AllocError> {
    let Some((before, _)) = text.rsplit_once("(*") else {
        return Ok(false);
    };
    if before.len() >= at {
        return Ok(false);
    }
    let code = Code::of(alloc, before)?;
    Ok(code.open.is_some())
}
