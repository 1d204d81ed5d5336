//! A program's code in pieces.
use std::alloc::{AllocError, Global};

/// A word, a number, a mark, or the end of a line.
#[derive(Clone, Copy)]
pub(crate) struct TextPiece<'a> {
    /// The place of its first byte in the text.
    pub at: usize,
    pub text: &'a str,
}

impl TextPiece<'_> {
    /// The place after its last byte.
    pub(crate) fn behind(&self) -> usize {
        self.at.saturating_add(self.text.len())
    }

    /// Whether it is this word or mark, in capital or small letters.
    pub(crate) fn is(&self, word: &str) -> bool {
        self.text.eq_ignore_ascii_case(word)
    }

    /// Whether it begins as a word does.
    pub(crate) fn is_word(&self) -> bool {
        self.text.starts_with(begins_word)
    }

    /// Whether it begins as a number does.
    pub(crate) fn is_number(&self) -> bool {
        self.text.starts_with(is_digit)
    }
}

/// The marks of two characters.
static PAIRS: [&str; 7] = [":=", "..", "//", "/*", "<=", ">=", "<>"];

/// The pieces of a code, in their order.
pub(crate) fn pieces_of<'a>(
    alloc: Global,
    code: &'a str,
) -> Result<Vec<TextPiece<'a>>, AllocError> {
    let mut pieces = Vec::new(alloc);
    let mut begins = 0;
    for (place, letter) in code.char_indices() {
        if is_of_word(letter) {
            continue;
        }
        push_piece(&mut pieces, code, begins, place)?;
        begins = place.saturating_add(letter.len_utf8());
        if letter == '\n' || !letter.is_whitespace() {
            let from = first_of_mark(&mut pieces, code, place, begins);
            push_piece(&mut pieces, code, from, begins)?;
        }
    }
    push_piece(&mut pieces, code, begins, code.len())?;
    Ok(pieces)
}

fn begins_word(letter: char) -> bool {
    letter == '_' || letter.is_ascii_alphabetic()
}

fn is_digit(letter: char) -> bool {
    letter.is_ascii_digit()
}

fn is_of_word(letter: char) -> bool {
    letter == '_' || letter == '#' || letter.is_ascii_alphanumeric()
}

/// Appends the piece between two places, where there is one.
fn push_piece<'a>(
    pieces: &mut Vec<TextPiece<'a>>,
    code: &'a str,
    at: usize,
    behind: usize,
) -> Result<(), AllocError> {
    match code.get(at..behind) {
        Some(text) if !text.is_empty() => {
            pieces.push(TextPiece { at, text })?;
            Ok(())
        }
        _ => Ok(()),
    }
}

/// Where the mark begins whose last character stands between two places: at the last piece, which is taken away, where
/// the two are one mark.
fn first_of_mark(
    pieces: &mut Vec<TextPiece<'_>>,
    code: &str,
    place: usize,
    behind: usize,
) -> usize {
    let Some(last) = pieces.last() else {
        return place;
    };
    let at = last.at;
    if last.behind() == place && is_pair(code.get(at..behind)) {
        let _ = pieces.pop();
        at
    } else {
        place
    }
}

fn is_pair(mark: Option<&str>) -> bool {
    for pair in PAIRS.iter() {
        if mark == Some(*pair) {
            return true;
        }
    }
    false
}

/// Whether one of the pieces is this word or mark.
pub(crate) fn has(pieces: &[TextPiece<'_>], word: &str) -> bool {
    for piece in pieces {
        if piece.is(word) {
            return true;
        }
    }
    false
}

/// The piece after the first one that is this word or mark.
pub(crate) fn behind_first<'a>(pieces: &[TextPiece<'a>], word: &str) -> Option<TextPiece<'a>> {
    let mut met = false;
    for piece in pieces {
        if met {
            return Some(*piece);
        }
        met = piece.is(word);
    }
    None
}
