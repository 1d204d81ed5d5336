//! What of a line the carets of a note stand under.

/// What of a line of a program is meant.
#[derive(Clone, Copy, PartialEq, Eq, Debug)]
pub enum Mark {
    /// All that stands on it.
    Line,
    /// The operator, which is the first word after a label.
    Operator,
    /// What stands after the operator; the operator, where nothing does.
    Operand,
    /// The letter of this number, counted from 1; all that stands on the line, where it has none.
    Column(usize),
    /// The bytes from this place on, counted from 0, so many.
    Bytes(usize, usize),
    /// What is missing after all that stands on the line.
    Behind,
    /// The name that the note speaks of; the operand, where it doesn't stand on the line.
    Name,
}

/// The bytes of a line that are meant, where this is its code and the note speaks of this name: the first one's place,
/// and the place after the last one.
pub(crate) fn marked(line: &str, code: &str, mark: Mark, name: &str) -> (usize, usize) {
    let code = if code.trim().is_empty() {
        line.trim_end()
    } else {
        code.trim_end()
    };
    let body = behind_count(behind_label(code));
    let operand = operand_of(body);
    let end = code.len();
    match mark {
        Mark::Line => whole(code),
        Mark::Column(number) => letter_at(line, number),
        Mark::Bytes(place, count) => (place, place.saturating_add(count)),
        Mark::Behind => (end, end.saturating_add(1)),
        Mark::Name if place_of_word(code, name).is_some() => word_in(code, name),
        Mark::Name | Mark::Operand if !operand.is_empty() => (
            end.saturating_sub(operand.len()),
            end,
        ),
        Mark::Name | Mark::Operand | Mark::Operator => (
            end.saturating_sub(body.len()),
            end.saturating_sub(behind_word(body).len()),
        ),
    }
}

/// All that stands on a line.
fn whole(code: &str) -> (usize, usize) {
    let end = code.len();
    (end.saturating_sub(code.trim_start().len()), end)
}

/// Where a word stands on a line; at its beginning, where it doesn't.
fn word_in(code: &str, word: &str) -> (usize, usize) {
    let place = place_of_word(code, word).unwrap_or(0);
    (place, place.saturating_add(word.len()))
}

/// Where a word stands on a line, in capital or small letters.
fn place_of_word(code: &str, word: &str) -> Option<usize> {
    let mut begins = 0;
    for (place, letter) in code.char_indices() {
        if !is_of_name(letter) {
            if is_same(code, begins, place, word) {
                return Some(begins);
            }
            begins = place.saturating_add(letter.len_utf8());
        }
    }
    if is_same(code, begins, code.len(), word) {
        Some(begins)
    } else {
        None
    }
}

fn is_same(code: &str, begins: usize, ends: usize, word: &str) -> bool {
    match code.get(begins..ends) {
        Some(part) => !word.is_empty() && part.eq_ignore_ascii_case(word),
        None => false,
    }
}

fn is_of_name(letter: char) -> bool {
    letter == '_' || letter.is_ascii_alphanumeric()
}

/// The letter of a number; all that stands on the line, where it has none.
fn letter_at(line: &str, number: usize) -> (usize, usize) {
    for (before, (place, letter)) in line.char_indices().enumerate() {
        if before.saturating_add(1) == number {
            return (place, place.saturating_add(letter.len_utf8()));
        }
    }
    whole(line.trim_end())
}

/// What stands after a label and its colon.
fn behind_label(code: &str) -> &str {
    match code.split_once(':') {
        Some((label, rest)) if is_word(label) => rest.trim_start(),
        _ => code.trim_start(),
    }
}

/// Whether it is one word, with blanks around it.
fn is_word(text: &str) -> bool {
    text.split_whitespace().count() == 1
}

/// What stands after `{LOOP n}`.
fn behind_count(code: &str) -> &str {
    match code.split_once('}') {
        Some((_, rest)) => rest.trim_start(),
        None => code,
    }
}

/// What stands after the operator, and its parenthesis.
fn operand_of(body: &str) -> &str {
    let rest = behind_word(body).trim_start();
    match rest.strip_prefix("(") {
        Some(inside) => inside.trim_start(),
        None => rest,
    }
}

/// What stands after the first word.
fn behind_word(body: &str) -> &str {
    for (place, letter) in body.char_indices() {
        if letter == ' ' || letter == '\t' || letter == '(' {
            return body.get(place..).unwrap_or("");
        }
    }
    ""
}
