//! What is told of a declaration that isn't one, by what may stand at its place.
use crate::fault_words::{FaultWords, Hint};
use crate::kinds::{kind_of, no_end, no_start, no_type};
use crate::met::{Met, line_of_byte};
use crate::mistakes::mistake_met;
use crate::pieces::{TextPiece, has};
use crate::reserved::{is_one_of, is_operator, reserved};
use note_text::rank;
use point_types::IlType;
use std::alloc::{AllocError, Global};

const NO_NAME: Hint = Hint {
    meaning: "a declaration begins with a name",
    help: "write name : TYPE; and END_VAR after the last declaration",
};

const NO_OTHER_NAME: Hint = Hint {
    meaning: "a name must stand after the comma",
    help: "write name, name : TYPE; without a comma after the last name",
};

const NO_COLON: Hint = Hint {
    meaning: "a colon must stand between the names and their type",
    help: "write name : TYPE; and a comma between two names",
};

const NO_END_VAR: Hint = Hint {
    meaning: "the block of declarations isn't ended",
    help: "write END_VAR before the first instruction",
};

const NO_QUALIFIER: Hint = Hint {
    meaning: "VAR has no such word after it",
    help: "leave it out: variables keep their values between scans anyway; to keep one over a restart, write retain = [\"NAME\"] in [gateway] of the site file, and start serve with --state",
};

const NO_CONSTANT: Hint = Hint {
    meaning: "there are no constants",
    help: "leave CONSTANT out, and declare a variable whose range is that one number, as most : INT (50..50); or write the number itself where it is used",
};

const NO_WORD_OF_EXTERNALS: Hint = Hint {
    meaning: "VAR_EXTERNAL has no such word after it",
    help: "leave it out: the site file says what a tag holds, and what clients set is kept with serve --state",
};

const ONE_WORD: Hint = Hint {
    meaning: "VAR_EXTERNAL is one word",
    help: "write VAR_EXTERNAL, with an underscore",
};

const UNENDED: Hint = Hint {
    meaning: "the declaration isn't ended",
    help: "write a semicolon after it",
};

const NO_RANGE_HERE: Hint = Hint {
    meaning: "an external has a type alone",
    help: "take it away: the site file gives a tag its range and its default",
};

const NO_RANGE_OF_BOOL: Hint = Hint {
    meaning: "a BOOL has no range",
    help: "take the range away",
};

const NO_DOTS: Hint = Hint {
    meaning: "two dots must stand between the ends of a range",
    help: "write (low..high)",
};

const NO_CLOSE: Hint = Hint {
    meaning: "a parenthesis must close the range",
    help: "write (low..high)",
};

const UNEXPECTED: Hint = Hint {
    meaning: "after a type stand a range, a start value, or a semicolon",
    help: "write name : TYPE (low..high) := start; where the range and the start may be left out",
};

/// What is told of a declaration that isn't one.
pub(crate) fn no_declaration(alloc: Global, met: &Met<'_, '_>) -> Result<FaultWords, AllocError> {
    if let Some(hint) = mistake_met(met) {
        return Ok(FaultWords::new(alloc, hint));
    }
    let declaration = met.declaration(alloc)?;
    let declaration = declaration.as_slice();
    let Some(last) = declaration.last() else {
        return no_name(alloc, met, NO_NAME);
    };
    match last.text {
        "," => no_name(alloc, met, NO_OTHER_NAME),
        ":" => no_type(alloc, met),
        "(" | ".." => no_end(alloc, met, declaration),
        ":=" => no_start(alloc, met, declaration),
        _ if has(declaration, ":") => behind_type(alloc, met, declaration, *last),
        _ => no_colon(alloc, met, declaration),
    }
}

/// What is told where a name must stand.
fn no_name(alloc: Global, met: &Met<'_, '_>, hint: Hint) -> Result<FaultWords, AllocError> {
    let word = met.text();
    let declares = met.next() == ":" || met.next() == ",";
    match reserved(word) {
        Some(reserved) if declares => FaultWords::named(alloc, word, reserved),
        Some(_) if is_operator(word) || met.is("END_PROGRAM") => Ok(FaultWords::new(
            alloc, NO_END_VAR,
        )),
        _ => Ok(FaultWords::new(alloc, hint)),
    }
}

/// What is told where a colon must stand after the names.
fn no_colon(
    alloc: Global,
    met: &Met<'_, '_>,
    declaration: &[TextPiece<'_>],
) -> Result<FaultWords, AllocError> {
    let Some(first) = declaration.first() else {
        return Ok(FaultWords::new(alloc, NO_COLON));
    };
    if let Some(hint) = hint_on_qualifier(met, *first) {
        return on_qualifier(alloc, met, *first, hint);
    }
    if declaration.len() == 1 && is_like_end(met, *first) {
        let mut told = FaultWords::new(alloc, NO_END_VAR).knowing("did you mean END_VAR?")?;
        told.span = Some((first.at, end_behind(met, *first)));
        return Ok(told);
    }
    Ok(FaultWords::new(alloc, NO_COLON))
}

/// What is told of a word after VAR: on it, where it stands on the line at fault, and else there.
fn on_qualifier(
    alloc: Global,
    met: &Met<'_, '_>,
    word: TextPiece<'_>,
    hint: Hint,
) -> Result<FaultWords, AllocError> {
    let line = line_of_byte(met.code, word.at);
    if line == line_of_byte(met.code, met.at) {
        return Ok(FaultWords::on(alloc, word, hint));
    }
    let qualifier = word.text;
    let text = format!(in alloc; "after {qualifier} of line {line}")?;
    FaultWords::new(alloc, hint).knowing(text.as_str())
}

/// The hint on a word after VAR or VAR_EXTERNAL.
fn hint_on_qualifier(met: &Met<'_, '_>, word: TextPiece<'_>) -> Option<Hint> {
    if word.is("EXTERNAL") {
        return Some(ONE_WORD);
    }
    let is_constant = word.is("CONSTANT");
    if !is_constant && !is_one_of(&["RETAIN", "NON_RETAIN", "PERSISTENT"], word.text) {
        return None;
    }
    if is_external(met) {
        Some(NO_WORD_OF_EXTERNALS)
    } else if is_constant {
        Some(NO_CONSTANT)
    } else {
        Some(NO_QUALIFIER)
    }
}

/// Whether a word that stands alone on its line may be meant as END_VAR.
fn is_like_end(met: &Met<'_, '_>, word: TextPiece<'_>) -> bool {
    let is_alone = met.is(";") || line_of_byte(met.code, word.at) < line_of_byte(met.code, met.at);
    if word.is("END") {
        return is_alone || met.is("VAR");
    }
    is_alone && (word.is("VAR_END") || rank("END_VAR", word.text).is_some())
}

/// Where a word ends that may be meant as END_VAR: after VAR, where that is its second part.
fn end_behind(met: &Met<'_, '_>, word: TextPiece<'_>) -> usize {
    match met.piece() {
        Some(second)
            if second.is("VAR")
                && line_of_byte(met.code, word.at) == line_of_byte(met.code, second.at) =>
            second.behind(),
        _ => word.behind(),
    }
}

/// What is told after a type.
fn behind_type(
    alloc: Global,
    met: &Met<'_, '_>,
    declaration: &[TextPiece<'_>],
    last: TextPiece<'_>,
) -> Result<FaultWords, AllocError> {
    let in_range = has(declaration, "(") && !has(declaration, ")");
    let hint = if in_range && has(declaration, "..") {
        NO_CLOSE
    } else if in_range {
        NO_DOTS
    } else if is_unended(met, last) || has(declaration, ":=") {
        return unended(alloc, last);
    } else if is_external(met) {
        NO_RANGE_HERE
    } else if met.is("(") && kind_of(declaration) == Some(IlType::Bool) {
        NO_RANGE_OF_BOOL
    } else {
        UNEXPECTED
    };
    Ok(FaultWords::new(alloc, hint))
}

/// Whether what is met begins a line or a declaration of its own.
fn is_unended(met: &Met<'_, '_>, last: TextPiece<'_>) -> bool {
    let begins_line = line_of_byte(met.code, last.at) < line_of_byte(met.code, met.at);
    begins_line || met.next() == ":" || met.next() == ","
}

/// A semicolon is missing after a piece.
fn unended(alloc: Global, last: TextPiece<'_>) -> Result<FaultWords, AllocError> {
    let mut told = FaultWords::new(alloc, UNENDED).knowing("a semicolon is missing")?;
    told.span = Some((last.behind(), last.behind().saturating_add(1)));
    Ok(told)
}

fn is_external(met: &Met<'_, '_>) -> bool {
    match met.block() {
        Some(block) => block.is("VAR_EXTERNAL"),
        None => false,
    }
}
