//! The words of the language that are no names.
use crate::fault_words::Hint;
use crate::nearest::Nearest;
use crate::words::type_word;
use point_types::IlType;
use std::alloc::{AllocError, Global};

/// The operators, but for the conversions.
static OPERATORS: [&str; 35] = [
    "LD", "LDN", "ST", "STN", "S", "R", "JMP", "JMPC", "JMPCN", "RET", "RETC", "RETCN", "ADD",
    "SUB", "MUL", "DIV", "MOD", "AND", "ANDN", "OR", "ORN", "XOR", "XORN", "GT", "GE", "EQ", "NE",
    "LE", "LT", "MIN", "MAX", "LIMIT", "SEL", "NOT", "ABS",
];

/// The words of blocks, and the two literals.
static OTHERS: [&str; 7] = [
    "PROGRAM",
    "END_PROGRAM",
    "VAR",
    "VAR_EXTERNAL",
    "END_VAR",
    "TRUE",
    "FALSE",
];

/// The types.
pub(crate) static TYPES: [IlType; 8] = [
    IlType::Bool,
    IlType::Sint,
    IlType::Int,
    IlType::Dint,
    IlType::Lint,
    IlType::Usint,
    IlType::Uint,
    IlType::Udint,
];

const OPERATOR_WORD: Hint = Hint {
    meaning: "{} is an operator, and no name",
    help: "choose another name, as {}_1; case makes no difference",
};

const TYPE_WORD: Hint = Hint {
    meaning: "{} is a type, and no name",
    help: "choose another name, as {}_1; case makes no difference",
};

const OTHER_WORD: Hint = Hint {
    meaning: "{} is a word of the language, and no name",
    help: "choose another name, as {}_1; case makes no difference",
};

/// What is told of a word of the language that stands in place of a name; none for other words.
pub(crate) fn reserved(word: &str) -> Option<Hint> {
    if is_operator(word) {
        Some(OPERATOR_WORD)
    } else if type_named(word).is_some() {
        Some(TYPE_WORD)
    } else if is_one_of(&OTHERS, word) {
        Some(OTHER_WORD)
    } else {
        None
    }
}

/// Whether a word is an operator, conversions among them.
pub(crate) fn is_operator(word: &str) -> bool {
    is_one_of(&OPERATORS, word) || is_conversion(word)
}

/// Whether a word is a conversion between two types of whole numbers.
pub(crate) fn is_conversion(word: &str) -> bool {
    for from in TYPES.iter() {
        if let Some(to) = behind_type(word, *from) {
            return is_whole(*from)
                && !to.eq_ignore_ascii_case(type_word(*from))
                && is_whole_word(to);
        }
    }
    false
}

/// What stands in a word after a type and `_TO_`.
fn behind_type(word: &str, from: IlType) -> Option<&str> {
    behind_word(behind_word(word, type_word(from))?, "_TO_")
}

/// Whether a word looks like a conversion from a type or to one, as `INT_TO_REAL`.
pub(crate) fn is_like_conversion(word: &str) -> bool {
    for (place, _) in word.char_indices() {
        let front = word.get(..place).unwrap_or("");
        if let Some(to) = behind_word(word.get(place..).unwrap_or(""), "_TO_") {
            return type_named(front).is_some() || type_named(to).is_some();
        }
    }
    false
}

/// What stands after a word at the beginning, in capital or small letters.
fn behind_word<'a>(text: &'a str, word: &str) -> Option<&'a str> {
    match text.get(..word.len()) {
        Some(front) if front.eq_ignore_ascii_case(word) => text.get(word.len()..),
        _ => None,
    }
}

fn is_whole_word(word: &str) -> bool {
    match type_named(word) {
        Some(kind) => is_whole(kind),
        None => false,
    }
}

/// Whether a type has whole numbers.
fn is_whole(kind: IlType) -> bool {
    kind != IlType::Bool
}

/// The type of a word.
pub(crate) fn type_named(word: &str) -> Option<IlType> {
    for kind in TYPES.iter() {
        if word.eq_ignore_ascii_case(type_word(*kind)) {
            return Some(*kind);
        }
    }
    None
}

/// The question whether an operator, or another word that begins a line, is meant by a word; empty where none is near.
pub(crate) fn operator_meant(alloc: Global, word: &str) -> Result<String, AllocError> {
    let mut nearest = Nearest::to(alloc, word);
    for operator in OPERATORS.iter() {
        nearest.offer(operator)?;
    }
    for other in ["END_PROGRAM", "VAR", "VAR_EXTERNAL"] {
        nearest.offer(other)?;
    }
    for from in TYPES.iter() {
        offer_conversions(alloc, &mut nearest, *from)?;
    }
    nearest.question(alloc)
}

/// The question whether a type is meant by a word; empty where none is near.
pub(crate) fn type_meant(alloc: Global, word: &str) -> Result<String, AllocError> {
    let mut nearest = Nearest::to(alloc, word);
    for kind in TYPES.iter() {
        nearest.offer(type_word(*kind))?;
    }
    nearest.question(alloc)
}

/// Offers the conversions from a type.
fn offer_conversions(
    alloc: Global,
    nearest: &mut Nearest<'_>,
    from: IlType,
) -> Result<(), AllocError> {
    for to in TYPES.iter() {
        if is_whole(from) && is_whole(*to) && from != *to {
            let (from, to) = (type_word(from), type_word(*to));
            let word = format!(in alloc; "{from}_TO_{to}")?;
            nearest.offer(word.as_str())?;
        }
    }
    Ok(())
}

/// Whether a word is one of these, in capital or small letters.
pub(crate) fn is_one_of(words: &[&str], word: &str) -> bool {
    for other in words {
        if other.eq_ignore_ascii_case(word) {
            return true;
        }
    }
    false
}
