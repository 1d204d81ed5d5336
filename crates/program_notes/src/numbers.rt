//! What is told of numbers that are none, or that are outside their type.
use crate::fault_words::{FaultWords, Hint};
use crate::kinds::holds;
use crate::met::Met;
use crate::pieces::{TextPiece, has};
use crate::reserved::type_named;
use point_types::IlType;
use std::alloc::{AllocError, Global};

const TURNS: Hint = Hint {
    meaning: "a counted jump has 1 to 255 turns",
    help: "write a number from 1 to 255; count further in a variable",
};

const TOO_LARGE: Hint = Hint {
    meaning: "the number is too large",
    help: "write a number within the type",
};

const TOO_LOW: Hint = Hint {
    meaning: "the number is below what its type holds",
    help: "write a number within the type",
};

const DECIMAL_TURNS: Hint = Hint {
    meaning: "the turns of a counted jump stand in decimal",
    help: "write a number from 1 to 255 in decimal, as {LOOP 10}, without a type and without a base",
};

const SIGNED_BASE: Hint = Hint {
    meaning: "only a decimal has a sign",
    help: "write the number in decimal, as -26 in place of -16#1A",
};

const NO_DIGITS: Hint = Hint {
    meaning: "what begins with a digit is a number, and this is none",
    help: "write all its digits, as 1000, or digits of the base after 16#, 8# or 2#; a name begins with a letter",
};

const NONE_BEHIND: Hint = Hint {
    meaning: "no number stands after the #",
    help: "write its digits right after it, as INT#5 or INT#-5",
};

/// A number that is met.
#[derive(Clone, Copy)]
struct Number<'a> {
    /// The type in front of it; LINT, where none is.
    kind: IlType,
    /// Whether a type stands in front of it.
    is_typed: bool,
    has_sign: bool,
    is_negative: bool,
    /// What stands after the type and the sign.
    digits: &'a str,
    /// The place after it.
    behind: usize,
}

/// What is told of a number that is none, or outside its type.
pub(crate) fn no_number(
    alloc: Global,
    met: &Met<'_, '_>,
) -> Result<Option<FaultWords>, AllocError> {
    let Some(piece) = met.piece() else {
        return Ok(None);
    };
    if has(met.line(), "{") {
        let hint = if piece.text.contains("#") {
            DECIMAL_TURNS
        } else {
            TURNS
        };
        return Ok(Some(FaultWords::on(alloc, piece, hint)));
    }
    let number = number_met(piece, met.rest);
    let mut told = told_of_number(alloc, &number)?;
    told.span = Some((piece.at, number.behind));
    Ok(Some(told))
}

/// What is told of a number, by its sign and its digits.
fn told_of_number(alloc: Global, number: &Number<'_>) -> Result<FaultWords, AllocError> {
    if !is_number(number.digits) {
        return Ok(FaultWords::new(alloc, hint_on_digits(number)));
    }
    if number.has_sign && number.digits.contains("#") {
        return Ok(FaultWords::new(alloc, SIGNED_BASE));
    }
    let hint = if number.is_negative {
        TOO_LOW
    } else {
        TOO_LARGE
    };
    let holds = holds(alloc, number.kind)?;
    FaultWords::new(alloc, hint).knowing(holds.as_str())
}

fn hint_on_digits(number: &Number<'_>) -> Hint {
    if number.is_typed {
        NONE_BEHIND
    } else {
        NO_DIGITS
    }
}

/// The number that begins with a piece, where these pieces are met.
fn number_met<'a>(piece: TextPiece<'a>, rest: &[TextPiece<'a>]) -> Number<'a> {
    let unsigned = number_of(piece);
    match rest {
        [sign, digits, ..] if is_sign(*sign) && sign.behind() == digits.at => {
            signed(unsigned, *sign, *digits)
        }
        [kind, sign, digits, ..]
            if unsigned.digits.is_empty()
                && kind.behind() == sign.at
                && is_sign(*sign)
                && sign.behind() == digits.at => { signed(unsigned, *sign, *digits) }
        _ => unsigned,
    }
}

/// What a piece is as a number.
fn number_of(piece: TextPiece<'_>) -> Number<'_> {
    let typed = match piece.text.split_once("#") {
        Some((front, digits)) => type_named(front).map(|kind| (kind, digits)),
        None => None,
    };
    let (kind, digits) = typed.unwrap_or((IlType::Lint, piece.text));
    Number {
        kind,
        is_typed: typed.is_some(),
        has_sign: false,
        is_negative: false,
        digits,
        behind: piece.behind(),
    }
}

/// The same with a sign and its digits.
fn signed<'a>(number: Number<'a>, sign: TextPiece<'a>, digits: TextPiece<'a>) -> Number<'a> {
    Number {
        has_sign: true,
        is_negative: sign.text == "-",
        digits: digits.text.trim(),
        behind: if digits.text == "\n" {
            sign.behind()
        } else {
            digits.behind()
        },
        ..number
    }
}

fn is_sign(piece: TextPiece<'_>) -> bool {
    piece.text == "-" || piece.text == "+"
}

/// Whether these are the digits of a number, with its base in front where that isn't 10.
fn is_number(text: &str) -> bool {
    match text.split_once("#") {
        None => are_digits(text, 10),
        Some((base, digits)) => match base {
            "16" => are_digits(digits, 16),
            "8" => are_digits(digits, 8),
            "2" => are_digits(digits, 2),
            _ => false,
        },
    }
}

/// Whether these are digits of a base, with single underscores between them.
fn are_digits(text: &str, base: u32) -> bool {
    for letter in text.chars() {
        if letter != '_' && !is_digit_of(letter, base) {
            return false;
        }
    }
    !text.is_empty() && !text.ends_with("_") && !text.contains("__")
}

fn is_digit_of(letter: char, base: u32) -> bool {
    match base {
        16 => letter.is_ascii_hexdigit(),
        8 => letter.is_digit(8),
        2 => letter.is_digit(2),
        _ => letter.is_ascii_digit(),
    }
}
