//! Words in place of a type, and literals that a type can't hold.
use crate::fault_words::{FaultWords, Hint};
use crate::met::Met;
use crate::mistakes::Mistake;
use crate::pieces::{TextPiece, behind_first};
use crate::reserved::{is_one_of, type_meant, type_named};
use crate::words::type_word;
use il_assemble::first_misfit;
use il_reader::Program;
use point_types::IlType;
use std::alloc::{AllocError, Global};

/// A time, by its literal or its type.
pub(crate) const NO_TIME: Mistake = Mistake {
    signs: &[
        "TIME",
        "LTIME",
        "DATE",
        "TIME_OF_DAY",
        "TOD",
        "DATE_AND_TIME",
        "DT",
    ],
    meaning: "there are no times: a program counts milliseconds itself",
    help: "give the site a tag with access = \"time\", as dt, and count what it reads, as ms : DINT (0..5000); with LD ms / ADD dt / MIN 5000 / ST ms; T#5s is 5000",
};

/// Words that stand for types elsewhere, and what is told of them.
static OTHER_TYPES: [Mistake; 8] = [
    Mistake {
        signs: &["REAL", "LREAL"],
        meaning: "there are no numbers with a point",
        help: "use a type of whole numbers, as INT or DINT, and count in tenths or hundredths, by the tag's exponent",
    },
    NO_TIME,
    Mistake {
        signs: &["BYTE", "WORD", "DWORD", "LWORD", "ULINT", "UINT64"],
        meaning: "there is no type {}",
        help: "use a type of whole numbers that holds the values: SINT, INT, DINT, LINT, USINT, UINT or UDINT",
    },
    Mistake {
        signs: &["INTEGER", "LONG", "SHORT"],
        meaning: "there is no type {}",
        help: "write INT, or another type of whole numbers: SINT, DINT, LINT, USINT, UINT or UDINT",
    },
    Mistake {
        signs: &["BOOLEAN", "BIT"],
        meaning: "there is no type {}",
        help: "write BOOL",
    },
    Mistake {
        signs: &["STRING", "WSTRING", "CHAR"],
        meaning: "there are no texts",
        help: "use BOOL, or a type of whole numbers",
    },
    Mistake {
        signs: &["ARRAY", "STRUCT", "POINTER"],
        meaning: "there is no type {}",
        help: "declare a variable of its own for each part",
    },
    Mistake {
        signs: &[
            "TON", "TOF", "TP", "CTU", "CTD", "CTUD", "R_TRIG", "F_TRIG", "SR", "RS",
        ],
        meaning: "there are no function blocks",
        help: "write what the block does as instructions; a count or a state is kept in a variable",
    },
];

/// Types by the number of their bits, and their words here.
static BY_BITS: [(&str, &str); 7] = [
    ("INT8", "did you mean SINT?"),
    ("INT16", "did you mean INT?"),
    ("INT32", "did you mean DINT?"),
    ("INT64", "did you mean LINT?"),
    ("UINT8", "did you mean USINT?"),
    ("UINT16", "did you mean UINT?"),
    ("UINT32", "did you mean UDINT?"),
];

const NO_TYPE: Hint = Hint {
    meaning: "a type must stand after the colon",
    help: "use BOOL, SINT, INT, DINT, LINT, USINT, UINT or UDINT",
};

/// What is told of a word that stands where a type must.
pub(crate) fn no_type(alloc: Global, met: &Met<'_, '_>) -> Result<FaultWords, AllocError> {
    let word = met.text();
    for other in OTHER_TYPES.iter() {
        if is_one_of(other.signs, word) {
            return FaultWords::named(alloc, word, other.hint());
        }
    }
    if let Some(question) = by_bits(word) {
        return FaultWords::new(alloc, NO_TYPE).knowing(question);
    }
    let question = type_meant(alloc, word)?;
    FaultWords::new(alloc, NO_TYPE).knowing(question.as_str())
}

/// The question whether a type is meant by the number of its bits.
fn by_bits(word: &str) -> Option<&'static str> {
    for (other, question) in BY_BITS.iter() {
        if word.eq_ignore_ascii_case(other) {
            return Some(*question);
        }
    }
    None
}

const WRONG_END: Hint = Hint {
    meaning: "no number of the type that can begin or end the range",
    help: "write (low..high) with two numbers of the type, the lower one first",
};

const WRONG_START: Hint = Hint {
    meaning: "no start value that the variable can hold",
    help: "write a literal of the type within the range, as := 5, or := TRUE for a BOOL",
};

/// What is told of what stands where a start value must.
pub(crate) fn no_start(
    alloc: Global,
    met: &Met<'_, '_>,
    declaration: &[TextPiece<'_>],
) -> Result<FaultWords, AllocError> {
    let range = within(met.code, declaration, ")");
    let told = FaultWords::new(alloc, WRONG_START);
    if range.is_empty() {
        let holds = kind_holds(alloc, declaration)?;
        return told.knowing(holds.as_str());
    }
    let text = format!(in alloc; "the range is {range}")?;
    told.knowing(text.as_str())
}

/// What is told of what stands where the end of a range must.
pub(crate) fn no_end(
    alloc: Global,
    met: &Met<'_, '_>,
    declaration: &[TextPiece<'_>],
) -> Result<FaultWords, AllocError> {
    let holds = kind_holds(alloc, declaration)?;
    let low = within(met.code, declaration, "..");
    if low.is_empty() {
        return FaultWords::new(alloc, WRONG_END).knowing(holds.as_str());
    }
    let text = format!(in alloc; "{holds}, and the low end is {low}")?;
    FaultWords::new(alloc, WRONG_END).knowing(text.as_str())
}

const NO_TRUTH: Hint = Hint {
    meaning: "a number where a BOOL is wanted",
    help: "write TRUE or FALSE; where a number is meant, what it meets or is stored to must be a number too",
};

const PAST_TYPE: Hint = Hint {
    meaning: "a number outside the type that it takes here",
    help: "write a number within the type, or before it the type that is meant, as LINT#5, and convert what it meets",
};

/// What is told of a number that isn't of the type that it takes; none where the program has no such number.
pub(crate) fn misfit(alloc: Global, program: &Program) -> Result<Option<FaultWords>, AllocError> {
    let Some(literal) = first_misfit(alloc, program)? else {
        return Ok(None);
    };
    let hint = match literal.kind {
        IlType::Bool => NO_TRUTH,
        _ => PAST_TYPE,
    };
    let holds = holds(alloc, literal.kind)?;
    let (number, holds) = (literal.number, holds.as_str());
    let text = format!(in alloc; "{number} doesn't fit, {holds}")?;
    Ok(Some(FaultWords::new(alloc, hint).knowing(text.as_str())?))
}

/// What stands between the parenthesis of a declaration and the first such mark, as it is written; empty where there is none.
fn within<'a>(code: &'a str, declaration: &[TextPiece<'_>], mark: &str) -> &'a str {
    let mut from = 0;
    for piece in declaration {
        if piece.text == "(" {
            from = piece.behind();
        } else if piece.text == mark {
            return code.get(from..piece.at).unwrap_or("").trim();
        }
    }
    ""
}

/// What the type of a declaration holds; empty where it has none yet.
fn kind_holds(alloc: Global, declaration: &[TextPiece<'_>]) -> Result<String, AllocError> {
    match kind_of(declaration) {
        Some(kind) => holds(alloc, kind),
        None => Ok(String::new(alloc)),
    }
}

/// The type of a declaration.
pub(crate) fn kind_of(declaration: &[TextPiece<'_>]) -> Option<IlType> {
    type_named(behind_first(declaration, ":")?.text)
}

/// What a type holds, as `SINT holds -128..127`.
pub(crate) fn holds(alloc: Global, kind: IlType) -> Result<String, AllocError> {
    if kind == IlType::Bool {
        return String::from_str(alloc, "BOOL holds TRUE and FALSE");
    }
    let (low, high) = (kind.low(), kind.high());
    let ends = format!(in alloc; " holds {low}..{high}")?;
    let mut text = String::from_str(alloc, type_word(kind))?;
    text.push_str(ends.as_str())?;
    Ok(text)
}
