//! What is told of characters that are no word, of names that stand already, and of a program's frame.
use crate::fault_words::{FaultWords, Hint};
use crate::kinds::NO_TIME;
use crate::met::{Met, line_of_byte};
use crate::mistakes::mistake_met;
use crate::pieces::{TextPiece, has};
use crate::reserved::{is_one_of, is_operator, reserved};
use note_text::rank;
use std::alloc::{AllocError, Global};

const NO_POINT: Hint = Hint {
    meaning: "all numbers are whole, without a point",
    help: "count in tenths or hundredths: the tag's exponent in the site file says what its numbers count",
};

const NO_PARTS: Hint = Hint {
    meaning: "there are no function blocks, and names have no parts after a point",
    help: "keep what a block would hold in variables of the program",
};

const ASSIGNED: Hint = Hint {
    meaning: "a start value stands after :=",
    help: "write := in place of =",
};

const COMPARED: Hint = Hint {
    meaning: "a comparison is an operator on a line of its own",
    help: "write EQ with what the result is compared with",
};

/// What stands before the # of a time.
static TIMES: [&str; 9] = [
    "T",
    "TIME",
    "LTIME",
    "D",
    "DATE",
    "TOD",
    "TIME_OF_DAY",
    "DT",
    "DATE_AND_TIME",
];

const NO_SUCH_TYPE: Hint = Hint {
    meaning: "no type of whole numbers stands before the #",
    help: "write the type and a whole number, as INT#5; a BOOL is TRUE or FALSE",
};

const TOO_LONG: Hint = Hint {
    meaning: "a name has at most 32 characters",
    help: "shorten it",
};

const UNDERSCORES: Hint = Hint {
    meaning: "underscores stand single, and none at the end",
    help: "write one underscore between letters or digits",
};

const SIGN: Hint = Hint {
    meaning: "a sign stands right before the digits of a number",
    help: "write -5 without a blank; for the opposite of a value write LD 0 / SUB and its name",
};

const COUNT: Hint = Hint {
    meaning: "only {LOOP n} stands in braces",
    help: "write {LOOP 10} before JMP, with a number from 1 to 255",
};

const UNCLOSED: Hint = Hint {
    meaning: "the comment isn't closed",
    help: "write *) at its end",
};

const NAMED_TWICE: Hint = Hint {
    meaning: "the name {} stands already",
    help: "rename one of the two; case makes no difference",
};

const PRESENCE: Hint = Hint {
    meaning: "{} and the presence of an external are at odds",
    help: "rename one of the two: name_OK tells whether the external name has a value",
};

const NOT_BEGUN: Hint = Hint {
    meaning: "the text doesn't begin with PROGRAM",
    help: "write PROGRAM and a name before it; only comments may stand there",
};

const UNNAMED: Hint = Hint {
    meaning: "the program has no name",
    help: "write a name after PROGRAM",
};

const NOT_ENDED: Hint = Hint {
    meaning: "END_PROGRAM is missing",
    help: "write END_PROGRAM on a line after the last instruction",
};

const NOT_OVER: Hint = Hint {
    meaning: "something stands after END_PROGRAM",
    help: "take it away: a text has one program, and only comments after it",
};

/// What is told of a comment that isn't closed.
pub(crate) fn unclosed(alloc: Global, open: usize) -> FaultWords {
    let mut told = FaultWords::new(alloc, UNCLOSED);
    told.span = Some((open, open.saturating_add(2)));
    told
}

/// What is told of characters that are no word; none where no more is known than that.
pub(crate) fn no_word(alloc: Global, met: &Met<'_, '_>) -> Option<FaultWords> {
    if let Some(hint) = hint_on_mark(met) {
        return Some(FaultWords::new(alloc, hint));
    }
    let piece = met.piece()?;
    let hint = mistake_met(met).or(hint_on_word(piece.text))?;
    // (what is no part of a piece, as a blank of another width, is marked where it stands)
    if piece.at > met.at {
        return Some(FaultWords::new(alloc, hint));
    }
    Some(FaultWords::on(alloc, piece, hint))
}

/// The hint on a mark that can't stand there.
fn hint_on_mark(met: &Met<'_, '_>) -> Option<Hint> {
    if met.is("=") {
        return Some(if met.block().is_some() {
            ASSIGNED
        } else {
            COMPARED
        });
    }
    if met.is(".") {
        let last = met.last()?;
        return Some(if last.is_number() { NO_POINT } else { NO_PARTS });
    }
    if met.is("-") || met.is("+") {
        return Some(SIGN);
    }
    if has(met.line(), "{") || met.is("{") || met.is("}") {
        return Some(COUNT);
    }
    None
}

/// The hint on a word that is none.
fn hint_on_word(word: &str) -> Option<Hint> {
    if let Some((front, _)) = word.split_once("#") {
        return Some(if is_one_of(&TIMES, front) {
            NO_TIME.hint()
        } else {
            NO_SUCH_TYPE
        });
    }
    if word.len() > 32 {
        Some(TOO_LONG)
    } else if word.contains("__") || word.ends_with("_") {
        Some(UNDERSCORES)
    } else {
        None
    }
}

/// What is told of a name that stands already.
pub(crate) fn no_second(alloc: Global, met: &Met<'_, '_>) -> Result<FaultWords, AllocError> {
    let Some(first) = first_of(met) else {
        return FaultWords::named(alloc, met.text(), PRESENCE);
    };
    let line = line_of_byte(met.code, first.at);
    let text = format!(in alloc; "the first one is in line {line}")?;
    FaultWords::named(alloc, met.text(), NAMED_TWICE)?.knowing(text.as_str())
}

/// Where the name that is met stands before: as a label in the body, else in a declaration.
fn first_of<'a>(met: &Met<'_, 'a>) -> Option<TextPiece<'a>> {
    let from = if met.block().is_some() {
        met.before
    } else {
        met.body()
    };
    let mut last: Option<TextPiece<'a>> = None;
    for piece in from {
        if let Some(name) = last {
            if (piece.text == ":" || piece.text == ",") && name.is(met.text()) {
                return Some(name);
            }
        }
        last = Some(*piece);
    }
    None
}

/// What is told of a program's frame.
pub(crate) fn no_frame(alloc: Global, met: &Met<'_, '_>) -> Result<FaultWords, AllocError> {
    if let Some(hint) = mistake_met(met) {
        return Ok(FaultWords::new(alloc, hint));
    }
    if has(met.before, "END_PROGRAM") {
        return Ok(FaultWords::new(alloc, NOT_OVER));
    }
    match met.last() {
        None => not_begun(alloc, met),
        Some(last) if last.is("PROGRAM") => unnamed(alloc, met),
        Some(_) => Ok(FaultWords::new(alloc, NOT_ENDED)),
    }
}

/// The text ends with this word, its first one, without a name after it.
fn ends_unnamed(alloc: Global, word: TextPiece<'_>) -> Result<FaultWords, AllocError> {
    let mut told = FaultWords::new(alloc, UNNAMED).knowing("the text ends here")?;
    told.span = Some((word.behind(), word.behind().saturating_add(1)));
    Ok(told)
}

fn not_begun(alloc: Global, met: &Met<'_, '_>) -> Result<FaultWords, AllocError> {
    if let Some(word) = met.piece() {
        if word.is("PROGRAM") {
            return ends_unnamed(alloc, word);
        }
    }
    let question = match rank("PROGRAM", met.text()) {
        Some(_) => "did you mean PROGRAM?",
        None => "",
    };
    FaultWords::new(alloc, NOT_BEGUN).knowing(question)
}

fn unnamed(alloc: Global, met: &Met<'_, '_>) -> Result<FaultWords, AllocError> {
    match reserved(met.text()) {
        Some(hint) if is_operator(met.text()) && met.next() == "\n" => {
            FaultWords::named(alloc, met.text(), hint)
        }
        _ => Ok(FaultWords::new(alloc, UNNAMED)),
    }
}
