//! What is told of an instruction that isn't one, by its operator and by what is met.
use crate::fault_words::{FaultWords, Hint};
use crate::met::{Met, line_of_byte};
use crate::mistakes::{STRUCTURED, mistake_met};
use crate::pieces::TextPiece;
use crate::reserved::{
    is_conversion, is_like_conversion, is_one_of, is_operator, operator_meant, reserved,
};
use std::alloc::{AllocError, Global};

/// The jumps.
static JUMPS: [&str; 3] = ["JMP", "JMPC", "JMPCN"];

const NO_CONVERSION: Hint = Hint {
    meaning: "there is no conversion {}",
    help: "conversions lead from one type of whole numbers to another, as INT_TO_DINT; a number for a BOOL is chosen by SEL, as LD b / SEL INT#0, INT#1",
};

const NO_LABEL_COLON: Hint = Hint {
    meaning: "no operator stands where one must",
    help: "write a colon after {} where it is a label; else begin the line with an operator, as LD",
};

const LABEL_ENDS: Hint = Hint {
    meaning: "the label {} has no colon",
    help: "a label ends with a colon: write {}: before an instruction, or on a line of its own",
};

const NAME_BEFORE: Hint = Hint {
    meaning: "{} stands before an operator, and is none",
    help: "write a colon after {} where it is a label; else take it away",
};

const NO_JUMP: Hint = Hint {
    meaning: "only a jump stands after {LOOP n}, on its line",
    help: "write {LOOP n} JMP label, JMPC or JMPCN on one line",
};

const ONE_LABEL: Hint = Hint {
    meaning: "one label stands on a line",
    help: "write each label on a line of its own, the last one before the instruction",
};

const LABEL_COLON: Hint = Hint {
    meaning: "a jump names its label without a colon",
    help: "leave the colon out: it stands where the label is, before a line",
};

const NO_OPERATOR: Hint = Hint {
    meaning: "{} is no operator",
    help: "begin the line with one operator, as LD or ADD; a label has a colon, and {LOOP n} stands before a jump",
};

const NO_OPERAND: Hint = Hint {
    meaning: "{} wants an operand",
    help: "write a name, a number, TRUE or FALSE after it",
};

const NO_NAME_TO_STORE: Hint = Hint {
    meaning: "{} wants the name of what it stores to",
    help: "write the name of a variable, or of a tag that programs store",
};

const NO_SECOND: Hint = Hint {
    meaning: "{} wants two operands with a comma between them",
    help: "write LIMIT input, most, where the result is the least; or SEL if_false, if_true, where the result chooses",
};

const ONE_TOO_MANY: Hint = Hint {
    meaning: "{} takes one operand",
    help: "write each operator on a line of its own, with one operand",
};

const TWO_ARE_THE_MOST: Hint = Hint {
    meaning: "{} takes two operands",
    help: "take the others away; write each operator on a line of its own",
};

const NONE_TAKEN: Hint = Hint {
    meaning: "{} takes no operand",
    help: "leave it out: {} works on the result",
};

const NO_PARENTHESIS: Hint = Hint {
    meaning: "{} takes no parenthesis",
    help: "leave it out, or compute the operand before and keep it in a variable",
};

const OWN_LINE: Hint = Hint {
    meaning: "the closing parenthesis stands on a line of its own",
    help: "write ADD( a, then the lines of what is inside, then ) alone; for one operand leave both out",
};

const NOTHING_INSIDE: Hint = Hint {
    meaning: "nothing stands inside the parentheses",
    help: "write an operand after the opening one, or a line with LD below it",
};

const NO_LABEL: Hint = Hint {
    meaning: "{} wants the name of a label",
    help: "name a label that stands before a line, as JMP done",
};

const NOT_INSIDE: Hint = Hint {
    meaning: "{} may not stand inside parentheses",
    help: "close them before, by ) on a line of its own; store, jump and return after it",
};

const STAYS_OPEN: Hint = Hint {
    meaning: "a parenthesis stays open",
    help: "close it by ) on a line of its own",
};

const NONE_OPEN: Hint = Hint {
    meaning: "this closes nothing: no parenthesis is open",
    help: "write the operator that opens it, as ADD(, on a line before; a lone operand needs none",
};

/// What is told where an operator must stand.
pub(crate) fn no_operator(alloc: Global, met: &Met<'_, '_>) -> Result<FaultWords, AllocError> {
    let word = met.text();
    if let Some(hint) = hint_before(met) {
        return Ok(FaultWords::new(alloc, hint));
    }
    if let Some(told) = name_before(alloc, met)? {
        return Ok(told);
    }
    if let Some(told) = label_without_colon(alloc, met)? {
        return Ok(told);
    }
    if let Some(hint) = mistake_met(met) {
        return FaultWords::named(alloc, word, hint);
    }
    if met.next() == ":=" {
        return Ok(FaultWords::new(alloc, STRUCTURED.hint()));
    }
    if is_operator(met.next()) {
        return FaultWords::named(alloc, word, NO_LABEL_COLON);
    }
    let hint = if is_like_conversion(word) {
        NO_CONVERSION
    } else {
        NO_OPERATOR
    };
    let question = operator_meant(alloc, word)?;
    FaultWords::named(alloc, word, hint)?.knowing(question.as_str())
}

/// What is told of a name before an operator, from which a comment over several lines parts it; none of other words.
fn name_before(alloc: Global, met: &Met<'_, '_>) -> Result<Option<FaultWords>, AllocError> {
    let Some(name) = met.last() else {
        return Ok(None);
    };
    if !is_operator(met.text()) || !name.is_word() {
        return Ok(None);
    }
    let hint = match jump_to(met, name.text) {
        Some(_) => LABEL_ENDS,
        None => NAME_BEFORE,
    };
    let (word, line) = (name.text, line_of_byte(met.code, name.at));
    let text = format!(in alloc;
        "{word} stands in line {line}, and a comment joins the two lines"
    )?;
    let told = FaultWords::named(alloc, word, hint)?;
    Ok(Some(told.knowing(text.as_str())?))
}

/// What is told of a label without its colon, which a jump names; none of another word.
fn label_without_colon(alloc: Global, met: &Met<'_, '_>) -> Result<Option<FaultWords>, AllocError> {
    if !is_like_label(met) {
        return Ok(None);
    }
    let Some(jump) = jump_to(met, met.text()) else {
        return Ok(None);
    };
    let line = line_of_byte(met.code, jump.at);
    let text = format!(in alloc; "the jump of line {line} names it")?;
    let told = FaultWords::named(alloc, met.text(), LABEL_ENDS)?;
    Ok(Some(told.knowing(text.as_str())?))
}

/// Whether a word is met that stands alone on its line, or before an instruction.
fn is_like_label(met: &Met<'_, '_>) -> bool {
    let next = met.next();
    let is_word = match met.piece() {
        Some(piece) => piece.is_word(),
        None => false,
    };
    is_word && (next == "\n" || next.is_empty() || next == "{" || is_operator(next))
}

/// The jump of the program that names a label.
fn jump_to<'a>(met: &Met<'_, 'a>, label: &str) -> Option<TextPiece<'a>> {
    match jump_in(met.before, label) {
        Some(jump) => Some(jump),
        None => jump_in(met.rest, label),
    }
}

fn jump_in<'a>(pieces: &[TextPiece<'a>], label: &str) -> Option<TextPiece<'a>> {
    let mut last: Option<TextPiece<'a>> = None;
    for piece in pieces {
        if let Some(jump) = last {
            if piece.is(label) && is_one_of(&JUMPS, jump.text) {
                return Some(jump);
            }
        }
        last = Some(*piece);
    }
    None
}

/// The hint on what stands after a count, or on a label after another one.
fn hint_before(met: &Met<'_, '_>) -> Option<Hint> {
    let before = met.line().last()?;
    if before.text == "}" {
        Some(NO_JUMP)
    } else if before.text == ":" && met.next() == ":" {
        Some(ONE_LABEL)
    } else {
        None
    }
}

/// What is told where an operand is missing, or one is too many.
pub(crate) fn no_operand(alloc: Global, met: &Met<'_, '_>) -> Result<FaultWords, AllocError> {
    if let Some(hint) = mistake_met(met) {
        return Ok(FaultWords::new(alloc, hint));
    }
    let instruction = instruction_of(met.line());
    let Some((operator, operands)) = instruction.split_first() else {
        return Ok(FaultWords::new(alloc, NOTHING_INSIDE));
    };
    if met.is(":") && operands.is_empty() {
        if let Some(hint) = reserved(operator.text) {
            return on_named(alloc, *operator, hint);
        }
    }
    if let (Some(hint), true) = (reserved(met.text()), wants_operand(operator.text, operands)) {
        return FaultWords::named(alloc, met.text(), hint);
    }
    FaultWords::named(
        alloc,
        operator.text,
        hint_on_operands(met, operator.text, operands),
    )
}

fn on_named(alloc: Global, piece: TextPiece<'_>, hint: Hint) -> Result<FaultWords, AllocError> {
    let mut told = FaultWords::named(alloc, piece.text, hint)?;
    told.span = Some((piece.at, piece.behind()));
    Ok(told)
}

/// What stands on a line after its label and a count.
fn instruction_of<'p, 'a>(line: &'p [TextPiece<'a>]) -> &'p [TextPiece<'a>] {
    let mut rest = line;
    if let [_, second, behind @ ..] = rest {
        if second.text == ":" {
            rest = behind;
        }
    }
    match rest {
        [brace, _, _, _, behind @ ..] if brace.text == "{" => behind,
        _ => rest,
    }
}

/// Whether an operator with these operands wants one more.
fn wants_operand(operator: &str, operands: &[TextPiece<'_>]) -> bool {
    match operands {
        [] => !takes_none(operator),
        [.., last] => last.text == "," || last.text == "(",
    }
}

fn takes_none(operator: &str) -> bool {
    is_one_of(&["NOT", "ABS", "RET", "RETC", "RETCN"], operator) || is_conversion(operator)
}

/// The hint on an operator with too few operands, or one too many.
fn hint_on_operands(met: &Met<'_, '_>, operator: &str, operands: &[TextPiece<'_>]) -> Hint {
    let takes_two = is_one_of(&["LIMIT", "SEL"], operator);
    if takes_none(operator) {
        NONE_TAKEN
    } else if met.is("(") && operands.is_empty() {
        NO_PARENTHESIS
    } else if met.is(")") {
        OWN_LINE
    } else if met.is(":") && is_one_of(&JUMPS, operator) {
        LABEL_COLON
    } else if takes_two && operands.len() < 3 {
        NO_SECOND
    } else if takes_two {
        TWO_ARE_THE_MOST
    } else if !operands.is_empty() {
        ONE_TOO_MANY
    } else if is_one_of(&["ST", "STN", "S", "R"], operator) {
        NO_NAME_TO_STORE
    } else {
        NO_OPERAND
    }
}

/// What is told where the name of a label must stand.
pub(crate) fn no_label(alloc: Global, met: &Met<'_, '_>) -> Result<FaultWords, AllocError> {
    if let Some(hint) = mistake_met(met) {
        return Ok(FaultWords::new(alloc, hint));
    }
    if let Some(hint) = reserved(met.text()) {
        return FaultWords::named(alloc, met.text(), hint);
    }
    match met.line().last() {
        Some(jump) => FaultWords::named(alloc, jump.text, NO_LABEL),
        None => Ok(FaultWords::new(alloc, NO_LABEL)),
    }
}

/// What is told of a parenthesis, or of what may not stand inside one.
pub(crate) fn no_parenthesis(alloc: Global, met: &Met<'_, '_>) -> Result<FaultWords, AllocError> {
    let Some(opening) = met.opening(alloc)? else {
        return Ok(FaultWords::new(alloc, NONE_OPEN));
    };
    let hint = if met.ends() || met.is("END_PROGRAM") {
        STAYS_OPEN
    } else {
        NOT_INSIDE
    };
    let (word, line) = (opening.text, line_of_byte(met.code, opening.at));
    let text = format!(in alloc; "{word}( of line {line} is open")?;
    FaultWords::named(alloc, met.text(), hint)?.knowing(text.as_str())
}
