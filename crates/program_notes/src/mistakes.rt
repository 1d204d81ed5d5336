//! Mistakes that people make in a program's text, by the word or the mark that is met.
use crate::fault_words::Hint;
use crate::met::Met;
use il_reader::ReadFaultKind;

/// A mistake: the words or the marks that show it, and what is told.
#[derive(Clone, Copy)]
pub(crate) struct Mistake {
    pub signs: &'static [&'static str],
    pub meaning: &'static str,
    pub help: &'static str,
}

impl Mistake {
    /// What is told of it.
    pub(crate) fn hint(self) -> Hint {
        Hint {
            meaning: self.meaning,
            help: self.help,
        }
    }
}

const SEMICOLON: Mistake = Mistake {
    signs: &[";"],
    meaning: "no semicolon stands here",
    help: "leave the semicolon out; it stands after declarations alone",
};

/// Where a word or a mark is met that nothing begins with.
static WORDS: [Mistake; 12] = [
    Mistake {
        signs: &["\u{feff}"],
        meaning: "a byte order mark stands before the text",
        help: "save the file as UTF-8 without it",
    },
    Mistake {
        signs: &[
            "\u{a0}", "\u{2002}", "\u{2003}", "\u{2007}", "\u{2009}", "\u{202f}", "\u{3000}",
        ],
        meaning: "a blank of another width stands here",
        help: "write an ordinary blank in its place",
    },
    Mistake {
        signs: &["\u{ad}", "\u{200b}", "\u{200c}", "\u{200d}", "\u{2060}"],
        meaning: "a character without a shape stands here",
        help: "write the line anew, or take away what is not seen",
    },
    Mistake {
        signs: &[
            "\u{2010}", "\u{2011}", "\u{2012}", "\u{2013}", "\u{2014}", "\u{2212}",
        ],
        meaning: "a dash or a minus of another form stands here",
        help: "write the sign of a number as -, right before its digits",
    },
    Mistake {
        signs: &["//"],
        meaning: "// begins no comment",
        help: "write comments as (* .. *)",
    },
    Mistake {
        signs: &["/*"],
        meaning: "/* begins no comment",
        help: "write comments as (* .. *)",
    },
    Mistake {
        signs: &["#"],
        meaning: "# begins no comment",
        help: "write comments as (* .. *), and numbers as 16#FF or INT#5",
    },
    Mistake {
        signs: &["%"],
        meaning: "there are no addresses as %IX0.0",
        help: "declare the tag by its name in VAR_EXTERNAL; the site file says which point of which device it is",
    },
    Mistake {
        signs: &["'", "\"", "\u{2018}", "\u{2019}", "\u{201c}", "\u{201d}"],
        meaning: "there are no texts in quotes",
        help: "use whole numbers, TRUE and FALSE",
    },
    Mistake {
        signs: &["["],
        meaning: "there are no arrays",
        help: "declare a variable for each element",
    },
    Mistake {
        signs: &["<", ">"],
        meaning: "a comparison is an operator on a line of its own",
        help: "write GT, GE, EQ, NE, LE or LT with what the result is compared with",
    },
    Mistake {
        signs: &["+", "*", "/"],
        meaning: "an operation is an operator on a line of its own",
        help: "write ADD, SUB, MUL, DIV or MOD with its second operand",
    },
];

/// Where an operator must stand.
static OPERATORS: [Mistake; 18] = [
    SEMICOLON,
    Mistake {
        signs: &["VAR", "VAR_EXTERNAL"],
        meaning: "declarations stand before the instructions",
        help: "move the block up, after PROGRAM or another block",
    },
    Mistake {
        signs: &[
            "VAR_INPUT",
            "VAR_OUTPUT",
            "VAR_IN_OUT",
            "VAR_GLOBAL",
            "VAR_TEMP",
            "VAR_EXTERN",
            "VAR_ACCESS",
            "VAR_CONFIG",
        ],
        meaning: "this block of declarations isn't there",
        help: "name tags of the site in VAR_EXTERNAL, and the program's own variables in VAR",
    },
    Mistake {
        signs: &["END_VAR"],
        meaning: "no block of declarations is open",
        help: "write VAR or VAR_EXTERNAL before the declarations, once for each END_VAR",
    },
    Mistake {
        signs: &["TYPE", "STRUCT", "PROGRAM", "FUNCTION", "FUNCTION_BLOCK"],
        meaning: "a text has one program, and types of its own aren't there",
        help: "keep the declarations in VAR and VAR_EXTERNAL, and the instructions in one program",
    },
    Mistake {
        signs: &[
            "CAL", "CALC", "CALCN", "R_TRIG", "F_TRIG", "TON", "TOF", "CTU",
        ],
        meaning: "there are no calls of functions or function blocks",
        help: "write what the block does as instructions; a count or a state is kept in a variable",
    },
    Mistake {
        signs: &["RETURN"],
        meaning: "{} is no operator",
        help: "write RET, or RETC and RETCN on a condition",
    },
    Mistake {
        signs: &["LOAD"],
        meaning: "{} is no operator",
        help: "write LD",
    },
    Mistake {
        signs: &["STORE"],
        meaning: "{} is no operator",
        help: "write ST",
    },
    Mistake {
        signs: &["GTE"],
        meaning: "{} is no operator",
        help: "write GE",
    },
    Mistake {
        signs: &["LTE"],
        meaning: "{} is no operator",
        help: "write LE",
    },
    Mistake {
        signs: &["NOP"],
        meaning: "{} is no operator",
        help: "leave it out: a label may stand on a line alone",
    },
    Mistake {
        signs: &["MUX"],
        meaning: "{} is no operator",
        help: "choose between two by SEL, as LD b / SEL INT#0, INT#1; between more by one SEL after the other",
    },
    Mistake {
        signs: &["NEG"],
        meaning: "{} is no operator",
        help: "write MUL -1, or LD 0 and SUB with the name of the value",
    },
    Mistake {
        signs: &["SHL", "SHR", "ROL", "ROR"],
        meaning: "there are no shifts of bits",
        help: "write MUL or DIV with a power of two, as MUL 8 for three bits; a bit of a register is a tag with bit in the site file",
    },
    Mistake {
        signs: &["JMPNC", "RETNC"],
        meaning: "{} is no operator",
        help: "write the N after the C, as JMPCN or RETCN",
    },
    Mistake {
        signs: &["LOOP"],
        meaning: "LOOP stands in braces",
        help: "write {LOOP n} before a jump that goes back, with the most times that it is taken in a scan",
    },
    STRUCTURED,
];

/// Where the program must begin or end.
static HEADERS: [Mistake; 2] = [
    SEMICOLON,
    Mistake {
        signs: &[
            "FUNCTION_BLOCK",
            "FUNCTION",
            "CONFIGURATION",
            "TYPE",
            "RESOURCE",
        ],
        meaning: "a text has one program and nothing else",
        help: "write PROGRAM and a name before the declarations, and END_PROGRAM after the instructions",
    },
];

/// In a declaration.
static DECLARATIONS: [Mistake; 1] = [Mistake {
    signs: &["AT"],
    meaning: "a declaration has no address after AT",
    help: "declare the tag by its name in VAR_EXTERNAL; the site file says which point of which device it is",
}];

/// Where an operand or a label must stand.
static ENDS: [Mistake; 1] = [SEMICOLON];

/// An assignment, or another statement of Structured Text.
pub(crate) const STRUCTURED: Mistake = Mistake {
    signs: &[
        "IF",
        "ELSIF",
        "ELSE",
        "END_IF",
        "WHILE",
        "END_WHILE",
        "FOR",
        "END_FOR",
        "CASE",
        "END_CASE",
        "REPEAT",
        "UNTIL",
        "END_REPEAT",
        "EXIT",
    ],
    meaning: "this is Structured Text",
    help: "write one operator on a line: a condition is a label and JMPC or JMPCN, an assignment LD and ST",
};

/// What is told of the mistake that is met.
pub(crate) fn mistake_met(met: &Met<'_, '_>) -> Option<Hint> {
    match met.kind {
        ReadFaultKind::Word => first_shown(met, &WORDS),
        ReadFaultKind::Operator => first_shown(met, &OPERATORS),
        ReadFaultKind::Header => first_shown(met, &HEADERS),
        ReadFaultKind::Declaration => first_shown(met, &DECLARATIONS),
        ReadFaultKind::Operand | ReadFaultKind::Label => first_shown(met, &ENDS),
        _ => None,
    }
}

/// The hint on the first of some mistakes that is met.
fn first_shown(met: &Met<'_, '_>, mistakes: &[Mistake]) -> Option<Hint> {
    for mistake in mistakes {
        if shows(met, mistake.signs) {
            return Some(mistake.hint());
        }
    }
    None
}

/// Whether one of these words or marks is met.
fn shows(met: &Met<'_, '_>, signs: &[&str]) -> bool {
    for sign in signs {
        if met.is(sign) || (met.begins(sign) && !sign.starts_with(is_letter)) {
            return true;
        }
    }
    false
}

fn is_letter(letter: char) -> bool {
    letter.is_ascii_alphabetic()
}
