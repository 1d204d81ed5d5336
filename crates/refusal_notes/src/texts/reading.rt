//! Texts on why a text is no program.
use crate::explained::Explained;
use il_reader::ReadFaultKind;

impl Explained for ReadFaultKind {
    fn meaning(self) -> &'static str {
        match self {
            ReadFaultKind::Word => "characters that are no word of the language",
            ReadFaultKind::Header => "the frame of the program is broken",
            ReadFaultKind::Declaration => "no declaration of a variable or an external",
            ReadFaultKind::Operator => "no operator stands where one must",
            ReadFaultKind::Operand => "an operand is missing, or one is too many",
            ReadFaultKind::Label => "a jump without the name of a label",
            ReadFaultKind::Parenthesis => {
                "a parenthesis that closes or opens nothing, or what may not stand inside"
            }
            ReadFaultKind::Literal => "no number, or one that is too large",
            ReadFaultKind::Duplicate => "a name that stands already",
            ReadFaultKind::TooLong => "the text has more than a program may have",
            ReadFaultKind::OutOfMemory => "memory was refused",
        }
    }

    fn help(self) -> &'static str {
        match self {
            ReadFaultKind::Word => {
                "write names in letters, digits and single underscores, at most 32 of them; close each comment (* .. *)"
            }
            ReadFaultKind::Header => {
                "begin with PROGRAM and a name, end with END_PROGRAM, and write nothing after it"
            }
            ReadFaultKind::Declaration => {
                "write name : TYPE; with (low..high) or := start inside the type; look for a missing semicolon in the line before"
            }
            ReadFaultKind::Operator => {
                "begin the line with one operator, as LD or ADD; a label has a colon, and {LOOP n} stands before a jump"
            }
            ReadFaultKind::Operand => {
                "give one operand; LIMIT and SEL take two with a comma, NOT, ABS and conversions none"
            }
            ReadFaultKind::Label => "name a label that stands before a line, as JMP done",
            ReadFaultKind::Parenthesis => {
                "give each op( a ) on a line of its own, and store, jump and return after it"
            }
            ReadFaultKind::Literal => {
                "write a decimal within the type, or digits of the base after 16#, 8# or 2#"
            }
            ReadFaultKind::Duplicate => "rename one of the two; case makes no difference",
            ReadFaultKind::TooLong => {
                "split the program, or store parts of a nested expression in variables"
            }
            ReadFaultKind::OutOfMemory => "give the program more memory, and run the command again",
        }
    }
}
