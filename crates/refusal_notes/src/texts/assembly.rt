//! Texts on why a program has no code.
use crate::explained::Explained;
use il_assemble::AsmFaultKind;

impl Explained for AsmFaultKind {
    fn meaning(self) -> &'static str {
        match self {
            AsmFaultKind::UnknownName => "a name that isn't declared, or a store to a presence",
            AsmFaultKind::UnknownLabel => "a jump to a label that isn't there",
            AsmFaultKind::BackwardJump => "a jump to an earlier label, or to its own line",
            AsmFaultKind::LoadAndStore => "an external that is loaded and stored",
            AsmFaultKind::LiteralType => "a literal that isn't of the type that it takes here",
            AsmFaultKind::TooLong => "more code or counted jumps than a program may have",
            AsmFaultKind::OutOfMemory => "memory was refused",
            AsmFaultKind::ForwardLoop => "a counted jump to a later label",
        }
    }

    fn help(self) -> &'static str {
        match self {
            AsmFaultKind::UnknownName => {
                "declare it: in VAR for a variable of the program, in VAR_EXTERNAL for a tag of the site"
            }
            AsmFaultKind::UnknownLabel => "write the label before a line, with a colon",
            AsmFaultKind::BackwardJump => "count the jumps that go back: {LOOP 10} before JMP",
            AsmFaultKind::LoadAndStore => {
                "use two tags, or keep the value in a variable: a tag is an input or an output"
            }
            AsmFaultKind::LiteralType => {
                "write TRUE or FALSE for a BOOL, and the type before a number that has another, as INT#5"
            }
            AsmFaultKind::TooLong => {
                "shorten the program: 65,535 bytes of code and 256 counted jumps are the most"
            }
            AsmFaultKind::OutOfMemory => "give the program more memory, and run the command again",
            AsmFaultKind::ForwardLoop => "leave {LOOP n} out: jumps forward aren't counted",
        }
    }
}
