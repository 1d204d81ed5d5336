//! Texts on why a trial scan stopped.
use crate::explained::Explained;
use scan_vm::TrapKind;

impl Explained for TrapKind {
    /// What is wrong, in short; `{}` stands for the name of the variable or the input.
    fn meaning(self) -> &'static str {
        match self {
            TrapKind::WrongType => "no result, or a value of another type than is wanted",
            TrapKind::Overflow => "a number left its type",
            TrapKind::ZeroDivisor => "a division by 0",
            TrapKind::MissingPoint => "{} has no value",
            TrapKind::Code => "the bytes of the code are no instructions",
            TrapKind::Stack => "deferred values are missing, or more than 128",
            TrapKind::StoreRange => "the result lies outside the range of {}",
        }
    }

    /// What to do about it; `{}` stands for the same name.
    fn help(self) -> &'static str {
        match self {
            TrapKind::WrongType => {
                "load first, convert one of the operands, or write the type of a literal, as INT#8"
            }
            TrapKind::Overflow => {
                "bound the operands, as by MIN and MAX before, or convert to a wider type first"
            }
            TrapKind::ZeroDivisor => {
                "test the divisor before (LE 0 / JMPC elsewhere), or bound it, as by MAX 1"
            }
            TrapKind::MissingPoint => {
                "test it first (LD {}_OK / JMPCN elsewhere), or give it a value in an input line, as {}=5"
            }
            TrapKind::Code => "assemble the text again",
            TrapKind::Stack => "store parts of a nested expression in variables",
            TrapKind::StoreRange => {
                "bound it by MAX and MIN before the store, or declare a wider range"
            }
        }
    }
}
