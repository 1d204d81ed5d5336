//! Why a text is no program.
ghost use Rattle.std.specs.Prelude.{◌≡◌};
ghost use Rattle.il_reader.specs.Fault.{word_of};

use std::fmt;
use thiserror::Error;

/// Why a text is no program.
#[derive(Clone, Copy, PartialEq, Eq, Debug, Error)]
pub enum ReadFaultKind {
    /// Bytes that are no token, a word that is no name, or a comment that is never closed.
    Word,
    /// PROGRAM, its name or END_PROGRAM is missing, or text stands after END_PROGRAM.
    Header,
    /// A declaration that isn't one, or a start value outside its type.
    Declaration,
    /// No operator where one must stand.
    Operator,
    /// No operand where one must stand, or more than one; parentheses with nothing inside.
    Operand,
    /// A label, or a jump without one.
    Label,
    /// A parenthesis that closes nothing, one that stays open, or what only the body has inside: a
    /// label, a store, a jump or a return.
    Parenthesis,
    /// What begins like a literal and is none, or a number outside LINT.
    Literal,
    /// A name that is declared twice.
    Duplicate,
    /// A text of more than 1,048,576 bytes, more than 1,024 variables, or more than 100 parentheses in
    /// one another.
    TooLong,
    /// Memory was refused; this says nothing about the text.
    OutOfMemory,
}

impl fmt::Display for ReadFaultKind {
    fn fmt<W: fmt::Write>(&self, f: &mut fmt::Formatter<W>) -> fmt::Result {
        f.write_str(self.word())
    }
}

impl ReadFaultKind {
    /// The word by which a refusal names the fault.
    pub fn word(self) -> &'static str
        ensures { result.now ≡ word_of self }
    {
        match self {
            ReadFaultKind::Word => "Word",
            ReadFaultKind::Header => "Header",
            ReadFaultKind::Declaration => "Declaration",
            ReadFaultKind::Operator => "Operator",
            ReadFaultKind::Operand => "Operand",
            ReadFaultKind::Label => "Label",
            ReadFaultKind::Parenthesis => "Parenthesis",
            ReadFaultKind::Literal => "Literal",
            ReadFaultKind::Duplicate => "Duplicate",
            ReadFaultKind::TooLong => "TooLong",
            ReadFaultKind::OutOfMemory => "OutOfMemory",
        }
    }
}

/// The first line of a text that is at fault, and its leftmost fault. Lines are counted from 1; the
/// line is 0 where memory was refused.
#[derive(Clone, Copy, PartialEq, Eq, Debug, Error)]
#[error("{kind} line {line}")]
pub struct ReadFault {
    pub line: u32,
    pub kind: ReadFaultKind,
}
