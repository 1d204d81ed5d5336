//! Why a program has no image.
ghost use Rattle.std.specs.Prelude.{◌≡◌, codes};

use std::alloc::{AllocError, AllocFailed};
use std::fmt;
use thiserror::Error;

/// Why a program has no code, by number from 1 on. Of several faults on one line the first in this order is given.
#[derive(Clone, Copy, PartialEq, Eq, Debug, Error)]
pub enum AsmFaultKind {
    /// A name that isn't declared, or a store to a presence.
    UnknownName,
    /// A jump to no label.
    UnknownLabel,
    /// A jump to an earlier label that isn't counted.
    BackwardJump,
    /// An external that is loaded and stored.
    LoadAndStore,
    /// A literal that doesn't fit its type, or a number where BOOL is wanted.
    LiteralType,
    /// Code of more than 65,535 bytes.
    TooLong,
    OutOfMemory,
    /// A counted jump to a later label.
    ForwardLoop,
}

impl fmt::Display for AsmFaultKind {
    fn fmt<W: fmt::Write>(&self, f: &mut fmt::Formatter<W>) -> fmt::Result {
        f.write_str(self.word())
    }
}

/// A fault of a program, and its line in the text; line 0 for want of memory.
#[derive(Clone, Copy, PartialEq, Eq, Debug, Error)]
#[error("{kind} line {line}")]
pub struct AsmFault {
    pub line: u32,
    pub kind: AsmFaultKind,
}

impl AsmFaultKind {
    ghost use Rattle.il_assemble.specs.Word.{word_of};

    /// The word that stands for the kind in printed lines.
    pub fn word(self) -> &'static str
        ensures { result.now ≡ word_of self }
    {
        match self {
            AsmFaultKind::UnknownName => "UnknownName",
            AsmFaultKind::UnknownLabel => "UnknownLabel",
            AsmFaultKind::BackwardJump => "BackwardJump",
            AsmFaultKind::LoadAndStore => "LoadAndStore",
            AsmFaultKind::LiteralType => "LiteralType",
            AsmFaultKind::TooLong => "TooLong",
            AsmFaultKind::OutOfMemory => "OutOfMemory",
            AsmFaultKind::ForwardLoop => "ForwardLoop",
        }
    }
}

impl From<AllocError> for AsmFault {
    ghost use Rattle.std.specs.Prelude.{◌≡◌};
    ghost use Rattle.il_assemble.specs.Word.{out_of_memory};

    ghost from_gives = { λ _ fault. fault ≡ out_of_memory };

    fn from(_error: AllocError) -> AsmFault {
        AsmFault {
            line: 0,
            kind: AsmFaultKind::OutOfMemory,
        }
    }
}

impl<T: Drop> From<AllocFailed<T>> for AsmFault {
    ghost use Rattle.std.specs.Prelude.{◌≡◌};
    ghost use Rattle.il_assemble.specs.Word.{out_of_memory};

    ghost from_gives = { λ _ fault. fault ≡ out_of_memory };

    fn from(_error: AllocFailed<T>) -> AsmFault {
        AsmFault {
            line: 0,
            kind: AsmFaultKind::OutOfMemory,
        }
    }
}
