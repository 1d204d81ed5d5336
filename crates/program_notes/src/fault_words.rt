//! What is told of a fault in place of the words of its kind.
use crate::pieces::TextPiece;
use std::alloc::{AllocError, Global};

/// What is wrong, and what to do; `{}` stands for the name.
#[derive(Clone, Copy)]
pub struct Hint {
    pub meaning: &'static str,
    pub help: &'static str,
}

/// What is told of a fault: a hint, with what it speaks of.
#[derive(Drop)]
pub struct FaultWords {
    pub hint: Hint,
    /// The bytes that are marked in place of those at fault.
    pub span: Option<(usize, usize)>,
    /// The name that `{}` stands for.
    pub name: String,
    /// What is known there, or may stand there.
    pub detail: String,
}

impl FaultWords {
    /// A hint on what is at fault.
    pub(crate) fn new(alloc: Global, hint: Hint) -> FaultWords {
        FaultWords {
            hint,
            span: None,
            name: String::new(alloc),
            detail: String::new(alloc),
        }
    }

    /// A hint on a piece.
    pub(crate) fn on(alloc: Global, piece: TextPiece<'_>, hint: Hint) -> FaultWords {
        let mut told = FaultWords::new(alloc, hint);
        told.span = Some((piece.at, piece.behind()));
        told
    }

    /// A hint that speaks of a name.
    pub(crate) fn named(alloc: Global, name: &str, hint: Hint) -> Result<FaultWords, AllocError> {
        let mut told = FaultWords::new(alloc, hint);
        told.name.push_str(name)?;
        Ok(told)
    }

    /// The same with what is known there.
    pub(crate) fn knowing(mut self, detail: &str) -> Result<FaultWords, AllocError> {
        self.detail.push_str(detail)?;
        Ok(self)
    }
}
