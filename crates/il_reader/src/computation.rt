//! What is read of a line that computes.
ghost use Rattle.std.specs.Prelude.{◌≡◌, IfOk, None};
ghost use Rattle.il_reader.specs.Writing.{written, written_inner};
ghost use Rattle.il_reader.specs.Nesting.{is_filled};
ghost use Rattle.il_reader.specs.Written.{Close, Defer, Then, followed_by};

use crate::tree::{InnerLine, Operand, Simple};
use point_types::Operator;
use std::alloc::{AllocError, Global};
use std::marker::Model;

/// An instruction that works on the current result alone. Contracts see it as it is written, and
/// nothing of the room of its lists.
#[derive(Drop, Debug)]
pub struct Computation {
    simple: Simple,
}

impl Model for Computation {
    ghost use Rattle.il_reader.specs.Written.{Written};
    ghost use Rattle.il_reader.specs.Codes.{coded_written};

    ghost Value = { Written };

    ghost coded = { coded_written };

    ghost use Rattle.il_reader.specs.Writing.{written};

    ghost view = { λ c. written c.simple };
}

impl Computation {
    /// The computation of this instruction.
    pub fn new(simple: Simple) -> Computation
        ensures { result ≡ written simple }
    {
        Computation { simple }
    }

    /// The instruction, to read it.
    pub fn as_simple(&self) -> &Simple
        ensures { written result.now ≡ self.now }
    {
        &self.simple
    }

    /// An operator whose operand is what these lines give.
    pub(crate) fn defer(
        operator: Operator,
        negated: bool,
        operand: Option<Operand>,
        inner: InnerLines,
    ) -> Computation
        ensures { result ≡ Defer operator negated operand inner }
    {
        let InnerLines { lines } = inner;
        Computation {
            simple: Simple::Defer {
                operator,
                negated,
                operand,
                inner: lines,
            },
        }
    }
}

/// Lines inside parentheses, as far as they have been read. Contracts see them as they are written.
#[derive(Drop)]
pub(crate) struct InnerLines {
    lines: Vec<InnerLine>,
}

impl Model for InnerLines {
    ghost use Rattle.il_reader.specs.Written.{Inner};
    ghost use Rattle.il_reader.specs.Codes.{coded_inner};

    ghost Value = { Inner };

    ghost coded = { coded_inner };

    ghost use Rattle.il_reader.specs.Writing.{written_inner};

    ghost view = { λ i. written_inner i.lines.items };
}

impl InnerLines {
    /// No lines; takes no memory.
    pub fn new(alloc: Global) -> InnerLines
        ensures { result ≡ Close }
    {
        InnerLines {
            lines: Vec::new(alloc),
        }
    }

    /// Whether there is a line.
    pub fn has_lines(&self) -> bool
        ensures { result ≡ is_filled None self.now }
    {
        match self.lines.as_slice() {
            [] => false,
            [_, ..] => true,
        }
    }

    /// One more line.
    pub fn add(self, line: u32, computation: Computation) -> Result<InnerLines, AllocError>
        ensures { IfOk result (λ inner. inner ≡ followed_by self (Then line computation Close)) }
    {
        let Computation { simple } = computation;
        let InnerLines { mut lines } = self;
        lines.push(InnerLine { line, simple })?;
        Ok(InnerLines { lines })
    }
}
