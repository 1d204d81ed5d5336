//! Lines inside parentheses as far as they are read.
use crate::computation::{Computation, InnerLines};
use crate::draft::Head;
use crate::fault::ReadFaultKind;
use crate::tree::Operand;
use point_types::Operator;
use std::alloc::{AllocError, Global};
use std::marker::Model;

/// The parentheses that stand open. Contracts see them as a list, the inmost first.
pub(crate) struct Nest {
    parentheses: Vec<OpenParenthesis>,
}

/// A call for whoever drops one: the proofs of the functions that own one needn't take it apart.
impl Drop for Nest {
    fn drop(self) {
        let Nest { parentheses: _ } = self;
    }
}

/// Parentheses that stand open: the instruction that opened them, and the lines inside so far.
#[derive(Drop)]
pub(crate) struct OpenParenthesis {
    /// Where the instruction stands, with a label in the body alone.
    pub head: Head,
    pub operator: Operator,
    pub negated: bool,
    /// What stands right after the opening parenthesis.
    pub operand: Option<Operand>,
    pub inner: InnerLines,
}

impl Model for Nest {
    ghost use Rattle.std.specs.Prelude.{List, reverse};
    ghost use Rattle.il_reader.specs.declared.nest.OpenParenthesis.{OpenParenthesis};
    ghost use Rattle.std.specs.Coded.{coded_list};
    ghost use Rattle.il_reader.specs.contracts.nest.OpenParenthesis as parenthesis;

    ghost Value = { List OpenParenthesis };

    ghost coded = { coded_list parenthesis.the_row.coded };

    ghost view = { λ n. reverse n.parentheses.items };
}

impl Nest {
    ghost use Rattle.std.specs.Prelude.{◌≡◌, [], ◌∷◌, IfOk, MatchOption, length};
    ghost use Rattle.il_reader.specs.Nesting.{with_inner};

    /// No parentheses; takes no memory.
    pub fn new(alloc: Global) -> Nest
        ensures { result ≡ [] }
    {
        Nest {
            parentheses: Vec::new(alloc),
        }
    }

    /// How many parentheses stand open.
    pub fn depth(&self) -> usize
        ensures { result ≡ length self.now }
    {
        self.parentheses.len()
    }

    /// With further parentheses, inside these.
    pub fn open(self, parenthesis: OpenParenthesis) -> Result<Nest, AllocError>
        ensures { IfOk result (λ nest. nest ≡ parenthesis ∷ self) }
    {
        let Nest { mut parentheses } = self;
        parentheses.push(parenthesis)?;
        Ok(Nest { parentheses })
    }

    /// The inmost parentheses, where there are any, and those around them.
    pub fn part(self) -> (Option<OpenParenthesis>, Nest)
        ensures { MatchOption result.0 ((self ≡ []) × (result.1 ≡ [])) (λ parenthesis. self ≡ parenthesis ∷ result.1) }
    {
        let Nest { mut parentheses } = self;
        let inmost = parentheses.pop();
        (inmost, Nest { parentheses })
    }

    /// With one more line in the inmost parentheses.
    pub fn add(self, line: u32, computation: Computation) -> Result<Nest, AllocError>
        ensures { IfOk result (λ nest. nest ≡ with_inner self line computation) }
    {
        let (inmost, outer) = self.part();
        match inmost {
            Some(parenthesis) => outer.open(parenthesis.add(line, computation)?),
            None => Ok(outer),
        }
    }
}

impl Nest {
    ghost use Rattle.std.specs.Prelude.{◌≡◌};
    ghost use Rattle.il_reader.specs.Nesting.{close_fault, end_fault, is_open};

    /// Whether parentheses stand open.
    pub(crate) fn is_open(&self) -> bool
        ensures { result ≡ is_open self.now }
    {
        self.depth() != 0
    }

    /// The fault of a closing parenthesis after a whole instruction.
    pub(crate) fn close_fault(&self) -> ReadFaultKind
        ensures { result ≡ close_fault self.now }
    {
        if self.depth() == 0 {
            ReadFaultKind::Parenthesis
        } else {
            ReadFaultKind::Operand
        }
    }

    /// The fault of a text that ends too soon.
    pub(crate) fn end_fault(&self) -> ReadFaultKind
        ensures { result ≡ end_fault self.now }
    {
        if self.depth() == 0 {
            ReadFaultKind::Header
        } else {
            ReadFaultKind::Parenthesis
        }
    }
}

impl OpenParenthesis {
    ghost use Rattle.std.specs.Prelude.{◌≡◌, IfOk};
    ghost use Rattle.il_reader.specs.Nesting.{is_filled, with_line};

    /// Whether an operand or a line stands inside.
    pub(crate) fn is_filled(&self) -> bool
        ensures { result ≡ is_filled self.now.operand self.now.inner }
    {
        match self.operand {
            Some(_) => true,
            None => self.inner.has_lines(),
        }
    }

    /// With one more line.
    pub fn add(self, line: u32, computation: Computation) -> Result<OpenParenthesis, AllocError>
        ensures { IfOk result (λ parenthesis. parenthesis ≡ with_line self line computation) }
    {
        let OpenParenthesis {
            head,
            operator,
            negated,
            operand,
            inner,
        } = self;
        let inner = inner.add(line, computation)?;
        Ok(OpenParenthesis {
            head,
            operator,
            negated,
            operand,
            inner,
        })
    }
}
