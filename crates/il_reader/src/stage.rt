//! How far a program is read.
ghost use Rattle.std.specs.Prelude.{◌≡◌};
ghost use Rattle.il_reader.specs.Reading.{is_inner_line, part_early, stage_early};

use crate::draft::Head;
use crate::fault::ReadFaultKind;
use crate::nest::Nest;
use crate::tree::Operand;
use crate::typing::Typing;
use point_types::{Condition, IlType, Name, Operator};

/// Where a text stands between its name and END_PROGRAM, inside the parentheses of a nest.
#[derive(Drop)]
pub(crate) enum Stage {
    /// After the name or END_VAR: a block, or the body.
    BetweenBlocks,
    Block(BlockStage),
    /// At the beginning of a line of the body, or inside parentheses.
    AtLine(Nest),
    /// After a name at the beginning of this line.
    BehindLabel(u32, Name),
    /// After a label and its colon.
    AtInstruction(Head),
    Part(Nest, Head, PartStage),
    /// After a whole instruction.
    BehindInstruction(Nest),
}

/// Where a text stands in a block of declarations. The truth value tells whether the block is one of
/// externals.
#[derive(Clone, Copy)]
pub(crate) enum BlockStage {
    /// A declaration, or END_VAR.
    InBlock(bool),
    BehindName(bool),
    BehindComma(bool),
    BehindColon(bool),
    /// After the type of externals.
    BehindExternal(IlType),
    /// After the type of variables.
    BehindType(Typing),
    /// After the parenthesis of a subrange.
    BehindOpen(IlType),
    /// After the low end of a subrange.
    BehindLow(Typing),
    /// After the dots of a subrange.
    BehindDots(Typing),
    /// After the high end of a subrange.
    BehindHigh(Typing),
    /// After a subrange.
    BehindRange(Typing),
    BehindAssign(Typing),
    /// After a start value.
    BehindStart(Typing),
}

/// Where a text stands after the first token of an instruction.
#[derive(Clone, Copy)]
pub(crate) enum PartStage {
    /// After LD or LDN.
    BehindLoad(bool),
    BehindOperator(Operator, bool),
    /// After an operator and an opening parenthesis.
    BehindParenthesis(Operator, bool),
    /// After an operator, an opening parenthesis and an operand.
    BehindEntry(Operator, bool, Operand),
    /// After LIMIT or SEL.
    BehindPair(Pair),
    /// After the first operand of LIMIT or SEL.
    BehindFirst(Pair, Operand),
    BehindFirstComma(Pair, Operand),
    /// After ST or STN.
    BehindStore(bool),
    /// After S or R.
    BehindSet(bool),
    BehindJump(Condition, Option<u8>),
    /// After an opening brace.
    BehindBrace,
    /// After LOOP.
    BehindLoop,
    /// After the number of turns of a counted jump.
    BehindTurns(u8),
    /// After a pragma.
    BehindPragma(u8),
}

/// An operator with two operands beside the result.
#[derive(Clone, Copy)]
pub(crate) enum Pair {
    Limit,
    Select,
}

impl Stage {
    /// Whether this is the beginning of a line inside parentheses.
    pub(crate) fn is_inner_line(&self) -> bool
        ensures { result ≡ is_inner_line self.now }
    {
        match self {
            Stage::AtLine(nest) => nest.is_open(),
            _ => false,
        }
    }

    /// Why a text that ends here has ended too soon.
    pub(crate) fn end_fault(&self) -> ReadFaultKind
        ensures { result ≡ stage_early self.now }
    {
        match self {
            Stage::AtLine(nest) => nest.end_fault(),
            Stage::Part(nest, _, part) => part.end_fault(nest),
            Stage::BehindInstruction(nest) => nest.end_fault(),
            _ => ReadFaultKind::Header,
        }
    }
}

impl PartStage {
    fn end_fault(&self, nest: &Nest) -> ReadFaultKind
        ensures { result ≡ part_early nest.now self.now }
    {
        match self {
            PartStage::BehindParenthesis(_, _) => ReadFaultKind::Parenthesis,
            PartStage::BehindEntry(_, _, _) => ReadFaultKind::Parenthesis,
            _ => nest.end_fault(),
        }
    }
}
