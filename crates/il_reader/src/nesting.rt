//! Reading inside parentheses.
ghost use Rattle.std.specs.Prelude.{◌≡◌, IfOk};
ghost use Rattle.il_reader.specs.Nesting.{is_outer, takes_parentheses};
ghost use Rattle.il_reader.specs.Instructions.{GoesOnInside, GoesOn, acted, behind_entry_step, behind_parenthesis_step, close_step, computed, enter_step, entered_step, inner_step, inside_step, opened, operand_of};

use crate::computation::{Computation, InnerLines};
use crate::draft::{Draft, Head};
use crate::fault::ReadFaultKind;
use crate::instructing::{begin_with, goes_on_if, operand_from};
use crate::nest::{Nest, OpenParenthesis};
use crate::stage::{PartStage, Stage};
use crate::state::{Move, State};
use crate::token::{Keyword, Token};
use crate::tree::{Action, Operand};
use point_types::Operator;
use std::alloc::{AllocError, Global};

/// The most parentheses that stand in one another.
const MOST_NESTED: usize = 100;

/// A whole instruction of the body.
pub(crate) fn act(nest: Nest, draft: Draft, head: Head, action: Action) -> Result<State, AllocError>
    ensures { IfOk result (λ s. s ≡ acted nest draft head action) }
{
    let draft = draft.add(head, Some(action))?;
    Ok(State::Within(Stage::BehindInstruction(nest), draft))
}

/// A whole instruction on the result alone: one of the body, or a line of the inmost parentheses.
pub(crate) fn compute(
    nest: Nest,
    draft: Draft,
    head: Head,
    computation: Computation,
) -> Result<State, AllocError>
    ensures { IfOk result (λ s. s ≡ computed nest draft head computation) }
{
    if nest.depth() == 0 {
        return act(nest, draft, head, Action::Compute(computation));
    }
    let nest = nest.add(head.line, computation)?;
    Ok(State::Within(Stage::BehindInstruction(nest), draft))
}

/// An opening parenthesis after an operator.
pub(crate) fn enter(
    nest: &Nest,
    operator: Operator,
    negated: bool,
) -> Result<PartStage, ReadFaultKind>
    ensures { GoesOnInside nest.now result (λ head draft. enter_step nest.now head operator negated draft) }
{
    if !may_open(operator) {
        Err(ReadFaultKind::Operand)
    } else if nest.depth() < MOST_NESTED {
        Ok(PartStage::BehindParenthesis(operator, negated))
    } else {
        Err(ReadFaultKind::TooLong)
    }
}

// All operators but MIN and MAX take parentheses.
fn may_open(operator: Operator) -> bool
    ensures { result ≡ takes_parentheses operator }
{
    match operator {
        Operator::Min | Operator::Max => false,
        _ => true,
    }
}

/// After an operator and an opening parenthesis.
pub(crate) fn behind_parenthesis(
    nest: Nest,
    head: Head,
    operator: Operator,
    negated: bool,
    draft: Draft,
    token: Token,
    alloc: Global,
) -> Result<Move, AllocError>
    ensures { IfOk result (λ m. m ≡ behind_parenthesis_step nest head operator negated draft token) }
{
    match token {
        Token::LineEnd => open(nest, head, operator, negated, None, draft, alloc),
        _ => {
            let next = entered(operator, negated, operand_from(token));
            Ok(goes_on_if(nest, head, next, draft))
        }
    }
}

fn entered(
    operator: Operator,
    negated: bool,
    operand: Option<Operand>,
) -> Result<PartStage, ReadFaultKind>
    ensures { GoesOn result (λ nest head draft. entered_step nest head operator negated draft operand) }
{
    match operand {
        Some(operand) => Ok(PartStage::BehindEntry(operator, negated, operand)),
        None => Err(ReadFaultKind::Operand),
    }
}

/// After an operator, an opening parenthesis and an operand.
pub(crate) fn behind_entry(
    nest: Nest,
    head: Head,
    operator: Operator,
    negated: bool,
    operand: Operand,
    draft: Draft,
    token: Token,
    alloc: Global,
) -> Result<Move, AllocError>
    ensures { IfOk result (λ m. m ≡ behind_entry_step nest head operator negated operand draft token) }
{
    match token {
        Token::LineEnd => open(nest, head, operator, negated, Some(operand), draft, alloc),
        _ => Ok(Err(ReadFaultKind::Operand)),
    }
}

// On at the first line inside.
fn open(
    nest: Nest,
    head: Head,
    operator: Operator,
    negated: bool,
    operand: Option<Operand>,
    draft: Draft,
    alloc: Global,
) -> Result<Move, AllocError>
    ensures { IfOk result (λ m. m ≡ opened nest head operator negated operand draft) }
{
    let nest = nest.open(OpenParenthesis {
        head,
        operator,
        negated,
        operand,
        inner: InnerLines::new(alloc),
    })?;
    Ok(Ok(State::Within(Stage::AtLine(nest), draft)))
}

/// Reads the first token of a line inside parentheses.
pub(crate) fn begin_inside(
    parenthesis: OpenParenthesis,
    outer: Nest,
    draft: Draft,
    token: Token,
    line: u32,
) -> Result<Move, AllocError>
    ensures { IfOk result (λ m. m ≡ inside_step parenthesis outer draft token line) }
{
    match token {
        Token::LineEnd => {
            let nest = outer.open(parenthesis)?;
            Ok(Ok(State::Within(Stage::AtLine(nest), draft)))
        }
        Token::Close => close(parenthesis, outer, draft),
        Token::Keyword(word) => begin_inner(parenthesis, outer, draft, word, line),
        _ => Ok(Err(ReadFaultKind::Operator)),
    }
}

fn begin_inner(
    parenthesis: OpenParenthesis,
    outer: Nest,
    draft: Draft,
    word: Keyword,
    line: u32,
) -> Result<Move, AllocError>
    ensures { IfOk result (λ m. m ≡ inner_step parenthesis outer draft word line) }
{
    if is_outer_word(word) {
        return Ok(Err(ReadFaultKind::Parenthesis));
    }
    let nest = outer.open(parenthesis)?;
    begin_with(nest, draft, Head { line, label: None }, word)
}

// Stores, jumps, returns and the end of the body stand in no parentheses.
fn is_outer_word(word: Keyword) -> bool
    ensures { result ≡ is_outer word }
{
    match word {
        Keyword::EndProgram
        | Keyword::Store(_)
        | Keyword::Set(_)
        | Keyword::Jump(_)
        | Keyword::Return(_) => true,
        _ => false,
    }
}

// The closing parenthesis.
fn close(parenthesis: OpenParenthesis, outer: Nest, draft: Draft) -> Result<Move, AllocError>
    ensures { IfOk result (λ m. m ≡ close_step parenthesis outer draft) }
{
    if !parenthesis.is_filled() {
        return Ok(Err(ReadFaultKind::Operand));
    }
    let OpenParenthesis {
        head,
        operator,
        negated,
        operand,
        inner,
    } = parenthesis;
    let computation = Computation::defer(operator, negated, operand, inner);
    let state = compute(outer, draft, head, computation)?;
    Ok(Ok(state))
}
