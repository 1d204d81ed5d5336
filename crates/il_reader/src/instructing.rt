//! Reading an instruction.
ghost use Rattle.std.specs.Prelude.{◌≡◌, IfOk, Ok, option_map};
ghost use Rattle.il_reader.specs.Drafting.{continues};
ghost use Rattle.il_reader.specs.Instructions.{GoesOn, acted, begin_step, begun_step, behind_brace_step, behind_first_step, behind_jump_step, behind_loop_step, behind_operator_step, behind_pair_step, behind_pragma_step, behind_set_step, behind_store_step, behind_turns_step, computed, continues_if, is_loop, operand_of, paired, part_begun, part_step, simple_step, single_step, turns_of, turns_step};
ghost use Rattle.il_reader.specs.Writing.{written};
ghost use Rattle.il_reader.specs.Written.{Apply, Load};

use crate::computation::Computation;
use crate::draft::{Draft, Head};
use crate::fault::ReadFaultKind;
use crate::nest::Nest;
use crate::nesting::{act, behind_entry, behind_parenthesis, compute, enter};
use crate::stage::{Pair, PartStage, Stage};
use crate::state::{Move, State};
use crate::token::{Keyword, Token};
use crate::tree::{Action, Operand, Simple};
use point_types::{Condition, Name, Operator};
use std::alloc::{AllocError, Global};

/// Reads the first token of an instruction of the body.
pub(crate) fn begin(
    alloc: Global,
    draft: Draft,
    head: Head,
    token: Token,
) -> Result<Move, AllocError>
    ensures { IfOk result (λ m. m ≡ begin_step draft head token) }
{
    match token {
        Token::Keyword(word) => begin_with(Nest::new(alloc), draft, head, word),
        Token::OpenBrace => Ok(goes_on(Nest::new(alloc), head, PartStage::BehindBrace, draft)),
        Token::Close => Ok(Err(ReadFaultKind::Parenthesis)),
        _ => Ok(Err(ReadFaultKind::Operator)),
    }
}

/// Reads the word that begins an instruction, inside these parentheses.
pub(crate) fn begin_with(
    nest: Nest,
    draft: Draft,
    head: Head,
    word: Keyword,
) -> Result<Move, AllocError>
    ensures { IfOk result (λ m. m ≡ begun_step nest draft head word (part_begun word)) }
{
    match part_begun_by(word) {
        Some(part) => Ok(goes_on(nest, head, part, draft)),
        None => single(nest, draft, head, word),
    }
}

// An instruction of one word.
fn single(nest: Nest, draft: Draft, head: Head, word: Keyword) -> Result<Move, AllocError>
    ensures { IfOk result (λ m. m ≡ single_step nest draft head word) }
{
    match word {
        Keyword::Return(condition) => act_on(nest, draft, head, Action::Return(condition)),
        Keyword::Not => compute_plain(nest, draft, head, Simple::Invert),
        Keyword::Absolute => compute_plain(nest, draft, head, Simple::Absolute),
        Keyword::Convert(from, to) => {
            compute_plain(nest, draft, head, Simple::Convert { from, to })
        }
        _ => Ok(Err(ReadFaultKind::Operator)),
    }
}

fn compute_plain(nest: Nest, draft: Draft, head: Head, simple: Simple) -> Result<Move, AllocError>
    ensures { IfOk result (λ m. m ≡ Ok (computed nest draft head (written simple))) }
{
    let state = compute(nest, draft, head, Computation::new(simple))?;
    Ok(Ok(state))
}

// What an operator begins that has operands.
fn part_begun_by(word: Keyword) -> Option<PartStage>
    ensures { result ≡ part_begun word }
{
    match word {
        Keyword::Load(negated) => Some(PartStage::BehindLoad(negated)),
        Keyword::Store(negated) => Some(PartStage::BehindStore(negated)),
        Keyword::Set(value) => Some(PartStage::BehindSet(value)),
        Keyword::Jump(condition) => Some(PartStage::BehindJump(condition, None)),
        Keyword::Apply(operator, negated) => Some(PartStage::BehindOperator(operator, negated)),
        Keyword::Limit => Some(PartStage::BehindPair(Pair::Limit)),
        Keyword::Select => Some(PartStage::BehindPair(Pair::Select)),
        _ => None,
    }
}

impl PartStage {
    /// Reads a token after the first one of an instruction, inside these parentheses.
    pub fn step(
        self,
        alloc: Global,
        nest: Nest,
        head: Head,
        draft: Draft,
        token: Token,
    ) -> Result<Move, AllocError>
        ensures { IfOk result (λ m. m ≡ part_step nest head self draft token) }
    {
        match self {
            PartStage::BehindLoad(negated) => compute_if(nest, draft, head, load(negated, token)),
            PartStage::BehindOperator(operator, negated) => {
                behind_operator(nest, head, operator, negated, draft, token)
            }
            PartStage::BehindParenthesis(operator, negated) => {
                behind_parenthesis(nest, head, operator, negated, draft, token, alloc)
            }
            PartStage::BehindEntry(operator, negated, operand) => {
                behind_entry(nest, head, operator, negated, operand, draft, token, alloc)
            }
            PartStage::BehindPair(pair) => Ok(goes_on_if(
                nest,
                head,
                behind_pair(pair, token),
                draft,
            )),
            PartStage::BehindFirst(pair, first) => {
                Ok(goes_on_if(nest, head, behind_first(pair, first, token), draft))
            }
            PartStage::BehindFirstComma(pair, first) => {
                compute_if(nest, draft, head, pair_up(pair, first, token))
            }
            PartStage::BehindStore(negated) => behind_store(nest, head, negated, draft, token),
            PartStage::BehindSet(value) => behind_set(nest, head, value, draft, token),
            PartStage::BehindJump(condition, turns) => {
                behind_jump(nest, head, condition, turns, draft, token)
            }
            PartStage::BehindBrace => Ok(goes_on_if(nest, head, behind_brace(token), draft)),
            PartStage::BehindLoop => Ok(goes_on_if(nest, head, behind_loop(token), draft)),
            PartStage::BehindTurns(turns) => Ok(goes_on_if(
                nest,
                head,
                behind_turns(turns, token),
                draft,
            )),
            PartStage::BehindPragma(turns) => Ok(goes_on_if(
                nest,
                head,
                behind_pragma(turns, token),
                draft,
            )),
        }
    }
}

/// On at another place of the instruction.
pub(crate) fn goes_on(nest: Nest, head: Head, part: PartStage, draft: Draft) -> Move
    ensures { result ≡ continues nest head part draft }
{
    Ok(State::Within(Stage::Part(nest, head, part), draft))
}

/// On where there is a place to go on, with all that has been read.
pub(crate) fn goes_on_if(
    nest: Nest,
    head: Head,
    next: Result<PartStage, ReadFaultKind>,
    draft: Draft,
) -> Move
    ensures { result ≡ continues_if nest head draft next }
{
    match next {
        Ok(part) => goes_on(nest, head, part, draft),
        Err(kind) => Err(kind),
    }
}

// A whole instruction, where its operand is one.
fn compute_if(
    nest: Nest,
    draft: Draft,
    head: Head,
    computation: Option<Computation>,
) -> Result<Move, AllocError>
    ensures { IfOk result (λ m. m ≡ simple_step nest draft head computation) }
{
    match computation {
        Some(computation) => {
            let state = compute(nest, draft, head, computation)?;
            Ok(Ok(state))
        }
        None => Ok(Err(ReadFaultKind::Operand)),
    }
}

fn behind_operator(
    nest: Nest,
    head: Head,
    operator: Operator,
    negated: bool,
    draft: Draft,
    token: Token,
) -> Result<Move, AllocError>
    ensures { IfOk result (λ m. m ≡ behind_operator_step nest head operator negated draft token) }
{
    match token {
        Token::Open => {
            let next = enter(&nest, operator, negated);
            Ok(goes_on_if(nest, head, next, draft))
        }
        _ => compute_if(nest, draft, head, apply(operator, negated, token)),
    }
}

fn load(negated: bool, token: Token) -> Option<Computation>
    ensures { result ≡ option_map (Load negated) (operand_of token) }
{
    let operand = operand_from(token)?;
    Some(Computation::new(Simple::Load { negated, operand }))
}

fn apply(operator: Operator, negated: bool, token: Token) -> Option<Computation>
    ensures { result ≡ option_map (Apply operator negated) (operand_of token) }
{
    let operand = operand_from(token)?;
    Some(Computation::new(Simple::Apply {
        operator,
        negated,
        operand,
    }))
}

fn pair_up(pair: Pair, first: Operand, token: Token) -> Option<Computation>
    ensures { result ≡ option_map (paired pair first) (operand_of token) }
{
    let second = operand_from(token)?;
    Some(pair_of(pair, first, second))
}

fn pair_of(pair: Pair, first: Operand, second: Operand) -> Computation
    ensures { result ≡ paired pair first second }
{
    match pair {
        Pair::Limit => Computation::new(Simple::Limit {
            input: first,
            most: second,
        }),
        Pair::Select => Computation::new(Simple::Select {
            if_false: first,
            if_true: second,
        }),
    }
}

/// A name, TRUE or FALSE, or a number.
pub(crate) fn operand_from(token: Token) -> Option<Operand>
    ensures { result ≡ operand_of token }
{
    match token {
        Token::Name(name) => Some(Operand::Named(name)),
        Token::Decimal(value) => Some(Operand::Number(value)),
        Token::Number(value) => Some(Operand::Number(value)),
        Token::Typed(kind, value) => Some(Operand::Typed(kind, value)),
        Token::Keyword(word) => truth(word),
        _ => None,
    }
}

fn truth(word: Keyword) -> Option<Operand>
    ensures { result ≡ operand_of (Token.Keyword word) }
{
    match word {
        Keyword::Truth(value) => Some(Operand::Truth(value)),
        _ => None,
    }
}

// A whole instruction of the body.
fn act_on(nest: Nest, draft: Draft, head: Head, action: Action) -> Result<Move, AllocError>
    ensures { IfOk result (λ m. m ≡ Ok (acted nest draft head action)) }
{
    let state = act(nest, draft, head, action)?;
    Ok(Ok(state))
}

fn behind_pair(pair: Pair, token: Token) -> Result<PartStage, ReadFaultKind>
    ensures { GoesOn result (λ nest head draft. behind_pair_step nest head pair draft (operand_of token)) }
{
    match operand_from(token) {
        Some(first) => Ok(PartStage::BehindFirst(pair, first)),
        None => Err(ReadFaultKind::Operand),
    }
}

fn behind_first(pair: Pair, first: Operand, token: Token) -> Result<PartStage, ReadFaultKind>
    ensures { GoesOn result (λ nest head draft. behind_first_step nest head pair first draft token) }
{
    match token {
        Token::Comma => Ok(PartStage::BehindFirstComma(pair, first)),
        _ => Err(ReadFaultKind::Operand),
    }
}

fn behind_store(
    nest: Nest,
    head: Head,
    negated: bool,
    draft: Draft,
    token: Token,
) -> Result<Move, AllocError>
    ensures { IfOk result (λ m. m ≡ behind_store_step nest head negated draft token) }
{
    match token {
        Token::Name(name) => act_on(nest, draft, head, Action::Store { negated, name }),
        _ => Ok(Err(ReadFaultKind::Operand)),
    }
}

fn behind_set(
    nest: Nest,
    head: Head,
    value: bool,
    draft: Draft,
    token: Token,
) -> Result<Move, AllocError>
    ensures { IfOk result (λ m. m ≡ behind_set_step nest head value draft token) }
{
    match token {
        Token::Name(name) => act_on(nest, draft, head, Action::Set { value, name }),
        _ => Ok(Err(ReadFaultKind::Operand)),
    }
}

fn behind_jump(
    nest: Nest,
    head: Head,
    condition: Condition,
    turns: Option<u8>,
    draft: Draft,
    token: Token,
) -> Result<Move, AllocError>
    ensures { IfOk result (λ m. m ≡ behind_jump_step nest head condition turns draft token) }
{
    match token {
        Token::Name(label) => act_on(
            nest,
            draft,
            head,
            Action::Jump {
                condition,
                label,
                turns,
            },
        ),
        _ => Ok(Err(ReadFaultKind::Label)),
    }
}

fn behind_brace(token: Token) -> Result<PartStage, ReadFaultKind>
    ensures { GoesOn result (λ nest head draft. behind_brace_step nest head draft token) }
{
    match token {
        Token::Name(name) => behind_brace_word(&name),
        _ => Err(ReadFaultKind::Word),
    }
}

fn behind_brace_word(name: &Name) -> Result<PartStage, ReadFaultKind>
    ensures { GoesOn result (λ nest head draft. behind_brace_step nest head draft (Token.Name name.now)) }
{
    if is_loop_word(name) {
        Ok(PartStage::BehindLoop)
    } else {
        Err(ReadFaultKind::Word)
    }
}

fn is_loop_word(name: &Name) -> bool
    ensures { result ≡ is_loop name.now }
{
    name.as_bytes() == b"loop".as_slice()
}

fn behind_loop(token: Token) -> Result<PartStage, ReadFaultKind>
    ensures { GoesOn result (λ nest head draft. behind_loop_step nest head draft token) }
{
    match token {
        Token::Decimal(value) => behind_number(turns_from(value)),
        _ => Err(ReadFaultKind::Literal),
    }
}

fn behind_number(turns: Option<u8>) -> Result<PartStage, ReadFaultKind>
    ensures { GoesOn result (λ nest head draft. turns_step nest head draft turns) }
{
    match turns {
        Some(turns) => Ok(PartStage::BehindTurns(turns)),
        None => Err(ReadFaultKind::Literal),
    }
}

// How often a counted jump is taken, 1 to 255 times.
fn turns_from(value: i64) -> Option<u8>
    ensures { result ≡ turns_of value }
{
    match u8::try_from(value) {
        Ok(0) => None,
        Ok(turns) => Some(turns),
        Err(_) => None,
    }
}

fn behind_turns(turns: u8, token: Token) -> Result<PartStage, ReadFaultKind>
    ensures { GoesOn result (λ nest head draft. behind_turns_step nest head turns draft token) }
{
    match token {
        Token::CloseBrace => Ok(PartStage::BehindPragma(turns)),
        _ => Err(ReadFaultKind::Word),
    }
}

fn behind_pragma(turns: u8, token: Token) -> Result<PartStage, ReadFaultKind>
    ensures { GoesOn result (λ nest head draft. behind_pragma_step nest head turns draft token) }
{
    match token {
        Token::Keyword(Keyword::Jump(condition)) => {
            Ok(PartStage::BehindJump(condition, Some(turns)))
        }
        _ => Err(ReadFaultKind::Operator),
    }
}
