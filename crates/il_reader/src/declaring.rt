//! Reading declarations.
ghost use Rattle.std.specs.Prelude.{◌≡◌, IfOk, false};
ghost use Rattle.il_reader.specs.Declaration.{begun, bounded, made, started, truth_value, value_of, whole_value};
ghost use Rattle.il_reader.specs.Drafting.{declares, with_variables};
ghost use Rattle.il_reader.specs.Reading.{LeadsOn, behind_assign_step, behind_colon_step, behind_comma_step, behind_dots_step, behind_external_step, behind_high_step, behind_low_step, behind_name_step, behind_open_step, behind_range_step, behind_start_step, behind_type_step, block_step, declare_step, declares_if, in_block_step, typed_step};

use crate::draft::Draft;
use crate::fault::ReadFaultKind;
use crate::stage::{BlockStage, Stage};
use crate::state::{Move, State};
use crate::token::{Keyword, Token};
use crate::typing::Typing;
use point_types::{IlType, Name};
use std::alloc::{AllocError, Global};

impl BlockStage {
    /// Reads a token in a block of declarations.
    pub fn step(
        self,
        alloc: Global,
        draft: Draft,
        token: Token,
        line: u32,
    ) -> Result<Move, AllocError>
        ensures { IfOk result (λ m. m ≡ block_step self draft token line) }
    {
        match self {
            BlockStage::InBlock(external) => in_block(external, draft, token, line),
            BlockStage::BehindName(external) => {
                let next = behind_name(external, &draft, token);
                Ok(goes_on_if(next, draft))
            }
            BlockStage::BehindComma(external) => behind_comma(external, draft, token, line),
            BlockStage::BehindColon(external) => {
                Ok(goes_on_if(behind_colon(external, token), draft))
            }
            BlockStage::BehindExternal(kind) => behind_external(alloc, kind, draft, token),
            BlockStage::BehindType(typing) => behind_type(alloc, typing, draft, token),
            BlockStage::BehindOpen(kind) => Ok(goes_on_if(behind_open(kind, token), draft)),
            BlockStage::BehindLow(typing) => Ok(goes_on_if(behind_low(typing, token), draft)),
            BlockStage::BehindDots(typing) => Ok(goes_on_if(behind_dots(typing, token), draft)),
            BlockStage::BehindHigh(typing) => Ok(goes_on_if(behind_high(typing, token), draft)),
            BlockStage::BehindRange(typing) => behind_range(alloc, typing, draft, token),
            BlockStage::BehindAssign(typing) => Ok(goes_on_if(behind_assign(typing, token), draft)),
            BlockStage::BehindStart(typing) => behind_start(alloc, typing, draft, token),
        }
    }
}

// On at another place of the block.
fn goes_on(stage: BlockStage, draft: Draft) -> Move
    ensures { result ≡ declares stage draft }
{
    Ok(State::Within(Stage::Block(stage), draft))
}

// On where there is a place to go on, with all that has been read.
fn goes_on_if(next: Result<BlockStage, ReadFaultKind>, draft: Draft) -> Move
    ensures { result ≡ declares_if draft next }
{
    match next {
        Ok(stage) => goes_on(stage, draft),
        Err(kind) => Err(kind),
    }
}

fn in_block(external: bool, draft: Draft, token: Token, line: u32) -> Result<Move, AllocError>
    ensures { IfOk result (λ m. m ≡ in_block_step external draft token line) }
{
    if let Token::Name(name) = token {
        return declare(external, draft, name, line);
    }
    match token {
        Token::LineEnd => Ok(goes_on(BlockStage::InBlock(external), draft)),
        Token::Keyword(Keyword::EndVar) => Ok(Ok(State::Within(Stage::BetweenBlocks, draft))),
        _ => Ok(Err(ReadFaultKind::Declaration)),
    }
}

// One more name of a declaration.
fn declare(external: bool, draft: Draft, name: Name, line: u32) -> Result<Move, AllocError>
    ensures { IfOk result (λ m. m ≡ declare_step external draft name line) }
{
    if !draft.scope.has_room(external) {
        return Ok(Err(ReadFaultKind::TooLong));
    }
    if draft.scope.is_taken(external, &name) {
        return Ok(Err(ReadFaultKind::Duplicate));
    }
    let draft = draft.declare(external, line, name)?;
    Ok(goes_on(BlockStage::BehindName(external), draft))
}

fn behind_name(external: bool, draft: &Draft, token: Token) -> Result<BlockStage, ReadFaultKind>
    ensures { declares_if draft.now result ≡ behind_name_step external draft.now token }
{
    match token {
        Token::LineEnd => Ok(BlockStage::BehindName(external)),
        Token::Comma if draft.scope.has_room(external) => Ok(BlockStage::BehindComma(external)),
        Token::Comma => Err(ReadFaultKind::TooLong),
        Token::Colon => Ok(BlockStage::BehindColon(external)),
        _ => Err(ReadFaultKind::Declaration),
    }
}

fn behind_comma(external: bool, draft: Draft, token: Token, line: u32) -> Result<Move, AllocError>
    ensures { IfOk result (λ m. m ≡ behind_comma_step external draft token line) }
{
    match token {
        Token::LineEnd => Ok(goes_on(BlockStage::BehindComma(external), draft)),
        Token::Name(name) => declare(external, draft, name, line),
        _ => Ok(Err(ReadFaultKind::Declaration)),
    }
}

fn behind_colon(external: bool, token: Token) -> Result<BlockStage, ReadFaultKind>
    ensures { LeadsOn result (λ draft. behind_colon_step external draft token) }
{
    match token {
        Token::LineEnd => Ok(BlockStage::BehindColon(external)),
        Token::Keyword(Keyword::Type(kind)) => behind_kind(external, kind),
        _ => Err(ReadFaultKind::Declaration),
    }
}

fn behind_kind(external: bool, kind: IlType) -> Result<BlockStage, ReadFaultKind>
    ensures { LeadsOn result (λ draft. typed_step external draft kind) }
{
    if external {
        return Ok(BlockStage::BehindExternal(kind));
    }
    match Typing::whole(kind) {
        Some(typing) => Ok(BlockStage::BehindType(typing)),
        None => Err(ReadFaultKind::Declaration),
    }
}

fn behind_external(
    alloc: Global,
    kind: IlType,
    draft: Draft,
    token: Token,
) -> Result<Move, AllocError>
    ensures { IfOk result (λ m. m ≡ behind_external_step kind draft token) }
{
    match token {
        Token::LineEnd => Ok(goes_on(BlockStage::BehindExternal(kind), draft)),
        Token::Semicolon => {
            let draft = draft.close_externals(alloc, kind)?;
            Ok(goes_on(BlockStage::InBlock(true), draft))
        }
        _ => Ok(Err(ReadFaultKind::Declaration)),
    }
}

fn behind_type(
    alloc: Global,
    typing: Typing,
    draft: Draft,
    token: Token,
) -> Result<Move, AllocError>
    ensures { IfOk result (λ m. m ≡ behind_type_step typing draft token) }
{
    match token {
        Token::LineEnd => Ok(goes_on(BlockStage::BehindType(typing), draft)),
        Token::Open => match typing.kind {
            IlType::Bool => Ok(Err(ReadFaultKind::Declaration)),
            kind => Ok(goes_on(BlockStage::BehindOpen(kind), draft)),
        },
        _ => behind_range(alloc, typing, draft, token),
    }
}

fn behind_range(
    alloc: Global,
    typing: Typing,
    draft: Draft,
    token: Token,
) -> Result<Move, AllocError>
    ensures { IfOk result (λ m. m ≡ behind_range_step typing draft token) }
{
    match token {
        Token::LineEnd => Ok(goes_on(BlockStage::BehindRange(typing), draft)),
        Token::Assign => Ok(goes_on(BlockStage::BehindAssign(typing), draft)),
        Token::Semicolon => close(alloc, draft, typing),
        _ => Ok(Err(ReadFaultKind::Declaration)),
    }
}

fn behind_open(kind: IlType, token: Token) -> Result<BlockStage, ReadFaultKind>
    ensures { LeadsOn result (λ draft. behind_open_step kind draft token) }
{
    if let Token::LineEnd = token {
        return Ok(BlockStage::BehindOpen(kind));
    }
    match low_end(kind, token) {
        Some(typing) => Ok(BlockStage::BehindLow(typing)),
        None => Err(ReadFaultKind::Declaration),
    }
}

fn behind_low(typing: Typing, token: Token) -> Result<BlockStage, ReadFaultKind>
    ensures { LeadsOn result (λ draft. behind_low_step typing draft token) }
{
    match token {
        Token::LineEnd => Ok(BlockStage::BehindLow(typing)),
        Token::Dots => Ok(BlockStage::BehindDots(typing)),
        _ => Err(ReadFaultKind::Declaration),
    }
}

fn behind_dots(typing: Typing, token: Token) -> Result<BlockStage, ReadFaultKind>
    ensures { LeadsOn result (λ draft. behind_dots_step typing draft token) }
{
    if let Token::LineEnd = token {
        return Ok(BlockStage::BehindDots(typing));
    }
    match high_end(&typing, token) {
        Some(typing) => Ok(BlockStage::BehindHigh(typing)),
        None => Err(ReadFaultKind::Declaration),
    }
}

fn behind_high(typing: Typing, token: Token) -> Result<BlockStage, ReadFaultKind>
    ensures { LeadsOn result (λ draft. behind_high_step typing draft token) }
{
    match token {
        Token::LineEnd => Ok(BlockStage::BehindHigh(typing)),
        Token::Close => Ok(BlockStage::BehindRange(typing)),
        _ => Err(ReadFaultKind::Declaration),
    }
}

fn behind_assign(typing: Typing, token: Token) -> Result<BlockStage, ReadFaultKind>
    ensures { LeadsOn result (λ draft. behind_assign_step typing draft token) }
{
    if let Token::LineEnd = token {
        return Ok(BlockStage::BehindAssign(typing));
    }
    match start_value(&typing, token) {
        Some(typing) => Ok(BlockStage::BehindStart(typing)),
        None => Err(ReadFaultKind::Declaration),
    }
}

fn behind_start(
    alloc: Global,
    typing: Typing,
    draft: Draft,
    token: Token,
) -> Result<Move, AllocError>
    ensures { IfOk result (λ m. m ≡ behind_start_step typing draft token) }
{
    match token {
        Token::LineEnd => Ok(goes_on(BlockStage::BehindStart(typing), draft)),
        Token::Semicolon => close(alloc, draft, typing),
        _ => Ok(Err(ReadFaultKind::Declaration)),
    }
}

// The end of a declaration of variables.
fn close(alloc: Global, draft: Draft, typing: Typing) -> Result<Move, AllocError>
    ensures { IfOk result (λ m. m ≡ declares (BlockStage.InBlock false) (with_variables draft typing)) }
{
    let draft = draft.close(alloc, typing)?;
    Ok(goes_on(BlockStage::InBlock(false), draft))
}

// The subrange that begins with a literal.
fn low_end(kind: IlType, token: Token) -> Option<Typing>
    ensures { result ≡ made (begun kind) (value_of kind token) }
{
    let value = literal_value(kind, token)?;
    Typing::begun(kind, value)
}

// The subrange that ends with a literal.
fn high_end(typing: &Typing, token: Token) -> Option<Typing>
    ensures { result ≡ made (bounded typing.now) (value_of typing.now.kind token) }
{
    let value = literal_value(typing.kind, token)?;
    typing.bounded(value)
}

// The range with a literal as its start value.
fn start_value(typing: &Typing, token: Token) -> Option<Typing>
    ensures { result ≡ made (started typing.now) (value_of typing.now.kind token) }
{
    let value = literal_value(typing.kind, token)?;
    typing.started(value)
}

// What a literal of a declaration stands for.
fn literal_value(kind: IlType, token: Token) -> Option<i64>
    ensures { result ≡ value_of kind token }
{
    match kind {
        IlType::Bool => literal_truth(token),
        kind => literal_number(kind, token),
    }
}

fn literal_truth(token: Token) -> Option<i64>
    ensures { result ≡ truth_value token }
{
    match token {
        Token::Keyword(Keyword::Truth(true)) => Some(1),
        Token::Keyword(Keyword::Truth(false)) => Some(0),
        _ => None,
    }
}

fn literal_number(kind: IlType, token: Token) -> Option<i64>
    ensures { result ≡ whole_value kind token }
{
    match token {
        Token::Decimal(value) => Some(value),
        Token::Number(value) => Some(value),
        Token::Typed(other, value) if other == kind => Some(value),
        _ => None,
    }
}
