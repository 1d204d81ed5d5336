//! What the reader expects next.
ghost use Rattle.std.specs.Prelude.{◌≡◌, IfOk, Ok, None};
ghost use Rattle.il_reader.specs.Drafting.{declares};
ghost use Rattle.il_reader.specs.Instructions.{StopsOn, at_instruction_step, at_line_step, behind_label_step, between_step, line_step, whole_step};
ghost use Rattle.il_reader.specs.Reading.{braced, early, is_at_inner_line, is_brace, over_step, start_step, state_step, step, stepped, taken, titled_step, with_fault, within_step};

use crate::draft::{Draft, Head};
use crate::fault::ReadFaultKind;
use crate::instructing::begin;
use crate::lexer::Lexed;
use crate::nest::Nest;
use crate::nesting::begin_inside;
use crate::stage::{BlockStage, Stage};
use crate::token::{Keyword, Token};
use crate::tree::Program;
use point_types::Name;
use std::alloc::{AllocError, Global};

/// Where a text stands, with what has been read.
#[derive(Drop)]
pub(crate) enum State {
    /// Before PROGRAM.
    Start,
    /// After PROGRAM.
    Titled,
    Within(Stage, Draft),
    /// After END_PROGRAM.
    Over(Program),
}

/// The next state, or why the token can't follow.
pub(crate) type Move = Result<State, ReadFaultKind>;

impl State {
    /// Reads the tokens that a byte of this line has made.
    pub fn take(self, alloc: Global, lexed: &Lexed, line: u32) -> Result<Move, AllocError>
        ensures { IfOk result (λ m. m ≡ taken self lexed.now line) }
    {
        match self.step_if(alloc, lexed.ended, line)? {
            Ok(state) => state.step_if(alloc, lexed.own, line),
            Err(kind) => Ok(Err(kind)),
        }
    }

    /// Reads a token, where there is one.
    pub(crate) fn step_if(
        self,
        alloc: Global,
        token: Option<Token>,
        line: u32,
    ) -> Result<Move, AllocError>
        ensures { IfOk result (λ m. m ≡ stepped self token line) }
    {
        match token {
            Some(token) => self.step(alloc, token, line),
            None => Ok(Ok(self)),
        }
    }

    /// Whether this is the beginning of a line inside parentheses.
    pub(crate) fn is_at_inner_line(&self) -> bool
        ensures { result ≡ is_at_inner_line self.now }
    {
        match self {
            State::Within(stage, _) => stage.is_inner_line(),
            _ => false,
        }
    }

    /// Whether this is after a name at the beginning of a line of the body.
    pub(crate) fn is_behind_name(&self) -> bool {
        match self {
            State::Within(Stage::BehindLabel(_, _), _) => true,
            _ => false,
        }
    }

    /// Why a text that ends here has ended too soon.
    pub(crate) fn end_fault(&self) -> ReadFaultKind
        ensures { result ≡ early self.now }
    {
        match self {
            State::Within(stage, _) => stage.end_fault(),
            _ => ReadFaultKind::Header,
        }
    }

    fn step(self, alloc: Global, token: Token, line: u32) -> Result<Move, AllocError>
        ensures { IfOk result (λ m. m ≡ step self token line) }
    {
        let brace = is_brace_token(&token);
        match self.step_plain(alloc, token, line)? {
            Ok(state) => Ok(Ok(state)),
            Err(kind) => Ok(Err(fault_at(brace, kind))),
        }
    }

    fn step_plain(self, alloc: Global, token: Token, line: u32) -> Result<Move, AllocError>
        ensures { IfOk result (λ m. m ≡ state_step self token line) }
    {
        match self {
            State::Start => Ok(at_start(token)),
            State::Titled => Ok(behind_program(alloc, token)),
            State::Within(stage, draft) => step_within(alloc, stage, draft, token, line),
            State::Over(program) => Ok(behind_end(program, token)),
        }
    }
}

fn is_brace_token(token: &Token) -> bool
    ensures { result ≡ is_brace token.now }
{
    match token {
        Token::OpenBrace | Token::CloseBrace => true,
        _ => false,
    }
}

// A brace that can't follow is no word of the language.
fn fault_at(brace: bool, kind: ReadFaultKind) -> ReadFaultKind
    ensures { result ≡ braced brace kind }
{
    if brace { ReadFaultKind::Word } else { kind }
}

fn at_start(token: Token) -> Move
    ensures { result ≡ start_step token }
{
    match token {
        Token::LineEnd => Ok(State::Start),
        Token::Keyword(Keyword::Program) => Ok(State::Titled),
        _ => Err(ReadFaultKind::Header),
    }
}

fn behind_program(alloc: Global, token: Token) -> Move
    ensures { result ≡ titled_step token }
{
    match token {
        Token::LineEnd => Ok(State::Titled),
        Token::Name(name) => Ok(State::Within(Stage::BetweenBlocks, Draft::titled(alloc, name))),
        _ => Err(ReadFaultKind::Header),
    }
}

fn behind_end(program: Program, token: Token) -> Move
    ensures { result ≡ over_step program token }
{
    match token {
        Token::LineEnd => Ok(State::Over(program)),
        _ => Err(ReadFaultKind::Header),
    }
}

fn step_within(
    alloc: Global,
    stage: Stage,
    draft: Draft,
    token: Token,
    line: u32,
) -> Result<Move, AllocError>
    ensures { IfOk result (λ m. m ≡ within_step stage draft token line) }
{
    match stage {
        Stage::BetweenBlocks => between_blocks(alloc, draft, token, line),
        Stage::Block(stage) => stage.step(alloc, draft, token, line),
        Stage::AtLine(nest) => at_line_in(alloc, nest, draft, token, line),
        Stage::BehindLabel(first, name) => behind_label(first, name, draft, token),
        Stage::AtInstruction(head) => at_instruction(alloc, head, draft, token),
        Stage::Part(nest, head, part) => part.step(alloc, nest, head, draft, token),
        Stage::BehindInstruction(nest) => Ok(behind_instruction(nest, draft, token)),
    }
}

fn between_blocks(alloc: Global, draft: Draft, token: Token, line: u32) -> Result<Move, AllocError>
    ensures { IfOk result (λ m. m ≡ between_step draft token line) }
{
    match token {
        Token::LineEnd => Ok(Ok(State::Within(Stage::BetweenBlocks, draft))),
        Token::Keyword(Keyword::Var) => Ok(Ok(begin_block(false, draft))),
        Token::Keyword(Keyword::VarExternal) => Ok(Ok(begin_block(true, draft))),
        _ => at_line(alloc, draft, token, line),
    }
}

fn begin_block(external: bool, draft: Draft) -> State
    ensures { Ok result ≡ declares (BlockStage.InBlock external) draft }
{
    State::Within(Stage::Block(BlockStage::InBlock(external)), draft)
}

// At the beginning of a line, of the body or inside parentheses.
fn at_line_in(
    alloc: Global,
    nest: Nest,
    draft: Draft,
    token: Token,
    line: u32,
) -> Result<Move, AllocError>
    ensures { IfOk result (λ m. m ≡ at_line_step nest draft token line) }
{
    let (inmost, outer) = nest.part();
    match inmost {
        Some(parenthesis) => begin_inside(parenthesis, outer, draft, token, line),
        None => at_line(alloc, draft, token, line),
    }
}

fn at_line(alloc: Global, draft: Draft, token: Token, line: u32) -> Result<Move, AllocError>
    ensures { IfOk result (λ m. m ≡ line_step draft token line) }
{
    if let Token::Name(name) = token {
        return Ok(at_label(draft, line, name));
    }
    match token {
        Token::LineEnd => Ok(Ok(State::Within(Stage::AtLine(Nest::new(alloc)), draft))),
        Token::Keyword(Keyword::EndProgram) => Ok(Ok(State::Over(draft.finish(line)))),
        _ => begin(alloc, draft, Head { line, label: None }, token),
    }
}

// A name at a line's beginning is a label.
fn at_label(draft: Draft, line: u32, name: Name) -> Move
    ensures { result ≡ line_step draft (Token.Name name) line }
{
    if draft.has_label(&name) {
        Err(ReadFaultKind::Duplicate)
    } else {
        Ok(State::Within(Stage::BehindLabel(line, name), draft))
    }
}

fn behind_label(line: u32, name: Name, draft: Draft, token: Token) -> Result<Move, AllocError>
    ensures { IfOk result (λ m. m ≡ behind_label_step line name draft token) }
{
    match token {
        Token::Colon => {
            let draft = draft.label(name)?;
            let head = Head {
                line,
                label: Some(name),
            };
            Ok(Ok(State::Within(Stage::AtInstruction(head), draft)))
        }
        _ => Ok(Err(ReadFaultKind::Operator)),
    }
}

fn at_instruction(alloc: Global, head: Head, draft: Draft, token: Token) -> Result<Move, AllocError>
    ensures { IfOk result (λ m. m ≡ at_instruction_step head draft token) }
{
    match token {
        Token::LineEnd => {
            let draft = draft.add(head, None)?;
            Ok(Ok(State::Within(Stage::AtLine(Nest::new(alloc)), draft)))
        }
        _ => begin(alloc, draft, head, token),
    }
}

fn behind_instruction(nest: Nest, draft: Draft, token: Token) -> Move
    ensures { result ≡ whole_step nest draft token }
{
    match fault_behind(&nest, token) {
        None => Ok(State::Within(Stage::AtLine(nest), draft)),
        Some(kind) => Err(kind),
    }
}

// Why a token can't follow a whole instruction, where it can't.
fn fault_behind(nest: &Nest, token: Token) -> Option<ReadFaultKind>
    ensures { StopsOn nest.now result (λ draft. whole_step nest.now draft token) }
{
    match token {
        Token::LineEnd => None,
        Token::Close => Some(nest.close_fault()),
        _ => Some(ReadFaultKind::Operand),
    }
}
