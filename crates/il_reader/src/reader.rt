//! From a text to a program's tree.
use crate::fault::{ReadFault, ReadFaultKind};
use crate::lexer::{Lexed, Mode};
use crate::place::{FaultPlace, Misfit, Tracer, refused, take};
use crate::spots::{Spots, is_turned};
use crate::state::{Move, State};
use crate::tree::Program;
use std::alloc::{AllocError, Global};

/// The most bytes of a text.
pub(crate) const MOST_BYTES: usize = 1_048_576;

/// How a text stands between two of its bytes.
pub(crate) struct Reader {
    /// The line of the next byte.
    pub line: u32,
    /// The line of the last byte, 1 before the first.
    pub last: u32,
    pub mode: Mode,
    pub state: State,
}

/// A call for whoever drops one: the proofs of the functions that own one needn't take it apart.
impl Drop for Reader {
    fn drop(self) {
        let Reader {
            line: _,
            last: _,
            mode: _,
            state: _,
        } = self;
    }
}

impl Reader {
    ghost use Rattle.std.specs.Prelude.{◌≡◌, ◌<◌, ◌^◌, IfErr, IfOk};
    ghost use Rattle.il_reader.specs.Reading.{answered, byte_fed, judged};
    ghost use Rattle.il_reader.specs.Tracing.{AreInOrder, IsPassed, IsThere, fault_or_reader};

    /// Reads one byte; the bytes after it tell what a name at fault is.
    fn feed(
        self,
        alloc: Global,
        byte: u8,
        behind: &[u8],
    ) -> Result<Result<Reader, ReadFault>, AllocError>
        requires { self.line < 2 ^ 31 }
        ensures { IfOk result (λ fed. fed ≡ byte_fed self byte behind.now) }
    {
        let Reader {
            line,
            last: _,
            mode,
            state,
        } = self;
        let lexed = match mode.feed(byte) {
            Ok(lexed) => lexed,
            Err(fault) => {
                let moved = state.step_if(alloc, fault.ended, line)?;
                let kind = leftmost(moved, fault.kind);
                return Ok(Err(ReadFault { line, kind }));
            }
        };
        let inside = state.is_at_inner_line();
        match state.take(alloc, &lexed, line)? {
            Ok(state) => Ok(Ok(Reader {
                line: line_after(byte, line),
                last: line,
                mode: lexed.mode,
                state,
            })),
            Err(kind) => Ok(Err(ReadFault {
                line,
                kind: fault_told(inside && lexed.is_label(behind), kind),
            })),
        }
    }

    /// Reads one byte, as `feed` does, and tells how far the text is read, or which bytes are at fault. Reading takes
    /// `feed`, which has less to do.
    pub(crate) fn trace(
        self,
        alloc: Global,
        byte: u8,
        behind: &[u8],
        spots: Spots,
    ) -> Result<Result<Tracer, FaultPlace>, AllocError>
        requires line { self.line < 2 ^ 31 }
        requires order { AreInOrder spots }
        requires few { spots.next < 2 ^ 31 }
        ensures fed { IfOk result (λ fed. fault_or_reader fed ≡ byte_fed self byte behind.now) }
        ensures passed { IfOk result (λ fed. IfOk fed (IsPassed byte (record { reader = self; spots = spots }))) }
        ensures placed { IfOk result (λ fed. IfErr fed (IsThere (record { reader = self; spots = spots }))) }
    {
        let Reader {
            line,
            last: _,
            mode,
            state,
        } = self;
        let turned = is_turned(&mode, byte);
        let lexed = match mode.feed(byte) {
            Ok(lexed) => lexed,
            Err(fault) => {
                let misfit = refused(alloc, state, fault, line, spots, byte)?;
                return Ok(Err(misfit.in_line(line)));
            }
        };
        let tokens = spots.tokens(turned, lexed.ended.is_some());
        let inside = state.is_at_inner_line();
        match take(alloc, state, &lexed, line, tokens)? {
            Ok(state) => Ok(Ok(Tracer {
                spots: spots.pass(byte, &lexed, tokens),
                reader: Reader {
                    line: line_after(byte, line),
                    last: line,
                    mode: lexed.mode,
                    state,
                },
            })),
            Err(misfit) => {
                let kind = fault_told(inside && lexed.is_label(behind), misfit.kind);
                let span = misfit.span;
                Ok(Err(Misfit { kind, span }.in_line(line)))
            }
        }
    }
    /// The answer at the end of the text.
    pub(crate) fn finish(self, alloc: Global) -> Result<Result<Program, ReadFault>, AllocError>
        ensures { IfOk result (λ answer. answer ≡ answered (judged (Ok self))) }
    {
        let Reader {
            line,
            last,
            mode,
            state,
        } = self;
        let early = state.end_fault();
        match mode.finish() {
            Ok(token) => {
                let moved = state.step_if(alloc, token, line)?;
                Ok(ended(moved, early, last))
            }
            Err(kind) => {
                let kind = half_token_fault(kind, early);
                Ok(Err(ReadFault { line: last, kind }))
            }
        }
    }
}

/// Reads the text of a program (IEC 61131-3 edition 2, 3.2): its tree, or the first line that is at
/// fault. Takes time linear in the text.
///
/// # Errors
/// A text of more than 1,048,576 bytes is TooLong in line 1. Else the line is the first with which the
/// text begins no program, and the kind that of its leftmost fault; a text that ends too soon is at
/// fault in the line of its last byte. OutOfMemory, with line 0, says nothing about the text.
pub fn read(alloc: Global, text: &str) -> Result<Program, ReadFault>
    ensures { IsAnswer text.now result }
{
    if text.len() > MOST_BYTES {
        return Err(ReadFault {
            line: 1,
            kind: ReadFaultKind::TooLong,
        });
    }
    let Ok(answer) = read_bytes(alloc, text.as_bytes()) else {
        return Err(ReadFault {
            line: 0,
            kind: ReadFaultKind::OutOfMemory,
        });
    };
    answer
}

ghost use Rattle.std.specs.Prelude.{◌≡◌, ◌≤◌, ◌<◌, ◌^◌, IfOk, length};
ghost use Rattle.il_reader.specs.Limit.{most_bytes};
ghost use Rattle.il_reader.specs.Reading.{IsAnswer, answered, end_reached, half_fault, leftmost, outcome, told};
ghost use Rattle.il_reader.specs.Tokens.{line_behind};

fn read_bytes(alloc: Global, text: &[u8]) -> Result<Result<Program, ReadFault>, AllocError>
    requires { length text.now ≤ most_bytes }
    ensures { IfOk result (λ answer. answer ≡ answered (outcome text.now)) }
{
    let mut reader = Reader {
        line: 1,
        last: 1,
        mode: Mode::Clear,
        state: State::Start,
    };
    let mut rest = text;
    while let [byte, after @ ..] = rest {
        match reader.feed(alloc, *byte, after)? {
            Ok(next) => reader = next,
            Err(fault) => return Ok(Err(fault)),
        }
        rest = after;
    }
    reader.finish(alloc)
}

// The answer after the last token of a text: its program, or why it has ended too soon.
fn ended(moved: Move, early: ReadFaultKind, line: u32) -> Result<Program, ReadFault>
    ensures { result ≡ answered (end_reached line early moved) }
{
    match moved {
        Ok(State::Over(program)) => Ok(program),
        Ok(state) => Err(ReadFault {
            line,
            kind: state.end_fault(),
        }),
        Err(_) => Err(ReadFault { line, kind: early }),
    }
}

// The fault of a text that ends in an open comment, or in a token that isn't whole.
fn half_token_fault(half: ReadFaultKind, early: ReadFaultKind) -> ReadFaultKind
    ensures { result ≡ half_fault half early }
{
    match half {
        ReadFaultKind::Word => ReadFaultKind::Word,
        _ => early,
    }
}

// Of two faults that of the token before the byte, where that can't stand.
fn leftmost(moved: Move, later: ReadFaultKind) -> ReadFaultKind
    ensures { result ≡ leftmost moved later }
{
    match moved {
        Ok(_) => later,
        Err(kind) => kind,
    }
}

// The kind of a fault: a label isn't allowed inside parentheses.
fn fault_told(inner_label: bool, kind: ReadFaultKind) -> ReadFaultKind
    ensures { result ≡ told inner_label kind }
{
    if inner_label {
        ReadFaultKind::Parenthesis
    } else {
        kind
    }
}

// The line after a byte.
fn line_after(byte: u8, line: u32) -> u32
    requires { line < 2 ^ 31 }
    ensures { result ≡ line_behind byte line }
{
    if byte == b'\n' { line + 1 } else { line }
}
