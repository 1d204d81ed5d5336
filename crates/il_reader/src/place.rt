//! Where a text is at fault.
use crate::fault::{ReadFault, ReadFaultKind};
use crate::lexer::{ByteFault, Lexed, Mode};
use crate::reader::{MOST_BYTES, Reader};
use crate::spots::{Span, Spots, Tokens};
use crate::state::State;
use crate::token::Token;
use std::alloc::{AllocError, Global};

/// Why a text is no program, and the bytes of it that are at fault: those from the number `at`, counted from 0, to
/// the one before `behind`.
#[derive(Clone, Copy, PartialEq, Eq, Debug)]
pub struct FaultPlace {
    pub fault: ReadFault,
    pub at: usize,
    pub behind: usize,
}

/// Where a text is at fault; None where it is a program. The refusal is the one that `read` gives. At fault is
/// - the token that can't stand, from its first byte to its last one: a line end where something is missing before
///   it, and in place of the token after it a name that stands where an operator must;
/// - of bytes that make no token what has been met of it, as `12a` of `12abc`, or the one byte that begins none;
/// - of a text that ends too soon its last byte.
///
/// No byte is at fault, and both numbers are 0, in an empty text, in one of more than 1,048,576 bytes, and where memory
/// was refused.
pub fn fault_at(alloc: Global, text: &str) -> Option<FaultPlace>
    ensures refused { IfSome result (λ place. IsAnswer text.now (Err place.fault)) }
    ensures placed { IfSome result (λ place. place.fault.kind ≢ fault.OutOfMemory → IsInItsLine text.now place) }
    ensures read { IfNone result (IsRead text.now) }
{
    if text.len() > MOST_BYTES {
        return Some(nowhere(1, ReadFaultKind::TooLong));
    }
    match find(alloc, text.as_bytes()) {
        Ok(found) => found,
        Err(AllocError) => Some(nowhere(0, ReadFaultKind::OutOfMemory)),
    }
}

ghost use Rattle.std.specs.Prelude.{◌≡◌, ◌≢◌, ◌-◌, ◌≤◌, ◌<◌, ◌^◌, ◌⊎◌, length, Err, Ok, IfErr, IfNone, IfOk, IfSome};
ghost use Rattle.il_reader.specs.declared.fault.ReadFaultKind.TheVariants as fault;
ghost use Rattle.il_reader.specs.Limit.{most_bytes};
ghost use Rattle.il_reader.specs.Places.{IsInItsLine, IsRead};
ghost use Rattle.il_reader.specs.Reading.{IsAnswer, answered, byte_fed, judged, leftmost, outcome, stepped, taken};
ghost use Rattle.il_reader.specs.Tracing.{AreInOrder, IsCovered, IsFound, IsPassed, IsThere, fault_or_reader, move_of};

/// A refusal for which no byte is at fault.
fn nowhere(line: u32, kind: ReadFaultKind) -> FaultPlace
    ensures { result ≡ record { fault = record { line = line; kind = kind }; at = 0; behind = 0 } }
{
    FaultPlace {
        fault: ReadFault { line, kind },
        at: 0,
        behind: 0,
    }
}

fn find(alloc: Global, text: &[u8]) -> Result<Option<FaultPlace>, AllocError>
    requires { length text.now ≤ most_bytes }
    ensures told { IfOk result (λ found. IsFound found (answered (outcome text.now))) }
    ensures placed { IfOk result (λ found. IfSome found (IsInItsLine text.now)) }
{
    let mut tracer = Tracer {
        reader: Reader {
            line: 1,
            last: 1,
            mode: Mode::Clear,
            state: State::Start,
        },
        spots: Spots::opening(),
    };
    let mut rest = text;
    while let [byte, after @ ..] = rest {
        match tracer.feed(alloc, *byte, after)? {
            Ok(next) => tracer = next,
            Err(place) => return Ok(Some(place)),
        }
        rest = after;
    }
    tracer.finish(alloc)
}

/// A reader, and how far it has come.
pub(crate) struct Tracer {
    pub reader: Reader,
    pub spots: Spots,
}

impl Tracer {
    /// Reads one byte; the bytes after it tell what a name at fault is.
    fn feed(
        self,
        alloc: Global,
        byte: u8,
        behind: &[u8],
    ) -> Result<Result<Tracer, FaultPlace>, AllocError>
        requires line { self.reader.line < 2 ^ 31 }
        requires order { AreInOrder self.spots }
        requires few { self.spots.next < 2 ^ 31 }
        ensures fed { IfOk result (λ fed. fault_or_reader fed ≡ byte_fed self.reader byte behind.now) }
        ensures passed { IfOk result (λ fed. IfOk fed (IsPassed byte self)) }
        ensures placed { IfOk result (λ fed. IfErr fed (IsThere self)) }
    {
        let Tracer { reader, spots } = self;
        reader.trace(alloc, byte, behind, spots)
    }

    /// The answer at the end of the text.
    fn finish(self, alloc: Global) -> Result<Option<FaultPlace>, AllocError>
        ensures told { IfOk result (λ found. IsFound found (answered (judged (Ok self.reader)))) }
        ensures placed { IfOk result (λ found. IfSome found (λ place. (place.at ≡ self.spots.next - 1) × (place.behind ≡ self.spots.next))) }
    {
        let Tracer { reader, spots } = self;
        match reader.finish(alloc)? {
            Ok(_) => Ok(None),
            Err(fault) => Ok(Some(FaultPlace {
                fault,
                at: spots.next.saturating_sub(1),
                behind: spots.next,
            })),
        }
    }
}

/// Why a token can't follow, and the bytes that are at fault.
#[derive(Clone, Copy)]
pub(crate) struct Misfit {
    pub kind: ReadFaultKind,
    pub span: Span,
}

impl Misfit {
    pub(crate) fn in_line(self, line: u32) -> FaultPlace
        ensures { result ≡ record { fault = record { line = line; kind = self.kind }; at = self.span.at; behind = self.span.behind } }
    {
        FaultPlace {
            fault: ReadFault {
                line,
                kind: self.kind,
            },
            at: self.span.at,
            behind: self.span.behind,
        }
    }
}

/// Why a byte is refused that can't follow: the token that it has ended, where that can't stand, comes before it.
pub(crate) fn refused(
    alloc: Global,
    state: State,
    fault: ByteFault,
    line: u32,
    spots: Spots,
    byte: u8,
) -> Result<Misfit, AllocError>
    requires order { AreInOrder spots }
    requires few { spots.next < 2 ^ 31 }
    ensures told { IfOk result (λ misfit. misfit.kind ≡ leftmost (stepped state fault.ended line) fault.kind) }
    ensures placed { IfOk result (λ misfit. IsCovered spots misfit.span) }
{
    let ended = fault.ended.is_some();
    let tokens = spots.tokens(false, ended);
    match step(alloc, state, fault.ended, line, tokens.ended, tokens.before)? {
        Err(misfit) => Ok(misfit),
        Ok(_) => Ok(Misfit {
            kind: fault.kind,
            span: if ended { tokens.own } else { spots.stuck(byte) },
        }),
    }
}

/// Reads the tokens that a byte of this line has made.
pub(crate) fn take(
    alloc: Global,
    state: State,
    lexed: &Lexed,
    line: u32,
    tokens: Tokens,
) -> Result<Result<State, Misfit>, AllocError>
    ensures told { IfOk result (λ m. move_of m ≡ taken state lexed.now line) }
    ensures placed { IfOk result (λ m. IfErr m (λ misfit. (misfit.span ≡ tokens.before) ⊎ ((misfit.span ≡ tokens.ended) ⊎ (misfit.span ≡ tokens.own)))) }
{
    match step(alloc, state, lexed.ended, line, tokens.ended, tokens.before)? {
        Ok(state) => step(alloc, state, lexed.own, line, tokens.own, tokens.ended),
        Err(misfit) => Ok(Err(misfit)),
    }
}

/// Reads a token, where there is one, which stands at these bytes after another token.
fn step(
    alloc: Global,
    state: State,
    token: Option<Token>,
    line: u32,
    span: Span,
    before: Span,
) -> Result<Result<State, Misfit>, AllocError>
    ensures told { IfOk result (λ m. move_of m ≡ stepped state token line) }
    ensures placed { IfOk result (λ m. IfErr m (λ misfit. (misfit.span ≡ before) ⊎ (misfit.span ≡ span))) }
{
    // a name that no colon follows stands where an operator must
    let named = state.is_behind_name() && before.at < before.behind;
    match state.step_if(alloc, token, line)? {
        Ok(state) => Ok(Ok(state)),
        Err(kind) => Ok(Err(Misfit {
            kind,
            span: if named { before } else { span },
        })),
    }
}
