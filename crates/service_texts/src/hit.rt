//! What a write that is refused was for.
ghost use Rattle.std.specs.Prelude.{◌≡◌, ℤ, length, IfSome, IsTrue, false};
ghost use Rattle.service_texts.specs.Hitting.{Hits, HitsAt, IsPart, IsPlaced, LiesIn, asked_by};
ghost use Rattle.site_model.specs.declared.tag.SiteTag.{SiteTag as Tag};

use crate::number::number_at;
use gateway::{Core, DEPTH};
use modbus_frame::{Request, Words};
use site_model::{Access, SiteTag};

/// The exception by which a number out of its tag's range is refused, or one that isn't exact.
const BAD_VALUE: u8 = 3;

/// What a write that was refused would have set.
#[derive(Clone, Copy)]
pub struct RefusedNumber {
    /// The number of the tag.
    pub tag: usize,
    /// What it would have been, in the unit of its exponent, where its registers hold a number.
    pub number: Option<i64>,
}

/// RegisterSpan side by side that are to hold these words.
#[derive(Drop)]
pub struct Written {
    pub first: u16,
    pub words: Words,
}

/// So many registers side by side.
#[derive(Clone, Copy)]
pub struct RegisterSpan {
    pub first: u16,
    pub count: usize,
}

/// The first `set` tag all of whose registers a request writes, and what it would have been set to; where a value was refused,
/// of those that can't be set so.
pub fn refused_number(core: &Core<DEPTH>, request: &Request, exception: u8) -> Option<RefusedNumber>
    ensures { IfSome result (Hits core.now.site request.now exception) }
{
    let asked = asked_by(request)?;
    hit_by(core, &asked, exception)
}

fn hit_by(core: &Core<DEPTH>, asked: &Written, exception: u8) -> Option<RefusedNumber>
    ensures { IfSome result (HitsAt core.now.site asked.now exception) }
{
    for tag in 0..core.site().tags().len() {
        if let Some(hit) = hit_at(core, tag, asked, exception) {
            return Some(hit);
        }
    }
    None
}

/// What a request would have set a tag to, where it writes all registers of it.
fn hit_at(core: &Core<DEPTH>, tag: usize, asked: &Written, exception: u8) -> Option<RefusedNumber>
    ensures { IfSome result (HitsAt core.now.site asked.now exception) }
{
    let own = core.site().tags().get(tag)?;
    let registers = registers_of(core, tag, own)?;
    let held = part(asked, registers)?;
    let number = number_at(core.site(), own, held);
    if is_wrong(own, number, exception) {
        Some(RefusedNumber { tag, number })
    } else {
        None
    }
}

/// The registers that a request writes, and what they are to hold.
fn asked_by(request: &Request) -> Option<Written>
    ensures { result ≡ asked_by request.now }
{
    match request {
        Request::Read { .. } => None,
        Request::WriteOne { addr, value } => Some(Written {
            first: *addr,
            words: Words::from_slice(&[*value])?,
        }),
        Request::WriteMany { addr, words } => Some(Written {
            first: *addr,
            words: Words::from_slice(words.as_slice())?,
        }),
    }
}

/// The registers of a `set` tag, by a request that sets it alone: to its least number, or to its greatest.
fn registers_of(core: &Core<DEPTH>, tag: usize, own: &SiteTag) -> Option<RegisterSpan>
    ensures { IfSome result (IsPlaced core.now.site tag) }
{
    if own.access != Access::Setting {
        return None;
    }
    match placed_by(core, tag, own.low) {
        Some(registers) => Some(registers),
        None => placed_by(core, tag, own.high),
    }
}

fn placed_by(core: &Core<DEPTH>, tag: usize, number: i64) -> Option<RegisterSpan>
    ensures { IfSome result (IsPlaced core.now.site tag) }
{
    let alone = core.request_to_set(tag, number)?;
    let asked = asked_by(&alone)?;
    Some(RegisterSpan {
        first: asked.first,
        count: asked.words.as_slice().len(),
    })
}

/// What registers are to hold, where all of them are written.
fn part(asked: &Written, registers: RegisterSpan) -> Option<&[u16]>
    ensures { IfSome result (λ held. IsPart asked.now registers held.now) }
{
    let skipped = usize::from(registers.first.checked_sub(asked.first)?);
    let (_, rest) = asked.words.as_slice().split_at_checked(skipped)?;
    let (held, _) = rest.split_at_checked(registers.count)?;
    Some(held)
}

/// Whether a number is refused by an exception.
fn is_wrong(tag: &SiteTag, number: Option<i64>, exception: u8) -> bool
    ensures { IsTrue result → exception ≡ 3 → IfSome number (λ n. LiesIn tag.now n → ⊥) }
{
    exception != BAD_VALUE || !is_in_range(tag, number)
}

fn is_in_range(tag: &SiteTag, number: Option<i64>) -> bool
    ensures { result ≡ false → IfSome number (λ n. LiesIn tag.now n → ⊥) }
{
    match number {
        Some(number) => tag.low <= number && number <= tag.high,
        None => false,
    }
}
