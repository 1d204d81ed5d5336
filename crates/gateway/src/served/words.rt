//! The words of one point of the gateway's own map.
ghost use Rattle.std.specs.Prelude.{◌≡◌, ◌≤◌, ◌≢◌, ◌≤ℤ◌, ℕ, List, length, IfSome, MatchOption};
ghost use Rattle.std.specs.Bool.{OnFalse, OnTrue};
ghost use Rattle.modbus_frame.specs.Bytes.{number};
ghost use Rattle.point_types.specs.Encoding.{IsEncoding};
ghost use Rattle.point_types.specs.Point.{size_of};
ghost use Rattle.point_types.specs.Reading.{IsExponent};
ghost use Rattle.gateway.specs.served.Points.{registers_of};
ghost use Rattle.gateway.specs.event_core.Restoring.{AreRead};
ghost use Rattle.gateway.specs.served.ServedImage.{ArePointWords, AreWordsOf, ReadsAs, behind_word, first_word, text_from, text_given, text_words, unimplemented};

use crate::event_core::Memory;
use crate::served::amount::{Amount, amount_from};
use crate::served::point::OwnPoint;
use point_types::Kind;
use point_writer::plan::words_for;
use site_model::{Served, Site, SiteTag, Source as Given, Words};

impl OwnPoint {
    /// How many registers it has.
    pub fn registers(self) -> usize
        ensures { result ≡ registers_of self }
    {
        match self {
            OwnPoint::Word(_) => 1,
            OwnPoint::Text { size, .. } => usize::from(size),
            OwnPoint::Number { kind, .. } => size_of(kind),
        }
    }
}

/// The registers of a kind; a string counts as one here.
fn size_of(kind: Kind) -> usize
    ensures { result ≡ size_of kind }
{
    if kind == Kind::String {
        return 1;
    }
    kind.size()
}

/// Puts what a point reads into its registers.
pub(crate) fn put_point(point: OwnPoint, site: &Site, known: &Memory, into: &mut [u16])
    requires { length into.old ≡ registers_of point }
    ensures words { ArePointWords site.now known.now.outputs.items known.now.readings.items known.now.sets.items point into.new }
    ensures len { length into.new ≡ registers_of point }
{
    match point {
        OwnPoint::Word(word) => into.copy_from_slice(&[word]),
        OwnPoint::Text { entry, .. } => put_text(text_from(site.served(), entry), into),
        OwnPoint::Number {
            kind,
            factor,
            source,
        } => {
            let words = number_words(kind, amount_from(site, known, factor, source));
            into.copy_from_slice(words.as_slice());
        }
    }
}

/// The words of a kind that read as a value; unimplemented where there is no value, or no words read as it.
fn number_words(kind: Kind, amount: Option<Amount>) -> Words
    requires { IfSome amount (λ a. IsExponent a.exponent) }
    ensures words { AreWordsOf kind amount result }
    ensures len { length result ≡ size_of kind }
{
    let Some(amount) = amount else {
        return unimplemented(kind);
    };
    match encoded(kind, amount) {
        Some(words) => words,
        None => unimplemented(kind),
    }
}

fn encoded(kind: Kind, amount: Amount) -> Option<Words>
    requires { IsExponent amount.exponent }
    ensures { MatchOption result ((ws : List ℕ) → ReadsAs kind amount ws → ⊥) (ReadsAs kind amount) }
{
    if kind == Kind::String {
        return None;
    }
    match words_for(kind, amount.number, amount.exponent, amount.factor) {
        Ok(words) => Some(words),
        Err(_) => None,
    }
}

/// The words of a point that read as a number of a tag, exactly and in its range, by the served factor.
pub(crate) fn words_to_read(point: OwnPoint, tag: &SiteTag, number: i64) -> Option<Words>
    ensures { MatchOption result ((ws : List ℕ) → AreRead point tag.now number ws → ⊥) (AreRead point tag.now number) }
{
    if !is_in_range(tag, number) {
        return None;
    }
    match point {
        OwnPoint::Number { kind, factor, .. } => encoded(
            kind,
            Amount {
                number,
                exponent: tag.exponent,
                factor,
            },
        ),
        OwnPoint::Word(_) | OwnPoint::Text { .. } => None,
    }
}

fn is_in_range(tag: &SiteTag, number: i64) -> bool
    ensures inside { OnTrue result ((tag.now.low ≤ℤ number) × (number ≤ℤ tag.now.high)) }
    ensures outside { OnFalse result ((tag.now.low ≤ℤ number) × (number ≤ℤ tag.now.high) → ⊥) }
{
    tag.low <= number && number <= tag.high
}

/// The unimplemented words of a kind (SunSpec Device Information Model Specification, the table of types).
fn unimplemented(kind: Kind) -> Words
    ensures value { result ≡ unimplemented kind }
    ensures len { length result ≡ size_of kind }
{
    match Words::from_slice(unimplemented_words(kind)) {
        Some(words) => words,
        None => Words::new(),
    }
}

fn unimplemented_words(kind: Kind) -> &'static [u16]
    ensures value { result.now ≡ unimplemented kind }
    ensures len { length result.now ≡ size_of kind }
    ensures few { length result.now ≤ 4 }
{
    match kind {
        Kind::Int16 | Kind::Sunssf | Kind::Pad => &[0x8000],
        Kind::Uint16 | Kind::Enum16 | Kind::Bitfield16 => &[0xFFFF],
        Kind::Acc16 | Kind::String => &[0],
        Kind::Int32 => &[0x8000, 0],
        Kind::Uint32 | Kind::Enum32 | Kind::Bitfield32 => &[0xFFFF, 0xFFFF],
        Kind::Acc32 => &[0, 0],
        Kind::Int64 => &[0x8000, 0, 0, 0],
        Kind::Uint64 => &[0xFFFF, 0xFFFF, 0xFFFF, 0xFFFF],
        Kind::Acc64 => &[0, 0, 0, 0],
    }
}

/// The text that an entry of the site file gives; none is empty.
fn text_from(served: &[Served], entry: Option<usize>) -> &[u8]
    ensures { result.now ≡ text_from served.now entry }
{
    let Some(n) = entry else {
        return &[];
    };
    match served.get(n) {
        Some(entry) => text_given(&entry.source),
        None => &[],
    }
}

fn text_given(given: &Given) -> &[u8]
    ensures { result.now ≡ text_given given.now }
{
    match given {
        Given::Text(text) => text.as_str().as_bytes(),
        Given::Raw(_) | Given::Sum(_) | Given::PartialSum(_) => &[],
    }
}

/// Puts a text into registers, two bytes each, and zeros after it.
fn put_text(text: &[u8], into: &mut [u16])
    ensures { into.new ≡ text_words (length into.old) text.now }
{
    let mut rest = text;
    for word in into.iter_mut() {
        *word = first_word(rest);
        rest = behind_word(rest);
    }
}

/// The first two bytes of a text in a register.
fn first_word(text: &[u8]) -> u16
    ensures { result ≡ first_word text.now }
{
    match text {
        [] => 0,
        [a] => u16::from_be_bytes([*a, 0]),
        [a, b, ..] => u16::from_be_bytes([*a, *b]),
    }
}

fn behind_word(text: &[u8]) -> &[u8]
    ensures { result.now ≡ behind_word text.now }
{
    match text {
        [_, _, rest @ ..] => rest,
        _ => &[],
    }
}
