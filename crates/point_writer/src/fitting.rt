//! What goes out for a number that the program stored.
ghost use Rattle.std.specs.Prelude.{◌≤ℤ◌, List, ℕ, ℤ, IfNone, IfSome, Ok};
ghost use Rattle.point_types.specs.Encoding.{IsEncoding};
ghost use Rattle.point_writer.specs.Fitting.{GoesOut};
ghost use Rattle.point_writer.specs.Outgoing.{IsInPlace, IsOutgoing};

use crate::nearest::next_to;
use crate::plan::words_for;
use point_types::Unencodable;
use site_model::{SiteTag, Words};

/// A number, and the words that say it.
#[derive(Drop)]
pub(crate) struct SaidNumber {
    pub(crate) number: i64,
    pub(crate) words: Words,
}

/// The number that goes out for v by a factor: v itself where the tag's point can say it, else by the tag's key `fit` the next one
/// that it can say in the tag's range (SunSpec Device Information Model Specification, points and scale factors). None: none
/// goes out, or v lies outside the tag's range.
pub fn number_out(tag: &SiteTag, v: i64, factor: Option<i16>) -> Option<i64>
    ensures out { IfSome result (λ n. GoesOut tag.now factor v n) }
    ensures none { IfNone result (tag.now.low ≤ℤ v → v ≤ℤ tag.now.high → (n : ℤ) → GoesOut tag.now factor v n → ⊥) }
{
    if v < tag.low || tag.high < v {
        return None;
    }
    match outgoing(tag, v, factor) {
        Ok(out) => Some(out.number),
        Err(_) => None,
    }
}

/// The number itself where the point can say it by this factor, else by the tag's key `fit` the next one that it can say in the
/// tag's range.
pub(crate) fn outgoing(
    tag: &SiteTag,
    v: i64,
    factor: Option<i16>,
) -> Result<SaidNumber, Unencodable>
    requires low { tag.now.low ≤ℤ v }
    requires high { v ≤ℤ tag.now.high }
    ensures { IsOutgoing tag.now factor v result }
{
    match words_for(tag.point, v, tag.exponent, factor) {
        Ok(words) => Ok(SaidNumber { number: v, words }),
        Err(cause) => in_place(tag, v, factor).ok_or(cause),
    }
}

/// What goes out in place of a number that has no words.
fn in_place(tag: &SiteTag, v: i64, factor: Option<i16>) -> Option<SaidNumber>
    requires low { tag.now.low ≤ℤ v }
    requires high { v ≤ℤ tag.now.high }
    requires unsaid { (words : List ℕ) → IsEncoding tag.now.point v tag.now.exponent factor (Ok words) → ⊥ }
    ensures { IsInPlace tag.now factor v result }
{
    let number = next_to(tag, v, factor)?;
    match words_for(tag.point, number, tag.exponent, factor) {
        Ok(words) => Some(SaidNumber { number, words }),
        Err(_) => None,
    }
}
