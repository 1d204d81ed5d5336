//! The numbers next to one that a point can't say.
ghost use Rattle.std.specs.Prelude.{◌≡◌, ◌≤ℤ◌, ◌<ℤ◌, ◌^◌, pos, neg_ℤ};
ghost use Rattle.point_types.specs.Reading.{IsExponent};
ghost use Rattle.point_writer.specs.Nearest.{IsAbove, IsBelow, IsBoundFor, IsNext, IsRawFor};

use point_types::{Rescaled, rescale, scale_factor};
use site_model::{Fit, SiteTag, raw_range};

/// The number next to v that a tag's point can say, in the direction of its key `fit`.
pub(crate) fn next_to(tag: &SiteTag, v: i64, factor: Option<i16>) -> Option<i64>
    requires low { tag.now.low ≤ℤ v }
    requires high { v ≤ℤ tag.now.high }
    ensures { IsNext tag.now.fit tag.now factor v result }
{
    match tag.fit {
        Fit::Exact => None,
        Fit::Down => next_below(tag, v, factor),
        Fit::Up => next_above(tag, v, factor),
    }
}

/// The greatest number at or below v that a tag's point can say, in the tag's range, by a factor; any number below v where it
/// can say none of them. None: it can say none.
fn next_below(tag: &SiteTag, v: i64, factor: Option<i16>) -> Option<i64>
    requires { v ≤ℤ tag.now.high }
    ensures { IsBelow tag.now factor v result }
{
    let scale = scale_factor(factor)?;
    let (least, most) = raw_range(tag.point)?;
    let number = bound_below(i128::from(v), tag.exponent, scale, least, most)?;
    if number < i128::from(tag.low) {
        return None;
    }
    Some(number as i64)
}

/// The same of the least number at or above v: with all signs turned it is the greatest one below.
fn next_above(tag: &SiteTag, v: i64, factor: Option<i16>) -> Option<i64>
    requires { tag.now.low ≤ℤ v }
    ensures { IsAbove tag.now factor v result }
{
    let scale = scale_factor(factor)?;
    let (least, most) = raw_range(tag.point)?;
    let number = bound_below(-i128::from(v), tag.exponent, scale, -most, -least)?;
    if number < -i128::from(tag.high) {
        return None;
    }
    Some((-number) as i64)
}

/// The greatest number at or below v that raw numbers from `least` to `most` say by a factor, in units of 10^exponent; any number
/// below v where they say none of them. None where it lies below all numbers of 64 bits.
fn bound_below(v: i128, exponent: i8, factor: i8, least: i128, most: i128) -> Option<i128>
    requires exponent { IsExponent exponent }
    requires factor { IsExponent factor }
    requires short { v ≤ℤ pos (2 ^ 64) }
    requires low { neg_ℤ (pos (2 ^ 64)) ≤ℤ least }
    requires high { most ≤ℤ pos (2 ^ 64) }
    ensures { IsBoundFor v exponent factor least most result }
{
    let raw = raw_below(v, exponent, factor, most)?;
    if raw < least {
        return None;
    }
    match rescale(raw, factor, exponent) {
        Rescaled::Whole(number) => Some(number),
        Rescaled::Between(number) => Some(number),
        Rescaled::Beyond => None,
    }
}

/// The greatest raw number, `most` at most, whose value by a factor isn't above `v * 10^exponent`; None where it lies below all
/// raw numbers.
fn raw_below(v: i128, exponent: i8, factor: i8, most: i128) -> Option<i128>
    requires exponent { IsExponent exponent }
    requires factor { IsExponent factor }
    requires high { most ≤ℤ pos (2 ^ 64) }
    ensures { IsRawFor v exponent factor most result }
{
    match rescale(v, exponent, factor) {
        Rescaled::Whole(raw) => Some(capped(raw, most)),
        Rescaled::Between(raw) => Some(capped(raw, most)),
        Rescaled::Beyond if v > 0 => Some(most),
        Rescaled::Beyond => None,
    }
}

fn capped(raw: i128, most: i128) -> i128
    ensures small { raw ≤ℤ most → result ≡ raw }
    ensures large { most <ℤ raw → result ≡ most }
{
    if most < raw { most } else { raw }
}
