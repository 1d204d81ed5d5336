//! A number by a power of ten.
ghost use Rattle.std.specs.Prelude.{◌≡◌, ◌≤◌, ◌<ℤ◌, ◌^◌, pos};
ghost use Rattle.point_types.specs.Reading.{factor_of, IsExponent, IsReading, IsReadingDown};
ghost use Rattle.point_types.specs.Rescaling.{IsInRange, IsProduct, IsQuotient, IsRescaled};

use crate::reading::{Cause, Reading};

/// A number at another power of ten.
pub enum Rescaled {
    /// This whole number.
    Whole(i128),
    /// No whole number; this is the next one below.
    Between(i128),
    /// A whole number that leaves i128.
    Beyond,
}

/// The number `number * 10^from` in units of `10^to` (SunSpec Device Information Model Specification, scale factors).
pub fn rescale(number: i128, from: i8, to: i8) -> Rescaled
    requires from_exponent { IsExponent from }
    requires to_exponent { IsExponent to }
    ensures { IsRescaled number from to result }
{
    let power = i32::from(from) - i32::from(to);
    let ratio = power_of_ten(power.unsigned_abs());
    if power >= 0 {
        multiplied(number, ratio)
    } else {
        divided(number, ratio)
    }
}

fn multiplied(number: i128, ratio: i128) -> Rescaled
    ensures { IsProduct number ratio result }
{
    match number.checked_mul(ratio) {
        Some(n) => Rescaled::Whole(n),
        None => Rescaled::Beyond,
    }
}

fn divided(number: i128, ratio: i128) -> Rescaled
    requires { pos 0 <ℤ ratio }
    ensures { IsQuotient number ratio result }
{
    let n = number.div_euclid(ratio);
    if number.rem_euclid(ratio) == 0 {
        Rescaled::Whole(n)
    } else {
        Rescaled::Between(n)
    }
}

fn power_of_ten(power: u32) -> i128
    requires { power ≤ 20 }
    ensures value { result ≡ pos (10 ^ power) }
    ensures positive { pos 0 <ℤ result }
{
    10i128.pow(power)
}

/// The scale factor, where there is one in -10..10 (SunSpec Device Information Model Specification, scale factors).
pub fn scale_factor(sf: Option<i16>) -> Option<i8>
    ensures { result ≡ factor_of sf }
{
    match sf {
        Some(factor @ -10..=10) => Some(factor as i8),
        _ => None,
    }
}

/// The reading of a point with the value `raw * 10^sf` by a tag with this exponent and range: the whole number n with
/// `n * 10^exponent = raw * 10^sf`, or the first cause that holds. `sf` is None where the factor is absent, and Some(0)
/// for a point without one (SunSpec Device Information Model Specification, scale factors).
///
/// Absent of BadScale: the factor is absent, or outside -10..10; of Inexact: n is no whole number; of OutOfRange: n lies
/// outside low..high.
pub fn scaled(raw: i128, sf: Option<i16>, exponent: i8, low: i64, high: i64) -> Reading
    requires { IsExponent exponent }
    ensures { IsReading raw sf exponent low high result }
{
    let Some(factor) = scale_factor(sf) else {
        return Reading::Absent(Cause::BadScale);
    };
    match rescale(raw, factor, exponent) {
        Rescaled::Whole(n) => in_range(n, low, high),
        Rescaled::Between(_) => Reading::Absent(Cause::Inexact),
        Rescaled::Beyond => Reading::Absent(Cause::OutOfRange),
    }
}

/// As `scaled`, rounded down: the greatest whole number n with `n * 10^exponent <= raw * 10^sf`. There always is one, so
/// Inexact doesn't occur.
pub fn scaled_down(raw: i128, sf: Option<i16>, exponent: i8, low: i64, high: i64) -> Reading
    requires { IsExponent exponent }
    ensures { IsReadingDown raw sf exponent low high result }
{
    let Some(factor) = scale_factor(sf) else {
        return Reading::Absent(Cause::BadScale);
    };
    match rescale(raw, factor, exponent) {
        Rescaled::Whole(n) => in_range(n, low, high),
        Rescaled::Between(n) => in_range(n, low, high),
        Rescaled::Beyond => Reading::Absent(Cause::OutOfRange),
    }
}

fn in_range(n: i128, low: i64, high: i64) -> Reading
    ensures { IsInRange n low high result }
{
    if i128::from(low) <= n && n <= i128::from(high) {
        Reading::Value(n as i64)
    } else {
        Reading::Absent(Cause::OutOfRange)
    }
}
