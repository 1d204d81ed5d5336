//! Whether a point says each number of a range.
ghost use Rattle.std.specs.Prelude.{◌≡◌, ◌≢◌, ◌⊎◌, ◌≤ℤ◌, IsTrue, List, ℕ, Ok};
ghost use Rattle.point_types.specs.declared.kind.Kind.TheVariants as kinds;
ghost use Rattle.point_types.specs.Encoding.{IsEncoding};
ghost use Rattle.point_types.specs.Reading.{IsExponent};
ghost use Rattle.site_model.specs.Tagging.{is_numeric};
ghost use Rattle.served_ranges.specs.Shown.{AllAreShown};

use crate::factor::usable;
use point_types::Kind;
use point_writer::plan::words_for;

/// Whether a point of a kind shows each number from low to high, in units of 10^exponent, by a scale factor: both ends
/// have words, and the factor is no coarser than the exponent, unless the ends are one (SunSpec Device Information Model
/// Specification, points and scale factors).
pub(crate) fn all_are_shown(
    kind: Kind,
    factor: Option<i16>,
    exponent: i8,
    low: i64,
    high: i64,
) -> bool
    requires { IsExponent exponent }
    ensures { IsTrue result → AllAreShown kind factor exponent low high }
{
    if !is_numeric(kind) {
        return false;
    }
    let Some(power) = usable(factor) else {
        return false;
    };
    if !is_fine(power, exponent, low, high) || !has_words(kind, factor, exponent, low) {
        return false;
    }
    has_words(kind, factor, exponent, high)
}

/// Whether a power of ten is no coarser than an exponent, or no two numbers are wanted.
fn is_fine(power: i8, exponent: i8, low: i64, high: i64) -> bool
    ensures { IsTrue result → (high ≤ℤ low) ⊎ (power ≤ℤ exponent) }
{
    high <= low || power <= exponent
}

/// Whether words of a kind read as a number.
fn has_words(kind: Kind, factor: Option<i16>, exponent: i8, number: i64) -> bool
    requires numeric { kind ≢ kinds.String }
    requires scalable { IsExponent exponent }
    ensures { IsTrue result → (words : List ℕ) × IsEncoding kind number exponent factor (Ok words) }
{
    match words_for(kind, number, exponent, factor) {
        Ok(_) => true,
        Err(_) => false,
    }
}

/// Whether a point has a number that is shown; a pad has none.
fn is_numeric(kind: Kind) -> bool
    ensures { result ≡ is_numeric kind }
{
    !matches!(kind, Kind::String | Kind::Pad)
}
