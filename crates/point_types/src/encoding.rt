//! From a value to the words of a register.
ghost use Rattle.std.specs.Prelude.{◌≡◌, ◌≢◌, MatchOption};
ghost use Rattle.point_types.specs.Encoding.{IsEncoding, IsOutOfType};
ghost use Rattle.point_types.specs.Point.{size_of, StandsFor};
ghost use Rattle.point_types.specs.Reading.{IsExponent};

use crate::form::Form;
use crate::kind::{Kind, numeric_kinds};
use crate::scaling::{Rescaled, rescale, scale_factor};
use thiserror::Error;

/// Why a number has no words of a kind, by the first cause that holds: the scale factor is absent or outside -10..10; no
/// raw number is the value; the raw number lies outside the kind, or its words would read as absent.
#[derive(Clone, Copy, PartialEq, Eq, Debug, Error)]
pub enum Unencodable {
    #[error("BadScale")]
    BadScale,
    #[error("Inexact")]
    Inexact,
    #[error("OutOfType")]
    OutOfType,
}

/// The words of a kind that hold the value `v * 10^exponent` by the scale factor `sf`, the most significant register
/// first: those that read back as v by a tag with this exponent. `sf` is None where the factor is absent, and Some(0) for
/// a point without one. W is the kind's size (SunSpec Device Information Model Specification, the table of types and scale
/// factors).
pub fn encode<const W: usize>(
    kind: Kind,
    v: i64,
    exponent: i8,
    sf: Option<i16>,
) -> Result<[u16; W], Unencodable>
    requires numeric { kind ≢ Kind.String }
    requires width { W ≡ size_of kind }
    requires scalable { IsExponent exponent }
    ensures { IsEncoding kind v exponent sf result }
{
    let Some(factor) = scale_factor(sf) else {
        return Err(Unencodable::BadScale);
    };
    match rescale(i128::from(v), exponent, factor) {
        Rescaled::Whole(raw) => words_for(kind, raw).ok_or(Unencodable::OutOfType),
        Rescaled::Between(_) => Err(Unencodable::Inexact),
        Rescaled::Beyond => Err(Unencodable::OutOfType),
    }
}

macro_rules! words_by {
    (($kind:expr, $raw:expr) $($name:ident $size:literal $form:ident $unimplemented:literal;)*) => {
        match $kind {
            $(Kind::$name => Form::$form.words($unimplemented, $raw),)*
            Kind::String => unreachable!(),
        }
    };
}

/// The words that stand for a raw number.
fn words_for<const W: usize>(kind: Kind, raw: i128) -> Option<[u16; W]>
    requires numeric { kind ≢ Kind.String }
    requires width { W ≡ size_of kind }
    ensures { MatchOption result (IsOutOfType kind raw) (λ words. StandsFor kind words raw) }
{
    numeric_kinds!(words_by(kind, raw))
}
