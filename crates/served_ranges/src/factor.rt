//! A factor that can be used.
ghost use Rattle.std.specs.Prelude.{◌≡◌, IfSome};
ghost use Rattle.point_types.specs.Reading.{factor_of, IsExponent};

/// A factor that can be used.
pub(crate) fn usable(factor: Option<i16>) -> Option<i8>
    ensures value { result ≡ factor_of factor }
    ensures scalable { IfSome result IsExponent }
{
    match factor {
        Some(power @ -10..=10) => Some(power as i8),
        _ => None,
    }
}
