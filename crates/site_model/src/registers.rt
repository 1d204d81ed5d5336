//! A point and its factor in the words of a block, which begin with the model's ID.
ghost use Rattle.std.specs.Prelude.{◌≡◌, ◌≢◌, ◌+◌, ◌≤◌, length, option_copied, IfSome, OnSome};
ghost use Rattle.point_types.specs.Point.{value_of};
ghost use Rattle.point_types.specs.declared.kind.Kind.TheVariants as kinds;
ghost use Rattle.site_model.specs.Readings.{registers_at, scale_at, scale_for};

use crate::tag::Sf;
use point_types::{Kind, value};

/// The registers of a point of at most four registers at an offset from the model's ID; None where they lie past the words.
pub fn registers_at(words: &[u16], offset: u16, size: usize) -> Option<&[u16]>
    requires { size ≤ 4 }
    ensures value { option_copied result ≡ registers_at words.now offset size }
    ensures sized { IfSome result (λ registers. length registers.now ≡ size) }
    ensures inside { OnSome result (offset + size ≤ length words.now) }
{
    let start = usize::from(offset);
    words.get(start..start + size)
}

/// What scales a tag's point, by the words of the same block; None where the factor's register lies past them, and in it
/// None where the factor is absent. A bit has no factor.
pub fn scale_for(bit: Option<u8>, words: &[u16], sf: Sf) -> Option<Option<i16>>
    ensures { result ≡ scale_for bit words.now sf }
{
    match bit {
        Some(_) => Some(Some(0)),
        None => scale_at(words, sf),
    }
}

/// What scales a point, by the words of the same block: the power of ten in its factor's register, or the fixed one; 0
/// where it has none. None where the factor's register lies past the words, and in it None where the factor is absent
/// (SunSpec Device Information Model Specification, scale factors).
pub fn scale_at(words: &[u16], sf: Sf) -> Option<Option<i16>>
    ensures { result ≡ scale_at words.now sf }
{
    match sf {
        Sf::None => Some(Some(0)),
        Sf::Fixed(power) => Some(Some(i16::from(power))),
        Sf::At(offset) => {
            let register = registers_at(words, offset, 1)?;
            Some(factor_in(register))
        }
    }
}

/// The power of ten in a factor's register.
fn factor_in(register: &[u16]) -> Option<i16>
    requires { length register.now ≡ 1 }
    ensures { result ≡ value_of kinds.Sunssf register.now }
{
    match value(Kind::Sunssf, register) {
        Some(power) => Some(power as i16),
        None => None,
    }
}
