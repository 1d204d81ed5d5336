//! Whether the point of an output can be set to each number of the tag's range.
ghost use Rattle.std.specs.Prelude.{◌≡◌, IfSome, IsTrue, Some};
ghost use Rattle.point_types.specs.Reading.{IsExponent};
ghost use Rattle.served_ranges.specs.Shown.{AllAreShown, MayHaveFactor, demand_of_set};

use crate::numbers::all_are_shown;
use crate::shown::Demand;
use site_model::{Sf, SiteTag};

/// A factor by which the point of an `out` tag says each number from the tag's low to its high: the one that the model's
/// definition fixes, or else one of those that a device may have, -10..10. None where none of them was seen to say each: a
/// set point may then not be written, whatever the device's factor is; that it can't be, no clause says.
pub fn factor_for_range(tag: &SiteTag) -> Option<i16>
    ensures { IfSome result (λ factor. MayHaveFactor tag.now.sf factor × AllAreShown tag.now.point (Some factor) tag.now.exponent tag.now.low tag.now.high) }
{
    match tag.sf {
        Sf::None => if_said(tag, 0),
        Sf::Fixed(power) => if_said(tag, i16::from(power)),
        Sf::At(_) => any_factor(tag),
    }
}

fn any_factor(tag: &SiteTag) -> Option<i16>
    ensures { IfSome result (λ factor. IsExponent factor × AllAreShown tag.now.point (Some factor) tag.now.exponent tag.now.low tag.now.high) }
{
    for factor in -10..=10i16 {
        if is_said(tag, factor) {
            return Some(factor);
        }
    }
    None
}

fn if_said(tag: &SiteTag, factor: i16) -> Option<i16>
    ensures { IfSome result (λ said. (said ≡ factor) × AllAreShown tag.now.point (Some said) tag.now.exponent tag.now.low tag.now.high) }
{
    if is_said(tag, factor) {
        Some(factor)
    } else {
        None
    }
}

fn is_said(tag: &SiteTag, factor: i16) -> bool
    ensures { IsTrue result → AllAreShown tag.now.point (Some factor) tag.now.exponent tag.now.low tag.now.high }
{
    all_are_shown(tag.point, Some(factor), tag.exponent, tag.low, tag.high)
}

/// What the point of an `out` tag may have to say: by the factor that the definition fixes, or else by the coarsest one that
/// is as fine as the tag's numbers.
pub fn demand_of_set(tag: &SiteTag) -> Demand
    ensures { result ≡ demand_of_set tag.now }
{
    let factor = match tag.sf {
        Sf::None => 0,
        Sf::Fixed(power) => power,
        Sf::At(_) => tag.exponent,
    };
    Demand {
        kind: tag.point,
        factor: Some(i16::from(factor)),
        exponent: tag.exponent,
        low: i128::from(tag.low),
        high: i128::from(tag.high),
    }
}
