//! Tags of a site.

ghost use Rattle.std.specs.Prelude.{◌≡◌, pos, neg_ℤ};

use point_types::{IlType, Kind, Name};
use site_model::{Access, Fit, Sf, SiteTag};

/// The power of an inverter in watts: an int16 at offset 14, scaled by the factor at offset 15. That it
/// can be written is said here alone, so that tests may take it as an output.
pub fn power(name: Name, access: Access) -> SiteTag
    ensures low { result.low ≡ neg_ℤ (pos 100000) }
    ensures high { result.high ≡ pos 100000 }
{
    SiteTag {
        name,
        access,
        kind: IlType::Dint,
        low: -100_000,
        high: 100_000,
        default: None,
        exponent: 0,
        bit: None,
        down: false,
        lapse: None,
        fit: Fit::Exact,
        companion: None,
        device: Some(0),
        model: 103,
        point: Kind::Int16,
        writable: true,
        offset: 14,
        sf: Sf::At(15),
    }
}

/// The limit of an inverter in percent: a uint16 at offset 5, scaled by the factor at offset 23.
pub fn limit(name: Name, access: Access) -> SiteTag
    ensures low { result.low ≡ pos 0 }
    ensures high { result.high ≡ pos 100 }
{
    SiteTag {
        name,
        access,
        kind: IlType::Int,
        low: 0,
        high: 100,
        default: None,
        exponent: 0,
        bit: None,
        down: false,
        lapse: None,
        fit: Fit::Exact,
        companion: None,
        device: Some(0),
        model: 123,
        point: Kind::Uint16,
        writable: true,
        offset: 5,
        sf: Sf::At(23),
    }
}
