//! The rules of a tag over its point.
ghost use Rattle.std.specs.Prelude.{◌≡◌, pos, neg_ℤ, option_and_then, option_map, IfSome, Some, true};
ghost use Rattle.point_types.specs.Reading.{IsExponent};
ghost use Rattle.point_types.specs.Value.{is_ranged, is_within};
ghost use Rattle.site_model.specs.Tag.{is_written, start_of};
ghost use Rattle.file_keys.specs.Keys.{natural_within};
ghost use Rattle.site_model.specs.Tagging.{access_of, bit_of, exponent_of, factor_in, fit_by, goes_together, has_range, is_bit_place, is_companion, is_fitting, is_input, is_lapsing, is_numeric, is_own, is_place, is_polled, is_rounding, is_setting, is_sunssf, lapse_of, last_bit, may_be_written, measures_of, measures_within, offset_at, tag_name, tag_over, tag_typed, type_of};
ghost use Rattle.site_model.specs.Views.{measures_view, numbers_view, tag_keys_view};
ghost use Rattle.site_model.specs.TagView.{tag_view};

use crate::access::Access;
use crate::fit::Fit;
use crate::measures::Measures;
use crate::tag::{Sf, SiteTag};
use crate::tag_keys::{Numbers, TagKeys, access_of, tag_name, type_of};
use model_defs::{ModelDef, Point};
use point_types::{IlType, Kind, Name};

/// Whether the tag's point is a device's.
pub fn is_polled(access: Access) -> bool
    ensures { result ≡ is_polled access }
{
    matches!(access, Access::Input | Access::Output)
}

/// Whether the tag's point is the gateway's own.
pub(crate) fn is_own(access: Access) -> bool
    ensures { result ≡ is_own access }
{
    matches!(access, Access::Setting | Access::Shown)
}

/// Whether the tag is read from a device.
pub(crate) fn is_input(access: Access) -> bool
    ensures { result ≡ is_input access }
{
    matches!(access, Access::Input)
}

fn is_written(access: Access) -> bool
    ensures { result ≡ is_written access }
{
    matches!(access, Access::Output | Access::Setting)
}

/// Whether the point is one that the access may write, where it writes.
pub(crate) fn may_be_written(access: Option<Access>, writable: bool) -> bool
    ensures { result ≡ may_be_written access writable }
{
    match access {
        None => true,
        Some(access) => writable || !is_written(access),
    }
}

/// The power of ten, the bit and the lapse, where all of the tag's numbers lie in their ranges.
pub(crate) fn measures_of(
    kind: Option<IlType>,
    point: Kind,
    numbers: Numbers,
    bit: Option<i64>,
    lapse: Option<i64>,
) -> Option<Measures>
    ensures measures { option_map measures_view result ≡ measures_of kind point (numbers_view numbers) bit lapse }
    ensures ranged { IfSome result
        (λ _. has_range kind numbers.low numbers.high (start_of numbers.low numbers.default) ≡ true) }
{
    if !has_range(
        kind,
        numbers.low,
        numbers.high,
        numbers.default.unwrap_or(numbers.low),
    ) {
        return None;
    }
    measures_within(point, numbers.exponent, bit, lapse)
}

fn measures_within(
    point: Kind,
    exponent: i64,
    bit: Option<i64>,
    lapse: Option<i64>,
) -> Option<Measures>
    ensures { option_map measures_view result ≡ measures_within point exponent bit lapse }
{
    let exponent = exponent_of(exponent)?;
    let bit = bit_of(point, bit)?;
    let lapse = lapse_of(lapse)?;
    Some(Measures {
        exponent,
        bit,
        lapse,
    })
}

/// Whether low, the start and high ascend, within the type where it is known.
pub(crate) fn has_range(kind: Option<IlType>, low: i64, high: i64, start: i64) -> bool
    ensures { result ≡ has_range kind low high start }
{
    match kind {
        None => is_within(low, high, start),
        Some(kind) => is_ranged(kind, low, high, start),
    }
}

fn is_ranged(kind: IlType, low: i64, high: i64, start: i64) -> bool
    ensures { result ≡ is_ranged kind low high start }
{
    kind.low() <= low && is_within(low, high, start) && high <= kind.high()
}

fn is_within(low: i64, high: i64, number: i64) -> bool
    ensures { result ≡ is_within low high number }
{
    low <= number && number <= high
}

/// A power of ten in -10..10.
fn exponent_of(number: i64) -> Option<i8>
    ensures number { result ≡ exponent_of number }
    ensures within { IfSome result (λ e. IsExponent e) }
{
    if -10 <= number && number <= 10 {
        Some(number as i8)
    } else {
        None
    }
}

/// A bit of a bitfield, where it is one; a point that is none has no range.
fn bit_of(point: Kind, bit: Option<i64>) -> Option<Option<u8>>
    ensures { result ≡ bit_of point bit }
{
    let Some(bit) = bit else {
        return Some(None);
    };
    let Some(last) = last_bit(point) else {
        return Some(None);
    };
    if 0 <= bit && bit <= i64::from(last) {
        Some(Some(bit as u8))
    } else {
        None
    }
}

/// The seconds after which what a client set lapses, where it does.
fn lapse_of(seconds: Option<i64>) -> Option<Option<u32>>
    ensures { result ≡ lapse_of seconds }
{
    match seconds {
        None => Some(None),
        Some(seconds) if seconds == 0 => None,
        Some(seconds) => Some(Some(within_a_day(seconds)?)),
    }
}

fn within_a_day(seconds: i64) -> Option<u32>
    ensures { result ≡ natural_within 86400 seconds }
{
    if 0 <= seconds && seconds <= 86_400 {
        Some(seconds as u32)
    } else {
        None
    }
}

/// The last bit of a bitfield that may be a tag.
pub fn last_bit(point: Kind) -> Option<u8>
    ensures { result ≡ last_bit point }
{
    match point {
        Kind::Bitfield16 => Some(14),
        Kind::Bitfield32 => Some(30),
        _ => None,
    }
}

/// Whether the point has a number that stands for something.
pub(crate) fn is_numeric(point: Kind) -> bool
    ensures { result ≡ is_numeric point }
{
    !matches!(point, Kind::String | Kind::Pad)
}

pub(crate) fn is_sunssf(point: Kind) -> bool
    ensures { result ≡ is_sunssf point }
{
    matches!(point, Kind::Sunssf)
}

fn is_place(access: Access, device: Option<&str>, point: Kind) -> bool
    ensures { result ≡ is_place access (option_map (λ s. s.now) device.entry) point }
{
    is_numeric(point) && (is_polled(access) || (device.is_none() && !is_sunssf(point)))
}

fn is_bit_place(access: Access, kind: IlType, point: Kind, bit: Option<i64>) -> bool
    ensures { result ≡ is_bit_place access kind point bit }
{
    match bit {
        None => true,
        Some(_) => is_input(access) && matches!(kind, IlType::Bool) && last_bit(point).is_some(),
    }
}

fn is_rounding(access: Access, bit: Option<i64>, round: Option<&str>) -> bool
    ensures { result ≡ is_rounding access bit (option_map (λ s. s.now) round.entry) }
{
    match round {
        None => true,
        Some(word) => is_input(access) && bit.is_none() && word == "down",
    }
}

fn is_lapsing(access: Access, default: Option<i64>, lapse: Option<i64>) -> bool
    ensures { result ≡ is_lapsing access default lapse }
{
    match lapse {
        None => true,
        Some(_) => is_setting(access) && default.is_some(),
    }
}

fn is_fitting(access: Access, fit: Option<&str>) -> bool
    ensures { result ≡ is_fitting access (option_map (λ s. s.now) fit.entry) }
{
    match fit {
        None => true,
        Some(word) => matches!(access, Access::Output) && (word == "down" || word == "up"),
    }
}

/// What a word that is allowed says of numbers that the point can't say.
fn fit_by(word: Option<&str>) -> Fit
    ensures { result ≡ fit_by (option_map (λ s. s.now) word.entry) }
{
    match word {
        None => Fit::Exact,
        Some(word) if word == "up" => Fit::Up,
        Some(_) => Fit::Down,
    }
}

fn is_companion(access: Access, name: Option<&str>) -> bool
    ensures { result ≡ is_companion access (option_map (λ s. s.now) name.entry) }
{
    match name {
        None => true,
        Some(name) => matches!(access, Access::Output) && tag_name(name).is_some(),
    }
}

/// The name of the tag that another one goes with.
fn companion_by(name: Option<&str>) -> Option<Name>
    ensures { result ≡ option_and_then tag_name (option_map (λ s. s.now) name.entry) }
{
    tag_name(name?)
}

fn is_setting(access: Access) -> bool
    ensures { result ≡ is_setting access }
{
    matches!(access, Access::Setting)
}

fn goes_together(access: Access, kind: IlType, point: Kind, keys: TagKeys<'_>) -> bool
    ensures { result ≡ goes_together access kind point (tag_keys_view keys.entry) }
{
    is_place(access, keys.place.device, point)
        && is_bit_place(access, kind, point, keys.bit)
        && is_rounding(access, keys.bit, keys.round)
        && is_lapsing(access, keys.numbers.default, keys.lapse)
        && is_fitting(access, keys.fit)
        && is_companion(access, keys.companion)
}

/// The tag, where its words are allowed.
pub(crate) fn tag_typed(
    keys: TagKeys<'_>,
    measures: Measures,
    device: Option<usize>,
    model: &ModelDef,
    point: &Point,
) -> Option<SiteTag>
    requires range { has_range (type_of keys.kind.now) keys.numbers.low keys.numbers.high (start_of keys.numbers.low keys.numbers.default) ≡ true }
    requires writable { may_be_written (access_of keys.access.now) point.now.writable ≡ true }
    ensures { option_map tag_view result ≡ tag_typed (tag_keys_view keys.entry) (measures_view measures) device model.now point.now }
{
    let name = tag_name(keys.name)?;
    let access = access_of(keys.access)?;
    let kind = type_of(keys.kind)?;
    if !goes_together(access, kind, point.kind, keys) {
        return None;
    }
    Some(SiteTag {
        name,
        access,
        kind,
        low: keys.numbers.low,
        high: keys.numbers.high,
        default: keys.numbers.default,
        exponent: measures.exponent,
        bit: measures.bit,
        down: keys.round.is_some(),
        lapse: measures.lapse,
        fit: fit_by(keys.fit),
        companion: companion_by(keys.companion),
        device,
        model: model.id,
        point: point.kind,
        writable: point.writable,
        offset: point.offset,
        sf: factor_in(model, point.sf),
    })
}

/// A factor by its offset where it is a point of the model.
fn factor_in(model: &ModelDef, sf: model_defs::Sf) -> Sf
    ensures { result ≡ factor_in model.now sf }
{
    match sf {
        model_defs::Sf::None => Sf::None,
        model_defs::Sf::Fixed(n) => Sf::Fixed(n),
        model_defs::Sf::At(number) => Sf::At(offset_at(model, number)),
    }
}

pub(crate) fn offset_at(model: &ModelDef, number: usize) -> u16
    ensures { result ≡ offset_at model.now number }
{
    match model.points.as_slice().get(number) {
        Some(point) => point.offset,
        None => 0,
    }
}
