//! What there is to say of a point of the gateway's own map.
ghost use Rattle.std.specs.Prelude.{◌≡◌, ◌+ℤ◌, ◌≤ℤ◌, ◌^◌, neg_ℤ, pos, IfSome, option_and_then, option_map, slice_get};
ghost use Rattle.point_types.specs.Reading.{IsExponent};
ghost use Rattle.gateway.specs.served.ServedImage.{amount, amount_from, amount_given, amount_of_tag, in_lint, joined, joined_total, number_of_tag, own_value, partial_total_of, sum_of, total_of, total_over};

use crate::event_core::Memory;
use crate::served::point::PointSource;
use point_types::Reading;
use site_model::{Access, Site, SiteTag, Source as Given};

/// A value: `number * 10^exponent`, to be served by a scale factor, None where that is absent.
#[derive(Clone, Copy)]
pub(crate) struct Amount {
    pub number: i64,
    /// In -10..10.
    pub exponent: i8,
    pub factor: Option<i16>,
}

/// The value of a point that is served by a factor: what the site file gives it, the total of some readings, what the
/// program stored, or what clients set.
pub(crate) fn amount_from(
    site: &Site,
    known: &Memory,
    factor: Option<i16>,
    source: PointSource,
) -> Option<Amount>
    ensures value { result ≡ amount_from site.now known.now.outputs.items known.now.readings.items known.now.sets.items factor source }
    ensures scalable { IfSome result (λ a. IsExponent a.exponent) }
{
    match source {
        PointSource::Nothing => None,
        PointSource::Entry(n) => amount_given(
            site.tags(),
            &known.readings,
            factor,
            &site.served().get(n)?.source,
        ),
        PointSource::Tag(n) => amount_of_tag(known, factor, n, site.tags().get(n)?),
    }
}

/// A raw number is scaled by nothing.
fn amount_given(
    tags: &[SiteTag],
    readings: &[Reading],
    factor: Option<i16>,
    given: &Given,
) -> Option<Amount>
    ensures value { result ≡ amount_given tags.now readings.now factor given.now }
    ensures scalable { IfSome result (λ a. IsExponent a.exponent) }
{
    match given {
        Given::Raw(n) => Some(Amount {
            number: *n,
            exponent: 0,
            factor: Some(0),
        }),
        Given::Text(_) => None,
        Given::Sum(parts) => {
            let total = total_of(readings, parts.as_slice());
            sum_of(tags, factor, parts.as_slice(), total)
        }
        Given::PartialSum(parts) => {
            let total = partial_total_of(readings, parts.as_slice());
            sum_of(tags, factor, parts.as_slice(), total)
        }
    }
}

/// A total of some tags, which all have the exponent of the first.
fn sum_of(
    tags: &[SiteTag],
    factor: Option<i16>,
    parts: &[usize],
    total: Option<i64>,
) -> Option<Amount>
    ensures value { result ≡ sum_of tags.now factor parts.now total }
    ensures scalable { IfSome result (λ a. IsExponent a.exponent) }
{
    match parts {
        [first, ..] => match tags.get(*first) {
            Some(tag) => sum_by(tag, factor, total),
            None => None,
        },
        [] => None,
    }
}

/// A total of tags that have the exponent of this one.
fn sum_by(tag: &SiteTag, factor: Option<i16>, total: Option<i64>) -> Option<Amount>
    ensures value { result ≡ option_map (amount tag.now.exponent factor) total }
    ensures scalable { IfSome result (λ a. IsExponent a.exponent) }
{
    let number = total?;
    Some(Amount {
        number,
        exponent: tag.exponent,
        factor,
    })
}

/// The total of some tags' readings, where each has a value of its own and the total lies in LINT's range.
pub fn total_of(readings: &[Reading], parts: &[usize]) -> Option<i64>
    ensures { result ≡ total_of readings.now parts.now }
{
    in_lint(whole_total(readings, parts)?)
}

fn whole_total(readings: &[Reading], parts: &[usize]) -> Option<i128>
    ensures { result ≡ total_over (pos 0) readings.now parts.now }
{
    let mut total: i128 = 0;
    for part in parts {
        let Some(n) = value_at(readings, *part) else {
            return None;
        };
        total = added(total, n);
    }
    Some(total)
}

fn added(total: i128, n: i64) -> i128
    requires least { neg_ℤ (pos (2 ^ 126)) ≤ℤ total }
    requires most { total ≤ℤ pos (2 ^ 126) }
    ensures value { result ≡ total +ℤ n }
    ensures least { neg_ℤ (pos (2 ^ 63)) ≤ℤ n }
    ensures most { n ≤ℤ pos (2 ^ 63) }
{
    total + i128::from(n)
}

/// The total of those of some tags' readings that are values of their own, where one is and the total lies in LINT's range.
pub fn partial_total_of(readings: &[Reading], parts: &[usize]) -> Option<i64>
    ensures { result ≡ partial_total_of readings.now parts.now }
{
    in_lint(joined_total(readings, parts)?)
}

fn joined_total(readings: &[Reading], parts: &[usize]) -> Option<i128>
    ensures { result ≡ joined_total readings.now parts.now }
{
    let mut total: Option<i128> = None;
    for part in parts {
        total = joined(total, value_at(readings, *part));
    }
    total
}

/// The total of two values, or the one that is there.
fn joined(total: Option<i128>, value: Option<i64>) -> Option<i128>
    requires least { IfSome total (λ t. neg_ℤ (pos (2 ^ 126)) ≤ℤ t) }
    requires most { IfSome total (λ t. t ≤ℤ pos (2 ^ 126)) }
    ensures value { result ≡ joined total value }
    ensures least { IfSome value (λ n. neg_ℤ (pos (2 ^ 63)) ≤ℤ n) }
    ensures most { IfSome value (λ n. n ≤ℤ pos (2 ^ 63)) }
{
    match (total, value) {
        (None, None) => None,
        (Some(total), None) => Some(total),
        (None, Some(n)) => Some(i128::from(n)),
        (Some(total), Some(n)) => Some(added(total, n)),
    }
}

fn value_at(readings: &[Reading], i: usize) -> Option<i64>
    ensures { result ≡ option_and_then own_value (slice_get readings.now i) }
{
    match readings.get(i) {
        Some(reading) => own_value(*reading),
        None => None,
    }
}

/// A value of its own, which a default isn't.
pub fn own_value(reading: Reading) -> Option<i64>
    ensures { result ≡ own_value reading }
{
    match reading {
        Reading::Value(n) => Some(n),
        Reading::Default(..) | Reading::Absent(_) => None,
    }
}

fn in_lint(n: i128) -> Option<i64>
    ensures { result ≡ in_lint n }
{
    if i128::from(i64::MIN) <= n && n <= i128::from(i64::MAX) {
        Some(n as i64)
    } else {
        None
    }
}

fn amount_of_tag(known: &Memory, factor: Option<i16>, n: usize, tag: &SiteTag) -> Option<Amount>
    ensures value { result ≡ amount_of_tag known.now.outputs.items known.now.sets.items factor n tag.now }
    ensures scalable { IfSome result (λ a. IsExponent a.exponent) }
{
    let number = number_of_tag(known, tag.access, n)?;
    Some(Amount {
        number,
        exponent: tag.exponent,
        factor,
    })
}

fn number_of_tag(known: &Memory, access: Access, n: usize) -> Option<i64>
    ensures { result ≡ number_of_tag known.now.outputs.items known.now.sets.items access n }
{
    match access {
        Access::Shown => *known.outputs.get(n)?,
        Access::Setting => *known.sets.get(n)?,
        Access::Input | Access::Output | Access::Time => None,
    }
}
