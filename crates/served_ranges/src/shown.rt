//! Whether a point of the gateway's own always shows what it is to.
ghost use Rattle.std.specs.Prelude.{◌≡◌, ◌-◌, ◌≤ℤ◌, neg_ℤ, pos, ◌^◌, IsTrue, IfSome};
ghost use Rattle.point_types.specs.Reading.{IsExponent};
ghost use Rattle.served_ranges.specs.Shown.{AllAreShown, AlwaysShows, AlwaysShowsPartial, AlwaysShowsStored, AlwaysShowsTotal, demand_at, demand_between, demand_of_partial, demand_of_stored, demand_of_sum, demand_of_total};

use crate::numbers::all_are_shown;
use crate::points::{point_of_entry, point_of_tag};
use crate::totals::{exponent_of, highest_partial, highest_total, lowest_partial, lowest_total};
use gateway::served_factor;
use model_defs::Point;
use point_types::Kind;
use site_model::{Served, Site, SiteTag, Source};

/// What a point of the gateway's own may have to say, and how: a number from low to high, in units of 10^exponent, in
/// words of a kind, by a factor, which is None where it is absent or outside -10..10.
#[derive(Clone, Copy, PartialEq, Eq, Debug)]
pub struct Demand {
    pub kind: Kind,
    pub factor: Option<i16>,
    pub exponent: i8,
    pub low: i128,
    pub high: i128,
}

/// Whether the point of an entry always shows its sum, where it has one: whatever the readings of the tags are in their
/// ranges, where each part has a value of its own, or of a partial sum one part at least.
pub fn always_shows_sum(site: &Site, entry: &Served) -> bool
    ensures { IsTrue result → AlwaysShows site.now entry.now entry.now.source }
{
    match &entry.source {
        Source::Sum(parts) => always_shows_total(site, entry, parts.as_slice()),
        Source::PartialSum(parts) => always_shows_partial(site, entry, parts.as_slice()),
        Source::Raw(_) | Source::Text(_) => true,
    }
}

fn always_shows_total(site: &Site, entry: &Served, parts: &[usize]) -> bool
    ensures { IsTrue result → AlwaysShowsTotal site.now entry.now parts.now }
{
    match demand_of_total(site, entry, parts) {
        Some(demand) => is_always_met(&demand),
        None => false,
    }
}

fn always_shows_partial(site: &Site, entry: &Served, parts: &[usize]) -> bool
    ensures { IsTrue result → AlwaysShowsPartial site.now entry.now parts.now }
{
    match demand_of_partial(site, entry, parts) {
        Some(demand) => is_always_met(&demand),
        None => false,
    }
}

/// Whether the point of a `site` tag always shows what the program stores in it.
pub fn always_shows_stored(site: &Site, tag: &SiteTag) -> bool
    ensures { IsTrue result → AlwaysShowsStored site.now tag.now }
{
    match demand_of_stored(site, tag) {
        Some(demand) => is_always_met(&demand),
        None => false,
    }
}

/// What the point of an entry may have to say where the site file gives it a sum; None where it doesn't.
pub fn demand_of_sum(site: &Site, entry: &Served) -> Option<Demand>
    ensures value { result ≡ demand_of_sum site.now entry.now entry.now.source }
    ensures scalable { IfSome result (λ demand. IsExponent demand.exponent) }
{
    match &entry.source {
        Source::Sum(parts) => demand_of_total(site, entry, parts.as_slice()),
        Source::PartialSum(parts) => demand_of_partial(site, entry, parts.as_slice()),
        Source::Raw(_) | Source::Text(_) => None,
    }
}

/// What the point of an entry may have to say that shows the total of these parts; None where there is no such point, or
/// where there are no parts, or one is no tag.
pub fn demand_of_total(site: &Site, entry: &Served, parts: &[usize]) -> Option<Demand>
    ensures value { result ≡ demand_of_total site.now entry.now parts.now }
    ensures scalable { IfSome result (λ demand. IsExponent demand.exponent) }
{
    let lowest = lowest_total(site.tags(), parts);
    let highest = highest_total(site.tags(), parts);
    demand_between(site, entry, parts, lowest, highest)
}

/// What the point of an entry may have to say that shows the total of those of these parts that have a value; None as of the
/// total of all.
pub fn demand_of_partial(site: &Site, entry: &Served, parts: &[usize]) -> Option<Demand>
    ensures value { result ≡ demand_of_partial site.now entry.now parts.now }
    ensures scalable { IfSome result (λ demand. IsExponent demand.exponent) }
{
    let lowest = lowest_partial(site.tags(), parts);
    let highest = highest_partial(site.tags(), parts);
    demand_between(site, entry, parts, lowest, highest)
}

fn demand_between(
    site: &Site,
    entry: &Served,
    parts: &[usize],
    lowest: Option<i128>,
    highest: Option<i128>,
) -> Option<Demand>
    ensures value { result ≡ demand_between site.now entry.now parts.now lowest highest }
    ensures scalable { IfSome result (λ demand. IsExponent demand.exponent) }
{
    let exponent = exponent_of(site.tags(), parts)?;
    let (low, high) = (lowest?, highest?);
    let point = point_of_entry(site.models(), entry)?;
    Some(demand_at(site, entry.model, exponent, low, high, point))
}

/// What the point of a `site` tag may have to say; None where its model has no such point.
pub fn demand_of_stored(site: &Site, tag: &SiteTag) -> Option<Demand>
    ensures value { result ≡ demand_of_stored site.now tag.now }
    ensures scalable { IfSome result (λ demand. IsExponent demand.exponent) }
{
    let point = point_of_tag(site.models(), tag)?;
    let (low, high) = (i128::from(tag.low), i128::from(tag.high));
    Some(demand_at(site, tag.model, tag.exponent, low, high, point))
}

fn demand_at(site: &Site, model: u16, exponent: i8, low: i128, high: i128, point: &Point) -> Demand
    ensures { result ≡ demand_at site.now model exponent low high point.now }
{
    Demand {
        kind: point.kind,
        factor: served_factor(site.served(), model, point.sf),
        exponent,
        low,
        high,
    }
}

/// Whether each number that a point may have to say is said. A total is none outside LINT's range.
pub fn is_always_met(demand: &Demand) -> bool
    requires { IsExponent demand.now.exponent }
    ensures shown { IsTrue result → AllAreShown demand.now.kind demand.now.factor demand.now.exponent demand.now.low demand.now.high }
    ensures low { IsTrue result → neg_ℤ (pos (2 ^ 63)) ≤ℤ demand.now.low }
    ensures high { IsTrue result → demand.now.high ≤ℤ pos (2 ^ 63 - 1) }
{
    match (in_lint(demand.low), in_lint(demand.high)) {
        (Some(low), Some(high)) => all_are_shown(
            demand.kind,
            demand.factor,
            demand.exponent,
            low,
            high,
        ),
        _ => false,
    }
}

fn in_lint(n: i128) -> Option<i64>
    ensures { IfSome result (λ m. m ≡ n) }
{
    if i128::from(i64::MIN) <= n && n <= i128::from(i64::MAX) {
        Some(n as i64)
    } else {
        None
    }
}
