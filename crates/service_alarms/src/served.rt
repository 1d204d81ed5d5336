//! What clients aren't shown.
ghost use Rattle.std.specs.Prelude.{◌≡◌, ◌≢◌, ◌++◌, IfSome, List, OnOk, length, slice_get};
ghost use Rattle.point_types.specs.Reading.{IsExponent};
ghost use Rattle.point_types.specs.declared.kind.Kind.TheVariants as kinds;
ghost use Rattle.site_model.specs.Readings.{known_at};
ghost use Rattle.site_model.specs.Tagging.{is_numeric};
ghost use Rattle.gateway.specs.served.ServedImage.{partial_total_of, total_of};
ghost use Rattle.served_ranges.specs.Shown.{demand_of_partial, demand_of_stored, demand_of_total};
ghost use Rattle.service_alarms.specs.Hiding.{AreStoredHidden, AreSumsHidden, HidesAccess, HidesAt, HidesEntry, HidesNumber, HidesSource, HidesStored, HidesTag, HidesTotal, HidesWhole, alarm_if, first_of_none, first_without, has_none, has_value, is_with, is_without};
ghost use Rattle.service_alarms.specs.declared.alarm.Alarm.{Alarm as AlarmValue};
ghost use Rattle.service_alarms.specs.declared.alarm.Alarm.TheVariants as alarm;

use crate::alarm::{Alarm, Hidden};
use gateway::{own_value, partial_total_of, total_of};
use point_types::{Items, Kind, Reading, Unencodable};
use point_writer::plan::words_for;
use served_ranges::{Demand, demand_of_partial, demand_of_stored, demand_of_total};
use site_model::{Access, Served, Site, SiteTag, Source};
use std::alloc::AllocError;

/// Appends an alarm for each sum that its point doesn't show, by these readings of the site's tags.
pub(crate) fn push_sums(
    alarms: &mut Items<Alarm>,
    site: &Site,
    readings: &[Reading],
) -> Result<(), AllocError>
    ensures { OnOk result ((sums : List AlarmValue) × AreSumsHidden site.now readings.now (length site.now.served) sums × (alarms.new ≡ alarms.old ++ sums)) }
{
    for i in 0..site.served().len() {
        push_sum(alarms, i, hidden_sum(site, readings, i))?;
    }
    Ok(())
}

fn push_sum(alarms: &mut Items<Alarm>, i: usize, hidden: Option<Hidden>) -> Result<(), AllocError>
    ensures { OnOk result (alarms.new ≡ alarms.old ++ alarm_if (alarm.SumHidden i) hidden) }
{
    match hidden {
        Some(hidden) => alarms.push(Alarm::SumHidden(i, hidden)),
        None => Ok(()),
    }
}

/// Why the point of the entry of this number doesn't show its sum; None where it does, or shows no sum.
fn hidden_sum(site: &Site, readings: &[Reading], i: usize) -> Option<Hidden>
    ensures { HidesEntry site.now readings.now (slice_get site.now.served i) result }
{
    match site.served().get(i) {
        Some(entry) => hidden_source(site, readings, entry, &entry.source),
        None => None,
    }
}

fn hidden_source(
    site: &Site,
    readings: &[Reading],
    entry: &Served,
    source: &Source,
) -> Option<Hidden>
    ensures { HidesSource site.now readings.now entry.now source.now result }
{
    match source {
        Source::Sum(parts) => hidden_whole(
            demand_of_total(site, entry, parts.as_slice()),
            total_of(readings, parts.as_slice()),
            first_without(readings, parts.as_slice()),
        ),
        Source::PartialSum(parts) => hidden_whole(
            demand_of_partial(site, entry, parts.as_slice()),
            partial_total_of(readings, parts.as_slice()),
            first_of_none(readings, parts.as_slice()),
        ),
        Source::Raw(_) | Source::Text(_) => None,
    }
}

fn hidden_whole(
    demand: Option<Demand>,
    total: Option<i64>,
    missing: Option<usize>,
) -> Option<Hidden>
    requires { IfSome demand (λ d. IsExponent d.exponent) }
    ensures { HidesWhole demand total missing result }
{
    match missing {
        Some(part) => Some(Hidden::Part(part)),
        None => hidden_total(demand, total),
    }
}

/// The first part that has no value of its own.
fn first_without(readings: &[Reading], parts: &[usize]) -> Option<usize>
    ensures { result ≡ first_without readings.now parts.now }
{
    for part in parts {
        if is_without(readings, *part) {
            return Some(*part);
        }
    }
    None
}

/// The first part, where none of them has a value of its own.
fn first_of_none(readings: &[Reading], parts: &[usize]) -> Option<usize>
    ensures { result ≡ first_of_none readings.now parts.now }
{
    if has_value(readings, parts) {
        None
    } else {
        first_without(readings, parts)
    }
}

fn has_value(readings: &[Reading], parts: &[usize]) -> bool
    ensures { result ≡ has_value readings.now parts.now }
{
    for part in parts {
        if !is_without(readings, *part) {
            return true;
        }
    }
    false
}

fn is_without(readings: &[Reading], part: usize) -> bool
    ensures { result ≡ is_without readings.now part }
{
    match readings.get(part) {
        Some(reading) => has_none(own_value(*reading)),
        None => true,
    }
}

fn has_none(number: Option<i64>) -> bool
    ensures { result ≡ has_none number }
{
    match number {
        Some(_) => false,
        None => true,
    }
}

/// Why a point doesn't show a total, which is none where it leaves LINT's range.
fn hidden_total(demand: Option<Demand>, total: Option<i64>) -> Option<Hidden>
    requires { IfSome demand (λ d. IsExponent d.exponent) }
    ensures { HidesTotal demand total result }
{
    match (demand, total) {
        (None, _) => None,
        (Some(_), None) => Some(Hidden::OutOfType),
        (Some(demand), Some(total)) => hidden_number(demand, total),
    }
}

/// Why a point doesn't say a number; None where it does.
fn hidden_number(demand: Demand, number: i64) -> Option<Hidden>
    requires { IsExponent demand.exponent }
    ensures { HidesAt demand number result }
{
    if is_numeric(demand.kind) {
        hidden_words(demand, number)
    } else {
        Some(Hidden::OutOfType)
    }
}

/// Why a point has no words for a number; None where it has.
fn hidden_words(demand: Demand, number: i64) -> Option<Hidden>
    requires scalable { IsExponent demand.exponent }
    requires numeric { demand.kind ≢ kinds.String }
    ensures { HidesNumber demand.kind number demand.exponent demand.factor result }
{
    match words_for(demand.kind, number, demand.exponent, demand.factor) {
        Ok(_) => None,
        Err(Unencodable::BadScale) => Some(Hidden::BadScale),
        Err(Unencodable::Inexact) => Some(Hidden::Inexact),
        Err(Unencodable::OutOfType) => Some(Hidden::OutOfType),
    }
}

/// Whether a point has a number that is shown; a pad has none.
fn is_numeric(kind: Kind) -> bool
    ensures { result ≡ is_numeric kind }
{
    !matches!(kind, Kind::String | Kind::Pad)
}

/// Appends an alarm for each `site` tag whose point doesn't show what the program stored in it.
pub(crate) fn push_stored(
    alarms: &mut Items<Alarm>,
    site: &Site,
    outputs: &[Option<i64>],
) -> Result<(), AllocError>
    ensures { OnOk result ((stored : List AlarmValue) × AreStoredHidden site.now outputs.now (length site.now.tags) stored × (alarms.new ≡ alarms.old ++ stored)) }
{
    for i in 0..site.tags().len() {
        push_one_stored(alarms, i, hidden_stored(site, outputs, i))?;
    }
    Ok(())
}

fn push_one_stored(
    alarms: &mut Items<Alarm>,
    i: usize,
    hidden: Option<Hidden>,
) -> Result<(), AllocError>
    ensures { OnOk result (alarms.new ≡ alarms.old ++ alarm_if (alarm.StoredHidden i) hidden) }
{
    match hidden {
        Some(hidden) => alarms.push(Alarm::StoredHidden(i, hidden)),
        None => Ok(()),
    }
}

/// Why the point of the `site` tag of this number doesn't show what the program stored; None where it does, or it is no
/// `site` tag.
fn hidden_stored(site: &Site, outputs: &[Option<i64>], i: usize) -> Option<Hidden>
    ensures { HidesTag site.now (known_at outputs.now i) (slice_get site.now.tags i) result }
{
    match site.tags().get(i) {
        Some(tag) => hidden_tag(site, tag, stored_at(outputs, i)),
        None => None,
    }
}

fn stored_at(outputs: &[Option<i64>], i: usize) -> Option<i64>
    ensures { result ≡ known_at outputs.now i }
{
    match outputs.get(i) {
        Some(stored) => *stored,
        None => None,
    }
}

fn hidden_tag(site: &Site, tag: &SiteTag, stored: Option<i64>) -> Option<Hidden>
    ensures { HidesAccess tag.now.access site.now stored tag.now result }
{
    match tag.access {
        Access::Shown => hidden_number_stored(demand_of_stored(site, tag), stored),
        Access::Input | Access::Output | Access::Setting | Access::Time => None,
    }
}

fn hidden_number_stored(demand: Option<Demand>, stored: Option<i64>) -> Option<Hidden>
    requires { IfSome demand (λ d. IsExponent d.exponent) }
    ensures { HidesStored demand stored result }
{
    match stored {
        Some(number) => hidden_total(demand, Some(number)),
        None => Some(Hidden::NotStored),
    }
}
