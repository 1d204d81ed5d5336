//! What the words of the devices say that the tags are.
ghost use Rattle.std.specs.Prelude.{◌≡◌, ◌≢◌, ◌≤◌, ◌<◌, ◌^◌, length, option_copied, unsigned_abs};
ghost use Rattle.site_model.specs.Readings.{AreReadings, AreSettings, AreUsable, IsOfBlock, IsOfRaw, IsOwn, IsTagReading, IsUsable, bit_of, block_of, number_reading, setting_reading, time_within};

use crate::access::Access;
use crate::registers::{registers_at, scale_for};
use crate::tag::SiteTag;
use crate::want::Want;
use crate::wants::{place_of_want, want_of};
use modbus_frame::Words;
use point_types::{Cause, Reading, scaled, scaled_down, value};

/// Reads all tags, one entry of `into` each: `in` tags by the known words of their blocks, `set` tags by the numbers that
/// were set, `time` tags by the milliseconds since the scan before, None where there was none. A tag with a default is Default where it would be Absent (SunSpec Device Information Model Specification,
/// points and scale factors). Takes no memory.
///
/// `blocks` are those of `wants`, by number. An `in` tag is Absent with the first cause that holds: NoBlock, ShortModel,
/// NotImplemented, BadScale, Inexact, OutOfRange. A `set` tag without a number is NotImplemented; an `out` or a `site` tag
/// is NoBlock. A `time` tag always has a number: the milliseconds, or the end of its range that is next to them; its least
/// number where there was no scan.
pub fn readings(
    tags: &[SiteTag],
    wants: &[Want],
    blocks: &[Option<Words>],
    sets: &[Option<i64>],
    elapsed: Option<u32>,
    into: &mut [Reading],
)
    requires blocks { length blocks.now ≡ length wants.now }
    requires sets { length sets.now ≡ length tags.now }
    requires entries { length into.old ≡ length tags.now }
    requires settings { AreSettings tags.now sets.now }
    ensures readings { AreReadings tags.now wants.now blocks.now sets.now elapsed into.new }
    ensures usable { AreUsable tags.now into.new }
{
    for (i, tag) in tags.iter().enumerate() {
        into[i] = tag_reading(tag, known_block(tag, wants, blocks), sets[i], elapsed);
    }
}

/// The words that are known of the device and model of an `in` or `out` tag, whose number among `wants` is theirs among
/// `blocks`; None for other tags.
pub fn known_block<'a>(
    tag: &SiteTag,
    wants: &[Want],
    blocks: &'a [Option<Words>],
) -> Option<&'a [u16]>
    requires { length blocks.now ≡ length wants.now }
    ensures { option_copied result ≡ block_of wants.now blocks.now tag.now }
{
    let place = place_of_want(wants, want_of(tag)?)?;
    match &blocks[place] {
        Some(words) => Some(words.as_slice()),
        None => None,
    }
}

fn tag_reading(
    tag: &SiteTag,
    block: Option<&[u16]>,
    set: Option<i64>,
    elapsed: Option<u32>,
) -> Reading
    ensures { IsTagReading tag.now (option_copied block.entry) set elapsed result }
{
    match own_reading(tag, block, set, elapsed) {
        Reading::Absent(cause) => match tag.default {
            Some(n) => Reading::Default(n, cause),
            None => Reading::Absent(cause),
        },
        own => own,
    }
}

/// A tag's reading before its default.
fn own_reading(
    tag: &SiteTag,
    block: Option<&[u16]>,
    set: Option<i64>,
    elapsed: Option<u32>,
) -> Reading
    ensures { IsOwn tag.now.access tag.now (option_copied block.entry) set elapsed result }
{
    match tag.access {
        Access::Input => block_reading(tag, block),
        Access::Setting => setting_reading(set),
        Access::Output | Access::Shown => Reading::Absent(Cause::NoBlock),
        Access::Time => Reading::Value(time_within(tag.low, tag.high, elapsed)),
    }
}

fn setting_reading(set: Option<i64>) -> Reading
    ensures { result ≡ setting_reading set }
{
    match set {
        Some(n) => Reading::Value(n),
        None => Reading::Absent(Cause::NotImplemented),
    }
}

/// The milliseconds since the scan before, held in a range; its least number where there was none.
fn time_within(low: i64, high: i64, elapsed: Option<u32>) -> i64
    ensures { result ≡ time_within low high elapsed }
{
    let Some(elapsed) = elapsed else {
        return low;
    };
    let elapsed = i64::from(elapsed);
    if elapsed <= low {
        low
    } else if high <= elapsed {
        high
    } else {
        elapsed
    }
}

fn block_reading(tag: &SiteTag, block: Option<&[u16]>) -> Reading
    ensures { IsOfBlock tag.now (option_copied block.entry) result }
{
    let Some(words) = block else {
        return Reading::Absent(Cause::NoBlock);
    };
    let Some(registers) = registers_at(words, tag.offset, tag.point.size()) else {
        return Reading::Absent(Cause::ShortModel);
    };
    let Some(factor) = scale_for(tag.bit, words, tag.sf) else {
        return Reading::Absent(Cause::ShortModel);
    };
    match value(tag.point, registers) {
        Some(raw) => raw_reading(tag, raw, factor),
        None => Reading::Absent(Cause::NotImplemented),
    }
}

/// The reading of a tag whose point's raw number is known.
fn raw_reading(tag: &SiteTag, raw: i128, factor: Option<i16>) -> Reading
    ensures { IsOfRaw tag.now.bit tag.now.down tag.now raw factor result }
{
    match (tag.bit, tag.down) {
        (Some(bit), _) => number_reading(bit_of(raw, bit), tag.low, tag.high),
        (None, true) => scaled_down(raw, factor, tag.exponent, tag.low, tag.high),
        (None, false) => scaled(raw, factor, tag.exponent, tag.low, tag.high),
    }
}

fn number_reading(n: i64, low: i64, high: i64) -> Reading
    ensures { result ≡ number_reading low high n }
{
    if low <= n && n <= high {
        Reading::Value(n)
    } else {
        Reading::Absent(Cause::OutOfRange)
    }
}

/// A bit of a bitfield's number; bit 0 is the least.
fn bit_of(raw: i128, bit: u8) -> i64
    ensures { result ≡ bit_of raw bit }
{
    match 2u128.checked_pow(u32::from(bit)) {
        Some(weight) => (raw.unsigned_abs() / weight % 2) as i64,
        None => 0,
    }
}
