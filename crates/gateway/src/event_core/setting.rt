//! What clients write: whole `set` points, all of a request or nothing.
ghost use Rattle.std.specs.Prelude.{◌≡◌, ◌<◌, ◌≤◌, ℕ, ℤ, List, length, Option, Some, option_copied, IfSome, MatchOption, true};
ghost use Rattle.std.specs.Bool.{OnFalse, OnTrue};
ghost use Rattle.gateway.specs.served.Points.{own_points, registers_of};
ghost use Rattle.gateway.specs.event_core.SiteRun.{ReadsBack, SaysWrote, IsNumberIn, Sets, SetsOne, Writes, ages_after, are_settings, if_setting, points_behind, renewed, renewed_one, setting_from, setting_of, written_points};
ghost use Rattle.point_types.specs.Point.{size_of};
ghost use Rattle.point_types.specs.Reading.{IsReading};
ghost use Rattle.site_model.specs.Readings.{AreSettings};

use crate::served::{OwnPoint, PointSource, own_value};
use modbus_frame::{Exception, Response};
use point_types::{Kind, Reading, scaled, value};
use site_model::{Access, Site, SiteTag};

/// Sets the tags of the points from an address on, whose registers are to hold these words: 02 where they are no whole
/// `set` points, 03 where one isn't a number of its tag, exactly and in its range, by the served factor. `room` is as long
/// as `sets`, and what it holds doesn't count.
pub(crate) fn write(
    site: &Site,
    points: &[OwnPoint],
    addr: u16,
    words: &[u16],
    sets: &mut [Option<i64>],
    ages: &mut [Option<u32>],
    room: &mut [Option<i64>],
) -> Result<Response, Exception>
    requires points { points.now ≡ own_points site.now }
    requires sets { length sets.old ≡ length site.now.tags }
    requires room { length room.old ≡ length site.now.tags }
    requires ranged { AreSettings site.now.tags sets.old }
    ensures written { Writes site.now.tags (written_points site.now addr (length words.now)) words.now sets.old result sets.new }
    ensures wrote { SaysWrote result }
    ensures renewed { ages.new ≡ ages_after site.now addr (length words.now) result ages.old }
    ensures ranged { AreSettings site.now.tags sets.new }
    ensures len { length sets.new ≡ length site.now.tags }
    ensures ages_len { length ages.new ≡ length ages.old }
    ensures room_len { length room.new ≡ length site.now.tags }
{
    let Some(points) = written_points(site, points, addr, words.len()) else {
        return Err(Exception::ILLEGAL_DATA_ADDRESS);
    };
    room.copy_from_slice(sets);
    if !set_points(site.tags(), points, words, room) {
        return Err(Exception::ILLEGAL_DATA_VALUE);
    }
    sets.copy_from_slice(room);
    renew(site.tags(), points, words.len(), ages);
    Ok(Response::Wrote)
}

/// The tags of the points of so many registers were set right now.
fn renew(tags: &[SiteTag], points: &[OwnPoint], registers: usize, ages: &mut [Option<u32>])
    ensures renewed { ages.new ≡ renewed tags.now points.now registers ages.old }
    ensures len { length ages.new ≡ length ages.old }
{
    let mut left = registers;
    let mut rest = points;
    while left > 0 {
        let [point, behind @ ..] = rest else {
            return;
        };
        renew_one(ages, setting_of(tags, *point));
        left = left.saturating_sub(point.registers());
        rest = behind;
    }
}

fn renew_one(ages: &mut [Option<u32>], tag: Option<usize>)
    ensures renewed { ages.new ≡ renewed_one tag ages.old }
    ensures len { length ages.new ≡ length ages.old }
{
    match tag {
        Some(i) if i < ages.len() => ages[i] = Some(0),
        Some(_) | None => {}
    }
}

/// The points that so many registers from an address on are, where a client may write these.
fn written_points<'a>(
    site: &Site,
    points: &'a [OwnPoint],
    addr: u16,
    registers: usize,
) -> Option<&'a [OwnPoint]>
    requires { points.now ≡ own_points site.now }
    ensures value { option_copied result ≡ written_points site.now addr registers }
    ensures settings { IfSome result (λ ps. are_settings site.now.tags ps.now registers ≡ true) }
{
    if addr < site.base() {
        return None;
    }
    let points = points_behind(points, usize::from(addr - site.base()))?;
    if are_settings(site.tags(), points, registers) {
        Some(points)
    } else {
        None
    }
}

/// The points after so many registers, where one begins there.
fn points_behind(points: &[OwnPoint], registers: usize) -> Option<&[OwnPoint]>
    ensures { option_copied result ≡ points_behind points.now registers }
{
    let mut left = registers;
    let mut rest = points;
    while left > 0 {
        let [point, behind @ ..] = rest else {
            return None;
        };
        let size = point.registers();
        if size > left {
            return None;
        }
        left -= size;
        rest = behind;
    }
    Some(rest)
}

/// Whether so many registers are those of whole `set` points side by side.
fn are_settings(tags: &[SiteTag], points: &[OwnPoint], registers: usize) -> bool
    ensures { result ≡ are_settings tags.now points.now registers }
{
    let mut left = registers;
    let mut rest = points;
    while left > 0 {
        let [point, behind @ ..] = rest else {
            return false;
        };
        let size = point.registers();
        if setting_of(tags, *point).is_none() || size > left {
            return false;
        }
        left -= size;
        rest = behind;
    }
    true
}

/// The number of the `set` tag that a point is.
pub fn setting_of(tags: &[SiteTag], point: OwnPoint) -> Option<usize>
    ensures value { result ≡ setting_of tags.now point }
    ensures inside { IfSome result (λ i. i < length tags.now) }
{
    match point {
        OwnPoint::Number { source, .. } => setting_from(tags, source),
        OwnPoint::Word(_) | OwnPoint::Text { .. } => None,
    }
}

fn setting_from(tags: &[SiteTag], source: PointSource) -> Option<usize>
    ensures value { result ≡ setting_from tags.now source }
    ensures inside { IfSome result (λ i. i < length tags.now) }
{
    match source {
        PointSource::Tag(n) if n < tags.len() => if_setting(n, &tags[n]),
        PointSource::Nothing | PointSource::Entry(_) | PointSource::Tag(_) => None,
    }
}

fn if_setting(n: usize, tag: &SiteTag) -> Option<usize>
    ensures value { result ≡ if_setting n tag.now }
    ensures same { IfSome result (λ i. i ≡ n) }
{
    match tag.access {
        Access::Setting => Some(n),
        Access::Input | Access::Output | Access::Shown | Access::Time => None,
    }
}

/// Sets the tags of points side by side, in this order; false where a point isn't a number of its tag.
fn set_points(
    tags: &[SiteTag],
    points: &[OwnPoint],
    words: &[u16],
    sets: &mut [Option<i64>],
) -> bool
    requires settings { are_settings tags.now points.now (length words.now) ≡ true }
    requires sets { length sets.old ≡ length tags.now }
    requires ranged { AreSettings tags.now sets.old }
    ensures set { OnTrue result (Sets tags.now points.now words.now sets.old sets.new) }
    ensures unset { OnFalse result ((new : List (Option ℤ)) → Sets tags.now points.now words.now sets.old new → ⊥) }
    ensures ranged { AreSettings tags.now sets.new }
    ensures len { length sets.new ≡ length tags.now }
{
    let mut left = words;
    for point in points {
        if left.is_empty() {
            return true;
        }
        let (front, after) = left.split_at(point.registers());
        if !set_point(tags, *point, front, sets) {
            return false;
        }
        left = after;
    }
    true
}

fn set_point(tags: &[SiteTag], point: OwnPoint, words: &[u16], sets: &mut [Option<i64>]) -> bool
    requires sized { length words.now ≡ registers_of point }
    requires sets { length sets.old ≡ length tags.now }
    requires ranged { AreSettings tags.now sets.old }
    ensures set { OnTrue result (SetsOne tags.now point words.now sets.old sets.new) }
    ensures unset { OnFalse result ((new : List (Option ℤ)) → SetsOne tags.now point words.now sets.old new → ⊥) }
    ensures ranged { AreSettings tags.now sets.new }
    ensures len { length sets.new ≡ length tags.now }
{
    let Some(i) = setting_of(tags, point) else {
        return false;
    };
    let Some(n) = number_in(point, &tags[i], words) else {
        return false;
    };
    sets[i] = Some(n);
    true
}

/// The number of a tag that a point's words are, exactly and in its range, by the served factor.
fn number_in(point: OwnPoint, tag: &SiteTag, words: &[u16]) -> Option<i64>
    requires { length words.now ≡ registers_of point }
    ensures { MatchOption result ((n : ℤ) → ReadsBack point tag.now words.now n → ⊥) (ReadsBack point tag.now words.now) }
{
    match point {
        OwnPoint::Number { kind, factor, .. } => scaled_in(kind, factor, tag, words),
        OwnPoint::Word(_) | OwnPoint::Text { .. } => None,
    }
}

fn scaled_in(kind: Kind, factor: Option<i16>, tag: &SiteTag, words: &[u16]) -> Option<i64>
    requires { length words.now ≡ size_of kind }
    ensures { MatchOption result ((n : ℤ) → IsNumberIn kind factor tag.now words.now n → ⊥) (IsNumberIn kind factor tag.now words.now) }
{
    if kind == Kind::String {
        return None;
    }
    let Some(raw) = value(kind, words) else {
        return None;
    };
    own_value(scaled_by(raw, factor, tag))
}

fn scaled_by(raw: i128, factor: Option<i16>, tag: &SiteTag) -> Reading
    ensures { IsReading raw factor tag.now.exponent tag.now.low tag.now.high result }
{
    scaled(raw, factor, tag.exponent, tag.low, tag.high)
}
