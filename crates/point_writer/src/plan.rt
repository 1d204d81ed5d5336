//! What is written to the devices.
ghost use Rattle.std.specs.Prelude.{◌≡◌, ◌≢◌, ◌≤◌, ◌<◌, ◌≤ℤ◌, ℤ, length, Some, IfSome};
ghost use Rattle.point_types.specs.declared.kind.Kind.TheVariants as kinds;
ghost use Rattle.point_types.specs.Encoding.{IsEncoding};
ghost use Rattle.point_types.specs.Reading.{IsExponent};
ghost use Rattle.point_writer.specs.Going.{IsAlone, IsPlanFor, together};
ghost use Rattle.point_writer.specs.SetPoint.{IsPlan, WritesASetPoint};
ghost use Rattle.site_model.specs.Readings.{AreSettings};

use crate::fitting::outgoing;
use crate::going::are_companions_set;
use crate::place::place_of;
use crate::write::{NoWrite, Write};
use point_types::{Kind, Unencodable, encode};
use register_map::Map;
use site_model::{Site, SiteTag, Want, Words};

/// The words that set the i-th of the site's `out` tags to the number that the program stored, which is exact: a number
/// that has no words isn't written, and no other one in its place. Takes no memory (SunSpec Device Information Model
/// Specification, points and scale factors).
///
/// `outputs` has an entry for each tag, each number in its tag's range; `blocks` for each of the site's `wants()`, the words
/// that were known at the scan; `maps` for each device.
///
/// NotSet: the program didn't store the tag. NoBlock: the device has no map, the map hasn't the model, no words of the
/// block are known, or the point or its factor lies past the map's length or the known words. BadScale: the factor is absent
/// or outside -10..10. Inexact: no raw number is the value. OutOfType: the raw number lies outside the kind, or its words
/// would read as absent. With: the tag has a set point, and one that it goes with (by the key `with`, through others too) has none.
pub fn plan(
    site: &Site,
    outputs: &[Option<i64>],
    blocks: &[Option<Words>],
    maps: &[Option<Map>],
    i: usize,
) -> Result<Write, NoWrite>
    requires place { i < length site.now.outs }
    requires outputs { length outputs.now ≡ length site.now.tags }
    requires ranged { AreSettings site.now.tags outputs.now }
    requires blocks { length blocks.now ≡ length site.now.wants }
    requires maps { length maps.now ≡ length site.now.devices }
    ensures plan { IsPlanFor site.now.tags site.now.outs site.now.wants maps.now blocks.now outputs.now i result }
    ensures set_point { WritesASetPoint site.now.tags site.now.outs site.now.wants maps.now blocks.now outputs.now i result }
{
    let number = site.outs()[i];
    let alone = plan_alone(site, outputs, blocks, maps, number);
    let are_set = are_companions_set(site, outputs, blocks, maps, number);
    together(alone, are_set)
}

/// What is written of a tag that would be so if it went alone, by whether those that it goes with are set.
fn together(alone: Result<Write, NoWrite>, are_set: bool) -> Result<Write, NoWrite>
    ensures { result ≡ together alone are_set }
{
    match alone {
        Ok(write) if are_set => Ok(write),
        Ok(_) => Err(NoWrite::With),
        Err(cause) => Err(cause),
    }
}

/// The words that set the tag with this number to the number that the program stored, if it goes alone.
pub(crate) fn plan_alone(
    site: &Site,
    outputs: &[Option<i64>],
    blocks: &[Option<Words>],
    maps: &[Option<Map>],
    number: usize,
) -> Result<Write, NoWrite>
    requires inside { number < length site.now.tags }
    requires outputs { length outputs.now ≡ length site.now.tags }
    requires ranged { AreSettings site.now.tags outputs.now }
    requires blocks { length blocks.now ≡ length site.now.wants }
    ensures { IsAlone site.now.tags site.now.wants maps.now blocks.now outputs.now number result }
{
    plan_of(
        &site.tags()[number],
        outputs[number],
        site.wants(),
        blocks,
        maps,
    )
}

/// The same of a tag, by what the program stored for it.
pub fn plan_of(
    tag: &SiteTag,
    output: Option<i64>,
    wants: &[Want],
    blocks: &[Option<Words>],
    maps: &[Option<Map>],
) -> Result<Write, NoWrite>
    requires blocks { length blocks.now ≡ length wants.now }
    requires ranged { (v : ℤ) → output ≡ Some v → (tag.now.low ≤ℤ v) × (v ≤ℤ tag.now.high) }
    ensures { IsPlan maps.now wants.now blocks.now tag.now output result }
{
    let Some(v) = output else {
        return Err(NoWrite::NotSet);
    };
    let Some(place) = place_of(tag, wants, blocks, maps) else {
        return Err(NoWrite::NoBlock);
    };
    match outgoing(tag, v, place.factor) {
        Ok(out) => Ok(Write {
            device: place.device,
            addr: place.addr,
            words: out.words,
        }),
        Err(fault) => Err(NoWrite::of(fault)),
    }
}

/// The words of a kind for `v * 10^exponent`, by a scale factor.
pub fn words_for(
    kind: Kind,
    v: i64,
    exponent: i8,
    factor: Option<i16>,
) -> Result<Words, Unencodable>
    requires numeric { kind ≢ kinds.String }
    requires scalable { IsExponent exponent }
    ensures { IsEncoding kind v exponent factor result }
{
    match kind.size() {
        1 => match encode::<1>(kind, v, exponent, factor) {
            Ok(words) => Ok(Words::from_few(&words)),
            Err(fault) => Err(fault),
        },
        2 => match encode::<2>(kind, v, exponent, factor) {
            Ok(words) => Ok(Words::from_few(&words)),
            Err(fault) => Err(fault),
        },
        _ => match encode::<4>(kind, v, exponent, factor) {
            Ok(words) => Ok(Words::from_few(&words)),
            Err(fault) => Err(fault),
        },
    }
}
