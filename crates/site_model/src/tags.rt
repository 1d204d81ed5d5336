//! The tags of a site file.
ghost use Rattle.std.specs.Prelude.{◌≡◌, ◌≢◌, [], map, option_map, nat_eq, nat_lt, find, is_some, Ok, Err, IfOk, IfErr, MatchResult};
ghost use Rattle.std.specs.List.{list_any};
ghost use Rattle.toml.specs.View.{view, items_view};
ghost use Rattle.name_places.specs.Places.{IsPlaced};
ghost use Rattle.site_model.specs.Parts.{IsTagRefused};
ghost use Rattle.site_model.specs.Tag.{start_of};
ghost use Rattle.site_model.specs.Tagging.{clashes, device_for, device_named, device_number, is_device_named, is_on_heading, is_same_device, is_same_point, is_same_side, model_for, point_for, point_tag_of, tag_of, tag_placed, tags_behind};
ghost use Rattle.site_model.specs.Views.{tag_keys_view};
ghost use Rattle.site_model.specs.TagView.{tag_view};
ghost use Rattle.site_model.specs.declared.fault.SiteFault.{SiteFault};
ghost use Rattle.site_model.specs.declared.fault.SiteFault.TheVariants as fault;

use crate::access::Access;
use crate::device::SiteDevice;
use crate::fault::SiteFault;
use crate::gateway::{definition_of, model_of};
use crate::part::SitePart;
use crate::tag::SiteTag;
use crate::tag_keys::{TagKeys, access_of, keys_of, type_of};
use crate::tag_rules::{is_own, is_polled, may_be_written, measures_of, tag_typed};
use crate::time_tag::{is_time, read_time_tag};
use model_defs::{ModelDef, Point};
use name_places::{Places, place_of};
use point_types::Items;
use std::alloc::Global;
use toml::Value;

/// What tags can speak of: the devices, the gateway's own models, and all definitions.
#[derive(Clone, Copy)]
pub(crate) struct Scope<'a, 'n> {
    pub(crate) devices: &'a [SiteDevice],
    pub(crate) numbers: &'n Places<'a>,
    pub(crate) own: &'a [ModelDef],
    pub(crate) defs: &'a [ModelDef],
    ghost numbered: { IsPlaced is_device_named devices.now numbers.now.entries },
}

/// Reads the tags in order, and notes the one that it has come to.
pub(crate) fn read_tags(
    alloc: Global,
    scope: Scope<'_, '_>,
    entries: &[Value],
    part: &mut SitePart,
) -> Result<Items<SiteTag>, SiteFault>
    ensures told { IfOk result
        (λ tags. tags_behind scope.entry.devices.now scope.entry.own.now scope.entry.defs.now [] (items_view entries.now) ≡ Ok (map tag_view tags)) }
    ensures refused { IfErr result (λ e. e ≢ fault.OutOfMemory
        → tags_behind scope.entry.devices.now scope.entry.own.now scope.entry.defs.now [] (items_view entries.now) ≡ Err e) }
    ensures placed { IfErr result (λ e. e ≢ fault.OutOfMemory
        → IsTagRefused scope.entry.devices.now scope.entry.own.now scope.entry.defs.now (items_view entries.now) part.new e) }
{
    let mut tags = Items::new(alloc);
    for entry in entries {
        *part = SitePart::Tag(tags.len());
        let tag = read_tag(scope, tags.as_slice(), entry)?;
        tags.push(tag)?;
    }
    Ok(tags)
}

/// Reads a tag after those before it.
fn read_tag(scope: Scope<'_, '_>, seen: &[SiteTag], entry: &Value) -> Result<SiteTag, SiteFault>
    ensures { MatchResult result
        (λ t. tag_of scope.entry.devices.now scope.entry.own.now scope.entry.defs.now (map tag_view seen.now) (view entry.now) ≡ Ok (tag_view t))
        (λ e. tag_of scope.entry.devices.now scope.entry.own.now scope.entry.defs.now (map tag_view seen.now) (view entry.now) ≡ Err e) }
{
    if is_time(entry) {
        read_time_tag(seen, entry)
    } else {
        read_point_tag(scope, seen, entry)
    }
}

/// Reads a tag over a point after those before it.
fn read_point_tag(
    scope: Scope<'_, '_>,
    seen: &[SiteTag],
    entry: &Value,
) -> Result<SiteTag, SiteFault>
    ensures { MatchResult result
        (λ t. point_tag_of scope.entry.devices.now scope.entry.own.now scope.entry.defs.now (map tag_view seen.now) (view entry.now) ≡ Ok (tag_view t))
        (λ e. point_tag_of scope.entry.devices.now scope.entry.own.now scope.entry.defs.now (map tag_view seen.now) (view entry.now) ≡ Err e) }
{
    let keys = keys_of(entry).ok_or(SiteFault::MissingKey)?;
    let device = device_for(scope, access_of(keys.access), keys.place.device)?;
    let tag = tag_placed(scope, keys, device)?;
    if is_on_heading(&tag) || is_taken(seen, &tag) {
        return Err(SiteFault::Duplicate);
    }
    Ok(tag)
}

/// The number of the tag's device, which is asked for where its point is a device's.
fn device_for(
    scope: Scope<'_, '_>,
    access: Option<Access>,
    name: Option<&str>,
) -> Result<Option<usize>, SiteFault>
    ensures { result ≡ device_for scope.entry.devices.now access (option_map (λ s. s.now) name.entry) }
{
    let Some(access) = access else {
        return Ok(None);
    };
    if !is_polled(access) {
        return Ok(None);
    }
    let Some(name) = name else {
        return Err(SiteFault::MissingKey);
    };
    match device_number(scope, name) {
        Some(number) => Ok(Some(number)),
        None => Err(SiteFault::UnknownDevice),
    }
}

fn device_number(scope: Scope<'_, '_>, name: &str) -> Option<usize>
    ensures { result ≡ device_number scope.entry.devices.now name.now }
{
    place_of(scope.numbers, name)
}

/// The tag over its point, as far as it doesn't hang on the tags before it.
fn tag_placed(
    scope: Scope<'_, '_>,
    keys: TagKeys<'_>,
    device: Option<usize>,
) -> Result<SiteTag, SiteFault>
    ensures { MatchResult result
        (λ t. tag_placed scope.entry.own.now scope.entry.defs.now (tag_keys_view keys.entry) device ≡ Ok (tag_view t))
        (λ e. tag_placed scope.entry.own.now scope.entry.defs.now (tag_keys_view keys.entry) device ≡ Err e) }
{
    let access = access_of(keys.access);
    let model = model_for(scope, access, keys.place.model).ok_or(SiteFault::UnknownModel)?;
    let point = point_for(keys.place.point, model).ok_or(SiteFault::UnknownPoint)?;
    if !may_be_written(access, point.writable) {
        return Err(SiteFault::NotWritable);
    }
    let measures = measures_of(
        type_of(keys.kind),
        point.kind,
        keys.numbers,
        keys.bit,
        keys.lapse,
    )
    .ok_or(SiteFault::BadRange)?;
    match tag_typed(keys, measures, device, model, point) {
        Some(tag) => Ok(tag),
        None => Err(SiteFault::BadType),
    }
}

/// The tag's model: one of the gateway's own, or any that is defined.
fn model_for<'a>(scope: Scope<'a, '_>, access: Option<Access>, id: i64) -> Option<&'a ModelDef>
    ensures { option_map (λ m. m.now) result ≡ model_for scope.entry.own.now scope.entry.defs.now access id }
{
    match access {
        Some(access) if !is_polled(access) => model_of(scope.own, id),
        _ => definition_of(scope.defs, id),
    }
}

/// The point of a name.
pub fn point_for<'a>(name: &str, model: &'a ModelDef) -> Option<&'a Point>
    ensures { option_map (λ p. p.now) result ≡ point_for name.now model.now }
{
    model.points.as_slice().get(model.find(name)?)
}

/// Whether the tag stands on the ID or the length of one of the gateway's models.
fn is_on_heading(tag: &SiteTag) -> bool
    ensures { result ≡ is_on_heading (tag_view tag.now) }
{
    is_own(tag.access) && tag.offset < 2
}

/// Whether a tag has this one's name or its place.
pub(crate) fn is_taken(seen: &[SiteTag], tag: &SiteTag) -> bool
    ensures { result ≡ list_any (clashes (tag_view tag.now)) (map tag_view seen.now) }
{
    for other in seen {
        if clashes(tag, other) {
            return true;
        }
    }
    false
}

fn clashes(tag: &SiteTag, other: &SiteTag) -> bool
    ensures { result ≡ clashes (tag_view tag.now) (tag_view other.now) }
{
    tag.name.as_bytes() == other.name.as_bytes() || is_same_point(tag, other)
}

fn is_same_point(tag: &SiteTag, other: &SiteTag) -> bool
    ensures { result ≡ is_same_point (tag_view tag.now) (tag_view other.now) }
{
    is_same_side(tag.access, other.access)
        && is_same_device(tag.device, other.device)
        && tag.model == other.model
        && tag.offset == other.offset
}

/// Whether both are written to devices, or both are the gateway's own.
pub fn is_same_side(access: Access, other: Access) -> bool
    ensures { result ≡ is_same_side access other }
{
    match (access, other) {
        (Access::Output, Access::Output) => true,
        (Access::Output, _) => false,
        (access, other) => is_own(access) && is_own(other),
    }
}

pub(crate) fn is_same_device(device: Option<usize>, other: Option<usize>) -> bool
    ensures { result ≡ is_same_device device other }
{
    match (device, other) {
        (None, None) => true,
        (Some(i), Some(j)) => i == j,
        _ => false,
    }
}
