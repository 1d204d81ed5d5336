//! The points that a site file gives a value.
ghost use Rattle.std.specs.Prelude.{◌≡◌, ◌≢◌, [], map, find, slice_get, option_map, true, Some, Ok, Err, IfOk, IfErr};
ghost use Rattle.std.specs.List.{list_any};
ghost use Rattle.std.specs.Option.{option_map_or};
ghost use Rattle.toml.specs.View.{view, items_view};
ghost use Rattle.site_model.specs.Parts.{IsServedRefused};
ghost use Rattle.site_model.specs.Serving.{can_be_encoded, exponent_of_part, fits, given_of, has_one, has_room, is_entry_of, is_input_named, is_part, is_string, is_tag_of, is_used, part_number, parts_behind, raw_range, served_at, served_behind, served_keys, served_of, source_for, source_of, sum_of, total_source};
ghost use Rattle.site_model.specs.Tagging.{point_number};
ghost use Rattle.site_model.specs.Views.{given_view, served_keys_view};
ghost use Rattle.site_model.specs.TagView.{tag_view};
ghost use Rattle.site_model.specs.declared.fault.SiteFault.{SiteFault};
ghost use Rattle.site_model.specs.declared.fault.SiteFault.TheVariants as fault;

use crate::fault::SiteFault;
use crate::gateway::model_of;
use crate::part::SitePart;
use crate::served::{Served, Source};
use crate::sums::sum_of;
use crate::tag::SiteTag;
use crate::tag_rules::{is_numeric, is_own, is_sunssf, offset_at};
use crate::text::Text;
use file_keys::{
    flag_or, number_at, optional_number_at, optional_text_at, optional_texts_at, text_at,
};
use model_defs::{ModelDef, Point};
use point_types::{Items, Kind};
use std::alloc::Global;
use toml::Value;

/// The keys of an entry, each of its kind.
#[derive(Clone, Copy)]
struct ServedKeys<'a> {
    model: i64,
    point: &'a str,
    given: Given<'a>,
}

/// What the point is to be served with; one at least is there.
#[derive(Clone, Copy)]
struct Given<'a> {
    value: Option<i64>,
    text: Option<&'a str>,
    sum: Option<&'a [Value]>,
    /// Whether the sum is of those of its inputs that have a value.
    partial: bool,
}

/// Reads the entries in order, and notes the one that it has come to.
pub(crate) fn read_served(
    alloc: Global,
    own: &[ModelDef],
    tags: &[SiteTag],
    entries: &[Value],
    part: &mut SitePart,
) -> Result<Items<Served>, SiteFault>
    ensures told { IfOk result (λ served. served_behind own.now (map tag_view tags.now) [] (items_view entries.now) ≡ Ok served) }
    ensures refused { IfErr result (λ e. e ≢ fault.OutOfMemory
        → served_behind own.now (map tag_view tags.now) [] (items_view entries.now) ≡ Err e) }
    ensures placed { IfErr result (λ e. e ≢ fault.OutOfMemory
        → IsServedRefused own.now (map tag_view tags.now) (items_view entries.now) part.new e) }
{
    let mut served = Items::new(alloc);
    for entry in entries {
        *part = SitePart::Served(served.len());
        let point = read_entry(alloc, own, tags, served.as_slice(), entry)?;
        served.push(point)?;
    }
    Ok(served)
}

/// Reads an entry after those before it.
fn read_entry(
    alloc: Global,
    own: &[ModelDef],
    tags: &[SiteTag],
    seen: &[Served],
    entry: &Value,
) -> Result<Served, SiteFault>
    ensures told { IfOk result (λ s. served_of own.now (map tag_view tags.now) seen.now (view entry.now) ≡ Ok s) }
    ensures refused { IfErr result (λ e. e ≢ fault.OutOfMemory
        → served_of own.now (map tag_view tags.now) seen.now (view entry.now) ≡ Err e) }
{
    let Some(keys) = keys_of(entry) else {
        return Err(SiteFault::MissingKey);
    };
    let Some(model) = model_of(own, keys.model) else {
        return Err(SiteFault::UnknownModel);
    };
    let Some(number) = point_number(keys.point, model) else {
        return Err(SiteFault::UnknownPoint);
    };
    let Some(point) = point_at(model, number) else {
        return Err(SiteFault::UnknownPoint);
    };
    served_at(alloc, tags, seen, model, number, point, keys.given)
}

/// The number of the point of a name.
fn point_number(name: &str, model: &ModelDef) -> Option<usize>
    ensures { result ≡ point_number name.now model.now }
{
    model.find(name)
}

fn point_at(model: &ModelDef, number: usize) -> Option<&Point>
    ensures { option_map (λ p. p.now) result ≡ slice_get model.now.points number }
{
    model.points.as_slice().get(number)
}

/// The entry of a point.
fn served_at(
    alloc: Global,
    tags: &[SiteTag],
    seen: &[Served],
    model: &ModelDef,
    number: usize,
    point: &Point,
    given: Given<'_>,
) -> Result<Served, SiteFault>
    ensures told { IfOk result (λ s. served_at (map tag_view tags.now) seen.now model.now number point.now (given_view given.entry) ≡ Ok s) }
    ensures refused { IfErr result (λ e. e ≢ fault.OutOfMemory
        → served_at (map tag_view tags.now) seen.now model.now number point.now (given_view given.entry) ≡ Err e) }
{
    let source = source_for(alloc, tags, point, given)?;
    if is_used(tags, seen, model, number) {
        return Err(SiteFault::Duplicate);
    }
    Ok(Served {
        model: model.id,
        point: number,
        source,
    })
}

fn keys_of(entry: &Value) -> Option<ServedKeys<'_>>
    ensures { option_map served_keys_view result ≡ served_keys (view entry.now) }
{
    Some(ServedKeys {
        model: number_at(entry, "model")?,
        point: text_at(entry, "point")?,
        given: given_of(entry)?,
    })
}

fn given_of(entry: &Value) -> Option<Given<'_>>
    ensures { option_map given_view result ≡ given_of (view entry.now) }
{
    let value = optional_number_at(entry, "value")?;
    let text = optional_text_at(entry, "text")?;
    let sum = optional_texts_at(entry, "sum")?;
    let partial = flag_or(entry, "partial", false)?;
    if value.is_some() || text.is_some() || sum.is_some() {
        Some(Given {
            value,
            text,
            sum,
            partial,
        })
    } else {
        None
    }
}

/// What a point is served with.
fn source_for(
    alloc: Global,
    tags: &[SiteTag],
    point: &Point,
    given: Given<'_>,
) -> Result<Source, SiteFault>
    ensures told { IfOk result (λ s. source_for (map tag_view tags.now) point.now (given_view given.entry) ≡ Ok s) }
    ensures refused { IfErr result (λ e. e ≢ fault.OutOfMemory
        → source_for (map tag_view tags.now) point.now (given_view given.entry) ≡ Err e) }
{
    if !fits(point, given) {
        return Err(SiteFault::BadRange);
    }
    match source_of(alloc, tags, point.kind, given)? {
        Some(source) => Ok(source),
        None => Err(SiteFault::BadType),
    }
}

/// Whether the value can be encoded, and the text isn't too long.
fn fits(point: &Point, given: Given<'_>) -> bool
    ensures { result ≡ fits point.now (given_view given.entry) }
{
    let encodes = match given.value {
        Some(value) => can_be_encoded(point.kind, value),
        None => true,
    };
    encodes && text_fits(point, given.text)
}

fn text_fits(point: &Point, text: Option<&str>) -> bool
    ensures { result ≡ option_map_or (has_room point.now) (option_map (λ s. s.now) text.entry) true }
{
    match text {
        Some(text) => has_room(point, text),
        None => true,
    }
}

/// A text has two bytes a register.
fn has_room(point: &Point, text: &str) -> bool
    ensures { result ≡ has_room point.now text.now }
{
    !is_string(point.kind) || text.len() <= 2 * usize::from(point.size)
}

/// Whether words of the kind stand for this raw number.
fn can_be_encoded(point: Kind, raw: i64) -> bool
    ensures { result ≡ can_be_encoded point raw }
{
    match raw_range(point) {
        Some((low, high)) => low <= i128::from(raw) && i128::from(raw) <= high,
        None => true,
    }
}

/// The least and the greatest raw number of a kind, without the unimplemented one; None for kinds without a number.
pub fn raw_range(point: Kind) -> Option<(i128, i128)>
    ensures { result ≡ raw_range point }
{
    match point {
        Kind::Int16 | Kind::Sunssf => Some((-32767, 32767)),
        Kind::Int32 => Some((-2147483647, 2147483647)),
        Kind::Int64 => Some((-9223372036854775807, 9223372036854775807)),
        Kind::Uint16 | Kind::Enum16 => Some((0, 65534)),
        Kind::Uint32 | Kind::Enum32 => Some((0, 4294967294)),
        Kind::Uint64 => Some((0, 18446744073709551614)),
        Kind::Acc16 => Some((1, 65535)),
        Kind::Acc32 => Some((1, 4294967295)),
        Kind::Acc64 => Some((1, 18446744073709551615)),
        Kind::Bitfield16 => Some((0, 32767)),
        Kind::Bitfield32 => Some((0, 2147483647)),
        Kind::Pad | Kind::String => None,
    }
}

fn is_string(point: Kind) -> bool
    ensures { result ≡ is_string point }
{
    matches!(point, Kind::String)
}

/// One of value, text and sum, on a point of its kind, and partial only beside sum; None where they don't go together.
fn source_of(
    alloc: Global,
    tags: &[SiteTag],
    point: Kind,
    given: Given<'_>,
) -> Result<Option<Source>, SiteFault>
    ensures told { IfOk result (λ s. s ≡ source_of (map tag_view tags.now) point (given_view given.entry)) }
    ensures memory { IfErr result (λ e. e ≡ fault.OutOfMemory) }
{
    match (given.value, given.text, given.sum, given.partial) {
        (Some(raw), None, None, false) if is_numeric(point) => Ok(Some(Source::Raw(raw))),
        (None, Some(text), None, false) if is_string(point) => Ok(Some(Source::Text(Text::new(
            alloc, text,
        )?))),
        (None, None, Some(parts), partial) if is_numeric(point) && !is_sunssf(point) => {
            match sum_of(alloc, tags, parts)? {
                Some(parts) => Ok(Some(total_source(partial, parts))),
                None => Ok(None),
            }
        }
        _ => Ok(None),
    }
}

/// The total of some inputs, or of those that have a value.
fn total_source(partial: bool, parts: Items<usize>) -> Source
    ensures { result ≡ total_source partial parts }
{
    if partial {
        Source::PartialSum(parts)
    } else {
        Source::Sum(parts)
    }
}

/// Whether the point is the ID or the length, or has a value by an entry or a tag.
fn is_used(tags: &[SiteTag], seen: &[Served], model: &ModelDef, number: usize) -> bool
    ensures { result ≡ is_used (map tag_view tags.now) seen.now model.now number }
{
    number < 2
        || is_served(seen, model.id, number)
        || is_tagged(tags, model.id, offset_at(model, number))
}

fn is_served(seen: &[Served], model: u16, number: usize) -> bool
    ensures { result ≡ list_any (is_entry_of model number) seen.now }
{
    seen.iter().any(|s| s.model == model && s.point == number)
}

fn is_tagged(tags: &[SiteTag], model: u16, offset: u16) -> bool
    ensures { result ≡ list_any (is_tag_of model offset) (map tag_view tags.now) }
{
    for tag in tags {
        if is_own(tag.access) && tag.model == model && tag.offset == offset {
            return true;
        }
    }
    false
}
