//! Tags that are the time since the scan before.
ghost use Rattle.std.specs.Prelude.{◌≡◌, map, option_map, Some, Ok, Err, MatchResult, true};
ghost use Rattle.std.specs.Option.{option_map_or};
ghost use Rattle.toml.specs.View.{view};
ghost use Rattle.site_model.specs.Tagging.{has_key, has_point_words, has_range, has_time_range, is_time, time_keys, time_over, time_placed, time_tag_of, time_typed, type_of};
ghost use Rattle.site_model.specs.Views.{time_keys_view};
ghost use Rattle.site_model.specs.TagView.{tag_view};

use crate::access::Access;
use crate::fault::SiteFault;
use crate::fit::Fit;
use crate::tag::{Sf, SiteTag};
use crate::tag_keys::{tag_name, type_of};
use crate::tag_rules::has_range;
use crate::tags::is_taken;
use file_keys::{number_at, text_at};
use point_types::{IlType, Kind, Name};
use toml::Value;

/// The keys of such a tag, each of its kind.
#[derive(Clone, Copy)]
pub(crate) struct TimeKeys<'a> {
    name: &'a str,
    kind: &'a str,
    low: i64,
    high: i64,
}

/// Whether the entry's access says that its tag is the time since the scan before.
pub fn is_time(entry: &Value) -> bool
    ensures { result ≡ is_time (view entry.now) }
{
    match text_at(entry, "access") {
        Some(word) => word == "time",
        None => false,
    }
}

/// Reads such a tag after those before it.
pub(crate) fn read_time_tag(seen: &[SiteTag], entry: &Value) -> Result<SiteTag, SiteFault>
    ensures { MatchResult result
        (λ t. time_tag_of (map tag_view seen.now) (view entry.now) ≡ Ok (tag_view t))
        (λ e. time_tag_of (map tag_view seen.now) (view entry.now) ≡ Err e) }
{
    let keys = time_keys(entry).ok_or(SiteFault::MissingKey)?;
    let tag = time_placed(keys, has_point_words(entry))?;
    if is_taken(seen, &tag) {
        return Err(SiteFault::Duplicate);
    }
    Ok(tag)
}

fn time_keys(entry: &Value) -> Option<TimeKeys<'_>>
    ensures { option_map time_keys_view result ≡ time_keys (view entry.now) }
{
    Some(TimeKeys {
        name: text_at(entry, "name")?,
        kind: text_at(entry, "type")?,
        low: number_at(entry, "low")?,
        high: number_at(entry, "high")?,
    })
}

/// Whether the entry has a key that speaks of a point, or of what that is worth while it has no value.
fn has_point_words(entry: &Value) -> bool
    ensures { result ≡ has_point_words (view entry.now) }
{
    has_key(entry, "device")
        || has_key(entry, "model")
        || has_key(entry, "point")
        || has_key(entry, "exponent")
        || has_key(entry, "default")
        || has_key(entry, "bit")
        || has_key(entry, "round")
        || has_key(entry, "lapse")
        || has_key(entry, "fit")
        || has_key(entry, "with")
}

fn has_key(entry: &Value, key: &str) -> bool
    ensures { result ≡ has_key (view entry.now) key.now }
{
    entry.get(key).is_some()
}

/// The tag, where its numbers lie in their ranges and its words are allowed.
#[tactic(auto, using(point_types::proofs::Truths::both))]
fn time_placed(keys: TimeKeys<'_>, has_point: bool) -> Result<SiteTag, SiteFault>
    ensures { MatchResult result
        (λ t. time_placed (time_keys_view keys.entry) has_point ≡ Ok (tag_view t))
        (λ e. time_placed (time_keys_view keys.entry) has_point ≡ Err e) }
{
    if !has_time_range(type_of(keys.kind), keys) {
        return Err(SiteFault::BadRange);
    }
    if has_point {
        return Err(SiteFault::BadType);
    }
    match time_typed(keys) {
        Some(tag) => Ok(tag),
        None => Err(SiteFault::BadType),
    }
}

/// Whether the range ascends within the type, where it is known; no time is negative.
fn has_time_range(kind: Option<IlType>, keys: TimeKeys<'_>) -> bool
    ensures { result ≡ has_time_range kind (time_keys_view keys.entry) }
{
    0 <= keys.low && has_range(kind, keys.low, keys.high, keys.low)
}

/// The tag, where its words are allowed.
fn time_typed(keys: TimeKeys<'_>) -> Option<SiteTag>
    requires { has_range (type_of keys.kind.now) keys.low keys.high keys.low ≡ true }
    ensures { option_map tag_view result ≡ time_typed (time_keys_view keys.entry) }
{
    let name = tag_name(keys.name)?;
    let kind = type_of(keys.kind)?;
    if kind == IlType::Bool {
        return None;
    }
    Some(time_over(keys, name, kind))
}

/// The tag of these keys. It has no point: what others say of theirs is empty here.
fn time_over(keys: TimeKeys<'_>, name: Name, kind: IlType) -> SiteTag
    requires { has_range (Some kind) keys.low keys.high keys.low ≡ true }
    ensures { tag_view result ≡ time_over (time_keys_view keys.entry) name kind }
{
    SiteTag {
        name,
        access: Access::Time,
        kind,
        low: keys.low,
        high: keys.high,
        default: Some(keys.low),
        exponent: 0,
        bit: None,
        down: false,
        lapse: None,
        fit: Fit::Exact,
        companion: None,
        device: None,
        model: 0,
        point: Kind::Uint32,
        writable: false,
        offset: 0,
        sf: Sf::None,
    }
}
