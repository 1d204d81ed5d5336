//! From a table of the section `tag` to its keys, and what its words mean.
ghost use Rattle.std.specs.Prelude.{◌≡◌, ◌-◌, length, drop, option_map, option_copied, codes};
ghost use Rattle.std.specs.Str.{bytes_eq};
ghost use Rattle.toml.specs.View.{view};
ghost use Rattle.site_model.specs.Tagging.{tag_keys, numbers_of, place_of, access_of, type_of, ends_in_ok, tag_name};
ghost use Rattle.site_model.specs.Views.{numbers_view, place_view, tag_keys_view};

use crate::access::Access;
use file_keys::{number_at, optional_number_at, optional_text_at, text_at};
use point_types::{IlType, Name};
use toml::Value;

/// The keys of a tag, each of its kind.
#[derive(Clone, Copy)]
pub(crate) struct TagKeys<'a> {
    pub(crate) name: &'a str,
    pub(crate) access: &'a str,
    pub(crate) kind: &'a str,
    pub(crate) place: TagPlace<'a>,
    pub(crate) numbers: Numbers,
    pub(crate) bit: Option<i64>,
    pub(crate) round: Option<&'a str>,
    pub(crate) lapse: Option<i64>,
    pub(crate) fit: Option<&'a str>,
    pub(crate) companion: Option<&'a str>,
}

/// The keys that say where the tag's point is.
#[derive(Clone, Copy)]
pub(crate) struct TagPlace<'a> {
    pub(crate) device: Option<&'a str>,
    pub(crate) model: i64,
    pub(crate) point: &'a str,
}

/// The keys that say which numbers the tag may have.
#[derive(Clone, Copy)]
pub(crate) struct Numbers {
    pub(crate) exponent: i64,
    pub(crate) low: i64,
    pub(crate) high: i64,
    pub(crate) default: Option<i64>,
}

pub(crate) fn keys_of(entry: &Value) -> Option<TagKeys<'_>>
    ensures { option_map tag_keys_view result ≡ tag_keys (view entry.now) }
{
    Some(TagKeys {
        name: text_at(entry, "name")?,
        access: text_at(entry, "access")?,
        kind: text_at(entry, "type")?,
        place: place_of(entry)?,
        numbers: numbers_of(entry)?,
        bit: optional_number_at(entry, "bit")?,
        round: optional_text_at(entry, "round")?,
        lapse: optional_number_at(entry, "lapse")?,
        fit: optional_text_at(entry, "fit")?,
        companion: optional_text_at(entry, "with")?,
    })
}

fn place_of(entry: &Value) -> Option<TagPlace<'_>>
    ensures { option_map place_view result ≡ place_of (view entry.now) }
{
    Some(TagPlace {
        device: optional_text_at(entry, "device")?,
        model: number_at(entry, "model")?,
        point: text_at(entry, "point")?,
    })
}

fn numbers_of(entry: &Value) -> Option<Numbers>
    ensures { option_map numbers_view result ≡ numbers_of (view entry.now) }
{
    Some(Numbers {
        exponent: number_at(entry, "exponent")?,
        low: number_at(entry, "low")?,
        high: number_at(entry, "high")?,
        default: optional_number_at(entry, "default")?,
    })
}

/// The access of a word.
pub fn access_of(word: &str) -> Option<Access>
    ensures { result ≡ access_of word.now }
{
    match word {
        "in" => Some(Access::Input),
        "out" => Some(Access::Output),
        "set" => Some(Access::Setting),
        "site" => Some(Access::Shown),
        _ => None,
    }
}

/// The type of a word (IEC 61131-3 edition 2, 2.3.1).
pub fn type_of(word: &str) -> Option<IlType>
    ensures { result ≡ type_of word.now }
{
    match word {
        "BOOL" => Some(IlType::Bool),
        "SINT" => Some(IlType::Sint),
        "INT" => Some(IlType::Int),
        "DINT" => Some(IlType::Dint),
        "LINT" => Some(IlType::Lint),
        "USINT" => Some(IlType::Usint),
        "UINT" => Some(IlType::Uint),
        "UDINT" => Some(IlType::Udint),
        _ => None,
    }
}

/// The name of a tag, which is in lower case and isn't that of another one's presence.
pub fn tag_name(text: &str) -> Option<Name>
    ensures { result ≡ tag_name text.now }
{
    let name = Name::from_bytes(text.as_bytes())?;
    if name.as_str() == text && !ends_in_ok(text) {
        Some(name)
    } else {
        None
    }
}

fn ends_in_ok(text: &str) -> bool
    ensures { result ≡ ends_in_ok text.now }
{
    let bytes = text.as_bytes();
    let (_, end) = bytes.split_at(bytes.len().saturating_sub(3));
    end == b"_ok".as_slice()
}
