//! From the JSON object of a point to its name and description.
ghost use Rattle.std.specs.Prelude.{◌≡◌, Ok, Err, option_map, MatchResult};
ghost use Rattle.serde_json.specs.View.{view};
ghost use Rattle.model_defs.specs.Definition.{whole, factor_at, access_at, point_keys, kind_of, writable_by, registers, described, description_of};
ghost use Rattle.model_defs.specs.Descriptions.{factor_view, keys_view, description_view};

use crate::description::{Description, Factor};
use crate::fault::DefFault;
use point_types::Kind;
use serde_json::Value;

/// The keys of a point's object, each of its JSON kind.
#[derive(Clone, Copy)]
struct PointKeys<'a> {
    name: &'a str,
    kind: &'a str,
    size: i128,
    factor: Factor<'a>,
    access: &'a str,
}

/// A number without a fraction and without an exponent.
pub fn whole_number(tree: &Value) -> Option<i128>
    ensures { result ≡ whole (view tree.now) }
{
    tree.as_number().and_then(|n| n.as_i128())
}

/// The factor at the key `sf`, which may be missing.
fn factor_of(point: &Value) -> Option<Factor<'_>>
    ensures { option_map factor_view result ≡ factor_at (view point.now) }
{
    let Some(tree) = point.get("sf") else {
        return Some(Factor::Unscaled);
    };
    if let Some(name) = tree.as_str() {
        return Some(Factor::Named(name));
    }
    Some(Factor::Fixed(whole_number(tree)?))
}

/// The word at the key `access`: R where it is missing.
fn access_of(point: &Value) -> Option<&str>
    ensures { option_map (λ s. s.now) result ≡ access_at (view point.now) }
{
    match point.get("access") {
        None => Some("R"),
        Some(tree) => tree.as_str(),
    }
}

fn keys_of(tree: &Value) -> Option<PointKeys<'_>>
    ensures { option_map keys_view result ≡ point_keys (view tree.now) }
{
    Some(PointKeys {
        name: tree.get("name")?.as_str()?,
        kind: tree.get("type")?.as_str()?,
        size: whole_number(tree.get("size")?)?,
        factor: factor_of(tree)?,
        access: access_of(tree)?,
    })
}

/// The kind of a type's word (SunSpec Device Information Model Specification, the table of types).
pub fn kind_named(word: &str) -> Option<Kind>
    ensures { result ≡ kind_of word.now }
{
    match word {
        "int16" => Some(Kind::Int16),
        "uint16" => Some(Kind::Uint16),
        "acc16" => Some(Kind::Acc16),
        "enum16" => Some(Kind::Enum16),
        "bitfield16" => Some(Kind::Bitfield16),
        "sunssf" => Some(Kind::Sunssf),
        "pad" => Some(Kind::Pad),
        "int32" => Some(Kind::Int32),
        "uint32" => Some(Kind::Uint32),
        "enum32" => Some(Kind::Enum32),
        "bitfield32" => Some(Kind::Bitfield32),
        "acc32" => Some(Kind::Acc32),
        "int64" => Some(Kind::Int64),
        "uint64" => Some(Kind::Uint64),
        "acc64" => Some(Kind::Acc64),
        "string" => Some(Kind::String),
        _ => None,
    }
}

/// Whether an access word lets clients write.
fn is_writable(access: &str) -> Option<bool>
    ensures { result ≡ writable_by access.now }
{
    if access == "R" {
        Some(false)
    } else if access == "RW" {
        Some(true)
    } else {
        None
    }
}

/// The registers of a point, where its kind has that size.
fn registers_of(kind: Kind, size: i128) -> Option<u128>
    ensures { result ≡ registers kind size }
{
    if size < 0 {
        return None;
    }
    let size = size as u128;
    let fits = match kind {
        Kind::String => size >= 1,
        _ => size == kind.size() as u128,
    };
    if fits { Some(size) } else { None }
}

/// Reads a point's object: its name, and what else it tells of the point.
pub(crate) fn read_point(tree: &Value) -> Result<(&str, Description<'_>), DefFault>
    ensures { MatchResult result
        (λ p. description_of (view tree.now) ≡ Ok (description_view p.0.now p.1))
        (λ e. description_of (view tree.now) ≡ Err e) }
{
    let keys = keys_of(tree).ok_or(DefFault::MissingKey)?;
    let kind = kind_named(keys.kind).ok_or(DefFault::BadType)?;
    let writable = is_writable(keys.access).ok_or(DefFault::BadType)?;
    let size = registers_of(kind, keys.size).ok_or(DefFault::BadSize)?;
    let factor = keys.factor;
    Ok((
        keys.name,
        Description {
            kind,
            size,
            factor,
            writable,
        },
    ))
}
