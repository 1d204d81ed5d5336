//! The `[[device.value]]` entries of a plant file.
ghost use Rattle.std.specs.Prelude.{◌≡◌, ◌≢◌, ◌≤◌, ◌<◌, ◌^◌, ◌+◌, ◌==◌, ◌⊎◌, ◌<ℤ◌, ◌≤ℤ◌, ℕ, pos, neg_ℤ, ◌%◌, ⊤, [], Some, None, Ok, Err, option_map, length, IfErr, OnOk, MatchResult, MatchOption};
ghost use Rattle.std.specs.Int.{int_rem_euclid};
ghost use Rattle.std.specs.List.{list_any};
ghost use Rattle.toml.specs.View.{view, items_view};
ghost use Rattle.point_types.specs.Point.{size_of};
ghost use Rattle.inverter_sim.specs.Image.{split, stored};
ghost use Rattle.inverter_sim.specs.File.{map_length, value_keys, is_signed, is_spelled, wrapped, spelled, words_of_kind, words_of_point, valued_at, valued_by, valued, valued_all, values_of};
ghost use Rattle.inverter_sim.specs.Parts.{IsInValues};
ghost use Rattle.inverter_sim.specs.Reading.{models_view, value_keys_view};
ghost use Rattle.inverter_sim.specs.declared.fault.PlantFault.TheVariants as fault;

use super::image::store;
use super::layout::{locate, point_named};
use crate::fault::PlantFault;
use crate::part::PlantPart;
use file_keys::{number_at, section_at, text_at};
use model_defs::{ModelDef, Point};
use point_types::{Kind, numbers_held};
use std::alloc::Global;
use toml::Value;

/// The keys of an entry.
#[derive(Clone, Copy)]
struct ValueKeys<'a> {
    model: i64,
    point: &'a str,
    raw: i64,
}

/// Gives the points of the device of that number the values that its entries name, and notes the one that the reader has
/// come to.
pub(super) fn give_values(
    alloc: Global,
    models: &[&ModelDef],
    registers: &mut Vec<u16>,
    tree: &Value,
    device: usize,
    part: &mut PlantPart,
) -> Result<(), PlantFault>
    requires { map_length (models_view models.now) ≤ 65536 }
    ensures values { MatchResult result
        (λ _. values_of (models_view models.now) registers.old.items (view tree.now) ≡ Ok registers.new.items)
        (λ e. e ≢ fault.OutOfMemory → values_of (models_view models.now) registers.old.items (view tree.now) ≡ Err e) }
    ensures placed { IfErr result (λ e. e ≢ fault.OutOfMemory
        → IsInValues (models_view models.now) registers.old.items device (view tree.now) part.old part.new e) }
    ensures len { length registers.new.items ≡ length registers.old.items }
{
    let Some(entries) = section_at(tree, "value") else {
        return Err(PlantFault::MissingKey);
    };
    let mut seen = Vec::new(alloc);
    for entry in entries {
        *part = PlantPart::Value(device, seen.len());
        give_value(models, registers, &mut seen, entry)?;
    }
    Ok(())
}

/// Gives a point the value that an entry names.
fn give_value(
    models: &[&ModelDef],
    registers: &mut Vec<u16>,
    seen: &mut Vec<usize>,
    entry: &Value,
) -> Result<(), PlantFault>
    requires { map_length (models_view models.now) ≤ 65536 }
    ensures value { MatchResult result
        (λ _. valued (models_view models.now) (record { registers = registers.old.items; seen = seen.old.items }) (view entry.now)
        ≡ Ok (record { registers = registers.new.items; seen = seen.new.items }))
        (λ e. e ≢ fault.OutOfMemory → valued (models_view models.now) (record { registers = registers.old.items; seen = seen.old.items }) (view entry.now) ≡ Err e) }
    ensures len { length registers.new.items ≡ length registers.old.items }
    ensures more { OnOk result (length seen.new.items ≡ length seen.old.items + 1) }
{
    match value_keys(entry) {
        Some(keys) => give_by(models, registers, seen, keys),
        None => Err(PlantFault::MissingKey),
    }
}

/// Gives a point the value that the keys of an entry name.
fn give_by(
    models: &[&ModelDef],
    registers: &mut Vec<u16>,
    seen: &mut Vec<usize>,
    keys: ValueKeys<'_>,
) -> Result<(), PlantFault>
    requires { map_length (models_view models.now) ≤ 65536 }
    ensures value { MatchResult result
        (λ _. valued_by (models_view models.now) (record { registers = registers.old.items; seen = seen.old.items }) (value_keys_view keys.entry)
        ≡ Ok (record { registers = registers.new.items; seen = seen.new.items }))
        (λ e. e ≢ fault.OutOfMemory → valued_by (models_view models.now) (record { registers = registers.old.items; seen = seen.old.items }) (value_keys_view keys.entry) ≡ Err e) }
    ensures len { length registers.new.items ≡ length registers.old.items }
    ensures more { OnOk result (length seen.new.items ≡ length seen.old.items + 1) }
{
    let Some(found) = locate(models, keys.model, keys.model) else {
        return Err(PlantFault::UnknownModel);
    };
    let Some(point) = point_named(found.model, keys.point) else {
        return Err(PlantFault::UnknownPoint);
    };
    let Some(number) = number_of_point(point, keys.raw) else {
        return Err(PlantFault::BadRange);
    };
    let at = found.at as usize + point.offset as usize;
    give_at(registers, seen, at, point.kind.size(), number)
}

/// Stores a number in the registers from a place on, where none was given before.
fn give_at(
    registers: &mut Vec<u16>,
    seen: &mut Vec<usize>,
    at: usize,
    size: usize,
    number: u64,
) -> Result<(), PlantFault>
    requires at { at + 4 < 2 ^ 64 }
    requires size { (size ≡ 1) ⊎ (size ≡ 2) ⊎ (size ≡ 4) }
    ensures value { MatchResult result
        (λ _. valued_at (record { registers = registers.old.items; seen = seen.old.items }) at (split size number)
        ≡ Ok (record { registers = registers.new.items; seen = seen.new.items }))
        (λ e. e ≢ fault.OutOfMemory → valued_at (record { registers = registers.old.items; seen = seen.old.items }) at (split size number) ≡ Err e) }
    ensures len { length registers.new.items ≡ length registers.old.items }
    ensures more { OnOk result (length seen.new.items ≡ length seen.old.items + 1) }
{
    if is_seen(seen, at) {
        return Err(PlantFault::Duplicate);
    }
    seen.push(at)?;
    store_number(registers, at, size, number);
    Ok(())
}

fn is_seen(seen: &[usize], at: usize) -> bool
    ensures { result ≡ list_any (λ s. s == at) seen.now }
{
    for other in seen {
        if *other == at {
            return true;
        }
    }
    false
}

fn value_keys(entry: &Value) -> Option<ValueKeys<'_>>
    ensures { option_map value_keys_view result ≡ value_keys (view entry.now) }
{
    let model = number_at(entry, "model")?;
    let point = text_at(entry, "point")?;
    let raw = number_at(entry, "raw")?;
    Some(ValueKeys { model, point, raw })
}

/// The number that stands in the point's registers for a raw number: none for ID and L, for a string, and for one that
/// the registers can't stand for.
fn number_of_point(point: &Point, raw: i64) -> Option<u64>
    ensures words { option_map (split (size_of point.now.kind)) result ≡ words_of_point point.now raw }
    ensures numeric { MatchOption result ⊤ (λ _. point.now.kind ≢ Kind.String) }
{
    if point.offset < 2 {
        return None;
    }
    match point.kind {
        Kind::String => None,
        kind => wrapped(is_signed(kind), kind.size(), raw),
    }
}

/// The least and the greatest raw number that a point's registers stand for; none for ID and L, and for a string.
pub fn numbers_of(point: &Point) -> Option<(i128, i128)> {
    if point.offset < 2 || matches!(point.kind, Kind::String) {
        return None;
    }
    let words = numbers_held(point.kind.size() as u32);
    if is_signed(point.kind) {
        Some((-words / 2, words / 2 - 1))
    } else {
        Some((0, words - 1))
    }
}

fn is_signed(kind: Kind) -> bool
    ensures { result ≡ is_signed kind }
{
    match kind {
        Kind::Int16 => true,
        Kind::Sunssf => true,
        Kind::Int32 => true,
        Kind::Int64 => true,
        _ => false,
    }
}

/// A number in two's complement in so many registers, where they can stand for it.
fn wrapped(signed: bool, size: usize, raw: i64) -> Option<u64>
    requires { size ≤ 4 }
    ensures { option_map (split size) result ≡ spelled signed size raw }
{
    if is_spelled(signed, size as u32, raw) {
        Some(remainder(size as u32, raw))
    } else {
        None
    }
}

fn is_spelled(signed: bool, size: u32, raw: i64) -> bool
    requires { size ≤ 4 }
    ensures { result ≡ is_spelled signed (pos (65536 ^ size)) raw }
{
    is_one_of(signed, numbers_held(size), i128::from(raw))
}

fn is_one_of(signed: bool, words: i128, raw: i128) -> bool
    requires words { (pos 0 <ℤ words) × (words ≤ℤ pos (2 ^ 64)) }
    requires raw { (neg_ℤ (pos (2 ^ 64)) ≤ℤ raw) × (raw ≤ℤ pos (2 ^ 64)) }
    ensures { result ≡ is_spelled signed words raw }
{
    if signed {
        -words <= raw + raw && raw + raw <= words - 1
    } else {
        0 <= raw && raw <= words - 1
    }
}

fn remainder(size: u32, raw: i64) -> u64
    requires { size ≤ 4 }
    ensures { int_rem_euclid raw (pos (65536 ^ size)) ≡ pos result }
{
    i128::from(raw).rem_euclid(numbers_held(size)) as u64
}

/// Writes a number into 1, 2 or 4 registers, the most significant first.
fn store_number(registers: &mut Vec<u16>, at: usize, size: usize, number: u64)
    requires at { at + 4 < 2 ^ 64 }
    requires size { (size ≡ 1) ⊎ (size ≡ 2) ⊎ (size ≡ 4) }
    ensures stored { registers.new.items ≡ stored at (split size number) registers.old.items }
    ensures len { length registers.new.items ≡ length registers.old.items }
{
    let first = digit(number / 65536 / 65536 / 65536);
    let second = digit(number / 65536 / 65536);
    let third = digit(number / 65536);
    let last = digit(number);
    match size {
        1 => store(registers, at, &[last]),
        2 => store(registers, at, &[third, last]),
        _ => store(registers, at, &[first, second, third, last]),
    }
}

fn digit(number: u64) -> u16
    ensures { result ≡ number % 65536 }
{
    (number % 65536) as u16
}
