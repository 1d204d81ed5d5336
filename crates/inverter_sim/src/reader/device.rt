//! The `[[device]]` entries of a plant file.
ghost use Rattle.std.specs.Prelude.{◌≡◌, ◌≢◌, ◌≤◌, ◌↔◌, [], ◌∷◌, Some, None, Ok, Err, pos, true, false, option_map, length, unsigned_abs, IsTrue, IfErr, IfOk, MatchOption, MatchResult, codes};
ghost use Rattle.std.specs.List.{list_any};
ghost use Rattle.std.specs.Ordering.{int_eq};
ghost use Rattle.toml.specs.View.{view, items_view};
ghost use Rattle.inverter_sim.specs.File.{map_length, device_keys, definition_of, definitions_of, begins_with_one, has_room, is_in_range, has_repeat, works_has_repeat, is_duplicate, first_works, blank_device, device_of, devices_from, devices_of};
ghost use Rattle.inverter_sim.specs.Parts.{IsDeviceRefused, IsInDevice, IsInSection};
ghost use Rattle.inverter_sim.specs.Reading.{models_view, works_keys_view, device_keys_view};
ghost use Rattle.inverter_sim.specs.declared.fault.PlantFault.TheVariants as fault;

use super::device_entry::{PlantDeviceKeys, WorksKeys, device_keys};
use super::image::{image_of, places_of};
use super::keys::within;
use super::layout::has_room;
use super::values::give_values;
use super::working::works_of;
use crate::device::Device;
use crate::fault::PlantFault;
use crate::part::PlantPart;
use crate::works::Works;
use file_keys::section_at;
use model_defs::ModelDef;
use std::alloc::Global;
use toml::Value;

/// The devices of a plant file; the part that the reader has come to is noted.
pub(crate) fn devices_of(
    alloc: Global,
    tree: &Value,
    defs: &[ModelDef],
    part: &mut PlantPart,
) -> Result<Vec<Device>, PlantFault>
    ensures read { MatchResult result (λ v. devices_of defs.now (view tree.now) ≡ Ok v.items)
        (λ e. e ≢ fault.OutOfMemory → devices_of defs.now (view tree.now) ≡ Err e) }
    ensures placed { IfErr result (λ e. e ≢ fault.OutOfMemory
        → IsInSection (codes "device") (IsDeviceRefused defs.now) (view tree.now) part.new e) }
{
    *part = PlantPart::File;
    let Some(entries) = section_at(tree, "device") else {
        return Err(PlantFault::MissingKey);
    };
    devices_in(alloc, entries, defs, part)
}

fn devices_in(
    alloc: Global,
    entries: &[Value],
    defs: &[ModelDef],
    part: &mut PlantPart,
) -> Result<Vec<Device>, PlantFault>
    ensures read { MatchResult result (λ v. devices_from defs.now [] (items_view entries.now) ≡ Ok v.items)
        (λ e. e ≢ fault.OutOfMemory → devices_from defs.now [] (items_view entries.now) ≡ Err e) }
    ensures placed { IfErr result (λ e. e ≢ fault.OutOfMemory → IsDeviceRefused defs.now (items_view entries.now) part.new e) }
{
    let mut devices = Vec::new(alloc);
    for entry in entries {
        let device = device_of(alloc, entry, defs, &devices, part)?;
        devices.push(device)?;
    }
    Ok(devices)
}

/// The definition of an ID; of two the last one counts.
pub fn definition_of(defs: &[ModelDef], number: i64) -> Option<&ModelDef>
    ensures { option_map (λ d. d.now) result ≡ definition_of defs.now number }
{
    defs.iter().rev().find(|d| i64::from(d.id) == number)
}

fn definitions_of<'a>(
    alloc: Global,
    defs: &'a [ModelDef],
    numbers: &[i64],
) -> Result<Vec<&'a ModelDef>, PlantFault>
    ensures { MatchResult result (λ v. definitions_of defs.now numbers.now ≡ Some (models_view v.items))
        (λ e. e ≢ fault.OutOfMemory → (e ≡ fault.UnknownModel) × (definitions_of defs.now numbers.now ≡ None)) }
{
    let mut models = Vec::new(alloc);
    for number in numbers {
        let Some(model) = definition_of(defs, *number) else {
            return Err(PlantFault::UnknownModel);
        };
        models.push(model)?;
    }
    Ok(models)
}

fn begins_with_one(numbers: &[i64]) -> bool
    ensures { result ≡ begins_with_one numbers.now }
{
    match numbers {
        [first, ..] => *first == 1,
        [] => false,
    }
}

/// The numbers of a device, each in its limits.
#[derive(Drop)]
struct Ranges {
    unit: u8,
    base: u16,
    slow: u32,
    works: Works,
}

fn has_repeat(numbers: &[i64]) -> bool
    ensures { result ≡ has_repeat numbers.now }
{
    let mut rest = numbers;
    while let [number, behind @ ..] = rest {
        if contains(behind, *number) {
            return true;
        }
        rest = behind;
    }
    false
}

fn is_duplicate(seen: &[Device], keys: &PlantDeviceKeys) -> bool
    ensures { result ≡ is_duplicate seen.now (device_keys_view keys.now) }
{
    has_unit(seen, keys.unit) || has_repeat(&keys.models) || works_has_repeat(&keys.works)
}

fn works_has_repeat(keys: &WorksKeys) -> bool
    ensures { result ≡ works_has_repeat (works_keys_view keys.now) }
{
    match keys {
        WorksKeys::Inverter(_) => false,
        WorksKeys::Meter(keys) => has_repeat(&keys.behind),
    }
}

fn has_unit(devices: &[Device], unit: i64) -> bool
    ensures { result ≡ list_any (λ d. int_eq (pos d.unit) unit) devices.now }
{
    for device in devices {
        if same(i64::from(device.unit()), unit) {
            return true;
        }
    }
    false
}

fn contains(numbers: &[i64], number: i64) -> bool
    ensures { result ≡ list_any (int_eq number) numbers.now }
{
    for other in numbers {
        if same(number, *other) {
            return true;
        }
    }
    false
}

fn same(number: i64, other: i64) -> bool
    ensures { result ≡ int_eq number other }
{
    number == other
}

#[tactic(auto, using(crate::proofs::Images::images_match))]
fn device_of(
    alloc: Global,
    entry: &Value,
    defs: &[ModelDef],
    seen: &[Device],
    part: &mut PlantPart,
) -> Result<Device, PlantFault>
    ensures read { MatchResult result (λ d. device_of defs.now seen.now (view entry.now) ≡ Ok d)
        (λ e. e ≢ fault.OutOfMemory → device_of defs.now seen.now (view entry.now) ≡ Err e) }
    ensures placed { IfErr result (λ e. e ≢ fault.OutOfMemory
        → IsInDevice defs.now seen.now (length seen.now) (view entry.now) part.new e) }
{
    *part = PlantPart::Device(seen.len());
    let keys = device_keys(alloc, entry)?;
    let models = definitions_of(alloc, defs, &keys.models)?;
    let ranges = ranges_of(alloc, seen, &keys, &models)?;
    if is_duplicate(seen, &keys) {
        return Err(PlantFault::Duplicate);
    }
    let places = places_of(alloc, &models)?;
    let mut registers = image_of(alloc, &models)?;
    give_values(alloc, &models, &mut registers, entry, seen.len(), part)?;
    Ok(Device {
        unit: ranges.unit,
        base: ranges.base,
        works: ranges.works,
        registers,
        places,
        slow: ranges.slow,
    })
}

fn ranges_of(
    alloc: Global,
    seen: &[Device],
    keys: &PlantDeviceKeys,
    models: &[&ModelDef],
) -> Result<Ranges, PlantFault>
    ensures ranges { MatchResult result
        (λ r. (is_in_range seen.now (device_keys_view keys.now) (models_view models.now) ≡ true)
        × (unsigned_abs keys.now.unit ≡ r.unit) × (unsigned_abs keys.now.base ≡ r.base) × (unsigned_abs keys.now.slow ≡ r.slow)
        × (first_works (models_view models.now) (works_keys_view keys.now.works) ≡ r.works))
        (λ e. e ≢ fault.OutOfMemory → (e ≡ fault.BadRange) × (is_in_range seen.now (device_keys_view keys.now) (models_view models.now) ≡ false)) }
    ensures room { IfOk result (λ _. map_length (models_view models.now) ≤ 65536) }
{
    let Some(unit) = within(keys.unit, 0, 255) else {
        return Err(PlantFault::BadRange);
    };
    let Some(base) = within(keys.base, 0, 65534) else {
        return Err(PlantFault::BadRange);
    };
    if !begins_with_one(&keys.models) || !has_room(keys.base, models) {
        return Err(PlantFault::BadRange);
    }
    let Some(slow) = within(keys.slow, 0, 60_000) else {
        return Err(PlantFault::BadRange);
    };
    let works = works_of(alloc, seen, &keys.models, &keys.works, models)?;
    Ok(Ranges {
        unit: unit as u8,
        base: base as u16,
        slow,
        works,
    })
}
