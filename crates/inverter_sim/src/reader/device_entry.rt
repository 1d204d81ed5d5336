//! The keys of a `[[device]]` entry of a plant file.
ghost use Rattle.std.specs.Prelude.{◌≡◌, ◌≢◌, Some, None, Ok, Err, MatchResult};
ghost use Rattle.toml.specs.View.{view};
ghost use Rattle.inverter_sim.specs.File.{kind_of, works_keys, keys_of, device_keys};
ghost use Rattle.inverter_sim.specs.Reading.{works_keys_view, device_keys_view};
ghost use Rattle.inverter_sim.specs.declared.fault.PlantFault.TheVariants as fault;

use super::keys::integers_at;
use crate::device_kind::{DeviceKind, kind_named};
use crate::fault::PlantFault;
use file_keys::{number_at, number_or, optional_number_at, optional_text_at};
use std::alloc::Global;
use toml::Value;

/// The base of a device whose entry has none.
const USUAL_BASE: i64 = 40000;

/// How late a device answers whose entry doesn't say so, in milliseconds.
const USUAL_SLOW: i64 = 0;

/// The keys of an entry.
#[derive(Drop)]
pub(super) struct PlantDeviceKeys {
    pub(super) unit: i64,
    pub(super) models: Vec<i64>,
    pub(super) works: WorksKeys,
    pub(super) base: i64,
    pub(super) slow: i64,
}

/// The keys that a device of one kind has.
#[derive(Drop)]
pub(super) enum WorksKeys {
    Inverter(InverterKeys),
    Meter(MeterKeys),
}

#[derive(Drop)]
pub(super) struct InverterKeys {
    pub(super) wmax: i64,
    pub(super) available: Vec<i64>,
    pub(super) ramp: Option<i64>,
}

#[derive(Drop)]
pub(super) struct MeterKeys {
    pub(super) load: Vec<i64>,
    pub(super) behind: Vec<i64>,
}

/// The keys of a device's entry.
pub(super) fn device_keys(alloc: Global, entry: &Value) -> Result<PlantDeviceKeys, PlantFault>
    ensures { MatchResult result (λ k. device_keys (view entry.now) ≡ Ok (device_keys_view k))
        (λ e. e ≢ fault.OutOfMemory → device_keys (view entry.now) ≡ Err e) }
{
    match kind_of(entry) {
        Ok(kind) => keys_of(alloc, entry, kind),
        Err(fault) => Err(fault),
    }
}

/// The kind of a device, which is an inverter where its entry doesn't say.
fn kind_of(entry: &Value) -> Result<DeviceKind, PlantFault>
    ensures { result ≡ kind_of (view entry.now) }
{
    match optional_text_at(entry, "kind") {
        Some(Some(word)) => kind_named(word).ok_or(PlantFault::BadRange),
        Some(None) => Ok(DeviceKind::Inverter),
        None => Err(PlantFault::MissingKey),
    }
}

fn keys_of(alloc: Global, entry: &Value, kind: DeviceKind) -> Result<PlantDeviceKeys, PlantFault>
    ensures { MatchResult result (λ k. keys_of kind (view entry.now) ≡ Some (device_keys_view k))
        (λ e. e ≢ fault.OutOfMemory → (e ≡ fault.MissingKey) × (keys_of kind (view entry.now) ≡ None)) }
{
    let Some(unit) = number_at(entry, "unit") else {
        return Err(PlantFault::MissingKey);
    };
    let models = integers_at(alloc, entry, "models")?;
    let works = works_keys(alloc, entry, kind)?;
    let Some(base) = number_or(entry, "base", USUAL_BASE) else {
        return Err(PlantFault::MissingKey);
    };
    let Some(slow) = number_or(entry, "slow", USUAL_SLOW) else {
        return Err(PlantFault::MissingKey);
    };
    Ok(PlantDeviceKeys {
        unit,
        models,
        works,
        base,
        slow,
    })
}

fn works_keys(alloc: Global, entry: &Value, kind: DeviceKind) -> Result<WorksKeys, PlantFault>
    ensures { MatchResult result (λ k. works_keys kind (view entry.now) ≡ Some (works_keys_view k))
        (λ e. e ≢ fault.OutOfMemory → (e ≡ fault.MissingKey) × (works_keys kind (view entry.now) ≡ None)) }
{
    match kind {
        DeviceKind::Inverter => inverter_keys(alloc, entry),
        DeviceKind::Meter => meter_keys(alloc, entry),
    }
}

fn inverter_keys(alloc: Global, entry: &Value) -> Result<WorksKeys, PlantFault>
    ensures { MatchResult result (λ k. works_keys DeviceKind.Inverter (view entry.now) ≡ Some (works_keys_view k))
        (λ e. e ≢ fault.OutOfMemory → (e ≡ fault.MissingKey) × (works_keys DeviceKind.Inverter (view entry.now) ≡ None)) }
{
    let Some(wmax) = number_at(entry, "wmax") else {
        return Err(PlantFault::MissingKey);
    };
    let available = integers_at(alloc, entry, "available")?;
    let Some(ramp) = optional_number_at(entry, "ramp") else {
        return Err(PlantFault::MissingKey);
    };
    Ok(WorksKeys::Inverter(InverterKeys {
        wmax,
        available,
        ramp,
    }))
}

fn meter_keys(alloc: Global, entry: &Value) -> Result<WorksKeys, PlantFault>
    ensures { MatchResult result (λ k. works_keys DeviceKind.Meter (view entry.now) ≡ Some (works_keys_view k))
        (λ e. e ≢ fault.OutOfMemory → (e ≡ fault.MissingKey) × (works_keys DeviceKind.Meter (view entry.now) ≡ None)) }
{
    let load = integers_at(alloc, entry, "load")?;
    let behind = integers_at(alloc, entry, "behind")?;
    Ok(WorksKeys::Meter(MeterKeys { load, behind }))
}
