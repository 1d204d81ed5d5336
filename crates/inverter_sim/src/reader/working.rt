//! What a device of a plant file works as.
ghost use Rattle.std.specs.Prelude.{◌≡◌, ◌≢◌, ◌≤◌, ◌<◌, ◌&&◌, All, pos, true, false, map, option_map, length, unsigned_abs, IfOk, MatchOption, MatchResult};
ghost use Rattle.std.specs.List.{list_any, list_all};
ghost use Rattle.std.specs.Option.{option_map_or};
ghost use Rattle.std.specs.Ordering.{int_eq};
ghost use Rattle.inverter_sim.specs.File.{map_length, is_in, are_watts, is_inverter, is_inverter_of, is_in_works_range, first_works};
ghost use Rattle.inverter_sim.specs.Image.{inverter_points, meter_points};
ghost use Rattle.inverter_sim.specs.Reading.{models_view, works_keys_view};
ghost use Rattle.inverter_sim.specs.declared.fault.PlantFault.TheVariants as fault;

use super::device_entry::{InverterKeys, MeterKeys, WorksKeys};
use super::keys::within;
use super::layout::{inverter_points, meter_points};
use crate::device::Device;
use crate::fault::PlantFault;
use crate::series::Series;
use crate::watts::Watts;
use crate::works::{Inverter, Meter, Works};
use model_defs::ModelDef;
use point_types::Items;
use std::alloc::Global;

/// What a device works as before its first tick, where the numbers of its own keys are in their limits; the IDs are those
/// of its models.
pub(super) fn works_of(
    alloc: Global,
    seen: &[Device],
    ids: &[i64],
    keys: &WorksKeys,
    models: &[&ModelDef],
) -> Result<Works, PlantFault>
    requires { map_length (models_view models.now) ≤ 65536 }
    ensures works { MatchResult result
        (λ w. (is_in_works_range seen.now ids.now (works_keys_view keys.now) ≡ true) × (w ≡ first_works (models_view models.now) (works_keys_view keys.now)))
        (λ e. e ≢ fault.OutOfMemory → (e ≡ fault.BadRange) × (is_in_works_range seen.now ids.now (works_keys_view keys.now) ≡ false)) }
{
    match keys {
        WorksKeys::Inverter(keys) => inverter_of(alloc, keys, models),
        WorksKeys::Meter(keys) => meter_of(alloc, seen, ids, keys, models),
    }
}

fn inverter_of(
    alloc: Global,
    keys: &InverterKeys,
    models: &[&ModelDef],
) -> Result<Works, PlantFault>
    requires { map_length (models_view models.now) ≤ 65536 }
    ensures { MatchResult result
        (λ w. (is_in (pos 0) (pos 1000000) keys.now.wmax ≡ true) × (are_watts keys.now.available.items ≡ true)
        × (option_map_or (is_in (pos 0) (pos 1000000)) keys.now.ramp true ≡ true)
        × (w ≡ Works.Inverter (record { wmax = unsigned_abs keys.now.wmax; available = map unsigned_abs keys.now.available.items; ramp = option_map unsigned_abs keys.now.ramp; produced = 0; points = inverter_points (models_view models.now) })))
        (λ e. e ≢ fault.OutOfMemory → (e ≡ fault.BadRange) × ((is_in (pos 0) (pos 1000000) keys.now.wmax && (are_watts keys.now.available.items && option_map_or (is_in (pos 0) (pos 1000000)) keys.now.ramp true)) ≡ false)) }
{
    let Some(wmax) = within(keys.wmax, 0, 1_000_000) else {
        return Err(PlantFault::BadRange);
    };
    let available = watts_of(alloc, &keys.available)?;
    let Some(ramp) = ramp_of(keys.ramp) else {
        return Err(PlantFault::BadRange);
    };
    Ok(Works::Inverter(Inverter {
        wmax,
        available,
        ramp,
        produced: Watts::new(0),
        points: inverter_points(models),
    }))
}

/// A number of watts that may be missing, in its limits.
fn ramp_of(number: Option<i64>) -> Option<Option<u32>>
    ensures { MatchOption result (option_map_or (is_in (pos 0) (pos 1000000)) number true ≡ false)
        (λ r. (option_map_or (is_in (pos 0) (pos 1000000)) number true ≡ true) × (r ≡ option_map unsigned_abs number)) }
{
    match number {
        Some(number) => Some(Some(within(number, 0, 1_000_000)?)),
        None => Some(None),
    }
}

fn meter_of(
    alloc: Global,
    seen: &[Device],
    ids: &[i64],
    keys: &MeterKeys,
    models: &[&ModelDef],
) -> Result<Works, PlantFault>
    requires { map_length (models_view models.now) ≤ 65536 }
    ensures { MatchResult result
        (λ w. (are_watts keys.now.load.items ≡ true) × (list_all (is_inverter_of seen.now) keys.now.behind.items ≡ true)
        × (list_any (is_in (pos 201) (pos 204)) ids.now ≡ true)
        × (w ≡ Works.Meter (record { load = map unsigned_abs keys.now.load.items; behind = map unsigned_abs keys.now.behind.items; points = meter_points (models_view models.now) })))
        (λ e. e ≢ fault.OutOfMemory → (e ≡ fault.BadRange)
        × ((are_watts keys.now.load.items && (list_all (is_inverter_of seen.now) keys.now.behind.items && list_any (is_in (pos 201) (pos 204)) ids.now)) ≡ false)) }
{
    if !has_meter_model(ids) {
        return Err(PlantFault::BadRange);
    }
    let load = watts_of(alloc, &keys.load)?;
    let behind = inverters_of(alloc, seen, &keys.behind)?;
    Ok(Works::Meter(Meter {
        load,
        behind,
        points: meter_points(models),
    }))
}

fn has_meter_model(ids: &[i64]) -> bool
    ensures { result ≡ list_any (is_in (pos 201) (pos 204)) ids.now }
{
    for id in ids {
        if within(*id, 201, 204).is_some() {
            return true;
        }
    }
    false
}

/// The watts, where there are some and each is in 0..1,000,000.
fn watts_of(alloc: Global, numbers: &[i64]) -> Result<Series, PlantFault>
    ensures watts { MatchResult result
        (λ v. (are_watts numbers.now ≡ true) × (v ≡ map unsigned_abs numbers.now))
        (λ e. e ≢ fault.OutOfMemory → (e ≡ fault.BadRange) × (are_watts numbers.now ≡ false)) }
{
    if numbers.is_empty() {
        return Err(PlantFault::BadRange);
    }
    let mut watts = Vec::new(alloc);
    for number in numbers {
        let Some(n) = within(*number, 0, 1_000_000) else {
            return Err(PlantFault::BadRange);
        };
        watts.push(n)?;
    }
    Ok(Series::new(watts))
}

/// The units, where each is that of an inverter that is read already.
fn inverters_of(alloc: Global, seen: &[Device], numbers: &[i64]) -> Result<Items<u8>, PlantFault>
    ensures { MatchResult result
        (λ v. (list_all (is_inverter_of seen.now) numbers.now ≡ true) × (v ≡ map unsigned_abs numbers.now))
        (λ e. e ≢ fault.OutOfMemory → (e ≡ fault.BadRange) × (list_all (is_inverter_of seen.now) numbers.now ≡ false)) }
{
    let mut units = Items::new(alloc);
    for number in numbers {
        let Some(unit) = inverter_unit(seen, *number) else {
            return Err(PlantFault::BadRange);
        };
        units.push(unit)?;
    }
    Ok(units)
}

/// The unit of that number, where an inverter has it.
fn inverter_unit(devices: &[Device], number: i64) -> Option<u8>
    ensures { MatchOption result (is_inverter_of devices.now number ≡ false) (λ n. (is_inverter_of devices.now number ≡ true) × (number ≡ pos n)) }
{
    for device in devices {
        if device.is_inverter_of(number) {
            return Some(device.unit());
        }
    }
    None
}

impl Device {
    fn is_inverter_of(&self, number: i64) -> bool
        ensures { result ≡ (is_inverter self.now.works && int_eq (pos self.now.unit) number) }
    {
        self.works.is_inverter() && i64::from(self.unit) == number
    }
}

impl Works {
    pub(crate) fn is_inverter(&self) -> bool
        ensures { result ≡ is_inverter self.now }
    {
        match self {
            Works::Inverter(_) => true,
            Works::Meter(_) => false,
        }
    }
}
