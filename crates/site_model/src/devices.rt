//! The devices of a site file.
ghost use Rattle.std.specs.Prelude.{◌≡◌, ◌≢◌, [], ◌++◌, ◌∷◌, option_map, Ok, Err, IfOk, IfErr};
ghost use Rattle.std.specs.List.{list_any};
ghost use Rattle.toml.specs.View.{view, items_view};
ghost use Rattle.file_keys.specs.Keys.{natural_within};
ghost use Rattle.site_model.specs.Devices.{device_keys, device_of, device_within, devices_behind, has_name_or_unit, optional_base, write_of};
ghost use Rattle.site_model.specs.Parts.{IsDeviceRefused};
ghost use Rattle.site_model.specs.Views.{device_keys_view};
ghost use Rattle.site_model.specs.declared.fault.SiteFault.{SiteFault};
ghost use Rattle.site_model.specs.declared.fault.SiteFault.TheVariants as fault;

use crate::device::{SiteDevice, WriteFunction};
use crate::fault::SiteFault;
use crate::part::SitePart;
use crate::text::Text;
use file_keys::{base_of, byte_of, number_at, number_or, optional_number_at, text_at};
use point_types::Items;
use std::alloc::Global;
use toml::Value;

/// The keys of a device, each of its kind.
#[derive(Clone, Copy)]
struct DeviceKeys<'a> {
    name: &'a str,
    unit: i64,
    base: Option<i64>,
    write: Option<i64>,
    rewrite: i64,
}

/// Reads the devices in order, and notes the one that it has come to.
pub(crate) fn read_devices(
    alloc: Global,
    entries: &[Value],
    part: &mut SitePart,
) -> Result<Items<SiteDevice>, SiteFault>
    ensures told { IfOk result (λ devices. devices_behind [] (items_view entries.now) ≡ Ok devices) }
    ensures refused { IfErr result (λ e. e ≢ fault.OutOfMemory → devices_behind [] (items_view entries.now) ≡ Err e) }
    ensures placed { IfErr result (λ e. e ≢ fault.OutOfMemory → IsDeviceRefused (items_view entries.now) part.new e) }
{
    let mut devices = Items::new(alloc);
    for entry in entries {
        *part = SitePart::Device(devices.len());
        let device = read_device(alloc, devices.as_slice(), entry)?;
        devices.push(device)?;
    }
    Ok(devices)
}

/// Reads a device after those before it.
fn read_device(alloc: Global, seen: &[SiteDevice], entry: &Value) -> Result<SiteDevice, SiteFault>
    ensures told { IfOk result (λ d. device_of seen.now (view entry.now) ≡ Ok d) }
    ensures refused { IfErr result (λ e. e ≢ fault.OutOfMemory → device_of seen.now (view entry.now) ≡ Err e) }
{
    let Some(keys) = keys_of(entry) else {
        return Err(SiteFault::MissingKey);
    };
    let Some(device) = device_within(alloc, keys)? else {
        return Err(SiteFault::BadRange);
    };
    if is_taken(seen, device.name.as_str(), device.unit) {
        return Err(SiteFault::Duplicate);
    }
    Ok(device)
}

fn keys_of(entry: &Value) -> Option<DeviceKeys<'_>>
    ensures { option_map device_keys_view result ≡ device_keys (view entry.now) }
{
    Some(DeviceKeys {
        name: text_at(entry, "name")?,
        unit: number_at(entry, "unit")?,
        base: optional_number_at(entry, "base")?,
        write: optional_number_at(entry, "write")?,
        rewrite: number_or(entry, "rewrite", 0)?,
    })
}

/// The device of these keys, or None where a number lies outside its range.
fn device_within(alloc: Global, keys: DeviceKeys<'_>) -> Result<Option<SiteDevice>, SiteFault>
    ensures told { IfOk result (λ d. d ≡ device_within (device_keys_view keys.entry)) }
    ensures memory { IfErr result (λ e. e ≡ fault.OutOfMemory) }
{
    let Some(unit) = byte_of(keys.unit) else {
        return Ok(None);
    };
    let Some(base) = optional_base(keys.base) else {
        return Ok(None);
    };
    let Some(write) = write_of(keys.write) else {
        return Ok(None);
    };
    let Some(rewrite) = rewrite_of(keys.rewrite) else {
        return Ok(None);
    };
    let name = Text::new(alloc, keys.name)?;
    Ok(Some(SiteDevice {
        name,
        unit,
        base,
        write,
        rewrite,
    }))
}

fn optional_base(number: Option<i64>) -> Option<Option<u16>>
    ensures { result ≡ optional_base number }
{
    match number {
        None => Some(None),
        Some(number) => Some(Some(base_of(number)?)),
    }
}

/// The function of a number, 16 where none is said.
fn write_of(number: Option<i64>) -> Option<WriteFunction>
    ensures { result ≡ write_of number }
{
    match number {
        None => Some(WriteFunction::Multiple),
        Some(number) if number == 16 => Some(WriteFunction::Multiple),
        Some(number) if number == 6 => Some(WriteFunction::Single),
        Some(_) => None,
    }
}

/// An hour at most.
fn rewrite_of(seconds: i64) -> Option<u16>
    ensures { result ≡ natural_within 3600 seconds }
{
    if 0 <= seconds && seconds <= 3600 {
        Some(seconds as u16)
    } else {
        None
    }
}

/// Whether a device has this name or this unit.
fn is_taken(seen: &[SiteDevice], name: &str, unit: u8) -> bool
    ensures { result ≡ list_any (has_name_or_unit name.now unit) seen.now }
{
    seen.iter()
        .any(|d| d.name.as_str() == name || d.unit == unit)
}
