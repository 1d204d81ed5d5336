//! What is wrong with devices.
ghost use Rattle.std.specs.Prelude.{◌≡◌, ◌++◌, OnOk, slice_get};
ghost use Rattle.service_alarms.specs.Alarms.{devices_amiss, has_no, is_amiss, is_gone, is_lacking, is_lacking_in, is_missing, models_missing, of_device, of_want};

use crate::alarm::Alarm;
use point_types::Items;
use register_map::{Block, Map};
use service::DeviceStatus;
use site_model::Want;
use std::alloc::AllocError;

/// Appends an alarm for each device that is lost, or else is another one or has no map.
pub(crate) fn push_devices(
    alarms: &mut Items<Alarm>,
    devices: &[DeviceStatus],
) -> Result<(), AllocError>
    ensures { OnOk result (alarms.new ≡ alarms.old ++ devices_amiss devices.now) }
{
    for (i, device) in devices.iter().enumerate() {
        push_device(alarms, i, device)?;
    }
    Ok(())
}

fn push_device(alarms: &mut Items<Alarm>, i: usize, device: &DeviceStatus) -> Result<(), AllocError>
    ensures { OnOk result (alarms.new ≡ alarms.old ++ of_device i device.now) }
{
    if is_missing(device) {
        alarms.push(Alarm::DeviceLost(i, device.last_loss))?;
    } else if device.is_another {
        alarms.push(Alarm::DeviceAnother(i))?;
    } else if !device.is_mapped {
        alarms.push(Alarm::DeviceUnmapped(i))?;
    }
    Ok(())
}

/// Whether a device has an alarm of its own: it is lost, is another one, or has no map.
pub fn is_amiss(device: &DeviceStatus) -> bool
    ensures { result ≡ is_amiss device.now }
{
    device.is_lost || device.is_another || !device.is_mapped
}

/// Whether a device is gone, as one that sleeps is: it is lost, or has no map. One that is another one answers, so it isn't gone.
pub fn is_gone(device: &DeviceStatus) -> bool
    ensures { result ≡ is_gone device.now }
{
    is_missing(device) || (!device.is_another && !device.is_mapped)
}

/// Whether a device is lost, and no other one has answered in its place over a connection that is up: a loss ends only where the
/// device itself is found.
fn is_missing(device: &DeviceStatus) -> bool
    ensures { result ≡ is_missing device.now }
{
    device.is_lost && !(device.is_another && device.is_up)
}

/// Appends an alarm for each model that is wanted of a device whose map lacks it.
pub(crate) fn push_models(
    alarms: &mut Items<Alarm>,
    maps: &[Option<Map>],
    wants: &[Want],
) -> Result<(), AllocError>
    ensures { OnOk result (alarms.new ≡ alarms.old ++ models_missing maps.now wants.now) }
{
    for want in wants {
        push_model(alarms, maps, *want)?;
    }
    Ok(())
}

fn push_model(alarms: &mut Items<Alarm>, maps: &[Option<Map>], want: Want) -> Result<(), AllocError>
    ensures { OnOk result (alarms.new ≡ alarms.old ++ of_want maps.now want) }
{
    if is_lacking(maps, want) {
        alarms.push(Alarm::ModelMissing(want))?;
    }
    Ok(())
}

/// Whether the map of a device lacks a model that is wanted of it; one without a map lacks none.
pub fn is_lacking(maps: &[Option<Map>], want: Want) -> bool
    ensures { result ≡ is_lacking maps.now want }
{
    match maps.get(want.device) {
        Some(Some(map)) => has_no(map.block(want.model)),
        _ => false,
    }
}

fn has_no(block: Option<Block>) -> bool
    ensures { result ≡ has_no block }
{
    match block {
        Some(_) => false,
        None => true,
    }
}
