//! How devices stand.
use crate::sheet::{Sheet, truth};
use service::{Counts, DeviceStatus, Loss, Service};
use service_alarms::{device_name, is_amiss, loss_word};
use std::alloc::{AllocError, Global};

/// A device, by its name and its place in the site file, counted from 0.
#[derive(Drop)]
struct NamedDevice<'a> {
    name: &'a str,
    number: String,
    status: DeviceStatus,
}

/// One of the numbers of a device.
#[derive(Clone, Copy)]
enum DeviceNumber {
    Up,
    Connected,
    Mapped,
    Requests,
}

pub(crate) fn push_devices(sheet: &mut Sheet, service: &Service) -> Result<(), AllocError> {
    let devices = devices_of(sheet.alloc, service)?;
    sheet.gauge(
        "sunsite_device_up",
        "Whether the device answers, is the right one and has a map.",
    )?;
    push_each(sheet, &devices, "sunsite_device_up", DeviceNumber::Up)?;
    sheet.gauge("sunsite_device_connected", "Whether its connection stands.")?;
    push_each(
        sheet,
        &devices,
        "sunsite_device_connected",
        DeviceNumber::Connected,
    )?;
    sheet.gauge("sunsite_device_mapped", "Whether it has a SunSpec map.")?;
    push_each(
        sheet,
        &devices,
        "sunsite_device_mapped",
        DeviceNumber::Mapped,
    )?;
    sheet.counter(
        "sunsite_device_requests_total",
        "How many requests to it began.",
    )?;
    push_each(
        sheet,
        &devices,
        "sunsite_device_requests_total",
        DeviceNumber::Requests,
    )?;
    sheet.counter(
        "sunsite_device_losses_total",
        "How often it was lost, or its connection.",
    )?;
    for device in devices.iter() {
        push_losses(sheet, device)?;
    }
    Ok(())
}

/// The devices, in the order of the site file.
fn devices_of<'a>(alloc: Global, service: &'a Service) -> Result<Vec<NamedDevice<'a>>, AllocError> {
    let site = service.core().site();
    let mut devices = Vec::new(alloc);
    for number in 0..site.devices().len() {
        if let Some(status) = service.device_status(number) {
            devices.push(NamedDevice {
                name: device_name(site, number),
                number: number.to_string(alloc)?,
                status,
            })?;
        }
    }
    Ok(devices)
}

fn push_each(
    sheet: &mut Sheet,
    devices: &[NamedDevice<'_>],
    name: &str,
    number: DeviceNumber,
) -> Result<(), AllocError> {
    for device in devices {
        let labels = [("device", device.name), ("number", device.number.as_str())];
        sheet.labelled(name, &labels, number_of(&device.status, number))?;
    }
    Ok(())
}

fn number_of(status: &DeviceStatus, number: DeviceNumber) -> u64 {
    match number {
        DeviceNumber::Up => truth(!is_amiss(status)),
        DeviceNumber::Connected => truth(status.is_up),
        DeviceNumber::Mapped => truth(status.is_mapped),
        DeviceNumber::Requests => status.counts.requests,
    }
}

fn push_losses(sheet: &mut Sheet, device: &NamedDevice<'_>) -> Result<(), AllocError> {
    let counts = &device.status.counts;
    for loss in [
        Loss::Down,
        Loss::Silent,
        Loss::Frame,
        Loss::Stale,
        Loss::Gateway,
    ] {
        let labels = [
            ("device", device.name),
            ("number", device.number.as_str()),
            ("kind", loss_word(loss)),
        ];
        sheet.labelled(
            "sunsite_device_losses_total",
            &labels,
            losses_of(counts, loss),
        )?;
    }
    Ok(())
}

fn losses_of(counts: &Counts, loss: Loss) -> u64 {
    match loss {
        Loss::Down => counts.down,
        Loss::Silent => counts.silent,
        Loss::Frame => counts.frame,
        Loss::Stale => counts.stale,
        Loss::Gateway => counts.gateway,
    }
}
