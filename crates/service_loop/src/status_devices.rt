//! How the devices of a service stand, as JSON.
use crate::alarm_watch::AlarmWatch;
use crate::members::{put_list, put_number, put_text, put_truth};
use crate::serving::Serving;
use gateway::{Core, DEPTH};
use serde_json::{Map, Value, put};
use service::{Counts, DeviceStatus, Loss, ReadRefusal, Service};
use service_alarms::{Said, device_name, is_amiss, label_text, loss_word};
use service_texts::Addresses;
use std::alloc::{AllocError, Global};

/// Each device, in the order of the site file.
pub(crate) fn devices_value(
    alloc: Global,
    serving: &Serving<'_>,
    service: &Service,
    addresses: &Addresses,
    alarm_watch: &AlarmWatch,
) -> Result<Vec<Value>, AllocError> {
    let mut values = Vec::new(alloc);
    for device in 0..service.core().site().devices().len() {
        let mut value = device_value(alloc, service, addresses, alarm_watch, device)?;
        if serving.identity(device).is_some() {
            put_identity(&mut value, alloc, service, device)?;
        }
        values.push(Value::Object(value))?;
    }
    Ok(values)
}

fn device_value(
    alloc: Global,
    service: &Service,
    addresses: &Addresses,
    alarm_watch: &AlarmWatch,
    device: usize,
) -> Result<Map<String, Value>, AllocError> {
    let mut value = Map::new(alloc);
    put_text(
        &mut value,
        alloc,
        "name",
        device_name(service.core().site(), device),
    )?;
    put_place(&mut value, alloc, addresses, device)?;
    put_list(
        &mut value,
        alloc,
        "models",
        models_value(alloc, service.core(), device)?,
    )?;
    if let Some(status) = service.device_status(device) {
        put_status(&mut value, alloc, &status)?;
    }
    put_list(
        &mut value,
        alloc,
        "refused",
        refused_value(alloc, service.refusals(device))?,
    )?;
    if let Some(is_asleep) = alarm_watch.is_asleep(device) {
        put_truth(&mut value, alloc, "asleep", is_asleep)?;
    }
    Ok(value)
}

/// Puts whether a device that must say something of itself is another one, and what it said last.
fn put_identity(
    value: &mut Map<String, Value>,
    alloc: Global,
    service: &Service,
    device: usize,
) -> Result<(), AllocError> {
    if let Some(status) = service.device_status(device) {
        put_truth(value, alloc, "another", status.is_another)?;
    }
    match service.said(device) {
        Some(registers) => put(value, alloc, "said", said_value(alloc, registers)?),
        None => put(value, alloc, "said", Value::Null),
    }
}

/// What a device said of itself, by the keys of the site file.
fn said_value(alloc: Global, registers: &[u16]) -> Result<Value, AllocError> {
    let said = Said::of(registers);
    let mut value = Map::new(alloc);
    put_text(
        &mut value,
        alloc,
        "maker",
        label_text(alloc, said.maker)?.as_str(),
    )?;
    put_text(
        &mut value,
        alloc,
        "type",
        label_text(alloc, said.model)?.as_str(),
    )?;
    put_text(
        &mut value,
        alloc,
        "serial",
        label_text(alloc, said.serial)?.as_str(),
    )?;
    Ok(Value::Object(value))
}

/// Puts where a device is.
fn put_place(
    value: &mut Map<String, Value>,
    alloc: Global,
    addresses: &Addresses,
    device: usize,
) -> Result<(), AllocError> {
    let Some(station) = addresses.stations.as_slice().get(device) else {
        return Ok(());
    };
    if let Some(address) = addresses.links.as_slice().get(station.link) {
        put_text(value, alloc, "address", address.as_str())?;
    }
    put_number(value, alloc, "unit", u64::from(station.unit))
}

/// The IDs of the models that a device's map has.
fn models_value(
    alloc: Global,
    core: &Core<DEPTH>,
    device: usize,
) -> Result<Vec<Value>, AllocError> {
    let mut values = Vec::new(alloc);
    if let Some(Some(map)) = core.maps().get(device) {
        for block in map.blocks() {
            values.push(Value::from(block.id))?;
        }
    }
    Ok(values)
}

fn put_status(
    value: &mut Map<String, Value>,
    alloc: Global,
    status: &DeviceStatus,
) -> Result<(), AllocError> {
    put_text(value, alloc, "connection", connection_word(status.is_up))?;
    put_truth(value, alloc, "mapped", status.is_mapped)?;
    put_truth(value, alloc, "lost", is_amiss(status))?;
    put_loss(value, alloc, status.last_loss)?;
    put_number(value, alloc, "reply", status.replies.lately)?;
    put_number(value, alloc, "each", status.each)?;
    put_number(value, alloc, "age", status.age)?;
    put_number(value, alloc, "requests", status.counts.requests)?;
    put(value, alloc, "losses", losses_value(alloc, &status.counts)?)
}

fn connection_word(is_up: bool) -> &'static str {
    if is_up { "up" } else { "down" }
}

/// Puts why a device was lost last, or null.
fn put_loss(
    value: &mut Map<String, Value>,
    alloc: Global,
    loss: Option<Loss>,
) -> Result<(), AllocError> {
    match loss {
        Some(loss) => put_text(value, alloc, "last_loss", loss_word(loss)),
        None => put(value, alloc, "last_loss", Value::Null),
    }
}

/// How often a device was lost, by the words that are told.
fn losses_value(alloc: Global, counts: &Counts) -> Result<Value, AllocError> {
    let mut losses = Map::new(alloc);
    put_number(&mut losses, alloc, loss_word(Loss::Down), counts.down)?;
    put_number(&mut losses, alloc, loss_word(Loss::Silent), counts.silent)?;
    put_number(&mut losses, alloc, loss_word(Loss::Frame), counts.frame)?;
    put_number(&mut losses, alloc, loss_word(Loss::Stale), counts.stale)?;
    put_number(&mut losses, alloc, loss_word(Loss::Gateway), counts.gateway)?;
    Ok(Value::Object(losses))
}

/// The reads that a device refused.
fn refused_value(alloc: Global, refusals: &[ReadRefusal]) -> Result<Vec<Value>, AllocError> {
    let mut values = Vec::new(alloc);
    for refusal in refusals {
        let mut value = Map::new(alloc);
        put_number(&mut value, alloc, "address", u64::from(refusal.address))?;
        put_number(&mut value, alloc, "code", u64::from(refusal.code))?;
        values.push(Value::Object(value))?;
    }
    Ok(values)
}
