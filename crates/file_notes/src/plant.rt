//! Where a text breaks a rule of plant files.
mod device;
mod entries;

use crate::finding::{EntryName, Finding, named_entry};
use crate::keys::PLANT;
use crate::looking::{entry_in, first_broken, first_long, no_table_in};
use crate::place::FilePlace;
use device::{EACH_VALUE, device_finding, kind_of};
use entries::{fault_finding, fault_name, value_finding, value_name};
use file_keys::TomlFile;
use inverter_sim::rules::{
    DeviceKind, MOST_DEVICES, MOST_FAULTS, MOST_MODELS, MOST_UNITS, MOST_WATTS,
};
use inverter_sim::{PlantFault, PlantPart};
use model_defs::ModelDef;
use std::alloc::Global;
use toml::Value;

/// The most entries of a meter's lists.
const METER_HOLDS: &str =
    "make it smaller: 1,024 entries of load and 64 units in behind are the most";

/// Where a fault of that part of a plant file, read over these definitions, is found; None where memory was refused.
pub fn place_in_plant(
    alloc: Global,
    file: &TomlFile<'_>,
    defs: &[ModelDef],
    part: PlantPart,
    fault: PlantFault,
) -> Option<FilePlace> {
    if fault == PlantFault::OutOfMemory {
        return None;
    }
    match file.tree() {
        Ok(tree) => place_in(alloc, file.text(), tree, defs, part, fault),
        Err(error) => FilePlace::of_toml(file.text(), error),
    }
}

fn place_in(
    alloc: Global,
    text: &str,
    file: &Value,
    defs: &[ModelDef],
    part: PlantPart,
    fault: PlantFault,
) -> Option<FilePlace> {
    if let Some((list, finding)) = no_table_at(file, part) {
        return FilePlace::found(alloc, text, list, finding);
    }
    let (entry, finding) = found_at(file, defs, part, fault)?;
    FilePlace::found(alloc, text, entry, finding)
}

/// An entry that is no table, so that it has no keys: what its list stands in, and that.
fn no_table_at(file: &Value, part: PlantPart) -> Option<(EntryName<'_>, Finding<'_>)> {
    let whole = EntryName::Alone("the file");
    match part {
        PlantPart::File => None,
        PlantPart::Device(number) => Some((whole, no_table_in(file, "device", number)?)),
        PlantPart::Fault(number) => Some((whole, no_table_in(file, "fault", number)?)),
        PlantPart::Value(device, number) => {
            let (entry, _) = entry_in(file, "device", device)?;
            let finding = no_table_in(entry, "value", number)?.helped(EACH_VALUE);
            Some((named_entry("[[device]]", entry, device), finding))
        }
    }
}

/// The part of the file as it is named, and what breaks the rule there.
fn found_at<'a>(
    file: &'a Value,
    defs: &'a [ModelDef],
    part: PlantPart,
    fault: PlantFault,
) -> Option<(EntryName<'a>, Finding<'a>)> {
    match part {
        PlantPart::File => Some((EntryName::Alone("the file"), in_file(file, fault)?)),
        PlantPart::Device(number) => {
            let (entry, before) = entry_in(file, "device", number)?;
            let name = named_entry("[[device]]", entry, number);
            Some((name, in_device(before, entry, defs, fault)?))
        }
        PlantPart::Value(device, number) => {
            let (entry, _) = entry_in(file, "device", device)?;
            let (value, before) = entry_in(entry, "value", number)?;
            let finding = value_finding(before, value, defs, device, fault)?;
            Some((value_name(device, number), finding))
        }
        PlantPart::Fault(number) => {
            let (entry, before) = entry_in(file, "fault", number)?;
            Some((fault_name(number), fault_finding(before, entry, fault)?))
        }
    }
}

/// The section that is too long, or no list.
fn in_file(file: &Value, fault: PlantFault) -> Option<Finding<'_>> {
    match fault {
        PlantFault::TooMany => {
            first_long(file, &[("device", MOST_DEVICES), ("fault", MOST_FAULTS)])
        }
        _ => first_broken(file, &PLANT),
    }
}

fn in_device<'a>(
    before: &'a [Value],
    entry: &'a Value,
    defs: &[ModelDef],
    fault: PlantFault,
) -> Option<Finding<'a>> {
    match fault {
        PlantFault::TooMany => long_in_device(entry),
        fault => device_finding(before, entry, defs, fault),
    }
}

/// The list of a device that is too long.
fn long_in_device(entry: &Value) -> Option<Finding<'_>> {
    if let Some(finding) = first_long(entry, &[("models", MOST_MODELS)]) {
        return Some(finding);
    }
    match kind_of(entry) {
        DeviceKind::Inverter => first_long(entry, &[("available", MOST_WATTS)]),
        DeviceKind::Meter => {
            let limits = [("load", MOST_WATTS), ("behind", MOST_UNITS)];
            Some(first_long(entry, &limits)?.helped(METER_HOLDS))
        }
    }
}
