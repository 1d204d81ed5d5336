//! Which keys of site files and plant files nothing reads.
use crate::finding::{EntryName, named_entry};
use crate::keys::{
    DEVICE, FAULT, GATEWAY, INVERTER, METER, PLAIN_INVERTER, PLANT, SERVED, SITE, Section, TAG,
    VALUE, names_of,
};
use crate::unread_keys::UnreadKeys;
use file_keys::{list_at, text_at};
use std::alloc::{AllocError, Global};
use toml::Value;

/// Looks at the keys of a site file.
pub(crate) fn push_unread_of_site(
    alloc: Global,
    unread: &mut UnreadKeys,
    tree: &Value,
) -> Result<(), AllocError> {
    push_unread(alloc, unread, EntryName::Alone("the file"), tree, &SITE)?;
    if let Some(gateway) = tree.get("gateway") {
        push_unread(
            alloc,
            unread,
            EntryName::Alone("[gateway]"),
            gateway,
            &GATEWAY,
        )?;
    }
    push_each(alloc, unread, tree, "device", "[[device]]", &DEVICE)?;
    push_each(alloc, unread, tree, "tag", "[[tag]]", &TAG)?;
    push_each(alloc, unread, tree, "served", "[[served]]", &SERVED)
}

/// Looks at the keys of a plant file.
pub(crate) fn push_unread_of_plant(
    alloc: Global,
    unread: &mut UnreadKeys,
    tree: &Value,
) -> Result<(), AllocError> {
    push_unread(alloc, unread, EntryName::Alone("the file"), tree, &PLANT)?;
    push_devices(alloc, unread, tree)?;
    push_each(alloc, unread, tree, "fault", "[[fault]]", &FAULT)?;
    let Some(devices) = list_at(tree, "device") else {
        return Ok(());
    };
    for device in devices {
        push_each(alloc, unread, device, "value", "[[device.value]]", &VALUE)?;
    }
    Ok(())
}

/// Looks at the keys of the devices of a plant.
fn push_devices(alloc: Global, unread: &mut UnreadKeys, tree: &Value) -> Result<(), AllocError> {
    let Some(devices) = list_at(tree, "device") else {
        return Ok(());
    };
    for (number, device) in devices.iter().enumerate() {
        let entry = named_entry("[[device]]", device, number);
        push_unread(alloc, unread, entry, device, &section_told(device))?;
    }
    Ok(())
}

/// The keys that are told of a device of a plant, by its kind.
fn section_told(device: &Value) -> Section {
    if text_at(device, "kind") == Some("meter") {
        METER
    } else if device.get("kind").is_some() || device.get("ramp").is_some() {
        INVERTER
    } else {
        PLAIN_INVERTER
    }
}

/// Looks at the keys of each entry of a list.
fn push_each(
    alloc: Global,
    unread: &mut UnreadKeys,
    tree: &Value,
    list: &str,
    shown: &'static str,
    section: &Section,
) -> Result<(), AllocError> {
    let Some(entries) = list_at(tree, list) else {
        return Ok(());
    };
    for (number, entry) in entries.iter().enumerate() {
        push_unread(
            alloc,
            unread,
            named_entry(shown, entry, number),
            entry,
            section,
        )?;
    }
    Ok(())
}

/// Looks at the keys of an entry.
fn push_unread(
    alloc: Global,
    unread: &mut UnreadKeys,
    entry: EntryName<'_>,
    table: &Value,
    section: &Section,
) -> Result<(), AllocError> {
    let Some(table) = table.as_table() else {
        return Ok(());
    };
    let known = names_of(alloc, section.keys)?;
    for (key, _) in table {
        unread.look_at(alloc, entry, key.as_str(), known.as_slice())?;
    }
    Ok(())
}
