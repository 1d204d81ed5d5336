//! Where a text breaks a rule of site files.
mod companions;
mod gateway;
mod served;
mod tag_words;
mod tags;
mod time_words;

use crate::finding::{EntryName, Finding, ValueKind, named_entry};
use crate::keys::SITE;
use crate::looking::{broken_at, entry_in, first_broken, first_long, no_table_in};
use crate::place::FilePlace;
use file_keys::TomlFile;
use gateway::{device_finding, gateway_finding};
use model_defs::ModelDef;
use served::served_finding;
use site_model::rules::{MOST_DEVICES, MOST_MODELS, MOST_SERVED, MOST_TAGS};
use site_model::{SiteFault, SitePart};
use std::alloc::Global;
use tags::tag_finding;
use toml::Value;

/// Where a fault of that part of a site file, read over these definitions, is found; None where memory was refused.
pub fn place_in_site(
    alloc: Global,
    file: &TomlFile<'_>,
    defs: &[ModelDef],
    part: SitePart,
    fault: SiteFault,
) -> Option<FilePlace> {
    if fault == SiteFault::OutOfMemory {
        return None;
    }
    match file.tree() {
        Ok(tree) => place_in(alloc, file.text(), tree, defs, part, fault),
        Err(error) => FilePlace::of_toml(file.text(), error),
    }
}

fn place_in(
    alloc: Global,
    text: &str,
    file: &Value,
    defs: &[ModelDef],
    part: SitePart,
    fault: SiteFault,
) -> Option<FilePlace> {
    if let Some(finding) = no_table_at(file, part) {
        return FilePlace::found(alloc, text, EntryName::Alone("the file"), finding);
    }
    let (entry, finding) = found_at(file, defs, part, fault)?;
    FilePlace::found(alloc, text, entry, finding)
}

/// A part of the file that is no table, so that it has no keys.
fn no_table_at(file: &Value, part: SitePart) -> Option<Finding<'_>> {
    match part {
        SitePart::File => None,
        SitePart::Gateway => broken_at(file, "gateway", ValueKind::Table, false),
        SitePart::Device(number) => no_table_in(file, "device", number),
        SitePart::Tag(number) => no_table_in(file, "tag", number),
        SitePart::Served(number) => no_table_in(file, "served", number),
    }
}

/// The part of the file as it is named, and what breaks the rule there.
fn found_at<'a>(
    file: &'a Value,
    defs: &'a [ModelDef],
    part: SitePart,
    fault: SiteFault,
) -> Option<(EntryName<'a>, Finding<'a>)> {
    match part {
        SitePart::File => Some((EntryName::Alone("the file"), in_file(file, fault)?)),
        SitePart::Gateway => in_gateway(file, defs, fault),
        SitePart::Device(number) => {
            let (entry, before) = entry_in(file, "device", number)?;
            let name = named_entry("[[device]]", entry, number);
            Some((name, device_finding(before, entry, fault)?))
        }
        SitePart::Tag(number) => {
            let (entry, before) = entry_in(file, "tag", number)?;
            let name = named_entry("[[tag]]", entry, number);
            Some((name, tag_finding(file, defs, before, entry, fault)?))
        }
        SitePart::Served(number) => {
            let (entry, before) = entry_in(file, "served", number)?;
            let name = EntryName::Numbered("[[served]]", number.saturating_add(1));
            Some((name, served_finding(file, defs, before, entry, fault)?))
        }
    }
}

/// The section that is too long, or no list.
fn in_file(file: &Value, fault: SiteFault) -> Option<Finding<'_>> {
    let most = [
        ("device", MOST_DEVICES),
        ("tag", MOST_TAGS),
        ("served", MOST_SERVED),
    ];
    match fault {
        SiteFault::TooMany => first_long(file, &most),
        _ => first_broken(file, &SITE),
    }
}

/// What breaks the rule in the gateway's section. One that is missing is missed in the file.
fn in_gateway<'a>(
    file: &'a Value,
    defs: &[ModelDef],
    fault: SiteFault,
) -> Option<(EntryName<'a>, Finding<'a>)> {
    let Some(gateway) = file.get("gateway") else {
        let help = "write [gateway] with its unit and its models, once";
        let finding = Finding::missing("[gateway]").helped(help);
        return Some((EntryName::Alone("the file"), finding));
    };
    let finding = match fault {
        SiteFault::TooMany => first_long(gateway, &[("models", MOST_MODELS)])?,
        fault => gateway_finding(gateway, defs, fault)?,
    };
    Some((EntryName::Alone("[gateway]"), finding))
}
