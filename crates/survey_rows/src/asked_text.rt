//! The text of a site file as a survey asks it.
use file_keys::{section_at, text_at};
use std::alloc::{AllocError, AllocFailed, Global};
use toml::{Table, Value};

/// The point of the common model by which that model is read: a number, since no tag is a text.
const COMMON_POINT: &str = "DA";

/// Why there is no such text.
#[derive(Clone, Copy)]
pub enum AskedFault {
    /// The text is no site file.
    NoSite,
    /// Memory was refused.
    OutOfMemory,
}

impl From<AllocError> for AskedFault {
    fn from(_refused: AllocError) -> AskedFault {
        AskedFault::OutOfMemory
    }
}

impl<T: Drop> From<AllocFailed<T>> for AskedFault {
    fn from(_refused: AllocFailed<T>) -> AskedFault {
        AskedFault::OutOfMemory
    }
}

/// The text of a site file in which each `out` tag is an `in` tag, so that nothing of it is written. With `identities` a tag
/// on the common model of each device stands after its own tags, which keep their numbers. NoSite: the text is no TOML, or
/// something else stands where tags or devices are listed.
pub fn asked_site(alloc: Global, site: &str, identities: bool) -> Result<String, AskedFault> {
    let mut file = Value::Table(table_of(alloc, site)?);
    let mut common = Vec::new(alloc);
    if identities {
        push_common(alloc, &mut common, &file)?;
    }
    change_tags(alloc, &mut file, common)?;
    text_of(alloc, &file)
}

/// Makes each `out` tag an `in` tag, and appends these tags.
fn change_tags(alloc: Global, file: &mut Value, common: Vec<Value>) -> Result<(), AskedFault> {
    match file.get_mut("tag") {
        Some(Value::Array(tags)) => {
            read_outputs(alloc, tags.as_mut_slice())?;
            append(tags, common)
        }
        Some(_) => Err(AskedFault::NoSite),
        None => put_tags(alloc, file, common),
    }
}

/// Puts these tags into a file that has none.
fn put_tags(alloc: Global, file: &mut Value, common: Vec<Value>) -> Result<(), AskedFault> {
    match file {
        Value::Table(table) => put(alloc, table, "tag", Value::Array(common)),
        _ => Err(AskedFault::NoSite),
    }
}

fn table_of(alloc: Global, site: &str) -> Result<Table, AskedFault> {
    match toml::table_from_str(alloc, site) {
        Ok(table) => Ok(table),
        Err(fault) if fault.is_memory() => Err(AskedFault::OutOfMemory),
        Err(_) => Err(AskedFault::NoSite),
    }
}

fn text_of(alloc: Global, file: &Value) -> Result<String, AskedFault> {
    let Some(table) = file.as_table() else {
        return Err(AskedFault::NoSite);
    };
    match toml::table_to_string(alloc, table) {
        Ok(text) => Ok(text),
        Err(toml::ser::Error::OutOfMemory) => Err(AskedFault::OutOfMemory),
        Err(toml::ser::Error::DateInvalid) => Err(AskedFault::NoSite),
    }
}

/// Makes each `out` tag an `in` tag.
fn read_outputs(alloc: Global, tags: &mut [Value]) -> Result<(), AllocError> {
    for tag in tags.iter_mut() {
        if is_output(tag) {
            read_output(alloc, tag)?;
        }
    }
    Ok(())
}

/// Makes an `out` tag an `in` tag, which neither is fitted to its point nor goes with another one.
fn read_output(alloc: Global, tag: &mut Value) -> Result<(), AllocError> {
    if let Some(access) = tag.get_mut("access") {
        *access = Value::string(alloc, "in")?;
    }
    if let Some(keys) = tag.as_table_mut() {
        keys.remove("fit");
        keys.remove("with");
    }
    Ok(())
}

fn is_output(tag: &Value) -> bool {
    match text_at(tag, "access") {
        Some(access) => access == "out",
        None => false,
    }
}

fn append(tags: &mut Vec<Value>, more: Vec<Value>) -> Result<(), AskedFault> {
    for tag in more {
        tags.push(tag)?;
    }
    Ok(())
}

/// Appends a tag on the common model of each device.
fn push_common(alloc: Global, common: &mut Vec<Value>, file: &Value) -> Result<(), AskedFault> {
    let (Some(devices), Some(tags)) = (section_at(file, "device"), section_at(file, "tag")) else {
        return Err(AskedFault::NoSite);
    };
    let mut number = 0;
    for device in devices {
        number = free_number(alloc, tags, number)?;
        let tag = common_tag(alloc, number, text_at(device, "name").unwrap_or(""))?;
        common.push(tag)?;
        number = number.saturating_add(1);
    }
    Ok(())
}

/// The first number from this one on whose name no tag has.
fn free_number(alloc: Global, tags: &[Value], first: usize) -> Result<usize, AllocError> {
    let mut number = first;
    for _ in 0..tags.len() {
        let name = common_name(alloc, number)?;
        if !is_named(tags, name.as_str()) {
            return Ok(number);
        }
        number = number.saturating_add(1);
    }
    Ok(number)
}

fn is_named(tags: &[Value], name: &str) -> bool {
    for tag in tags {
        if let Some(own) = text_at(tag, "name") {
            if own == name {
                return true;
            }
        }
    }
    false
}

fn common_name(alloc: Global, number: usize) -> Result<String, AllocError> {
    let name = format!(in alloc; "asked_{number}")?;
    Ok(name)
}

/// A tag on the common model of the device of a name.
fn common_tag(alloc: Global, number: usize, device: &str) -> Result<Value, AskedFault> {
    let name = common_name(alloc, number)?;
    let mut tag = Table::new(alloc);
    put_text(alloc, &mut tag, "name", name.as_str())?;
    put_text(alloc, &mut tag, "access", "in")?;
    put_text(alloc, &mut tag, "device", device)?;
    put_text(alloc, &mut tag, "point", COMMON_POINT)?;
    put_text(alloc, &mut tag, "type", "UINT")?;
    put_numbers(alloc, &mut tag)?;
    Ok(Value::Table(tag))
}

fn put_numbers(alloc: Global, tag: &mut Table) -> Result<(), AskedFault> {
    put(alloc, tag, "model", Value::Integer(1))?;
    put(alloc, tag, "exponent", Value::Integer(0))?;
    put(alloc, tag, "low", Value::Integer(0))?;
    put(alloc, tag, "high", Value::Integer(65535))
}

fn put_text(alloc: Global, tag: &mut Table, key: &str, text: &str) -> Result<(), AskedFault> {
    let text = Value::string(alloc, text)?;
    put(alloc, tag, key, text)
}

fn put(alloc: Global, tag: &mut Table, key: &str, value: Value) -> Result<(), AskedFault> {
    let key = String::from_str(alloc, key)?;
    tag.insert(key, value)?;
    Ok(())
}
