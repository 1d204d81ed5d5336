//! Which devices sleep at night.
ghost use Rattle.std.specs.Prelude.{◌≡◌, ◌≢◌, [], Ok, Err, IfOk, IfErr};
ghost use Rattle.toml.specs.View.{view, items_view};
ghost use Rattle.service_texts.specs.Sleeping.{hours_after, hours_at, hours_from, hours_in, hours_listed, hours_of};
ghost use Rattle.service_texts.specs.declared.sleeping.SleepFault.TheVariants as fault;

use file_keys::{TomlFile, byte_of, optional_number_at, section_at};
use point_types::Items;
use std::alloc::{AllocError, Global};
use toml::Value;

/// Why it isn't known which devices sleep. DeviceSource are told by their numbers.
#[derive(Clone, Copy, PartialEq, Eq, Debug)]
pub enum SleepFault {
    /// The text is no site file.
    NotToml,
    /// `sleeps` of a device is no number of hours in 1..24.
    BadHours(usize),
    /// Memory was refused.
    OutOfMemory,
}

impl From<AllocError> for SleepFault {
    ghost use Rattle.std.specs.Prelude.{◌≡◌};
    ghost use Rattle.service_texts.specs.declared.sleeping.SleepFault.TheVariants.{OutOfMemory};

    ghost from_gives = { λ _ e. e ≡ OutOfMemory };

    fn from(_refused: AllocError) -> Self {
        SleepFault::OutOfMemory
    }
}

/// For how many hours each device of a site file may be gone in its sleep, in their order: the key `sleeps`; None for one that
/// doesn't sleep.
pub fn sleeping_hours(alloc: Global, site: &TomlFile<'_>) -> Result<Items<Option<u8>>, SleepFault>
    ensures told { IfOk result (λ hours. hours_in site.now ≡ Ok hours) }
    ensures refused { IfErr result (λ e. e ≢ fault.OutOfMemory → hours_in site.now ≡ Err e) }
{
    match site.tree() {
        Ok(tree) => hours_listed(alloc, tree),
        Err(_) => Err(SleepFault::NotToml),
    }
}

fn hours_listed(alloc: Global, file: &Value) -> Result<Items<Option<u8>>, SleepFault>
    ensures told { IfOk result (λ hours. hours_listed (view file.now) ≡ Ok hours) }
    ensures refused { IfErr result (λ e. e ≢ fault.OutOfMemory → hours_listed (view file.now) ≡ Err e) }
{
    match section_at(file, "device") {
        Some(entries) => hours_after(alloc, entries),
        None => Err(SleepFault::NotToml),
    }
}

fn hours_after(alloc: Global, entries: &[Value]) -> Result<Items<Option<u8>>, SleepFault>
    ensures told { IfOk result (λ hours. hours_after [] (items_view entries.now) ≡ Ok hours) }
    ensures refused { IfErr result (λ e. e ≢ fault.OutOfMemory → hours_after [] (items_view entries.now) ≡ Err e) }
{
    let mut hours = Items::new(alloc);
    for entry in entries {
        let own = hours_at(hours.len(), entry)?;
        hours.push(own)?;
    }
    Ok(hours)
}

/// Those of the device with this number.
fn hours_at(device: usize, entry: &Value) -> Result<Option<u8>, SleepFault>
    ensures { result ≡ hours_at device (view entry.now) }
{
    match hours_from(entry) {
        Some(hours) => Ok(hours),
        None => Err(SleepFault::BadHours(device)),
    }
}

fn hours_from(entry: &Value) -> Option<Option<u8>>
    ensures { result ≡ hours_from (view entry.now) }
{
    match optional_number_at(entry, "sleeps")? {
        Some(number) => Some(Some(hours_of(byte_of(number)?)?)),
        None => Some(None),
    }
}

fn hours_of(number: u8) -> Option<u8>
    ensures { result ≡ hours_of number }
{
    if number >= 1 && number <= 24 {
        Some(number)
    } else {
        None
    }
}
