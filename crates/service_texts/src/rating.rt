//! The powers for which devices are made.
ghost use Rattle.std.specs.Prelude.{◌≡◌, ◌≢◌, [], Ok, Err, IfOk, IfErr};
ghost use Rattle.toml.specs.View.{view, items_view};
ghost use Rattle.file_keys.specs.Keys.{natural_within};
ghost use Rattle.service_texts.specs.RatedPowers.{power_at, power_from, power_of, powers_after, powers_in, powers_listed};
ghost use Rattle.service_texts.specs.declared.rating.RatedFault.TheVariants as fault;

use file_keys::{TomlFile, optional_number_at, section_at};
use point_types::Items;
use std::alloc::{AllocError, Global};
use toml::Value;

/// Why it isn't known for which powers devices are made. Devices are told by their numbers.
#[derive(Clone, Copy, PartialEq, Eq, Debug)]
pub enum RatedFault {
    /// The text is no site file.
    NotToml,
    /// `rated` of a device is no number of watts in 1..1,000,000,000.
    BadPower(usize),
    /// Memory was refused.
    OutOfMemory,
}

impl From<AllocError> for RatedFault {
    ghost use Rattle.std.specs.Prelude.{◌≡◌};
    ghost use Rattle.service_texts.specs.declared.rating.RatedFault.TheVariants.{OutOfMemory};

    ghost from_gives = { λ _ e. e ≡ OutOfMemory };

    fn from(_refused: AllocError) -> Self {
        RatedFault::OutOfMemory
    }
}

/// The power for which each device of a site file is made, in watts and in their order: the key `rated`; None for one without it.
pub fn rated_powers(alloc: Global, site: &TomlFile<'_>) -> Result<Items<Option<u32>>, RatedFault>
    ensures told { IfOk result (λ powers. powers_in site.now ≡ Ok powers) }
    ensures refused { IfErr result (λ e. e ≢ fault.OutOfMemory → powers_in site.now ≡ Err e) }
{
    match site.tree() {
        Ok(tree) => powers_listed(alloc, tree),
        Err(_) => Err(RatedFault::NotToml),
    }
}

fn powers_listed(alloc: Global, file: &Value) -> Result<Items<Option<u32>>, RatedFault>
    ensures told { IfOk result (λ powers. powers_listed (view file.now) ≡ Ok powers) }
    ensures refused { IfErr result (λ e. e ≢ fault.OutOfMemory → powers_listed (view file.now) ≡ Err e) }
{
    match section_at(file, "device") {
        Some(entries) => powers_after(alloc, entries),
        None => Err(RatedFault::NotToml),
    }
}

fn powers_after(alloc: Global, entries: &[Value]) -> Result<Items<Option<u32>>, RatedFault>
    ensures told { IfOk result (λ powers. powers_after [] (items_view entries.now) ≡ Ok powers) }
    ensures refused { IfErr result (λ e. e ≢ fault.OutOfMemory → powers_after [] (items_view entries.now) ≡ Err e) }
{
    let mut powers = Items::new(alloc);
    for entry in entries {
        let own = power_at(powers.len(), entry)?;
        powers.push(own)?;
    }
    Ok(powers)
}

/// That of the device with this number.
fn power_at(device: usize, entry: &Value) -> Result<Option<u32>, RatedFault>
    ensures { result ≡ power_at device (view entry.now) }
{
    match power_from(entry) {
        Some(power) => Ok(power),
        None => Err(RatedFault::BadPower(device)),
    }
}

fn power_from(entry: &Value) -> Option<Option<u32>>
    ensures { result ≡ power_from (view entry.now) }
{
    match optional_number_at(entry, "rated")? {
        Some(number) => Some(Some(power_of(watts_of(number)?)?)),
        None => Some(None),
    }
}

fn watts_of(number: i64) -> Option<u32>
    ensures { result ≡ natural_within 1000000000 number }
{
    if 0 <= number && number <= 1_000_000_000 {
        Some(number as u32)
    } else {
        None
    }
}

fn power_of(watts: u32) -> Option<u32>
    ensures { result ≡ power_of watts }
{
    if watts >= 1 { Some(watts) } else { None }
}
