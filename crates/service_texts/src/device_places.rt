//! Where the devices of a site are, each by itself.
ghost use Rattle.std.specs.Prelude.{◌≡◌, ◌≢◌, [], Ok, Err, IfOk, IfErr};
ghost use Rattle.toml.specs.View.{view, items_view};
ghost use Rattle.service_texts.specs.Places.{place_of, places_behind, places_in, places_of, remote_unit};
ghost use Rattle.service_texts.specs.declared.device_places.AddressFault.TheVariants as fault;

use file_keys::{TomlFile, byte_of, number_at, number_or, section_at, text_at};
use point_types::Items;
use site_model::Text;
use std::alloc::{AllocError, Global};
use toml::Value;

/// Where a device is reached.
#[derive(Drop)]
pub struct DevicePlace {
    /// `HOST:PORT`, as it is spelled.
    pub address: Text,
    /// The device's unit there.
    pub unit: u8,
}

/// Why it isn't known where the devices are. DeviceSource are told by their numbers.
#[derive(Clone, Copy)]
pub enum AddressFault {
    /// The text is no site file.
    NotToml,
    /// A device has no `address`, or it is no text.
    Missing(usize),
    /// The unit of a device at its address, `remote_unit` or else `unit`, is no number in 0..255.
    BadUnit(usize),
    /// A device's address, that the site file has, is no `HOST:PORT`.
    NoPort(usize),
    /// Memory was refused.
    OutOfMemory,
}

impl From<AllocError> for AddressFault {
    ghost use Rattle.std.specs.Prelude.{◌≡◌};
    ghost use Rattle.service_texts.specs.declared.device_places.AddressFault.TheVariants.{OutOfMemory};

    ghost from_gives = { λ _ e. e ≡ OutOfMemory };

    fn from(_refused: AllocError) -> Self {
        AddressFault::OutOfMemory
    }
}

impl DevicePlace {
    fn new(alloc: Global, address: &str, unit: u8) -> Result<DevicePlace, AllocError>
        ensures { IfOk result (λ place. place ≡ record { address = address.now; unit = unit }) }
    {
        Ok(DevicePlace {
            address: Text::new(alloc, address)?,
            unit,
        })
    }
}

/// Where a site file says that its devices are, in their order: by `address`, and by `remote_unit` or else
/// `unit`.
pub fn read_places(alloc: Global, site: &TomlFile<'_>) -> Result<Items<DevicePlace>, AddressFault>
    ensures told { IfOk result (λ places. places_in site.now ≡ Ok places) }
    ensures refused { IfErr result (λ e. e ≢ fault.OutOfMemory → places_in site.now ≡ Err e) }
{
    match site.tree() {
        Ok(tree) => places_of(alloc, tree),
        Err(_) => Err(AddressFault::NotToml),
    }
}

fn places_of(alloc: Global, file: &Value) -> Result<Items<DevicePlace>, AddressFault>
    ensures told { IfOk result (λ places. places_of (view file.now) ≡ Ok places) }
    ensures refused { IfErr result (λ e. e ≢ fault.OutOfMemory → places_of (view file.now) ≡ Err e) }
{
    match section_at(file, "device") {
        Some(entries) => places_behind(alloc, entries),
        None => Err(AddressFault::NotToml),
    }
}

fn places_behind(alloc: Global, entries: &[Value]) -> Result<Items<DevicePlace>, AddressFault>
    ensures told { IfOk result (λ places. places_behind [] (items_view entries.now) ≡ Ok places) }
    ensures refused { IfErr result (λ e. e ≢ fault.OutOfMemory → places_behind [] (items_view entries.now) ≡ Err e) }
{
    let mut places = Items::new(alloc);
    for entry in entries {
        let place = place_of(alloc, places.len(), entry)?;
        places.push(place)?;
    }
    Ok(places)
}

fn place_of(alloc: Global, device: usize, entry: &Value) -> Result<DevicePlace, AddressFault>
    ensures told { IfOk result (λ place. place_of device (view entry.now) ≡ Ok place) }
    ensures refused { IfErr result (λ e. e ≢ fault.OutOfMemory → place_of device (view entry.now) ≡ Err e) }
{
    let Some(address) = text_at(entry, "address") else {
        return Err(AddressFault::Missing(device));
    };
    let Some(unit) = remote_unit(entry) else {
        return Err(AddressFault::BadUnit(device));
    };
    Ok(DevicePlace::new(alloc, address, unit)?)
}

fn remote_unit(entry: &Value) -> Option<u8>
    ensures { result ≡ remote_unit (view entry.now) }
{
    let unit = number_at(entry, "unit")?;
    byte_of(number_or(entry, "remote_unit", unit)?)
}
