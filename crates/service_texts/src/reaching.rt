//! Over which addresses the devices of a site are reached, by what the words say of them.
ghost use Rattle.std.specs.Prelude.{◌≡◌, ◌≢◌, ◌<◌, ◌++◌, codes, length, Ok, IfErr, IfNone, IfOk, IfSome};
ghost use Rattle.std.specs.Fmt.{decimal};
ghost use Rattle.service_texts.specs.Reaching.{AreDevices, AreReached, AreReachedBySite, AreUnreached, AreUnreachedBySite, HavePorts};
ghost use Rattle.service_texts.specs.Stations.{all_behind};
ghost use Rattle.service_texts.specs.declared.device_places.AddressFault.TheVariants as fault;

use crate::addresses::{Addresses, has_port};
use crate::device_places::{AddressFault, DevicePlace, read_places};
use file_keys::TomlFile;
use site_model::SiteDevice;
use std::alloc::{AllocError, Global};

/// Where the address of a plant stands before its port is known.
const PLANT: &str = "127.0.0.1:0";

/// Where the devices of a site are.
#[derive(Clone, Copy)]
pub enum DeviceSource<'a> {
    /// Each where the site file says.
    BySite,
    /// All behind this address.
    Behind(&'a str),
    /// In a simulated plant, of the file at this path.
    Plant(&'a str),
}

/// Why the words don't say where the devices are.
#[derive(Clone, Copy)]
pub enum DevicesFault {
    /// The address is no `HOST:PORT`.
    NoPort,
    /// There is an address, and a plant.
    Both,
}

/// Where the devices are, by the address of all of them and by the plant file, where one of these is given.
pub fn devices_of<'a>(
    address: Option<&'a str>,
    plant: Option<&'a str>,
) -> Result<DeviceSource<'a>, DevicesFault>
    ensures { AreDevices address.entry plant.entry result }
{
    match (address, plant) {
        (None, None) => Ok(DeviceSource::BySite),
        (None, Some(plant)) => Ok(DeviceSource::Plant(plant)),
        (Some(address), None) if has_port(address) => Ok(DeviceSource::Behind(address)),
        (Some(_), None) => Err(DevicesFault::NoPort),
        (Some(_), Some(_)) => Err(DevicesFault::Both),
    }
}

/// The addresses of the devices of a site, by its file and its list of devices: one for each different address that the file
/// has, in order, or the one that is given.
pub fn addresses_of(
    alloc: Global,
    devices: DeviceSource<'_>,
    site: &TomlFile<'_>,
    listed: &[SiteDevice],
) -> Result<Addresses, AddressFault>
    ensures told { IfOk result (AreReached devices.entry site.now listed.now) }
    ensures refused { IfErr result (λ e. e ≢ fault.OutOfMemory → AreUnreached devices.entry site.now e) }
{
    match devices {
        DeviceSource::BySite => addresses_in(alloc, site),
        DeviceSource::Behind(address) => Ok(Addresses::behind(alloc, address, listed)?),
        DeviceSource::Plant(_) => Ok(Addresses::behind(alloc, PLANT, listed)?),
    }
}

/// The addresses in a site file.
fn addresses_in(alloc: Global, site: &TomlFile<'_>) -> Result<Addresses, AddressFault>
    ensures told { IfOk result (AreReachedBySite site.now) }
    ensures refused { IfErr result (λ e. e ≢ fault.OutOfMemory → AreUnreachedBySite site.now e) }
{
    let places = match read_places(alloc, site) {
        Ok(places) => places,
        Err(fault) => return Err(fault),
    };
    match first_without_port(places.as_slice()) {
        Some(device) => Err(AddressFault::NoPort(device)),
        None => Ok(Addresses::of(alloc, places.as_slice())?),
    }
}

/// The number of the first device whose address is no `HOST:PORT`.
fn first_without_port(places: &[DevicePlace]) -> Option<usize>
    ensures inside { IfSome result (λ device. device < length places.now) }
    ensures none { IfNone result (HavePorts places.now) }
{
    for (device, place) in places.iter().enumerate() {
        if !has_port(place.address.as_str()) {
            return Some(device);
        }
    }
    None
}

/// The addresses of devices that are all in the plant on a port.
pub fn plant_addresses(
    alloc: Global,
    port: u16,
    listed: &[SiteDevice],
) -> Result<Addresses, AllocError>
    ensures { IfOk result (λ addresses. addresses ≡ all_behind (codes "127.0.0.1:" ++ decimal port) listed.now) }
{
    let address = format!(in alloc; "127.0.0.1:{port}")?;
    Addresses::behind(alloc, address.as_str(), listed)
}
