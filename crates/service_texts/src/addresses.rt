//! Over which connections the devices of a site are reached.
ghost use Rattle.std.specs.Prelude.{◌≡◌, [], ◌∷◌, ◌++◌, IfOk, IsTrue, OnOk, map};
ghost use Rattle.service_texts.specs.Reaching.{HasPort};
ghost use Rattle.service_texts.specs.Stations.{AreAt, addresses_of, all_behind, number_from, own_station, with_station};

use crate::device_places::DevicePlace;
use point_types::Items;
use service_parts::Station;
use site_model::{SiteDevice, Text};
use std::alloc::{AllocError, Global};

/// How the devices of a site are reached: those at one address share a connection.
#[derive(Drop)]
pub struct Addresses {
    /// Each different address, as it is spelled.
    pub links: Items<Text>,
    /// Of each device the number of its address, and its unit there.
    pub stations: Items<Station>,
}

impl Addresses {
    /// Those of devices at these places.
    #[tactic(auto, using(crate::proofs::Placing::placed))]
    pub fn of(alloc: Global, places: &[DevicePlace]) -> Result<Addresses, AllocError>
        ensures exact { IfOk result (λ addresses. addresses ≡ addresses_of places.now) }
        ensures placed { IfOk result (λ addresses. AreAt addresses.links places.now addresses.stations) }
    {
        match Addresses::gathered(alloc, places) {
            Ok(addresses) => Ok(addresses),
            Err(AllocError) => Err(AllocError),
        }
    }

    fn gathered(alloc: Global, places: &[DevicePlace]) -> Result<Addresses, AllocError>
        ensures { IfOk result (λ addresses. addresses ≡ addresses_of places.now) }
    {
        let mut addresses = Addresses {
            links: Items::new(alloc),
            stations: Items::new(alloc),
        };
        for place in places {
            addresses.push(alloc, place)?;
        }
        Ok(addresses)
    }

    /// Those of devices behind one address, each by its own unit.
    pub fn behind(
        alloc: Global,
        address: &str,
        devices: &[SiteDevice],
    ) -> Result<Addresses, AllocError>
        ensures { IfOk result (λ addresses. addresses ≡ all_behind address.now devices.now) }
    {
        let mut links = Items::new(alloc);
        links.push(Text::new(alloc, address)?)?;
        let stations = own_stations(alloc, devices)?;
        Ok(Addresses { links, stations })
    }

    fn push(&mut self, alloc: Global, place: &DevicePlace) -> Result<(), AllocError>
        ensures { OnOk result (self.new ≡ with_station (number_from 0 place.now.address self.old.links) place.now self.old) }
    {
        let address = place.address.as_str();
        match number_among(address, self.links.as_slice()) {
            Some(link) => self.push_station(link, place.unit),
            None => {
                let link = self.links.len();
                self.links.push(Text::new(alloc, address)?)?;
                self.push_station(link, place.unit)
            }
        }
    }

    fn push_station(&mut self, link: usize, unit: u8) -> Result<(), AllocError>
        ensures { OnOk result (self.new ≡ record { links = self.old.links; stations = self.old.stations ++ record { link = link; unit = unit } ∷ [] }) }
    {
        self.stations.push(Station { link, unit })
    }
}

/// Each device behind the first address, by its own unit.
fn own_stations(alloc: Global, devices: &[SiteDevice]) -> Result<Items<Station>, AllocError>
    ensures { IfOk result (λ stations. stations ≡ map own_station devices.now) }
{
    let mut stations = Vec::with_capacity(alloc, devices.len())?;
    for device in devices {
        stations.push(Station {
            link: 0,
            unit: device.unit,
        })?;
    }
    Ok(Items::from_vec(stations))
}

fn number_among(address: &str, links: &[Text]) -> Option<usize>
    ensures { result ≡ number_from 0 address.now links.now }
{
    for (number, known) in links.iter().enumerate() {
        if known.as_str() == address {
            return Some(number);
        }
    }
    None
}

/// Whether a text has the form `HOST:PORT`.
pub fn has_port(text: &str) -> bool
    ensures { IsTrue result → HasPort text.now }
{
    match text.rsplit_once(':') {
        Some((host, port)) => !host.is_empty() && matches!(port.parse::<u16>(), Ok(1..)),
        None => false,
    }
}
