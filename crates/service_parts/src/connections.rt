//! Links to devices.
ghost use Rattle.std.specs.Prelude.{◌≡◌, ◌+◌, ◌<◌, ◌^◌, ℕ, All, slice_get, length, replicate, set, IfNone, IfOk, IfSome, IsTrue, None, Some, false};
ghost use Rattle.service_parts.specs.declared.device_connection.DeviceConnection.{DeviceConnection as LineValue};
ghost use Rattle.gateway.specs.event_core.Core.{Gateway};
ghost use Rattle.service_parts.specs.Frames.{ComesUp, GoesDown, IsCut, OthersGo};
ghost use Rattle.service_parts.specs.Overdue.{IsAt};
ghost use Rattle.service_parts.specs.Requests.{AreRightfulBy, IsFoundOn, StayRightful};

use crate::device_connection::DeviceConnection;
use crate::limits::{Limits, Station};
use crate::stations::Stations;
use std::alloc::{AllocError, Global};

/// The links to devices, over which connection the map of each was found, and the connection of each link with what goes out
/// over it.
#[derive(Drop)]
pub struct Connections {
    pub(crate) links: Stations,
    /// The number of the connection over which each device's map was found last.
    found_on: Vec<Option<u64>>,
    /// One for each link.
    pub(crate) lines: Vec<DeviceConnection>,
}

impl Connections {
    /// So many links to the devices at these stations, of which the site has so many. All are down, nothing waits, and no map
    /// was found yet.
    #[tactic(auto, using(crate::proofs::Rightful::all_cut))]
    pub fn new(
        alloc: Global,
        links: usize,
        stations: &[Station],
        devices: usize,
    ) -> Result<Connections, AllocError>
        ensures rightful { IfOk result (λ lines. (now : Gateway) → AreRightfulBy now lines) }
        ensures stations { IfOk result (λ lines. lines.links.stations.items ≡ stations.now) }
        ensures numbers { IfOk result (λ lines. lines.links.numbers.items ≡ replicate links 0) }
        ensures none { IfOk result (λ lines. lines.found_on.items ≡ replicate (length stations.now) None) }
    {
        let lines = lines_to(alloc, links, stations, devices)?;
        let numbers = vec![in alloc; 0; links]?;
        let found_on = vec![in alloc; None; stations.len()]?;
        let stations = Vec::from_slice(alloc, stations)?;
        Ok(Connections {
            links: Stations { stations, numbers },
            found_on,
            lines,
        })
    }

    /// How many links there are.
    pub fn count(&self) -> usize
        ensures { result ≡ length self.now.lines.items }
    {
        self.lines.len()
    }

    /// Where a device is reached; none for one without a station.
    pub fn station(&self, device: usize) -> Option<Station>
        ensures { result ≡ slice_get self.now.links.stations.items device }
    {
        self.links.stations.get(device).copied()
    }

    /// Whether a device is reached over a link.
    pub fn is_at(&self, device: usize, link: usize) -> bool
        ensures there { IsTrue result → IsAt self.now.links.stations.items link device }
        ensures elsewhere { IsAt self.now.links.stations.items link device → IsTrue result }
    {
        self.unit_at(device, link).is_some()
    }

    /// A device's unit, where it is reached over this link.
    pub fn unit_at(&self, device: usize, link: usize) -> Option<u8>
        ensures there { IfSome result (λ unit. slice_get self.now.links.stations.items device ≡ Some (record { link = link; unit = unit })) }
        ensures elsewhere { IfNone result ((unit : ℕ) → slice_get self.now.links.stations.items device ≡ Some (record { link = link; unit = unit }) → ⊥) }
    {
        match self.links.stations.get(device) {
            Some(station) if station.link == link => Some(station.unit),
            _ => None,
        }
    }

    /// Whether a device's map was found over the connection that the link has now.
    pub fn is_found(&self, link: usize, device: usize) -> bool
        ensures { IsTrue result → (number : ℕ) → slice_get self.now.links.numbers.items link ≡ Some number → IsFoundOn self.now.found_on.items number device }
    {
        match self.number_of(link) {
            Some(number) => is_number(&self.found_on, device, number),
            None => false,
        }
    }

    /// The number of the connection that a link has now.
    pub fn number_of(&self, link: usize) -> Option<u64>
        ensures { result ≡ slice_get self.now.links.numbers.items link }
    {
        self.links.numbers.get(link).copied()
    }

    /// The number of the connection that a device's link has now; 0 for a device without a link.
    pub fn number_for(&self, device: usize) -> u64 {
        match self.station(device) {
            Some(station) => self.number_of(station.link).unwrap_or(0),
            None => 0,
        }
    }

    /// The map of a device was found over the connection with this number, which is the one that the link has now; whether the
    /// device is one of this link.
    pub fn find(&mut self, link: usize, device: usize, number: u64) -> bool
        requires { slice_get self.old.links.numbers.items link ≡ Some number }
        ensures rightful { StayRightful self.old self.new }
        ensures links { self.new.links ≡ self.old.links }
        ensures lines { self.new.lines ≡ self.old.lines }
        ensures noted { IsTrue result → self.new.found_on.items ≡ set self.old.found_on.items device (Some number) }
        ensures none { result ≡ false → self.new.found_on ≡ self.old.found_on }
        ensures found { (unit : ℕ) → slice_get self.old.links.stations.items device ≡ Some (record { link = link; unit = unit })
            → device < length self.old.found_on.items → self.new.found_on.items ≡ set self.old.found_on.items device (Some number) }
    {
        match self.unit_at(device, link) {
            Some(unit) => self.find_on(link, device, unit, number),
            None => false,
        }
    }

    #[tactic(auto, using(crate::proofs::Rightful::with_found))]
    fn find_on(&mut self, link: usize, device: usize, unit: u8, number: u64) -> bool
        requires station { slice_get self.old.links.stations.items device ≡ Some (record { link = link; unit = unit }) }
        requires number { slice_get self.old.links.numbers.items link ≡ Some number }
        ensures rightful { StayRightful self.old self.new }
        ensures links { self.new.links ≡ self.old.links }
        ensures lines { self.new.lines ≡ self.old.lines }
        ensures found { device < length self.old.found_on.items → self.new.found_on.items ≡ set self.old.found_on.items device (Some number) }
        ensures noted { IsTrue result → self.new.found_on.items ≡ set self.old.found_on.items device (Some number) }
        ensures none { result ≡ false → self.new.found_on ≡ self.old.found_on }
    {
        if device >= self.found_on.len() {
            return false;
        }
        self.found_on[device] = Some(number);
        true
    }

    /// A link has a new connection, with the next number, on which nothing waits; whether there is a number for it.
    pub fn come_up(&mut self, link: usize) -> bool
        ensures rightful { StayRightful self.old self.new }
        ensures found { self.new.found_on ≡ self.old.found_on }
        ensures stations { self.new.links.stations ≡ self.old.links.stations }
        ensures next { (number : ℕ) → slice_get self.old.links.numbers.items link ≡ Some number → number + 1 < 2 ^ 64
            → IsTrue result × (self.new.links.numbers.items ≡ set self.old.links.numbers.items link (number + 1)) }
        ensures numbers { (other : ℕ) → (other ≡ link → ⊥) → slice_get self.new.links.numbers.items other ≡ slice_get self.old.links.numbers.items other }
        ensures none { result ≡ false → self.new ≡ self.old }
        ensures others { OthersGo link self.old.lines.items self.new.lines.items }
        ensures anew { IsTrue result → (line : LineValue) → slice_get self.old.lines.items link ≡ Some line → (cut : LineValue) × (slice_get self.new.lines.items link ≡ Some cut) × ComesUp line cut }
    {
        let Some(number) = self.number_of(link) else {
            return false;
        };
        let Some(next) = number.checked_add(1) else {
            return false;
        };
        self.begin_anew(link);
        self.renumber(link, next);
        true
    }

    fn begin_anew(&mut self, link: usize)
        ensures rightful { StayRightful self.old self.new }
        ensures found { self.new.found_on ≡ self.old.found_on }
        ensures links { self.new.links ≡ self.old.links }
        ensures others { OthersGo link self.old.lines.items self.new.lines.items }
        ensures anew { (line : LineValue) → slice_get self.old.lines.items link ≡ Some line → (cut : LineValue) × (slice_get self.new.lines.items link ≡ Some cut) × ComesUp line cut }
        ensures cut { (line : LineValue) → slice_get self.new.lines.items link ≡ Some line → IsCut line }
    {
        if let Some(line) = self.lines.get_mut(link) {
            line.come_up();
        }
    }

    #[tactic(auto, using(crate::proofs::Rightful::with_next, crate::proofs::Frames::set_other))]
    fn renumber(&mut self, link: usize, number: u64)
        requires { (line : LineValue) → slice_get self.old.lines.items link ≡ Some line → IsCut line }
        ensures rightful { StayRightful self.old self.new }
        ensures found { self.new.found_on ≡ self.old.found_on }
        ensures stations { self.new.links.stations ≡ self.old.links.stations }
        ensures lines { self.new.lines ≡ self.old.lines }
        ensures next { link < length self.old.links.numbers.items → self.new.links.numbers.items ≡ set self.old.links.numbers.items link number }
        ensures numbers { (other : ℕ) → (other ≡ link → ⊥) → slice_get self.new.links.numbers.items other ≡ slice_get self.old.links.numbers.items other }
    {
        if link < self.links.numbers.len() {
            self.links.numbers[link] = number;
        }
    }

    /// The connection of a link ended: nothing waits on it any more. One that ended while nothing was under way is made again
    /// at once, any other after a while.
    pub fn go_down(&mut self, link: usize, now: u64, limits: &Limits)
        ensures rightful { StayRightful self.old self.new }
        ensures found { self.new.found_on ≡ self.old.found_on }
        ensures links { self.new.links ≡ self.old.links }
        ensures others { OthersGo link self.old.lines.items self.new.lines.items }
        ensures ends { (line : LineValue) → slice_get self.old.lines.items link ≡ Some line → (cut : LineValue) × (slice_get self.new.lines.items link ≡ Some cut) × GoesDown now limits.now line cut }
    {
        if let Some(line) = self.lines.get_mut(link) {
            line.go_down(now, limits);
        }
    }
}

/// Whether this number stands for the device.
fn is_number(found_on: &[Option<u64>], device: usize, number: u64) -> bool
    ensures { IsTrue result → slice_get found_on.now device ≡ Some (Some number) }
{
    match found_on.get(device) {
        Some(Some(found)) => *found == number,
        _ => false,
    }
}

/// So many that are down, each to the devices whose station it is.
fn lines_to(
    alloc: Global,
    links: usize,
    stations: &[Station],
    devices: usize,
) -> Result<Vec<DeviceConnection>, AllocError>
    ensures { IfOk result (λ lines. All IsCut lines.items) }
{
    let mut lines = Vec::new(alloc);
    for link in 0..links {
        lines.push(DeviceConnection::new(devices_on(alloc, link, stations, devices)?))?;
    }
    Ok(lines)
}

/// Which of so many devices are reached over a link, in the order in which they are asked.
fn devices_on(
    alloc: Global,
    link: usize,
    stations: &[Station],
    devices: usize,
) -> Result<Vec<usize>, AllocError> {
    let mut found = Vec::new(alloc);
    for (device, station) in stations.iter().enumerate() {
        if device < devices && station.link == link {
            found.push(device)?;
        }
    }
    spread(alloc, &found)
}

/// Devices in another order: neighbours aren't asked one after another, since those that don't answer mostly lie side by side.
fn spread(alloc: Global, devices: &[usize]) -> Result<Vec<usize>, AllocError> {
    let count = devices.len();
    // a step that has no divisor in common with the count meets each place once
    let step = if count % 37 == 0 { 41 } else { 37 };
    let mut spread = Vec::new(alloc);
    for i in 0..count {
        spread.push(devices[i.saturating_mul(step) % count])?;
    }
    Ok(spread)
}
