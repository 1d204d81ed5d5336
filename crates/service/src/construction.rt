//! A service is made.
ghost use Rattle.std.specs.Prelude.{◌≡◌, ◌<◌, ◌^◌, All, length, [], map, replicate, IfErr, IfOk, None, OnOk};
ghost use Rattle.verifier.specs.Verified.{HasLinks};
ghost use Rattle.gateway.specs.declared.event_core.fault.CoreFault.TheVariants.{Foreign};
ghost use Rattle.gateway.specs.event_core.Core.{Gateway, gateway_of};
ghost use Rattle.gateway.specs.event_core.SiteRun.{none_of};
ghost use Rattle.service_parts.specs.Requests.{AreRightfulBy};
ghost use Rattle.service_parts.specs.Seeking.{AreOf, base_sought, base_stated};
ghost use Rattle.service.specs.Cycle.{stage_of};
ghost use Rattle.service.specs.Having.{HasNothing};
ghost use Rattle.service.specs.Pairing.{companions_of};
ghost use Rattle.service.specs.Identity.{AreRight, SaysNothing};
ghost use Rattle.service.specs.Rounds.{IsRoundFor, IsUntold};
ghost use Rattle.service.specs.Stages.{IsFirst};
ghost use Rattle.service.specs.Timing.{Starts, most_notes};
ghost use Rattle.service.specs.Turning.{output_for, outputs_for};

use crate::cycle::Cycle;
use crate::device_side::DeviceSide;
use crate::held_writes::HeldWrites;
use crate::identities::Identities;
use crate::last_scan::LastScan;
use crate::link_pace::LinkPace;
use crate::notices::Notices;
use crate::output::Output;
use crate::polled_device::PolledDevice;
use crate::round::Round;
use crate::service_state::Service;
use gateway::{Core, CoreFault, DEPTH};
use register_map::Map;
use scan_vm::Machine;
use service_parts::{ClientPlace, Connections, Limits, Station};
use service_requests::{Identity, Search};
use site_model::{Site, SiteDevice};
use std::alloc::{AllocError, Global};

impl Service {
    /// A service for a site and the program that runs, over so many connections, all of them down; no device has a map
    /// yet. All memory is taken here. `stations` has an entry for each of the site's devices; one without is never asked.
    /// The first scan is a period from now. `read_back` says of each of the site's tags whether what its device shows of it is compared
    /// with what it took; of those without an entry it is. `identities` says of each device which one it has to be; one without an entry
    /// isn't asked. Foreign: the program was accepted for tags that the site doesn't have so;
    /// OutOfMemory: memory is refused.
    pub fn new(
        alloc: Global,
        site: Site,
        machine: Machine<DEPTH>,
        links: usize,
        stations: &[Station],
        read_back: &[bool],
        identities: &[Option<Identity>],
        limits: Limits,
        now: u64,
    ) -> Result<Service, CoreFault>
        ensures opened { IfOk result (λ service. service.cycle.core.value ≡ gateway_of site (none_of site.devices) machine) }
        ensures first { IfOk result (λ service. IsFirst (stage_of service.cycle)) }
        ensures matched { OnOk result (HasLinks site.tags machine.accepted.links) }
        ensures stations { IfOk result (λ service. service.lines.links.stations.items ≡ stations.now) }
        ensures numbers { IfOk result (λ service. service.lines.links.numbers.items ≡ replicate links 0) }
        ensures starts { IfOk result (λ service. Starts now limits service.side) }
        ensures nothing { IfOk result (λ service. HasNothing service.held) }
        ensures companions { IfOk result (λ service. service.held.companions.items ≡ companions_of site) }
        ensures identities { IfOk result (λ service. service.held.identities.wanted.items ≡ identities.now) }
        ensures unsaid { IfOk result (λ service. SaysNothing service.held.identities) }
        ensures outputs { IfOk result (λ service. service.side.outputs.items ≡ outputs_for read_back.now site.outs) }
        ensures places { IfOk result (λ service. length service.places.items ≡ limits.clients) }
        ensures foreign { IfErr result (λ e. e ≡ Foreign → HasLinks site.tags machine.accepted.links → ⊥) }
    {
        let parts = parts_of(
            alloc, &site, links, stations, read_back, identities, limits, now,
        )?;
        let core = Core::new(alloc, site, machine, parts.maps)?;
        let cycle = Cycle::new(alloc, core, parts.round, parts.searches, parts.over)?;
        Ok(Service {
            cycle,
            held: parts.held,
            lines: parts.peers.lines,
            side: parts.peers.side,
            places: parts.peers.places,
        })
    }
}

/// What a service is made of, beside its core.
#[derive(Drop)]
struct Parts {
    maps: Vec<Option<Map>>,
    round: Round,
    searches: Vec<Search>,
    over: Vec<u64>,
    held: HeldWrites,
    peers: Peers,
}

#[tactic(auto, using(crate::proofs::Saying::right_none))]
fn parts_of(
    alloc: Global,
    site: &Site,
    links: usize,
    stations: &[Station],
    read_back: &[bool],
    identities: &[Option<Identity>],
    limits: Limits,
    now: u64,
) -> Result<Parts, AllocError>
    ensures maps { IfOk result (λ parts. parts.maps.items ≡ none_of site.now.devices) }
    ensures round { IfOk result (λ parts. IsRoundFor site.now parts.round) }
    ensures untold { IfOk result (λ parts. All IsUntold parts.round.told) }
    ensures searches { IfOk result (λ parts. AreOf site.now parts.searches.items) }
    ensures rightful { IfOk result (λ parts. (now : Gateway) → AreRightfulBy now parts.peers.lines) }
    ensures stations { IfOk result (λ parts. parts.peers.lines.links.stations.items ≡ stations.now) }
    ensures numbers { IfOk result (λ parts. parts.peers.lines.links.numbers.items ≡ replicate links 0) }
    ensures starts { IfOk result (λ parts. Starts now limits parts.peers.side) }
    ensures nothing { IfOk result (λ parts. HasNothing parts.held) }
    ensures companions { IfOk result (λ parts. parts.held.companions.items ≡ companions_of site.now) }
    ensures identities { IfOk result (λ parts. parts.held.identities.wanted.items ≡ identities.now) }
    ensures unsaid { IfOk result (λ parts. SaysNothing parts.held.identities) }
    ensures right { IfOk result (λ parts. AreRight parts.held.identities parts.peers.lines.found_on.items) }
    ensures outputs { IfOk result (λ parts. parts.peers.side.outputs.items ≡ outputs_for read_back.now site.now.outs) }
    ensures places { IfOk result (λ parts. length parts.peers.places.items ≡ limits.clients) }
{
    let maps = no_maps(alloc, site.devices())?;
    let round = Round::new(alloc, site)?;
    let searches = searches_for(alloc, site.devices(), identities)?;
    let over = vec![in alloc; 0; site.devices().len()]?;
    let identities = Identities::new(alloc, identities, site.devices().len())?;
    let held = HeldWrites::new(alloc, site, identities)?;
    let peers = peers_of(alloc, site, links, stations, read_back, limits, now)?;
    Ok(Parts {
        maps,
        round,
        searches,
        over,
        held,
        peers,
    })
}

/// What a service keeps of its peers.
#[derive(Drop)]
struct Peers {
    lines: Connections,
    side: DeviceSide,
    places: Vec<ClientPlace>,
}

/// What a service keeps of so many connections, all of them down, of a site's devices and outputs, and of its clients.
fn peers_of(
    alloc: Global,
    site: &Site,
    links: usize,
    stations: &[Station],
    read_back: &[bool],
    limits: Limits,
    now: u64,
) -> Result<Peers, AllocError>
    ensures rightful { IfOk result (λ peers. (now : Gateway) → AreRightfulBy now peers.lines) }
    ensures stations { IfOk result (λ peers. peers.lines.links.stations.items ≡ stations.now) }
    ensures numbers { IfOk result (λ peers. peers.lines.links.numbers.items ≡ replicate links 0) }
    ensures none { IfOk result (λ peers. peers.lines.found_on.items ≡ replicate (length stations.now) None) }
    ensures starts { IfOk result (λ peers. Starts now limits peers.side) }
    ensures outputs { IfOk result (λ peers. peers.side.outputs.items ≡ outputs_for read_back.now site.now.outs) }
    ensures places { IfOk result (λ peers. length peers.places.items ≡ limits.clients) }
{
    let lines = Connections::new(alloc, links, stations, site.devices().len())?;
    let side = device_side(alloc, site, links, read_back, limits, now)?;
    let places = places_for(alloc, limits.clients)?;
    Ok(Peers {
        lines,
        side,
        places,
    })
}

/// The devices and outputs of a site, and what is asked over so many links.
fn device_side(
    alloc: Global,
    site: &Site,
    links: usize,
    read_back: &[bool],
    limits: Limits,
    now: u64,
) -> Result<DeviceSide, AllocError>
    ensures starts { IfOk result (λ side. Starts now limits side) }
    ensures outputs { IfOk result (λ side. side.outputs.items ≡ outputs_for read_back.now site.now.outs) }
{
    let devices = devices_of(alloc, site.devices().len())?;
    let outputs = outputs_for(alloc, site.outs(), read_back)?;
    let links = vec![in alloc; LinkPace::new(); links]?;
    let notes = Notices::new(alloc, most_notes(devices.len(), outputs.len()))?;
    Ok(DeviceSide {
        devices,
        outputs,
        links,
        notes,
        limits,
        now,
        next_scan: now.saturating_add(limits.period),
        scans: 0,
        last_scan: LastScan::none(),
        is_writing: false,
        writes: 0,
        refused: 0,
    })
}

/// A search for each device's map.
fn searches_for(
    alloc: Global,
    devices: &[SiteDevice],
    identities: &[Option<Identity>],
) -> Result<Vec<Search>, AllocError>
    ensures { IfOk result (λ searches. map base_sought searches.items ≡ map base_stated devices.now) }
{
    let mut searches = Vec::new(alloc);
    for own in devices {
        let is_to_say = is_to_say(identities, searches.len());
        searches.push(Search::new(own.base, is_to_say))?;
    }
    Ok(searches)
}

/// Whether a device has to say which one it is.
fn is_to_say(identities: &[Option<Identity>], device: usize) -> bool {
    match identities.get(device) {
        Some(Some(_)) => true,
        _ => false,
    }
}

/// No map for each device.
fn no_maps(alloc: Global, devices: &[SiteDevice]) -> Result<Vec<Option<Map>>, AllocError>
    ensures { IfOk result (λ maps. maps.items ≡ none_of devices.now) }
{
    devices.iter().map(|_| None).collect(alloc)
}

/// How many notes have room.
fn most_notes(devices: usize, outputs: usize) -> usize
    ensures { result < 2 ^ 63 → result ≡ most_notes devices outputs }
{
    devices
        .saturating_add(outputs)
        .saturating_mul(4)
        .saturating_add(16)
}

fn devices_of(alloc: Global, count: usize) -> Result<Vec<PolledDevice>, AllocError> {
    let mut devices = Vec::new(alloc);
    for _ in 0..count {
        devices.push(PolledDevice::new())?;
    }
    Ok(devices)
}

/// The outputs of these tags.
fn outputs_for(alloc: Global, outs: &[usize], read_back: &[bool]) -> Result<Vec<Output>, AllocError>
    ensures { IfOk result (λ outputs. outputs.items ≡ outputs_for read_back.now outs.now) }
{
    let mut outputs = Vec::new(alloc);
    for tag in outs {
        outputs.push(output_for(read_back, *tag))?;
    }
    Ok(outputs)
}

fn output_for(read_back: &[bool], tag: usize) -> Output
    ensures { result ≡ output_for read_back.now tag }
{
    match read_back.get(tag) {
        Some(is_read_back) => Output::new(*is_read_back),
        None => Output::new(true),
    }
}

fn places_for(alloc: Global, clients: usize) -> Result<Vec<ClientPlace>, AllocError>
    ensures { IfOk result (λ places. length places.items ≡ clients) }
{
    let mut places = Vec::new(alloc);
    for _ in 0..clients {
        places.push(ClientPlace::new())?;
    }
    Ok(places)
}
