//! Where memory is refused, a call says so and nothing else. Each test holds whichever of its allocations is refused: it
//! ends where it gets no memory for what it begins with.

use crate::served::assert_same;
use crate::worked::sites::{SITE, site_of};
use gateway::{Core, CoreFault, Poller};
use modbus_frame::{Frame, LinkFault, MemLink, Pdu, write_frame};
use register_map::Map;
use scan_code::Image;
use scan_vm::Machine;
use service_requests::Tasks;
use site_model::Site;
use std::alloc::Global;
use std::process::Abort;
use verifier::Verified;
use verifier::verify::verify;

/// The program of the worked site, which adds the powers where both are there, and stores target in lim1 and TRUE in ena1.
static LIMITER: [u8; 129] = [
    // one variable, five tags, 46 bytes of code
    0x49, 0x4C, 0x53, 0x43, 1, 0, 1, 0, 5, 0, 46,
    // total : DINT (0..200000)
    5, 0x74, 0x6F, 0x74, 0x61, 0x6C, 3, 0, 0, 0, 0, 0, 0, 0, 0, 0, 0, 0, 0, 0, 3, 0x0D, 0x40, 0, 0,
    0, 0, 0, 0, 0, 0, // inv1_w and inv2_w : DINT
    6, 0x69, 0x6E, 0x76, 0x31, 0x5F, 0x77, 0, 3, 6, 0x69, 0x6E, 0x76, 0x32, 0x5F, 0x77, 0, 3,
    // target : INT
    6, 0x74, 0x61, 0x72, 0x67, 0x65, 0x74, 0, 2, // lim1 : INT and ena1 : BOOL, both stored
    4, 0x6C, 0x69, 0x6D, 0x31, 1, 2, 4, 0x65, 0x6E, 0x61, 0x31, 1, 0,
    // LD inv1_w_ok, AND inv2_w_ok, JMPCN hold
    3, 0, 0, 0x0C, 3, 0, 1, 0x0E, 0x23, 0, 34,
    // LD inv1_w, ADD inv2_w, MAX 0, ST total
    2, 0, 0, 0x0C, 2, 0, 1, 0x11, 0x0C, 5, 3, 0, 0, 0, 0, 0, 0, 0, 0, 0x1D, 6, 0, 0,
    // hold: LD target, ST lim1, LD TRUE, ST ena1
    2, 0, 2, 7, 0, 3, 4, 1, 7, 0, 4, 0,
];

/// A site of two devices.
const BOTH: &str = "[gateway]
unit = 1
models = [1]

[[device]]
name = \"inv1\"
unit = 1
[[device]]
name = \"inv2\"
unit = 2
base = 40000
";

/// The mark, then ID and length of models 1, 103 and 123, then the end model.
const MAP: [&[u8]; 8] = [
    &[3, 4, 0x53, 0x75, 0x6E, 0x53],
    &[3, 2, 0, 1],
    &[3, 2, 0, 66],
    &[3, 2, 0, 103],
    &[3, 2, 0, 50],
    &[3, 2, 0, 123],
    &[3, 2, 0, 24],
    &[3, 2, 0xFF, 0xFF],
];

/// The worked site's program, where it is accepted.
fn accepted(alloc: Global, site: &Site) -> Option<Verified<32>> {
    let image = Image::read(alloc, &LIMITER).ok()?;
    verify(alloc, image, site).ok()
}

fn machine(alloc: Global, site: &Site) -> Option<Machine<32>> {
    Machine::new(alloc, accepted(alloc, site)?).ok()
}

/// No map for each of two devices.
fn no_maps(alloc: Global) -> Option<Vec<Option<Map>>> {
    let mut maps = Vec::new(alloc);
    for _ in 0..2 {
        maps.push(None).ok()?;
    }
    Some(maps)
}

fn assert_opened(rt: &impl Abort, opened: &Result<Core<32>, CoreFault>) {
    match opened {
        Ok(core) => assert_same(rt, &core.machine().verified().budget(), &18),
        Err(fault) => assert_same(rt, fault, &CoreFault::OutOfMemory),
    }
}

fn assert_core(rt: &impl Abort, alloc: Global, site: Site, machine: Machine<32>) {
    if let Some(maps) = no_maps(alloc) {
        assert!(rt; maps.len() == site.devices().len());
        assert_opened(rt, &Core::new(alloc, site, machine, maps));
    }
}

fn open_on(rt: &impl Abort, alloc: Global, site: Site) {
    if let Some(machine) = machine(alloc, &site) {
        assert_core(rt, alloc, site, machine);
    }
}

#[test]
fn a_core_opens(rt: HostRuntime) {
    if let Some(site) = site_of(rt.alloc(), SITE) {
        open_on(&rt, rt.alloc(), site);
    }
}

/// The core takes a program with the same budget, or says that there was no memory for it.
fn assert_adopts(rt: &impl Abort, alloc: Global, core: &mut Core<32>, machine: Machine<32>) {
    match core.adopt(alloc, machine) {
        Ok(()) => assert_same(rt, &core.machine().verified().budget(), &18),
        Err(fault) => assert_same(rt, &fault, &CoreFault::OutOfMemory),
    }
}

fn adopt_in(rt: &impl Abort, alloc: Global, core: &mut Core<32>) {
    if let Some(machine) = machine(alloc, core.site()) {
        assert_adopts(rt, alloc, core, machine);
    }
}

fn adopt_on(rt: &impl Abort, alloc: Global, site: Site, machine: Machine<32>) {
    if let Some(maps) = no_maps(alloc) {
        assert!(rt; maps.len() == site.devices().len());
        if let Ok(mut core) = Core::new(alloc, site, machine, maps) {
            adopt_in(rt, alloc, &mut core);
        }
    }
}

#[test]
fn a_core_takes_another_program(rt: HostRuntime) {
    let alloc = rt.alloc();
    if let Some(site) = site_of(alloc, SITE) {
        if let Some(machine) = machine(alloc, &site) {
            adopt_on(&rt, alloc, site, machine);
        }
    }
}

/// Appends the frames of a unit with these PDUs, one transaction after another, and gives the next one.
fn append_frames(bytes: &mut Vec<u8>, first: u16, unit: u8, pdus: &[&[u8]]) -> Option<u16> {
    let mut transaction = first;
    for pdu in pdus {
        let frame = Frame {
            transaction,
            unit,
            pdu: Pdu::from_bytes(*pdu)?,
        };
        append_frame(bytes, &frame)?;
        transaction = transaction.wrapping_add(1);
    }
    Some(transaction)
}

fn append_frame(bytes: &mut Vec<u8>, frame: &Frame) -> Option<()> {
    let mut buffer = [0; Frame::MAX_LEN];
    let len = write_frame(frame, &mut buffer);
    let (spelled, _) = buffer.split_at(len);
    bytes.extend_from_slice(spelled).ok()
}

/// What the units of a site answer to a search.
fn replies(alloc: Global) -> Option<Vec<u8>> {
    let mut bytes = Vec::new(alloc);
    let next = append_frames(&mut bytes, 0, 1, &MAP)?;
    append_frames(&mut bytes, next, 2, &MAP)?;
    Some(bytes)
}

/// A poller on a link over which they come.
fn poller(alloc: Global) -> Option<Poller<MemLink>> {
    let coming = replies(alloc)?;
    let link = MemLink::new(alloc, &coming, 50, None).ok()?;
    Some(Poller::new(link))
}

/// Whether memory is left: all after a refused allocation may be refused too.
fn has_memory(alloc: Global) -> bool {
    Vec::<u8>::with_capacity(alloc, 1).is_ok()
}

/// Both devices have a map that ends there.
fn assert_both(rt: &impl Abort, found: &Result<Vec<Option<Map>>, LinkFault>) {
    match found {
        Ok(maps) => assert_ends(rt, maps.as_slice()),
        Err(fault) => panic!(rt; "{fault}"),
    }
}

fn assert_ends(rt: &impl Abort, maps: &[Option<Map>]) {
    assert_same(rt, &maps.len(), &2);
    for map in maps {
        let end = map.as_ref().map(|map| map.end());
        assert_same(rt, &end, &Some(40148));
    }
}

/// No byte was sent, and with memory the maps are found.
fn assert_finds_again(rt: &impl Abort, alloc: Global, poller: &mut Poller<MemLink>, site: &Site) {
    assert_same(rt, &poller.link().sent().len(), &0);
    if has_memory(alloc) {
        assert_both(rt, &poller.find(alloc, site));
    }
}

/// Without memory no byte is sent, and the same poller finds the maps with it.
fn assert_finds(rt: &impl Abort, alloc: Global, poller: &mut Poller<MemLink>, site: &Site) {
    let found = poller.find(alloc, site);
    match found {
        Ok(_) => assert_both(rt, &found),
        Err(LinkFault::OutOfMemory) => assert_finds_again(rt, alloc, poller, site),
        // the link in memory had no room for the bytes sent
        Err(fault) => assert_same(rt, &fault, &LinkFault::Write),
    }
}

fn find_on(rt: &impl Abort, alloc: Global, site: &Site) {
    if let Some(mut poller) = poller(alloc) {
        assert_finds(rt, alloc, &mut poller, site);
    }
}

#[test]
fn maps_are_found(rt: HostRuntime) {
    if let Some(site) = site_of(rt.alloc(), BOTH) {
        find_on(&rt, rt.alloc(), &site);
    }
}

/// Without memory there are no requests, and the error can say nothing else.
#[test]
fn requests_are_made(rt: HostRuntime) {
    if let Ok(tasks) = Tasks::new(rt.alloc(), 3) {
        assert_same(&rt, &tasks.len(), &3);
        assert_same(&rt, &tasks.are_done(), &true);
    }
}
