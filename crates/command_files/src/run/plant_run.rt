//! A whole run over loopback: a simulated plant in a second process, the gateway's scans of it, and a probe of the gateway.
ghost use Rattle.modbus_frame.specs.Link.{LinkState};
ghost use Rattle.command_files.specs.Printing.{Fails, Grows};
ghost use Rattle.command_files.specs.Ran.{EndsBehind, RunsOnce, RunsOver, ScansBy, ScansLink};

use crate::failing::{no_start, tell_lost, tell_unreached};
use crate::links::{SocketLink, WatchedLink, cause_of_link, link_over, loopback};
use crate::processes::{start_plant, start_probe, tell_no_port, told_port};
use crate::run_watch::{RunLook, RunWatch, Setting};
use crate::runtimes::RunRuntime;
use crate::warnings::warn_on_site;
use commands::{
    DEPTH, FAILED_LINK, LinkCommand, ObeyedOver, RunPace, ScanClients, Unwatched, obey_over,
    write_lines,
};
use gateway::{Core, Poller, serve_client};
use modbus_frame::{Link, LinkFault};
use refusal_notes::{Notes, RefusalNote};
use std::alloc::Global;
use std::io;
use std::io::{Read, Write};
use std::net::{Net, OpenListener, OpenStream, TcpListener, TcpStream};
use std::process::{Output, Processes};

/// What a run is of.
#[derive(Clone, Copy)]
pub struct PlantRun<'n, 'a> {
    /// The files of the site, the program and the definitions, and whether a refusal is explained.
    pub notes: Notes<'n>,
    /// The path of the plant file.
    pub plant: &'a str,
    /// How many scans, and how far apart.
    pub pace: RunPace,
    /// What clients set between them.
    pub settings: &'a [Setting<'a>],
    /// The path of the program that is started for the plant and for the probe.
    pub exe: &'a str,
}

/// Starts a plant, scans it, and prints what a probe of the gateway after the scans prints. Gives the status: that of
/// the scans, where it isn't 0, else that of the probe; 1 for a refusal or a failed write, 3 where the link failed.
pub fn run_plant<R: RunRuntime, W: Write>(
    rt: &R,
    alloc: Global,
    run: &PlantRun<'_, '_>,
    out: &mut W,
) -> u8
    ensures { RunsOnce run.now.notes run.now.pace (W.contents out.old) (W.contents out.new) result }
{
    run_watched(rt, alloc, run, &mut Unwatched, out)
}

/// The same, where one more looks on at the scans.
pub fn run_watched<R: RunRuntime, V: RunLook, W: Write>(
    rt: &R,
    alloc: Global,
    run: &PlantRun<'_, '_>,
    beside: &mut V,
    out: &mut W,
) -> u8
    ensures { RunsOnce run.now.notes run.now.pace (W.contents out.old) (W.contents out.new) result }
{
    match start_plant(rt, alloc, &run.notes, run.plant, run.exe) {
        Ok(mut plant) => {
            let status = run_started(rt, alloc, run, beside, &mut plant.stdout, out);
            // (one that nobody came to would wait for ever)
            let _ = plant.kill();
            let _ = plant.wait();
            status
        }
        Err(fault) => no_start(rt, alloc, &run.notes, run.exe, &fault, out),
    }
}

/// Scans the plant that prints these lines, which stay open to its end, and has the gateway probed.
fn run_started<R: RunRuntime, V: RunLook, P: Read, W: Write>(
    rt: &R,
    alloc: Global,
    run: &PlantRun<'_, '_>,
    beside: &mut V,
    lines: &mut Option<P>,
    out: &mut W,
) -> u8
    ensures { RunsOnce run.now.notes run.now.pace (W.contents out.old) (W.contents out.new) result }
{
    match told_port(alloc, lines) {
        Ok(port) => run_at(rt, alloc, run, beside, port, out),
        Err(why) => tell_no_port(rt, alloc, &run.notes, run.exe, &why, out),
    }
}

/// Scans the plant on a port, and has the gateway probed.
fn run_at<R: RunRuntime, V: RunLook, W: Write>(
    rt: &R,
    alloc: Global,
    run: &PlantRun<'_, '_>,
    beside: &mut V,
    port: u16,
    out: &mut W,
) -> u8
    ensures { RunsOnce run.now.notes run.now.pace (W.contents out.old) (W.contents out.new) result }
{
    match link_to(rt, port) {
        Ok(link) => run_over(rt, alloc, run, beside, link, out),
        Err(fault) => tell_unreached(rt, alloc, &run.notes, fault.kind(), out),
    }
}

fn link_to<R: Net>(rt: &R, port: u16) -> io::Result<SocketLink<R::Stream>> {
    link_over(TcpStream::connect(rt, loopback(port))?)
}

/// Scans the plant over a link, closes that, and has the gateway probed.
fn run_over<R: RunRuntime, V: RunLook, L: Link + Drop, W: Write>(
    rt: &R,
    alloc: Global,
    run: &PlantRun<'_, '_>,
    beside: &mut V,
    link: L,
    out: &mut W,
) -> u8
    ensures { (b : LinkState) × RunsOver run.now.notes run.now.pace
        (record { coming = L.coming link; sent = L.sent link; failures = L.failures link; calls = L.calls link })
        b (W.contents out.old) (W.contents out.new) result }
{
    let (mut ended, link) = scans_over(rt, alloc, run, beside, link, out);
    drop(link);
    run.notes.explain(rt, &ended.ran.cause);
    if let Some(note) = &ended.unlinked {
        run.notes.tell(rt, note);
    }
    probed_behind(rt, alloc, run, &mut ended.ran, out)
}

/// What came of scans over a link, and why that failed.
#[derive(Drop)]
struct EndedScans {
    ran: ObeyedOver,
    unlinked: Option<RefusalNote>,
}

/// Does the scans over a link, over which nothing else goes, and gives it back.
fn scans_over<R: Eprint, V: RunLook, L: Link, W: Write>(
    rt: &R,
    alloc: Global,
    run: &PlantRun<'_, '_>,
    beside: &mut V,
    link: L,
    out: &mut W,
) -> (EndedScans, L)
    ensures { ScansLink run.now.notes run.now.pace
        (record { coming = L.coming link; sent = L.sent link; failures = L.failures link; calls = L.calls link })
        (record { coming = L.coming result.1; sent = L.sent result.1; failures = L.failures result.1; calls = L.calls result.1 })
        (W.contents out.old) (W.contents out.new) result.0.ran.core result.0.ran.status }
{
    let mut poller = Poller::new(WatchedLink::new(alloc, link));
    let mut watch = RunWatch::new(rt, alloc, run.notes.quiet, run.settings, beside);
    let ended = scans_by(alloc, run, &mut poller, &mut watch, out);
    (ended, poller.into_link().into_link())
}

/// Does the scans over a poller's link.
fn scans_by<L: Link, V: RunLook + ScanClients, W: Write>(
    alloc: Global,
    run: &PlantRun<'_, '_>,
    poller: &mut Poller<WatchedLink<L>>,
    watch: &mut V,
    out: &mut W,
) -> EndedScans
    ensures { ScansBy run.now.notes run.now.pace poller.old poller.new (W.contents out.old) (W.contents out.new) result.ran.core result.ran.status }
{
    let (site, program, defs) = (run.notes.site, run.notes.program, run.notes.defs);
    let command = LinkCommand::Run {
        site,
        program,
        defs,
        pace: run.pace,
    };
    let ran = obey_over(alloc, command, poller, watch, out);
    tell_refused(poller.link(), watch);
    let mut ended = EndedScans {
        ran,
        unlinked: None,
    };
    if ended.ran.status == FAILED_LINK {
        ended.unlinked = cause_of_link(alloc, site, defs, poller);
    }
    ended
}

/// Tells which writes over a link were refused, and how.
fn tell_refused<L: Link, V: RunLook>(link: &WatchedLink<L>, watch: &mut V) {
    for write in link.refused() {
        watch.refused(write.place, write.exception);
    }
    if let Some(write) = link.refused_last() {
        watch.refused(write.place, write.exception);
    }
}

/// Has the gateway probed after scans that ended well; else gives their status.
fn probed_behind<R: RunRuntime, W: Write>(
    rt: &R,
    alloc: Global,
    run: &PlantRun<'_, '_>,
    ran: &mut ObeyedOver,
    out: &mut W,
) -> u8
    ensures { EndsBehind ran.old.status (W.contents out.old) (W.contents out.new) result }
{
    if ran.status != 0 {
        return ran.status;
    }
    match &mut ran.core {
        Some(core) => probed(rt, alloc, run, core, out),
        None => 0,
    }
}

/// Serves a probe of the core on a free port, and prints what it prints; warns before of what it may not be shown.
fn probed<R: RunRuntime, W: Write>(
    rt: &R,
    alloc: Global,
    run: &PlantRun<'_, '_>,
    core: &mut Core<DEPTH>,
    out: &mut W,
) -> u8
    ensures { Grows (W.contents out.old) (W.contents out.new) }
{
    warn_on_site(rt, &run.notes, core.site());
    match TcpListener::bind(rt, loopback(0)) {
        Ok(listener) => probed_on(rt, alloc, run, &listener, core, out),
        Err(fault) => tell_unreached(rt, alloc, &run.notes, fault.kind(), out),
    }
}

/// Serves a probe of the core on the listener's port, and prints what it prints.
fn probed_on<R: Processes + Eprint + AllocGlobal, L: OpenListener, W: Write>(
    rt: &R,
    alloc: Global,
    run: &PlantRun<'_, '_>,
    listener: &L,
    core: &mut Core<DEPTH>,
    out: &mut W,
) -> u8
where
    L::Stream: Read + Write + OpenStream,
    ensures { Grows (W.contents out.old) (W.contents out.new) }
{
    let Ok(address) = listener.local_addr() else {
        return tell_lost(rt, alloc, &run.notes, LinkFault::Read, out);
    };
    match start_probe(rt, alloc, run.exe, address.port(), core.site().unit()) {
        Ok(probe) => {
            let served = serve_one(listener, core);
            let printed = probe.wait_with_output(alloc);
            tell_probed(rt, alloc, &run.notes, served, &printed, out)
        }
        Err(fault) => no_start(rt, alloc, &run.notes, run.exe, &fault, out),
    }
}

/// Serves one connection to its end.
fn serve_one<L: OpenListener>(listener: &L, core: &mut Core<DEPTH>) -> Result<u32, LinkFault>
where
    L::Stream: Read + Write + OpenStream,
{
    match listener.accept() {
        Ok((stream, _)) => match link_over(stream) {
            Ok(mut link) => serve_client(core, &mut link),
            Err(_) => Err(LinkFault::Read),
        },
        Err(_) => Err(LinkFault::Read),
    }
}

/// Prints what the probe printed, where it was served to its end.
fn tell_probed<R: Eprint + AllocGlobal, W: Write>(
    rt: &R,
    alloc: Global,
    notes: &Notes<'_>,
    served: Result<u32, LinkFault>,
    printed: &io::Result<Output>,
    out: &mut W,
) -> u8
    ensures { Grows (W.contents out.old) (W.contents out.new) }
{
    if let Err(fault) = served {
        return tell_lost(rt, alloc, notes, fault, out);
    }
    match printed {
        Ok(printed) => write_lines(
            out,
            printed.stdout.as_slice(),
            status_of(printed.status.code()),
        ),
        Err(fault) => tell_unreached(rt, alloc, notes, fault.kind(), out),
    }
}

fn status_of(code: Option<i32>) -> u8 {
    match code {
        Some(0) => 0,
        Some(3) => 3,
        _ => 1,
    }
}
