//! The command `serve`: a program on a site, scan by scan, by the clock.
use crate::runtimes::LoopRuntime;
use crate::serve::last_program::{ProgramFault, RefusedText};
use crate::serve::open_writers::warn_of_everybody;
use crate::serve::page_parts::PageParts;
use crate::serve::program_file::ProgramFile;
use crate::serve::refusing::{tell_no_core, tell_unreachable, tell_unretained};
use crate::serve::retained::Retained;
use crate::serve::served_keys::{ServedKeys, name_in};
use crate::serve::short_history::warn_of_short_history;
use crate::serve::unkept::tell_unkept;
use crate::words::version;
use command_files::{
    no_start, read_kept_program, start_plant, tell_lost, tell_no_port, tell_unserved, told_port,
    variables_of, warn_of_names, warn_of_short_lapses, warn_on_site,
};
use commands::{Accepted, CommandOutcome, accept, tell_no_memory, write_lines};
use modbus_frame::LinkFault;
use point_types::Name;
use refusal_notes::{FileFault, Notes};
use served_site::service_of;
use service::{Limits, Service};
use service_loop::{End, Keeping, OneProgram, Serving, seconds_of_day, serve_site};
use service_texts::{Addresses, DeviceSource, Start, addresses_of, plant_addresses};
use site_model::Site;
use std::alloc::{AllocError, Global};
use std::fs::File;
use std::io::{Read, Write};
use std::net::SocketAddr;
use std::rt::Files;

/// What is told at the start where set values aren't kept.
const UNKEPT: &str =
    "set values begin at the tags' defaults and aren't kept over a restart: '--state PATH' keeps them\n";

/// What is told beside it where variables were to be kept.
const UNRETAINED: &str =
    "variables begin at their start values and aren't kept over a restart: '--state PATH' keeps those of 'retain'\n";

/// What a service is of.
#[derive(Clone, Copy)]
pub struct ServiceRun<'n, 'a, 's, 'k, 't> {
    /// The files of the site, the program and the definitions, and whether a refusal is explained.
    pub notes: Notes<'n>,
    /// Why the program's file isn't had, where the program is the one that was accepted last.
    pub program_fault: Option<FileFault>,
    pub devices: DeviceSource<'a>,
    /// The path of the program that is started for a plant.
    pub exe: &'a str,
    pub limits: Limits,
    pub serving: Serving<'s>,
    /// The files that it keeps.
    pub keeping: Keeping<'k, 't>,
    /// Whether the program's file is looked at while it runs, for another program.
    pub reloads: bool,
    /// The names of the variables that are kept, once they are known.
    pub names: &'k [Name],
    /// What the program's file has, where it was refused and the program is the one that was accepted last, once that is known.
    pub refused: Option<RefusedText<'n>>,
    /// Of each tag, whether what its device shows is compared with what it took, once that is known.
    pub read_back: &'k [bool],
    /// For how much power each device is made, in watts, once that is known.
    pub rated: &'k [Option<u32>],
}

/// Serves a site, and gives the status: 0 after the last scan that was asked for, 1 for a refusal or a failed write, 2
/// where it isn't said where a device is, 3 where the clock or a socket can't be had.
pub fn run_service<R: LoopRuntime + Print + Files<File = File>, W: Write>(
    rt: &R,
    alloc: Global,
    run: &ServiceRun<'_, '_, '_, '_, '_>,
    out: &mut W,
) -> u8 {
    let notes = &run.notes;
    if let Some(fault) = run.program_fault {
        let fault = ProgramFault::Unread(fault);
        let Ok(last) = String::from_str(alloc, notes.program) else {
            return tell_no_memory(out);
        };
        return serve_last(rt, alloc, run, &fault, last, out);
    }
    match accept(alloc, notes.site, notes.program, notes.defs) {
        Ok(Ok(given)) => serve_accepted(rt, alloc, run, given, out),
        Ok(Err(outcome)) => serve_refused(rt, alloc, run, outcome, out),
        Err(AllocError) => tell_no_memory(out),
    }
}

/// Serves a site whose program is refused by the one that was accepted last, where that is kept; else refuses the start.
fn serve_refused<R: LoopRuntime + Print + Files<File = File>, W: Write>(
    rt: &R,
    alloc: Global,
    run: &ServiceRun<'_, '_, '_, '_, '_>,
    outcome: CommandOutcome,
    out: &mut W,
) -> u8 {
    let notes = &run.notes;
    let fault = ProgramFault::Refused(outcome);
    let last = match run.keeping.state {
        Some(state) if fault.is_of_program() => {
            read_kept_program(rt, alloc, state.path, notes.quiet)
        }
        _ => None,
    };
    match last {
        Some(last) => serve_last(rt, alloc, run, &fault, last, out),
        None => fault.refuse(rt, alloc, notes, out),
    }
}

/// Serves a site by the program that was accepted last, where that still is accepted; else refuses the start for the fault of
/// the program in its file.
fn serve_last<R: LoopRuntime + Print + Files<File = File>, W: Write>(
    rt: &R,
    alloc: Global,
    run: &ServiceRun<'_, '_, '_, '_, '_>,
    fault: &ProgramFault,
    last: String,
    out: &mut W,
) -> u8 {
    let notes = &run.notes;
    match accept(alloc, notes.site, last.as_str(), notes.defs) {
        Ok(Ok(given)) => serve_in_place(rt, alloc, run, fault, last, given, out),
        Ok(Err(_)) => fault.refuse(rt, alloc, notes, out),
        Err(AllocError) => tell_no_memory(out),
    }
}

/// Serves a site by the program that was accepted last, in place of the one in its file.
fn serve_in_place<R: LoopRuntime + Print + Files<File = File>, W: Write>(
    rt: &R,
    alloc: Global,
    run: &ServiceRun<'_, '_, '_, '_, '_>,
    fault: &ProgramFault,
    last: String,
    given: Accepted,
    out: &mut W,
) -> u8 {
    let notes = &run.notes;
    let Ok(words) = fault.words(alloc, notes) else {
        return tell_no_memory(out);
    };
    let Ok(start) = Start::of(
        alloc,
        seconds_of_day(rt),
        version(),
        notes.site.text(),
        last.as_str(),
    ) else {
        return tell_no_memory(out);
    };
    fault.explain(rt, notes);
    let place = InPlace {
        start: &start,
        words: words.as_str(),
        program: last.as_str(),
        refused: fault.text(notes),
    };
    serve_replaced(rt, alloc, run, place, given, out)
}

/// What runs in place of the program in its file, and why.
#[derive(Clone, Copy)]
struct InPlace<'x> {
    start: &'x Start,
    words: &'x str,
    program: &'x str,
    refused: RefusedText<'x>,
}

fn serve_replaced<'x, R: LoopRuntime + Print + Files<File = File>, W: Write>(
    rt: &R,
    alloc: Global,
    run: &ServiceRun<'x, 'x, 'x, 'x, 'x>,
    place: InPlace<'x>,
    given: Accepted,
    out: &mut W,
) -> u8 {
    let notes = Notes {
        program: place.program,
        ..run.notes
    };
    let serving = Serving {
        start: place.start,
        refused: Some(place.words),
        ..run.serving
    };
    let run = ServiceRun {
        notes,
        serving,
        refused: Some(place.refused),
        ..*run
    };
    serve_accepted(rt, alloc, &run, given, out)
}

fn serve_accepted<'x, R: LoopRuntime + Print + Files<File = File>, W: Write>(
    rt: &R,
    alloc: Global,
    run: &ServiceRun<'x, 'x, 'x, 'x, 'x>,
    given: Accepted,
    out: &mut W,
) -> u8 {
    let retained = match Retained::of(alloc, &run.notes, &run.keeping, &given) {
        Ok(retained) => retained,
        Err(fault) => return tell_unretained(rt, alloc, fault, out),
    };
    let name = match name_in(rt, alloc, run.notes.site, out) {
        Ok(name) => name,
        Err(status) => return status,
    };
    let keys = match ServedKeys::of(rt, alloc, run.notes.site, &given.site, out) {
        Ok(keys) => keys,
        Err(status) => return status,
    };
    match prepared(rt, alloc, run, &given, &retained, out) {
        Ok(addresses) => {
            let keeping = retained.keeping(&run.keeping, run.notes.program);
            let run = ServiceRun {
                serving: Serving {
                    name,
                    sleeps: keys.hours.as_slice(),
                    identities: keys.identities_over(run.devices),
                    ..run.serving
                },
                keeping,
                names: retained.names.as_slice(),
                read_back: keys.read_back.as_slice(),
                rated: keys.powers.as_slice(),
                ..*run
            };
            serve_made(rt, alloc, &run, given, &retained, &addresses, out)
        }
        Err(status) => status,
    }
}

/// Makes the service, and serves the site by it.
fn serve_made<R: LoopRuntime + Files<File = File>, W: Write>(
    rt: &R,
    alloc: Global,
    run: &ServiceRun<'_, '_, '_, '_, '_>,
    given: Accepted,
    retained: &Retained,
    addresses: &Addresses,
    out: &mut W,
) -> u8 {
    let Ok(page) = PageParts::of(alloc, run, &given) else {
        return tell_no_memory(out);
    };
    let window = page.window(run.serving.page);
    let run = &ServiceRun {
        serving: Serving {
            page: window,
            ..run.serving
        },
        ..*run
    };
    match service_of(
        alloc,
        given,
        retained.kept.as_slice(),
        addresses.links.len(),
        addresses.stations.as_slice(),
        run.read_back,
        run.serving.identities,
        run.limits,
    ) {
        Ok(mut service) => serve_begun(rt, alloc, run, addresses, &mut service, out),
        Err(fault) => tell_no_core(alloc, fault, out),
    }
}

/// Serves a site of which nothing was asked yet.
fn serve_begun<R: LoopRuntime + Files<File = File>, W: Write>(
    rt: &R,
    alloc: Global,
    run: &ServiceRun<'_, '_, '_, '_, '_>,
    addresses: &Addresses,
    service: &mut Service,
    out: &mut W,
) -> u8 {
    match run.devices {
        DeviceSource::Plant(plant) => serve_plant(rt, alloc, run, plant, service, out),
        _ => serve_over(rt, alloc, run, addresses, service, out),
    }
}

/// Prints on standard error that set values and variables aren't kept, where they aren't.
fn warn_unkept<R: Eprint>(rt: &R, run: &ServiceRun<'_, '_, '_, '_, '_>, retained: &Retained) {
    if run.keeping.state.is_none() && !run.notes.quiet {
        let _ = rt.eprint(UNKEPT);
        if retained.names.len() > 0 {
            let _ = rt.eprint(UNRETAINED);
        }
    }
}

/// The addresses of the devices, once it is told that the program is accepted; or the status.
fn prepared<R: Print + Eprint + AllocGlobal, W: Write>(
    rt: &R,
    alloc: Global,
    run: &ServiceRun<'_, '_, '_, '_, '_>,
    given: &Accepted,
    retained: &Retained,
    out: &mut W,
) -> Result<Addresses, u8> {
    match addresses_of(alloc, run.devices, run.notes.site, given.site.devices()) {
        Ok(addresses) => match tell_begun(alloc, &run.serving, given.verified.budget(), out) {
            0 => {
                warn_unkept(rt, run, retained);
                if !run.notes.quiet {
                    warn_of_everybody(rt, run.serving.writers);
                }
                warn_of_names(
                    rt,
                    &run.notes,
                    retained.names.as_slice(),
                    variables_of(given),
                );
                warn_on_site(rt, &run.notes, &given.site);
                warn_of_short_lapses(rt, &run.notes, &given.site, run.limits.period);
                warn_of_history(rt, run, &given.site);
                Ok(addresses)
            }
            status => Err(status),
        },
        Err(fault) => Err(tell_unreachable(rt, alloc, &given.site, fault, out)),
    }
}

/// Says on standard error of how many tags and sums there is no history, where somebody can look at it.
fn warn_of_history<R: Eprint + AllocGlobal>(
    rt: &R,
    run: &ServiceRun<'_, '_, '_, '_, '_>,
    site: &Site,
) {
    if let Some(window) = run.serving.page {
        if !run.notes.quiet {
            warn_of_short_history(rt, window, site);
        }
    }
}

/// Tells which program begins with what, and that it is accepted, and gives the status.
fn tell_begun<W: Write>(alloc: Global, serving: &Serving<'_>, budget: u32, out: &mut W) -> u8 {
    let told = match serving.start.line(alloc) {
        Ok(line) => write_lines(out, line.as_bytes(), 0),
        Err(AllocError) => tell_no_memory(out),
    };
    match told {
        0 => tell_accepted(alloc, budget, out),
        status => status,
    }
}

fn tell_accepted<W: Write>(alloc: Global, budget: u32, out: &mut W) -> u8 {
    match CommandOutcome::accepted(alloc, budget) {
        Ok(outcome) => outcome.tell(out),
        Err(AllocError) => tell_no_memory(out),
    }
}

/// Serves a site over connections to these addresses.
fn serve_over<R: LoopRuntime + Files<File = File>, W: Write>(
    rt: &R,
    alloc: Global,
    run: &ServiceRun<'_, '_, '_, '_, '_>,
    addresses: &Addresses,
    service: &mut Service,
    out: &mut W,
) -> u8 {
    match serve_programs(rt, alloc, run, addresses, service, out) {
        Ok(()) => 0,
        Err(End::OutOfMemory) => tell_no_memory(out),
        Err(End::System) => tell_lost(rt, alloc, &run.notes, LinkFault::Read, out),
        Err(End::Listen(kind)) => {
            tell_unserved(rt, alloc, &run.notes, run.serving.listen, kind, out)
        },
        Err(End::Page(kind)) => {
            tell_unserved(rt, alloc, &run.notes, page_address(&run.serving), kind, out)
        },
        Err(End::State(fault)) => {
            tell_unkept(
                rt,
                alloc,
                run.notes.quiet,
                state_path(&run.keeping),
                fault,
                out,
            )
        },
    }
}

/// Serves a site by the program that it begins with, or by those that come after it in its file.
fn serve_programs<R: LoopRuntime + Files<File = File>, W: Write>(
    rt: &R,
    alloc: Global,
    run: &ServiceRun<'_, '_, '_, '_, '_>,
    addresses: &Addresses,
    service: &mut Service,
    out: &mut W,
) -> Result<(), End> {
    let (serving, keeping) = (&run.serving, &run.keeping);
    if run.reloads {
        let shows = serving.page.is_some();
        let Ok(mut file) = ProgramFile::new(alloc, &run.notes, run.names, run.refused, shows) else {
            return Err(End::OutOfMemory);
        };
        serve_site(
            rt, alloc, serving, keeping, addresses, &mut file, service, out,
        )
    } else {
        serve_site(
            rt,
            alloc,
            serving,
            keeping,
            addresses,
            &mut OneProgram,
            service,
            out,
        )
    }
}

/// The address at which nobody can look.
fn page_address(serving: &Serving<'_>) -> SocketAddr {
    match serving.page {
        Some(window) => window.listen,
        None => serving.listen,
    }
}

/// The path of the file of set values.
fn state_path<'k>(keeping: &Keeping<'k, '_>) -> &'k str {
    match keeping.state {
        Some(state) => state.path,
        None => "",
    }
}

/// Starts a plant, serves the site over it, and ends it: one that nobody came to would wait for ever.
fn serve_plant<R: LoopRuntime + Files<File = File>, W: Write>(
    rt: &R,
    alloc: Global,
    run: &ServiceRun<'_, '_, '_, '_, '_>,
    plant: &str,
    service: &mut Service,
    out: &mut W,
) -> u8 {
    match start_plant(rt, alloc, &run.notes, plant, run.exe) {
        Ok(mut plant) => {
            let status = serve_started(rt, alloc, run, &mut plant.stdout, service, out);
            let _ = plant.kill();
            let _ = plant.wait();
            status
        }
        Err(fault) => no_start(rt, alloc, &run.notes, run.exe, &fault, out),
    }
}

/// Serves the site over the plant that says its port in the first of these lines, which stay open to its end.
fn serve_started<R: LoopRuntime + Files<File = File>, P: Read, W: Write>(
    rt: &R,
    alloc: Global,
    run: &ServiceRun<'_, '_, '_, '_, '_>,
    lines: &mut Option<P>,
    service: &mut Service,
    out: &mut W,
) -> u8 {
    match told_port(alloc, lines) {
        Ok(port) => match plant_addresses(alloc, port, service.core().site().devices()) {
            Ok(addresses) => serve_over(rt, alloc, run, &addresses, service, out),
            Err(AllocError) => tell_no_memory(out),
        },
        Err(why) => tell_no_port(rt, alloc, &run.notes, run.exe, &why, out),
    }
}
