//! The turns of a service: the clock, bytes in, bytes out, what is told, and a wait.
use crate::keeping::Keeping;
use crate::kept_files::KeptFiles;
use crate::program_watch::ProgramWatch;
use crate::serve_loop::ServeLoop;
use crate::serving::{End, Serving};
use crate::state_lock::StateLock;
use service::Service;
use service_texts::Addresses;
use std::alloc::Global;
use std::fs::File;
use std::io::Write;
use std::net::Net;
use std::process::{Processes, SystemProcess};
use std::random::RandomSource;
use std::rt::Files;
use std::time::Clock;

/// Serves a site, of which nothing was asked yet, until the scans that were asked for are done. `addresses` are
/// those of the service's connections, whose time begins at 0. `program` looks whether another program is to run. Nothing that
/// a peer does ends it, and no file once it began.
/// State: the file of set values can't be kept; Listen: nothing can be served at the address for clients; Page: at that for those
/// who look; System: the clock or
/// the wait for sockets failed; OutOfMemory: memory was refused at the start.
pub fn serve_site<
    R: Net
        + Clock
        + RandomSource
        + Files<File = File>
        + Processes<Started = SystemProcess>
        + Eprint
        + AllocGlobal,
    P: ProgramWatch,
    W: Write,
>(
    rt: &R,
    alloc: Global,
    serving: &Serving<'_>,
    keeping: &Keeping<'_, '_>,
    addresses: &Addresses,
    program: &mut P,
    service: &mut Service,
    out: &mut W,
) -> Result<(), End> {
    let lock = lock_of(rt, alloc, keeping)?;
    let is_noting = program.looks_at().is_some();
    let site = service.core().site();
    let mut serve_loop = ServeLoop::new(rt, alloc, serving, addresses, site, is_noting, out)?;
    serve_over(
        rt,
        serving,
        keeping,
        lock,
        program,
        service,
        &mut serve_loop,
    )
}

// The same over sockets that are there. The lock is that of the file of set values.
fn serve_over<
    R: Net + Clock + Files<File = File> + Processes<Started = SystemProcess> + Eprint + AllocGlobal,
    P: ProgramWatch,
    W: Write,
>(
    rt: &R,
    serving: &Serving<'_>,
    keeping: &Keeping<'_, '_>,
    lock: Option<StateLock>,
    program: &mut P,
    service: &mut Service,
    serve_loop: &mut ServeLoop<'_, W>,
) -> Result<(), End> {
    serve_loop.tell_address();
    serve_loop.tell_kept(serving)?;
    let mut files = serve_loop.restore(keeping, lock, service)?;
    let ended = turns(rt, serving, program, service, serve_loop, &mut files);
    serve_loop.end();
    ended
}

// Turns and waits, until the last scan is done.
fn turns<
    R: Net + Clock + Files + Processes<Started = SystemProcess> + Eprint + AllocGlobal,
    P: ProgramWatch,
    W: Write,
>(
    rt: &R,
    serving: &Serving<'_>,
    program: &mut P,
    service: &mut Service,
    serve_loop: &mut ServeLoop<'_, W>,
    files: &mut KeptFiles<'_>,
) -> Result<(), End> {
    for _ in 0..u64::MAX {
        if serve_loop.turn(rt, serving, program, service, files)? {
            return Ok(());
        }
        serve_loop.wait(rt, program.looks_at(), service)?;
    }
    Ok(())
}

// The lock of the file of set values, where they are kept.
fn lock_of<R: Files<File = File>>(
    rt: &R,
    alloc: Global,
    keeping: &Keeping<'_, '_>,
) -> Result<Option<StateLock>, End> {
    match &keeping.state {
        Some(state) => Ok(Some(StateLock::new(rt, alloc, state)?)),
        None => Ok(None),
    }
}
