//! A run whose scans are written into files.
use crate::failing::tell_file;
use crate::files::WriteFault;
use crate::run::plant_run::{PlantRun, run_watched};
use crate::run_watch::{Recorder, RunLook, Setting, Trace};
use crate::runtimes::RunRuntime;
use crate::warnings::warn_of_site;
use commands::{DEPTH, ScanWatch, tell_no_memory};
use gateway::{Core, WriteOrder};
use std::alloc::{AllocError, Global};
use std::fs;
use std::io::Write;
use std::rt::Files;

/// The paths of the files that a run is written into; each is written anew.
#[derive(Clone, Copy)]
pub struct RunPaths<'a> {
    /// A table, with a row for each scan.
    pub trace: Option<&'a str>,
    /// A page of charts.
    pub report: Option<&'a str>,
}

impl RunPaths<'_> {
    /// Whether there is one.
    pub fn are_any(self) -> bool {
        self.trace.is_some() || self.report.is_some()
    }
}

/// What writes the files, as far as they are wanted.
#[derive(Drop)]
struct RunFiles<W: Write + Drop> {
    trace: Option<Trace<W>>,
    report: Option<Recorder<W>>,
}

impl<W: Write + Drop> ScanWatch for RunFiles<W> {
    fn scanned(&mut self, core: &Core<DEPTH>, order: &WriteOrder, scan: u32) {
        if let Some(trace) = &mut self.trace {
            trace.scanned(core, order, scan);
        }
        if let Some(report) = &mut self.report {
            report.scanned(core, order, scan);
        }
    }
}

impl<W: Write + Drop> RunLook for RunFiles<W> {
    fn refused(&mut self, write: usize, exception: u8) {
        if let Some(report) = &mut self.report {
            report.refused(write, exception);
        }
    }

    fn unset(&mut self, setting: Setting<'_>, why: &'static str) {
        if let Some(report) = &mut self.report {
            report.unset(setting, why);
        }
    }
}

impl<W: Write + Drop> RunFiles<W> {
    fn new(
        alloc: Global,
        run: &PlantRun<'_, '_>,
        trace: Option<W>,
        report: Option<W>,
    ) -> Result<RunFiles<W>, AllocError> {
        Ok(RunFiles {
            trace: match trace {
                Some(file) => Some(Trace::new(alloc, file)),
                None => None,
            },
            report: match report {
                Some(file) => Some(Recorder::new(alloc, run, file)?),
                None => None,
            },
        })
    }

    fn end_trace(&mut self) -> Result<(), WriteFault> {
        match &mut self.trace {
            Some(trace) => trace.end(),
            None => Ok(()),
        }
    }

    fn end_report(&mut self) -> Result<(), WriteFault> {
        match &mut self.report {
            Some(report) => report.end(),
            None => Ok(()),
        }
    }
}

/// Does a run, and writes what its scans read, store and write into the files at the paths. Where one can't be made nothing
/// is started. Gives the status: that of the run where it isn't 0, and else 1 where a file isn't whole.
pub fn run_into_files<R: RunRuntime + Files, W: Write>(
    rt: &R,
    alloc: Global,
    run: &PlantRun<'_, '_>,
    paths: RunPaths<'_>,
    out: &mut W,
) -> u8
where
    R::File: Drop,
{
    let trace = match made(rt, paths.trace) {
        Ok(file) => file,
        Err(fault) => return tell_unwritten(rt, alloc, run, paths.trace, fault, out),
    };
    let report = match made(rt, paths.report) {
        Ok(file) => file,
        Err(fault) => return tell_unwritten(rt, alloc, run, paths.report, fault, out),
    };
    let Ok(mut files) = RunFiles::new(alloc, run, trace, report) else {
        return tell_no_memory(out);
    };
    warn_of_site(rt, &run.notes);
    let status = run_watched(rt, alloc, run, &mut files, out);
    let status = tell_end(rt, alloc, run, paths.trace, files.end_trace(), status, out);
    tell_end(
        rt,
        alloc,
        run,
        paths.report,
        files.end_report(),
        status,
        out,
    )
}

/// The file at a path, where there is one, with nothing in it.
fn made<R: Files>(rt: &R, path: Option<&str>) -> Result<Option<R::File>, WriteFault> {
    let Some(path) = path else {
        return Ok(None);
    };
    let file = fs::create(rt, path)?;
    Ok(Some(file))
}

/// Tells after a run with this status how a file of it ended, and gives the status of both.
fn tell_end<R: Eprint + AllocGlobal, W: Write>(
    rt: &R,
    alloc: Global,
    run: &PlantRun<'_, '_>,
    path: Option<&str>,
    end: Result<(), WriteFault>,
    status: u8,
    out: &mut W,
) -> u8 {
    match (end, status) {
        (Ok(()), _) => {}
        // (the run was refused already, most often by memory too: one such line is enough)
        (Err(WriteFault::OutOfMemory), 1) => explain(rt, run, path, WriteFault::OutOfMemory),
        (Err(fault), 0) => return tell_unwritten(rt, alloc, run, path, fault, out),
        (Err(fault), _) => {
            let _ = tell_unwritten(rt, alloc, run, path, fault, out);
        }
    }
    status
}

/// Tells why there is no whole file, with a note on it, and gives the status.
fn tell_unwritten<R: Eprint + AllocGlobal, W: Write>(
    rt: &R,
    alloc: Global,
    run: &PlantRun<'_, '_>,
    path: Option<&str>,
    fault: WriteFault,
    out: &mut W,
) -> u8 {
    if let WriteFault::OutOfMemory = fault {
        return tell_no_memory(out);
    }
    let status = tell_file(alloc, path.unwrap_or(""), out);
    explain(rt, run, path, fault);
    status
}

/// Prints a note on the file, unless that isn't wanted.
fn explain<R: Eprint + AllocGlobal>(
    rt: &R,
    run: &PlantRun<'_, '_>,
    path: Option<&str>,
    fault: WriteFault,
) {
    if !run.notes.quiet {
        fault.explain(rt, path.unwrap_or(""));
    }
}
