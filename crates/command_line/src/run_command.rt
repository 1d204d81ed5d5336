//! The command `run`, by the words of its command line.
use crate::file_command::FileCommand;
use crate::words::file_command;
use clap::ArgMatches;
use command_files::{
    PlantRun, RunPaths, RunRuntime, SetsFault, read_settings, run_into_files, run_plant, tell_late,
    warn_of_site,
};
use commands::{tell_no_memory, write_lines};
use refusal_notes::{Notes, escaped};
use std::alloc::{AllocError, Global};
use std::fs;
use std::io::Write;
use std::rt::Files;

/// The status of words that are none of `run`.
const BAD_COMMAND_LINE: u8 = 2;

/// Does a run: on the texts of its files, with what clients set in it by the lines of a text, and into the files that are
/// wanted of it. `itself` is this program's path.
pub(crate) fn run_on<R: RunRuntime + Files, W: Write>(
    rt: &R,
    alloc: Global,
    itself: &str,
    matches: &ArgMatches<'_>,
    notes: &Notes<'_>,
    sets: &str,
    out: &mut W,
) -> u8
where
    R::File: Drop,
{
    let Some(FileCommand::Run { plant, pace, exe }) = file_command("run", matches) else {
        return BAD_COMMAND_LINE;
    };
    let settings = match read_settings(alloc, sets) {
        Ok(settings) => settings,
        Err(fault) => {
            leave_empty(rt, matches);
            return tell_bad_sets(rt, alloc, matches, notes, fault, out);
        }
    };
    if !notes.quiet {
        tell_late(rt, alloc, settings.as_slice(), pace.scans);
    }
    let run = PlantRun {
        notes: *notes,
        plant,
        pace,
        settings: settings.as_slice(),
        exe: exe.unwrap_or(itself),
    };
    let paths = RunPaths {
        trace: matches.get_str("trace"),
        report: matches.get_str("report"),
    };
    if paths.are_any() {
        return run_into_files(rt, alloc, &run, paths, out);
    }
    warn_of_site(rt, notes);
    run_plant(rt, alloc, &run, out)
}

/// Leaves the files of a run empty that isn't begun, as far as they can be written: what an earlier one left there isn't its own.
fn leave_empty<R: Files>(rt: &R, matches: &ArgMatches<'_>)
where
    R::File: Drop,
{
    for option in ["trace", "report"] {
        if let Some(path) = matches.get_str(option) {
            let _ = fs::create(rt, path);
        }
    }
}

/// Tells which line of the set values isn't one, with a note on it, and gives the status.
fn tell_bad_sets<R: Eprint + AllocGlobal, W: Write>(
    rt: &R,
    alloc: Global,
    matches: &ArgMatches<'_>,
    notes: &Notes<'_>,
    fault: SetsFault,
    out: &mut W,
) -> u8 {
    let SetsFault::Line(line) = fault else {
        return tell_no_memory(out);
    };
    let Ok(text) = refusal(alloc, line) else {
        return tell_no_memory(out);
    };
    let status = write_lines(out, text.as_bytes(), 1);
    let path = matches.get_str("sets").unwrap_or("");
    if !notes.quiet {
        if let Ok(note) = note(alloc, path, line) {
            let _ = rt.eprint(note.as_str());
        }
    }
    status
}

fn refusal(alloc: Global, line: usize) -> Result<String, AllocError> {
    format!(in alloc; "refused: sets line {line}\n")
}

fn note(alloc: Global, path: &str, line: usize) -> Result<String, AllocError> {
    let path = escaped(alloc, path)?;
    let path = path.as_str();
    format!(in alloc;
        "{path}:{line}: isn't SCAN NAME=NUMBER or SCAN NAME=absent\n  help: write the number of a scan, from 1 on, a blank, and what a client sets before it, as 3 target=40, or that it falls silent, as 9 target=absent\n"
    )
}
