//! The command line.
use crate::explain_run::{TraceText, explain_with};
use crate::file_command::obey_on;
use crate::map_run::{MapRun, run_map};
use crate::run_command::run_on;
use crate::runtimes::{CommandRuntime, LoopRuntime};
use crate::serve::{ServiceRun, run_service, tell_unkept};
use crate::sources::{SourceRefusal, Sources, read_sources, read_state};
use crate::survey::{SurveyRun, run_survey};
use crate::words::{
    Misuse, command, file_command, is_no_state, keeping_of, map_form, misuse,
    misuse_of_definitions, misuse_of_files, probe_address, service_limits, service_words,
    serving_of, survey_devices, tell_misuse, tell_unparsed, version,
};
use clap::ArgMatches;
use command_files::{trial_of, warn_of_none, warn_of_site};
use commands::{USUAL_PERIOD, tell_no_memory};
use file_keys::TomlFile;
use refusal_notes::{FileFault, Notes, explain_unusable};
use service_loop::{StateFault, seconds_of_day};
use service_texts::{DeviceSource, Start};
use std::alloc::{AllocError, Global};
use std::fs::File;
use std::io::Write;
use std::net::Net;
use std::process::{Processes, SystemProcess};
use std::random::RandomSource;
use std::rt::{Env, Files};
use std::time::Clock;
use std::{env, io};

/// The status of a command line that isn't one.
const BAD_COMMAND_LINE: u8 = 2;

/// The word that asks for no explanation.
const QUIET: &str = "--quiet";

/// Does what the words of the program's own command line ask for, or without arguments a trial of the program on standard
/// input. Gives the exit status. That standard input is read from its beginning, and by nobody else, no contract says.
/// (Its bounds are written out, since no `main` is proved where a call has a trait of them.)
pub fn obey_command_line(
    rt: &(impl Input
        + Print
        + Eprint
        + AllocGlobal
        + Env
        + Files<File = File>
        + Clock
        + RandomSource
        + Net
        + Processes<Started = SystemProcess>),
) -> u8 {
    let mut out = io::writer(rt);
    match words(rt) {
        Ok(words) => match words.as_slice() {
            [_, word] if word.as_str() == QUIET => trial_of(rt, rt.reader(), true, &mut out),
            [_, _, ..] => obey(rt, words.as_slice(), &mut out),
            _ => trial_of(rt, rt.reader(), false, &mut out),
        },
        Err(fault) if fault.kind() == io::ErrorKind::InvalidData => {
            let why = "a word of the command line isn't UTF-8";
            tell_misuse(rt, rt.alloc(), why, &mut out)
        }
        Err(_) => tell_no_memory(&mut out),
    }
}

/// The words of the command line; the first is the program's path.
fn words(rt: &(impl AllocGlobal + Env)) -> io::Result<Vec<String>> {
    let words = env::args(rt)?.collect(rt.alloc())?;
    Ok(words)
}

/// Obeys the words of a command line, of which the first is the program's path, and prints what the command prints to
/// `out`. A command line that isn't one, or that asks for help, is told by `clap`. Gives the exit status.
pub fn obey<W: Write>(rt: &impl CommandRuntime, words: &[String], out: &mut W) -> u8 {
    let alloc = rt.alloc();
    let Ok(command) = command(alloc) else {
        return tell_no_memory(out);
    };
    match command.try_get_matches_from(words) {
        Ok(matches) => obey_matches(rt, alloc, words, &matches, out),
        Err(fault) => tell_unparsed(rt, alloc, words, &fault, out),
    }
}

/// Does what the command asks for.
fn obey_matches<W: Write>(
    rt: &impl CommandRuntime,
    alloc: Global,
    words: &[String],
    matches: &ArgMatches<'_>,
    out: &mut W,
) -> u8 {
    let Some((name, matches)) = matches.subcommand() else {
        return BAD_COMMAND_LINE;
    };
    match misuse_of(rt, alloc, name, matches) {
        Ok(None) => obey_words(rt, alloc, path_of(words), name, matches, out),
        Ok(Some(why)) => tell_misuse(rt, alloc, why, out),
        Err(AllocError) => tell_no_memory(out),
    }
}

/// Why the words, which have their form, ask for nothing that can be done.
fn misuse_of<R: Files>(
    rt: &R,
    alloc: Global,
    name: &str,
    matches: &ArgMatches<'_>,
) -> Result<Option<&'static str>, AllocError> {
    match misuse(name, matches) {
        None if name == "probe" && probe_address(matches).is_none() => {
            Ok(Some("PORT is no port, and no HOST:PORT"))
        }
        None => misuse_of_files(rt, alloc, matches),
        why => Ok(why),
    }
}

/// Does what words ask for that can be done, unless set values were to be kept where no file can be; `itself` is this
/// program's path.
fn obey_words<W: Write>(
    rt: &impl CommandRuntime,
    alloc: Global,
    itself: &str,
    name: &str,
    matches: &ArgMatches<'_>,
    out: &mut W,
) -> u8 {
    if let Some(path) = matches.get_str("state") {
        match is_no_state(rt, alloc, path) {
            Ok(false) => {}
            Ok(true) => {
                let quiet = matches.get_flag("quiet");
                return tell_unkept(rt, alloc, quiet, path, StateFault::NotAFile, out);
            }
            Err(AllocError) => return tell_no_memory(out),
        }
    }
    match read_sources(rt, alloc, matches) {
        Ok(sources) => obey_on_sources(rt, alloc, itself, name, matches, &sources, out),
        Err(refusal) => unread(rt, alloc, matches, &refusal, out),
    }
}

/// The program's path, the first word.
fn path_of(words: &[String]) -> &str {
    match words.first() {
        Some(word) => word.as_str(),
        None => "sunsite",
    }
}

/// Does what a command asks for on its files, once it is told which folders have no definition.
fn obey_on_sources<W: Write>(
    rt: &impl CommandRuntime,
    alloc: Global,
    itself: &str,
    name: &str,
    matches: &ArgMatches<'_>,
    sources: &Sources,
    out: &mut W,
) -> u8 {
    if !matches.get_flag("quiet") {
        for folder in sources.definitions.bare_folders.iter() {
            warn_of_none(rt, alloc, folder.as_str());
        }
    }
    match sources.definitions.paths(alloc) {
        Ok(paths) => {
            let def_paths = paths.as_slice();
            obey_on_texts(rt, alloc, itself, name, matches, sources, def_paths, out)
        }
        Err(AllocError) => tell_no_memory(out),
    }
}

/// Does what a command asks for on the texts of its files; `itself` is this program's path.
fn obey_on_texts<W: Write>(
    rt: &impl CommandRuntime,
    alloc: Global,
    itself: &str,
    name: &str,
    matches: &ArgMatches<'_>,
    sources: &Sources,
    def_paths: &[&str],
    out: &mut W,
) -> u8 {
    let Ok(site) = TomlFile::parse(alloc, sources.site.as_str()) else {
        return tell_no_memory(out);
    };
    let Ok(plant) = TomlFile::parse(alloc, sources.plant.as_str()) else {
        return tell_no_memory(out);
    };
    let notes = Notes {
        quiet: matches.get_flag("quiet"),
        site_path: matches.get_str("SITE").unwrap_or(""),
        site: &site,
        program_path: matches.get_str("PROGRAM").unwrap_or(""),
        program: sources.program.as_str(),
        plant_path: matches.get_str("PLANT").unwrap_or(""),
        plant: &plant,
        def_paths,
        defs: sources.definitions.texts.as_slice(),
    };
    obey_on_notes(rt, alloc, itself, name, matches, sources, &notes, out)
}

/// Does what a command asks for, once the texts of its files are parsed.
fn obey_on_notes<W: Write>(
    rt: &impl CommandRuntime,
    alloc: Global,
    itself: &str,
    name: &str,
    matches: &ArgMatches<'_>,
    sources: &Sources,
    notes: &Notes<'_>,
    out: &mut W,
) -> u8 {
    if let Some(why) = misuse_of_definitions(rt, matches, notes.def_paths) {
        return tell_misuse(rt, alloc, why, out);
    }
    if name == "run" {
        return run_on(
            rt,
            alloc,
            itself,
            matches,
            notes,
            sources.sets.as_str(),
            out,
        );
    }
    let trace = trace_of(matches, sources);
    match (file_command(name, matches), trace) {
        (Some(command), Some(trace)) => explain_with(rt, alloc, command, notes, trace, out),
        (Some(command), None) => obey_on(rt, alloc, itself, command, notes, out),
        (None, _) if name == "serve" => {
            served(
                rt,
                alloc,
                itself,
                matches,
                notes,
                sources.program_fault,
                out,
            )
        },
        (None, _) if name == "survey" => surveyed(rt, alloc, matches, notes, out),
        (None, _) if name == "map" => mapped(rt, alloc, matches, notes, out),
        (None, _) => BAD_COMMAND_LINE,
    }
}

/// The trace that `explain` compares a program with, where one is named.
fn trace_of<'m, 's>(matches: &ArgMatches<'m>, sources: &'s Sources) -> Option<TraceText<'m, 's>> {
    let path = matches.get_str("traced")?;
    let text = sources.trace.as_str();
    Some(TraceText { path, text })
}

/// Tells why the texts of the files aren't had, with a note on the file, and gives the status.
fn unread<W: Write>(
    rt: &(impl Eprint + AllocGlobal),
    alloc: Global,
    matches: &ArgMatches<'_>,
    refusal: &SourceRefusal,
    out: &mut W,
) -> u8 {
    let status = refusal.tell(alloc, out);
    if let SourceRefusal::File(path, fault) = refusal {
        if !matches.get_flag("quiet") {
            explain_unusable(rt, path.as_str(), *fault);
        }
    }
    status
}

/// Runs `map` on the texts of the files.
fn mapped<W: Write>(
    rt: &(impl Print + Eprint + AllocGlobal),
    alloc: Global,
    matches: &ArgMatches<'_>,
    notes: &Notes<'_>,
    out: &mut W,
) -> u8 {
    match map_form(matches) {
        Ok(form) => {
            let port = matches.get_one("port").unwrap_or(1502);
            let run = MapRun {
                notes: *notes,
                form,
                port,
            };
            run_map(rt, alloc, &run, out)
        }
        Err(why) => tell_misuse(rt, alloc, why, out),
    }
}

/// Runs `survey` on the texts of the files.
fn surveyed<W: Write>(
    rt: &(impl LoopRuntime + Print),
    alloc: Global,
    matches: &ArgMatches<'_>,
    notes: &Notes<'_>,
    out: &mut W,
) -> u8 {
    match survey_devices(matches) {
        Ok(devices) => {
            notes.warn(rt);
            let run = SurveyRun {
                notes: *notes,
                has_program: matches.get_str("PROGRAM").is_some(),
                devices,
                timeout: matches.get_one("timeout").unwrap_or(1000),
                every: matches.get_one("every").unwrap_or(USUAL_PERIOD),
            };
            run_survey(rt, alloc, &run, out)
        }
        Err(why) => tell_misuse(rt, alloc, why, out),
    }
}

/// Runs `serve` on the texts of the files, once the file of set values is read.
fn served<W: Write>(
    rt: &impl CommandRuntime,
    alloc: Global,
    itself: &str,
    matches: &ArgMatches<'_>,
    notes: &Notes<'_>,
    program_fault: Option<FileFault>,
    out: &mut W,
) -> u8 {
    match read_state(rt, alloc, matches) {
        Ok(state) => served_with(
            rt,
            alloc,
            itself,
            matches,
            notes,
            program_fault,
            state.as_str(),
            out,
        ),
        Err(refusal) => unread(rt, alloc, matches, &refusal, out),
    }
}

/// Runs `serve` on the texts of the files and of the set values.
fn served_with<W: Write>(
    rt: &(impl LoopRuntime + Print + Files<File = File>),
    alloc: Global,
    itself: &str,
    matches: &ArgMatches<'_>,
    notes: &Notes<'_>,
    program_fault: Option<FileFault>,
    state: &str,
    out: &mut W,
) -> u8 {
    let seconds = seconds_of_day(rt);
    let Ok(start) = Start::of(alloc, seconds, version(), notes.site.text(), notes.program) else {
        return tell_no_memory(out);
    };
    match service_words(rt, alloc, matches) {
        Ok(words) => {
            let exe = matches.get_str("exe").unwrap_or(itself);
            let devices = words.devices;
            let run = ServiceRun {
                notes: *notes,
                program_fault,
                devices,
                exe,
                limits: service_limits(matches),
                serving: serving_of(matches, &words, &start),
                keeping: keeping_of(matches, state),
                reloads: matches.get_flag("reload"),
                names: &[],
                refused: None,
                read_back: &[],
                rated: &[],
            };
            match devices {
                DeviceSource::Plant(_) => warn_of_site(rt, notes),
                _ => notes.warn(rt),
            }
            run_service(rt, alloc, &run, out)
        }
        Err(Misuse::Words(why)) => tell_misuse(rt, alloc, why, out),
        Err(Misuse::OutOfMemory) => tell_no_memory(out),
    }
}
