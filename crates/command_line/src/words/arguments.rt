//! The words that a command line may have.
use crate::words::help;
use crate::words::map_words::map_command;
use crate::words::serve_words::serve_command;
use crate::words::survey_words::survey_command;
use clap::builder::ValueParser;
use clap::{Arg, ArgAction, Command};
use std::alloc::{AllocError, Global};

/// The words that a command line may have, after the program's own.
pub fn command<'a>(alloc: Global) -> Result<Command<'a>, AllocError> {
    let command = Command::new(alloc, "sunsite")
        .about(
            "A SunSpec Modbus gateway; without arguments, a trial scan of the program on standard input",
        )
        .version(help::VERSION)
        .after_help(help::PROGRAM)
        .subcommand_required(true);
    let command = with_subcommand(command, check_command(alloc))?;
    let command = with_subcommand(command, explain_command(alloc))?;
    let command = with_subcommand(command, simulate_command(alloc))?;
    let command = with_subcommand(command, run_command(alloc))?;
    let command = with_subcommand(command, survey_command(alloc))?;
    let command = with_subcommand(command, serve_command(alloc))?;
    let command = with_subcommand(command, map_command(alloc))?;
    with_subcommand(command, probe_command(alloc))
}

/// A command with one more below it.
fn with_subcommand<'a>(
    command: Command<'a>,
    subcommand: Result<Command<'a>, AllocError>,
) -> Result<Command<'a>, AllocError> {
    match subcommand {
        Ok(subcommand) => command.subcommand(subcommand),
        Err(AllocError) => Err(AllocError),
    }
}

fn check_command<'a>(alloc: Global) -> Result<Command<'a>, AllocError> {
    Command::new(alloc, "check")
        .about("Judges a program for a site")
        .after_help(help::CHECK)
        .arg(site_file(alloc))?
        .arg(program_file(alloc))?
        .arg(quiet_flag(alloc))?
        .arg(definition_files(alloc))
}

fn explain_command<'a>(alloc: Global) -> Result<Command<'a>, AllocError> {
    Command::new(alloc, "explain")
        .about("Prints a program with what is known before each instruction")
        .after_help(help::EXPLAIN)
        .arg(site_file(alloc))?
        .arg(program_file(alloc))?
        .arg(listing_flag(alloc))?
        .arg(traced_option(alloc))?
        .arg(quiet_flag(alloc))?
        .arg(definition_files(alloc))
}

fn simulate_command<'a>(alloc: Global) -> Result<Command<'a>, AllocError> {
    Command::new(alloc, "simulate")
        .about("Serves a plant of simulated inverters on a loopback port, for one connection")
        .after_help(help::SIMULATE)
        .arg(word(alloc, "PLANT", "the plant file (TOML)"))?
        .arg(plant_port_option(alloc))?
        .arg(connections_option(alloc))?
        .arg(quiet_flag(alloc))?
        .arg(definition_files(alloc))
}

fn run_command<'a>(alloc: Global) -> Result<Command<'a>, AllocError> {
    Command::new(alloc, "run")
        .about(
            "Runs a program on a site whose devices are a simulated plant, and probes the gateway",
        )
        .after_help(help::RUN)
        .arg(site_file(alloc))?
        .arg(program_file(alloc))?
        .arg(plant_option(alloc))?
        .arg(scans_option(alloc))?
        .arg(pace_option(alloc))?
        .arg(sets_option(alloc))?
        .arg(trace_option(alloc))?
        .arg(report_option(alloc))?
        .arg(exe_option(alloc))?
        .arg(quiet_flag(alloc))?
        .arg(definition_files(alloc))
}

fn probe_command<'a>(alloc: Global) -> Result<Command<'a>, AllocError> {
    Command::new(alloc, "probe")
        .about("Prints the points of a device, on a loopback port or at an address")
        .after_help(help::PROBE)
        .arg(port_word(alloc))?
        .arg(unit_option(alloc))?
        .arg(probe_timeout_option(alloc))?
        .arg(quiet_flag(alloc))?
        .arg(definition_files(alloc))
}

pub(crate) fn site_file<'a>(alloc: Global) -> Arg<'a> {
    word(alloc, "SITE", "the site file (TOML)")
}

pub(crate) fn program_file<'a>(alloc: Global) -> Arg<'a> {
    word(alloc, "PROGRAM", "the program (Instruction List)")
}

/// A program that isn't needed.
pub(crate) fn program_word<'a>(alloc: Global) -> Arg<'a> {
    Arg::new(alloc, "PROGRAM").help("the program (Instruction List), which is judged before")
}

fn port_word<'a>(alloc: Global) -> Arg<'a> {
    word(
        alloc,
        "PORT",
        "the loopback port of the device, or its HOST:PORT",
    )
}

fn plant_option<'a>(alloc: Global) -> Arg<'a> {
    option(alloc, "plant", "PLANT", "the plant file (TOML)").required(true)
}

fn plant_port_option<'a>(alloc: Global) -> Arg<'a> {
    option(alloc, "port", "P", "the loopback port; else a free one").value_parser(
        ValueParser::unsigned(1, 65535),
    )
}

fn connections_option<'a>(alloc: Global) -> Arg<'a> {
    option(
        alloc,
        "connections",
        "N",
        "ends after so many connections, several of them at once; 0: without an end",
    )
    .value_parser(ValueParser::unsigned(0, 1_000_000_000))
}

fn scans_option<'a>(alloc: Global) -> Arg<'a> {
    option(alloc, "scans", "N", "how many scans")
        .required(true)
        .value_parser(ValueParser::unsigned(1, 1000))
}

fn pace_option<'a>(alloc: Global) -> Arg<'a> {
    option(
        alloc,
        "every",
        "MS",
        "the time from a scan to the next one, as time tags read it and as what clients set grows older; 1000 where nothing is said",
    )
    .value_parser(ValueParser::unsigned(1, 3_600_000))
}

fn sets_option<'a>(alloc: Global) -> Arg<'a> {
    option(
        alloc,
        "sets",
        "FILE",
        "what clients set and when: lines SCAN NAME=NUMBER, each set before that scan, or SCAN NAME=absent",
    )
}

/// A trace that is read, where that of `run` is written.
fn traced_option<'a>(alloc: Global) -> Arg<'a> {
    Arg::new(alloc, "traced")
        .long("trace")
        .value_name("FILE")
        .help("a trace (CSV) of 'run': says last which numbers each variable had in it")
}

fn trace_option<'a>(alloc: Global) -> Arg<'a> {
    option(
        alloc,
        "trace",
        "FILE",
        "the file (CSV) into which a row is written for each scan",
    )
}

fn report_option<'a>(alloc: Global) -> Arg<'a> {
    option(
        alloc,
        "report",
        "FILE",
        "the file (HTML) into which a page is written: charts of what changed, a table of what happened",
    )
}

pub(crate) fn exe_option<'a>(alloc: Global) -> Arg<'a> {
    option(
        alloc,
        "exe",
        "PATH",
        "the program that is started for the plant and the probe, instead of this one",
    )
}

fn probe_timeout_option<'a>(alloc: Global) -> Arg<'a> {
    option(
        alloc,
        "timeout",
        "MS",
        "the longest wait for a connection and for bytes; else without an end",
    )
    .value_parser(ValueParser::unsigned(1, 3_600_000))
}

fn unit_option<'a>(alloc: Global) -> Arg<'a> {
    option(alloc, "unit", "U", "the unit that is asked")
        .value_parser(ValueParser::unsigned(0, 255))
        .default_value("1")
}

fn listing_flag<'a>(alloc: Global) -> Arg<'a> {
    Arg::new(alloc, "listing")
        .long("listing")
        .action(ArgAction::SetTrue)
        .help("the lines and their instructions alone, without what is known")
}

pub(crate) fn quiet_flag<'a>(alloc: Global) -> Arg<'a> {
    Arg::new(alloc, "quiet")
        .long("quiet")
        .action(ArgAction::SetTrue)
        .help("no explanation of a refusal on standard error")
}

pub(crate) fn definition_files<'a>(alloc: Global) -> Arg<'a> {
    option(
        alloc,
        "def",
        "FILE",
        "a model definition (JSON), or a folder of them; the last one of an ID counts",
    )
    .action(ArgAction::Append)
}

/// A word that the command needs.
fn word<'a>(alloc: Global, name: &'a str, help: &'a str) -> Arg<'a> {
    Arg::new(alloc, name).required(true).help(help)
}

/// An option that takes a value.
pub(crate) fn option<'a>(alloc: Global, name: &'a str, value: &'a str, help: &'a str) -> Arg<'a> {
    Arg::new(alloc, name)
        .long(name)
        .value_name(value)
        .help(help)
}
