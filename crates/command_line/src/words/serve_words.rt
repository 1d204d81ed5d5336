//! The words of the command `serve`.
use crate::words::arguments::{
    definition_files, exe_option, option, program_file, quiet_flag, site_file,
};
use crate::words::help;
use clap::builder::ValueParser;
use clap::{Arg, ArgAction, ArgMatches, Command};
use point_types::Items;
use service::Limits;
use service_loop::{Keeping, KeptState, PageWindow, Serving};
use service_texts::{
    DeviceSource, DevicesFault, Start, Times, Writer, WriterFault, devices_of, limits, times_of,
    writers_of,
};
use std::alloc::{AllocError, Global};
use std::net::{Net, SocketAddr, ToSocketAddrs};

/// Where clients come to, where no other address is asked for.
const USUAL_DOOR: &str = "127.0.0.1:1502";

/// By which time lines are told, where nothing else is asked for.
const USUAL_TIMES: &str = "seconds";

/// What is wrong with another address.
const UNKNOWN_LISTEN: Misuse = Misuse::Words("'--listen' is no HOST:PORT that is known");

/// What is wrong with the address of all devices.
pub(crate) const NO_PORT: &str = "'--devices' is no HOST:PORT";

/// What is wrong with the address for those who look.
const UNKNOWN_PAGE: Misuse = Misuse::Words("'--page' is no HOST:PORT that is known");

/// From one scan to the next, and the longest wait for a device's reply, where no other is asked for, in milliseconds.
const USUAL: &str = "1000";

/// The most bytes for the last hour, where no other number is asked for: room for a thousand tags.
const USUAL_MEMORY: u64 = 10_000_000;

pub(crate) fn serve_command<'a>(alloc: Global) -> Result<Command<'a>, AllocError> {
    let command = Command::new(alloc, "serve")
        .about("Runs a program on a site by the clock, over connections to its devices")
        .after_help(help::SERVE)
        .arg(site_file(alloc))?
        .arg(program_file(alloc))?
        .arg(devices_option(alloc))?
        .arg(plant_option(alloc))?;
    with_times(alloc, command)
}

fn with_times<'a>(alloc: Global, command: Command<'a>) -> Result<Command<'a>, AllocError> {
    let command = command
        .arg(listen_option(alloc))?
        .arg(every_option(alloc))?
        .arg(timeout_option(alloc))?
        .arg(clients_option(alloc))?
        .arg(writers_option(alloc))?;
    with_window(alloc, command)
}

fn with_window<'a>(alloc: Global, command: Command<'a>) -> Result<Command<'a>, AllocError> {
    let command = command
        .arg(page_option(alloc))?
        .arg(page_host_option(alloc))?
        .arg(page_memory_option(alloc))?;
    with_files(alloc, command)
}

fn with_files<'a>(alloc: Global, command: Command<'a>) -> Result<Command<'a>, AllocError> {
    let command = command
        .arg(state_option(alloc))?
        .arg(status_option(alloc))?
        .arg(reload_flag(alloc))?;
    with_ways(alloc, command)
}

fn with_ways<'a>(alloc: Global, command: Command<'a>) -> Result<Command<'a>, AllocError> {
    command
        .arg(scans_option(alloc))?
        .arg(times_option(alloc))?
        .arg(verbose_flag(alloc))?
        .arg(exe_option(alloc))?
        .arg(quiet_flag(alloc))?
        .arg(definition_files(alloc))
}

pub(crate) fn devices_option<'a>(alloc: Global) -> Arg<'a> {
    option(
        alloc,
        "devices",
        "HOST:PORT",
        "where all devices are; else the site file has the address of each",
    )
}

fn plant_option<'a>(alloc: Global) -> Arg<'a> {
    option(
        alloc,
        "plant",
        "PLANT",
        "the plant file (TOML) of simulated devices, in place of others",
    )
}

fn listen_option<'a>(alloc: Global) -> Arg<'a> {
    option(alloc, "listen", "HOST:PORT", "where clients come to").default_value(USUAL_DOOR)
}

fn page_option<'a>(alloc: Global) -> Arg<'a> {
    option(
        alloc,
        "page",
        "HOST:PORT",
        "where browsers and monitors look, over HTTP: the page, /metrics, /status.json, /history.json",
    )
}

fn page_host_option<'a>(alloc: Global) -> Arg<'a> {
    option(
        alloc,
        "page-host",
        "NAME",
        "a name by which this machine is asked there, beside its addresses",
    )
    .action(ArgAction::Append)
}

fn page_memory_option<'a>(alloc: Global) -> Arg<'a> {
    option(
        alloc,
        "page-memory",
        "BYTES",
        "the most memory for what is shown there of the last hour",
    )
    .value_parser(ValueParser::unsigned(200_000, 1_000_000_000))
    .default_value("10000000")
}

fn clients_option<'a>(alloc: Global) -> Arg<'a> {
    option(alloc, "clients", "N", "the most clients at once")
        .value_parser(ValueParser::unsigned(1, 1024))
        .default_value("32")
}

fn writers_option<'a>(alloc: Global) -> Arg<'a> {
    option(
        alloc,
        "write-from",
        "ADDR",
        "an address whose clients may write; 127.0.0.1 alone where none is given",
    )
    .action(ArgAction::Append)
}

fn state_option<'a>(alloc: Global) -> Arg<'a> {
    option(
        alloc,
        "state",
        "PATH",
        "the file in which set values and variables are kept over a restart",
    )
}

fn status_option<'a>(alloc: Global) -> Arg<'a> {
    option(
        alloc,
        "status-file",
        "PATH",
        "the file (JSON) that says how the service stands, replaced after each scan",
    )
}

fn reload_flag<'a>(alloc: Global) -> Arg<'a> {
    Arg::new(alloc, "reload")
        .long("reload")
        .action(ArgAction::SetTrue)
        .help("goes on with another program once PROGRAM has one that is accepted")
}

fn every_option<'a>(alloc: Global) -> Arg<'a> {
    option(alloc, "every", "MS", "from one scan to the next")
        .value_parser(ValueParser::unsigned(50, 3_600_000))
        .default_value(USUAL)
}

fn timeout_option<'a>(alloc: Global) -> Arg<'a> {
    option(
        alloc,
        "timeout",
        "MS",
        "the longest wait for a device's reply, at most half of a period",
    )
    .value_parser(ValueParser::unsigned(1, 3_600_000))
    .default_value(USUAL)
}

fn scans_option<'a>(alloc: Global) -> Arg<'a> {
    option(alloc, "scans", "N", "ends after so many scans").value_parser(ValueParser::unsigned(
        1,
        1_000_000_000,
    ))
}

fn times_option<'a>(alloc: Global) -> Arg<'a> {
    option(
        alloc,
        "times",
        "TIMES",
        "how lines begin: 'seconds' since the start, or 'utc', the time of day",
    )
    .default_value(USUAL_TIMES)
}

fn verbose_flag<'a>(alloc: Global) -> Arg<'a> {
    Arg::new(alloc, "verbose")
        .long("verbose")
        .action(ArgAction::SetTrue)
        .help("prints a line for each scan")
}

/// What the words say of where a service is, and for whom.
#[derive(Drop)]
pub(crate) struct ServiceWords<'a> {
    /// The address that clients come to.
    pub listen: SocketAddr,
    /// Where those come to who look; None where nobody can.
    pub page: Option<SocketAddr>,
    /// By which names this machine is asked there, beside its addresses.
    pub page_hosts: Vec<String>,
    /// The clients that may write.
    pub writers: Items<Writer>,
    pub devices: DeviceSource<'a>,
    /// By which time lines are told.
    pub times: Times,
}

/// Why the words ask for nothing that can be done, or memory was refused.
#[derive(Clone, Copy)]
pub(crate) enum Misuse {
    Words(&'static str),
    OutOfMemory,
}

impl From<WriterFault> for Misuse {
    fn from(fault: WriterFault) -> Self {
        match fault {
            WriterFault::NoAddress => Misuse::Words("'--write-from' is no IP address"),
            WriterFault::OutOfMemory => Misuse::OutOfMemory,
        }
    }
}

impl From<DevicesFault> for Misuse {
    fn from(fault: DevicesFault) -> Self {
        match fault {
            DevicesFault::NoPort => Misuse::Words(NO_PORT),
            DevicesFault::Both => Misuse::Words("'--devices' and '--plant' don't go together"),
        }
    }
}

/// What the words say, or the first of them that can't be meant.
pub(crate) fn service_words<'a, R: Net>(
    rt: &R,
    alloc: Global,
    matches: &ArgMatches<'a>,
) -> Result<ServiceWords<'a>, Misuse> {
    let listen = listen_address(rt, matches)?;
    let page = page_address(rt, matches)?;
    let page_hosts = texts_of(alloc, matches.get_strs("page-host").unwrap_or(&[]))?;
    let writers = writers_of(alloc, matches.get_strs("write-from").unwrap_or(&[]))?;
    let devices = devices_of(matches.get_str("devices"), matches.get_str("plant"))?;
    let times = times_in(matches)?;
    Ok(ServiceWords {
        listen,
        page,
        page_hosts,
        writers,
        devices,
        times,
    })
}

/// The same texts, owned.
fn texts_of(alloc: Global, words: &[&str]) -> Result<Vec<String>, Misuse> {
    let mut texts = Vec::new(alloc);
    for word in words {
        let Ok(text) = String::from_str(alloc, *word) else {
            return Err(Misuse::OutOfMemory);
        };
        if texts.push(text).is_err() {
            return Err(Misuse::OutOfMemory);
        }
    }
    Ok(texts)
}

/// By which time lines are told.
fn times_in(matches: &ArgMatches<'_>) -> Result<Times, Misuse> {
    match times_of(matches.get_str("times").unwrap_or(USUAL_TIMES)) {
        Some(times) => Ok(times),
        None => Err(Misuse::Words("'--times' is neither 'seconds' nor 'utc'")),
    }
}

/// How long the service waits.
pub(crate) fn service_limits(matches: &ArgMatches<'_>) -> Limits {
    limits(
        milliseconds(matches, "every"),
        milliseconds(matches, "timeout"),
        most_clients(matches),
    )
}

fn milliseconds(matches: &ArgMatches<'_>, name: &str) -> u64 {
    matches.get_one(name).unwrap_or(1000)
}

fn most_clients(matches: &ArgMatches<'_>) -> usize {
    matches.get_one("clients").unwrap_or(32)
}

/// What the service is to do after this start, by these words; no device sleeps, or must say anything of itself.
pub(crate) fn serving_of<'a>(
    matches: &ArgMatches<'_>,
    words: &'a ServiceWords<'_>,
    start: &'a Start,
) -> Serving<'a> {
    Serving {
        start,
        name: None,
        refused: None,
        times: words.times,
        listen: words.listen,
        page: window_of(matches, words),
        period: milliseconds(matches, "every"),
        clients: most_clients(matches),
        sleeps: &[],
        identities: &[],
        writers: words.writers.as_slice(),
        scans: matches.get_one("scans"),
        is_verbose: matches.get_flag("verbose"),
    }
}

fn window_of<'a>(matches: &ArgMatches<'_>, words: &'a ServiceWords<'_>) -> Option<PageWindow<'a>> {
    match words.page {
        Some(listen) => Some(PageWindow {
            listen,
            names: words.page_hosts.as_slice(),
            site: "",
            program: "",
            units: &[],
            memory: matches.get_one("page-memory").unwrap_or(USUAL_MEMORY),
        }),
        None => None,
    }
}

/// The address that clients come to.
fn listen_address<R: Net>(rt: &R, matches: &ArgMatches<'_>) -> Result<SocketAddr, Misuse> {
    let word = matches.get_str("listen").unwrap_or(USUAL_DOOR);
    match found_address(rt, word) {
        Some(address) => Ok(address),
        None => Err(UNKNOWN_LISTEN),
    }
}

/// The address that those come to who look, where there is one.
fn page_address<R: Net>(rt: &R, matches: &ArgMatches<'_>) -> Result<Option<SocketAddr>, Misuse> {
    let Some(word) = matches.get_str("page") else {
        return Ok(None);
    };
    match found_address(rt, word) {
        Some(address) => Ok(Some(address)),
        None => Err(UNKNOWN_PAGE),
    }
}

/// The first address of `HOST:PORT`.
fn found_address<R: Net>(rt: &R, word: &str) -> Option<SocketAddr> {
    match word.to_socket_addrs(rt) {
        Ok(mut found) => found.next(),
        Err(_) => None,
    }
}

/// The files that the service keeps; the one of set values has this text. No variable is kept, and no program.
pub(crate) fn keeping_of<'a, 't>(matches: &ArgMatches<'a>, state: &'t str) -> Keeping<'a, 't> {
    Keeping {
        state: kept_state(matches.get_str("state"), state),
        status: matches.get_str("status-file"),
    }
}

fn kept_state<'a, 't>(path: Option<&'a str>, text: &'t str) -> Option<KeptState<'a, 't>> {
    match path {
        Some(path) => Some(KeptState {
            path,
            text,
            retained: &[],
            program: "",
        }),
        None => None,
    }
}
